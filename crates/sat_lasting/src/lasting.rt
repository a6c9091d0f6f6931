//! Sites that survive a stop, with the world that stands for the acts that they keep.
ghost use Rattle.std.specs.Prelude.{◌≡◌, ◌<◌, List, [], None, IfOk, replicate};
ghost use Rattle.sat_durable.specs.Memory.{memory_state};
ghost use Rattle.sat_lasting_laws.specs.Lastings.{LastingEntry, kept};
ghost use Rattle.sat_lasting_laws.specs.LastingRuns.{IsLastingRun};
ghost use Rattle.sat_lasting_laws.specs.Ranges.{IsLastingActOf};
ghost use Rattle.sat_world.specs.Stands.{StandsFor};
ghost use Rattle.sat_lasting.specs.Lasts.{AreFresh, IsJournalAt, IsSound, LastingApplies, LastsFor, whole_answer};

use crate::cut::Cut;
use crate::places::{put_cut, slot_at, step_at, stop_at, take_cut};
use crate::slot::Slot;
use sat_act::{Act, Answer, Deployment};
use sat_durable::MemoryDisk;
use sat_lasting_laws::{LastingAct, LastingAnswer};
use sat_world::World;
use std::alloc::{AllocError, Global};
use std::marker::Model;

/// A world, and for each of its sites the journal of its inputs. An act goes first to the journal, and only where its
/// input is there to the world: so the world never knows of an input that a stop could take away. Sites are held once:
/// a stop makes its site again from the disk, counts the inputs, and lets it go, since that site is the world's.
#[derive(Drop)]
pub struct Lasting {
    world: World,
    slots: Vec<Slot>,
    cuts: Vec<Option<Cut>>,
    // for the record of an input, while it is written
    buffer: Vec<u8>,
}

impl Model for Lasting {
    ghost use Rattle.sat_lasting.specs.Lasts.{HasPlaces, LastingSeen};

    ghost Value = { LastingSeen };

    ghost view = { λ l. record { world = l.world; slots = l.slots.items; cuts = l.cuts.items } };

    ghost invariant = { λ l. HasPlaces (record { world = l.world; slots = l.slots.items; cuts = l.cuts.items }) };
}

// A site of each number on a disk of its own.
fn fresh_slots(alloc: Global, d: &Deployment) -> Result<Vec<Slot>, AllocError>
    ensures { IfOk result (λ slots. AreFresh d.now d.now.sites slots.items) }
{
    let mut slots = Vec::new(alloc);
    for site in 0..d.sites() {
        let slot = Slot::new(alloc, d, site)?;
        slots.push(slot)?;
    }
    Ok(slots)
}

fn no_cuts(alloc: Global, d: &Deployment) -> Result<Vec<Option<Cut>>, AllocError>
    ensures { IfOk result (λ cuts. cuts.items ≡ replicate d.now.sites None) }
{
    let mut cuts = Vec::new(alloc);
    cuts.resize(d.sites() as usize, None)?;
    Ok(cuts)
}

// What an act answers whose input is there.
fn whole(cut: Option<Cut>, answer: Answer) -> LastingAnswer
    ensures { result ≡ whole_answer cut answer }
{
    match cut {
        None => LastingAnswer::Plain(answer),
        Some(_) => LastingAnswer::Stopped(answer),
    }
}

impl Lasting {
    /// The sites of a deployment, at which nothing has happened, each with a disk that has no record.
    pub fn new(alloc: Global, d: Deployment) -> Result<Lasting, AllocError>
        ensures deployment { IfOk result (λ l. l.world.deployment ≡ d) }
        ensures stands { IfOk result (λ l. LastsFor l []) }
    {
        let slots = fresh_slots(alloc, &d)?;
        let cuts = no_cuts(alloc, &d)?;
        let world = World::new(alloc, d)?;
        Ok(Lasting {
            world,
            slots,
            cuts,
            buffer: Vec::new(alloc),
        })
    }

    /// Does an act and answers it. A site whose records on its disk come to more than 2^40 bytes takes no further
    /// input: memory is wanting then. After want of memory nothing more is promised.
    pub fn apply(&mut self, act: &LastingAct) -> Result<LastingAnswer, AllocError>
        requires act { IsLastingActOf self.old.world.deployment act.now }
        requires sound { IsSound self.old }
        ensures applies { IfOk result (λ r. LastingApplies self.old act.now r self.new) }
    {
        match act {
            LastingAct::Plain(act) => self.plain(act),
            LastingAct::Stop { site } => self.stop(*site),
            LastingAct::Cut { site, calls, keep } => Ok(self.cut(*site, *calls, *keep)),
        }
    }

    /// The world, which stands for the run of the kept acts. It takes no memory.
    pub fn world(&self) -> &World
        ensures world { result.now ≡ self.now.world }
        ensures stands { (c : List LastingEntry) → IsLastingRun self.now.world.deployment c → LastsFor self.now c
            → StandsFor result.now (kept c) }
    {
        &self.world
    }

    /// The disk of a site, which holds a journal of the inputs that the site was handed by the kept acts. It takes no
    /// memory.
    pub fn disk(&self, site: u16) -> &MemoryDisk
        requires { site < self.now.world.deployment.sites }
        ensures { (c : List LastingEntry) → IsLastingRun self.now.world.deployment c → LastsFor self.now c
            → IsJournalAt self.now.world.deployment (kept c) site (memory_state result.now).content }
    {
        slot_at(&self.slots, site).disk()
    }

    // An act that reaches no site is the world's alone. Any other goes to its site on its disk, and where its input is
    // there to the world, whose site stands for the same state and so answers the same.
    fn plain(&mut self, act: &Act) -> Result<LastingAnswer, AllocError>
        requires act { IsLastingActOf self.old.world.deployment (LastingAct.Plain act.now) }
        requires sound { IsSound self.old }
        ensures applies { IfOk result (λ r. LastingApplies self.old (LastingAct.Plain act.now) r self.new) }
    {
        let _ = self.world.deployment().sites();
        let Some((site, input)) = self.world.handed_at(act)? else {
            let answer = self.world.step(act)?;
            return Ok(LastingAnswer::Plain(answer));
        };
        let alloc = self.world.allocator();
        let cut = take_cut(&mut self.cuts, site);
        let there = step_at(
            &mut self.slots,
            alloc,
            self.world.deployment(),
            site,
            input,
            cut,
            &mut self.buffer,
        )?;
        if !there {
            return Ok(LastingAnswer::StoppedWithout);
        }
        let answer = self.world.step(act)?;
        Ok(whole(cut, answer))
    }

    // A site stops between two acts.
    fn stop(&mut self, site: u16) -> Result<LastingAnswer, AllocError>
        requires act { IsLastingActOf self.old.world.deployment (LastingAct.Stop site) }
        requires sound { IsSound self.old }
        ensures applies { IfOk result (λ r. LastingApplies self.old (LastingAct.Stop site) r self.new) }
    {
        let _ = self.world.deployment().sites();
        let alloc = self.world.allocator();
        take_cut(&mut self.cuts, site);
        let count = stop_at(&mut self.slots, alloc, self.world.deployment(), site)?;
        Ok(LastingAnswer::Recovered(count))
    }

    // A cut waits, in the place of one that waited there.
    fn cut(&mut self, site: u16, calls: u64, keep: bool) -> LastingAnswer
        requires act { IsLastingActOf self.old.world.deployment (LastingAct.Cut site calls keep) }
        ensures applies { LastingApplies self.old (LastingAct.Cut site calls keep) result self.new }
    {
        let _ = self.world.deployment().sites();
        put_cut(&mut self.cuts, site, Cut { calls, keep });
        LastingAnswer::Armed
    }
}
