//! The world of all acts but a settle.
ghost use Rattle.std.specs.Prelude.{◌≡◌, ◌<◌, ◌+◌, true, false, List, [], ◌∷◌, length, slice_get, IfOk, IsNone};
ghost use Rattle.std.specs.Prelude.{OnErr, IsOk, MatchOption, Some, None};
ghost use Rattle.sat_act.specs.declared.act.Act.{Act as ActSeen};
ghost use Rattle.sat_act.specs.declared.entry.Entry.{Entry};
ghost use Rattle.sat_act.specs.Answers.{answer};
ghost use Rattle.sat_act.specs.Runs.{IsRun, is_settle};
ghost use Rattle.sat_act.specs.Ranges.{IsActOf};
ghost use Rattle.sat_act.specs.Settling.{is_done, capped};
ghost use Rattle.sat_act.specs.Headline.{IsGood};
ghost use Rattle.sat_act.specs.Parts.{view, emission, in_stamp_mode, waiting, replicates, version, carried, moving};
ghost use Rattle.sat_act.specs.Parts.{seat, tree_of, entered, taken};
ghost use Rattle.sat_tree.specs.Shape.{TreeShape};
ghost use Rattle.sat_label.specs.declared.node.NodeId.TheVariants.{Serializer as SerializerNode};
ghost use Rattle.sat_world.specs.TakesNone.{takes_none};
ghost use Rattle.sat_world.specs.Counts.{shown_count};
ghost use Rattle.sat_world.specs.Underway.{underway};
ghost use Rattle.sat_world.specs.Applies.{Applies};
ghost use Rattle.sat_world.specs.Steps.{act_at, is_quiet, WritesBy};
ghost use Rattle.sat_world.specs.Reaches.{Reaches, HandsSome};
ghost use Rattle.sat_world.specs.Worlds.{IsWorld};
ghost use Rattle.sat_world.specs.Shows.{IsVersion};
ghost use Rattle.sat_world.specs.Stands.{StandsFor};

use crate::{Client, SiteView, Version, clocks, nets, places, start, tally, underway};
use sat_act::{Act, Answer, Deployment, Refusal};
use sat_label::{Items, Label, NodeId, Value, Values};
use sat_net::Net;
use sat_site::{Site, SiteInput, interest};
use sat_sites::Interest;
use std::alloc::{AllocError, Global};
use std::marker::Model;

/// All sites, links and clients of a deployment. It keeps no past.
#[derive(Drop)]
pub struct World {
    deployment: Deployment,
    pub(crate) interest: Interest,
    pub(crate) sites: Vec<Site>,
    pub(crate) nets: Vec<Option<Net>>,
    clients: Vec<Client>,
    pub(crate) shown: u64,
}

impl Model for World {
    ghost use Rattle.sat_world.specs.Seen.{WorldSeen};
    ghost use Rattle.sat_world.specs.Worlds.{IsWorld};

    ghost Value = { WorldSeen };

    ghost view = { λ w.
        record {
          deployment = w.deployment;
          interest = w.interest;
          sites = w.sites.items;
          nets = w.nets.items;
          clients = w.clients.items;
          shown = w.shown;
        } };

    ghost invariant = { λ w.
        IsWorld
        (record {
          deployment = w.deployment;
          interest = w.interest;
          sites = w.sites.items;
          nets = w.nets.items;
          clients = w.clients.items;
          shown = w.shown;
        }) };
}

impl World {
    /// The world in which nothing has happened yet.
    pub fn new(alloc: Global, d: Deployment) -> Result<World, AllocError>
        ensures deployment { IfOk result (λ w. w.deployment ≡ d) }
        ensures stands { IfOk result (λ w. StandsFor w []) }
    {
        let interest = interest(alloc, &d)?;
        let sites = start::sites(alloc, &d, &interest)?;
        let nets = start::nets(alloc, d.plans())?;
        let clients = start::clients(alloc, &d)?;
        Ok(World {
            deployment: d,
            interest,
            sites,
            nets,
            clients,
            shown: 0,
        })
    }

    /// Does an act and answers it, by the call of its kind. For want of memory the world is as before. A tick, a clock,
    /// a leave, an attach, a turn, a stamp, a fall, an advance and a kill take none.
    #[inline(always)]
    pub fn apply(&mut self, act: &Act) -> Result<Answer, AllocError>
        requires act { IsActOf self.old.deployment act.now }
        requires plain { is_settle act.now ≡ false }
        ensures answer { IfOk result (λ r. (h : List Entry) → IsRun self.old.deployment h → StandsFor self.old h
            → r ≡ answer self.old.deployment h act.now) }
        ensures run { IfOk result (λ r. (h : List Entry) → IsRun self.old.deployment h → StandsFor self.old h
            → IsRun self.new.deployment (record { act = act.now; answer = r; inner = false } ∷ h)) }
        ensures stands { IfOk result (λ r. (h : List Entry) → IsRun self.old.deployment h → StandsFor self.old h
            → StandsFor self.new (record { act = act.now; answer = r; inner = false } ∷ h)) }
        ensures good { IfOk result (λ r. (h : List Entry) → IsRun self.old.deployment h → StandsFor self.old h
            → IsGood self.old.deployment (record { act = act.now; answer = r; inner = false } ∷ h)) }
        ensures spare { takes_none act.now ≡ true → IsOk result }
        ensures refused { IfOk result (λ r. is_done r ≡ false → self.new ≡ self.old) }
        ensures deployment { self.new.deployment ≡ self.old.deployment }
        ensures err { OnErr result (self.new ≡ self.old) }
    {
        self.step(act)
    }

    /// The deployment.
    pub fn deployment(&self) -> &Deployment
        ensures { result.now ≡ self.now.deployment }
    {
        &self.deployment
    }

    /// The allocator that the world was made with.
    pub fn allocator(&self) -> Global {
        *self.sites.allocator()
    }

    /// What a site shows of itself. It takes no memory.
    pub fn site(&self, i: u16) -> SiteView
        requires { i < self.now.deployment.sites }
        ensures view { (h : List Entry) → IsRun self.now.deployment h → StandsFor self.now h → result.view ≡ view h i }
        ensures emission { (h : List Entry) → IsRun self.now.deployment h → StandsFor self.now h
            → result.emission ≡ emission h i }
        ensures stamp { (h : List Entry) → IsRun self.now.deployment h → StandsFor self.now h
            → result.stamp ≡ in_stamp_mode self.now.deployment h i }
        ensures waiting { (h : List Entry) → IsRun self.now.deployment h → StandsFor self.now h
            → result.waiting ≡ length (waiting h i) }
    {
        let site = &self.sites[i as usize];
        site.view()
    }

    /// The version of an item at a site that keeps it, None where the site shows none. At a site that does not keep it
    /// there is none, also where the site shows an update that has it. It takes no memory.
    pub fn version(&self, i: u16, item: u16) -> Option<&Version>
        requires site { i < self.now.deployment.sites }
        requires item { item < length self.now.deployment.items }
        ensures kept { (h : List Entry) → IsRun self.now.deployment h → StandsFor self.now h
            → replicates self.now.deployment item i ≡ true
            → MatchOption result (version h i item ≡ None) (λ v. IsVersion h i item v.now) }
        ensures away { replicates self.now.deployment item i ≡ false → IsNone result }
    {
        let site = &self.sites[i as usize];
        site.version(item)
    }

    /// A client: the point that it carries, where it is moving to, and its seat. It takes no memory.
    pub fn client(&self, c: u16) -> &Client
        requires { c < length self.now.deployment.clients }
        ensures point { (h : List Entry) → IsRun self.now.deployment h → StandsFor self.now h
            → result.now.carried.point ≡ carried h c }
        ensures moving { (h : List Entry) → IsRun self.now.deployment h → StandsFor self.now h
            → result.now.carried.moving ≡ moving h c }
        ensures seat { (h : List Entry) → IsRun self.now.deployment h → StandsFor self.now h
            → result.now.seat ≡ seat self.now.deployment h c }
    {
        &self.clients[c as usize]
    }

    /// The number of answers Shown so far, or 2^64 - 1 where it is greater. It takes no memory.
    pub fn shown(&self) -> u64
        ensures { (h : List Entry) → IsRun self.now.deployment h → StandsFor self.now h
            → result ≡ capped (shown_count h) }
    {
        self.shown
    }

    /// What is under way: the sum over all lanes of payloads made less taken, and over all links of labels entered less
    /// taken, or 2^64 - 1 where it is greater. It takes no memory.
    pub fn underway(&self) -> u64
        ensures { (h : List Entry) → IsRun self.now.deployment h → StandsFor self.now h
            → result ≡ capped (underway self.now.deployment h) }
    {
        let sites = self.deployment.sites();
        let gears = self.deployment.gears();
        underway::in_lanes(&self.sites, sites, gears).saturating_add(underway::on_links(&self.nets))
    }

    /// Does an act and answers it, as `apply` does it, whose clauses on the answer are one here. The calls below do one
    /// kind of act each.
    #[inline(always)]
    pub fn step(&mut self, act: &Act) -> Result<Answer, AllocError>
        requires act { IsActOf self.old.deployment act.now }
        requires plain { is_settle act.now ≡ false }
        ensures applies { IfOk result (λ r. Applies self.old act.now r self.new) }
        ensures spare { takes_none act.now ≡ true → IsOk result }
        ensures err { OnErr result (self.new ≡ self.old) }
    {
        match act {
            Act::Tick { site, gear, ts } => self.tick(*site, *gear, *ts),
            Act::Clock => self.clock(),
            Act::Write {
                client,
                item,
                value,
            } => self.write(*client, *item, value),
            Act::Writes {
                client,
                items,
                values,
            } => self.writes(*client, items, values),
            Act::Read { client, item } => self.read(*client, *item),
            Act::Move { client, site } => self.migrate(*client, *site),
            Act::Leave { client } => self.leave(*client),
            Act::Attach { client, site } => self.attach(*client, *site),
            Act::Gather { site } => self.gather(*site),
            Act::Emit { site } => self.emit(*site),
            Act::Pulse { site } => self.pulse(*site),
            Act::Hop { epoch, from, to } => self.hop(*epoch, *from, *to),
            Act::Turn { site } => self.turn(*site),
            Act::Bulk {
                from,
                gear,
                to,
                number,
            } => self.bulk(*from, *gear, *to, *number),
            Act::Beat { from, to } => self.beat(*from, *to),
            Act::BeatIn { from, to, number } => self.beat_in(*from, *to, *number),
            Act::Stamp { site } => self.stamp(*site),
            Act::Close { site } => self.close(*site),
            Act::Fall { site } => self.fall(*site),
            Act::Advance { site } => self.advance(*site),
            Act::Kill { epoch, serializer } => self.kill(*epoch, *serializer),
            Act::Settle => unreachable!(),
        }
    }

    /// A tick of a gear, as `apply` does it. It takes no memory.
    pub fn tick(&mut self, site: u16, gear: u16, ts: u64) -> Result<Answer, AllocError>
        requires { IsActOf self.old.deployment (Act.Tick site gear ts) }
        ensures applies { IfOk result (λ r. Applies self.old (Act.Tick site gear ts) r self.new) }
        ensures fine { IsOk result }
    {
        Ok(places::tick_at(&mut self.sites, site, gear, ts))
    }

    /// A gather, as `apply` does it.
    pub fn gather(&mut self, site: u16) -> Result<Answer, AllocError>
        requires { IsActOf self.old.deployment (Act.Gather site) }
        ensures applies { IfOk result (λ r. Applies self.old (Act.Gather site) r self.new) }
        ensures err { OnErr result (self.new ≡ self.old) }
    {
        let answer = places::gather_at(&mut self.sites, site)?;
        Ok(answer)
    }

    /// A beat, as `apply` does it.
    pub fn beat(&mut self, from: u16, to: u16) -> Result<Answer, AllocError>
        requires { IsActOf self.old.deployment (Act.Beat from to) }
        ensures applies { IfOk result (λ r. Applies self.old (Act.Beat from to) r self.new) }
        ensures err { OnErr result (self.new ≡ self.old) }
    {
        self.local(from, SiteInput::Beat { to })
    }

    /// A fall, as `apply` does it. It takes no memory.
    pub fn fall(&mut self, site: u16) -> Result<Answer, AllocError>
        requires { IsActOf self.old.deployment (Act.Fall site) }
        ensures applies { IfOk result (λ r. Applies self.old (Act.Fall site) r self.new) }
        ensures fine { IsOk result }
    {
        self.local(site, SiteInput::Fall)
    }

    /// An advance, as `apply` does it. It takes no memory.
    pub fn advance(&mut self, site: u16) -> Result<Answer, AllocError>
        requires { IsActOf self.old.deployment (Act.Advance site) }
        ensures applies { IfOk result (λ r. Applies self.old (Act.Advance site) r self.new) }
        ensures fine { IsOk result }
    {
        self.local(site, SiteInput::Advance)
    }

    /// A stamp, as `apply` does it. It takes no memory.
    pub fn stamp(&mut self, site: u16) -> Result<Answer, AllocError>
        requires { IsActOf self.old.deployment (Act.Stamp site) }
        ensures applies { IfOk result (λ r. Applies self.old (Act.Stamp site) r self.new) }
        ensures fine { IsOk result }
    {
        let answer = places::step_at(&mut self.sites, site, SiteInput::Stamp)?;
        self.shown = tally::more_shown(self.shown, &answer);
        Ok(answer)
    }

    /// A pulse, as `apply` does it.
    // What a site sends is on its way before the site has sent it, in its emission epoch as it is before the act, since
    // a sending takes no memory and the way may.
    pub fn pulse(&mut self, site: u16) -> Result<Answer, AllocError>
        requires { IsActOf self.old.deployment (Act.Pulse site) }
        ensures applies { IfOk result (λ r. Applies self.old (Act.Pulse site) r self.new) }
        ensures err { OnErr result (self.new ≡ self.old) }
    {
        let known = &self.sites[site as usize];
        let epoch = known.view().emission;
        let sent = known.sends(&SiteInput::Pulse);
        nets::send_at(&mut self.nets, epoch as usize - 1, site, sent)?;
        Ok(places::pulse_at(&mut self.sites, site))
    }

    /// A close, as `apply` does it.
    pub fn close(&mut self, site: u16) -> Result<Answer, AllocError>
        requires { IsActOf self.old.deployment (Act.Close site) }
        ensures applies { IfOk result (λ r. Applies self.old (Act.Close site) r self.new) }
        ensures err { OnErr result (self.new ≡ self.old) }
    {
        let known = &self.sites[site as usize];
        let epoch = known.view().emission;
        let sent = known.sends(&SiteInput::Close);
        nets::send_at(&mut self.nets, epoch as usize - 1, site, sent)?;
        let answer = places::step_at(&mut self.sites, site, SiteInput::Close)?;
        Ok(answer)
    }

    // An act that changes one site and nothing else, and shows nothing.
    fn local(&mut self, site: u16, input: SiteInput) -> Result<Answer, AllocError>
        requires act { IsActOf self.old.deployment (act_at site input) }
        requires quiet { is_quiet (act_at site input) ≡ true }
        ensures applies { IfOk result (λ r. Applies self.old (act_at site input) r self.new) }
        ensures spare { takes_none (act_at site input) ≡ true → IsOk result }
        ensures err { OnErr result (self.new ≡ self.old) }
    {
        let answer = places::step_at(&mut self.sites, site, input)?;
        Ok(answer)
    }

    /// A clock, as `apply` does it. It takes no memory.
    pub fn clock(&mut self) -> Result<Answer, AllocError>
        ensures applies { IfOk result (λ r. Applies self.old Act.Clock r self.new) }
        ensures fine { IsOk result }
    {
        let gears = self.deployment.gears();
        let ts = clocks::greatest(&self.sites, gears);
        clocks::raise(&mut self.sites, ts);
        Ok(Answer::Clocked(ts))
    }

    /// A client's write, as `apply` does it. The value is copied where the site does it.
    pub fn write(&mut self, client: u16, item: u16, value: &Value) -> Result<Answer, AllocError>
        requires { IsActOf self.old.deployment (Act.Write client item value.now) }
        ensures applies { IfOk result (λ r. Applies self.old (Act.Write client item value.now) r self.new) }
        ensures err { OnErr result (self.new ≡ self.old) }
    {
        self.write_items(client, Items::One(item), std::slice::from_ref(value))
    }

    /// A client's write of several items under one label, as `apply` does it. The values are copied where the site does
    /// it.
    pub fn writes(
        &mut self,
        client: u16,
        items: &Items,
        values: &Values,
    ) -> Result<Answer, AllocError>
        requires { IsActOf self.old.deployment (Act.Writes client items.now values.now) }
        ensures applies { IfOk result (λ r. Applies self.old (Act.Writes client items.now values.now) r self.new) }
        ensures err { OnErr result (self.new ≡ self.old) }
    {
        self.write_items(client, *items, values.as_slice())
    }

    // A client's write of one item or several, by what the act writes.
    fn write_items(
        &mut self,
        client: u16,
        items: Items,
        values: &[Value],
    ) -> Result<Answer, AllocError>
        requires { (a : ActSeen) × WritesBy self.old.deployment client items values.now a }
        ensures applies { IfOk result (λ r. (a : ActSeen) → WritesBy self.old.deployment client items values.now a
            → Applies self.old a r self.new) }
        ensures err { OnErr result (self.new ≡ self.old) }
    {
        let known = self.clients[client as usize];
        let Some(seat) = known.seat else {
            return Ok(Answer::Refused(Refusal::NoSession));
        };
        let answer = places::write_at(&mut self.sites, seat, known.carried, items, values)?;
        places::tell_at(&mut self.clients, client, &answer);
        Ok(answer)
    }

    /// A client's read, as `apply` does it.
    pub fn read(&mut self, client: u16, item: u16) -> Result<Answer, AllocError>
        requires { IsActOf self.old.deployment (Act.Read client item) }
        ensures applies { IfOk result (λ r. Applies self.old (Act.Read client item) r self.new) }
        ensures err { OnErr result (self.new ≡ self.old) }
    {
        let known = self.clients[client as usize];
        let Some(seat) = known.seat else {
            return Ok(Answer::Refused(Refusal::NoSession));
        };
        let input = SiteInput::Read {
            carried: known.carried,
            item,
        };
        let answer = places::step_at(&mut self.sites, seat, input)?;
        places::tell_at(&mut self.clients, client, &answer);
        Ok(answer)
    }

    /// A client's move to a site, as `apply` does it.
    pub fn migrate(&mut self, client: u16, to: u16) -> Result<Answer, AllocError>
        requires { IsActOf self.old.deployment (Act.Move client to) }
        ensures applies { IfOk result (λ r. Applies self.old (Act.Move client to) r self.new) }
        ensures err { OnErr result (self.new ≡ self.old) }
    {
        let known = self.clients[client as usize];
        let Some(seat) = known.seat else {
            return Ok(Answer::Refused(Refusal::NoSession));
        };
        let input = SiteInput::Move {
            carried: known.carried,
            to,
        };
        let answer = places::step_at(&mut self.sites, seat, input)?;
        places::tell_at(&mut self.clients, client, &answer);
        Ok(answer)
    }

    /// A client's leave, as `apply` does it. It takes no memory.
    pub fn leave(&mut self, client: u16) -> Result<Answer, AllocError>
        requires { IsActOf self.old.deployment (Act.Leave client) }
        ensures applies { IfOk result (λ r. Applies self.old (Act.Leave client) r self.new) }
        ensures fine { IsOk result }
    {
        let known = self.clients[client as usize];
        let Some(_) = known.seat else {
            return Ok(Answer::Refused(Refusal::NoSession));
        };
        places::leave_at(&mut self.clients, client);
        Ok(Answer::Left(known.carried.point))
    }

    /// A client's attach to a site, as `apply` does it. It takes no memory.
    pub fn attach(&mut self, client: u16, site: u16) -> Result<Answer, AllocError>
        requires { IsActOf self.old.deployment (Act.Attach client site) }
        ensures applies { IfOk result (λ r. Applies self.old (Act.Attach client site) r self.new) }
        ensures fine { IsOk result }
    {
        let known = self.clients[client as usize];
        let None = known.seat else {
            return Ok(Answer::Refused(Refusal::Joined));
        };
        let input = SiteInput::Attach {
            carried: known.carried,
        };
        let answer = places::step_at(&mut self.sites, site, input)?;
        places::join_at(&mut self.clients, client, site, &answer);
        Ok(answer)
    }

    /// An emission, as `apply` does it.
    // A site looks for its next label once: where it has none the act is refused.
    pub fn emit(&mut self, site: u16) -> Result<Answer, AllocError>
        requires { IsActOf self.old.deployment (Act.Emit site) }
        ensures applies { IfOk result (λ r. Applies self.old (Act.Emit site) r self.new) }
        ensures err { OnErr result (self.new ≡ self.old) }
    {
        let known = &self.sites[site as usize];
        let Some(label) = known.next() else {
            return Ok(Answer::Refused(Refusal::Idle));
        };
        let epoch = known.view().emission;
        let sent = known.sends_next(Some(label));
        nets::send_at(&mut self.nets, epoch as usize - 1, site, sent)?;
        Ok(places::emit_at(&mut self.sites, site, label))
    }

    /// A hop of an epoch's tree, as `apply` does it.
    pub fn hop(&mut self, epoch: u16, from: NodeId, to: u16) -> Result<Answer, AllocError>
        requires { IsActOf self.old.deployment (Act.Hop epoch from to) }
        ensures applies { IfOk result (λ r. Applies self.old (Act.Hop epoch from to) r self.new) }
        ensures err { OnErr result (self.new ≡ self.old) }
    {
        let place = epoch as usize - 1;
        let answer = nets::hop_at(&mut self.nets, place, &self.interest, from, to)?;
        Ok(answer)
    }

    /// The label at a place of the link to a serializer, counted from the oldest one that it has not taken, None where
    /// there is none. It asks for an edge of an epoch's tree. It takes no memory, and works after a kill too.
    pub fn ahead(&self, epoch: u16, from: NodeId, to: u16, count: u64) -> Option<Label>
        requires { IsActOf self.now.deployment (Act.Hop epoch from to) }
        ensures { (h : List Entry) → IsRun self.now.deployment h → StandsFor self.now h → (tree : TreeShape)
            → tree_of self.now.deployment epoch ≡ Some tree →
            result ≡ slice_get (entered self.now.deployment h epoch tree from (SerializerNode to))
            (taken self.now.deployment h epoch from (SerializerNode to) + count) }
    {
        let place = epoch as usize - 1;
        nets::ahead_at(&self.nets, place, from, to, count as usize)
    }

    /// A turn, as `apply` does it. It takes no memory.
    pub fn turn(&mut self, site: u16) -> Result<Answer, AllocError>
        requires { IsActOf self.old.deployment (Act.Turn site) }
        ensures applies { IfOk result (λ r. Applies self.old (Act.Turn site) r self.new) }
        ensures fine { IsOk result }
    {
        let known = &self.sites[site as usize];
        let place = known.view().view as usize - 1;
        let front = nets::front_at(&self.nets, place, site);
        let answer = places::turn_at(&mut self.sites, site, front);
        nets::take_at(&mut self.nets, place, site, &answer);
        self.shown = tally::more_shown(self.shown, &answer);
        Ok(answer)
    }

    /// A payload of a lane comes in, that of a number or the next one, as `apply` does it.
    // No memory holds payloads whose number has more than 63 bits.
    pub fn bulk(
        &mut self,
        from: u16,
        gear: u16,
        to: u16,
        asked: Option<u64>,
    ) -> Result<Answer, AllocError>
        requires { IsActOf self.old.deployment (Act.Bulk from gear to asked) }
        ensures applies { IfOk result (λ r. Applies self.old (Act.Bulk from gear to asked) r self.new) }
        ensures err { OnErr result (self.new ≡ self.old) }
    {
        let receiver = &self.sites[to as usize];
        let number = places::payload_number(receiver, from, gear, asked);
        let sender = &self.sites[from as usize];
        let Some(payload) = sender.payload(gear, to, number) else {
            return Ok(Answer::Refused(Refusal::NoSuch));
        };
        if number >= 1 << 63 {
            return Err(AllocError);
        }
        let payload = payload.copy()?;
        let answer = places::bulk_at(&mut self.sites, to, from, gear, number, payload)?;
        Ok(answer)
    }

    /// A beat that a site made for another one comes in, as `apply` does it.
    // No memory holds beats whose number has more than 63 bits.
    pub fn beat_in(&mut self, from: u16, to: u16, number: u64) -> Result<Answer, AllocError>
        requires { IsActOf self.old.deployment (Act.BeatIn from to number) }
        ensures applies { IfOk result (λ r. Applies self.old (Act.BeatIn from to number) r self.new) }
        ensures err { OnErr result (self.new ≡ self.old) }
    {
        let sender = &self.sites[from as usize];
        let Some(beat) = sender.made_beat(to, number) else {
            return Ok(Answer::Refused(Refusal::NoSuch));
        };
        if number >= 1 << 63 {
            return Err(AllocError);
        }
        let beat = beat.copy()?;
        let input = SiteInput::BeatIn { from, number, beat };
        let answer = places::step_at(&mut self.sites, to, input)?;
        Ok(answer)
    }

    /// A serializer of an epoch fails, as `apply` does it. It takes no memory.
    pub fn kill(&mut self, epoch: u16, serializer: u16) -> Result<Answer, AllocError>
        requires { IsActOf self.old.deployment (Act.Kill epoch serializer) }
        ensures applies { IfOk result (λ r. Applies self.old (Act.Kill epoch serializer) r self.new) }
        ensures fine { IsOk result }
    {
        Ok(nets::kill_at(&mut self.nets, epoch as usize - 1, serializer))
    }

    /// What an act hands to the site that it is an act at, as `apply` would hand it. None exactly where it reaches no
    /// site: a leave, a hop, a kill, a clock and a settle reach none, nor does an act that is refused as NoSession,
    /// Joined or NoSuch; every other act, refused or not, reaches one. Nothing is done. It takes memory for the values,
    /// the payload or the beat that is handed.
    pub fn handed(&self, act: &Act) -> Result<Option<SiteInput>, AllocError>
        requires { IsActOf self.now.deployment act.now }
        ensures { IfOk result (λ found. HandsSome self.now act.now found) }
    {
        let Some((_, input)) = self.handed_at(act)? else {
            return Ok(None);
        };
        Ok(Some(input))
    }

    /// The same, with the number of the site.
    pub fn handed_at(&self, act: &Act) -> Result<Option<(u16, SiteInput)>, AllocError>
        requires { IsActOf self.now.deployment act.now }
        ensures { IfOk result (λ found. Reaches self.now act.now found) }
    {
        let _ = &self.sites;
        match act {
            Act::Tick { site, gear, ts } => Ok(Some((
                *site,
                SiteInput::Tick {
                    gear: *gear,
                    ts: *ts,
                },
            ))),
            Act::Clock => Ok(None),
            Act::Write {
                client,
                item,
                value,
            } => self.handed_one(*client, *item, value),
            Act::Writes {
                client,
                items,
                values,
            } => self.handed_many(*client, items, values),
            Act::Read { client, item } => Ok(self.handed_read(*client, *item)),
            Act::Move { client, site } => Ok(self.handed_move(*client, *site)),
            Act::Leave { client: _ } => Ok(None),
            Act::Attach { client, site } => Ok(self.handed_attach(*client, *site)),
            Act::Gather { site } => Ok(Some((*site, SiteInput::Gather))),
            Act::Emit { site } => Ok(Some((*site, SiteInput::Emit))),
            Act::Pulse { site } => Ok(Some((*site, SiteInput::Pulse))),
            Act::Hop {
                epoch: _,
                from: _,
                to: _,
            } => Ok(None),
            Act::Turn { site } => Ok(self.handed_turn(*site)),
            Act::Bulk {
                from,
                gear,
                to,
                number,
            } => self.handed_bulk(*from, *gear, *to, *number),
            Act::Beat { from, to } => Ok(Some((*from, SiteInput::Beat { to: *to }))),
            Act::BeatIn { from, to, number } => self.handed_beat(*from, *to, *number),
            Act::Stamp { site } => Ok(Some((*site, SiteInput::Stamp))),
            Act::Close { site } => Ok(Some((*site, SiteInput::Close))),
            Act::Fall { site } => Ok(Some((*site, SiteInput::Fall))),
            Act::Advance { site } => Ok(Some((*site, SiteInput::Advance))),
            Act::Kill {
                epoch: _,
                serializer: _,
            } => Ok(None),
            Act::Settle => Ok(None),
        }
    }

    // What a client's write of one item hands to its seat.
    fn handed_one(
        &self,
        client: u16,
        item: u16,
        value: &Value,
    ) -> Result<Option<(u16, SiteInput)>, AllocError>
        requires { IsActOf self.now.deployment (Act.Write client item value.now) }
        ensures { IfOk result (λ found. Reaches self.now (Act.Write client item value.now) found) }
    {
        let copy = value.copy()?;
        let values = Values::one(self.allocator(), copy)?;
        Ok(self.handed_write(client, Items::One(item), values))
    }

    // What a client's write of several items hands to its seat.
    fn handed_many(
        &self,
        client: u16,
        items: &Items,
        values: &Values,
    ) -> Result<Option<(u16, SiteInput)>, AllocError>
        requires { IsActOf self.now.deployment (Act.Writes client items.now values.now) }
        ensures { IfOk result (λ found. Reaches self.now (Act.Writes client items.now values.now) found) }
    {
        let values = values.copy()?;
        Ok(self.handed_write(client, *items, values))
    }

    // What a client's write of one item or several hands to its seat, by what the act writes.
    fn handed_write(&self, client: u16, items: Items, values: Values) -> Option<(u16, SiteInput)>
        requires { (a : ActSeen) × WritesBy self.now.deployment client items values a }
        ensures { (a : ActSeen) → WritesBy self.now.deployment client items values a → Reaches self.now a result }
    {
        let known = self.clients[client as usize];
        let Some(seat) = known.seat else {
            return None;
        };
        let input = SiteInput::Write {
            carried: known.carried,
            items,
            values,
        };
        Some((seat, input))
    }

    // What a client's read hands to its seat.
    fn handed_read(&self, client: u16, item: u16) -> Option<(u16, SiteInput)>
        requires { IsActOf self.now.deployment (Act.Read client item) }
        ensures { Reaches self.now (Act.Read client item) result }
    {
        let known = self.clients[client as usize];
        let Some(seat) = known.seat else {
            return None;
        };
        let input = SiteInput::Read {
            carried: known.carried,
            item,
        };
        Some((seat, input))
    }

    // What a client's move hands to its seat.
    fn handed_move(&self, client: u16, to: u16) -> Option<(u16, SiteInput)>
        requires { IsActOf self.now.deployment (Act.Move client to) }
        ensures { Reaches self.now (Act.Move client to) result }
    {
        let known = self.clients[client as usize];
        let Some(seat) = known.seat else {
            return None;
        };
        let input = SiteInput::Move {
            carried: known.carried,
            to,
        };
        Some((seat, input))
    }

    // What a client's attach hands to the site that it comes to.
    fn handed_attach(&self, client: u16, site: u16) -> Option<(u16, SiteInput)>
        requires { IsActOf self.now.deployment (Act.Attach client site) }
        ensures { Reaches self.now (Act.Attach client site) result }
    {
        let known = self.clients[client as usize];
        let None = known.seat else {
            return None;
        };
        let input = SiteInput::Attach {
            carried: known.carried,
        };
        Some((site, input))
    }

    // What a turn hands to its site.
    fn handed_turn(&self, site: u16) -> Option<(u16, SiteInput)>
        requires { IsActOf self.now.deployment (Act.Turn site) }
        ensures { Reaches self.now (Act.Turn site) result }
    {
        let known = &self.sites[site as usize];
        let place = known.view().view as usize - 1;
        let front = nets::front_at(&self.nets, place, site);
        Some((site, SiteInput::Turn { front }))
    }

    // What a bulk hands to the site that the payload comes to. No memory holds payloads whose number has more than 63
    // bits.
    fn handed_bulk(
        &self,
        from: u16,
        gear: u16,
        to: u16,
        asked: Option<u64>,
    ) -> Result<Option<(u16, SiteInput)>, AllocError>
        requires { IsActOf self.now.deployment (Act.Bulk from gear to asked) }
        ensures { IfOk result (λ found. Reaches self.now (Act.Bulk from gear to asked) found) }
    {
        let receiver = &self.sites[to as usize];
        let number = places::payload_number(receiver, from, gear, asked);
        let sender = &self.sites[from as usize];
        let Some(payload) = sender.payload(gear, to, number) else {
            return Ok(None);
        };
        if number >= 1 << 63 {
            return Err(AllocError);
        }
        let payload = payload.copy()?;
        let input = SiteInput::Bulk {
            from,
            gear,
            number,
            payload,
        };
        Ok(Some((to, input)))
    }

    // What a beat that comes hands to its site. No memory holds beats whose number has more than 63 bits.
    fn handed_beat(
        &self,
        from: u16,
        to: u16,
        number: u64,
    ) -> Result<Option<(u16, SiteInput)>, AllocError>
        requires { IsActOf self.now.deployment (Act.BeatIn from to number) }
        ensures { IfOk result (λ found. Reaches self.now (Act.BeatIn from to number) found) }
    {
        let sender = &self.sites[from as usize];
        let Some(beat) = sender.made_beat(to, number) else {
            return Ok(None);
        };
        if number >= 1 << 63 {
            return Err(AllocError);
        }
        let beat = beat.copy()?;
        Ok(Some((to, SiteInput::BeatIn { from, number, beat })))
    }
}
