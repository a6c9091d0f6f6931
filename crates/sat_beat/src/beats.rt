//! The beats of all sites.
ghost use Rattle.std.specs.Prelude.{◌≡◌, ◌<◌, length, replicate, option_copied, option_map, IfOk, IfErr, OnOk, OnErr};
ghost use Rattle.sat_beat.specs.Beats.{after_take, fresh_beats, none_taken, refreshed, take_answer, taken_of};
ghost use Rattle.sat_beat.specs.Beats.{with_taken, HasOneMore, IsBeats, KeepsBest};

use crate::Beat;
use crate::taken::Taken;
use std::alloc::{AllocError, Global};
use std::marker::Model;

/// What became of a beat that came.
#[derive(Clone, Copy, Debug, PartialEq, Eq)]
pub enum BeatTake {
    /// It came for the first time.
    New,
    /// It was taken before.
    Again,
    /// The best beat has its number or a greater one.
    Old,
}

/// The beats that a site took, by the site that sent them. A beat is complete once the front of each gear's lane from
/// its site, the number of payloads that came without a gap, is at or above the beat's count; a gear without a front
/// counts as 0. The best beat of a site is the complete one of the greatest number, and of the beats below it none is
/// kept.
#[derive(Drop)]
pub struct Beats {
    gears: u16,
    rows: Vec<Taken>,
}

impl Model for Beats {
    ghost use Rattle.sat_beat.specs.Beats.{BeatsSeen, IsBeats};

    ghost Value = { BeatsSeen };

    ghost view = { λ a. record { gears = a.gears; rows = a.rows.items } };

    ghost invariant = { λ a. IsBeats (record { gears = a.gears; rows = a.rows.items }) };
}

// Of so many sites no beat was taken.
fn fresh_rows(alloc: Global, sites: u16) -> Result<Vec<Taken>, AllocError>
    ensures { IfOk result (λ rows. rows.items ≡ replicate sites none_taken) }
{
    let mut rows = Vec::with_capacity(alloc, sites as usize)?;
    'rows: for _ in 0..sites {
        rows.push(Taken::new(alloc))?;
    }
    Ok(rows)
}

impl Beats {
    /// Of so many sites, with so many gears each, no beat was taken.
    #[tactic(auto, using(crate::proofs::Rows::fresh_is))]
    pub fn new(alloc: Global, sites: u16, gears: u16) -> Result<Beats, AllocError>
        ensures { IfOk result (λ beats. beats ≡ fresh_beats sites gears) }
    {
        let rows = fresh_rows(alloc, sites)?;
        Ok(Beats { gears, rows })
    }

    /// The best beat of a site, by the fronts that came with the last `take` or `refresh` for it.
    pub fn best(&self, from: u16) -> Option<&Beat>
        requires { from < length self.now.rows }
        ensures best { option_copied result ≡ option_map (λ b. b.1) (taken_of self.now from).best }
        ensures limits { IsBeats self.now }
    {
        self.rows[from as usize].best()
    }

    /// Moves the best beat of a site forward, by the front of each gear, after a payload came. It takes no memory.
    #[tactic(auto, using(crate::proofs::Rows::refreshed_rows, crate::proofs::Rows::refreshed_best))]
    pub fn refresh(&mut self, from: u16, fronts: &[u64])
        requires { from < length self.old.rows }
        ensures new { self.new ≡ with_taken self.old from (refreshed fronts.now (taken_of self.old from)) }
        ensures best { KeepsBest fronts.now (taken_of self.old from) (taken_of self.new from) }
    {
        let row = &mut self.rows[from as usize];
        row.refresh(fronts);
    }

    /// Takes a beat of a site, which has one count for each gear, and moves the best forward, by the front of each
    /// gear. It is old where the best beat, so moved, has its number or a greater one; else it comes again where it was
    /// taken before. For want of memory the beat comes back, and all is as before.
    #[tactic(auto, using(crate::proofs::Rows::taken_rows, crate::proofs::Rows::taken_best, crate::proofs::Rows::taken_more))]
    pub fn take(
        &mut self,
        from: u16,
        number: u64,
        beat: Beat,
        fronts: &[u64],
    ) -> Result<BeatTake, Beat>
        requires from { from < length self.old.rows }
        requires counts { length beat.counts ≡ self.old.gears }
        ensures answer { IfOk result (λ took. took ≡ take_answer fronts.now (taken_of self.old from) number) }
        ensures new { OnOk result
            (self.new ≡ with_taken self.old from (after_take fronts.now (taken_of self.old from) number beat)) }
        ensures best { OnOk result (KeepsBest fronts.now (taken_of self.old from) (taken_of self.new from)) }
        ensures numbers { OnOk result (HasOneMore (taken_of self.old from) number (taken_of self.new from)) }
        ensures back { IfErr result (λ back. back ≡ beat) }
        ensures err { OnErr result (self.new ≡ self.old) }
    {
        let row = &mut self.rows[from as usize];
        let took = row.take(number, beat, fronts)?;
        Ok(took)
    }
}
