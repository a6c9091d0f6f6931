//! The acts of a large script, one after another.
ghost use Rattle.std.specs.Prelude.{◌≡◌, ◌≤◌, ◌+◌, ◌∷◌, [], drop, length, IfSome, IsNone};
ghost use Rattle.sat_script.specs.Spelled.{Spells, spelling};
ghost use Rattle.sat_settle.specs.LoadActs.{closes, closes_after, load_acts};
ghost use Rattle.sat_settle.specs.LoadDraft.{drafted};
ghost use Rattle.sat_settle.specs.LoadHeader.{load_deployment};

use crate::load_draft::Draft;
use crate::load_draws::Draws;
use crate::load_header::SITES;
use crate::load_rows::next_draft;
use crate::load_script::MOST_LOADED;
use sat_act::Deployment;
use std::marker::Model;

/// The acts of a large script, one after another: each is drawn when it is asked for, and none is kept. Contracts see
/// those that are still to come.
#[derive(Drop)]
pub struct LoadActs {
    draws: Draws,
    count: u32,
    drawn: u32,
    // How many sites have closed their epoch, or all of them where none is to.
    closed: u16,
    settled: bool,
}

impl Model for LoadActs {
    ghost use Rattle.std.specs.Prelude.{List};
    ghost use Rattle.sat_act.specs.declared.act.Act.{Act};
    ghost use Rattle.sat_settle.specs.LoadLeft.{to_come};

    ghost Value = { List Act };

    ghost view = { λ a. to_come a.closed a.draws a.count a.drawn a.settled };
}

// How many sites have closed their epoch right behind the act of a number: none where they do so there, or all where
// none is to.
fn closed_behind(count: u32, number: u32) -> u16
    ensures { drop result closes ≡ closes_after count number }
{
    if number == count / 2 {
        return 0;
    }
    SITES
}

impl LoadActs {
    /// The acts of the script of a seed and of `count` acts that are drawn, from 2 on: writes, reads, moves, attaches,
    /// ticks, gathers, emits, pulses, hops, bulks and turns of 5 sites, in their middle every site's `close`, and last
    /// `settle`. These are
    /// `count` + 6 acts, and the script is one that `read_script` takes. It takes no memory.
    #[tactic(auto, using(crate::proofs::LoadLeft::all_come, crate::proofs::LoadSpelled::load_spelled, crate::proofs::LoadCount::acts_counted))]
    pub fn new(seed: u64, count: u32) -> LoadActs
        requires some { 2 ≤ count }
        requires few { count ≤ MOST_LOADED }
        ensures acts { result ≡ load_acts seed count }
        ensures spelled { Spells (spelling load_deployment (load_acts seed count)) load_deployment
            (load_acts seed count) }
        ensures count { length (load_acts seed count) ≡ count + 6 }
    {
        LoadActs {
            draws: Draws::new(seed),
            count,
            drawn: 0,
            closed: SITES,
            settled: false,
        }
    }

    /// The next act, None behind the last. It takes no memory.
    #[inline(always)]
    #[tactic(auto, using(crate::proofs::LoadLeft::close_comes, crate::proofs::LoadLeft::drawn_comes, crate::proofs::LoadLeft::settle_comes, crate::proofs::LoadLeft::none_comes))]
    pub fn next(&mut self, d: &Deployment) -> Option<Draft>
        requires { d.now ≡ load_deployment }
        ensures some { IfSome result (λ draft. self.old ≡ drafted draft ∷ self.new) }
        ensures none { IsNone result → self.old ≡ [] }
        ensures end { IsNone result → self.new ≡ [] }
    {
        if self.closed < SITES {
            let site = self.closed;
            self.closed += 1;
            return Some(Draft::Close { site });
        }
        if self.drawn < self.count {
            let number = self.drawn + 1;
            let draft = next_draft(d, &mut self.draws, number);
            self.drawn = number;
            self.closed = closed_behind(self.count, number);
            return Some(draft);
        }
        if self.settled {
            return None;
        }
        self.settled = true;
        Some(Draft::Settle)
    }
}
