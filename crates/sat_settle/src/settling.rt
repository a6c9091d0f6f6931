//! Settle.
ghost use Rattle.std.specs.Prelude.{◌≡◌, ◌<◌, ℕ, List, ◌∷◌, false, IfOk, OnErr};
ghost use Rattle.sat_act.specs.declared.entry.Entry.{Entry};
ghost use Rattle.sat_act.specs.Limits.{IsDeployment};
ghost use Rattle.sat_act.specs.Runs.{IsRun};
ghost use Rattle.sat_act.specs.Headline.{IsGood};
ghost use Rattle.sat_act.specs.Settling.{answer_of, round, settle as settled};
ghost use Rattle.sat_rest.specs.Rest.{CanEnd, IsAtRest};
ghost use Rattle.sat_world.specs.Stands.{StandsFor};
ghost use Rattle.sat_settle.specs.Going.{Makes, Stops, MakesRounds, StopsInRounds, StopsBefore};
ghost use Rattle.sat_settle.specs.RoundActs.{later_acts};
ghost use Rattle.sat_settle.specs.Rounds.{later_round};
ghost use Rattle.sat_settle.specs.Bounds.{IsWithinBound};

use crate::acts::list_later;
use crate::bulks::bulk_all;
use crate::opening::open;
use crate::trying::until_refused;
use sat_act::{Act, Answer};
use sat_world::World;
use std::alloc::AllocError;

// The acts of a round behind its bulks, each until it is refused. It answers how many acts were done.
fn later_round(world: &mut World, acts: &[Act]) -> Result<u64, AllocError>
    requires limits { IsDeployment world.old.deployment }
    requires acts { acts.now ≡ later_acts world.old.deployment }
    ensures deployment { world.new.deployment ≡ world.old.deployment }
    ensures ok { IfOk result (λ done. Makes world.old (later_round world.old.deployment) done world.new) }
    ensures err { OnErr result (Stops world.old (later_round world.old.deployment) world.new) }
{
    let mut done: u64 = 0;
    for act in acts {
        let more = until_refused(world, act)?;
        done = done.saturating_add(more);
    }
    Ok(done)
}

// A whole round.
fn first_round(world: &mut World, acts: &[Act]) -> Result<u64, AllocError>
    requires limits { IsDeployment world.old.deployment }
    requires acts { acts.now ≡ later_acts world.old.deployment }
    ensures deployment { world.new.deployment ≡ world.old.deployment }
    ensures ok { IfOk result (λ done. Makes world.old (round world.old.deployment) done world.new) }
    ensures err { OnErr result (Stops world.old (round world.old.deployment) world.new) }
{
    let first = bulk_all(world)?;
    let then = later_round(world, acts)?;
    Ok(first.saturating_add(then))
}

// Rounds, until one in which no act is done: how many had one, and how many acts were done. Behind the bulks of the
// first round all payloads of all lanes are taken, and no act of a round makes one: the later rounds leave the bulks
// out, which would be refused. No memory holds the entries of 2^64 - 1 rounds.
fn do_rounds(world: &mut World, acts: &[Act]) -> Result<(u64, u64), AllocError>
    requires limits { IsDeployment world.old.deployment }
    requires acts { acts.now ≡ later_acts world.old.deployment }
    ensures deployment { world.new.deployment ≡ world.old.deployment }
    ensures ok { IfOk result (λ counts. MakesRounds world.old counts.0 counts.1 world.new) }
    ensures err { OnErr result (StopsInRounds world.old world.new) }
{
    let mut done = first_round(world, acts)?;
    if done == 0 {
        return Ok((0, 0));
    }
    for rounds in 1..u64::MAX {
        let more = later_round(world, acts)?;
        if more == 0 {
            return Ok((rounds, done));
        }
        done = done.saturating_add(more);
    }
    Err(AllocError)
}

/// Everything that can still move moves, until nothing does: first every gear's clock goes to the greatest promise,
/// every sink sends what it has, and beats go from each site to each other; then come rounds of bulks, hops, turns,
/// stamps and advances, each as long as it is done, until a round in which none is. It answers `Settled`, with the
/// number of rounds in which an act was done and the number of acts done, each given as 2^64 - 1 where it is greater.
/// For want of memory the world stands after some of these acts, each whole.
pub fn settle(world: &mut World) -> Result<Answer, AllocError>
    ensures deployment { world.new.deployment ≡ world.old.deployment }
    ensures answer { IfOk result (λ r. (h : List Entry) → IsRun world.old.deployment h → StandsFor world.old h
        → r ≡ answer_of world.old.deployment h Act.Settle) }
    ensures stands { IfOk result (λ r. (h : List Entry) → IsRun world.old.deployment h → StandsFor world.old h
        → StandsFor world.new (record { act = Act.Settle; answer = r; inner = false }
        ∷ (settled world.old.deployment h).1)) }
    ensures run { IfOk result (λ r. (h : List Entry) → IsRun world.old.deployment h → StandsFor world.old h
        → IsRun world.old.deployment (record { act = Act.Settle; answer = r; inner = false }
        ∷ (settled world.old.deployment h).1)) }
    ensures good { IfOk result (λ r. (h : List Entry) → IsRun world.old.deployment h → StandsFor world.old h
        → IsGood world.old.deployment (record { act = Act.Settle; answer = r; inner = false }
        ∷ (settled world.old.deployment h).1)) }
    ensures bound { IfOk result (λ r. (h : List Entry) → IsRun world.old.deployment h → StandsFor world.old h
        → IsWithinBound world.old.deployment h r) }
    ensures rests { IfOk result (λ r. (h : List Entry) → IsRun world.old.deployment h → StandsFor world.old h
        → (end : CanEnd world.old.deployment (settled world.old.deployment h).1)
        → IsAtRest world.old.deployment (settled world.old.deployment h).1 end.epoch) }
    ensures err { OnErr result ((h : List Entry) → IsRun world.old.deployment h → StandsFor world.old h
        → StopsBefore world.old.deployment h (settled world.old.deployment h).1 world.new) }
{
    let acts = list_later(world.allocator(), world.deployment())?;
    let opened = open(world)?;
    let (rounds, done) = do_rounds(world, acts.as_slice())?;
    Ok(Answer::Settled {
        rounds,
        done: opened.saturating_add(done),
    })
}
