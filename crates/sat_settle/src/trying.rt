//! One act, once or until it is refused.
ghost use Rattle.std.specs.Prelude.{◌≡◌, ℕ, false, IfOk, OnErr};
ghost use Rattle.sat_act.specs.Ranges.{IsActOf};
ghost use Rattle.sat_act.specs.Runs.{is_settle};
ghost use Rattle.sat_act.specs.Settling.{tried};
ghost use Rattle.sat_settle.specs.Going.{Makes, MakesUntil, StopsUntil, Tries, done_by};

use sat_act::{Act, Answer};
use sat_label::NodeId;
use sat_world::World;
use std::alloc::AllocError;

// One where an act with this answer was done, else none.
pub fn count_of(answer: &Answer) -> u64
    ensures { result ≡ done_by answer.now }
{
    match answer {
        Answer::Refused(_) => 0,
        Answer::Again => 0,
        Answer::Old => 0,
        _ => 1,
    }
}

/// Does an act and answers it. For want of memory the world is as before.
pub fn try_act(world: &mut World, act: &Act) -> Result<Answer, AllocError>
    requires act { IsActOf world.old.deployment act.now }
    requires plain { is_settle act.now ≡ false }
    ensures deployment { world.new.deployment ≡ world.old.deployment }
    ensures tries { IfOk result (λ answer. Tries world.old act.now answer world.new) }
    ensures err { OnErr result (world.new ≡ world.old) }
{
    let answer = world.apply(act)?;
    Ok(answer)
}

/// Does an act once, and answers how many acts were done: one or none. For want of memory the world is as before.
pub fn once(world: &mut World, act: &Act) -> Result<u64, AllocError>
    requires act { IsActOf world.old.deployment act.now }
    requires plain { is_settle act.now ≡ false }
    ensures deployment { world.new.deployment ≡ world.old.deployment }
    ensures ok { IfOk result (λ done. Makes world.old (tried world.old.deployment act.now) done world.new) }
    ensures err { OnErr result (world.new ≡ world.old) }
{
    let answer = try_act(world, act)?;
    Ok(count_of(&answer))
}

// Labels go over a link until none is left there.
fn hops(world: &mut World, epoch: u16, from: NodeId, to: u16) -> Result<u64, AllocError>
    requires { IsActOf world.old.deployment (Act.Hop epoch from to) }
    ensures deployment { world.new.deployment ≡ world.old.deployment }
    ensures ok { IfOk result (λ done. MakesUntil world.old (Act.Hop epoch from to) done world.new) }
    ensures err { OnErr result (StopsUntil world.old (Act.Hop epoch from to) world.new) }
{
    let done = world.hops(epoch, from, to)?;
    Ok(done)
}

// Turns of a site until one is refused.
fn turns(world: &mut World, site: u16) -> u64
    requires { IsActOf world.old.deployment (Act.Turn site) }
    ensures deployment { world.new.deployment ≡ world.old.deployment }
    ensures until { MakesUntil world.old (Act.Turn site) result world.new }
{
    world.turns(site)
}

// The same of any act.
fn again(world: &mut World, act: &Act) -> Result<u64, AllocError>
    requires act { IsActOf world.old.deployment act.now }
    requires plain { is_settle act.now ≡ false }
    ensures deployment { world.new.deployment ≡ world.old.deployment }
    ensures ok { IfOk result (λ done. MakesUntil world.old act.now done world.new) }
    ensures err { OnErr result (StopsUntil world.old act.now world.new) }
{
    for done in 0..u64::MAX {
        let more = once(world, act)?;
        if more == 0 {
            return Ok(done);
        }
    }
    Err(AllocError)
}

/// Does an act again and again as long as it is done, and answers how often it was. For want of memory the world stands
/// after some of these. No memory holds the entries of 2^64 - 1 acts.
// Most acts of a settle are hops and turns, so these are told apart once and not each time.
pub fn until_refused(world: &mut World, act: &Act) -> Result<u64, AllocError>
    requires act { IsActOf world.old.deployment act.now }
    requires plain { is_settle act.now ≡ false }
    ensures deployment { world.new.deployment ≡ world.old.deployment }
    ensures ok { IfOk result (λ done. MakesUntil world.old act.now done world.new) }
    ensures err { OnErr result (StopsUntil world.old act.now world.new) }
{
    match act {
        Act::Hop { epoch, from, to } => hops(world, *epoch, *from, *to),
        Act::Turn { site } => Ok(turns(world, *site)),
        _ => again(world, act),
    }
}
