//! The opening of a settle: the sinks send what was made, and beats tell of it.
ghost use Rattle.std.specs.Prelude.{◌≡◌, ◌<◌, ℕ, IfOk, OnErr};
ghost use Rattle.sat_act.specs.Ranges.{ArePair};
ghost use Rattle.sat_act.specs.Settling.{emptied, opening};
ghost use Rattle.sat_settle.specs.Going.{Makes, Stops};
ghost use Rattle.sat_settle.specs.Openings.{beat_of, beats_all, beats_from, beats_to, emits_all, gathered_all};
ghost use Rattle.sat_settle.specs.Openings.{gathers_all, number_in, pulsed_all, pulses_all};

use crate::trying::{count_of, once, try_act, until_refused};
use sat_act::{Act, Answer};
use sat_world::World;
use std::alloc::AllocError;

// A gather at each site.
fn gather_all(world: &mut World) -> Result<u64, AllocError>
    ensures deployment { world.new.deployment ≡ world.old.deployment }
    ensures ok { IfOk result (λ done. Makes world.old (gathers_all world.old.deployment) done world.new) }
    ensures err { OnErr result (Stops world.old (gathers_all world.old.deployment) world.new) }
{
    let sites = world.deployment().sites();
    let mut done: u64 = 0;
    for site in 0..sites {
        let more = once(world, &Act::Gather { site })?;
        done = done.saturating_add(more);
    }
    Ok(done)
}

// Emits at each site until it has nothing stable.
fn emit_all(world: &mut World) -> Result<u64, AllocError>
    ensures deployment { world.new.deployment ≡ world.old.deployment }
    ensures ok { IfOk result (λ done. Makes world.old (emits_all world.old.deployment) done world.new) }
    ensures err { OnErr result (Stops world.old (emits_all world.old.deployment) world.new) }
{
    let sites = world.deployment().sites();
    let mut done: u64 = 0;
    for site in 0..sites {
        let more = until_refused(world, &Act::Emit { site })?;
        done = done.saturating_add(more);
    }
    Ok(done)
}

// A pulse at each site.
fn pulse_all(world: &mut World) -> Result<u64, AllocError>
    ensures deployment { world.new.deployment ≡ world.old.deployment }
    ensures ok { IfOk result (λ done. Makes world.old (pulses_all world.old.deployment) done world.new) }
    ensures err { OnErr result (Stops world.old (pulses_all world.old.deployment) world.new) }
{
    let sites = world.deployment().sites();
    let mut done: u64 = 0;
    for site in 0..sites {
        let more = once(world, &Act::Pulse { site })?;
        done = done.saturating_add(more);
    }
    Ok(done)
}

// The number that a beat answers.
fn number_of(answer: &Answer) -> u64
    ensures { result ≡ number_in answer.now }
{
    match answer {
        Answer::Beat(number) => *number,
        _ => 0,
    }
}

// A beat, and its coming in.
fn beat(world: &mut World, from: u16, to: u16) -> Result<u64, AllocError>
    requires { ArePair world.old.deployment from to }
    ensures deployment { world.new.deployment ≡ world.old.deployment }
    ensures ok { IfOk result (λ done. Makes world.old (beat_of world.old.deployment from to) done world.new) }
    ensures err { OnErr result (Stops world.old (beat_of world.old.deployment from to) world.new) }
{
    let answer = try_act(world, &Act::Beat { from, to })?;
    let number = number_of(&answer);
    let first = count_of(&answer);
    let then = once(world, &Act::BeatIn { from, to, number })?;
    Ok(first.saturating_add(then))
}

// A beat from a site to another one, none to itself.
fn beat_to(world: &mut World, from: u16, to: u16) -> Result<u64, AllocError>
    requires from { from < world.old.deployment.sites }
    requires to { to < world.old.deployment.sites }
    ensures deployment { world.new.deployment ≡ world.old.deployment }
    ensures ok { IfOk result (λ done. Makes world.old (beats_to world.old.deployment from to) done world.new) }
    ensures err { OnErr result (Stops world.old (beats_to world.old.deployment from to) world.new) }
{
    if from == to {
        return Ok(0);
    }
    let done = beat(world, from, to)?;
    Ok(done)
}

// Beats from a site to each other one.
fn beat_from(world: &mut World, from: u16) -> Result<u64, AllocError>
    requires { from < world.old.deployment.sites }
    ensures deployment { world.new.deployment ≡ world.old.deployment }
    ensures ok { IfOk result (λ done. Makes world.old (beats_from world.old.deployment from) done world.new) }
    ensures err { OnErr result (Stops world.old (beats_from world.old.deployment from) world.new) }
{
    let sites = world.deployment().sites();
    let mut done: u64 = 0;
    for site in 0..sites {
        let more = beat_to(world, from, site)?;
        done = done.saturating_add(more);
    }
    Ok(done)
}

// A beat from each site to each other one.
fn beat_all(world: &mut World) -> Result<u64, AllocError>
    ensures deployment { world.new.deployment ≡ world.old.deployment }
    ensures ok { IfOk result (λ done. Makes world.old (beats_all world.old.deployment) done world.new) }
    ensures err { OnErr result (Stops world.old (beats_all world.old.deployment) world.new) }
{
    let sites = world.deployment().sites();
    let mut done: u64 = 0;
    for site in 0..sites {
        let more = beat_from(world, site)?;
        done = done.saturating_add(more);
    }
    Ok(done)
}

// The clock, and a gather at each site.
fn gathered(world: &mut World) -> Result<u64, AllocError>
    ensures deployment { world.new.deployment ≡ world.old.deployment }
    ensures ok { IfOk result (λ done. Makes world.old (gathered_all world.old.deployment) done world.new) }
    ensures err { OnErr result (Stops world.old (gathered_all world.old.deployment) world.new) }
{
    let first = once(world, &Act::Clock)?;
    let then = gather_all(world)?;
    Ok(first.saturating_add(then))
}

// And each sink has sent what was made.
fn emptied_sinks(world: &mut World) -> Result<u64, AllocError>
    ensures deployment { world.new.deployment ≡ world.old.deployment }
    ensures ok { IfOk result (λ done. Makes world.old (emptied world.old.deployment) done world.new) }
    ensures err { OnErr result (Stops world.old (emptied world.old.deployment) world.new) }
{
    let first = gathered(world)?;
    let then = emit_all(world)?;
    Ok(first.saturating_add(then))
}

// And a pulse at each site.
fn pulsed(world: &mut World) -> Result<u64, AllocError>
    ensures deployment { world.new.deployment ≡ world.old.deployment }
    ensures ok { IfOk result (λ done. Makes world.old (pulsed_all world.old.deployment) done world.new) }
    ensures err { OnErr result (Stops world.old (pulsed_all world.old.deployment) world.new) }
{
    let first = emptied_sinks(world)?;
    let then = pulse_all(world)?;
    Ok(first.saturating_add(then))
}

/// Does the opening of a settle, and answers how many acts were done.
pub fn open(world: &mut World) -> Result<u64, AllocError>
    ensures deployment { world.new.deployment ≡ world.old.deployment }
    ensures ok { IfOk result (λ done. Makes world.old (opening world.old.deployment) done world.new) }
    ensures err { OnErr result (Stops world.old (opening world.old.deployment) world.new) }
{
    let first = pulsed(world)?;
    let then = beat_all(world)?;
    Ok(first.saturating_add(then))
}
