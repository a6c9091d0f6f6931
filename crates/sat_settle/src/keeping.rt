//! A settle of which the entries are kept that move a payload or a label.
ghost use Rattle.std.specs.Prelude.{◌≡◌, ◌<◌, ◌++◌, ◌∷◌, [], ℕ, List, true, false, IfOk, OnOk};
ghost use Rattle.sat_act.specs.declared.entry.Entry.{Entry};
ghost use Rattle.sat_act.specs.Limits.{IsDeployment};
ghost use Rattle.sat_act.specs.Ranges.{IsActOf};
ghost use Rattle.sat_act.specs.Runs.{IsRun, is_settle};
ghost use Rattle.sat_act.specs.Settling.{answer_of, round, round_acts, tried, settle as settled};
ghost use Rattle.sat_world.specs.Stands.{StandsFor};
ghost use Rattle.sat_settle.specs.Going.{Makes, MakesRounds, MakesUntil, rounds_from};
ghost use Rattle.sat_settle.specs.Kept.{is_pulse, brings, hands_on, carries, noted, added, kept, Keeps, KeepsUntil};

use crate::acts::list_round;
use crate::opening::open;
use crate::trying::{count_of, try_act};
use sat_act::{Act, Answer, Entry};
use sat_label::Kind;
use sat_world::World;
use std::alloc::AllocError;

/// So many entries of a settle are kept.
pub const MOST_KEPT: u64 = 41;

fn is_pulse(kind: Kind) -> bool
    ensures { result ≡ is_pulse kind }
{
    match kind {
        Kind::Pulse => true,
        _ => false,
    }
}

fn brings(answer: &Answer) -> bool
    ensures { result ≡ brings answer.now }
{
    match answer {
        Answer::Brought(_) => true,
        _ => false,
    }
}

fn hands_on(answer: &Answer) -> bool
    ensures { result ≡ hands_on answer.now }
{
    match answer {
        Answer::Hopped { label, .. } => !is_pulse(label.kind),
        _ => false,
    }
}

// Whether an act with this answer moves a payload, or a label that is no pulse.
#[tactic(auto, unfolding(crate::specs::Kept::carries))]
fn carries(act: &Act, answer: &Answer) -> bool
    ensures { result ≡ carries act.now answer.now }
{
    match act {
        Act::Bulk { .. } => brings(answer),
        Act::Hop { .. } => hands_on(answer),
        _ => false,
    }
}

fn push_entry(act: &Act, answer: Answer, entries: &mut Vec<Entry>) -> Result<(), AllocError>
    ensures { OnOk result (entries.new.items
        ≡ entries.old.items ++ record { act = act.now; answer = answer; inner = true } ∷ []) }
{
    let act = act.copy()?;
    entries.push(Entry {
        act,
        answer,
        inner: true,
    })?;
    Ok(())
}

fn note(act: &Act, answer: Answer, entries: &mut Vec<Entry>) -> Result<(), AllocError>
    ensures { OnOk result (entries.new.items
        ≡ noted entries.old.items (record { act = act.now; answer = answer; inner = true })) }
{
    if carries(act, &answer) && (entries.len() as u64) < MOST_KEPT {
        push_entry(act, answer, entries)
    } else {
        Ok(())
    }
}

// Does an act once, and answers how many acts were done: one or none.
fn once_keeping(world: &mut World, act: &Act, entries: &mut Vec<Entry>) -> Result<u64, AllocError>
    requires act { IsActOf world.old.deployment act.now }
    requires plain { is_settle act.now ≡ false }
    ensures deployment { world.new.deployment ≡ world.old.deployment }
    ensures ok { IfOk result (λ done. Makes world.old (tried world.old.deployment act.now) done world.new) }
    ensures keeps { IfOk result
        (λ _. Keeps world.old (tried world.old.deployment act.now) entries.old.items entries.new.items) }
{
    let answer = try_act(world, act)?;
    let done = count_of(&answer);
    note(act, answer, entries)?;
    Ok(done)
}

// Does an act again and again as long as it is done, and answers how often it was. No memory holds the entries of 2^64
// - 1 acts.
fn again_keeping(world: &mut World, act: &Act, entries: &mut Vec<Entry>) -> Result<u64, AllocError>
    requires act { IsActOf world.old.deployment act.now }
    requires plain { is_settle act.now ≡ false }
    ensures deployment { world.new.deployment ≡ world.old.deployment }
    ensures ok { IfOk result (λ done. MakesUntil world.old act.now done world.new) }
    ensures keeps { IfOk result (λ _. KeepsUntil world.old act.now entries.old.items entries.new.items) }
{
    for done in 0..u64::MAX {
        let more = once_keeping(world, act, entries)?;
        if more == 0 {
            return Ok(done);
        }
    }
    Err(AllocError)
}

// A round: each of its acts until it is refused. It answers how many acts were done.
fn round_keeping(
    world: &mut World,
    acts: &[Act],
    entries: &mut Vec<Entry>,
) -> Result<u64, AllocError>
    requires limits { IsDeployment world.old.deployment }
    requires acts { acts.now ≡ round_acts world.old.deployment }
    ensures deployment { world.new.deployment ≡ world.old.deployment }
    ensures ok { IfOk result (λ done. Makes world.old (round world.old.deployment) done world.new) }
    ensures keeps { IfOk result
        (λ _. Keeps world.old (round world.old.deployment) entries.old.items entries.new.items) }
{
    let mut done: u64 = 0;
    for act in acts {
        let more = again_keeping(world, act, entries)?;
        done = done.saturating_add(more);
    }
    Ok(done)
}

// Rounds, until one in which no act is done: how many had one, and how many acts were done. No memory holds the
// entries of 2^64 - 1 rounds.
fn rounds_keeping(
    world: &mut World,
    acts: &[Act],
    entries: &mut Vec<Entry>,
) -> Result<(u64, u64), AllocError>
    requires limits { IsDeployment world.old.deployment }
    requires acts { acts.now ≡ round_acts world.old.deployment }
    ensures deployment { world.new.deployment ≡ world.old.deployment }
    ensures ok { IfOk result (λ counts. MakesRounds world.old counts.0 counts.1 world.new) }
    ensures keeps { IfOk result (λ _. Keeps world.old (λ h. (rounds_from world.old.deployment h).1) entries.old.items
        entries.new.items) }
{
    let mut done: u64 = 0;
    for rounds in 0..u64::MAX {
        let more = round_keeping(world, acts, entries)?;
        if more == 0 {
            return Ok((rounds, done));
        }
        done = done.saturating_add(more);
    }
    Err(AllocError)
}

/// A settle as `settle` does it, of which are kept, behind those that were there, the first entries that move a payload
/// or a label that is no pulse, until 41 are there.
pub fn settle_keeping(world: &mut World, entries: &mut Vec<Entry>) -> Result<Answer, AllocError>
    ensures deployment { world.new.deployment ≡ world.old.deployment }
    ensures answer { IfOk result (λ r. (h : List Entry) → IsRun world.old.deployment h → StandsFor world.old h
        → r ≡ answer_of world.old.deployment h Act.Settle) }
    ensures stands { IfOk result (λ r. (h : List Entry) → IsRun world.old.deployment h → StandsFor world.old h
        → StandsFor world.new (record { act = Act.Settle; answer = r; inner = false }
        ∷ (settled world.old.deployment h).1)) }
    ensures keeps { IfOk result (λ _. Keeps world.old (λ h. (settled world.old.deployment h).1) entries.old.items
        entries.new.items) }
{
    let acts = list_round(world.allocator(), world.deployment())?;
    let opened = open(world)?;
    let (rounds, done) = rounds_keeping(world, acts.as_slice(), entries)?;
    Ok(Answer::Settled {
        rounds,
        done: opened.saturating_add(done),
    })
}
