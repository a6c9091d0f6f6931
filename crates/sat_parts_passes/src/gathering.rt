//! A hub gathers from all gears of its site, which are lent with it.
ghost use Rattle.std.specs.Prelude.{◌≡◌, ◌++◌, true, false, fold, map, min, IfErr, IfOk, IfSome, OnErr, OnOk};
ghost use Rattle.sat_sink.specs.Pending.{promise_of};
ghost use Rattle.sat_node.specs.Together.{AllSame, SameHeld, lent};
ghost use Rattle.sat_parts.specs.declared.hub_input.HubInput.TheVariants as handed;
ghost use Rattle.sat_parts.specs.HubSteps.{hub_takes};
ghost use Rattle.sat_parts_passes.specs.Gathers.{FailsAll, IsGathered, drain_act, drain_part, gather_act, given_by};
ghost use Rattle.sat_parts_passes.specs.Gathers.{gives, label_count, stable_with, twice};

use crate::known::sound;
use sat_bulk::Drained;
use sat_machines::Laid;
use sat_node::{CallFault, Held, Names, Part, take_all};
use sat_parts::{
    Drains, GearAct, GearInput, GearNode, HubAct, HubAnswer, HubInput, HubNode, part_inputs,
};
use std::alloc::{AllocError, Global};
use std::cmp::min;
use std::sync::MutexGuard;

// How many labels these are. `None` where the number is none of 64 bits.
#[tactic(auto, using(crate::proofs::Drained::count_more))]
fn count(drained: &[Drained]) -> Option<u64>
    ensures { IfSome result (λ n. n ≡ label_count drained.now) }
{
    let Some((first, rest)) = drained.split_first() else {
        return Some(0);
    };
    let more = count(rest)?;
    more.checked_add(first.labels.as_slice().len() as u64)
}

// The least of a promise and of these.
fn least_from(least: u64, drained: &[Drained]) -> u64
    ensures { result ≡ fold min least (map promise_of drained.now) }
{
    match drained.split_first() {
        None => least,
        Some((first, rest)) => least_from(min(least, first.promise), rest),
    }
}

// Up to which timestamp all is known once these were gathered.
fn stable(drained: &[Drained]) -> u64
    ensures { result ≡ stable_with drained.now }
{
    match drained.split_first() {
        None => 0,
        Some((first, rest)) => least_from(first.promise, rest),
    }
}

// What each of these gears gives, behind what others gave.
fn add_given<N: Laid + Names>(
    drained: &mut Vec<Drained>,
    gears: &[MutexGuard<'_, Held<GearNode<N>, N>>],
) -> Result<(), AllocError>
    ensures { OnOk result (drained.new.items ≡ drained.old.items ++ given_by (lent gears.now)) }
{
    let Some((first, rest)) = gears.split_first() else {
        return Ok(());
    };
    let given = first.node().machine().gear().undrained()?;
    drained.push(given)?;
    add_given(drained, rest)
}

// What a gear is handed: what it gives, and what the hub answers.
fn drain<N: Laid + Names>(
    held: &Held<GearNode<N>, N>,
    labels: u64,
    stable: u64,
) -> Result<GearAct<N>, AllocError>
    ensures { IfOk result (λ act. act ≡ drain_act labels stable (gives held.now)) }
{
    let drained = held.node().machine().gear().undrained()?;
    Ok(GearAct::of_gear(GearInput::Drain {
        drained,
        labels,
        stable,
    }))
}

// The same, with its copy.
fn part<N: Laid + Names>(
    held: &Held<GearNode<N>, N>,
    labels: u64,
    stable: u64,
) -> Result<Part<GearAct<N>>, AllocError>
    ensures { IfOk result (λ part. part ≡ drain_part labels stable held.now) }
{
    let input = drain(held, labels, stable)?;
    let copy = drain(held, labels, stable)?;
    Ok(Part { input, copy })
}

// The parts of these gears, behind those of others.
fn add_parts<N: Laid + Names>(
    parts: &mut Vec<Part<GearAct<N>>>,
    gears: &[MutexGuard<'_, Held<GearNode<N>, N>>],
    labels: u64,
    stable: u64,
) -> Result<(), AllocError>
    ensures { OnOk result
        (parts.new.items ≡ parts.old.items ++ map (drain_part labels stable) (lent gears.now)) }
{
    let Some((first, rest)) = gears.split_first() else {
        return Ok(());
    };
    let held = &**first;
    parts.push(part(held, labels, stable)?)?;
    add_parts(parts, rest, labels, stable)
}

// A gather of what gears give: the hub's part and theirs.
#[derive(Drop)]
struct Gathering<N: Laid + Names> {
    own: Part<HubAct<N>>,
    parts: Vec<Part<GearAct<N>>>,
}

// All that a gather needs, for which no lock but those that are held is taken.
fn prepare<N: Laid + Names>(
    alloc: Global,
    gears: &[MutexGuard<'_, Held<GearNode<N>, N>>],
) -> Result<Gathering<N>, AllocError>
    ensures own { IfOk result (λ all. all.own ≡ twice (gather_act (given_by (lent gears.now)))) }
    ensures parts { IfOk result
        (λ all. all.parts.items ≡ map (drain_part (label_count (given_by (lent gears.now)))
        (stable_with (given_by (lent gears.now)))) (lent gears.now)) }
{
    let mut drained = Vec::new(alloc);
    add_given(&mut drained, gears)?;
    let labels = count(drained.as_slice()).ok_or(AllocError)?;
    let stable = stable(drained.as_slice());
    let mut parts = Vec::new(alloc);
    add_parts(&mut parts, gears, labels, stable)?;
    let input = HubAct::of_hub(HubInput::Gather {
        drained: Drains::of(drained),
    });
    let copy = input.copy()?;
    Ok(Gathering {
        own: Part { input, copy },
        parts,
    })
}

// One gather of nodes that are lent together, once it is known that the hub may be handed what the gears give.
fn keep<N: Laid + Names>(
    hub: &mut Held<HubNode<N>, N>,
    gears: &mut Vec<MutexGuard<'_, Held<GearNode<N>, N>>>,
    own: Part<HubAct<N>>,
    parts: Vec<Part<GearAct<N>>>,
) -> Result<HubAnswer, CallFault>
    requires own { own ≡ twice (gather_act (given_by (lent gears.old.items))) }
    requires parts { parts.items ≡ map (drain_part (label_count (given_by (lent gears.old.items)))
        (stable_with (given_by (lent gears.old.items)))) (lent gears.old.items) }
    requires fits { hub_takes hub.old.node.machine (handed.Gather (given_by (lent gears.old.items))) ≡ true }
    ensures done { OnOk result (IsGathered N.deployment hub.old (lent gears.old.items) hub.new (lent gears.new.items)) }
    ensures err { OnErr result (SameHeld hub.old hub.new × AllSame (lent gears.old.items) (lent gears.new.items)) }
    ensures fault { IfErr result (FailsAll hub.old (lent gears.old.items)) }
{
    // These bring what is known into the proof; they do nothing when they run.
    sound(hub);
    part_inputs();
    take_all(hub, gears, 0, None, own, parts)
}

/// One gather of a hub and of the gears that are lent with it, in their order: all keep an entry, under one number, or
/// none does. The hub is handed what each gear gives, and each gear keeps what it gave and what the hub answered. False
/// where the hub may not be handed what these gears give, which is never so of the gears of its site; then nothing
/// changes. `Worn`, with the greatest u64, only where that is the number of one of the nodes; `Memory`. After an error
/// all are as before, but for room.
pub fn gather<N: Laid + Names>(
    hub: &mut Held<HubNode<N>, N>,
    gears: &mut Vec<MutexGuard<'_, Held<GearNode<N>, N>>>,
) -> Result<bool, CallFault>
    ensures fits { IfOk result (λ done. done
        ≡ hub_takes hub.old.node.machine (handed.Gather (given_by (lent gears.old.items)))) }
    ensures done { IfOk result (λ done. done ≡ true
        → IsGathered N.deployment hub.old (lent gears.old.items) hub.new (lent gears.new.items)) }
    ensures same { IfOk result (λ done. done ≡ false
        → (hub.new ≡ hub.old) × (lent gears.new.items ≡ lent gears.old.items)) }
    ensures err { OnErr result (SameHeld hub.old hub.new × AllSame (lent gears.old.items) (lent gears.new.items)) }
    ensures fault { IfErr result (FailsAll hub.old (lent gears.old.items)) }
{
    let alloc = *gears.allocator();
    let Ok(ready) = prepare(alloc, gears.as_slice()) else {
        return Err(CallFault::Memory);
    };
    let Gathering { own, parts } = ready;
    if !hub.fits(&own.input) {
        return Ok(false);
    }
    if let Err(fault) = keep(hub, gears, own, parts) {
        return Err(fault);
    }
    Ok(true)
}
