//! The gears of a site keep up with what came.
ghost use Rattle.std.specs.Prelude.{◌≡◌, ◌≢◌, ◌↔◌, ◌<◌, ◌≤◌, true, false, drop, max, nat_lt, IfErr, IfOk, IsErrOf};
ghost use Rattle.std.specs.Prelude.{OnErr, OnOk};
ghost use Rattle.sat_label.specs.declared.limits.TheConstants.{TS_END};
ghost use Rattle.sat_node.specs.Seen.{last_number};
ghost use Rattle.sat_node.specs.Together.{SameHeld};
ghost use Rattle.sat_passes.specs.Sendings.{FailsAlone};
ghost use Rattle.sat_parts_pump.specs.Ticks.{IsTicked};
ghost use Rattle.sat_parts_pump.specs.Times.{most_in, ts_in};

use crate::known::gear_sound;
use sat_label::TS_END;
use sat_machines::Laid;
use sat_node::{CallFault, Held, Names};
use sat_parts::{GearAct, GearAnswer, GearInput, GearNode, HubInput, HubNode};

// The timestamp of what came.
fn ts_in(input: &HubInput) -> u64
    ensures { result ≡ ts_in input.now }
{
    match input {
        HubInput::Turn { front } => match front {
            None => 0,
            Some(label) => label.point.ts,
        },
        HubInput::Bulk {
            from: _,
            gear: _,
            number: _,
            payload,
        } => payload.label().point.ts,
        HubInput::BeatIn {
            from: _,
            number: _,
            beat,
        } => beat.cut.ts,
        _ => 0,
    }
}

/// The greatest of a timestamp and those of what came by the entries from a place on.
pub(crate) fn look<N: Laid + Names>(held: &Held<HubNode<N>, N>, upto: usize, ts: u64) -> u64
    ensures { result ≡ most_in ts (drop upto held.now.node.entries) }
{
    let journal = held.node().journal();
    let mut most = ts;
    for at in upto..journal.len() {
        let kept = &journal[at];
        most = most.max(ts_in(kept.input.input()));
    }
    most
}

/// The timestamp up to which a gear makes no label any more.
pub fn promise_of<N: Laid + Names>(gear: &Held<GearNode<N>, N>) -> u64
    ensures promise { result ≡ gear.now.node.machine.promise }
    ensures small { result ≤ TS_END }
{
    gear.node().machine().gear().promise()
}

// A tick of a gear, to a timestamp above its promise.
fn raise<N: Laid + Names>(gear: &mut Held<GearNode<N>, N>, ts: u64) -> Result<GearAnswer, CallFault>
    requires ts { ts ≤ TS_END }
    requires below { gear.old.node.machine.promise < ts }
    ensures done { OnOk result (IsTicked N.deployment ts gear.old gear.new) }
    ensures up { OnOk result (gear.new.node.machine.promise ≡ ts) }
    ensures number { OnOk result (gear.old.node.number ≢ last_number) }
    ensures err { OnErr result (SameHeld gear.old gear.new) }
    ensures worn { IfErr result (λ f. (f ≡ CallFault.Worn last_number) ↔ (gear.old.node.number ≡ last_number)) }
    ensures fault { IfErr result (FailsAlone gear.old) }
{
    gear_sound(gear);
    let input = GearAct::of_gear(GearInput::Tick { ts });
    let copy = GearAct::of_gear(GearInput::Tick { ts });
    let result = gear.act(0, input, copy);
    gear_sound(gear);
    result
}

/// Raises a gear's promise to a timestamp, if it is below that: the gear keeps a tick, and then has promised it. False
/// where the promise is no less; then nothing changes. `Worn`, with the greatest u64, exactly where the promise is
/// below and that is the node's number; `Memory`. After an error all is as before, but for room.
#[tactic(auto, using(crate::proofs::Ticking::not_below, crate::proofs::Ticking::is_below, crate::proofs::Ticking::most_first, crate::proofs::Ticking::most_second))]
pub fn tick<N: Laid + Names>(gear: &mut Held<GearNode<N>, N>, ts: u64) -> Result<bool, CallFault>
    requires { ts ≤ TS_END }
    ensures below { IfOk result (λ done. done ≡ nat_lt gear.old.node.machine.promise ts) }
    ensures done { IfOk result (λ done. done ≡ true → IsTicked N.deployment ts gear.old gear.new) }
    ensures same { IfOk result (λ done. done ≡ false → gear.new ≡ gear.old) }
    ensures up { OnOk result (gear.new.node.machine.promise ≡ max gear.old.node.machine.promise ts) }
    ensures err { OnErr result (SameHeld gear.old gear.new) }
    ensures worn { IsErrOf result (CallFault.Worn last_number)
        ↔ ((gear.old.node.machine.promise < ts) × (gear.old.node.number ≡ last_number)) }
    ensures fault { IfErr result (FailsAlone gear.old) }
{
    if ts <= promise_of(gear) {
        return Ok(false);
    }
    if let Err(fault) = raise(gear, ts) {
        return Err(fault);
    }
    Ok(true)
}
