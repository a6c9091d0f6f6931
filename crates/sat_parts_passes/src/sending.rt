//! What a hub's node sends.
ghost use Rattle.std.specs.Prelude.{◌≡◌, ◌≢◌, ◌+◌, ◌<◌, true, false, length, IfErr, IfOk, OnOk};
ghost use Rattle.sat_node.specs.Links.{Both};
ghost use Rattle.sat_parts.specs.declared.hub_input.HubInput.TheVariants as given;
ghost use Rattle.sat_parts.specs.Hubs.{hub_puts};
ghost use Rattle.sat_machines.specs.Sites.{number_of};
ghost use Rattle.sat_passes.specs.Sendings.{FailsAlone};
ghost use Rattle.sat_parts_passes.specs.Sendings.{AreTold, Follows, IsIdle, IsTold, Sent, StaysSent, is_sending};
ghost use Rattle.sat_parts_passes.specs.Sendings.{pending_count, would_do};
ghost use Rattle.sat_parts_passes.specs.Waiting.{SentOrFull};

use crate::beats::is_told;
use crate::known::{site_of, sites, sound};
use crate::lanes::send_waiting;
use sat_machines::Laid;
use sat_node::{CallFault, Held, Names};
use sat_parts::{HubAct, HubAnswer, HubInput, HubNode};
use std::sync::Wait;

// Does what the hub would do.
#[tactic(auto, using(crate::proofs::Sent::would_fit))]
fn act<N: Laid + Names>(
    held: &mut Held<HubNode<N>, N>,
    input: HubInput,
    copy: HubInput,
) -> Result<HubAnswer, CallFault>
    requires copy { copy ≡ input }
    requires sending { is_sending input ≡ true }
    requires done { would_do held.old.node.machine input ≡ true }
    ensures sent { Sent held.old held.new }
    ensures outs { held.new.outs ≡ held.old.outs }
    ensures ins { held.new.ins ≡ held.old.ins }
    ensures follows { OnOk result
        (Follows N.deployment (number_of held.old.node.name) input held.old.node.machine held.new.node.machine) }
    ensures fault { IfErr result (FailsAlone held.new) }
{
    sound(held);
    let result = held.act(0, HubAct::of_hub(input), HubAct::of_hub(copy));
    sound(held);
    result
}

// Whether a label is ready.
#[tactic(auto, using(crate::proofs::Sent::emit_can))]
fn can_emit<N: Laid + Names>(held: &Held<HubNode<N>, N>) -> bool
    ensures { result ≡ would_do held.now.node.machine given.Emit }
{
    held.node().machine().hub().can_emit()
}

// Whether a pulse is due.
#[tactic(auto, using(crate::proofs::Sent::pulse_can))]
fn can_pulse<N: Laid + Names>(held: &Held<HubNode<N>, N>) -> bool
    ensures { result ≡ would_do held.now.node.machine given.Pulse }
{
    held.node().machine().hub().can_pulse()
}

// Emits a label, if one is ready, and then fewer are pending. False where none is ready.
#[tactic(auto, using(crate::proofs::Sent::sent_same))]
fn emit<N: Laid + Names>(held: &mut Held<HubNode<N>, N>) -> Result<bool, CallFault>
    ensures sent { Sent held.old held.new }
    ensures outs { held.new.outs ≡ held.old.outs }
    ensures ins { held.new.ins ≡ held.old.ins }
    ensures less { IfOk result (λ done. done ≡ true → pending_count held.new.node.machine
        < pending_count held.old.node.machine) }
    ensures none { IfOk result (λ done. done ≡ false → would_do held.new.node.machine given.Emit ≡ false) }
    ensures fault { IfErr result (FailsAlone held.new) }
{
    if !can_emit(held) {
        return Ok(false);
    }
    if let Err(fault) = act(held, HubInput::Emit, HubInput::Emit) {
        return Err(fault);
    }
    Ok(true)
}

// Emits until no label is ready: at most as often as labels are pending.
#[tactic(auto, using(crate::proofs::Sent::sent_same))]
fn emit_all<N: Laid + Names>(held: &mut Held<HubNode<N>, N>) -> Result<(), CallFault>
    ensures sent { Sent held.old held.new }
    ensures outs { held.new.outs ≡ held.old.outs }
    ensures ins { held.new.ins ≡ held.old.ins }
    ensures none { OnOk result (would_do held.new.node.machine given.Emit ≡ false) }
    ensures fault { IfErr result (FailsAlone held.new) }
{
    'emitting: loop {
        match emit(held) {
            Ok(true) => {}
            Ok(false) => return Ok(()),
            Err(fault) => return Err(fault),
        }
    }
}

// Sends a pulse, if one is due. Then none is, and a label is ready where one was.
#[tactic(auto, using(crate::proofs::Sent::sent_same))]
fn pulse<N: Laid + Names>(held: &mut Held<HubNode<N>, N>) -> Result<(), CallFault>
    ensures sent { Sent held.old held.new }
    ensures outs { held.new.outs ≡ held.old.outs }
    ensures ins { held.new.ins ≡ held.old.ins }
    ensures none { OnOk result (would_do held.new.node.machine given.Pulse ≡ false) }
    ensures emit { OnOk result (would_do held.new.node.machine given.Emit ≡ would_do held.old.node.machine given.Emit) }
    ensures fault { IfErr result (FailsAlone held.new) }
{
    if !can_pulse(held) {
        return Ok(());
    }
    if let Err(fault) = act(held, HubInput::Pulse, HubInput::Pulse) {
        return Err(fault);
    }
    Ok(())
}

// Makes a beat for another site.
#[tactic(auto, using(crate::proofs::Sent::beat_done, crate::proofs::Sent::shape_sites))]
fn make_beat<N: Laid + Names>(held: &mut Held<HubNode<N>, N>, to: u16) -> Result<(), CallFault>
    requires to { to < N.deployment.sites }
    requires other { to ≢ held.old.node.machine.shape.site }
    ensures sent { Sent held.old held.new }
    ensures outs { held.new.outs ≡ held.old.outs }
    ensures ins { held.new.ins ≡ held.old.ins }
    ensures told { OnOk result (IsTold held.new.node.machine to) }
    ensures stays { OnOk result (StaysSent N.deployment.sites held.old.node.machine held.new.node.machine) }
    ensures fault { IfErr result (FailsAlone held.new) }
{
    sound(held);
    if let Err(fault) = act(held, HubInput::Beat { to }, HubInput::Beat { to }) {
        return Err(fault);
    }
    Ok(())
}

// Makes a beat for a site, if it is another one and the beat would differ from the last one made. What was sent to
// others stays.
#[tactic(auto, using(crate::proofs::Sent::sent_same, crate::proofs::Sent::told_is, crate::proofs::Sent::shape_sites, crate::proofs::Sent::shape_site, crate::proofs::Idling::stays_same))]
fn beat<N: Laid + Names>(held: &mut Held<HubNode<N>, N>, to: u16) -> Result<(), CallFault>
    requires { to < N.deployment.sites }
    ensures sent { Sent held.old held.new }
    ensures outs { held.new.outs ≡ held.old.outs }
    ensures ins { held.new.ins ≡ held.old.ins }
    ensures told { OnOk result (IsTold held.new.node.machine to) }
    ensures stays { OnOk result (StaysSent N.deployment.sites held.old.node.machine held.new.node.machine) }
    ensures fault { IfErr result (FailsAlone held.new) }
{
    sound(held);
    if site_of(held) == to {
        return Ok(());
    }
    match is_told(held.node().machine().hub(), to) {
        Ok(true) => Ok(()),
        Ok(false) => make_beat(held, to),
        Err(_) => Err(CallFault::Memory),
    }
}

// Makes a beat for each other site for which it would differ from the last one made.
#[tactic(auto, using(crate::proofs::Sent::sent_same))]
fn beat_all<N: Laid + Names>(held: &mut Held<HubNode<N>, N>) -> Result<(), CallFault>
    ensures sent { Sent held.old held.new }
    ensures outs { held.new.outs ≡ held.old.outs }
    ensures ins { held.new.ins ≡ held.old.ins }
    ensures told { OnOk result (AreTold N.deployment.sites held.new.node.machine) }
    ensures stays { OnOk result (StaysSent N.deployment.sites held.old.node.machine held.new.node.machine) }
    ensures fault { IfErr result (FailsAlone held.new) }
{
    let sites = sites(held);
    for to in 0..sites {
        if let Err(fault) = beat(held, to) {
            return Err(fault);
        }
    }
    Ok(())
}

// Emits what is ready, then sends a pulse, and then makes beats, as long as something of it is left to do.
fn make_all<N: Laid + Names>(held: &mut Held<HubNode<N>, N>) -> Result<(), CallFault>
    ensures sent { Sent held.old held.new }
    ensures outs { held.new.outs ≡ held.old.outs }
    ensures ins { held.new.ins ≡ held.old.ins }
    ensures idle { OnOk result (IsIdle held.new.node.machine) }
    ensures fault { IfErr result (FailsAlone held.new) }
{
    if let Err(fault) = emit_all(held) {
        return Err(fault);
    }
    if let Err(fault) = pulse(held) {
        return Err(fault);
    }
    sound(held);
    if let Err(fault) = beat_all(held) {
        return Err(fault);
    }
    Ok(())
}

/// What a hub's node sends: it emits what is ready and then a pulse, makes a beat for each other site for which it
/// would differ from the last one made, and sends what waits. How many entries the node kept. `Worn`, with the greatest
/// u64, only where that is the node's number; `Memory`. After an error, what was kept and sent by then stays.
pub fn send<N: Laid + Names, R: Wait>(
    rt: &R,
    held: &mut Held<HubNode<N>, N>,
) -> Result<u64, CallFault>
    ensures made { Sent held.old held.new }
    ensures ins { held.new.ins ≡ held.old.ins }
    ensures count { IfOk result (λ n. length held.new.node.entries ≡ length held.old.node.entries + n) }
    ensures idle { OnOk result (IsIdle held.new.node.machine) }
    ensures sent { OnOk result (Both
        (λ k p o. SentOrFull (hub_puts held.old.node.name k) held.new.node.entries p o) held.old.outs held.new.outs) }
    ensures fault { IfErr result (FailsAlone held.new) }
{
    let before = held.node().journal().len();
    if let Err(fault) = make_all(held) {
        return Err(fault);
    }
    if let Err(fault) = send_waiting(rt, held) {
        return Err(fault);
    }
    let after = held.node().journal().len();
    Ok((after - before) as u64)
}
