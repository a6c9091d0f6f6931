//! A serializer's pass.
ghost use Rattle.std.specs.Prelude.{◌≡◌, ◌+◌, ◌<◌, true, false, length, IfErr, IfOk, MatchBool, OnErr, OnOk, Some};
ghost use Rattle.std.specs.Prelude.{None};
ghost use Rattle.sat_node.specs.Links.{Cleared, OnlyAt, Tied, front_at};
ghost use Rattle.sat_node.specs.Meanings.{replay};
ghost use Rattle.sat_node.specs.Puts.{Stopped};
ghost use Rattle.sat_machines.specs.Serials.{SerialStands, serial_meaning};
ghost use Rattle.sat_passes.specs.Faults.{Fails};
ghost use Rattle.sat_passes.specs.Members.{Both};
ghost use Rattle.sat_passes.specs.Relays.{Hops, IsDrained, SameEmpties, hop_at, hop_with, hop_from};

use crate::flushing::flush_all;
use sat_label::{Label, NodeId};
use sat_machines::{Laid, SerialAct, SerialAnswer, SerialNode};
use sat_node::{Body, CallFault, Held, Names};
use sat_outside::Gate;
use std::sync::Wait;

// A label from a neighbour, as a hop that fits the machine.
fn hop_from<N: Laid + Names>(
    held: &Held<SerialNode<N>, N>,
    from: Option<NodeId>,
    label: Label,
) -> Option<SerialAct>
    ensures { result ≡ hop_from N.deployment held.now.node.machine from label }
{
    let Some(from) = from else {
        return None;
    };
    let hop = SerialAct::Hop { from, label };
    if held.fits(&hop) { Some(hop) } else { None }
}

// What came over a link, as a hop that fits the machine.
fn hop_with<N: Laid + Names>(
    held: &Held<SerialNode<N>, N>,
    link: usize,
    body: &Body,
) -> Option<SerialAct>
    ensures { result ≡ hop_with N.deployment held.now.node.machine link body.now }
{
    match body {
        Body::Label(label) => hop_from(held, held.node().machine().neighbour(link), *label),
        Body::Payload { .. } => None,
        Body::Beat { .. } => None,
    }
}

// The front of a link, as a hop that fits the machine.
fn next_hop<N: Laid + Names>(held: &Held<SerialNode<N>, N>, link: usize) -> Option<SerialAct>
    ensures { result ≡ hop_at N.deployment held.now.node.machine link (front_at held.now.ins link) }
{
    match held.front(link) {
        Some(front) => hop_with(held, link, &front.body),
        None => None,
    }
}

// The machine stands for the replay of the journal.
fn sound<N: Laid + Names>(held: &Held<SerialNode<N>, N>)
    ensures stands { SerialStands N.deployment held.now.node.name held.now.node.machine
        (replay (serial_meaning N.deployment) held.now.node.name held.now.node.entries) }
    ensures tied { Tied (serial_meaning N.deployment) held.now }
{
    let _ = held.node().machine();
}

// Takes the front of a link as a hop.
fn take_hop<N: Laid + Names>(
    held: &mut Held<SerialNode<N>, N>,
    link: usize,
    hop: SerialAct,
) -> Result<SerialAnswer, CallFault>
    requires alive { held.old.node.machine.serial.killed ≡ false }
    requires hop { hop_at N.deployment held.old.node.machine link (front_at held.old.ins link) ≡ Some hop }
    ensures hops { Hops held.old held.new }
    ensures outs { held.new.outs ≡ held.old.outs }
    ensures taken { OnOk result (OnlyAt link Cleared held.old.ins held.new.ins) }
    ensures fault { IfErr result (Fails held.new) }
{
    sound(held);
    let result = held.handle(link, hop, hop);
    sound(held);
    result
}

// The same, without the answer.
fn take_unanswered<N: Laid + Names>(
    held: &mut Held<SerialNode<N>, N>,
    link: usize,
    hop: SerialAct,
) -> Result<(), CallFault>
    requires alive { held.old.node.machine.serial.killed ≡ false }
    requires hop { hop_at N.deployment held.old.node.machine link (front_at held.old.ins link) ≡ Some hop }
    ensures hops { Hops held.old held.new }
    ensures outs { held.new.outs ≡ held.old.outs }
    ensures taken { OnOk result (OnlyAt link Cleared held.old.ins held.new.ins) }
    ensures fault { IfErr result (Fails held.new) }
{
    match take_hop(held, link, hop) {
        Ok(_) => Ok(()),
        Err(fault) => Err(fault),
    }
}

// Pulls the next envelope of a link, and takes it as a hop. False where the link was empty, or the front doesn't fit
// the machine.
#[tactic(auto, using(crate::proofs::Drains::pulled_drained, crate::proofs::Drains::pulled_taken, crate::proofs::Hops::hops_none, crate::proofs::Hops::hops_then))]
fn handle_front<N: Laid + Names, R: Wait, G: Gate>(
    rt: &R,
    held: &mut Held<SerialNode<N>, N>,
    gate: &G,
    link: usize,
) -> Result<bool, CallFault>
    requires alive { held.old.node.machine.serial.killed ≡ false }
    requires link { link < length held.old.ins }
    ensures hops { Hops held.old held.new }
    ensures outs { held.new.outs ≡ held.old.outs }
    ensures handled { IfOk result (λ more. MatchBool more (OnlyAt link SameEmpties held.old.ins held.new.ins)
        (OnlyAt link (IsDrained N.deployment held.new.node.machine link) held.old.ins held.new.ins)) }
    ensures fault { IfErr result (Fails held.new) }
{
    held.pull(rt, link);
    let Some(hop) = next_hop(held, link) else {
        return Ok(false);
    };
    gate.inside(held.node().name());
    match take_unanswered(held, link, hop) {
        Ok(()) => Ok(true),
        Err(fault) => Err(fault),
    }
}

// Takes what comes over a link, until the link was empty or what came doesn't fit the machine.
#[tactic(auto, using(crate::proofs::Drains::empties_none, crate::proofs::Drains::empties_more, crate::proofs::Drains::empties_drained, crate::proofs::Hops::hops_same, crate::proofs::Hops::hops_then))]
fn drain<N: Laid + Names, R: Wait, G: Gate>(
    rt: &R,
    held: &mut Held<SerialNode<N>, N>,
    gate: &G,
    link: usize,
) -> Result<(), CallFault>
    requires alive { held.old.node.machine.serial.killed ≡ false }
    requires link { link < length held.old.ins }
    ensures hops { Hops held.old held.new }
    ensures outs { held.new.outs ≡ held.old.outs }
    ensures drained { OnOk result
        (OnlyAt link (IsDrained N.deployment held.new.node.machine link) held.old.ins held.new.ins) }
    ensures fault { IfErr result (Fails held.new) }
{
    'draining: for _ in rt.forever() {
        match handle_front(rt, held, gate, link) {
            Ok(true) => {}
            Ok(false) => return Ok(()),
            Err(fault) => return Err(fault),
        }
    }
    unreachable!()
}

// Takes what comes over each link.
#[tactic(auto, using(crate::proofs::Drains::drained_more, crate::proofs::Members::first_none, crate::proofs::Members::first_all, crate::proofs::Hops::hops_same, crate::proofs::Hops::hops_then))]
fn drain_all<N: Laid + Names, R: Wait, G: Gate>(
    rt: &R,
    held: &mut Held<SerialNode<N>, N>,
    gate: &G,
) -> Result<(), CallFault>
    requires alive { held.old.node.machine.serial.killed ≡ false }
    ensures hops { Hops held.old held.new }
    ensures outs { held.new.outs ≡ held.old.outs }
    ensures drained { OnOk result
        (Both (λ k j i. IsDrained N.deployment held.new.node.machine k j i) held.old.ins held.new.ins) }
    ensures fault { IfErr result (Fails held.new) }
{
    let links = held.ins().len();
    for link in 0..links {
        if let Err(fault) = drain(rt, held, gate, link) {
            return Err(fault);
        }
    }
    Ok(())
}

// The same, unless the serializer was killed.
fn drain_alive<N: Laid + Names, R: Wait, G: Gate>(
    rt: &R,
    held: &mut Held<SerialNode<N>, N>,
    gate: &G,
) -> Result<(), CallFault>
    ensures hops { Hops held.old held.new }
    ensures outs { held.new.outs ≡ held.old.outs }
    ensures drained { OnOk result (held.old.node.machine.serial.killed ≡ false
        → Both (λ k j i. IsDrained N.deployment held.new.node.machine k j i) held.old.ins held.new.ins) }
    ensures killed { held.old.node.machine.serial.killed ≡ true → held.new ≡ held.old }
    ensures fault { IfErr result (Fails held.new) }
{
    if held.node().machine().is_dead() {
        return Ok(());
    }
    drain_all(rt, held, gate)
}

/// A serializer's pass: takes what came over each link, and sends what waits. A killed serializer only sends. The gate
/// is called while a label is handled. How many entries the node kept. `Worn`, with the greatest u64, only where that
/// is the node's number or a received envelope's after the call; `Memory`. After an error, what was kept and sent by
/// then stays.
pub fn relay<N: Laid + Names, R: Wait, G: Gate>(
    rt: &R,
    held: &mut Held<SerialNode<N>, N>,
    gate: &G,
) -> Result<u64, CallFault>
    ensures hops { Hops held.old held.new }
    ensures count { IfOk result (λ n. length held.new.node.entries ≡ length held.old.node.entries + n) }
    ensures drained { OnOk result (held.new.node.machine.serial.killed ≡ false
        → Both (λ k j i. IsDrained N.deployment held.new.node.machine k j i) held.old.ins held.new.ins) }
    ensures killed { held.old.node.machine.serial.killed ≡ true
        → (held.new.node ≡ held.old.node) × (held.new.ins ≡ held.old.ins) }
    ensures sent { OnOk result (Both (λ k p o. Stopped held.new.node.entries p o) held.old.outs held.new.outs) }
    ensures fault { IfErr result (Fails held.new) }
{
    let before = held.node().journal().len();
    if let Err(fault) = drain_alive(rt, held, gate) {
        return Err(fault);
    }
    if let Err(fault) = flush_all(rt, held) {
        return Err(fault);
    }
    let after = held.node().journal().len();
    Ok((after - before) as u64)
}
