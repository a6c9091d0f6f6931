//! Messages at a serializer.
ghost use Rattle.std.specs.Prelude.{◌≡◌, true, false, get_or, IfErr, IfOk, OnErr, OnOk, Some};
ghost use Rattle.sat_node.specs.Meanings.{replay};
ghost use Rattle.sat_machines.specs.Serials.{SerialStands, serial_meaning};
ghost use Rattle.sat_passes.specs.Relays.{hop_from, hop_with};
ghost use Rattle.sat_host.specs.declared.received.Received.TheVariants as became;
ghost use Rattle.sat_host_laws.specs.Messages.{IsBounded, SameHost};
ghost use Rattle.sat_host.specs.Turns.{FailsBy, Receives, turn_of};
ghost use Rattle.sat_host.specs.Receptions.{serial_reception};

use crate::host::Host;
use crate::received::{Received, is_taken, turn_of};
use sat_label::{Label, NodeId};
use sat_machines::{Laid, SerialAct, SerialNode};
use sat_message::Message;
use sat_node::{Body, CallFault, Machine};

// The machine stands for the replay of the journal.
fn sound<N: Laid>(host: &Host<SerialNode<N>>)
    ensures { SerialStands N.deployment host.now.node.name host.now.node.machine
        (replay (serial_meaning N.deployment) host.now.node.name host.now.node.entries) }
{
    let _ = host.node().machine();
}

// A label from a neighbour, as a hop that fits the machine.
fn hop_from<N: Laid>(
    host: &Host<SerialNode<N>>,
    from: Option<NodeId>,
    label: Label,
) -> Option<SerialAct>
    ensures { result ≡ hop_from N.deployment host.now.node.machine from label }
{
    let Some(from) = from else {
        return None;
    };
    let hop = SerialAct::Hop { from, label };
    if host.node().machine().fits(&hop) {
        Some(hop)
    } else {
        None
    }
}

// What came over a link, as a hop that fits the machine.
fn hop_with<N: Laid>(host: &Host<SerialNode<N>>, link: usize, body: &Body) -> Option<SerialAct>
    ensures { result ≡ hop_with N.deployment host.now.node.machine link body.now }
{
    match body {
        Body::Label(label) => hop_from(host, host.node().machine().neighbour(link), *label),
        Body::Payload { .. } => None,
        Body::Beat { .. } => None,
    }
}

// Takes a message whose turn it is as a hop.
#[tactic(auto, using(crate::proofs::Turning::turn_wanted, crate::proofs::Turning::took_this))]
fn take_hop<N: Laid>(
    host: &mut Host<SerialNode<N>>,
    link: usize,
    message: &Message,
    hop: SerialAct,
) -> Result<(), CallFault>
    requires alive { host.old.node.machine.serial.killed ≡ false }
    requires hop { hop_with N.deployment host.old.node.machine link message.now.sent.body ≡ Some hop }
    requires turn { turn_of (get_or host.old.wanted link 0) message.now.number message.now.sent.body ≡ became.Taken }
    requires bound { IsBounded message.now.number message.now.sent.body }
    ensures taken { OnOk result (Receives (serial_meaning N.deployment) link message.now
        (hop_with N.deployment host.old.node.machine link message.now.sent.body) host.old host.new became.Taken) }
    ensures err { OnErr result (SameHost host.old host.new) }
    ensures fault { IfErr result (FailsBy host.old message.now.sent.lamport) }
{
    sound(host);
    match host.handle(link, message, hop, hop) {
        Ok(_) => Ok(()),
        Err(fault) => Err(fault),
    }
}

/// What a serializer's host does with a message that came over one of its links, from a neighbour: it takes a label
/// where all before it on the link were taken and it fits the serializer, which is alive. `Worn` only where the node's
/// number or the message's is the greatest, and `Memory`; then all is as before.
#[tactic(auto, using(crate::proofs::Turning::taken_is, crate::proofs::Turning::not_taken))]
pub fn receive_at_serializer<N: Laid>(
    host: &mut Host<SerialNode<N>>,
    link: usize,
    message: &Message,
) -> Result<Received, CallFault>
    ensures received { IfOk result (λ r. r ≡ serial_reception N.deployment host.old link message.now) }
    ensures receives { IfOk result (λ r. Receives (serial_meaning N.deployment) link message.now
        (hop_with N.deployment host.old.node.machine link message.now.sent.body) host.old host.new r) }
    ensures err { OnErr result (SameHost host.old host.new) }
    ensures fault { IfErr result (FailsBy host.old message.now.sent.lamport) }
{
    let turn = turn_of(host.wanted(link), message.number, &message.sent.body);
    if !is_taken(turn) {
        return Ok(turn);
    }
    if host.node().machine().is_dead() {
        return Ok(Received::Unfit);
    }
    let Some(hop) = hop_with(host, link, &message.sent.body) else {
        return Ok(Received::Unfit);
    };
    match take_hop(host, link, message, hop) {
        Ok(()) => Ok(Received::Taken),
        Err(fault) => Err(fault),
    }
}
