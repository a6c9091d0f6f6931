//! A serializer as a node of a process.
ghost use Rattle.std.specs.Prelude.{◌≡◌, ◌-◌, ◌^◌, min, OnErr, OnOk};
ghost use Rattle.sat_host_laws.specs.Messages.{SameHost};
ghost use Rattle.sat_handed.specs.declared.handed.Handed.TheVariants as handed;
ghost use Rattle.sat_process.specs.declared.hosted.Became.TheVariants as became;
ghost use Rattle.sat_process.specs.Taking.{Takes};
ghost use Rattle.sat_process.specs.Serials.{asked_at_serializer, serial_link_count, took_at_serializer, would_body};
ghost use Rattle.sat_process.specs.Serials.{would_come, would_hop, would_kill};

use crate::hosted::{Became, Hosted};
use crate::site::would_count;
use sat_act::Deployment;
use sat_handed::Handed;
use sat_host::{Host, Received, kill_at_serializer, receive_at_serializer};
use sat_label::Label;
use sat_machines::{Laid, SerialAct, SerialNode};
use sat_message::Message;
use sat_node::{Body, CallFault, Machine};
use std::alloc::AllocError;

// A label from a neighbour, whose turn it is: it is taken where it fits the serializer, which is alive.
fn would_hop<N: Laid>(host: &Host<SerialNode<N>>, link: u16, label: Label) -> Became
    ensures { result ≡ would_hop N.deployment host.now link label }
{
    let machine = host.node().machine();
    if machine.is_dead() {
        return Became::Unfit;
    }
    let Some(from) = machine.neighbour(usize::from(link)) else {
        return Became::Unfit;
    };
    if machine.fits(&SerialAct::Hop { from, label }) {
        Became::Taken
    } else {
        Became::Unfit
    }
}

// What would become of what a message carries.
fn would_body<N: Laid>(host: &Host<SerialNode<N>>, link: u16, message: &Message) -> Became
    ensures { result ≡ would_body N.deployment host.now link message.now.number message.now.sent.body }
{
    let Body::Label(label) = &message.sent.body else {
        return Became::Unfit;
    };
    let turn = would_count(host.wanted(usize::from(link)), message.number);
    if turn != Became::Taken {
        return turn;
    }
    would_hop(host, link, *label)
}

// What would become of a message of a link.
fn would_come<N: Laid>(host: &Host<SerialNode<N>>, link: u16, message: &Message) -> Became
    ensures { result ≡ would_come N.deployment host.now link message.now }
{
    if message.sent.lamport == u64::MAX {
        return Became::Worn;
    }
    if host.node().lamport() == u64::MAX {
        return Became::Worn;
    }
    would_body(host, link, message)
}

// Whether an entry of this number may be next.
fn would_kill<N: Laid>(host: &Host<SerialNode<N>>, lamport: u64) -> Became
    ensures { result ≡ would_kill host.now lamport }
{
    if lamport <= host.node().lamport() {
        return Became::Unfit;
    }
    Became::Taken
}

fn take_kill<N: Laid>(host: &mut Host<SerialNode<N>>, lamport: u64) -> Result<(), AllocError>
    requires { would_kill host.old lamport ≡ became.Taken }
    ensures taken { OnOk result
        (Takes asked_at_serializer took_at_serializer (handed.Killed lamport) host.old host.new) }
    ensures err { OnErr result (SameHost host.old host.new) }
{
    match kill_at_serializer(host, lamport - 1) {
        Ok(_) => Ok(()),
        Err(CallFault::Worn(_)) => unreachable!(),
        Err(CallFault::Memory) => Err(AllocError),
    }
}

fn take_came<N: Laid>(
    host: &mut Host<SerialNode<N>>,
    link: u16,
    message: &Message,
) -> Result<(), AllocError>
    requires { would_come N.deployment host.old link message.now ≡ became.Taken }
    ensures taken { OnOk result (Takes asked_at_serializer took_at_serializer (handed.Came link message.now)
        host.old host.new) }
    ensures err { OnErr result (SameHost host.old host.new) }
{
    match receive_at_serializer(host, usize::from(link), message) {
        Ok(Received::Taken) => Ok(()),
        Ok(Received::Early) => unreachable!(),
        Ok(Received::Again) => unreachable!(),
        Ok(Received::Unfit) => unreachable!(),
        Err(CallFault::Worn(_)) => unreachable!(),
        Err(CallFault::Memory) => Err(AllocError),
    }
}

// How many neighbours it has, of at most 65,535.
#[tactic(auto, using(crate::proofs::Linking::no_more, crate::proofs::Linking::one_more, crate::proofs::Linking::all_of))]
fn neighbours<N: Laid>(host: &Host<SerialNode<N>>) -> u16
    ensures { result ≡ min (serial_link_count host.now.node.machine) (2 ^ 16 - 1) }
{
    let machine = host.node().machine();
    for count in 0..u16::MAX {
        let Some(_) = machine.neighbour(usize::from(count)) else {
            return count;
        };
    }
    u16::MAX
}

impl<N: Laid> Hosted for SerialNode<N> {
    ghost use Rattle.sat_process.specs.Serials.{asked_at_serializer, serial_link_count, serial_would};
    ghost use Rattle.sat_process.specs.Serials.{took_at_serializer};

    ghost deployment = { N.deployment };

    ghost asked = { asked_at_serializer };

    ghost took = { took_at_serializer };

    ghost would = { serial_would N.deployment };

    ghost link_count = { serial_link_count };

    fn links(host: &Host<SerialNode<N>>, _d: &Deployment) -> u16 {
        neighbours(host)
    }

    fn would(
        host: &Host<SerialNode<N>>,
        _d: &Deployment,
        given: &Handed,
    ) -> Result<Became, AllocError> {
        match given {
            Handed::Asked { .. } => Ok(Became::Unfit),
            Handed::Killed { lamport } => Ok(would_kill(host, *lamport)),
            Handed::Came { link, message } => Ok(would_come(host, *link, message)),
        }
    }

    fn take(
        host: &mut Host<SerialNode<N>>,
        _d: &Deployment,
        given: Handed,
    ) -> Result<(), AllocError> {
        match given {
            Handed::Asked { .. } => unreachable!(),
            Handed::Killed { lamport } => take_kill(host, lamport),
            Handed::Came { link, message } => take_came(host, link, &message),
        }
    }
}
