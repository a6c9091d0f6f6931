//! What one act does to the net of an epoch: None stands for an epoch of stamp order, in which no label goes over a
//! link.
ghost use Rattle.std.specs.Prelude.{ℕ, ◌≡◌, ◌<◌, true, is_some, length, set, slice_get, Some, None, Option, IsSome};
ghost use Rattle.std.specs.Prelude.{IfOk, OnErr, OnOk};
ghost use Rattle.sat_label.specs.declared.label.Label.{Label};
ghost use Rattle.sat_label.specs.declared.node.NodeId.TheVariants.{Serializer as SerializerNode};
ghost use Rattle.sat_tree.specs.Cut.{is_edge, IsNode};
ghost use Rattle.sat_net.specs.Nets.{MayHop, MayHopAll, NetSeen, link_of, with_link_to};
ghost use Rattle.sat_world.specs.Steps.{front_to, net_sent, net_taken, Hops, HopsAt, HopsOnAt, HopsOutAt, Kills};
ghost use Rattle.sat_world.specs.Steps.{KillsAt, LendsAt, NetAt};

use sat_act::{Answer, Refusal};
use sat_label::{Label, NodeId};
use sat_net::{HopFault, Net};
use sat_queue::Queue;
use sat_sites::Interest;
use std::alloc::AllocError;

// The front of the link to a site.
fn front_of(net: &Option<Net>, site: u16) -> Option<Label>
    requires { (n : NetSeen) → net.now ≡ Some n → site < length n.tree.seats }
    ensures { result ≡ front_to net.now site }
{
    match net {
        None => None,
        Some(net) => net.front_to(site),
    }
}

/// The front of the link to a site in the net at a place.
pub fn front_at(nets: &[Option<Net>], place: usize, site: u16) -> Option<Label>
    requires within { place < length nets.now }
    requires seat { (n : NetSeen) → slice_get nets.now place ≡ Some (Some n) → site < length n.tree.seats }
    ensures { (o : Option NetSeen) → slice_get nets.now place ≡ Some o → result ≡ front_to o site }
{
    let net = &nets[place];
    front_of(net, site)
}

// The label at a place of the link to a serializer.
fn ahead_of(net: &Option<Net>, from: NodeId, to: u16, count: usize) -> Option<Label>
    requires node { (n : NetSeen) → net.now ≡ Some n → IsNode n.tree from }
    requires end { (n : NetSeen) → net.now ≡ Some n → to < length n.tree.parents }
    requires edge { (n : NetSeen) → net.now ≡ Some n → is_edge n.tree from (SerializerNode to) ≡ true }
    ensures { (n : NetSeen) → net.now ≡ Some n → result ≡ slice_get (link_of n from (SerializerNode to)) count }
{
    match net {
        None => None,
        Some(net) => net.ahead(from, to, count),
    }
}

/// The label at a place of the link to a serializer, in the net at a place, which has the edge.
pub fn ahead_at(
    nets: &[Option<Net>],
    place: usize,
    from: NodeId,
    to: u16,
    count: usize,
) -> Option<Label>
    requires within { place < length nets.now }
    requires node { (n : NetSeen) → slice_get nets.now place ≡ Some (Some n) → IsNode n.tree from }
    requires end { (n : NetSeen) → slice_get nets.now place ≡ Some (Some n) → to < length n.tree.parents }
    requires edge { (n : NetSeen) → slice_get nets.now place ≡ Some (Some n)
        → is_edge n.tree from (SerializerNode to) ≡ true }
    ensures { (n : NetSeen) → slice_get nets.now place ≡ Some (Some n)
        → result ≡ slice_get (link_of n from (SerializerNode to)) count }
{
    ahead_of(&nets[place], from, to, count)
}

// Takes that label out, where the site showed it or took it.
fn take(net: &mut Option<Net>, site: u16, answer: &Answer)
    requires { (n : NetSeen) → net.old ≡ Some n → site < length n.tree.seats }
    ensures { net.new ≡ net_taken answer.now net.old site }
{
    let Some(net) = net else {
        return;
    };
    match answer {
        Answer::Shown(_) => net.take_to(site),
        Answer::Took(_) => net.take_to(site),
        _ => {}
    }
}

/// Takes the front of the link to a site, in the net at a place, where the site showed it or took it.
pub fn take_at(nets: &mut Vec<Option<Net>>, place: usize, site: u16, answer: &Answer)
    requires within { place < length nets.old.items }
    requires seat { (n : NetSeen) → slice_get nets.old.items place ≡ Some (Some n) → site < length n.tree.seats }
    ensures { (o : Option NetSeen) → slice_get nets.old.items place ≡ Some o
        → NetAt nets.old.items place o (net_taken answer.now o site) nets.new.items }
{
    take(&mut nets[place], site, answer);
}

// Puts a label that a site sends on the way.
fn send(net: &mut Option<Net>, site: u16, sent: Option<Label>) -> Result<(), AllocError>
    requires { (n : NetSeen) → net.old ≡ Some n → site < length n.tree.seats }
    ensures after { OnOk result (net.new ≡ net_sent net.old site sent) }
    ensures err { OnErr result (net.new ≡ net.old) }
{
    let Some(net) = net else {
        return Ok(());
    };
    match sent {
        None => Ok(()),
        Some(label) => net.send(site, label),
    }
}

/// Puts a label that a site sends on the way, in the net at a place.
pub fn send_at(
    nets: &mut Vec<Option<Net>>,
    place: usize,
    site: u16,
    sent: Option<Label>,
) -> Result<(), AllocError>
    requires within { place < length nets.old.items }
    requires seat { (n : NetSeen) → slice_get nets.old.items place ≡ Some (Some n) → site < length n.tree.seats }
    ensures ok { OnOk result ((o : Option NetSeen) → slice_get nets.old.items place ≡ Some o
        → NetAt nets.old.items place o (net_sent o site sent) nets.new.items) }
    ensures err { OnErr result (nets.new.items ≡ nets.old.items) }
{
    send(&mut nets[place], site, sent)?;
    Ok(())
}

// A hop in one net.
fn hop(net: &mut Net, interest: &Interest, from: NodeId, to: u16) -> Result<Answer, AllocError>
    requires { MayHop net.old interest.now from to }
    ensures ok { IfOk result (λ answer. Hops net.old interest.now from to answer net.new) }
    ensures err { OnErr result (net.new ≡ net.old) }
{
    match net.hop(interest, from, to) {
        Ok(None) => Ok(Answer::Refused(Refusal::Empty)),
        Ok(Some((label, nodes))) => Ok(Answer::Hopped { label, to: nodes }),
        Err(HopFault::Dead) => Ok(Answer::Refused(Refusal::Dead)),
        Err(HopFault::Memory) => Err(AllocError),
    }
}

/// A label goes over a link to a serializer, in the net at a place, which is there.
pub fn hop_at(
    nets: &mut Vec<Option<Net>>,
    place: usize,
    interest: &Interest,
    from: NodeId,
    to: u16,
) -> Result<Answer, AllocError>
    requires within { place < length nets.old.items }
    requires there { (o : Option NetSeen) → slice_get nets.old.items place ≡ Some o → IsSome o }
    requires hop { (n : NetSeen) → slice_get nets.old.items place ≡ Some (Some n) → MayHop n interest.now from to }
    ensures ok { IfOk result (λ answer. HopsAt nets.old.items place interest.now from to answer nets.new.items) }
    ensures err { OnErr result (nets.new.items ≡ nets.old.items) }
{
    let Some(net) = &mut nets[place] else {
        unreachable!()
    };
    let answer = hop(net, interest, from, to)?;
    Ok(answer)
}

/// Labels go over a link to a serializer until none is done, in the net at a place, which is there: how many did. For
/// want of memory some did.
pub fn hops_at(
    nets: &mut Vec<Option<Net>>,
    place: usize,
    interest: &Interest,
    from: NodeId,
    to: u16,
) -> Result<u64, AllocError>
    requires within { place < length nets.old.items }
    requires there { (o : Option NetSeen) → slice_get nets.old.items place ≡ Some o → IsSome o }
    requires hops { (n : NetSeen) → slice_get nets.old.items place ≡ Some (Some n) → MayHopAll n interest.now from to }
    ensures ok { IfOk result (λ done. HopsOutAt nets.old.items place interest.now from to done nets.new.items) }
    ensures err { OnErr result
        ((done : ℕ) × HopsOnAt nets.old.items place interest.now from to done nets.new.items) }
{
    let Some(net) = &mut nets[place] else {
        unreachable!()
    };
    let done = net.hop_all(interest, from, to)?;
    Ok(done)
}

/// Whether an epoch has a net at its place.
pub fn is_there(nets: &[Option<Net>], place: usize) -> bool
    requires { place < length nets.now }
    ensures { (o : Option NetSeen) → slice_get nets.now place ≡ Some o → result ≡ is_some o }
{
    nets[place].is_some()
}

/// Lends out what stands on the link to a site, in the net at a place, which is there. It takes no memory.
pub fn lend_at(nets: &mut Vec<Option<Net>>, place: usize, site: u16) -> Queue<Label>
    requires within { place < length nets.old.items }
    requires there { (o : Option NetSeen) → slice_get nets.old.items place ≡ Some o → IsSome o }
    requires seat { (n : NetSeen) → slice_get nets.old.items place ≡ Some (Some n) → site < length n.tree.seats }
    ensures { LendsAt nets.old.items place site result.members nets.new.items }
{
    let Some(net) = &mut nets[place] else {
        unreachable!()
    };
    net.lend_to(site)
}

/// Gives it back.
pub fn restore_at(nets: &mut Vec<Option<Net>>, place: usize, site: u16, labels: Queue<Label>)
    requires within { place < length nets.old.items }
    requires there { (o : Option NetSeen) → slice_get nets.old.items place ≡ Some o → IsSome o }
    requires seat { (n : NetSeen) → slice_get nets.old.items place ≡ Some (Some n) → site < length n.tree.seats }
    ensures { (n : NetSeen) → slice_get nets.old.items place ≡ Some (Some n)
        → nets.new.items ≡ set nets.old.items place (Some (with_link_to n site labels.members)) }
{
    let Some(net) = &mut nets[place] else {
        unreachable!()
    };
    net.restore_to(site, labels);
}

// A kill in one net.
fn kill(net: &mut Net, serializer: u16) -> Answer
    requires { serializer < length net.old.tree.parents }
    ensures { Kills net.old serializer result net.new }
{
    match net.kill(serializer) {
        Ok(()) => Answer::Killed,
        Err(_) => Answer::Refused(Refusal::Already),
    }
}

/// Kills a serializer of the net at a place, which is there. It takes no memory.
pub fn kill_at(nets: &mut Vec<Option<Net>>, place: usize, serializer: u16) -> Answer
    requires within { place < length nets.old.items }
    requires there { (o : Option NetSeen) → slice_get nets.old.items place ≡ Some o → IsSome o }
    requires serializer { (n : NetSeen) → slice_get nets.old.items place ≡ Some (Some n)
        → serializer < length n.tree.parents }
    ensures { KillsAt nets.old.items place serializer result nets.new.items }
{
    let Some(net) = &mut nets[place] else {
        unreachable!()
    };
    kill(net, serializer)
}
