//! Nets.
ghost use Rattle.std.specs.Prelude.{◌≡◌, ◌<◌, ℕ, [], true, false, length, map, slice_get, IfOk, IsOk, IsErrOf};
ghost use Rattle.std.specs.Prelude.{IsOkUnless, OnOk, OnErr, MatchOption};
ghost use Rattle.sat_label.specs.Members.{In};
ghost use Rattle.sat_label.specs.declared.label.Label as declared_label;
ghost use Rattle.sat_label.specs.declared.node.NodeId.TheVariants.{Site as SiteNode, Serializer as SerializerNode};
ghost use Rattle.sat_label.specs.Words.{below};
ghost use Rattle.sat_tree.specs.Cut.{is_edge, seat_of, IsNode};
ghost use Rattle.sat_serial.specs.Outboxes.{fresh};
ghost use Rattle.sat_serial.specs.Routes.{routes, Arrives};
ghost use Rattle.sat_net.specs.Nets.{IsNet, link_of, is_dead, fresh_net, after_send, after_copies, after_give};
ghost use Rattle.sat_net.specs.Nets.{after_take, after_kill, underway_in, underway_up, underway_on, underway_from};
ghost use Rattle.sat_net.specs.Nets.{MayHop, FindsNothing, HandsOn, MayHopAll, HopsOn, HopsOut};
ghost use Rattle.sat_net.specs.Nets.{with_link, link_to, with_link_to};
ghost use Rattle.sat_net.specs.Lending.{HandsOver};
ghost use Rattle.sat_act.specs.Settling.{capped};

use crate::{HopFault, places};
use sat_label::{Label, NodeId, Nodes};
use sat_queue::{Queue, empty_queues};
use sat_serial::{KillFault, Serializer};
use sat_sites::Interest;
use sat_tree::Tree;
use std::alloc::{AllocError, Global};
use std::marker::Model;

/// The serializers of a tree and its links. Contracts see the tree, the serializers, in whose outboxes stands what goes
/// to their neighbours, and what stands on the link from each site to its serializer, the oldest first.
#[derive(Drop)]
pub struct Net {
    tree: Tree,
    serializers: Vec<Serializer>,
    up: Vec<Queue<Label>>,
}

impl Model for Net {
    ghost use Rattle.std.specs.Prelude.{map};
    ghost use Rattle.sat_queue.specs.Queued.{members_of};
    ghost use Rattle.sat_net.specs.Nets.{NetSeen, IsNet};

    ghost Value = { NetSeen };

    ghost view = { λ n. record { tree = n.tree; serializers = n.serializers.items; up = map members_of n.up.items } };

    ghost invariant = { λ n.
        IsNet (record { tree = n.tree; serializers = n.serializers.items; up = map members_of n.up.items }) };
}

// All serializers of a tree, with nothing in their outboxes.
fn serializers(alloc: Global, tree: &Tree) -> Result<Vec<Serializer>, AllocError>
    ensures { IfOk result (λ serializers. serializers.items ≡ map (fresh tree.now) (below (length tree.now.parents))) }
{
    let mut serializers = Vec::new(alloc);
    for number in 0..tree.serializers() {
        serializers.push(Serializer::new(alloc, tree, number)?)?;
    }
    Ok(serializers)
}

impl Net {
    /// The net of a copy of the tree: all serializers alive, and nothing on any link.
    pub fn new(alloc: Global, tree: &Tree) -> Result<Net, AllocError>
        ensures { IfOk result (λ net. net ≡ fresh_net tree.now) }
    {
        let serializers = serializers(alloc, tree)?;
        let up = empty_queues(alloc, tree.sites() as usize)?;
        Ok(Net {
            tree: tree.copy()?,
            serializers,
            up,
        })
    }

    /// The serializer that a site is seated at.
    pub fn seat(&self, site: u16) -> u16
        requires { site < length self.now.tree.seats }
        ensures seat { result ≡ seat_of self.now.tree site }
        ensures limits { IsNet self.now }
    {
        self.tree.seat(site)
    }

    /// The oldest label that a site's serializer has for it, None where there is none. It stays there.
    pub fn front_to(&self, site: u16) -> Option<Label>
        requires { site < length self.now.tree.seats }
        ensures front { result
            ≡ slice_get (link_of self.now (SerializerNode (seat_of self.now.tree site)) (SiteNode site)) 0 }
        ensures limits { IsNet self.now }
    {
        let seat = self.seat(site);
        self.front(NodeId::Serializer(seat), NodeId::Site(site))
    }

    /// Takes the oldest label that a site's serializer has for it, if there is one. It takes no memory, and works after
    /// a kill too.
    pub fn take_to(&mut self, site: u16)
        requires { site < length self.old.tree.seats }
        ensures take { self.new ≡ after_take self.old site }
        ensures limits { IsNet self.old }
    {
        let seat = self.seat(site);
        self.give(NodeId::Serializer(seat), NodeId::Site(site));
    }

    /// Puts a label on the link from a site to its serializer. For want of memory all is as before.
    pub fn send(&mut self, site: u16, label: Label) -> Result<(), AllocError>
        requires { site < length self.old.tree.seats }
        ensures ok { OnOk result (self.new ≡ after_send self.old site label) }
        ensures err { OnErr result (self.new ≡ self.old) }
        ensures limits { IsNet self.old }
    {
        places::send(&mut self.up, site, label)?;
        Ok(())
    }

    /// Takes the oldest label from the link to a serializer, which hands it on, and answers it with the nodes that got
    /// a copy, sites ascending and then serializers ascending; None where nothing stands on the link. `Dead` says that
    /// the serializer was killed, `Memory` that there was no room for the copies; then all is as before. It asks for an
    /// edge of the tree, for an interest of the tree's sites, and for a label of it with a target beyond the edge.
    pub fn hop(
        &mut self,
        interest: &Interest,
        from: NodeId,
        to: u16,
    ) -> Result<Option<(Label, Nodes)>, HopFault>
        requires { MayHop self.old interest.now from to }
        ensures ok { IfOk result (λ o. MatchOption o
            (FindsNothing self.old from to self.new)
            (λ p. HandsOn self.old interest.now from to p.0 p.1 self.new)) }
        ensures dead { is_dead self.old to ≡ true → IsErrOf result HopFault.Dead }
        ensures alive { is_dead self.old to ≡ false → IsOkUnless result HopFault.Memory }
        ensures err { OnErr result (self.new ≡ self.old) }
        ensures limits { IsNet self.old }
    {
        let _ = &self.tree;
        if self.is_dead(to) {
            return Err(HopFault::Dead);
        }
        let next = NodeId::Serializer(to);
        let Some(label) = self.front(from, next) else {
            return Ok(None);
        };
        let nodes = self.hand_on(interest, from, label, to)?;
        self.give(from, next);
        Ok(Some((label, nodes)))
    }

    /// Takes labels from the link to a serializer, which hands them on, until none is left, and answers how many: none
    /// where the serializer was killed. For want of memory some are left on the link, and those before them are handed
    /// on. It asks of each label what `hop` asks of one.
    pub fn hop_all(&mut self, interest: &Interest, from: NodeId, to: u16) -> Result<u64, AllocError>
        requires { MayHopAll self.old interest.now from to }
        ensures ok { IfOk result (λ done. HopsOut interest.now from to self.old done self.new) }
        ensures err { OnErr result ((k : ℕ) × HopsOn interest.now from to self.old k self.new) }
        ensures limits { IsNet self.old }
    {
        let _ = &self.tree;
        if self.is_dead(to) {
            return Ok(0);
        }
        let next = NodeId::Serializer(to);
        let mut labels = self.lend(from, next);
        let count = labels.len() as u64;
        let done = self.hand_all(interest, from, &mut labels, to);
        self.restore(from, next, labels);
        if let Err(fault) = done {
            return Err(fault);
        }
        Ok(count)
    }

    /// Lends out what a site's serializer has for it: there is nothing until `restore_to` gives it back. It takes no
    /// memory.
    pub fn lend_to(&mut self, site: u16) -> Queue<Label>
        requires { site < length self.old.tree.seats }
        ensures labels { result.members ≡ link_to self.old site }
        ensures rest { self.new ≡ with_link_to self.old site [] }
        ensures limits { IsNet self.old }
    {
        let seat = self.seat(site);
        self.lend(NodeId::Serializer(seat), NodeId::Site(site))
    }

    /// Gives back what a site's serializer has for it. It takes no memory.
    pub fn restore_to(&mut self, site: u16, labels: Queue<Label>)
        requires { site < length self.old.tree.seats }
        ensures after { self.new ≡ with_link_to self.old site labels.members }
        ensures limits { IsNet self.old }
    {
        let seat = self.seat(site);
        self.restore(NodeId::Serializer(seat), NodeId::Site(site), labels);
    }

    /// Kills a serializer: it hands nothing on from now on, and what it had put on its links stays there. `Already`
    /// says that it was killed before. It takes no memory.
    pub fn kill(&mut self, z: u16) -> Result<(), KillFault>
        requires { z < length self.old.tree.parents }
        ensures ok { is_dead self.old z ≡ false → IsOk result }
        ensures already { is_dead self.old z ≡ true → IsErrOf result KillFault.Already }
        ensures after { OnOk result (self.new ≡ after_kill self.old z) }
        ensures err { OnErr result (self.new ≡ self.old) }
        ensures limits { IsNet self.old }
    {
        if self.is_dead(z) {
            return Err(KillFault::Already);
        }
        places::kill(&mut self.serializers, z);
        Ok(())
    }

    /// How many labels stand on all links, or 2^64 - 1 where there are more. It takes no memory.
    pub fn underway(&self) -> u64
        ensures { result ≡ capped (underway_in self.now) }
    {
        self.underway_up().saturating_add(self.underway_on())
    }

    // How many stand on the links from sites.
    fn underway_up(&self) -> u64
        ensures { result ≡ capped (underway_up self.now) }
    {
        let mut count: u64 = 0;
        for site in 0..self.tree.sites() {
            count = count.saturating_add(places::kept(&self.up, site));
        }
        count
    }

    // How many stand on the links from serializers.
    fn underway_on(&self) -> u64
        ensures { result ≡ capped (underway_on self.now) }
    {
        let mut count: u64 = 0;
        for z in 0..self.tree.serializers() {
            count = count.saturating_add(self.underway_from(z));
        }
        count
    }

    // How many stand on the links from a serializer.
    fn underway_from(&self, z: u16) -> u64
        requires { z < length self.now.tree.parents }
        ensures { result ≡ capped (underway_from self.now z) }
    {
        let mut count: u64 = 0;
        for to in self.tree.neighbours(z) {
            count = count.saturating_add(places::kept_for(&self.serializers, z, *to));
        }
        count
    }

    /// The label at a place of the link from a node to a serializer, counted from the oldest one, None where there is
    /// none. It asks for an edge of the tree. It takes no memory, and works after a kill too.
    pub fn ahead(&self, from: NodeId, to: u16, count: usize) -> Option<Label>
        requires from { IsNode self.now.tree from }
        requires to { to < length self.now.tree.parents }
        requires edge { is_edge self.now.tree from (SerializerNode to) ≡ true }
        ensures label { result ≡ slice_get (link_of self.now from (SerializerNode to)) count }
        ensures limits { IsNet self.now }
    {
        match from {
            NodeId::Site(site) => places::waiting(&self.up, site, count),
            NodeId::Serializer(z) => {
                places::ahead(&self.serializers, z, NodeId::Serializer(to), count)
            }
        }
    }

    // Whether a serializer was killed.
    fn is_dead(&self, z: u16) -> bool
        requires { z < length self.now.tree.parents }
        ensures dead { result ≡ is_dead self.now z }
        ensures limits { IsNet self.now }
    {
        places::is_dead(&self.serializers, z)
    }

    // The oldest label on the link from one node to another.
    pub(crate) fn front(&self, from: NodeId, to: NodeId) -> Option<Label>
        requires from { IsNode self.now.tree from }
        requires to { IsNode self.now.tree to }
        requires edge { is_edge self.now.tree from to ≡ true }
        ensures { result ≡ slice_get (link_of self.now from to) 0 }
    {
        match from {
            NodeId::Site(site) => places::oldest(&self.up, site),
            NodeId::Serializer(z) => places::front(&self.serializers, z, to),
        }
    }

    // Takes it.
    fn give(&mut self, from: NodeId, to: NodeId)
        requires from { IsNode self.old.tree from }
        requires to { IsNode self.old.tree to }
        requires edge { is_edge self.old.tree from to ≡ true }
        ensures { self.new ≡ after_give self.old from to }
    {
        match from {
            NodeId::Site(site) => places::take_oldest(&mut self.up, site),
            NodeId::Serializer(z) => places::ship(&mut self.serializers, z, to),
        }
    }

    // Hands a label that came from a neighbour to a serializer that is alive. For want of memory all is as before.
    fn hand_on(
        &mut self,
        interest: &Interest,
        from: NodeId,
        label: Label,
        to: u16,
    ) -> Result<Nodes, AllocError>
        requires within { to < length self.old.tree.parents }
        requires arrives { Arrives interest.now self.old.tree to from label }
        requires alive { is_dead self.old to ≡ false }
        ensures nodes { IfOk result (λ nodes. nodes ≡ routes interest.now self.old.tree to from label) }
        ensures ok { OnOk result (self.new ≡ after_copies self.old interest.now from to label) }
        ensures err { OnErr result (self.new ≡ self.old) }
    {
        let nodes = places::hand_on(&mut self.serializers, interest, from, label, to)?;
        Ok(nodes)
    }

    // Lends out what stands on the link from one node to another.
    fn lend(&mut self, from: NodeId, to: NodeId) -> Queue<Label>
        requires from { IsNode self.old.tree from }
        requires to { IsNode self.old.tree to }
        requires edge { is_edge self.old.tree from to ≡ true }
        ensures labels { result.members ≡ link_of self.old from to }
        ensures rest { self.new ≡ with_link self.old from to [] }
    {
        match from {
            NodeId::Site(site) => places::lend_link(&mut self.up, site),
            NodeId::Serializer(z) => places::lend_box(&mut self.serializers, z, to),
        }
    }

    // Gives it back.
    fn restore(&mut self, from: NodeId, to: NodeId, labels: Queue<Label>)
        requires from { IsNode self.old.tree from }
        requires to { IsNode self.old.tree to }
        requires edge { is_edge self.old.tree from to ≡ true }
        ensures { self.new ≡ with_link self.old from to labels.members }
    {
        match from {
            NodeId::Site(site) => places::restore_link(&mut self.up, site, labels),
            NodeId::Serializer(z) => places::restore_box(&mut self.serializers, z, to, labels),
        }
    }

    // Hands labels that came from a neighbour to a serializer that is alive, from the front on: none is left. For want
    // of memory some are left, and those before them are handed on.
    fn hand_all(
        &mut self,
        interest: &Interest,
        from: NodeId,
        labels: &mut Queue<Label>,
        to: u16,
    ) -> Result<(), AllocError>
        requires within { to < length self.old.tree.parents }
        requires arrives { (l : declared_label.Label) → In labels.old.members l
            → Arrives interest.now self.old.tree to from l }
        requires alive { is_dead self.old to ≡ false }
        ensures tree { self.new.tree ≡ self.old.tree }
        ensures ok { OnOk result (HandsOver self.old interest.now from to labels.old.members
            (length labels.old.members) self.new labels.new.members) }
        ensures err { OnErr result ((k : ℕ)
            × HandsOver self.old interest.now from to labels.old.members k self.new labels.new.members) }
    {
        if let Err(fault) = places::hand_all(&mut self.serializers, interest, from, labels, to) {
            return Err(fault);
        }
        Ok(())
    }
}
