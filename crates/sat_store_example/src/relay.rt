//! A relay: the process that runs one serializer of the tree.
ghost use Rattle.std.specs.Prelude.{◌≡◌, ◌<◌, ◌&&◌, true, false, length, slice_get, Some, None, IfOk, IfSome, OnOk};
ghost use Rattle.std.specs.Prelude.{OnErr, IsErrOf, IsOkUnless, MatchOption};
ghost use Rattle.sat_sites.specs.Interested.{IsLabelOf};
ghost use Rattle.sat_tree.specs.Cut.{is_edge, IsNode};
ghost use Rattle.sat_serial.specs.Outboxes.{after_handle, fresh};
ghost use Rattle.sat_serial.specs.Routes.{leads, routes, IsNeighbour};
ghost use Rattle.sat_label.specs.declared.node.NodeId.TheVariants.{Serializer as SerializerNode};
ghost use Rattle.sat_store_example.specs.declared.fault.RelayFault.TheVariants as fault;
ghost use Rattle.sat_store_example.specs.Relays.{IsRelay, arrives, is_kind_of, is_label_of, is_neighbour, is_node};
ghost use Rattle.sat_store_example.specs.Relays.{shipped, waiting_for};
ghost use Rattle.sat_store_example.specs.Waiting.{is_it};

use crate::{Offer, RelayFault};
use sat_label::{Kind, Label, NodeId, Nodes};
use sat_serial::{HandleFault, Serializer};
use sat_sites::Interest;
use sat_tree::Tree;
use std::alloc::{AllocError, Global};
use std::marker::Model;

/// One serializer, in a process of its own, with what it has to know to judge what comes: the tree, and which sites
/// keep which items. Contracts see these.
#[derive(Drop)]
pub struct Relay {
    tree: Tree,
    interest: Interest,
    number: u16,
    serializer: Serializer,
}

impl Model for Relay {
    ghost use Rattle.sat_store_example.specs.Relays.{IsRelay, RelaySeen};

    ghost Value = { RelaySeen };

    ghost view = { λ r. record { tree = r.tree; interest = r.interest; number = r.number; serializer = r.serializer } };

    ghost invariant = { λ r.
        IsRelay (record { tree = r.tree; interest = r.interest; number = r.number; serializer = r.serializer }) };
}

impl Relay {
    /// The relay with this number of the tree: alive, and with nothing in its outboxes.
    pub fn new(
        alloc: Global,
        tree: &Tree,
        interest: &Interest,
        number: u16,
    ) -> Result<Relay, AllocError>
        requires number { number < length tree.now.parents }
        requires sites { interest.now.sites ≡ length tree.now.seats }
        ensures { IfOk result
            (λ r. r
            ≡ record {
              tree = tree.now;
              interest = interest.now;
              number = number;
              serializer = fresh tree.now number;
            }) }
    {
        let serializer = Serializer::new(alloc, tree, number)?;
        Ok(Relay {
            tree: tree.copy()?,
            interest: interest.copy()?,
            number,
            serializer,
        })
    }

    // Whether a node is one of the tree.
    fn is_node(&self, node: NodeId) -> bool
        ensures { result ≡ is_node self.now.tree node }
    {
        match node {
            NodeId::Site(site) => site < self.tree.sites(),
            NodeId::Serializer(z) => z < self.tree.serializers(),
        }
    }

    // Whether a node hangs together with this one.
    fn is_neighbour(&self, node: NodeId) -> bool
        ensures { result ≡ is_neighbour self.now node }
    {
        self.is_node(node) && self.tree.is_edge(NodeId::Serializer(self.number), node)
    }

    // Whether a kind names items, or a site, that there are.
    fn is_kind(&self, kind: Kind) -> bool
        ensures { result ≡ is_kind_of self.now.interest kind }
    {
        match kind {
            Kind::Update(items) => self.interest.knows(&items),
            Kind::Move(site) => site < self.tree.sites(),
            Kind::Pulse => true,
            Kind::Close(_) => true,
        }
    }

    // Whether a label is one of the deployment.
    fn is_label(&self, label: &Label) -> bool
        ensures { result ≡ is_label_of self.now.interest label.now }
    {
        label.point.site < self.tree.sites() && self.is_kind(label.kind)
    }

    // Whether a target of the label lies on this side of the link.
    fn leads(&self, from: NodeId, label: &Label) -> bool
        requires label { IsLabelOf self.now.interest label.now }
        requires node { IsNode self.now.tree from }
        requires edge { is_edge self.now.tree (SerializerNode self.now.number) from ≡ true }
        ensures { result ≡ leads self.now.interest self.now.tree from (SerializerNode self.now.number) label.now }
    {
        let targets = self.interest.targets(label);
        let near = self.tree.beyond(from, NodeId::Serializer(self.number));
        targets.meets(&near)
    }

    /// Whether `accept` may hand on a label that came from a node: it is one of the deployment, the node is a
    /// neighbour, and a target of the label lies on this side of the link. It takes no memory.
    pub fn arrives(&self, from: NodeId, label: &Label) -> bool
        ensures { result ≡ arrives self.now from label.now }
    {
        if !self.is_neighbour(from) || !self.is_label(label) {
            return false;
        }
        self.leads(from, label)
    }

    /// A label in: it goes into the outbox of every other neighbour beyond which a target of it lies, and these are
    /// answered.
    pub fn accept(&mut self, from: NodeId, label: Label) -> Result<Nodes, RelayFault>
        ensures nodes { IfOk result (λ nodes. nodes
            ≡ routes self.old.interest self.old.tree self.old.number from label) }
        ensures after { OnOk result (self.new
            ≡ record self.old { serializer = after_handle self.old.serializer self.old.interest from label }) }
        ensures unfit { arrives self.old from label ≡ false → IsErrOf result fault.Unfit }
        ensures dead { arrives self.old from label ≡ true → self.old.serializer.killed ≡ true
            → IsErrOf result fault.Dead }
        ensures alive { arrives self.old from label ≡ true → self.old.serializer.killed ≡ false
            → IsOkUnless result fault.Memory }
        ensures err { OnErr result (self.new ≡ self.old) }
    {
        if !self.arrives(from, &label) {
            return Err(RelayFault::Unfit);
        }
        match self.serializer.handle(&self.interest, from, label) {
            Ok(nodes) => Ok(nodes),
            Err(HandleFault::Dead) => Err(RelayFault::Dead),
            Err(HandleFault::Memory) => Err(RelayFault::Memory),
        }
    }

    // The oldest label for a node, None where none waits, or the node is no neighbour. It stays where it is.
    fn front(&self, to: NodeId) -> Option<Label>
        ensures { result ≡ slice_get (waiting_for self.now to) 0 }
    {
        if !self.is_neighbour(to) {
            return None;
        }
        self.serializer.front(to)
    }

    /// A label out: the oldest one for a node, which stays in its outbox until `taken` is told of it; None where none
    /// waits, or the node is no neighbour. It takes no memory, and works after a kill too.
    pub fn offer(&self, to: NodeId) -> Option<Offer<NodeId>>
        ensures label { MatchOption result (slice_get (waiting_for self.now to) 0 ≡ None)
            (λ offer. slice_get (waiting_for self.now to) 0 ≡ Some offer.label) }
        ensures link { IfSome result (λ offer. offer.link ≡ to) }
    {
        let label = self.front(to)?;
        Some(Offer { label, link: to })
    }

    /// The other end has said that it took what was offered: the label leaves its outbox. Where another one is the
    /// oldest there, since this was told twice, nothing changes, and the answer is false. It takes no memory, and works
    /// after a kill too.
    pub fn taken(&mut self, offer: Offer<NodeId>) -> bool
        ensures stands { result ≡ is_it offer.label (slice_get (waiting_for self.old offer.link) 0) }
        ensures taken { result ≡ true → self.new ≡ shipped self.old offer.link }
        ensures stays { result ≡ false → self.new ≡ self.old }
    {
        let Some(front) = self.front(offer.link) else {
            return false;
        };
        if !front.is_same(&offer.label) {
            return false;
        }
        self.ship(offer.link);
        true
    }

    // Takes the oldest label for a node out of its outbox, if it is a neighbour.
    fn ship(&mut self, to: NodeId)
        ensures { self.new ≡ shipped self.old to }
    {
        if !self.is_neighbour(to) {
            return;
        }
        let _ = self.serializer.ship(to);
    }

    /// Failure: the relay hands nothing on from now on. A second kill changes nothing. It takes no memory.
    pub fn kill(&mut self)
        ensures { self.new ≡ record self.old { serializer = record self.old.serializer { killed = true } } }
    {
        let _ = self.serializer.kill();
    }
}
