//! Serializers.
ghost use Rattle.std.specs.Prelude.{◌≡◌, ◌<◌, ℕ, [], length, slice_get, true, false, IfOk, IsOk, IsErrOf, IsOkUnless};
ghost use Rattle.std.specs.Prelude.{OnOk, OnErr};
ghost use Rattle.sat_label.specs.Members.{In};
ghost use Rattle.sat_label.specs.declared.label.Label as declared_label;
ghost use Rattle.sat_serial.specs.Routes.{routes, Arrives, IsNeighbour};
ghost use Rattle.sat_serial.specs.Outboxes.{fresh, after_handle, after_handles, HandsOnSome, outbox, with_box};
ghost use Rattle.sat_serial.specs.Outboxes.{after_ship, IsSerializer};

use crate::router::{Router, make_room, push_at};
use crate::{HandleFault, KillFault};
use sat_label::{Label, NodeId, Nodes};
use sat_queue::{Queue, empty_queues};
use sat_sites::Interest;
use sat_tree::Tree;
use std::alloc::{AllocError, Global};
use std::marker::Model;
use std::mem;

/// One serializer of a tree. Contracts see the tree, its number there, whether it was killed, and the labels in the
/// outbox of each neighbour, the oldest first, in the order of the neighbours: sites ascending, then serializers
/// ascending.
#[derive(Drop)]
pub struct Serializer {
    router: Router,
    killed: bool,
    outboxes: Vec<Queue<Label>>,
}

impl Model for Serializer {
    ghost use Rattle.std.specs.Prelude.{map};
    ghost use Rattle.sat_queue.specs.Queued.{members_of};
    ghost use Rattle.sat_serial.specs.Outboxes.{SerializerSeen, IsSerializer};

    ghost Value = { SerializerSeen };

    ghost view = { λ a.
        record {
          tree = a.router.tree;
          number = a.router.number;
          killed = a.killed;
          outboxes = map members_of a.outboxes.items;
        } };

    ghost invariant = { λ a.
        IsSerializer
        (record {
          tree = a.router.tree;
          number = a.router.number;
          killed = a.killed;
          outboxes = map members_of a.outboxes.items;
        }) };
}

impl Serializer {
    /// The serializer with this number of a copy of the tree: alive, and with nothing in its outboxes.
    pub fn new(alloc: Global, tree: &Tree, number: u16) -> Result<Serializer, AllocError>
        requires { number < length tree.now.parents }
        ensures { IfOk result (λ serializer. serializer ≡ fresh tree.now number) }
    {
        let router = Router::new(alloc, tree.copy()?, number)?;
        let outboxes = empty_queues(alloc, router.neighbours().len())?;
        Ok(Serializer {
            router,
            killed: false,
            outboxes,
        })
    }

    /// Hands a label that came from a neighbour on: puts a copy into the outbox of every other neighbour beyond which a
    /// target of it lies, and answers these, sites ascending and then serializers ascending. `Dead` says that the
    /// serializer was killed, `Memory` that there was no room for the copies; then all is as before. It asks for an
    /// interest of the tree's sites, and for a label of it with a target beyond the edge that it came over.
    pub fn handle(
        &mut self,
        interest: &Interest,
        from: NodeId,
        label: Label,
    ) -> Result<Nodes, HandleFault>
        requires { Arrives interest.now self.old.tree self.old.number from label }
        ensures nodes { IfOk result (λ nodes. nodes ≡ routes interest.now self.old.tree self.old.number from label) }
        ensures ok { OnOk result (self.new ≡ after_handle self.old interest.now from label) }
        ensures err { OnErr result (self.new ≡ self.old) }
        ensures dead { self.old.killed ≡ true → IsErrOf result HandleFault.Dead }
        ensures alive { self.old.killed ≡ false → IsOkUnless result HandleFault.Memory }
        ensures limits { IsSerializer self.old }
    {
        if self.killed {
            return Err(HandleFault::Dead);
        }
        let alloc = *self.outboxes.allocator();
        let hits = self.router.hits(interest, from, &label);
        let nodes = self
            .router
            .room_at(alloc, &mut self.outboxes, hits.as_slice())?;
        push_at(&mut self.outboxes, hits.as_slice(), &label);
        Ok(nodes)
    }

    // Puts a copy of a label that came from a neighbour into the outbox of every other neighbour beyond which a target
    // of it lies. For want of memory all is as before.
    #[inline(always)]
    fn hand_copies(
        &mut self,
        interest: &Interest,
        from: NodeId,
        label: &Label,
    ) -> Result<(), AllocError>
        requires { Arrives interest.now self.old.tree self.old.number from label.now }
        ensures ok { OnOk result (self.new ≡ after_handle self.old interest.now from label.now) }
        ensures err { OnErr result (self.new ≡ self.old) }
    {
        let hits = self.router.hits(interest, from, label);
        make_room(&mut self.outboxes, hits.as_slice())?;
        push_at(&mut self.outboxes, hits.as_slice(), label);
        Ok(())
    }

    /// Hands labels that came from a neighbour on, from the front on, each as `handle` does: none is left in the queue.
    /// For want of memory some are left, and those before them are handed on. It asks for a serializer that is alive,
    /// and for what `handle` asks for of each label.
    pub fn handle_all(
        &mut self,
        interest: &Interest,
        from: NodeId,
        labels: &mut Queue<Label>,
    ) -> Result<(), AllocError>
        requires alive { self.old.killed ≡ false }
        requires arrives { (l : declared_label.Label) → In labels.old.members l
            → Arrives interest.now self.old.tree self.old.number from l }
        ensures after { OnOk result (self.new ≡ after_handles self.old interest.now from labels.old.members) }
        ensures empty { OnOk result (labels.new.members ≡ []) }
        ensures err { OnErr result ((n : ℕ)
            × HandsOnSome self.old interest.now from labels.old.members n self.new labels.new.members) }
    {
        for _ in 0..labels.len() {
            let Some(label) = labels.front() else {
                unreachable!()
            };
            if let Err(fault) = self.hand_copies(interest, from, &label) {
                return Err(fault);
            }
            let _ = labels.take();
        }
        Ok(())
    }

    /// Lends the outbox of a neighbour out: it is empty until `restore` gives it back. It takes no memory.
    pub fn lend(&mut self, to: NodeId) -> Queue<Label>
        requires { IsNeighbour self.old.tree self.old.number to }
        ensures labels { result.members ≡ outbox self.old to }
        ensures rest { self.new ≡ with_box self.old to [] }
        ensures limits { IsSerializer self.old }
    {
        let none = Queue::new(*self.outboxes.allocator());
        let Some(place) = self.router.place(to) else {
            return none;
        };
        mem::replace(&mut self.outboxes[place], none)
    }

    /// Gives the outbox of a neighbour back. It takes no memory.
    pub fn restore(&mut self, to: NodeId, labels: Queue<Label>)
        requires { IsNeighbour self.old.tree self.old.number to }
        ensures after { self.new ≡ with_box self.old to labels.members }
        ensures limits { IsSerializer self.old }
    {
        if let Some(place) = self.router.place(to) {
            self.outboxes[place] = labels;
        }
    }

    /// The nodes that `handle` answers while the serializer is alive; `handle` says what it asks for.
    pub fn route(
        &self,
        interest: &Interest,
        from: NodeId,
        label: &Label,
    ) -> Result<Nodes, AllocError>
        requires { Arrives interest.now self.now.tree self.now.number from label.now }
        ensures route { IfOk result (λ nodes. nodes
            ≡ routes interest.now self.now.tree self.now.number from label.now) }
        ensures limits { IsSerializer self.now }
    {
        let alloc = *self.outboxes.allocator();
        let hits = self.router.hits(interest, from, label);
        let nodes = self.router.at(alloc, hits.as_slice())?;
        Ok(nodes)
    }

    /// The oldest label in the outbox of a neighbour, None where it is empty. It stays there.
    pub fn front(&self, to: NodeId) -> Option<Label>
        requires { IsNeighbour self.now.tree self.now.number to }
        ensures label { result ≡ slice_get (outbox self.now to) 0 }
        ensures limits { IsSerializer self.now }
    {
        let Some(place) = self.router.place(to) else {
            return None;
        };
        self.outboxes[place].front()
    }

    /// The label at a place of the outbox of a neighbour, counted from the oldest one, None where there is none. It
    /// stays there.
    pub fn ahead(&self, to: NodeId, count: usize) -> Option<Label>
        requires { IsNeighbour self.now.tree self.now.number to }
        ensures label { result ≡ slice_get (outbox self.now to) count }
        ensures limits { IsSerializer self.now }
    {
        let Some(place) = self.router.place(to) else {
            return None;
        };
        self.outboxes[place].get(count)
    }

    /// How many labels stand in the outbox of a neighbour, none where the node is no neighbour. It takes no memory.
    pub fn kept(&self, to: NodeId) -> u64
        ensures kept { result ≡ length (outbox self.now to) }
        ensures limits { IsSerializer self.now }
    {
        let Some(place) = self.router.place(to) else {
            return 0;
        };
        self.outboxes[place].len() as u64
    }

    /// Takes the oldest label out of the outbox of a neighbour, None where it is empty. It takes no memory, and works
    /// after a kill too.
    pub fn ship(&mut self, to: NodeId) -> Option<Label>
        requires { IsNeighbour self.old.tree self.old.number to }
        ensures label { result ≡ slice_get (outbox self.old to) 0 }
        ensures rest { self.new ≡ after_ship self.old to }
        ensures limits { IsSerializer self.old }
    {
        let Some(place) = self.router.place(to) else {
            return None;
        };
        self.outboxes[place].take()
    }

    /// Whether it was killed.
    pub fn is_dead(&self) -> bool
        ensures dead { result ≡ self.now.killed }
        ensures limits { IsSerializer self.now }
    {
        self.killed
    }

    /// Kills the serializer: it handles nothing from now on. `Already` says that it was killed before. It takes no
    /// memory.
    pub fn kill(&mut self) -> Result<(), KillFault>
        ensures killed { self.new ≡ record self.old { killed = true } }
        ensures ok { self.old.killed ≡ false → IsOk result }
        ensures already { self.old.killed ≡ true → IsErrOf result KillFault.Already }
        ensures limits { IsSerializer self.old }
    {
        if self.killed {
            return Err(KillFault::Already);
        }
        self.killed = true;
        Ok(())
    }
}
