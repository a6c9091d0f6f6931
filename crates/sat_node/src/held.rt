//! What lies under a node's lock: the node with its link ends.
ghost use Rattle.std.specs.Prelude.{◌≡◌, ◌+◌, ◌<◌, ◌≤◌, ◌↔◌, ◌⊎◌, max, true, [], length, Some, None, MatchOption, IfOk};
ghost use Rattle.std.specs.Prelude.{IfErr, OnOk, OnErr, IsErrOf};
ghost use Rattle.sat_node.specs.declared.kept.Envelope.{Envelope as Sent};
ghost use Rattle.sat_node.specs.Meanings.{replay};
ghost use Rattle.sat_node.specs.Seen.{SameNode, Takes, last_number};
ghost use Rattle.sat_node.specs.Puts.{Flushed};
ghost use Rattle.sat_node.specs.Links.{Each, OnlyAt, Tied, Pulled, Cleared, PassedOver, IsLocal, IsOf, front_at};
ghost use Rattle.sat_node.specs.Links.{number_of, out_places, in_places};
ghost use Rattle.sat_node.specs.Together.{EndsAfter, TakesFrom, heard_from};

use crate::ins::In;
use crate::kept::{CallFault, Envelope};
use crate::node::{Machine, Node};
use crate::outs::{Names, Out};
use std::alloc::AllocError;
use std::marker::Model;
use std::sync::{Mutex, Wait};

/// A node with its link ends.
#[derive(Drop)]
pub struct Held<M: Machine, N: Names> {
    node: Node<M>,
    pub(crate) outs: Vec<Out<N>>,
    pub(crate) ins: Vec<In<N>>,
}

/// The same under its lock.
pub type Locked<M, N> = Mutex<Held<M, N>>;

impl<M: Machine, N: Names> Model for Held<M, N> {
    ghost use Rattle.sat_node.specs.Links.{HeldSeen, Tied};

    ghost Value = { HeldSeen M M.Input M.Answer };

    ghost view = { λ h. record { node = h.node; outs = h.outs.items; ins = h.ins.items } };

    ghost invariant = { λ h. Tied M.meaning (record { node = h.node; outs = h.outs.items; ins = h.ins.items }) };
}

impl<M: Machine, N: Names> Held<M, N> {
    /// A node with an empty journal and the ends that a node of its name has, in their order. Their links carried
    /// nothing.
    pub fn new(node: Node<M>, outs: Vec<Out<N>>, ins: Vec<In<N>>) -> Held<M, N>
        requires node { node.entries ≡ [] }
        requires outs { Each outs.items (λ k o. (o.link.sent ≡ []) × (o.next ≡ 0) × (o.payloads ≡ []) × (o.beats ≡ 0)) }
        requires ins { Each ins.items (λ k i. (i.link.received ≡ []) × (i.front ≡ None)) }
        requires places { (out_places outs.items ≡ M.meaning.outs node.name)
            × (in_places ins.items ≡ M.meaning.ins node.name) }
        ensures { (result.node ≡ node) × (result.outs ≡ outs.items) × (result.ins ≡ ins.items) }
    {
        Held { node, outs, ins }
    }

    /// The node: its name, its machine and its journal, with what ties its journal to its links.
    pub fn node(&self) -> &Node<M>
        ensures node { result.now ≡ self.now.node }
        ensures tied { Tied M.meaning self.now }
    {
        &self.node
    }

    /// The ends of the outgoing links.
    pub fn outs(&self) -> &[Out<N>]
        ensures { result.now ≡ self.now.outs }
    {
        self.outs.as_slice()
    }

    /// The ends of the incoming links.
    pub fn ins(&self) -> &[In<N>]
        ensures { result.now ≡ self.now.ins }
    {
        self.ins.as_slice()
    }

    /// The envelope in front of a link, which was popped and not yet taken. `None` exactly where there is none, or no
    /// such link.
    pub fn front(&self, link: usize) -> Option<&Envelope>
        ensures { MatchOption result (front_at self.now.ins link ≡ None) (λ e. front_at self.now.ins link
            ≡ Some e.now) }
    {
        match self.ins.get(link) {
            Some(end) => end.front(),
            None => None,
        }
    }

    // The number of a link's front, 0 where there is none.
    fn heard(&self, link: usize) -> u64
        ensures { result ≡ number_of (front_at self.now.ins link) }
    {
        match self.front(link) {
            Some(front) => front.lamport,
            None => 0,
        }
    }

    /// Whether the machine takes an input.
    pub fn fits(&self, input: &M::Input) -> bool
        ensures { result ≡ M.takes_in self.now.node.machine input.now }
    {
        self.node.machine().fits(input)
    }

    /// Sends what the journal puts on a link and was not yet sent, until all was sent or the link was full.
    /// `AllocError` where there is no memory for a copy: what was sent by then is sent.
    pub fn flush<R: Wait>(&mut self, rt: &R, link: usize) -> Result<(), AllocError>
        requires { link < length self.old.outs }
        ensures node { self.new.node ≡ self.old.node }
        ensures ins { self.new.ins ≡ self.old.ins }
        ensures flushed { OnlyAt link (λ p o. Flushed self.old.node.entries result p o) self.old.outs self.new.outs }
    {
        let name = self.node.name();
        let out = &mut self.outs[link];
        out.flush::<M, R>(rt, name, self.node.journal(), link)
    }

    /// Pops the next envelope of a link as its front. Where a front is kept, nothing changes.
    pub fn pull<R: Wait>(&mut self, rt: &R, link: usize)
        requires { link < length self.old.ins }
        ensures node { self.new.node ≡ self.old.node }
        ensures outs { self.new.outs ≡ self.old.outs }
        ensures pulled { OnlyAt link Pulled self.old.ins self.new.ins }
    {
        let end = &mut self.ins[link];
        end.pull(rt);
    }

    /// Passes over a payload or a beat in front of a link, so that no entry takes it. False where the front is none of
    /// these, and then nothing changes.
    pub fn pass_over(&mut self, link: usize) -> bool
        requires { link < length self.old.ins }
        ensures node { self.new.node ≡ self.old.node }
        ensures outs { self.new.outs ≡ self.old.outs }
        ensures passed { OnlyAt link (PassedOver result) self.old.ins self.new.ins }
    {
        let end = &mut self.ins[link];
        end.pass_over()
    }

    /// Takes the room for one entry, and answers the number that it would have: one above the node's own and the one
    /// heard. Once there is room, the next `act` with at most this heard number fails for memory only where the
    /// machine's step does. `Worn` as in `act`; `Memory`. Nothing else changes, also after an error.
    pub fn reserve(&mut self, heard: u64) -> Result<u64, CallFault>
        ensures number { IfOk result (λ n. n ≡ max self.old.node.number heard + 1) }
        ensures room { OnOk result (0 < self.new.node.room) }
        ensures same { SameNode self.old.node self.new.node }
        ensures more { self.old.node.room ≤ self.new.node.room }
        ensures memory { IsErrOf result CallFault.Memory → self.old.node.room ≡ 0 }
        ensures worn { IsErrOf result (CallFault.Worn last_number) ↔ (max self.old.node.number heard ≡ last_number) }
        ensures only { IfErr result (λ fault. (fault ≡ CallFault.Worn last_number) ⊎ (fault ≡ CallFault.Memory)) }
        ensures outs { self.new.outs ≡ self.old.outs }
        ensures ins { self.new.ins ≡ self.old.ins }
    {
        self.node.reserve(heard)
    }

    /// Takes an input that takes nothing from a link. The number heard is that of whoever asks. What the entry puts
    /// waits for its links. `Worn` and `Memory` come as in `Node::take`. After an error all is as before.
    pub fn act(
        &mut self,
        heard: u64,
        input: M::Input,
        copy: M::Input,
    ) -> Result<M::Answer, CallFault>
        requires fits { M.takes_in self.old.node.machine input ≡ true }
        requires copy { copy ≡ input }
        requires local { IsLocal M.meaning self.old.node input }
        ensures takes { Takes heard input (M.may_fail self.old.node.machine input) result self.old.node self.new.node }
        ensures answer { IfOk result (λ a. M.meaning.answers self.old.node.name
            (replay M.meaning self.old.node.name self.old.node.entries) input a) }
        ensures outs { self.new.outs ≡ self.old.outs }
        ensures ins { self.new.ins ≡ self.old.ins }
    {
        self.node.take(heard, input, copy)
    }

    /// Takes an input that takes the front of a link: its label, payload or beat. The number heard is the front's. What
    /// the entry puts waits for its links. `Worn` and `Memory` come as in `Node::take`. After an error all is as
    /// before.
    pub fn handle(
        &mut self,
        link: usize,
        input: M::Input,
        copy: M::Input,
    ) -> Result<M::Answer, CallFault>
        requires fits { M.takes_in self.old.node.machine input ≡ true }
        requires copy { copy ≡ input }
        requires front { (e : Sent) × (front_at self.old.ins link ≡ Some e)
            × IsOf M.meaning self.old.node link e.body input }
        ensures takes { Takes (number_of (front_at self.old.ins link)) input (M.may_fail self.old.node.machine input)
            result self.old.node self.new.node }
        ensures answer { IfOk result (λ a. M.meaning.answers self.old.node.name
            (replay M.meaning self.old.node.name self.old.node.entries) input a) }
        ensures outs { self.new.outs ≡ self.old.outs }
        ensures ins { OnOk result (OnlyAt link Cleared self.old.ins self.new.ins) }
        ensures err { OnErr result (self.new.ins ≡ self.old.ins) }
    {
        let heard = self.heard(link);
        self.handle_above(heard, link, input, copy)
    }

    // The same, where the number heard is the front's or a greater one.
    fn handle_above(
        &mut self,
        heard: u64,
        link: usize,
        input: M::Input,
        copy: M::Input,
    ) -> Result<M::Answer, CallFault>
        requires fits { M.takes_in self.old.node.machine input ≡ true }
        requires copy { copy ≡ input }
        requires front { (e : Sent) × (front_at self.old.ins link ≡ Some e)
            × IsOf M.meaning self.old.node link e.body input }
        requires heard { number_of (front_at self.old.ins link) ≤ heard }
        ensures takes { Takes heard input (M.may_fail self.old.node.machine input) result self.old.node self.new.node }
        ensures answer { IfOk result (λ a. M.meaning.answers self.old.node.name
            (replay M.meaning self.old.node.name self.old.node.entries) input a) }
        ensures outs { self.new.outs ≡ self.old.outs }
        ensures ins { OnOk result (OnlyAt link Cleared self.old.ins self.new.ins) }
        ensures err { OnErr result (self.new.ins ≡ self.old.ins) }
    {
        let result = self.node.take(heard, input, copy);
        if result.is_err() {
            return result;
        }
        let end = &mut self.ins[link];
        end.clear();
        result
    }

    /// The number of the front of this link, 0 where no link is named or nothing stands there.
    pub fn heard_from(&self, link: Option<usize>) -> u64
        ensures { result ≡ heard_from link self.now.ins }
    {
        match link {
            Some(link) => self.heard(link),
            None => 0,
        }
    }

    /// Takes an input as `handle` does, where a link is named, and as `act` does where none is. The number heard is
    /// that of whoever asks, and no less than the front's: an act of several nodes has one number at all of them.
    pub fn take(
        &mut self,
        heard: u64,
        link: Option<usize>,
        input: M::Input,
        copy: M::Input,
    ) -> Result<M::Answer, CallFault>
        requires fits { M.takes_in self.old.node.machine input ≡ true }
        requires copy { copy ≡ input }
        requires from { TakesFrom M.meaning self.old link input }
        requires heard { heard_from link self.old.ins ≤ heard }
        ensures takes { Takes heard input (M.may_fail self.old.node.machine input) result self.old.node self.new.node }
        ensures answer { IfOk result (λ a. M.meaning.answers self.old.node.name
            (replay M.meaning self.old.node.name self.old.node.entries) input a) }
        ensures outs { self.new.outs ≡ self.old.outs }
        ensures ins { OnOk result (EndsAfter link self.old.ins self.new.ins) }
        ensures err { OnErr result (self.new.ins ≡ self.old.ins) }
    {
        match link {
            Some(link) => self.handle_above(heard, link, input, copy),
            None => self.act(heard, input, copy),
        }
    }
}
