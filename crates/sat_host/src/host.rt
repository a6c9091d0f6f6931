//! A node over a transport of the builder's.
ghost use Rattle.std.specs.Prelude.{◌≡◌, ℕ, ◌+◌, ◌<◌, ◌==◌, max, false, true, [], ◌∷◌, ◌++◌, get_or, length, map};
ghost use Rattle.std.specs.Prelude.{vec_len, vec_capacity, if◌then◌else◌, IfErr, IfOk, IfSome, OnOk, OnErr};
ghost use Rattle.sat_node.specs.Meanings.{replay};
ghost use Rattle.sat_node.specs.Puts.{put_by};
ghost use Rattle.sat_node.specs.Seen.{entry, SameNode, Takes};
ghost use Rattle.sat_node.specs.Links.{IsLocal, IsOf};
ghost use Rattle.sat_message.specs.Numbering.{Gives, put_before};
ghost use Rattle.sat_host_laws.specs.Messages.{IsBounded, IsKept, IsSent, IsWanted, SameHost, messages_on, slip};
ghost use Rattle.sat_host_laws.specs.Messages.{wanted_then};
ghost use Rattle.sat_host.specs.Cursors.{AreAt, AreMore, place_of};
ghost use Rattle.sat_host.specs.Turns.{FailsBy, message_at};

use sat_message::{Cursor, Message, Slip};
use sat_node::{Body, CallFault, Machine, Node};
use sat_session::Lent;
use std::alloc::{AllocError, Global};
use std::marker::Model;

/// A node, with what it keeps of the messages that its entries took (24 bytes a message), the number of the label that
/// it wants next of each incoming link, and how far it went through its journal for each outgoing one. What carries its
/// messages may lose, delay, double and reorder them. Links are numbered as a node's ends are: at a site first the
/// other sites in order, then the trees of the epochs; at a serializer its neighbours.
#[derive(Drop)]
pub struct Host<M: Machine> {
    node: Node<M>,
    slips: Vec<Slip>,
    wanted: Vec<u64>,
    cursors: Vec<Cursor>,
}

impl<M: Machine> Model for Host<M> {
    ghost use Rattle.std.specs.Prelude.{map};
    ghost use Rattle.sat_host_laws.specs.Messages.{HostSeen, Slipped};
    ghost use Rattle.sat_host.specs.Cursors.{AreAt, next_of};

    ghost Value = { HostSeen M M.Input M.Answer };

    ghost view = { λ h.
        record {
          node = h.node;
          slips = h.slips.items;
          wanted = h.wanted.items;
          cursors = map next_of h.cursors.items;
        } };

    ghost invariant = { λ h.
        Slipped M.meaning
        (record {
          node = h.node;
          slips = h.slips.items;
          wanted = h.wanted.items;
          cursors = map next_of h.cursors.items;
        })
        × AreAt M.meaning h.node.name h.node.entries h.cursors.items };
}

/// What it keeps of messages stays as it is when a session asks something of it.
impl<M: Machine> Lent<M> for Host<M> {
    ghost use Rattle.std.specs.Prelude.{ℕ, List};
    ghost use Rattle.sat_message.specs.declared.message.Slip.{Slip};

    ghost node_of = { λ h. h.node };

    ghost Beside = { List Slip × List ℕ × List ℕ };

    ghost beside = { λ h. (h.slips, h.wanted, h.cursors) };

    fn node(&self) -> &Node<M> {
        Host::node(self)
    }

    fn act(&mut self, heard: u64, input: M::Input, copy: M::Input) -> Result<M::Answer, CallFault> {
        Host::act(self, heard, input, copy)
    }
}

impl<M: Machine> Host<M> {
    /// A host of a node with an empty journal, at which nothing happened.
    pub fn new(alloc: Global, node: Node<M>) -> Host<M>
        requires { node.entries ≡ [] }
        ensures node { result.node ≡ node }
        ensures none { (result.slips ≡ []) × (result.wanted ≡ []) × (result.cursors ≡ []) }
    {
        Host {
            node,
            slips: Vec::new(alloc),
            wanted: Vec::new(alloc),
            cursors: Vec::new(alloc),
        }
    }

    /// The node: its name, its machine and its journal, with what every host keeps true.
    pub fn node(&self) -> &Node<M>
        ensures node { result.now ≡ self.now.node }
        ensures kept { IsKept M.meaning self.now }
    {
        let _ = self.node.journal();
        let _ = self.node.lamport();
        &self.node
    }

    /// What is kept of the messages that entries took, in order.
    pub fn slips(&self) -> &[Slip]
        ensures { result.now ≡ self.now.slips }
    {
        self.slips.as_slice()
    }

    /// The number of the label that is wanted next of an incoming link, which is how many were taken. A sender may
    /// begin there.
    pub fn wanted(&self, link: usize) -> u64
        ensures { result ≡ get_or self.now.wanted link 0 }
    {
        match self.wanted.get(link) {
            Some(number) => *number,
            None => 0,
        }
    }

    /// Takes an input that takes nothing from a link, as `Node::take` does. `Worn` and `Memory` as there; then all is
    /// as before.
    pub fn act(
        &mut self,
        heard: u64,
        input: M::Input,
        copy: M::Input,
    ) -> Result<M::Answer, CallFault>
        requires fits { M.takes_in self.old.node.machine input ≡ true }
        requires copy { copy ≡ input }
        requires local { IsLocal M.meaning self.old.node input }
        ensures takes { Takes heard input (M.may_fail self.old.node.machine input) result self.old.node self.new.node }
        ensures taken { IfOk result (λ a. self.new.node.entries ≡ self.old.node.entries
            ++ entry (max self.old.node.number heard + 1) input a ∷ []) }
        ensures answer { IfOk result (λ a. M.meaning.answers self.old.node.name
            (replay M.meaning self.old.node.name self.old.node.entries) input a) }
        ensures name { self.new.node.name ≡ self.old.node.name }
        ensures slips { self.new.slips ≡ self.old.slips }
        ensures wanted { self.new.wanted ≡ self.old.wanted }
        ensures cursors { self.new.cursors ≡ self.old.cursors }
        ensures err { OnErr result (SameNode self.old.node self.new.node) }
        ensures fault { IfErr result (FailsBy self.old heard) }
    {
        self.node.take(heard, input, copy)
    }

    /// Takes an input that takes what a message of a link carries: a label where its number is the one that is wanted.
    /// The number heard is the message's. After an error all is as before; `Worn` comes only where the node's number or
    /// the message's is the greatest.
    pub fn handle(
        &mut self,
        link: usize,
        message: &Message,
        input: M::Input,
        copy: M::Input,
    ) -> Result<M::Answer, CallFault>
        requires fits { M.takes_in self.old.node.machine input ≡ true }
        requires copy { copy ≡ input }
        requires carries { IsOf M.meaning self.old.node link message.now.sent.body input }
        requires wanted { IsWanted (get_or self.old.wanted link 0) message.now.number message.now.sent.body }
        requires bound { IsBounded message.now.number message.now.sent.body }
        ensures taken { IfOk result (λ a. self.new.node.entries ≡ self.old.node.entries
            ++ entry (max self.old.node.number message.now.sent.lamport + 1) input a ∷ []) }
        ensures answer { IfOk result (λ a. M.meaning.answers self.old.node.name
            (replay M.meaning self.old.node.name self.old.node.entries) input a) }
        ensures name { self.new.node.name ≡ self.old.node.name }
        ensures slips { OnOk result (self.new.slips ≡ self.old.slips
            ++ slip link message.now.number message.now.sent.lamport ∷ []) }
        ensures wanted { OnOk result ((j : ℕ) → get_or self.new.wanted j 0
            ≡ wanted_then link message.now.sent.body j (get_or self.old.wanted j 0)) }
        ensures messages { OnOk result ((j : ℕ) → messages_on M.meaning self.new j ≡ messages_on M.meaning self.old j
            ++ message_at link message.now j) }
        ensures cursors { self.new.cursors ≡ self.old.cursors }
        ensures err { OnErr result (SameHost self.old self.new) }
        ensures fault { IfErr result (FailsBy self.old message.now.sent.lamport) }
    {
        if room(&mut self.slips, &mut self.wanted, link).is_err() {
            return Err(CallFault::Memory);
        }
        let result = self.node.take(message.sent.lamport, input, copy);
        if result.is_err() {
            return result;
        }
        note(&mut self.slips, &mut self.wanted, link, message);
        result
    }

    /// The next message of an outgoing link, as the journal put it there; `None` where all were given. Each is given
    /// once, in the order of the entries, until `rewind`. It may be sent as often as wanted, and lost. `AllocError`
    /// where there is no memory for a copy: then no message was passed.
    pub fn next_message(&mut self, link: usize) -> Result<Option<Message>, AllocError>
        ensures gives { IfOk result (Gives (M.meaning.puts self.old.node.name link) self.old.node.entries
            (get_or self.old.cursors link 0) (get_or self.new.cursors link 0)) }
        ensures sent { IfOk result (λ found.
            IfSome found (λ m. IsSent (put_by (M.meaning.puts self.old.node.name link) self.old.node.entries) m)) }
        ensures node { self.new.node ≡ self.old.node }
        ensures kept { (self.new.slips ≡ self.old.slips) × (self.new.wanted ≡ self.old.wanted) }
        ensures others { (k : ℕ) → (link == k) ≡ false → get_or self.new.cursors k 0 ≡ get_or self.old.cursors k 0 }
        ensures err { OnErr result
            (put_before (M.meaning.puts self.old.node.name link) self.old.node.entries (get_or self.new.cursors link 0)
            ≡ put_before (M.meaning.puts self.old.node.name link) self.old.node.entries
            (get_or self.old.cursors link 0)) }
    {
        let alloc = *self.slips.allocator();
        if make_cursors(&mut self.cursors, alloc, link).is_err() {
            return Err(AllocError);
        }
        give(&mut self.cursors, &self.node, link)
    }

    /// Begins with the messages of an outgoing link anew, for a transport that lost some.
    #[tactic(auto, using(crate::proofs::Cursors::place_past))]
    pub fn rewind(&mut self, link: usize)
        ensures begins { get_or self.new.cursors link 0 ≡ 0 }
        ensures node { self.new.node ≡ self.old.node }
        ensures kept { (self.new.slips ≡ self.old.slips) × (self.new.wanted ≡ self.old.wanted) }
        ensures others { (k : ℕ) → (link == k) ≡ false → get_or self.new.cursors k 0 ≡ get_or self.old.cursors k 0 }
    {
        if link < self.cursors.len() {
            begin(&mut self.cursors, &self.node, link);
        }
    }
}

// ---- what was taken

// Room for one slip more, and a number for the link.
fn room(slips: &mut Vec<Slip>, wanted: &mut Vec<u64>, link: usize) -> Result<(), AllocError>
    ensures slips { slips.new.items ≡ slips.old.items }
    ensures wanted { (j : ℕ) → get_or wanted.new.items j 0 ≡ get_or wanted.old.items j 0 }
    ensures room { OnOk result (vec_len slips.new < vec_capacity slips.new) }
    ensures row { OnOk result (link < length wanted.new.items) }
{
    make_row(wanted, link)?;
    slips.reserve(1)?;
    Ok(())
}

// Numbers, 0 where there were none, up to this link's.
#[tactic(auto, using(sat_node::proofs::Counts::zero_more))]
fn make_row(wanted: &mut Vec<u64>, link: usize) -> Result<(), AllocError>
    ensures same { (j : ℕ) → get_or wanted.new.items j 0 ≡ get_or wanted.old.items j 0 }
    ensures ok { OnOk result (link < length wanted.new.items) }
{
    while wanted.len() <= link {
        wanted.push(0)?;
    }
    Ok(())
}

// One slip more, and after a label the next number.
fn note(slips: &mut Vec<Slip>, wanted: &mut Vec<u64>, link: usize, message: &Message)
    requires room { vec_len slips.old < vec_capacity slips.old }
    requires row { link < length wanted.old.items }
    requires asked { IsWanted (get_or wanted.old.items link 0) message.now.number message.now.sent.body }
    requires bound { IsBounded message.now.number message.now.sent.body }
    ensures slips { slips.new.items ≡ slips.old.items ++ slip link message.now.number message.now.sent.lamport ∷ [] }
    ensures wanted { (j : ℕ) → get_or wanted.new.items j 0
        ≡ wanted_then link message.now.sent.body j (get_or wanted.old.items j 0) }
{
    slips.push_reserved(Slip {
        link,
        number: message.number,
        lamport: message.sent.lamport,
    });
    follow(wanted, link, message.number, &message.sent.body);
}

// After a label the next number.
fn follow(wanted: &mut Vec<u64>, link: usize, number: u64, body: &Body)
    requires row { link < length wanted.old.items }
    requires asked { IsWanted (get_or wanted.old.items link 0) number body.now }
    requires bound { IsBounded number body.now }
    ensures { (j : ℕ) → get_or wanted.new.items j 0 ≡ wanted_then link body.now j (get_or wanted.old.items j 0) }
{
    match body {
        Body::Label(_) => set_row(wanted, link, number + 1),
        Body::Payload { .. } => {}
        Body::Beat { .. } => {}
    }
}

fn set_row(wanted: &mut Vec<u64>, link: usize, number: u64)
    requires row { link < length wanted.old.items }
    ensures { (j : ℕ) → get_or wanted.new.items j 0 ≡ (if link == j then number else get_or wanted.old.items j 0) }
{
    let rows = wanted.as_mut_slice();
    rows[link] = number;
}

// ---- what is given

// Cursors in front of all entries, up to this link's.
#[tactic(auto, using(crate::proofs::Cursors::place_next, crate::proofs::Cursors::are_more_next, crate::proofs::Cursors::are_more_none))]
fn make_cursors(cursors: &mut Vec<Cursor>, alloc: Global, link: usize) -> Result<(), AllocError>
    ensures same { (k : ℕ) → place_of cursors.new.items k ≡ place_of cursors.old.items k }
    ensures more { AreMore cursors.old.items cursors.new.items }
    ensures ok { OnOk result (link < length cursors.new.items) }
{
    while cursors.len() <= link {
        cursors.push(Cursor::start(alloc))?;
    }
    Ok(())
}

// The next message by a link's cursor.
fn give<M: Machine>(
    cursors: &mut Vec<Cursor>,
    node: &Node<M>,
    link: usize,
) -> Result<Option<Message>, AllocError>
    requires at { AreAt M.meaning node.now.name node.now.entries cursors.old.items }
    requires row { link < length cursors.old.items }
    ensures at { AreAt M.meaning node.now.name node.now.entries cursors.new.items }
    ensures gives { IfOk result (Gives (M.meaning.puts node.now.name link) node.now.entries
        (place_of cursors.old.items link) (place_of cursors.new.items link)) }
    ensures others { (k : ℕ) → (link == k) ≡ false → place_of cursors.new.items k ≡ place_of cursors.old.items k }
    ensures err { OnErr result
        (put_before (M.meaning.puts node.now.name link) node.now.entries (place_of cursors.new.items link)
        ≡ put_before (M.meaning.puts node.now.name link) node.now.entries (place_of cursors.old.items link)) }
{
    let name = node.name();
    let cursor = &mut cursors[link];
    cursor.next_message::<M>(name, node.journal(), link)
}

// A link's cursor in front of all entries.
fn begin<M: Machine>(cursors: &mut Vec<Cursor>, node: &Node<M>, link: usize)
    requires at { AreAt M.meaning node.now.name node.now.entries cursors.old.items }
    requires row { link < length cursors.old.items }
    ensures at { AreAt M.meaning node.now.name node.now.entries cursors.new.items }
    ensures begins { place_of cursors.new.items link ≡ 0 }
    ensures others { (k : ℕ) → (link == k) ≡ false → place_of cursors.new.items k ≡ place_of cursors.old.items k }
{
    let _ = node.lamport();
    let cursor = &mut cursors[link];
    cursor.rewind();
}
