//! Nodes that keep journals.
ghost use Rattle.std.specs.Prelude.{◌≡◌, ◌+◌, ◌<◌, ◌≤◌, max, true, [], ◌∷◌, ◌++◌, ◌↔◌, ◌⊎◌, IfOk, IfErr, OnOk, OnErr};
ghost use Rattle.std.specs.Prelude.{IsErrOf};
ghost use Rattle.sat_node.specs.Seen.{last_number, SameNode, Takes};
ghost use Rattle.sat_node.specs.Meanings.{replay, Runs, last_of, Rises};

use crate::kept::{CallFault, Kept, Made};
use sat_label::NodeName;
use std::alloc::{AllocError, Global};
use std::cmp::max;
use std::marker::Model;

/// A part of the cluster that takes inputs one by one and answers each. It stands for a state of a model, and its law
/// speaks of that state: a machine may keep more, or keep it otherwise.
pub trait Machine {
    type Input: Drop;

    type Answer: Drop;

    ghost use Rattle.std.specs.Prelude.{◌≡◌, ℕ, Bool, true, IfOk, OnErr};
    ghost use Rattle.sat_label.specs.declared.node.NodeName.{NodeName};
    ghost use Rattle.sat_node.specs.Meanings.{Meaning};

    /// What the model keeps of such a machine.
    ghost State: { Type 0 };

    /// What the machine and its entries mean.
    ghost meaning: { Meaning State Self.Input Self.Answer };

    /// The machine of the node of this name stands for this state.
    ghost stands_for: { NodeName → Self → State → Type 0 };

    /// What the machine can tell of an input: whether it takes it.
    ghost takes_in: { Self → Self.Input → Bool };

    /// Whether a step can fail for want of memory.
    ghost may_fail: { Self → Self.Input → Bool };

    /// Whether the machine takes an input.
    fn fits(&self, input: &Self::Input) -> bool
        ensures { result ≡ takes_in self.now input.now };

    /// Takes an input. The two answers are equal. After an error nothing changed.
    fn step(&mut self, input: Self::Input) -> Result<(Self::Answer, Self::Answer), AllocError>
        requires { takes_in self.old input ≡ true }
        ensures same { IfOk result (λ two. two.0 ≡ two.1) }
        ensures fits { IfOk result (λ two. (name : NodeName) (s : State) → stands_for name self.old s
            → meaning.fits name s input) }
        ensures answers { IfOk result (λ two. (name : NodeName) (s : State) → stands_for name self.old s
            → meaning.answers name s input two.0) }
        ensures after { IfOk result (λ two. (name : NodeName) (s : State) → stands_for name self.old s
            → stands_for name self.new (meaning.after name s input two.0)) }
        ensures err { OnErr result ((self.new ≡ self.old) × (may_fail self.old input ≡ true)) };

    /// What an entry puts on the outgoing link of this number.
    fn put(
        alloc: Global,
        name: NodeName,
        link: usize,
        input: &Self::Input,
        given: &Self::Answer,
    ) -> Result<Option<Made>, AllocError>
        ensures { IfOk result (λ made. made ≡ meaning.puts name link input.now given.now) };
}

/// A machine with the journal of all that it took.
#[derive(Drop)]
pub struct Node<M: Machine> {
    name: NodeName,
    machine: M,
    journal: Vec<Kept<M::Input, M::Answer>>,
    lamport: u64,
}

impl<M: Machine> Model for Node<M> {
    ghost use Rattle.std.specs.Prelude.{◌≡◌, ◌-◌, vec_len, vec_capacity};
    ghost use Rattle.sat_node.specs.Seen.{NodeSeen};
    ghost use Rattle.sat_node.specs.Meanings.{replay, Runs, last_of, Rises};

    ghost Value = { NodeSeen M M.Input M.Answer };

    ghost view = { λ n. record {
      name = n.name;
      machine = n.machine;
      entries = n.journal.items;
      number = n.lamport;
      room = vec_capacity n.journal - vec_len n.journal;
    } };

    ghost invariant = { λ n. M.stands_for n.name n.machine (replay M.meaning n.name n.journal.items)
        × Runs M.meaning n.name n.journal.items
        × (n.lamport ≡ last_of 0 n.journal.items) × Rises 0 n.journal.items };
}

impl<M: Machine> Node<M> {
    /// A node with an empty journal and the number 0. The machine is a new one of this name.
    pub fn new(alloc: Global, name: NodeName, machine: M) -> Node<M>
        requires { M.stands_for name machine (M.meaning.fresh name) }
        ensures name { result.name ≡ name }
        ensures machine { result.machine ≡ machine }
        ensures entries { (result.entries ≡ []) × (result.number ≡ 0) }
    {
        Node {
            name,
            machine,
            journal: Vec::new(alloc),
            lamport: 0,
        }
    }

    /// Its name, which no call changes.
    pub fn name(&self) -> NodeName
        ensures { result ≡ self.now.name }
    {
        self.name
    }

    /// The number of the last entry, 0 where there is none.
    pub fn lamport(&self) -> u64
        ensures number { result ≡ self.now.number }
        ensures last { (self.now.number ≡ last_of 0 self.now.entries) × Rises 0 self.now.entries }
    {
        self.lamport
    }

    /// All that it took, in order, each with its answer. The machine always stands for the replay of it; each input
    /// fitted the state that it met, and each answer is the machine's.
    pub fn journal(&self) -> &[Kept<M::Input, M::Answer>]
        ensures entries { result.now ≡ self.now.entries }
        ensures stands { M.stands_for self.now.name self.now.machine (replay M.meaning self.now.name self.now.entries) }
        ensures runs { Runs M.meaning self.now.name self.now.entries }
    {
        self.journal.as_slice()
    }

    /// The machine in its state.
    pub fn machine(&self) -> &M
        ensures machine { result.now ≡ self.now.machine }
        ensures stands { M.stands_for self.now.name self.now.machine (replay M.meaning self.now.name self.now.entries) }
    {
        &self.machine
    }

    /// Takes the room for one entry, and answers the number that it would have: one above the node's own and the one
    /// heard (Lamport, 1978). Once there is room, the next `take` with at most this heard number fails for memory only
    /// where the machine's step does. `Worn` as in `take`; `Memory`.
    pub fn reserve(&mut self, heard: u64) -> Result<u64, CallFault>
        ensures number { IfOk result (λ n. n ≡ max self.old.number heard + 1) }
        ensures room { OnOk result (0 < self.new.room) }
        ensures same { SameNode self.old self.new }
        ensures more { self.old.room ≤ self.new.room }
        ensures memory { IsErrOf result CallFault.Memory → self.old.room ≡ 0 }
        ensures worn { IsErrOf result (CallFault.Worn last_number) ↔ (max self.old.number heard ≡ last_number) }
        ensures only { IfErr result (λ fault. (fault ≡ CallFault.Worn last_number) ⊎ (fault ≡ CallFault.Memory)) }
    {
        let greater = max(self.lamport, heard);
        if greater == u64::MAX {
            return Err(CallFault::Worn(greater));
        }
        self.journal.reserve(1)?;
        Ok(greater + 1)
    }

    /// Steps the machine, and keeps the entry, under a number one above the node's own and the one heard (Lamport,
    /// 1978). The copy is of the input. `Worn`, with the greatest u64, exactly where the node's number or the one heard
    /// is that; `Memory`. After an error the node is as before.
    pub fn take(
        &mut self,
        heard: u64,
        input: M::Input,
        copy: M::Input,
    ) -> Result<M::Answer, CallFault>
        requires fits { M.takes_in self.old.machine input ≡ true }
        requires copy { copy ≡ input }
        ensures takes { Takes heard input (M.may_fail self.old.machine input) result self.old self.new }
        ensures answer { IfOk result
            (λ a. M.meaning.answers self.old.name (replay M.meaning self.old.name self.old.entries) input a) }
    {
        let most = max(self.lamport, heard);
        if most == u64::MAX {
            return Err(CallFault::Worn(most));
        }
        self.journal.reserve(1)?;
        let (answer, kept) = self.machine.step(input)?;
        self.journal.push_reserved(Kept {
            lamport: most + 1,
            input: copy,
            answer: kept,
        });
        self.lamport = most + 1;
        Ok(answer)
    }
}
