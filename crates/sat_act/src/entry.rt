//! Entries of a history.
ghost use Rattle.std.specs.Prelude.{◌≡◌, ◌++◌, [], ◌∷◌, OnOk, OnErr, IfOk};

use crate::{Act, Answer};
use std::alloc::{AllocError, Global};
use std::marker::Model;

/// One line of a history: an act and its answer.
#[derive(Drop, PartialEq, Eq)]
pub struct Entry {
    /// What was asked.
    pub act: Act,
    /// What came of it.
    pub answer: Answer,
    /// Whether a settle made the entry.
    pub inner: bool,
}

impl Entry {
    /// The same entry again.
    pub fn copy(&self) -> Result<Self, AllocError>
        ensures { IfOk result (λ entry. entry ≡ self.now) }
    {
        let act = self.act.copy()?;
        let answer = self.answer.copy()?;
        Ok(Entry {
            act,
            answer,
            inner: self.inner,
        })
    }
}

/// A list of entries.
#[derive(Drop)]
pub struct Entries {
    items: Vec<Entry>,
}

impl Model for Entries {
    ghost use Rattle.std.specs.Prelude.{List};
    ghost use Rattle.sat_act.specs.declared.entry.Entry.{Entry};

    ghost Value = { List Entry };

    ghost view = { λ a. a.items.items };
}

impl Entries {
    /// An empty list. It takes no memory.
    pub fn new(alloc: Global) -> Self
        ensures { result ≡ [] }
    {
        Entries {
            items: Vec::new(alloc),
        }
    }

    /// Adds a member at the end. For want of memory the list is as before.
    pub fn push(&mut self, member: Entry) -> Result<(), AllocError>
        ensures ok { OnOk result (self.new ≡ self.old ++ member ∷ []) }
        ensures err { OnErr result (self.new ≡ self.old) }
    {
        self.items.push(member)?;
        Ok(())
    }

    /// The members in order.
    pub fn as_slice(&self) -> &[Entry]
        ensures { result.now ≡ self.now }
    {
        self.items.as_slice()
    }

    /// The same list again.
    pub fn copy(&self) -> Result<Self, AllocError>
        ensures { IfOk result (λ entries. entries ≡ self.now) }
    {
        let mut copy = Entries::new(*self.items.allocator());
        for member in &self.items {
            copy.push(member.copy()?)?;
        }
        Ok(copy)
    }
}
