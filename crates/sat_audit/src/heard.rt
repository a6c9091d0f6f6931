//! Histories: acts and what they were told.
ghost use Rattle.std.specs.Prelude.{◌≡◌, ◌++◌, [], ◌∷◌, OnOk, OnErr};

use crate::Told;
use sat_act::{Act, Deployment};
use std::alloc::{AllocError, Global};
use std::marker::Model;

/// An act and what it was told.
#[derive(Drop)]
pub struct Heard {
    pub act: Act,
    pub told: Told,
}

/// A list of acts and what they were told, the oldest first.
#[derive(Drop)]
pub struct HeardList {
    items: Vec<Heard>,
}

impl Model for HeardList {
    ghost use Rattle.std.specs.Prelude.{List};
    ghost use Rattle.sat_audit.specs.declared.heard.Heard.{Heard};

    ghost Value = { List Heard };

    ghost view = { λ a. a.items.items };
}

impl HeardList {
    /// An empty list. It takes no memory.
    pub fn new(alloc: Global) -> HeardList
        ensures { result ≡ [] }
    {
        HeardList {
            items: Vec::new(alloc),
        }
    }

    /// Adds a member at the end. For want of memory the list is as before.
    pub fn push(&mut self, member: Heard) -> Result<(), AllocError>
        ensures ok { OnOk result (self.new ≡ self.old ++ member ∷ []) }
        ensures err { OnErr result (self.new ≡ self.old) }
    {
        self.items.push(member)?;
        Ok(())
    }

    /// The members in order.
    pub fn as_slice(&self) -> &[Heard]
        ensures { result.now ≡ self.now }
    {
        self.items.as_slice()
    }
}

/// A history: what a header says, and acts with what they were told.
#[derive(Drop)]
pub struct History {
    pub deployment: Deployment,
    pub heard: HeardList,
}
