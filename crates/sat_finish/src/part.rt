//! A part of an act of several nodes, under the act's Lamport number.
ghost use Rattle.std.specs.Prelude.{◌≡◌, false, IfOk};
ghost use Rattle.sat_finish.specs.Partings.{joint_at};

use crate::joint::{Given, Joint};
use crate::same::{copy_given, same_entry, same_given};
use sat_act::{Act, Answer, Entry};
use sat_apart::Numbered;
use sat_label::NodeName;
use std::alloc::AllocError;
use std::marker::Model;

/// What a node kept of an act of several nodes: the act's Lamport number, the act with its answer, and what passed
/// between its home and a gear.
#[derive(Drop)]
pub(crate) struct Part {
    lamport: u64,
    entry: Entry,
    given: Given,
}

impl Model for Part {
    ghost use Rattle.sat_finish.specs.Parts.{PartSeen};

    ghost Value = { PartSeen };

    ghost view = { λ p. record { lamport = p.lamport; entry = p.entry; given = p.given } };
}

impl Numbered for Part {
    ghost use Rattle.sat_finish.specs.Parts.{part_number};

    ghost place = { part_number };

    fn number(&self) -> u64 {
        self.lamport
    }

    fn is_same(&self, other: &Part) -> bool {
        self.lamport == other.lamport
            && same_entry(&self.entry, &other.entry)
            && same_given(&self.given, &other.given)
    }
}

impl Part {
    /// A part of an act that was answered so, under this number.
    pub(crate) fn new(
        lamport: u64,
        act: Act,
        answer: &Answer,
        given: Given,
    ) -> Result<Part, AllocError>
        ensures { IfOk result (λ p. p ≡ record {
          lamport = lamport;
          entry = record { act = act; answer = answer.now; inner = false };
          given = given;
        }) }
    {
        let answer = answer.copy()?;
        Ok(Part {
            lamport,
            entry: Entry {
                act,
                answer,
                inner: false,
            },
            given,
        })
    }

    /// The part as this node's.
    pub(crate) fn joint(&self, at: NodeName) -> Result<Joint, AllocError>
        ensures { IfOk result (λ j. j ≡ joint_at at self.now) }
    {
        let entry = self.entry.copy()?;
        let given = copy_given(&self.given)?;
        Ok(Joint { at, entry, given })
    }
}
