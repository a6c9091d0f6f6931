//! Replicas.
ghost use Rattle.std.specs.Prelude.{◌≡◌, ◌<◌, ◌++◌, [], ◌∷◌, List, Some, None, IsSome, is_some, length, slice_get};
ghost use Rattle.std.specs.Prelude.{OnOk, OnErr};
ghost use Rattle.sat_serial.specs.Hits.{code};
ghost use Rattle.sat_chain_laws.specs.declared.pair.Pair.{Pair as PairSeen};
ghost use Rattle.sat_chain_laws.specs.Rows.{labels_from};
ghost use Rattle.sat_chain.specs.declared.by_node.TheConstants.{PLACES};

use crate::by_node::ByNode;
use sat_chain_laws::Pair;
use sat_label::NodeId;
use std::alloc::{AllocError, Global};
use std::marker::Model;

/// One replica of a serializer. Contracts see its list, None once it has crashed.
#[derive(Drop)]
pub struct Replica {
    crashed: bool,
    list: Vec<Pair>,
    // For each neighbour, how many pairs of the list came from it.
    from: ByNode,
}

impl Model for Replica {
    ghost use Rattle.std.specs.Prelude.{Option, List, Some, None, if◌then◌else◌};
    ghost use Rattle.sat_chain_laws.specs.declared.pair.Pair.{Pair};
    ghost use Rattle.sat_chain.specs.Tallies.{TellsFrom};

    ghost Value = { Option (List Pair) };

    ghost view = { λ r. if r.crashed then None else Some r.list.items };

    ghost invariant = { λ r. TellsFrom r.list.items r.from };
}

impl Replica {
    /// A replica with an empty list. It takes no memory.
    pub fn new(alloc: Global) -> Replica
        ensures { result ≡ Some [] }
    {
        Replica {
            crashed: false,
            list: Vec::new(alloc),
            from: ByNode::zeros(),
        }
    }

    /// Whether it has not crashed.
    pub fn lives(&self) -> bool
        ensures { result ≡ is_some self.now }
    {
        !self.crashed
    }

    /// Adds a pair at the end. For want of memory the list is as before.
    pub fn gain(&mut self, pair: Pair) -> Result<(), AllocError>
        requires { IsSome self.old }
        ensures ok { OnOk result ((xs : List PairSeen) → self.old ≡ Some xs → self.new ≡ Some (xs ++ pair ∷ [])) }
        ensures err { OnErr result (self.new ≡ self.old) }
    {
        self.list.push(pair)?;
        self.from.raise(pair.from);
        Ok(())
    }

    /// It stops for good. It takes no memory.
    pub fn crash(&mut self)
        ensures { self.new ≡ None }
    {
        self.crashed = true;
    }

    /// Its list.
    pub fn list(&self) -> &[Pair]
        requires { IsSome self.now }
        ensures { Some result.now ≡ self.now }
    {
        self.list.as_slice()
    }

    /// How many pairs of its list came from a neighbour.
    pub fn count(&self, from: NodeId) -> u64
        requires lives { IsSome self.now }
        requires node { code from < PLACES }
        ensures { (xs : List PairSeen) → self.now ≡ Some xs → result ≡ length (labels_from from xs) }
    {
        let _ = &self.list;
        self.from.of(from)
    }
}
