//! A number for each node of a tree.
ghost use Rattle.std.specs.Prelude.{◌≡◌, ◌<◌, get_or, replicate};
ghost use Rattle.sat_serial.specs.Hits.{code};
ghost use Rattle.sat_chain.specs.Tallies.{raised};

use sat_label::{MOST_SITES, NodeId};
use std::marker::Model;

// Sites have the even places, and serializers, of which a tree has fewer, the odd ones.
const PLACES: usize = 2 * MOST_SITES as usize;

/// A number for each node of a tree. Contracts see them by the nodes' codes.
#[derive(Drop)]
pub struct ByNode {
    numbers: [u64; PLACES],
}

impl Model for ByNode {
    ghost use Rattle.std.specs.Prelude.{ℕ, List};

    ghost Value = { List ℕ };

    ghost view = { λ a. a.numbers };
}

// The place of a node's number.
fn place(node: NodeId) -> usize
    ensures { result ≡ code node }
{
    match node {
        NodeId::Site(site) => 2 * site as usize,
        NodeId::Serializer(serializer) => 2 * serializer as usize + 1,
    }
}

impl ByNode {
    /// 0 for each node. It takes no memory.
    pub fn zeros() -> ByNode
        ensures { result ≡ replicate PLACES 0 }
    {
        ByNode {
            numbers: [0; PLACES],
        }
    }

    /// The number of a node, 0 for one that no tree has.
    pub fn of(&self, node: NodeId) -> u64
        ensures { result ≡ get_or self.now (code node) 0 }
    {
        let place = place(node);
        if place < PLACES {
            self.numbers[place]
        } else {
            0
        }
    }

    /// Raises the number of a node by one; that of one that no tree has it does not keep.
    pub fn raise(&mut self, node: NodeId)
        requires { get_or self.old (code node) 0 < 18446744073709551615 }
        ensures { self.new ≡ raised self.old node }
    {
        let place = place(node);
        if place < PLACES {
            self.numbers[place] += 1;
        }
    }
}
