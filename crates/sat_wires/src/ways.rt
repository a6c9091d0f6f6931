//! Lists of ways. Contracts see the links.
ghost use Rattle.std.specs.Prelude.{◌≡◌, ◌++◌, [], ◌∷◌, length, map, position, OnOk};
ghost use Rattle.sat_machines.specs.Layout.{link_eq};
ghost use Rattle.sat_wires.specs.Ways.{link_of};

use crate::way::Way;
use std::alloc::{AllocError, Global};
use std::marker::Model;

/// Ways in an order.
#[derive(Drop)]
pub struct Ways {
    items: Vec<Way>,
}

impl Model for Ways {
    ghost use Rattle.std.specs.Prelude.{List, map};
    ghost use Rattle.sat_machines.specs.Layout.{Link};
    ghost use Rattle.sat_wires.specs.Ways.{link_of};

    ghost Value = { List Link };

    ghost view = { λ w. map link_of w.items.items };
}

// The first place of a way.
fn find(ways: &[Way], way: &Way) -> Option<usize>
    ensures { result ≡ position (λ other. link_eq (link_of way.now) (link_of other)) ways.now }
{
    ways.iter().position(|other| way.is_same(other))
}

impl Ways {
    /// No ways. It takes no memory.
    pub fn new(alloc: Global) -> Ways
        ensures { result ≡ [] }
    {
        Ways {
            items: Vec::new(alloc),
        }
    }

    /// One way more.
    pub fn push(&mut self, way: Way) -> Result<(), AllocError>
        ensures { OnOk result (self.new ≡ self.old ++ link_of way ∷ []) }
    {
        self.items.push(way)?;
        Ok(())
    }

    /// How many there are.
    pub fn len(&self) -> usize
        ensures { result ≡ length self.now }
    {
        self.items.len()
    }

    /// The ways in order.
    pub fn as_slice(&self) -> &[Way]
        ensures { map link_of result.now ≡ self.now }
    {
        self.items.as_slice()
    }

    /// The place of a way. `None` exactly where it is not among these.
    #[tactic(auto, using(crate::proofs::Places::position_mapped))]
    pub fn place(&self, way: &Way) -> Option<usize>
        ensures { result ≡ position (link_eq (link_of way.now)) self.now }
    {
        find(self.items.as_slice(), way)
    }
}
