//! Reading a table of delays with a tree.
ghost use Rattle.std.specs.Prelude.{◌≡◌, ◌≢◌, ◌≤◌, ◌++◌, ◌∷◌, [], length, map, IfOk, IfErr, Ok, Err, Some, None};
ghost use Rattle.serde_json.specs.View.{view};
ghost use Rattle.sat_tree.specs.Flaw.{IsSmallTree};
ghost use Rattle.sat_place.specs.Shape.{tree_with, shape_of, shape_reading};

use crate::rows::{Numbers, parents_of, seats_of};
use sat_delay::{DelayFault, Delays, MOST_BYTES, Place, json_of, key_name, table_of};
use sat_tree::{Tree, TreeFault};
use serde_json::Value;
use std::alloc::{AllocError, Global};

// The most places.
const MOST_PLACES: u16 = 8;

/// A table of delays and a tree of at most 6 serializers with one seat for each site of the table.
#[derive(Drop)]
pub struct Shaped {
    pub delays: Delays,
    pub tree: Tree,
}

// None for the first serializer, and the parents of the others.
fn parents_list(alloc: Global, parents: &[u16]) -> Result<Vec<Option<u16>>, AllocError>
    ensures { IfOk result (λ list. list.items ≡ None ∷ map Some parents.now) }
{
    let mut list = Vec::new(alloc);
    list.push(None)?;
    for parent in parents {
        list.push(Some(*parent))?;
    }
    Ok(list)
}

// The tree of parents and seats that are right.
#[tactic(auto, using(sat_tree::proofs::Small::no_flaw))]
fn tree_of(alloc: Global, parents: &[u16], seats: &[u16]) -> Result<Tree, AllocError>
    requires { IsSmallTree (tree_with parents.now seats.now) }
    ensures { IfOk result (λ t. t ≡ tree_with parents.now seats.now) }
{
    let list = parents_list(alloc, parents)?;
    match Tree::new(alloc, &list, seats) {
        Ok(tree) => Ok(tree),
        Err(TreeFault::Memory) => Err(AllocError),
        Err(_) => unreachable!(),
    }
}

// The tree that a value says beside its table.
#[tactic(auto, unfolding(crate::specs::Shape::shape_of))]
fn tree_in(alloc: Global, d: &Delays, input: &Value) -> Result<Tree, DelayFault>
    ensures ok { IfOk result (λ tree. shape_of d.now (view input.now) ≡ Ok (record { table = d.now; tree = tree })) }
    ensures err { IfErr result (λ fault. fault ≢ DelayFault.Memory → shape_of d.now (view input.now) ≡ Err fault) }
{
    if d.places() > MOST_PLACES {
        return Err(DelayFault::TooBig(Place {
            key: 1,
            row: 0,
            column: 0,
        }));
    }
    let parents = parents_of(alloc, input.get(key_name(6)))?;
    let others = parents.as_slice().len() as u16;
    let seats = seats_of(alloc, input.get(key_name(7)), others, d.sites())?;
    let tree = tree_of(alloc, parents.as_slice(), seats.as_slice())?;
    Ok(tree)
}

/// Reads a table of delays with a tree from JSON: an object as [`read_delays`](sat_delay::read_delays) reads it, with
/// at most 8 places, and with `parents`, a list of at most 5 numbers, of which the r-th, from 0, is the parent of
/// serializer r + 1 and at most r, and `seats`, the serializer of each site. `Err` is the first fault of the table,
/// then of the number of places, then of
/// `parents`, then of `seats`, by rows, or `Memory`.
#[tactic(auto, unfolding(crate::specs::Shape::shape_reading, sat_delay::specs::Reading::reading))]
pub fn read_shape(alloc: Global, bytes: &[u8]) -> Result<Shaped, DelayFault>
    ensures ok { IfOk result (λ s. shape_reading bytes.now ≡ Ok (record { table = s.delays; tree = s.tree })) }
    ensures err { IfErr result (λ fault. fault ≢ DelayFault.Memory → shape_reading bytes.now ≡ Err fault) }

    // It is what `least` and `least_wide` ask for.
    ensures seats { IfOk result (λ s. length s.tree.seats ≡ s.delays.sites) }
    ensures serializers { IfOk result (λ s. length s.tree.parents ≤ 6) }
    ensures places { IfOk result (λ s. s.delays.places ≤ 8) }
{
    if bytes.len() > MOST_BYTES {
        return Err(DelayFault::TooLong);
    }
    let value = json_of(alloc, bytes)?;
    let delays = table_of(alloc, &value)?;
    let tree = tree_in(alloc, &delays, &value)?;
    Ok(Shaped { delays, tree })
}
