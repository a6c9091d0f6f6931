//! The least placement of a tree from a text of delays.
ghost use Rattle.std.specs.Prelude.{◌≡◌, ◌≢◌, IfOk};
ghost use Rattle.sat_place.specs.Placing.{IsLeast};
ghost use Rattle.sat_place.specs.Search.{least_places};
ghost use Rattle.sat_place.specs.Texts.{least_text, shape_fault_text};
ghost use Rattle.sat_top.specs.Placing.{IsPlaced};

use crate::output::Output;
use sat_delay::{DelayFault, Delays};
use sat_place::{Placed, least, least_wide, read_shape, write_placed, write_shape_fault};
use sat_tree::Tree;
use std::alloc::{AllocError, Global};
use std::thread::Threads;

// The text of the least placement.
#[tactic(auto, using(crate::proofs::Placements::text_is), unfolding(sat_place::specs::Texts::least_text))]
fn least_text(
    alloc: Global,
    d: &Delays,
    tree: &Tree,
    placed: &Placed,
) -> Result<Vec<u8>, AllocError>
    requires least { IsLeast d.now tree.now placed.now.places placed.now.mismatch }
    requires found { placed.now.places ≡ least_places d.now tree.now }
    ensures { IfOk result (λ text. text.items ≡ least_text d.now tree.now) }
{
    let _ = d;
    let mut text = Vec::new(alloc);
    write_placed(tree, placed, &mut text)?;
    Ok(text)
}

// The line of a fault, with status 1. Want of memory has no line.
fn fault_output(alloc: Global, fault: &DelayFault) -> Result<Output, AllocError>
    ensures { IfOk result (λ out. (fault.now ≢ DelayFault.Memory) × (out.text.items ≡ shape_fault_text fault.now)
        × (out.status ≡ 1)) }
{
    if let DelayFault::Memory = fault {
        return Err(AllocError);
    }
    let mut text = Vec::new(alloc);
    write_shape_fault(fault, &mut text)?;
    Ok(Output { text, status: 1 })
}

/// The text of the least placement of the tree that stands in a text beside its table, with status 0, or the line of
/// the text's first fault, with status 1.
pub(crate) fn place_of(alloc: Global, bytes: &[u8]) -> Result<Output, AllocError>
    ensures { IfOk result (λ out. IsPlaced bytes.now out.text.items out.status) }
{
    match read_shape(alloc, bytes) {
        Ok(shaped) => {
            let placed = least(alloc, &shaped.delays, &shaped.tree)?;
            let text = least_text(alloc, &shaped.delays, &shaped.tree, &placed)?;
            Ok(Output { text, status: 0 })
        }
        Err(fault) => {
            let output = fault_output(alloc, &fault)?;
            Ok(output)
        }
    }
}

/// The same, made on several threads.
pub(crate) fn place_wide_of<R: Threads + Sync>(
    rt: &R,
    alloc: Global,
    bytes: &[u8],
) -> Result<Output, AllocError>
    ensures { IfOk result (λ out. IsPlaced bytes.now out.text.items out.status) }
{
    match read_shape(alloc, bytes) {
        Ok(shaped) => {
            let placed = least_wide(rt, alloc, &shaped.delays, &shaped.tree)?;
            let text = least_text(alloc, &shaped.delays, &shaped.tree, &placed)?;
            Ok(Output { text, status: 0 })
        }
        Err(fault) => {
            let output = fault_output(alloc, &fault)?;
            Ok(output)
        }
    }
}
