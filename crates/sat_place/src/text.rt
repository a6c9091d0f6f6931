//! The text of a placement, and the line of a fault.
ghost use Rattle.std.specs.Prelude.{◌≡◌, ◌++◌, length, OnOk, OnErr};
ghost use Rattle.sat_place.specs.Texts.{placed_text, shape_fault_text};

use crate::Placed;
use sat_delay::{DelayFault, write_fault};
use sat_plan::{mismatch_line, place_lines, tree_line};
use sat_tree::Tree;
use std::alloc::AllocError;

/// Appends the text of a placement: the tree's line as a plan of a script, a line `place zK P` for each serializer, and
/// the line
/// `mismatch M`. It asks for one place for each serializer. For want of memory `out` is as before.
#[tactic(auto, unfolding(crate::specs::Texts::placed_text))]
pub fn write_placed(tree: &Tree, placed: &Placed, out: &mut Vec<u8>) -> Result<(), AllocError>
    requires { length placed.now.places ≡ length tree.now.parents }
    ensures ok { OnOk result (out.new.items ≡ out.old.items
        ++ placed_text tree.now placed.now.places placed.now.mismatch) }
    ensures err { OnErr result (out.new.items ≡ out.old.items) }
{
    let alloc = *out.allocator();
    let mut text = tree_line(alloc, tree)?;
    let places = place_lines(alloc, tree, placed.places.as_slice())?;
    text.extend_from_slice(&places)?;
    let mismatch = mismatch_line(alloc, placed.mismatch)?;
    text.extend_from_slice(mismatch.as_bytes())?;
    out.extend_from_slice(&text)?;
    Ok(())
}

/// Appends the line of a fault of a table with a tree, `place: CAUSE`, as [`write_fault`] does.
#[tactic(auto, unfolding(crate::specs::Texts::shape_fault_text))]
pub fn write_shape_fault(fault: &DelayFault, out: &mut Vec<u8>) -> Result<(), AllocError>
    ensures ok { OnOk result (out.new.items ≡ out.old.items ++ shape_fault_text fault.now) }
    ensures err { OnErr result (out.new.items ≡ out.old.items) }
{
    write_fault("place", fault, out)
}
