//! What hubs, gears and serializers kept of acts of sessions, compared with what the sessions noted, and all journals
//! in one.
#![tactic(auto)]

mod compare;
mod filed;
mod journals;
mod names;
mod notes;
mod same;

ghost use Rattle.sat_parts_notes.specs.Laws.{NotesAreRuns, NotesFit, NotesStand};

pub use compare::{Difference, compare_notes};
pub use journals::collect;
pub use names::{check_names, check_sessions};

/// What sessions kept fits the journals of hubs, gears and serializers that noted the same, whatever links those have;
/// so where the parts of hubs and gears agree too, opened nodes and their sessions have one journal, in which each site
/// is its hub and its gears.
pub fn parts_noting()
    ensures fit { NotesFit }
    ensures runs { NotesAreRuns }
    ensures states { NotesStand }
{}
