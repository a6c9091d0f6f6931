//! Which acts of a script a history of running nodes lacks.
#![tactic(auto)]

mod lacking;
mod tries;

ghost use Rattle.sat_undone.specs.Undone.{FrontsAreDone};

pub use lacking::undone;
pub use tries::{MOST_TRIES, has_to_wait};

/// Where what each session did is a front of its acts, each in its turn, and the history lacks nothing, all acts were
/// done but those of clients that stopped, each after exactly `MOST_TRIES` attaches in a row that had to wait; and the
/// operator's acts are its script's.
pub fn doing()
    ensures done { FrontsAreDone }
{}
