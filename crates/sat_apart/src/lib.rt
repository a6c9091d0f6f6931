//! Where two lists whose numbers rise are not the same.
#![tactic(auto)]

mod walk;

pub use walk::{Apart, Numbered, first_apart};
