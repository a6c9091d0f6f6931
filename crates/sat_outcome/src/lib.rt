//! What is printed of running nodes whose history is not whole.
#![tactic(auto)]

mod places;
mod texts;

pub use texts::{write_apart, write_differ, write_undone, write_unsettled};
