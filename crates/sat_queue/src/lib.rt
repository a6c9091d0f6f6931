//! Queues that take their room beforehand: what is put in later takes no memory.
#![tactic(auto)]

mod queue;

pub use queue::{Queue, empty_queues};
