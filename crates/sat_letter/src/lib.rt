//! Messages between hosts in bytes, each read as it is written, and everything else refused.
#![tactic(auto)]

mod bodies;
mod letters;
mod wholes;

pub use letters::{is_allowed, read, size, write};
pub use wholes::{decode, encode};
