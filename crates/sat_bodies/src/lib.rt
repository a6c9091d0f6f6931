//! The inputs of a site in bytes: the body of each, as a journal keeps it, read as it is written, and everything else
//! refused.
#![tactic(auto)]

mod bodies;
mod inputs;

pub use bodies::{body_of, decode, encode, input_of};
pub use inputs::{is_allowed, read, size, write};
