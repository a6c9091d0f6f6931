//! A journal of byte strings on a disk: what was appended is there after a stop, whole and in order.
#![tactic(auto)]

mod log;
mod opening;

pub use log::{Appended, Bytes, Log};
pub use opening::{begin, read, resume};
