//! The bytes of values, on a wire or in a journal: numbers, the highest byte first, options, lists, points, labels and
//! values, each read as it is written, and everything else refused.
#![tactic(auto)]

mod beats;
mod fault;
mod labels;
mod lists;
mod numbers;
mod options;
mod payloads;
mod points;
mod values;
mod whole;
mod wire;

pub use fault::{Cause, DecodeFault, ReadFault, Stop, Wrong};
pub use whole::{decode, encode};
pub use wire::Wire;
