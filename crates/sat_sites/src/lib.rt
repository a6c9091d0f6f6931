//! Which sites keep which items, and which sites a label is for.
#![tactic(auto)]

mod interest;
mod shape;

pub use interest::{Interest, InterestFault};
pub use shape::Shape;
