//! A drawing of the run of a script.
#![tactic(auto)]

mod columns;
mod element;
mod geometry;
mod head;
mod legend;
mod lost;
mod moved;
mod picture;
mod rests;
mod rows;
mod spell;
mod tracks;
mod trail;

pub use element::{Element, Ink, Spot, Text};
pub use moved::{Haul, Moved};
pub use picture::draw;
