//! The best placement of a tree that is given: where each serializer stands, so that each site hears of the others as
//! near to the best time as can be without delays (after the mismatch of Saturn; Bravo, Rodrigues and Van Roy, EuroSys
//! 2017).
#![tactic(auto)]

mod known;
mod narrow;
mod placed;
mod rows;
mod search;
mod shape;
mod text;
mod ways;
mod wide;

ghost use Rattle.sat_place.specs.Laws.{LeastIsFound, LeastIsOne};

pub use narrow::least;
pub use placed::Placed;
pub use shape::{Shaped, read_shape};
pub use text::{write_placed, write_shape_fault};
pub use wide::least_wide;

/// A tree has one least placement, and it is the one that the definition finds.
#[tactic(auto, using(crate::proofs::Order::least_is_one))]
pub fn place_laws()
    ensures one { LeastIsOne }
    ensures found { LeastIsFound }
{}
