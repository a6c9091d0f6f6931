//! A tree of serializers from a table of delays: where each serializer stands and how long each edge waits, so that
//! each site hears of the others as near to the best time as one step at a time brings it (after the mismatch of
//! Saturn; Bravo, Rodrigues and Van Roy, EuroSys 2017).
#![tactic(auto)]

mod best;
mod building;
mod draft;
pub mod edges;
mod grow;
pub mod limits;
mod measure;
pub mod pairs;
mod routes;
mod terms;
mod text;
mod tune;

ghost use Rattle.sat_plan.specs.Laws.{LeastIsLeast, OnWayIsOnPath, GrowsToTheEnd, BestDelayIsBest, SettlesToTheEnd};

pub use building::{Built, build};
pub use measure::mismatch;
pub use text::{mismatch_line, place_lines, tree_line, write_built};

/// What the words of the definitions mean: an edge lies on the way between two sites just where it is a step of their
/// path, the least below a number is the least, a tree is grown to the end, an edge's best delay is the best of all
/// whole numbers, and the passes over the edges go on to the end.
#[tactic(auto, using(crate::proofs::OnWay::on_way_is_on_path, crate::proofs::SumLemmas::least_is_least, crate::proofs::Growth::grows_to_the_end, crate::proofs::Tuned::best_delay_is_best, crate::proofs::Passes::settles_to_the_end))]
pub fn plan_laws()
    ensures on_way { OnWayIsOnPath }
    ensures least { LeastIsLeast }
    ensures grown { GrowsToTheEnd }
    ensures best { BestDelayIsBest }
    ensures settled { SettlesToTheEnd }
{}
