//! Trees of serializers with the sites at their leaves, as Saturn uses them to spread labels (Bravo, Rodrigues and Van
//! Roy, EuroSys 2017).
#![tactic(auto)]

mod checks;
mod fault;
mod layout;
mod neighbours;
mod path;
mod sides;
mod tree;

ghost use Rattle.sat_tree.specs.Laws.{EveryTreeIsWellCut};

pub use fault::TreeFault;
pub use tree::Tree;

/// Every tree can be cut at its edges, and has one path from each node to each site.
pub fn tree_laws()
    ensures { EveryTreeIsWellCut }
{}
