//! The links between the nodes of a deployment, their ends, and all serializers with theirs.
#![tactic(auto)]

mod ends;
mod layout;
mod made;
mod way;
mod ways;
mod wires;

pub use ends::Ends;
pub use layout::{all_ways, peer, serial_ways, site_ways};
pub use made::make_serials;
pub use way::Way;
pub use ways::Ways;
pub use wires::{LinkPairs, make_pairs};
