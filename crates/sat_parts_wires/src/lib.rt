//! The links between hubs, gears and serializers of a deployment, and all these nodes with their ends of them.
#![tactic(auto)]

mod lane;
mod layout;
mod made;
mod places;
mod wires;

pub use made::AllNodes;
pub use wires::Wires;
