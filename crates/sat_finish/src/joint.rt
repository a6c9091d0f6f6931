//! What a node kept of an act of several nodes.
use sat_act::Entry;
use sat_bulk::{Drained, Payload};
use sat_label::NodeName;

/// What passed between a gear and the home of an act: what the gear gave to a gather, or the payload that it was handed
/// to show. At the home this is what the home has of the gear, nothing where it has nothing.
#[derive(Drop)]
pub enum Given {
    Nothing,
    Drained(Drained),
    Shown(Payload),
}

/// A node's part of an act of several nodes: the act with its answer, and what passed between the act's home and one of
/// its gears.
#[derive(Drop)]
pub struct Joint {
    pub at: NodeName,
    pub entry: Entry,
    pub given: Given,
}
