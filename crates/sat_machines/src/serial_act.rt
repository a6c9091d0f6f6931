//! What a serializer is handed and answers as a machine of a node.
use sat_act::Answer;
use sat_label::{Label, NodeId, Nodes};

/// An input of a serializer: a label that came from a neighbour, or a kill.
#[derive(Clone, Copy, Debug, PartialEq, Eq)]
pub enum SerialAct {
    Hop { from: NodeId, label: Label },
    Kill,
}

/// The answer of a serializer, with its neighbours in the order of the ends of its node.
#[derive(Drop)]
pub struct SerialAnswer {
    pub answer: Answer,
    pub ends: Nodes,
}
