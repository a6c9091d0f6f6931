//! What a session keeps of its calls.
use sat_act::Entry;
use sat_label::{Carried, NodeName};

/// What a session kept of one of its calls: the number, the node that answered, or none for an act that touches no
/// node, what the client carried before it, and the act with its answer.
#[derive(Drop)]
pub struct Noted {
    pub lamport: u64,
    pub at: Option<NodeName>,
    pub carried: Carried,
    pub entry: Entry,
}
