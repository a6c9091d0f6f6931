//! Serializers: each node of a tree that is no site hands a label on, towards the sites that it is for, over links that
//! are first-in-first-out (Bravo, Rodrigues and Van Roy, EuroSys 2017).
#![tactic(auto)]

mod fault;
mod hits;
mod router;
mod serializer;

ghost use Rattle.sat_serial.specs.Outboxes.{EachOutbox};

pub use fault::{HandleFault, KillFault};
pub use serializer::Serializer;

/// What a handled label and a shipped one do to the outbox of each neighbour.
pub fn outbox_laws()
    ensures { EachOutbox }
{}
