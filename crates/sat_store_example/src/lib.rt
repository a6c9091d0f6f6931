//! A store that embeds the machines: what a builder writes around a site, a serializer and a client, and what each call
//! asks for.
//! `docs/EMBEDDING.md` of the repository says which call answers which need.
#![tactic(auto)]

mod duty;
mod fault;
mod lasting;
mod links;
mod offer;
mod relay;
mod replica;

pub use duty::{Duty, Sending};
pub use fault::{RelayFault, ReplicaFault};
pub use lasting::{may_hand, payload_of};
pub use offer::Offer;
pub use relay::Relay;
pub use replica::Replica;
