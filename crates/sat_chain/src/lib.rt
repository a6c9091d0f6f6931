//! Serializers as chains of replicas over a world: a label enters at the head of a chain, passes from replica to
//! replica, and takes effect at the tail (van Renesse and Schneider, OSDI 2004).
#![tactic(auto)]

mod by_node;
mod chain;
mod chains;
mod places;
mod replica;
mod row;
mod tail;

pub use chains::Chains;
pub use sat_chain_laws::{ChainAct, ChainAnswer, ChainRefusal};
