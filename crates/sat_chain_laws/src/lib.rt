//! Each serializer as a chain of replicas: a label enters at the head, passes from replica to replica, and takes effect
//! at the tail (van Renesse and Schneider, OSDI 2004). The acts of scripts with chains, and the laws of their
//! histories.
#![tactic(auto)]

mod chain_act;
mod chain_answer;
mod pair;

ghost use Rattle.sat_chain_laws.specs.Goals.{EveryChainIsGood};

pub use chain_act::ChainAct;
pub use chain_answer::{ChainAnswer, ChainRefusal};
pub use pair::Pair;

/// Every history with chains whose entries have the answers of their acts is good: each living replica's list begins
/// with that of each later one, a new tail can tell from the outgoing links how much took effect, and the plain answers
/// and those of done applies are those of the run of the plain acts that the chain's acts come to, for which the
/// headline holds.
pub fn chains_are_good()
    ensures { EveryChainIsGood }
{}
