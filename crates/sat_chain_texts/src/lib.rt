//! The texts of answers to acts with chains.
#![tactic(auto)]

mod lines;

pub use lines::write_chain_numbered;
