//! Scripts with chains, followed line by line: each act is done and answered before the next line is read.
#![tactic(auto)]

mod chain_lines;
mod following;

pub use chain_lines::{ChainLines, chain_follower};
pub use following::follow_chains;
