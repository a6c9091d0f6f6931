//! The verdict on a told history: whether each site showed causes first, each update once, and each client read fresh.
//!
//! The laws are those of causal consistency as Saturn keeps it (Bravo, Rodrigues and Van Roy, EuroSys 2017), read on
//! what clients and sites were told. Of pasts nothing is kept but counts: of each client, how far its entries are known
//! (after Lamport 1978).
#![tactic(auto)]

mod counts;
mod greatest;
mod law;
mod limits;
mod links;
mod makers;
mod readers;
mod reads;
mod row;
mod scans;
mod shows;
mod tale;
mod verdict;
mod walks;

pub use law::{counts_tell_pasts, nos_are_true, verdicts_are_found, verdicts_are_unique};
pub use limits::MOST_ENTRIES;
pub use tale::Tale;
pub use verdict::{Verdict, judge};
