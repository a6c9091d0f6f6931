//! What a hub hears from the other sites in one pass, under its own lock.
#![tactic(auto)]

mod ends;
mod messages;
mod receiving;

pub use receiving::receive;
