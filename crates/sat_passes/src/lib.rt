//! What a running node does in one pass, under its own lock.
#![tactic(auto)]

mod beats;
mod flushing;
mod relaying;

pub use beats::is_one;
pub use flushing::flush_all;
pub use relaying::relay;
