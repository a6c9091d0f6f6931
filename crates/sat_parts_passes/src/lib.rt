//! What a hub and a gear do in one pass, each under its own lock.
#![tactic(auto)]

mod beats;
mod gathering;
mod known;
mod lanes;
mod parts;
mod sending;
mod showing;
mod taking;

pub use gathering::gather;
pub use known::sound;
pub use lanes::send_payloads;
pub use sending::send;
pub use showing::{stamp, turn};
