//! A script done by nodes on threads: the script of what came of it and its report, or what is missing.
#![tactic(auto)]

mod groups;
mod launch;
mod lines;
mod names;
mod nodes;
mod notes;
mod telling;

pub use launch::{live, live_over};
pub use telling::Told;
