//! Scripts for sites that last, followed line by line: each act is done and answered before the next line is read.
#![tactic(auto)]

mod following;
mod lasting_lines;

pub use following::follow_lasting;
pub use lasting_lines::{LastingLines, lasting_follower};
