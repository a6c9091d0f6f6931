//! A script that comes in pieces: it is read, run and answered piece by piece.
#![tactic(auto)]

mod law;
mod run;
mod stream;

pub use law::good_scripts;
pub use stream::{Stop, read_script, run_script};
