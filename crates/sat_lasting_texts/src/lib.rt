//! The texts of answers to acts for sites that last.
#![tactic(auto)]

mod lines;

pub use lines::write_lasting_line;
