//! Scripts of a command that has acts of its own beside the plain ones: what a line and a whole text say, and what is
//! made of a text line by line, for any such acts. The definitions and their laws, by which the commands' own crates
//! go.
#![tactic(auto)]

mod line;

pub use line::OwnParsed;
