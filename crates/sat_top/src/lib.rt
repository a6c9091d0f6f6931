//! The program: it reads a script, runs it and writes the report or a drawing, or builds a tree of serializers from a
//! table of delays.
#![tactic(auto)]

mod auditing;
mod drawing;
mod law;
mod living;
mod loading;
mod memory;
mod output;
mod placing;
mod planning;
mod stream;
mod top;
mod words;

pub use memory::still_in_memory;
pub use sat_pieces::good_scripts;
pub use top::{saturn, still};
pub use words::Command;
