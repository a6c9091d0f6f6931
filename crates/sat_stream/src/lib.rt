//! Scripts in pieces: a reader that takes a text as it comes, and says what the whole text is.
#![tactic(auto)]

mod limits;
mod lines;
mod script;
mod stream;

pub use limits::{BYTES_END, LINE_BYTES, LONG_LINE_BYTES, MOST_BYTES, MOST_LINES, MOST_LONG_LINES};
pub use script::{Script, one_beginning, one_spelling, read_script, sound_readings};
pub use stream::{Reading, ScriptReader};
