//! What is said to a person at a terminal, on standard error: of words that are no command, of a line at fault, of acts
//! that were refused, of a history that is not as it should be, of how far a command has come. Nothing depends on these
//! texts: no status and no byte of standard output, and no call above trusts them. So the functions here owe that they
//! are safe and end, and no more.
#![tactic(auto)]

mod act;
mod forms;
mod header;
mod header_line;
mod history;
mod kept;
mod line;
mod near;
mod progress;
mod ranges;
mod reason;
mod script;
mod stopped;
mod table;
mod tree;
mod words;
mod wrote;

pub use history::about_history;
pub use kept::{KeepingReader, Kept};
pub use progress::{TellingReader, work_of};
pub use script::{about_input, about_refusals};
pub use stopped::{Followed, FollowingWriter, about_stopped};
pub use words::{about_words, awaits, is_audit, is_live, is_run, is_version};
pub use wrote::{KeepingWriter, Wrote};
