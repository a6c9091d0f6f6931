//! Given histories: acts with what they were told, read from a text.
#![tactic(auto)]

mod answers;
mod heard;
mod history;
mod judging;
mod lines;
mod made;
mod told;
mod words;

pub use heard::{Heard, HeardList, History};
pub use history::read_history;
pub use judging::{audit, is_yes, write_verdict};
pub use told::Told;
