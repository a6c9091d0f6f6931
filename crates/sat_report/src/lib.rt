//! The texts of answers, of what the sites hold in the end, and of a script's fault.
#![tactic(auto)]

mod answer;
mod fault;
mod front;
mod holdings;
mod items;
mod line;
mod summary;
mod text;

pub use answer::{
    append_answer, append_framed, append_with_kind, append_word, write_answer, write_line,
    write_numbered,
};
pub use fault::write_fault;
pub use front::LineFront;
pub use holdings::write_holdings;
pub use items::at_site;
pub use summary::write_summary;
