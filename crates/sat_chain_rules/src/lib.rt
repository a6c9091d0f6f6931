//! What is made of a text with chains: line by line, and as a whole.
#![tactic(auto)]

mod law;

pub use law::chain_lines_make_texts;
