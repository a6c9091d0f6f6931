//! What a process hands its node, put on a disk, and letters that it hands a transport.
#![tactic(auto)]

mod handed;
mod keeping;
mod posting;
mod transport;

pub use handed::{Handed, body_of, input_of, is_allowed};
pub use keeping::keep;
pub use posting::{Spoken, post};
pub use transport::{NoLetter, Transport};
