//! A text that is answered as it comes: what answers it, and the one loop that reads from a source and writes to a
//! sink.
#![tactic(auto)]

mod follower;
mod lines;
mod pieces;
mod writing;

pub use follower::{BYTES_END, Follower};
pub use lines::{LineFollower, Lines};
pub use pieces::{BUFFER_BYTES, Halt, follow};
pub use writing::write_text;
