//! What a journal puts on a link, as messages with numbers: they may be lost, late, doubled and out of order on their
//! way.
#![tactic(auto)]

mod cursor;
mod message;

pub use cursor::Cursor;
pub use message::{Message, Slip};
