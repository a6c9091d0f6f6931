//! Sessions at hubs and gears: what a client or the operator does at a site whose hub and gears have each a lock of
//! its own.
#![tactic(auto)]

mod beside;
mod gear;
mod group;
mod hub;
mod reply;

pub use gear::{move_to, read, write};
pub use group::writes;
pub use hub::{attach, close, fall};
pub use reply::{OfGear, OfHub};
