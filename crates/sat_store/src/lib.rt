//! A store keeps for each item the version with the greatest label.
#![tactic(auto)]

mod store;

pub use sat_label::Version;
pub use store::{Put, Store};
