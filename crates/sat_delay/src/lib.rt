//! Tables of delays between sites and places, from which a tree of serializers is built (Saturn; Bravo, Rodrigues and
//! Van Roy, EuroSys 2017), read from JSON with every fault named by its place.
#![tactic(auto)]

mod delays;
mod fault;
mod matrix;
mod number;
mod read;
mod rows;
mod text;

pub use delays::Delays;
pub use fault::{DelayFault, Place};
pub use number::{item_at, key_name, number_at};
pub use read::{MOST_BYTES, MOST_TABLE_SITES, json_of, read_delays, table_of};
pub use text::{write_delay_fault, write_fault};
