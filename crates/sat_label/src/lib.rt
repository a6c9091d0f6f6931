//! Points, labels, nodes and sets of sites, the names and values of a script, the versions of items, and small lists of
//! these.
//!
//! A label is Saturn's metadata for one event: a source, a timestamp and a kind (Bravo, Rodrigues and Van Roy, EuroSys
//! 2017).
#![tactic(auto)]

mod carried;
mod items;
mod label;
mod limits;
mod lists;
mod node;
mod point;
mod site_set;
mod text;
mod values;
mod version;

pub use carried::Carried;
pub use items::{Items, are_items};
pub use label::{Kind, Label};
pub use limits::{
    Limits, MARK_GEAR, MOST_ACTS, MOST_CLIENTS, MOST_EPOCHS, MOST_GEARS, MOST_ITEMS,
    MOST_SERIALIZERS, MOST_SETTLES, MOST_SITES, MOST_WRITTEN, NAME_BYTES, PULSE_GEAR, TS_END,
    VALUE_BYTES, limits_of,
};
pub use lists::{Counts, Labels, List, Nodes, Points};
pub use node::{NodeId, NodeName};
pub use point::{Point, write_point};
pub use site_set::SiteSet;
pub use text::{Name, Value, spells_name, spells_value};
pub use values::Values;
pub use version::Version;
