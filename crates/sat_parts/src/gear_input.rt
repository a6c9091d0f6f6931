//! What a gear is handed.
use sat_bulk::{Drained, Payload};
use sat_label::{Carried, Items, Values};

/// The act of another node in which a gear shows a payload: a turn or a stamp of its hub, or a write of several items
/// at another gear.
#[derive(Clone, Copy, Debug, PartialEq, Eq)]
pub enum ShownBy {
    Turn,
    Stamp,
    Write,
}

/// One act of a gear, or its part of an act of another node.
#[derive(Drop)]
pub enum GearInput {
    /// It promises a timestamp.
    Tick {
        ts: u64,
    },
    /// A client seated at the site writes items, each with its value, in one update. The least item is the gear's.
    Write {
        carried: Carried,
        items: Items,
        values: Values,
    },
    /// A client seated at the site reads an item of the gear.
    Read {
        carried: Carried,
        item: u16,
    },
    /// A client seated at the site moves to another one, by gear 0.
    Move {
        carried: Carried,
        to: u16,
    },
    /// Its part of a gather: what it gives, and what the hub answers.
    Drain {
        drained: Drained,
        labels: u64,
        stable: u64,
    },
    /// Its part of an act of another node that shows a payload.
    Show {
        by: ShownBy,
        payload: Payload,
    },
}
