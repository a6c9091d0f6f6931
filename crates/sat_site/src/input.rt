//! What a site is handed.
use sat_beat::Beat;
use sat_bulk::Payload;
use sat_label::{Carried, Items, Label, Values};

/// One act at a site, with what the site is handed: `carried` is what the client carries, `front` the front of the link
/// to the site, `payload` the one of that number in the lane from that site and gear, and `beat` that site's beat of
/// that number for this one.
#[derive(Drop)]
pub enum SiteInput {
    /// A gear promises a timestamp.
    Tick {
        gear: u16,
        ts: u64,
    },
    /// A client seated here writes items, each with its value, in one update.
    Write {
        carried: Carried,
        items: Items,
        values: Values,
    },
    /// A client seated here reads an item.
    Read {
        carried: Carried,
        item: u16,
    },
    /// A client seated here moves to another site.
    Move {
        carried: Carried,
        to: u16,
    },
    /// A client without a seat wants one here.
    Attach {
        carried: Carried,
    },
    /// The sink takes what the gears made.
    Gather,
    /// The sink sends its next label.
    Emit,
    /// The sink sends a pulse.
    Pulse,
    /// The front of the link is shown or taken.
    Turn {
        front: Option<Label>,
    },
    /// A payload comes.
    Bulk {
        from: u16,
        gear: u16,
        number: u64,
        payload: Payload,
    },
    /// A beat is made for another site.
    Beat {
        to: u16,
    },
    /// A beat comes.
    BeatIn {
        from: u16,
        number: u64,
        beat: Beat,
    },
    /// The next update in timestamp order is shown.
    Stamp,
    /// The emission epoch is closed.
    Close,
    /// The site falls back to timestamp order.
    Fall,
    /// The site goes on to the next epoch.
    Advance,
}
