//! What a hub is handed.
use crate::drains::Drains;
use sat_beat::Beat;
use sat_bulk::Payload;
use sat_label::{Carried, Label};

/// One act at the hub of a site, with what the hub is handed, as in `SiteInput`. To a gather this is what each gear of
/// the site gives.
#[derive(Drop)]
pub enum HubInput {
    Attach {
        carried: Carried,
    },
    Gather {
        drained: Drains,
    },
    Emit,
    Pulse,
    Turn {
        front: Option<Label>,
    },
    Bulk {
        from: u16,
        gear: u16,
        number: u64,
        payload: Payload,
    },
    Beat {
        to: u16,
    },
    BeatIn {
        from: u16,
        number: u64,
        beat: Beat,
    },
    Stamp,
    Close,
    Fall,
    Advance,
}
