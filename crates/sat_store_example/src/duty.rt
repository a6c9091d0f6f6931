//! What a replica is told to do, apart from what clients call for: its duties, and what it may be told to send.
ghost use Rattle.std.specs.Prelude.{◌≡◌};
ghost use Rattle.sat_store_example.specs.Duties.{duty_input, sending_input};

use sat_beat::Beat;
use sat_bulk::Payload;
use sat_site::SiteInput;

/// An act of a site that no client calls for, that sends no label and takes none. A client's act goes through the calls
/// that ask for its seat, a label leaves by `send`, and it comes by `arrive` and `show`: so none of these can be gone
/// round.
#[derive(Drop)]
pub enum Duty {
    /// A gear promises a timestamp, of at most 2^62.
    Tick {
        gear: u16,
        ts: u64,
    },
    /// The sink takes what the gears made.
    Gather,
    /// A payload came: the one with this number of those that a gear of a site made for this one.
    Bulk {
        from: u16,
        gear: u16,
        number: u64,
        payload: Payload,
    },
    /// A beat is made for another site.
    Beat {
        to: u16,
    },
    /// A beat came: the one with this number of those that a site made for this one.
    BeatIn {
        from: u16,
        number: u64,
        beat: Beat,
    },
    /// The next update in timestamp order is shown.
    Stamp,
    /// The site falls back to timestamp order.
    Fall,
    /// The site goes on to the next epoch.
    Advance,
}

impl Duty {
    // What the site is handed.
    pub(crate) fn input(self) -> SiteInput
        ensures { result ≡ duty_input self }
    {
        match self {
            Duty::Tick { gear, ts } => SiteInput::Tick { gear, ts },
            Duty::Gather => SiteInput::Gather,
            Duty::Bulk {
                from,
                gear,
                number,
                payload,
            } => SiteInput::Bulk {
                from,
                gear,
                number,
                payload,
            },
            Duty::Beat { to } => SiteInput::Beat { to },
            Duty::BeatIn { from, number, beat } => SiteInput::BeatIn { from, number, beat },
            Duty::Stamp => SiteInput::Stamp,
            Duty::Fall => SiteInput::Fall,
            Duty::Advance => SiteInput::Advance,
        }
    }
}

/// What may put a label on its way.
#[derive(Clone, Copy, Debug, PartialEq, Eq, Drop)]
pub enum Sending {
    /// The sink's next label.
    Emit,
    /// A promise that nothing below it follows.
    Pulse,
    /// The end of the labels of the emission epoch.
    Close,
}

impl Sending {
    // What the site is handed.
    pub(crate) fn input(self) -> SiteInput
        ensures { result ≡ sending_input self }
    {
        match self {
            Sending::Emit => SiteInput::Emit,
            Sending::Pulse => SiteInput::Pulse,
            Sending::Close => SiteInput::Close,
        }
    }
}
