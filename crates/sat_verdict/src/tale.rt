//! What a history tells of one act.
ghost use Rattle.std.specs.Prelude.{◌≡◌};
ghost use Rattle.sat_verdict.specs.Entries.{added_in, client_of, made_in};
ghost use Rattle.sat_verdict.specs.Passes.{site_of};

use sat_label::{Items, Point};

/// An entry of a given history: what was told of an act, and of the act what counts.
#[derive(Clone, Copy, Debug)]
pub enum Tale {
    /// A client was told that its update of these items is at this point.
    Wrote {
        client: u16,
        items: Items,
        point: Point,
    },
    /// A client was told that its move is at this point.
    Moved {
        client: u16,
        point: Point,
    },
    /// A client was told that an item has no version.
    ReadNone {
        client: u16,
        item: u16,
    },
    /// A client was told that an item's version is at this point.
    ReadSome {
        client: u16,
        item: u16,
        point: Point,
    },
    /// A site was told that it showed this point.
    Shown {
        site: u16,
        point: Point,
    },
    /// Anything else.
    Other,
}

impl Tale {
    /// The point that this entry made: of an update or a move.
    pub fn made(&self) -> Option<Point>
        ensures { result ≡ made_in self.now }
    {
        match self {
            Tale::Wrote { point, .. } => Some(*point),
            Tale::Moved { point, .. } => Some(*point),
            _ => None,
        }
    }

    /// The point that this entry's client wrote or read.
    pub fn added(&self) -> Option<Point>
        ensures { result ≡ added_in self.now }
    {
        match self {
            Tale::Wrote { point, .. } => Some(*point),
            Tale::ReadSome { point, .. } => Some(*point),
            _ => None,
        }
    }

    /// The client of an entry of a client.
    pub fn client(&self) -> Option<u16>
        ensures { result ≡ client_of self.now }
    {
        match self {
            Tale::Wrote { client, .. } => Some(*client),
            Tale::Moved { client, .. } => Some(*client),
            Tale::ReadNone { client, .. } => Some(*client),
            Tale::ReadSome { client, .. } => Some(*client),
            _ => None,
        }
    }

    /// The site at which this entry shows a point.
    pub fn site(&self) -> Option<u16>
        ensures { result ≡ site_of self.now }
    {
        match self {
            Tale::Wrote { point, .. } => Some(point.site),
            Tale::Shown { site, .. } => Some(*site),
            _ => None,
        }
    }
}
