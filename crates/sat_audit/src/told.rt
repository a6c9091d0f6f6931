//! What an answer tells.
ghost use Rattle.std.specs.Prelude.{◌≡◌};
ghost use Rattle.sat_audit.specs.Told.{made_in};

use sat_label::Point;

/// What the text of an answer tells.
#[derive(Clone, Copy, Debug, PartialEq, Eq)]
pub enum Told {
    /// Of a write, of one item or of several: the point of its label.
    Wrote(Point),
    /// Of a read: its item has no version.
    ReadNone,
    /// Of a read: the point of its item's version.
    ReadSome(Point),
    /// Of a move: the point of its label.
    Moved(Point),
    /// Of a turn or a stamp: the point of the update that the site shows.
    Shown(Point),
    /// Any other text, which is not read.
    Other,
}

impl Told {
    /// The point of the label that was made.
    pub fn made(&self) -> Option<Point>
        ensures { result ≡ made_in self.now }
    {
        match self {
            Told::Wrote(point) => Some(*point),
            Told::Moved(point) => Some(*point),
            _ => None,
        }
    }
}
