//! Labels.
ghost use Rattle.std.specs.Prelude.{◌≡◌};
ghost use Rattle.sat_label.specs.Order.{label_eq, label_lt};

use crate::{Items, Point};

/// What a label speaks of, ordered as the variants stand, then by number or list of items.
#[derive(Clone, Copy, Debug, PartialEq, Eq, PartialOrd, Ord)]
pub enum Kind {
    /// An update of the items with these numbers.
    Update(Items),
    /// A client's move to this site.
    Move(u16),
    /// A promise of the site that nothing below it follows.
    Pulse,
    /// The end of the site's labels of this epoch.
    Close(u16),
}

/// A label, ordered by point, then by kind.
#[derive(Clone, Copy, Debug, PartialEq, Eq, PartialOrd, Ord)]
pub struct Label {
    pub point: Point,
    pub kind: Kind,
}

impl Label {
    /// Whether this label comes before another.
    pub fn is_below(&self, other: &Label) -> bool
        ensures { result ≡ label_lt self.now other.now }
    {
        self < other
    }

    /// Whether the two are one label.
    pub fn is_same(&self, other: &Label) -> bool
        ensures { result ≡ label_eq self.now other.now }
    {
        self == other
    }
}
