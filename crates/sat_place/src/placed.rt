//! A placement and what it is worth.
ghost use Rattle.std.specs.Prelude.{◌≡◌, IfOk};
ghost use Rattle.sat_place.specs.Search.{lower_of};

use sat_label::Counts;
use std::alloc::AllocError;

/// The place of each serializer of a tree, and the mismatch of the tree with these places and all delays 0.
#[derive(Drop)]
pub struct Placed {
    pub places: Counts,
    pub mismatch: u64,
}

impl Placed {
    /// The better of this and a later one: the later one only where it is lower.
    pub(crate) fn or(self, later: &Placed) -> Result<Placed, AllocError>
        ensures { IfOk result (λ better. better ≡ lower_of self later.now) }
    {
        if later.mismatch < self.mismatch {
            let places = later.places.copy()?;
            let mismatch = later.mismatch;
            Ok(Placed { places, mismatch })
        } else {
            Ok(self)
        }
    }
}
