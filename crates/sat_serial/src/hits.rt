//! The neighbours that a label goes on to, by their places.
ghost use Rattle.std.specs.Prelude.{◌≡◌, ◌<◌, ◌++◌, [], ◌∷◌, length, cond};

use sat_label::{MOST_SERIALIZERS, MOST_SITES};
use std::marker::Model;

// A serializer's neighbours are sites and other serializers of its tree.
const MOST_PLACES: usize = MOST_SITES as usize + MOST_SERIALIZERS as usize;

/// Places in a list of neighbours, ascending. Contracts see them as a list.
#[derive(Drop)]
pub struct Hits {
    places: [u8; MOST_PLACES],
    count: usize,
}

impl Model for Hits {
    ghost use Rattle.std.specs.Prelude.{ℕ, ◌≤◌, List, take};
    ghost use Rattle.sat_serial.specs.declared.hits.TheConstants.{MOST_PLACES};

    ghost Value = { List ℕ };

    ghost view = { λ a. take a.count a.places };

    ghost invariant = { λ a. a.count ≤ MOST_PLACES };
}

impl Hits {
    /// None. It takes no memory.
    pub fn none() -> Hits
        ensures { result ≡ [] }
    {
        Hits {
            places: [0; MOST_PLACES],
            count: 0,
        }
    }

    /// Adds a place at the end, if it is hit. There is no branch here, since what a label hits can't be foreseen.
    #[inline(always)]
    pub fn add_if(&mut self, hit: bool, place: usize)
        requires room { length self.old < MOST_PLACES }
        requires small { place < MOST_PLACES }
        ensures { self.new ≡ self.old ++ cond hit (place ∷ []) [] }
    {
        self.places[self.count] = place as u8;
        self.count += hit as usize;
    }

    /// The places.
    pub fn as_slice(&self) -> &[u8]
        ensures { result.now ≡ self.now }
    {
        &self.places[..self.count]
    }
}
