//! The search for the least placement.
ghost use Rattle.std.specs.Prelude.{◌≡◌, ℕ, ◌<◌, ◌++◌, ◌∷◌, [], length, slice_index, IfOk};
ghost use Rattle.sat_place.specs.Search.{best_from, lower_of, tried};
ghost use Rattle.sat_place.specs.Ways.{known, AreWays};

use crate::Placed;
use crate::known::{added, known};
use crate::ways::Way;
use sat_delay::Delays;
use sat_label::Counts;
use std::alloc::{AllocError, Global};

// A list with one place more.
fn with_place(front: &Counts, place: u16) -> Result<Counts, AllocError>
    ensures { IfOk result (λ list. list ≡ front.now ++ place ∷ []) }
{
    let mut list = front.copy()?;
    list.push(u64::from(place))?;
    Ok(list)
}

// The best of what was found and of all lists that begin with these places and go on with so many more. What the known
// places cost already is a lower bound of all of these.
fn search(
    d: &Delays,
    ways: &[Way],
    front: &Counts,
    left: u16,
    cost: u64,
    found: Placed,
) -> Result<Placed, AllocError>
    requires ways { AreWays d.now ways.now }
    requires within { (z : ℕ) → z < length front.now → slice_index front.now z < d.now.places }
    requires cost { cost ≡ known d.now ways.now front.now }
    ensures { IfOk result (λ best. best
        ≡ lower_of found (best_from (known d.now ways.now) d.now.places left front.now)) }
{
    if cost >= found.mismatch {
        return Ok(found);
    }
    if left == 0 {
        let places = front.copy()?;
        return Ok(Placed {
            places,
            mismatch: cost,
        });
    }
    let mut best = found;
    for place in 0..d.places() {
        let next = with_place(front, place)?;
        let sum = cost + added(d, ways, next.as_slice());
        best = search(d, ways, &next, left - 1, sum, best)?;
    }
    Ok(best)
}

/// A placement that any other one is lower than.
pub fn worst(alloc: Global) -> Placed
    ensures { result ≡ record { places = []; mismatch = 18446744073709551615 } }
{
    Placed {
        places: Counts::new(alloc),
        mismatch: u64::MAX,
    }
}

/// The best of all lists that begin with these places and go on with so many more.
pub fn best_from(
    alloc: Global,
    d: &Delays,
    ways: &[Way],
    front: &Counts,
    left: u16,
) -> Result<Placed, AllocError>
    requires ways { AreWays d.now ways.now }
    requires within { (z : ℕ) → z < length front.now → slice_index front.now z < d.now.places }
    ensures { IfOk result (λ best. best ≡ best_from (known d.now ways.now) d.now.places left front.now) }
{
    let cost = known(d, ways, front.as_slice());
    let best = search(d, ways, front, left, cost, worst(alloc))?;
    Ok(best)
}
