//! The least placement, on several threads.
ghost use Rattle.std.specs.Prelude.{◌≡◌, ◌≤◌, ◌<◌, ◌-◌, ℕ, [], ◌∷◌, length, map, IfOk};
ghost use Rattle.std.specs.List.{AllZip, range_with_len};
ghost use Rattle.sat_place.specs.Placing.{IsLeast};
ghost use Rattle.sat_place.specs.Search.{best_from, least_places};
ghost use Rattle.sat_place.specs.Ways.{known, AreWays};

use crate::Placed;
use crate::search::{best_from, worst};
use crate::ways::{Way, ways_of};
use rayon::prelude::*;
use sat_delay::Delays;
use sat_label::Counts;
use sat_tree::Tree;
use std::alloc::{AllocError, Global};
use std::thread::Threads;

// The best of all lists that begin with a place and go on with so many more.
fn block(
    alloc: Global,
    d: &Delays,
    ways: &[Way],
    place: usize,
    left: u16,
) -> Result<Placed, AllocError>
    requires ways { AreWays d.now ways.now }
    requires place { place < d.now.places }
    ensures { IfOk result (λ best. best ≡ best_from (known d.now ways.now) d.now.places left (place ∷ [])) }
{
    let mut front = Counts::new(alloc);
    front.push(place as u64)?;
    let best = best_from(alloc, d, ways, &front, left)?;
    Ok(best)
}

// For each place of the first serializer the best, in order, from as many threads as there are processors. Each place
// is worth a thread.
fn blocks<R: Threads + Sync>(
    rt: &R,
    alloc: Global,
    d: &Delays,
    ways: &[Way],
    left: u16,
) -> Result<Vec<Result<Placed, AllocError>>, AllocError>
    requires { AreWays d.now ways.now }
    ensures { IfOk result (λ found.
        AllZip (λ place best. IfOk best (λ b. b ≡ best_from (known d.now ways.now) d.now.places left (place ∷ [])))
        (range_with_len 0 d.now.places) found.items) }
{
    let places = d.places() as usize;
    (0..places)
        .into_par_iter()
        .with_min_len(1)
        .map(
            |place: usize| -> Result<Placed, AllocError>
                requires { AreWays d.now ways.now × (place < d.now.places) }
                ensures { IfOk result (λ best. best
                    ≡ best_from (known d.entry.now ways.entry.now) d.entry.now.places left (place ∷ [])) }
            { block(alloc, d, ways, place, left) },
        )
        .collect(rt, alloc)
}

/// The least placement of a tree, as [`least`](crate::least) answers it, with the places of the first serializer
/// divided among threads. It asks for the same.
pub fn least_wide<R: Threads + Sync>(
    rt: &R,
    alloc: Global,
    d: &Delays,
    tree: &Tree,
) -> Result<Placed, AllocError>
    requires seats { length tree.now.seats ≡ d.now.sites }
    requires serializers { length tree.now.parents ≤ 6 }
    requires places { d.now.places ≤ 8 }
    ensures least { IfOk result (λ placed. IsLeast d.now tree.now placed.places placed.mismatch) }
    ensures found { IfOk result (λ placed. placed.places ≡ least_places d.now tree.now) }
{
    let ways = ways_of(alloc, d, tree)?;
    let found = blocks(rt, alloc, d, &ways, tree.serializers() - 1)?;
    let mut best = worst(alloc);
    for block in &found {
        match block {
            Ok(placed) => best = best.or(placed)?,
            Err(_) => return Err(AllocError),
        }
    }
    Ok(best)
}
