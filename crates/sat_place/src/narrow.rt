//! The least placement, on one thread.
ghost use Rattle.std.specs.Prelude.{◌≡◌, ◌≤◌, length, IfOk};
ghost use Rattle.sat_place.specs.Placing.{IsLeast};
ghost use Rattle.sat_place.specs.Search.{least_places};

use crate::Placed;
use crate::search::best_from;
use crate::ways::ways_of;
use sat_delay::Delays;
use sat_label::Counts;
use sat_tree::Tree;
use std::alloc::{AllocError, Global};

/// The least placement of a tree at the places of a table: of all lists with one place for each serializer none has a
/// lower mismatch with all delays 0, and none that comes before it in lexicographic order an equal one. It asks for one
/// seat for each site of the table, at most 6 serializers and at most 8 places. `Err` is want of memory.
pub fn least(alloc: Global, d: &Delays, tree: &Tree) -> Result<Placed, AllocError>
    requires seats { length tree.now.seats ≡ d.now.sites }
    requires serializers { length tree.now.parents ≤ 6 }
    requires places { d.now.places ≤ 8 }
    ensures least { IfOk result (λ placed. IsLeast d.now tree.now placed.places placed.mismatch) }
    ensures found { IfOk result (λ placed. placed.places ≡ least_places d.now tree.now) }
{
    let ways = ways_of(alloc, d, tree)?;
    let none = Counts::new(alloc);
    let placed = best_from(alloc, d, &ways, &none, tree.serializers())?;
    Ok(placed)
}
