//! Building a tree from a table of delays.
ghost use Rattle.std.specs.Prelude.{◌≡◌, ◌≤◌, ℕ, IfOk};
ghost use Rattle.sat_plan.specs.Config.{config_of, delayed, Fits};
ghost use Rattle.sat_plan.specs.Mismatch.{mismatch};
ghost use Rattle.sat_plan.specs.Steps.{built};

use crate::grow::grown;
use crate::tune::settle;
use sat_delay::Delays;
use sat_label::Counts;
use sat_tree::Tree;
use std::alloc::{AllocError, Global};

/// A tree that was built: the place of each serializer, the milliseconds of delay of each directed edge that leaves a
/// serializer, by serializer and then in the order of its neighbours, and its mismatch.
#[derive(Drop)]
pub struct Built {
    pub tree: Tree,
    pub places: Counts,
    pub delays: Counts,
    pub mismatch: u64,
}

fn counts_of(alloc: Global, numbers: &[u64]) -> Result<Counts, AllocError>
    ensures { IfOk result (λ list. list ≡ numbers.now) }
{
    let mut list = Counts::new(alloc);
    for number in numbers {
        list.push(*number)?;
    }
    Ok(list)
}

/// Builds a tree from a table of delays: one serializer at its best place; then, as long as the mismatch falls and
/// there are at most 15, one more at the best place under the best parent, with each site at the serializer nearest to
/// it; then a delay for each edge, again and again, until none changes. Among equals the lowest number is taken. `Err`
/// is want of memory.
pub fn build(alloc: Global, d: &Delays) -> Result<Built, AllocError>
    ensures steps { IfOk result (λ b. config_of b.tree b.places b.delays ≡ built d.now) }
    ensures mismatch { IfOk result (λ b. b.mismatch ≡ mismatch d.now (built d.now)) }

    // No other delay of an edge, however great, gives a lower mismatch.
    ensures settled { IfOk result (λ b. (e delay : ℕ) → b.mismatch ≤ mismatch d.now (delayed (built d.now) e delay)) }

    // It is what `mismatch` and `write_built` ask for.
    ensures fits { IfOk result (λ b. Fits d.now (config_of b.tree b.places b.delays)) }
{
    let draft = settle(alloc, d, grown(alloc, d)?)?;
    let mismatch = draft.mismatch(alloc, d)?;
    let places = counts_of(alloc, &draft.places)?;
    let delays = counts_of(alloc, &draft.delays)?;
    Ok(Built {
        tree: draft.tree,
        places,
        delays,
        mismatch,
    })
}
