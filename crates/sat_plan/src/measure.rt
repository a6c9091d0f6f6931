//! The mismatch of a tree.
ghost use Rattle.std.specs.Prelude.{◌≡◌, ℕ, ◌<◌, ◌≤◌, length, slice_index, sum_by, IfOk};
ghost use Rattle.std.specs.Prelude.{All};
ghost use Rattle.sat_delay.specs.Table.{IsWithinLimits};
ghost use Rattle.sat_plan.specs.Sums.{gap};
ghost use Rattle.sat_plan.specs.Config.{config_of, Fits};
ghost use Rattle.sat_plan.specs.Mismatch.{mismatch};
ghost use Rattle.sat_plan.specs.Drafts.{IsPairBelow};
ghost use Rattle.sat_plan.specs.Routes.{routed_cost, AreShort};
ghost use Rattle.sat_plan.specs.declared.limits.TheConstants.{MOST_PAIRS};

use crate::pairs::{Pair, pairs};
use crate::routes::{Routes, routes_of};
use sat_delay::Delays;
use sat_tree::Tree;
use std::alloc::{AllocError, Global};

/// How far two numbers lie apart.
pub(crate) fn gap(a: u64, b: u64) -> u64
    ensures { result ≡ gap a b }
{
    a.abs_diff(b)
}

// What a pair of sites adds to the mismatch.
#[tactic(auto, unfolding(crate::specs::Routes::routed_cost))]
fn pair_cost(d: &Delays, routes: &Routes, delays: &[u64], pair: Pair) -> u64
    requires short { AreShort routes.now }
    requires delays { length delays.now ≡ length routes.now.legs.items }
    requires prompt { (e : ℕ) → slice_index delays.now e ≤ 100000 }
    requires seated { length routes.now.access.items ≡ d.now.sites }
    requires pair { IsPairBelow d.now.sites pair }
    ensures cost { result ≡ routed_cost d.now routes.now delays.now pair }
    ensures few { result ≤ 100000000000000 }
{
    let latency = routes.latency(delays, pair.from, pair.to);
    d.weight(pair.from, pair.to) * gap(latency, d.optimal(pair.from, pair.to))
}

// The sum over pairs of sites.
fn total(d: &Delays, routes: &Routes, delays: &[u64], pairs: &[Pair]) -> u64
    requires limits { IsWithinLimits d.now }
    requires short { AreShort routes.now }
    requires delays { length delays.now ≡ length routes.now.legs.items }
    requires prompt { (e : ℕ) → slice_index delays.now e ≤ 100000 }
    requires seated { length routes.now.access.items ≡ d.now.sites }
    requires pairs { All (IsPairBelow d.now.sites) pairs.now }
    requires few { length pairs.now ≤ MOST_PAIRS }
    ensures { result ≡ sum_by (routed_cost d.now routes.now delays.now) pairs.now }
{
    let mut total = 0;
    for pair in pairs {
        total += pair_cost(d, routes, delays, *pair);
    }
    total
}

/// The mismatch of a tree with a place for each serializer and milliseconds of delay for each directed edge that leaves
/// a serializer: the sum, over all ordered pairs of different sites, of the pair's weight times the milliseconds
/// between its latency and the best one. It asks for one seat for each site of the table, one place of the table for
/// each serializer, and a delay of at most 100,000 for each edge. `Err` is want of memory.
#[tactic(auto, using(crate::proofs::Legs::routes_seated, crate::proofs::Lists::pairs_are, crate::proofs::Lists::pairs_few, crate::proofs::Measured::mismatch_is))]
pub fn mismatch(
    alloc: Global,
    d: &Delays,
    tree: &Tree,
    places: &[u64],
    delays: &[u64],
) -> Result<u64, AllocError>
    requires { Fits d.now (config_of tree.now places.now delays.now) }
    ensures { IfOk result (λ cost. cost ≡ mismatch d.now (config_of tree.now places.now delays.now)) }
{
    let pairs = pairs(alloc, d.sites())?;
    let routes = routes_of(alloc, d, tree, places)?;
    Ok(total(d, &routes, delays, &pairs))
}
