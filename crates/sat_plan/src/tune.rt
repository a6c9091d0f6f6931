//! Delays that bring latencies nearer to the best ones.
ghost use Rattle.std.specs.Prelude.{◌≡◌, ◌<◌, ◌≤◌, ℕ, length, slice_index, OnOk, IfOk};
ghost use Rattle.sat_delay.specs.Table.{IsWithinLimits};
ghost use Rattle.sat_plan.specs.Config.{delayed, edges, Fits};
ghost use Rattle.sat_plan.specs.Drafts.{draft_config};
ghost use Rattle.sat_plan.specs.Mismatch.{mismatch, pairs};
ghost use Rattle.sat_plan.specs.Routes.{IsRoutes, AreShort};
ghost use Rattle.sat_plan.specs.Steps.{tuned, pass, settled};

use crate::draft::Draft;
use crate::pairs::{Pair, pairs};
use crate::routes::{Routes, routes_of};
use crate::terms::{best_delay, terms, terms_cost};
use sat_delay::Delays;
use std::alloc::{AllocError, Global};

// The best delay of an edge, where it lowers the mismatch, or the one that it has.
fn tuned_delay(
    alloc: Global,
    d: &Delays,
    draft: &Draft,
    routes: &Routes,
    ways: &[Pair],
    edge: usize,
) -> Result<u64, AllocError>
    requires limits { IsWithinLimits d.now }
    requires fits { Fits d.now (draft_config draft.now) }
    requires routes { IsRoutes d.now draft.now.tree draft.now.places.items routes.now }
    requires short { AreShort routes.now }
    requires pairs { ways.now ≡ pairs d.now.sites }
    requires edge { edge < length (edges draft.now.tree) }
    ensures tuned { IfOk result (λ delay. delayed (draft_config draft.now) edge delay
        ≡ tuned d.now (draft_config draft.now) edge) }
    ensures prompt { IfOk result (λ delay. delay ≤ 100000) }
{
    let delays = draft.delays.as_slice();
    let terms = terms(alloc, d, routes, delays, edge, ways)?;
    let delay = delays[edge];
    let best = best_delay(&terms);
    if best.cost < terms_cost(&terms, delay) {
        Ok(best.delay)
    } else {
        Ok(delay)
    }
}

// Sets the delay of an edge.
fn tune(
    alloc: Global,
    d: &Delays,
    draft: &mut Draft,
    routes: &Routes,
    ways: &[Pair],
    edge: usize,
) -> Result<(), AllocError>
    requires limits { IsWithinLimits d.now }
    requires fits { Fits d.now (draft_config draft.old) }
    requires routes { IsRoutes d.now draft.old.tree draft.old.places.items routes.now }
    requires short { AreShort routes.now }
    requires pairs { ways.now ≡ pairs d.now.sites }
    requires edge { edge < length (edges draft.old.tree) }
    ensures tuned { OnOk result (draft_config draft.new ≡ tuned d.now (draft_config draft.old) edge) }
    ensures fits { OnOk result (Fits d.now (draft_config draft.new)) }
    ensures tree { draft.new.tree ≡ draft.old.tree }
    ensures places { draft.new.places.items ≡ draft.old.places.items }
    ensures routes { IsRoutes d.now draft.new.tree draft.new.places.items routes.now }
{
    let delay = tuned_delay(alloc, d, draft, routes, ways, edge)?;
    draft.delays[edge] = delay;
    Ok(())
}

// Goes once through the edges.
fn pass(
    alloc: Global,
    d: &Delays,
    draft: &mut Draft,
    routes: &Routes,
    ways: &[Pair],
) -> Result<(), AllocError>
    requires limits { IsWithinLimits d.now }
    requires fits { Fits d.now (draft_config draft.old) }
    requires routes { IsRoutes d.now draft.old.tree draft.old.places.items routes.now }
    requires short { AreShort routes.now }
    requires pairs { ways.now ≡ pairs d.now.sites }
    ensures passed { OnOk result (draft_config draft.new ≡ pass d.now (draft_config draft.old)) }
    ensures fits { OnOk result (Fits d.now (draft_config draft.new)) }
    ensures routes { OnOk result (IsRoutes d.now draft.new.tree draft.new.places.items routes.now) }
{
    for edge in 0..draft.delays.len() {
        tune(alloc, d, draft, routes, ways, edge)?;
    }
    Ok(())
}

/// Goes through the edges until no delay changes.
pub fn settle(alloc: Global, d: &Delays, mut draft: Draft) -> Result<Draft, AllocError>
    requires fits { Fits d.now (draft_config draft) }
    ensures settled { IfOk result (λ c. draft_config c
        ≡ settled d.now (mismatch d.now (draft_config draft)) (draft_config draft)) }
    ensures last { IfOk result (λ c. pass d.now (draft_config c) ≡ draft_config c) }
    ensures fits { IfOk result (λ c. Fits d.now (draft_config c)) }
    ensures limits { IsWithinLimits d.now }
{
    let pairs = pairs(alloc, d.sites())?;
    let routes = routes_of(alloc, d, &draft.tree, &draft.places)?;
    let mut cost = draft.mismatch(alloc, d)?;
    'settling: loop {
        pass(alloc, d, &mut draft, &routes, &pairs)?;
        let lower = draft.mismatch(alloc, d)?;
        if lower >= cost {
            return Ok(draft);
        }
        cost = lower;
    }
}
