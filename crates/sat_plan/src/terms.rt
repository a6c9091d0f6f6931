//! The mismatch as a function of one edge's delay, and its least.
ghost use Rattle.std.specs.Prelude.{◌≡◌, ◌<◌, ◌≤◌, ℕ, length, map, slice_index, All, IfOk};
ghost use Rattle.sat_plan.specs.Sums.{IsLeast};
ghost use Rattle.sat_plan.specs.Drafts.{term_cost, terms_cost, turn_of, better, term_of, IsSmallTerm, IsPairBelow};
ghost use Rattle.sat_plan.specs.Routes.{AreShort};
ghost use Rattle.sat_plan.specs.declared.limits.TheConstants.{MOST_PAIRS};

use crate::measure::gap;
use crate::pairs::Pair;
use crate::routes::Routes;
use sat_delay::Delays;
use std::alloc::{AllocError, Global};

/// A pair of sites: how much it weighs, its latency without the edge's delay, the best one, and whether the edge lies
/// on its way.
#[derive(Clone, Copy)]
pub struct Term {
    pub weight: u64,
    pub rest: u64,
    pub optimal: u64,
    pub crosses: bool,
}

/// A delay and what it costs.
#[derive(Clone, Copy)]
pub struct Choice {
    pub delay: u64,
    pub cost: u64,
}

impl Term {
    // What the pair adds where the edge has a delay.
    #[tactic(auto, unfolding(crate::specs::Drafts::term_cost))]
    fn cost(&self, delay: u64) -> u64
        requires small { IsSmallTerm self.now }
        requires delay { delay ≤ 100000 }
        ensures cost { result ≡ term_cost delay self.now }
        ensures few { result ≤ 100100000000000 }
    {
        let added = if self.crosses { delay } else { 0 };
        self.weight * gap(self.rest + added, self.optimal)
    }

    // The delay at which the pair's latency is the best one.
    fn turn(&self) -> u64
        ensures turn { result ≡ turn_of self.now }
        ensures few { result ≤ self.now.optimal }
    {
        if self.crosses {
            self.optimal.saturating_sub(self.rest)
        } else {
            0
        }
    }
}

impl Choice {
    // The better of two, and the lower among equals.
    fn or(self, other: Choice) -> Choice
        ensures { result ≡ better self other }
    {
        if other.cost < self.cost {
            return other;
        }
        if other.cost == self.cost && other.delay < self.delay {
            return other;
        }
        self
    }
}

/// The sum where the edge has a delay.
#[tactic(auto, using(crate::proofs::Short::terms_short), unfolding(crate::specs::Drafts::terms_cost))]
pub fn terms_cost(terms: &[Term], delay: u64) -> u64
    requires small { All IsSmallTerm terms.now }
    requires few { length terms.now ≤ MOST_PAIRS }
    requires delay { delay ≤ 100000 }
    ensures { result ≡ terms_cost terms.now delay }
{
    let mut total = 0;
    for term in terms {
        total += term.cost(delay);
    }
    total
}

/// The least delay among those of least cost. The cost is linear between the delays at which some pair's latency is the
/// best one, so one of these is the least, or 0.
#[tactic(auto, using(crate::proofs::Chosen::best_start, crate::proofs::Chosen::best_next, crate::proofs::Chosen::best_is_least))]
pub fn best_delay(terms: &[Term]) -> Choice
    requires small { All IsSmallTerm terms.now }
    requires few { length terms.now ≤ MOST_PAIRS }
    ensures least { IsLeast (terms_cost terms.now) result.delay }
    ensures cost { result.cost ≡ terms_cost terms.now result.delay }
    ensures bound { result.delay ≤ 100000 }
{
    let mut best = Choice {
        delay: 0,
        cost: terms_cost(terms, 0),
    };
    for term in terms {
        let delay = term.turn();
        let cost = terms_cost(terms, delay);
        best = best.or(Choice { delay, cost });
    }
    best
}

// The term of a pair.
#[tactic(auto, unfolding(crate::specs::Drafts::term_of, crate::specs::Drafts::crosses))]
fn term_of(d: &Delays, routes: &Routes, delays: &[u64], edge: usize, pair: Pair) -> Term
    requires short { AreShort routes.now }
    requires delays { length delays.now ≡ length routes.now.legs.items }
    requires prompt { (e : ℕ) → slice_index delays.now e ≤ 100000 }
    requires seated { length routes.now.access.items ≡ d.now.sites }
    requires pair { IsPairBelow d.now.sites pair }
    requires edge { edge < length delays.now }
    ensures term { result ≡ term_of d.now routes.now delays.now edge pair }
    ensures small { IsSmallTerm result }
{
    let crosses = routes.legs[edge].is_on_way(pair.from, pair.to);
    let latency = routes.latency(delays, pair.from, pair.to);
    let own = if crosses { delays[edge] } else { 0 };
    Term {
        weight: d.weight(pair.from, pair.to),
        rest: latency.saturating_sub(own),
        optimal: d.optimal(pair.from, pair.to),
        crosses,
    }
}

/// The terms of pairs of sites.
pub fn terms(
    alloc: Global,
    d: &Delays,
    routes: &Routes,
    delays: &[u64],
    edge: usize,
    pairs: &[Pair],
) -> Result<Vec<Term>, AllocError>
    requires short { AreShort routes.now }
    requires delays { length delays.now ≡ length routes.now.legs.items }
    requires prompt { (e : ℕ) → slice_index delays.now e ≤ 100000 }
    requires seated { length routes.now.access.items ≡ d.now.sites }
    requires pairs { All (IsPairBelow d.now.sites) pairs.now }
    requires edge { edge < length delays.now }
    ensures terms { IfOk result (λ terms. terms.items ≡ map (term_of d.now routes.now delays.now edge) pairs.now) }
    ensures small { IfOk result (λ terms. All IsSmallTerm terms.items) }
{
    let mut terms = Vec::new(alloc);
    for pair in pairs {
        terms.push(term_of(d, routes, delays, edge, *pair))?;
    }
    Ok(terms)
}
