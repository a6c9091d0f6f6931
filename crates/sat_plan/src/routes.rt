//! What is kept of a tree at its places, so that latencies need no walk.
ghost use Rattle.std.specs.Prelude.{◌≡◌, ℕ, ◌<◌, ◌≤◌, ◌*◌, ◌&&◌, not, length, map, slice_index, IfOk};
ghost use Rattle.sat_label.specs.Words.{bit, below};
ghost use Rattle.sat_tree.specs.Cut.{seat_of};
ghost use Rattle.sat_tree.specs.Flaw.{IsSmallTree};
ghost use Rattle.sat_delay.specs.Table.{entry, IsWithinLimits};
ghost use Rattle.sat_plan.specs.Config.{edges};
ghost use Rattle.sat_plan.specs.Mismatch.{span};
ghost use Rattle.sat_plan.specs.Sums.{sum_to};
ghost use Rattle.sat_plan.specs.Drafts.{EndsBelow, IsEdgeOf};
ghost use Rattle.sat_plan.specs.Routes.{leg_way, routed_leg, routed, site_access, IsLeg, AreLegs, IsRoutes, AreShort};
ghost use Rattle.sat_plan.specs.declared.limits.TheConstants.{MOST_EDGES};

use crate::edges::{Edge, edges};
use sat_delay::Delays;
use sat_label::{NodeId, SiteSet};
use sat_tree::Tree;
use std::alloc::{AllocError, Global};

/// A directed edge: the sites beyond it, and the milliseconds between its ends.
#[derive(Clone, Copy)]
pub struct Leg {
    pub far: SiteSet,
    pub span: u64,
}

/// A tree at its places: the milliseconds from each site to its serializer, and the directed edges.
#[derive(Drop)]
pub struct Routes {
    pub access: Vec<u64>,
    pub legs: Vec<Leg>,
}

impl Leg {
    // What the edge adds, with its delay, on the way from one site to another.
    fn way(&self, delay: u64, from: u16, to: u16) -> u64
        requires span { self.now.span ≤ 100000 }
        requires delay { delay ≤ 100000 }
        ensures way { result ≡ leg_way self.now delay from to }
        ensures short { result ≤ 200000 }
    {
        if self.far.has(to) && !self.far.has(from) {
            self.span + delay
        } else {
            0
        }
    }

    /// Whether the edge lies on the way from one site to another.
    pub fn is_on_way(&self, from: u16, to: u16) -> bool
        ensures { result ≡ (bit self.now.far.bits to && not (bit self.now.far.bits from)) }
    {
        self.far.has(to) && !self.far.has(from)
    }
}

// The milliseconds from the place of an edge's serializer to that of its other end; none to a site.
fn span(d: &Delays, places: &[u64], edge: Edge) -> u64
    requires limits { IsWithinLimits d.now }
    requires placed { (z : ℕ) → z < length places.now → slice_index places.now z < d.now.places }
    requires from { edge.from < length places.now }
    requires to { EndsBelow edge.to (length places.now) }
    ensures span { result ≡ span d.now places.now edge }
    ensures short { result ≤ 100000 }
{
    match edge.to {
        NodeId::Site(_) => 0,
        NodeId::Serializer(to) => d.between(
            places[edge.from as usize] as u16,
            places[to as usize] as u16,
        ),
    }
}

// The leg of an edge.
fn leg_of(d: &Delays, tree: &Tree, places: &[u64], edge: Edge) -> Leg
    requires limits { IsWithinLimits d.now }
    requires placed { (z : ℕ) → z < length places.now → slice_index places.now z < d.now.places }
    requires one_each { length places.now ≡ length tree.now.parents }
    requires edge { IsEdgeOf tree.now edge }
    ensures leg { IsLeg d.now tree.now places.now edge result }
    ensures short { result.span ≤ 100000 }
{
    let far = tree.beyond(NodeId::Serializer(edge.from), edge.to);
    let span = span(d, places, edge);
    Leg { far, span }
}

// The legs of a tree's edges.
#[tactic(auto, using(crate::proofs::Legs::legs_start, crate::proofs::Legs::legs_more, crate::proofs::Legs::edge_in))]
fn legs(alloc: Global, d: &Delays, tree: &Tree, places: &[u64]) -> Result<Vec<Leg>, AllocError>
    requires limits { IsWithinLimits d.now }
    requires placed { (z : ℕ) → z < length places.now → slice_index places.now z < d.now.places }
    requires one_each { length places.now ≡ length tree.now.parents }
    ensures { IfOk result (λ legs. AreLegs d.now tree.now places.now (length (edges tree.now)) legs.items) }
{
    let mut legs = Vec::new(alloc);
    let edges = edges(alloc, tree)?;
    for edge in &edges {
        legs.push(leg_of(d, tree, places, *edge))?;
    }
    Ok(legs)
}

// The place of a site's serializer.
#[tactic(auto, using(crate::proofs::Sound::seat_same, crate::proofs::Sound::seat_within))]
fn place_of(tree: &Tree, places: &[u64], site: u16) -> u16
    requires site { site < length tree.now.seats }
    requires one_each { length places.now ≡ length tree.now.parents }
    requires small { (z : ℕ) → z < length places.now → slice_index places.now z < 32 }
    ensures { result ≡ slice_index places.now (seat_of tree.now site) }
{
    places[tree.seat(site) as usize] as u16
}

// The milliseconds from each site to the place of its serializer.
#[tactic(auto, unfolding(crate::specs::Routes::site_access))]
fn access(alloc: Global, d: &Delays, tree: &Tree, places: &[u64]) -> Result<Vec<u64>, AllocError>
    requires limits { IsWithinLimits d.now }
    requires placed { (z : ℕ) → z < length places.now → slice_index places.now z < d.now.places }
    requires one_each { length places.now ≡ length tree.now.parents }
    requires seats { length tree.now.seats ≡ d.now.sites }
    ensures access { IfOk result (λ list. list.items
        ≡ map (site_access d.now tree.now places.now) (below (length tree.now.seats))) }
    ensures small { IsSmallTree tree.now }
{
    let mut list = Vec::new(alloc);
    for site in 0..tree.sites() {
        list.push(d.reach(site, place_of(tree, places, site)))?;
    }
    Ok(list)
}

/// The routes of a tree with a place for each serializer.
#[tactic(auto, using(crate::proofs::Legs::are_short))]
pub fn routes_of(
    alloc: Global,
    d: &Delays,
    tree: &Tree,
    places: &[u64],
) -> Result<Routes, AllocError>
    requires limits { IsWithinLimits d.now }
    requires placed { (z : ℕ) → z < length places.now → slice_index places.now z < d.now.places }
    requires one_each { length places.now ≡ length tree.now.parents }
    requires seats { length tree.now.seats ≡ d.now.sites }
    ensures routes { IfOk result (λ r. IsRoutes d.now tree.now places.now r) }
    ensures short { IfOk result (λ r. AreShort r) }
{
    let access = access(alloc, d, tree, places)?;
    let legs = legs(alloc, d, tree, places)?;
    Ok(Routes { access, legs })
}

impl Routes {
    // What the edges add on the way from one site to another.
    #[tactic(auto, using(crate::proofs::SumLemmas::sum_to_start, crate::proofs::SumLemmas::sum_to_more, crate::proofs::Short::legs_short, crate::proofs::Legs::routed_leg_is))]
    fn way(&self, delays: &[u64], from: u16, to: u16) -> u64
        requires short { AreShort self.now }
        requires delays { length delays.now ≡ length self.now.legs.items }
        requires prompt { (e : ℕ) → slice_index delays.now e ≤ 100000 }
        ensures way { result ≡ sum_to (routed_leg self.now.legs.items delays.now from to) (length self.now.legs.items) }
        ensures short { result ≤ MOST_EDGES * 200000 }
    {
        let mut total = 0;
        for e in 0..self.legs.len() {
            total += self.legs[e].way(delays[e], from, to);
        }
        total
    }

    /// Milliseconds that metadata takes from one site to another.
    #[tactic(auto, using(crate::proofs::Short::legs_short), unfolding(crate::specs::Routes::routed))]
    pub fn latency(&self, delays: &[u64], from: u16, to: u16) -> u64
        requires short { AreShort self.now }
        requires delays { length delays.now ≡ length self.now.legs.items }
        requires prompt { (e : ℕ) → slice_index delays.now e ≤ 100000 }
        requires from { from < length self.now.access.items }
        requires to { to < length self.now.access.items }
        ensures latency { result ≡ routed self.now delays.now from to }
        ensures short { result ≤ 100000000 }
    {
        self.access[from as usize] + self.way(delays, from, to) + self.access[to as usize]
    }
}
