//! What pairs of sites add to the mismatch once the places on their ways are known.
ghost use Rattle.std.specs.Prelude.{◌≡◌, ℕ, ◌<◌, ◌≤◌, ◌*◌, length, slice_index, All};
ghost use Rattle.sat_delay.specs.Table.{IsWithinLimits};
ghost use Rattle.sat_plan.specs.declared.limits.TheConstants.{MOST_EDGES, MOST_PAIRS};
ghost use Rattle.sat_place.specs.Ways.{hop_span, hops_span, way_latency, way_cost, known_cost, known, added_cost};
ghost use Rattle.sat_place.specs.Ways.{added, IsHopWithin, IsWay, AreWays};

use crate::ways::{Hop, Way};
use sat_delay::Delays;

// Milliseconds over a hop.
fn hop_span(d: &Delays, places: &[u64], hop: Hop) -> u64
    requires limits { IsWithinLimits d.now }
    requires within { (z : ℕ) → z < length places.now → slice_index places.now z < d.now.places }
    requires from { hop.from < length places.now }
    requires to { hop.to < length places.now }
    ensures span { result ≡ hop_span d.now places.now hop }
    ensures short { result ≤ 100000 }
{
    d.between(
        places[hop.from as usize] as u16,
        places[hop.to as usize] as u16,
    )
}

// Milliseconds over hops.
#[tactic(auto, unfolding(crate::specs::Ways::hops_span))]
fn hops_span(d: &Delays, places: &[u64], hops: &[Hop], last: u16) -> u64
    requires limits { IsWithinLimits d.now }
    requires within { (z : ℕ) → z < length places.now → slice_index places.now z < d.now.places }
    requires hops { All (IsHopWithin last) hops.now }
    requires known { last < length places.now }
    requires few { length hops.now ≤ MOST_EDGES }
    ensures span { result ≡ hops_span d.now places.now hops.now }
    ensures short { result ≤ MOST_EDGES * 100000 }
{
    let mut total = 0;
    for hop in hops {
        total += hop_span(d, places, *hop);
    }
    total
}

// Milliseconds that metadata takes on a way.
#[tactic(auto, unfolding(crate::specs::Ways::way_latency))]
fn way_latency(d: &Delays, places: &[u64], way: &Way) -> u64
    requires limits { IsWithinLimits d.now }
    requires within { (z : ℕ) → z < length places.now → slice_index places.now z < d.now.places }
    requires way { IsWay d.now way.now }
    requires known { way.now.last < length places.now }
    ensures latency { result ≡ way_latency d.now places.now way.now }
    ensures short { result ≤ 50000000 }
{
    let near = d.reach(way.from, places[way.near as usize] as u16);
    let far = d.reach(way.to, places[way.far as usize] as u16);
    near + hops_span(d, places, way.hops.as_slice(), way.last) + far
}

// What a pair adds to the mismatch.
#[tactic(auto, unfolding(crate::specs::Ways::way_cost))]
fn way_cost(d: &Delays, places: &[u64], way: &Way) -> u64
    requires limits { IsWithinLimits d.now }
    requires within { (z : ℕ) → z < length places.now → slice_index places.now z < d.now.places }
    requires way { IsWay d.now way.now }
    requires known { way.now.last < length places.now }
    ensures cost { result ≡ way_cost d.now places.now way.now }
    ensures few { result ≤ 100000000000000 }
{
    way.weight * way_latency(d, places, way).abs_diff(way.optimal)
}

// What a pair adds, where its places are known.
#[tactic(auto, unfolding(crate::specs::Ways::known_cost))]
fn known_cost(d: &Delays, places: &[u64], way: &Way) -> u64
    requires limits { IsWithinLimits d.now }
    requires within { (z : ℕ) → z < length places.now → slice_index places.now z < d.now.places }
    requires way { IsWay d.now way.now }
    ensures cost { result ≡ known_cost d.now places.now way.now }
    ensures few { result ≤ 100000000000000 }
{
    if (way.last as usize) < places.len() {
        way_cost(d, places, way)
    } else {
        0
    }
}

// What a pair adds, where the last of the places was the last one wanting.
#[tactic(auto, unfolding(crate::specs::Ways::added_cost))]
fn added_cost(d: &Delays, places: &[u64], way: &Way) -> u64
    requires limits { IsWithinLimits d.now }
    requires within { (z : ℕ) → z < length places.now → slice_index places.now z < d.now.places }
    requires way { IsWay d.now way.now }
    ensures cost { result ≡ added_cost d.now places.now way.now }
    ensures few { result ≤ 100000000000000 }
{
    if way.last as usize + 1 == places.len() {
        way_cost(d, places, way)
    } else {
        0
    }
}

/// What all pairs add of which the places are known.
#[tactic(auto, unfolding(crate::specs::Ways::known))]
pub fn known(d: &Delays, ways: &[Way], places: &[u64]) -> u64
    requires ways { AreWays d.now ways.now }
    requires within { (z : ℕ) → z < length places.now → slice_index places.now z < d.now.places }
    ensures known { result ≡ known d.now ways.now places.now }
    ensures few { result ≤ MOST_PAIRS * 100000000000000 }
{
    let mut total = 0;
    for way in ways {
        total += known_cost(d, places, way);
    }
    total
}

/// What the last of these places adds.
#[tactic(auto, unfolding(crate::specs::Ways::added))]
pub fn added(d: &Delays, ways: &[Way], places: &[u64]) -> u64
    requires ways { AreWays d.now ways.now }
    requires within { (z : ℕ) → z < length places.now → slice_index places.now z < d.now.places }
    ensures added { result ≡ added d.now ways.now places.now }
    ensures few { result ≤ MOST_PAIRS * 100000000000000 }
{
    let mut total = 0;
    for way in ways {
        total += added_cost(d, places, way);
    }
    total
}
