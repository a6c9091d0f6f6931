//! The places of lanes in the list of all wires.
ghost use Rattle.std.specs.Prelude.{◌≡◌, ◌+◌, ◌<◌, ◌^◌, length, map, position, IfOk};
ghost use Rattle.sat_parts.specs.Layout.{lane_eq};
ghost use Rattle.sat_parts_wires.specs.Lanes.{place_behind};

use crate::lane::Lane;
use std::alloc::{AllocError, Global};

// The first place of a lane.
fn find(all: &[Lane], lane: &Lane) -> Option<usize>
    ensures { result ≡ position (λ other. lane_eq lane.now other) all.now }
{
    all.iter().position(|other| lane.is_same(other))
}

// The place of a lane among these, which stand behind so many wires.
#[tactic(auto, using(crate::proofs::Found::place_found, crate::proofs::Found::place_missed, crate::proofs::Found::place_small))]
fn place(first: usize, all: &[Lane], lane: &Lane) -> usize
    requires { first + length all.now < 2 ^ 64 }
    ensures { result ≡ place_behind first all.now lane.now }
{
    match find(all, lane) {
        Some(place) => first + place,
        None => first,
    }
}

/// The places of some lanes. All lanes stand behind so many wires, in their order.
pub fn places(
    alloc: Global,
    first: usize,
    all: &[Lane],
    own: &[Lane],
) -> Result<Vec<usize>, AllocError>
    requires { first + length all.now < 2 ^ 64 }
    ensures { IfOk result (λ places. places.items ≡ map (place_behind first all.now) own.now) }
{
    let mut places = Vec::new(alloc);
    for lane in own {
        places.push(place(first, all, lane))?;
    }
    Ok(places)
}
