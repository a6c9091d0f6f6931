//! What is asked of parents and seats.
ghost use Rattle.std.specs.Prelude.{◌≡◌, ◌<◌, ◌≤◌, length, IfSome};
ghost use Rattle.sat_label.specs.declared.limits.TheConstants.{MOST_SERIALIZERS, MOST_SITES};
ghost use Rattle.sat_label.specs.Words.{first_failing};
ghost use Rattle.sat_tree.specs.Flaw.{parent_fits, seat_fits, tree_flaw};

use crate::TreeFault;
use sat_label::MOST_SERIALIZERS;

// Whether a serializer's parent is one that it may hang on.
#[tactic(auto, unfolding(crate::specs::Flaw::parent_fits, crate::specs::Cut::parent_of))]
fn parent_fits(parents: &[Option<u16>], z: u16) -> bool
    requires { z < length parents.now }
    ensures { result ≡ parent_fits parents.now z }
{
    match parents[z as usize] {
        None => z == 0,
        Some(parent) => parent < z,
    }
}

// Whether a site's seat is a serializer.
#[tactic(auto, unfolding(crate::specs::Flaw::seat_fits, crate::specs::Cut::seat_of))]
fn seat_fits(parents: &[Option<u16>], seats: &[u16], site: u16) -> bool
    requires { site < length seats.now }
    ensures { result ≡ seat_fits (record { parents = parents.now; seats = seats.now }) site }
{
    (seats[site as usize] as usize) < parents.len()
}

// The first serializer whose parent is wrong.
#[tactic(auto, using(sat_label::proofs::First::first_start, sat_label::proofs::First::first_more, sat_label::proofs::First::first_here))]
fn first_wrong_parent(parents: &[Option<u16>]) -> Option<u16>
    requires { length parents.now ≤ MOST_SERIALIZERS }
    ensures { result ≡ first_failing (parent_fits parents.now) (length parents.now) }
{
    for z in 0..parents.len() as u16 {
        if !parent_fits(parents, z) {
            return Some(z);
        }
    }
    None
}

// The first site whose seat is no serializer.
#[tactic(auto, using(sat_label::proofs::First::first_start, sat_label::proofs::First::first_more, sat_label::proofs::First::first_here))]
fn first_wrong_seat(parents: &[Option<u16>], seats: &[u16]) -> Option<u16>
    requires { length seats.now ≤ MOST_SITES }
    ensures first { result ≡ first_failing (seat_fits (record { parents = parents.now; seats = seats.now }))
        (length seats.now) }
    ensures within { IfSome result (λ site. site < MOST_SITES) }
{
    for site in 0..seats.len() as u16 {
        if !seat_fits(parents, seats, site) {
            return Some(site);
        }
    }
    None
}

/// The first fault of parents and seats.
#[tactic(auto, unfolding(crate::specs::Flaw::tree_flaw, crate::specs::Flaw::few_serializers))]
pub fn flaw_of(parents: &[Option<u16>], seats: &[u16]) -> Option<TreeFault>
    requires { length seats.now ≤ MOST_SITES }
    ensures { result ≡ tree_flaw (record { parents = parents.now; seats = seats.now }) }
{
    let count = parents.len();
    if count == 0 || count > MOST_SERIALIZERS as usize {
        return Some(TreeFault::TooMany(count));
    }
    if let Some(place) = first_wrong_parent(parents) {
        return Some(TreeFault::NotATree(place));
    }
    if let Some(site) = first_wrong_seat(parents, seats) {
        return Some(TreeFault::NotATree(count as u16 + site));
    }
    None
}
