//! The two sides of an edge.
ghost use Rattle.std.specs.Prelude.{◌≡◌, ℕ, ◌<◌, ◌==◌, ◌&&◌, nat_lt, length};
ghost use Rattle.sat_label.specs.declared.node.NodeId.TheVariants.{Site};
ghost use Rattle.sat_label.specs.Words.{bit, has};
ghost use Rattle.sat_tree.specs.Cut.{chain, under, beyond, IsNode};
ghost use Rattle.sat_tree.specs.Flaw.{IsSmallTree};

use crate::layout::Layout;
use sat_label::{NodeId, SiteSet};

// Whether a serializer is another, or stands above it.
fn is_above(layout: &Layout, z: u16, from: u16) -> bool
    requires from { from < length layout.now.parents }
    requires limits { IsSmallTree layout.now }
    ensures { result ≡ has ◌==◌ (chain (length layout.now.parents) layout.now.parents from) z }
{
    let mut at = from;
    while z < at {
        match layout.parent(at) {
            None => return false,
            Some(parent) => at = parent,
        }
    }
    at == z
}

// Whether a site is the node, or is seated at it or below it.
#[tactic(auto, unfolding(crate::specs::Cut::under, crate::specs::Cut::above, crate::specs::Cut::seat_of))]
fn is_under(layout: &Layout, node: NodeId, site: u16) -> bool
    requires { site < length layout.now.seats }
    ensures { result ≡ under layout.now node (Site site) }
{
    match node {
        NodeId::Site(other) => other == site,
        NodeId::Serializer(z) => is_above(layout, z, layout.seat(site)),
    }
}

// Whether a site is on v's side when the edge between u and v is cut.
#[tactic(auto, unfolding(crate::specs::Cut::beyond))]
fn is_beyond(layout: &Layout, u: NodeId, v: NodeId, site: u16) -> bool
    requires v { IsNode layout.now v }
    requires site { site < length layout.now.seats }
    ensures { result ≡ beyond layout.now u v (Site site) }
{
    if layout.hangs_on(v, u) {
        is_under(layout, v, site)
    } else {
        !is_under(layout, u, site)
    }
}

/// The sites on v's side when the edge between u and v is cut.
pub fn beyond(layout: &Layout, u: NodeId, v: NodeId) -> SiteSet
    requires { IsNode layout.now v }
    ensures { (k : ℕ) → bit result.bits k ≡ (nat_lt k (length layout.now.seats) && beyond layout.now u v (Site k)) }
{
    let mut sites = SiteSet::none();
    for site in 0..layout.sites() {
        if is_beyond(layout, u, v, site) {
            sites = sites.with(site);
        }
    }
    sites
}
