//! What is kept of each pair of sites, so that placing one more serializer decides what it adds.
ghost use Rattle.std.specs.Prelude.{◌≡◌, ◌<◌, ◌++◌, [], length, map, max, IfOk, OnOk};
ghost use Rattle.sat_label.specs.declared.node.NodeId.TheVariants.{Serializer};
ghost use Rattle.sat_tree.specs.Flaw.{IsSmallTree};
ghost use Rattle.sat_delay.specs.Table.{IsWithinLimits};
ghost use Rattle.sat_plan.specs.Config.{edges};
ghost use Rattle.sat_plan.specs.Drafts.{IsEdgeOf, IsPairBelow};
ghost use Rattle.sat_plan.specs.Mismatch.{on_way, pairs};
ghost use Rattle.sat_place.specs.Ways.{hop_over, hops_below, hops_of, highest, way_of, AreWays};

use sat_delay::Delays;
use sat_label::{List, NodeId};
use sat_plan::edges::{Edge, edges};
use sat_plan::pairs::{Pair, pairs};
use sat_tree::Tree;
use std::alloc::{AllocError, Global};

/// A step of a way from one serializer to another.
#[derive(Clone, Copy)]
pub struct Hop {
    pub from: u16,
    pub to: u16,
}

/// Steps of a way.
pub type Hops = List<Hop>;

/// A pair of sites: the serializers that they are seated at, the hops between these, the highest number of these
/// serializers, how much the pair weighs, and its best latency.
#[derive(Drop)]
pub struct Way {
    pub from: u16,
    pub to: u16,
    pub near: u16,
    pub far: u16,
    pub hops: Hops,
    pub last: u16,
    pub weight: u64,
    pub optimal: u64,
}

// Whether an edge lies on the way from one site to another.
#[tactic(auto, using(crate::proofs::Waymarks::far_is), unfolding(sat_plan::specs::Mismatch::on_way))]
fn is_on_way(tree: &Tree, edge: Edge, from: u16, to: u16) -> bool
    requires edge { IsEdgeOf tree.now edge }
    requires from { from < length tree.now.seats }
    requires to { to < length tree.now.seats }
    ensures { result ≡ on_way tree.now edge from to }
{
    let far = tree.beyond(NodeId::Serializer(edge.from), edge.to);
    far.has(to) && !far.has(from)
}

// Adds the hop over an edge, if it lies on the way.
#[tactic(auto, unfolding(crate::specs::Ways::hop_over))]
fn add_hop(hops: &mut Hops, tree: &Tree, edge: Edge, from: u16, to: u16) -> Result<(), AllocError>
    requires edge { IsEdgeOf tree.now edge }
    requires from { from < length tree.now.seats }
    requires to { to < length tree.now.seats }
    ensures { OnOk result (hops.new ≡ hops.old ++ hop_over tree.now edge from to) }
{
    if !is_on_way(tree, edge, from, to) {
        return Ok(());
    }
    match edge.to {
        NodeId::Site(_) => Ok(()),
        NodeId::Serializer(next) => {
            hops.push(Hop {
                from: edge.from,
                to: next,
            })?;
            Ok(())
        }
    }
}

// The hops on the way from one site to another.
#[tactic(auto, using(crate::proofs::Waymarks::hops_start, crate::proofs::Waymarks::hops_more), unfolding(crate::specs::Ways::hops_of))]
fn hops_of(
    alloc: Global,
    tree: &Tree,
    list: &[Edge],
    from: u16,
    to: u16,
) -> Result<Hops, AllocError>
    requires edges { list.now ≡ edges tree.now }
    requires from { from < length tree.now.seats }
    requires to { to < length tree.now.seats }
    ensures { IfOk result (λ hops. hops ≡ hops_of tree.now from to) }
{
    let mut hops = Hops::new(alloc);
    for edge in list {
        add_hop(&mut hops, tree, *edge, from, to)?;
    }
    Ok(hops)
}

// The highest serializer of two and of the ends of hops.
#[tactic(auto, using(crate::proofs::Waymarks::highest_start))]
fn highest(near: u16, far: u16, hops: &[Hop]) -> u16
    ensures { result ≡ highest near far hops.now (length hops.now) }
{
    let mut last = near.max(far);
    for hop in hops {
        last = last.max(hop.from.max(hop.to));
    }
    last
}

// What is kept of a pair.
#[tactic(auto, using(sat_plan::proofs::Sound::seat_same), unfolding(crate::specs::Ways::way_of))]
fn way_of(
    alloc: Global,
    d: &Delays,
    tree: &Tree,
    list: &[Edge],
    pair: Pair,
) -> Result<Way, AllocError>
    requires edges { list.now ≡ edges tree.now }
    requires seats { length tree.now.seats ≡ d.now.sites }
    requires pair { IsPairBelow d.now.sites pair }
    ensures way { IfOk result (λ way. way ≡ way_of d.now tree.now pair) }
    ensures limits { IsWithinLimits d.now }
    ensures small { IsSmallTree tree.now }
{
    let (from, to) = (pair.from, pair.to);
    let near = tree.seat(from);
    let far = tree.seat(to);
    let (weight, optimal) = (d.weight(from, to), d.optimal(from, to));
    let hops = hops_of(alloc, tree, list, from, to)?;
    let last = highest(near, far, hops.as_slice());
    Ok(Way {
        from,
        to,
        near,
        far,
        hops,
        last,
        weight,
        optimal,
    })
}

/// What is kept of each pair of different sites.
#[tactic(auto, using(crate::proofs::Waymarks::pair_in, crate::proofs::Waymarks::first_none))]
pub fn ways_of(alloc: Global, d: &Delays, tree: &Tree) -> Result<Vec<Way>, AllocError>
    requires { length tree.now.seats ≡ d.now.sites }
    ensures ways { IfOk result (λ ways. ways.items ≡ map (way_of d.now tree.now) (pairs d.now.sites)) }
    ensures sound { IfOk result (λ ways. AreWays d.now ways.items) }
{
    let edges = edges(alloc, tree)?;
    let pairs = pairs(alloc, d.sites())?;
    let mut ways = Vec::new(alloc);
    for pair in &pairs {
        let way = way_of(alloc, d, tree, &edges, *pair)?;
        ways.push(way)?;
    }
    Ok(ways)
}
