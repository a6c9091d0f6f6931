//! The neighbours of serializers.
ghost use Rattle.std.specs.Prelude.{◌≡◌, ◌<◌, length, map, filter, IfOk};
ghost use Rattle.sat_label.specs.declared.node.NodeId.TheVariants.{Site, Serializer};
ghost use Rattle.sat_label.specs.Words.{below};
ghost use Rattle.sat_tree.specs.Cut.{is_edge, neighbours};

use crate::layout::Layout;
use sat_label::{NodeId, Nodes};
use std::alloc::{AllocError, Global};

// The sites that are seated at a serializer.
fn seated_at(alloc: Global, layout: &Layout, z: u16) -> Result<Nodes, AllocError>
    requires { z < length layout.now.parents }
    ensures { IfOk result (λ nodes. nodes
        ≡ filter (is_edge layout.now (Serializer z)) (map Site (below (length layout.now.seats)))) }
{
    let mut nodes = Nodes::new(alloc);
    for site in 0..layout.sites() {
        let node = NodeId::Site(site);
        if layout.is_edge(NodeId::Serializer(z), node) {
            nodes.push(node)?;
        }
    }
    Ok(nodes)
}

// The neighbours of a serializer, sites ascending and then serializers ascending.
#[tactic(auto, unfolding(crate::specs::Cut::neighbours))]
fn neighbours_of(alloc: Global, layout: &Layout, z: u16) -> Result<Nodes, AllocError>
    requires { z < length layout.now.parents }
    ensures { IfOk result (λ nodes. nodes ≡ neighbours layout.now z) }
{
    let mut nodes = seated_at(alloc, layout, z)?;
    for y in 0..layout.serializers() {
        let node = NodeId::Serializer(y);
        if layout.is_edge(NodeId::Serializer(z), node) {
            nodes.push(node)?;
        }
    }
    Ok(nodes)
}

/// The neighbours of each serializer.
pub fn all_neighbours(alloc: Global, layout: &Layout) -> Result<Vec<Nodes>, AllocError>
    ensures { IfOk result (λ lists. lists.items ≡ map (neighbours layout.now) (below (length layout.now.parents))) }
{
    let mut lists = Vec::new(alloc);
    for z in 0..layout.serializers() {
        lists.push(neighbours_of(alloc, layout, z)?)?;
    }
    Ok(lists)
}
