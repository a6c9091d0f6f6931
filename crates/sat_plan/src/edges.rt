//! The directed edges that leave serializers.
ghost use Rattle.std.specs.Prelude.{◌≡◌, ◌<◌, ◌++◌, length, map, IfOk, OnOk};
ghost use Rattle.sat_tree.specs.Cut.{neighbours};
ghost use Rattle.sat_plan.specs.Config.{edge_of, edges};

use sat_label::NodeId;
use sat_tree::Tree;
use std::alloc::{AllocError, Global};

/// A directed edge that leaves a serializer.
#[derive(Clone, Copy)]
pub struct Edge {
    pub from: u16,
    pub to: NodeId,
}

// Adds the edges that leave a serializer, in the order of its neighbours.
fn add_edges(edges: &mut Vec<Edge>, tree: &Tree, from: u16) -> Result<(), AllocError>
    requires { from < length tree.now.parents }
    ensures { OnOk result (edges.new.items ≡ edges.old.items ++ map (edge_of from) (neighbours tree.now from)) }
{
    for to in tree.neighbours(from) {
        edges.push(Edge { from, to: *to })?;
    }
    Ok(())
}

/// The directed edges that leave serializers, by serializer, then in the order of its neighbours.
#[tactic(auto, using(crate::proofs::Lists::edges_start, crate::proofs::Lists::edges_more), unfolding(crate::specs::Config::edges))]
pub fn edges(alloc: Global, tree: &Tree) -> Result<Vec<Edge>, AllocError>
    ensures { IfOk result (λ list. list.items ≡ edges tree.now) }
{
    let mut list = Vec::new(alloc);
    for from in 0..tree.serializers() {
        add_edges(&mut list, tree, from)?;
    }
    Ok(list)
}
