//! Paths between sites.
ghost use Rattle.std.specs.Prelude.{◌≡◌, ◌≢◌, ◌<◌, ◌++◌, length, reverse, IfOk, OnOk};
ghost use Rattle.sat_label.specs.declared.node.NodeId.TheVariants.{Site};
ghost use Rattle.sat_tree.specs.Laws.{Path};

use crate::layout::Layout;
use sat_label::{NodeId, Nodes};
use std::alloc::{AllocError, Global};

// Adds the members of a list, the last one first.
#[tactic(auto, using(crate::proofs::Ways::reverse_push))]
fn add_reversed(nodes: &mut Nodes, mut back: Vec<NodeId>) -> Result<(), AllocError>
    ensures { OnOk result (nodes.new ≡ nodes.old ++ reverse back.items) }
{
    while let Some(node) = back.pop() {
        nodes.push(node)?;
    }
    Ok(())
}

/// The nodes of the path from one site to another, both included.
pub fn path(alloc: Global, layout: &Layout, from: u16, to: u16) -> Result<Nodes, AllocError>
    requires from { from < length layout.now.seats }
    requires to { to < length layout.now.seats }
    requires apart { from ≢ to }
    ensures { IfOk result (λ nodes. Path layout.now (Site from) (Site to) nodes) }
{
    let mut way = Nodes::new(alloc);
    let mut back = Vec::new(alloc);
    way.push(NodeId::Site(from))?;
    back.push(NodeId::Site(to))?;
    let (mut here, mut there) = (layout.seat(from), layout.seat(to));
    while here != there {
        if there < here {
            way.push(NodeId::Serializer(here))?;
            here = layout.above(here);
        } else {
            back.push(NodeId::Serializer(there))?;
            there = layout.above(there);
        }
    }
    way.push(NodeId::Serializer(here))?;
    add_reversed(&mut way, back)?;
    Ok(way)
}
