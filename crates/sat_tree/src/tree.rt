//! Trees.
ghost use Rattle.std.specs.Prelude.{◌≡◌, ◌≢◌, ℕ, ◌<◌, ◌≤◌, ◌&&◌, nat_lt, true, length, IfOk, slice_get, Some};
ghost use Rattle.std.specs.Prelude.{MatchOption, IsOkUnless, IsErrOf};
ghost use Rattle.sat_label.specs.declared.node.NodeId.TheVariants.{Site};
ghost use Rattle.sat_label.specs.declared.limits.TheConstants.{MOST_SITES};
ghost use Rattle.sat_label.specs.Words.{bit};
ghost use Rattle.sat_tree.specs.Cut.{beyond, is_edge, neighbours, IsNode};
ghost use Rattle.sat_tree.specs.Flaw.{tree_flaw, IsSmallTree};
ghost use Rattle.sat_tree.specs.Laws.{Path};

use crate::checks::flaw_of;
use crate::layout::Layout;
use crate::neighbours::all_neighbours;
use crate::path::path;
use crate::{TreeFault, sides};
use sat_label::{NodeId, Nodes, SiteSet};
use std::alloc::{AllocError, Global};
use std::marker::Model;

/// A tree of 1 to 15 serializers, each but the root hanging on one of a smaller number, and of at most 64 sites, each
/// seated at one of them. Contracts see the list of parents, None for the root, and the list of seats.
#[derive(Drop)]
pub struct Tree {
    layout: Layout,
    // The neighbours of each serializer.
    adjacent: Vec<Nodes>,
}

impl Model for Tree {
    ghost use Rattle.std.specs.Prelude.{◌≡◌, length, map};
    ghost use Rattle.sat_label.specs.Words.{below};
    ghost use Rattle.sat_tree.specs.Shape.{TreeShape};
    ghost use Rattle.sat_tree.specs.Cut.{neighbours};
    ghost use Rattle.sat_tree.specs.Flaw.{IsSmallTree};

    ghost Value = { TreeShape };

    ghost view = { λ a. a.layout };

    ghost invariant = { λ a. (a.adjacent.items ≡ map (neighbours a.layout) (below (length a.layout.parents)))
        × IsSmallTree a.layout };
}

impl Tree {
    /// The tree with these parents, None for the root, and these seats, one serializer a site. `TooMany` and `NotATree`
    /// say what is wrong with them, and `Memory` that there was no room for a tree that is right.
    pub fn new(alloc: Global, parents: &[Option<u16>], seats: &[u16]) -> Result<Tree, TreeFault>
        requires { length seats.now ≤ MOST_SITES }
        ensures tree { IfOk result (λ t. t ≡ record { parents = parents.now; seats = seats.now }) }
        ensures fault { MatchOption (tree_flaw (record { parents = parents.now; seats = seats.now }))
            (IsOkUnless result TreeFault.Memory)
            (λ fault. IsErrOf result fault) }
    {
        match flaw_of(parents, seats) {
            Some(fault) => Err(fault),
            None => {
                let layout = Layout::new(alloc, parents, seats)?;
                Ok(Tree::of(layout)?)
            }
        }
    }

    // The tree of a layout.
    fn of(layout: Layout) -> Result<Tree, AllocError>
        ensures { IfOk result (λ t. t ≡ layout) }
    {
        let adjacent = all_neighbours(layout.allocator(), &layout)?;
        Ok(Tree { layout, adjacent })
    }

    /// The same tree again.
    pub fn copy(&self) -> Result<Self, AllocError>
        ensures copy { IfOk result (λ t. t ≡ self.now) }
        ensures limits { IsSmallTree self.now }
    {
        let layout = self.layout.copy()?;
        let tree = Tree::of(layout)?;
        Ok(tree)
    }

    /// The serializer that a site is seated at.
    pub fn seat(&self, site: u16) -> u16
        requires { site < length self.now.seats }
        ensures seat { Some result ≡ slice_get self.now.seats site }
        ensures limits { IsSmallTree self.now }
    {
        self.layout.seat(site)
    }

    /// The number of sites, at most 64.
    pub fn sites(&self) -> u16
        ensures sites { result ≡ length self.now.seats }
        ensures limits { IsSmallTree self.now }
    {
        self.layout.sites()
    }

    /// The number of serializers, 1 to 15.
    pub fn serializers(&self) -> u16
        ensures serializers { result ≡ length self.now.parents }
        ensures limits { IsSmallTree self.now }
    {
        self.layout.serializers()
    }

    /// The serializer that one hangs on, None for the root.
    pub fn parent(&self, z: u16) -> Option<u16>
        requires { z < length self.now.parents }
        ensures parent { Some result ≡ slice_get self.now.parents z }
        ensures limits { IsSmallTree self.now }
    {
        self.layout.parent(z)
    }

    /// The neighbours of a serializer, sites ascending and then serializers ascending.
    pub fn neighbours(&self, z: u16) -> &[NodeId]
        requires { z < length self.now.parents }
        ensures neighbours { result.now ≡ neighbours self.now z }
        ensures limits { IsSmallTree self.now }
    {
        self.adjacent[z as usize].as_slice()
    }

    /// Whether two nodes are neighbours.
    pub fn is_edge(&self, u: NodeId, v: NodeId) -> bool
        requires u { IsNode self.now u }
        requires v { IsNode self.now v }
        ensures edge { result ≡ is_edge self.now u v }
        ensures limits { IsSmallTree self.now }
    {
        self.layout.is_edge(u, v)
    }

    /// The sites on v's side when the edge between u and v is cut.
    pub fn beyond(&self, u: NodeId, v: NodeId) -> SiteSet
        requires u { IsNode self.now u }
        requires v { IsNode self.now v }
        requires edge { is_edge self.now u v ≡ true }
        ensures beyond { (k : ℕ) → bit result.bits k
            ≡ (nat_lt k (length self.now.seats) && beyond self.now u v (Site k)) }
        ensures limits { IsSmallTree self.now }
    {
        sides::beyond(&self.layout, u, v)
    }

    /// The nodes of the path from one site to another, in order, both included.
    pub fn path(&self, from: u16, to: u16) -> Result<Nodes, AllocError>
        requires from { from < length self.now.seats }
        requires to { to < length self.now.seats }
        requires apart { from ≢ to }
        ensures path { IfOk result (λ nodes. Path self.now (Site from) (Site to) nodes) }
        ensures limits { IsSmallTree self.now }
    {
        let nodes = path(self.layout.allocator(), &self.layout, from, to)?;
        Ok(nodes)
    }
}
