//! A tree's parents and seats.
ghost use Rattle.std.specs.Prelude.{◌≡◌, ◌<◌, length, IfOk, slice_get, Some};
ghost use Rattle.sat_tree.specs.Cut.{parent_of, seat_of, over, hangs_on, is_edge, IsNode};
ghost use Rattle.sat_tree.specs.Flaw.{IsSmallTree};

use sat_label::NodeId;
use std::alloc::{AllocError, Global};
use std::marker::Model;

/// The parents of a tree's serializers, None for the root, and the seats of its sites.
#[derive(Drop)]
pub struct Layout {
    parents: Vec<Option<u16>>,
    seats: Vec<u16>,
}

impl Model for Layout {
    ghost use Rattle.sat_tree.specs.Shape.{TreeShape};
    ghost use Rattle.sat_tree.specs.Flaw.{IsSmallTree};

    ghost Value = { TreeShape };

    ghost view = { λ a. record { parents = a.parents.items; seats = a.seats.items } };

    ghost invariant = { λ a. IsSmallTree (record { parents = a.parents.items; seats = a.seats.items }) };
}

impl Layout {
    /// The layout with parents and seats that have no flaw.
    pub fn new(alloc: Global, parents: &[Option<u16>], seats: &[u16]) -> Result<Layout, AllocError>
        requires { IsSmallTree (record { parents = parents.now; seats = seats.now }) }
        ensures { IfOk result (λ t. t ≡ record { parents = parents.now; seats = seats.now }) }
    {
        let parents = parents.to_vec(alloc)?;
        let seats = seats.to_vec(alloc)?;
        Ok(Layout { parents, seats })
    }

    /// The same layout again.
    pub fn copy(&self) -> Result<Layout, AllocError>
        ensures copy { IfOk result (λ t. t ≡ self.now) }
        ensures limits { IsSmallTree self.now }
    {
        let parents = self.parents.clone()?;
        let seats = self.seats.clone()?;
        Ok(Layout { parents, seats })
    }

    /// What the vectors are kept in.
    pub fn allocator(&self) -> Global {
        *self.seats.allocator()
    }

    /// The number of sites, at most 16.
    pub fn sites(&self) -> u16
        ensures sites { result ≡ length self.now.seats }
        ensures limits { IsSmallTree self.now }
    {
        self.seats.len() as u16
    }

    /// The number of serializers, 1 to 15.
    pub fn serializers(&self) -> u16
        ensures serializers { result ≡ length self.now.parents }
        ensures limits { IsSmallTree self.now }
    {
        self.parents.len() as u16
    }

    /// The serializer that a site is seated at.
    #[tactic(auto, unfolding(crate::specs::Cut::seat_of))]
    pub fn seat(&self, site: u16) -> u16
        requires { site < length self.now.seats }
        ensures seat { Some result ≡ slice_get self.now.seats site }
        ensures at { result ≡ seat_of self.now site }
        ensures limits { IsSmallTree self.now }
    {
        self.seats[site as usize]
    }

    /// The serializer that one hangs on, None for the root.
    #[tactic(auto, unfolding(crate::specs::Cut::parent_of))]
    pub fn parent(&self, z: u16) -> Option<u16>
        requires { z < length self.now.parents }
        ensures parent { Some result ≡ slice_get self.now.parents z }
        ensures above { result ≡ parent_of self.now.parents z }
        ensures limits { IsSmallTree self.now }
    {
        self.parents[z as usize]
    }

    /// The serializer that one hangs on which is not the root.
    pub fn above(&self, z: u16) -> u16
        requires within { z < length self.now.parents }
        requires no_root { 0 < z }
        ensures above { Some result ≡ parent_of self.now.parents z }
        ensures limits { IsSmallTree self.now }
    {
        match self.parent(z) {
            Some(parent) => parent,
            None => unreachable!(),
        }
    }

    // The serializer above a node, None above the root.
    #[tactic(auto, unfolding(crate::specs::Cut::over, crate::specs::Cut::seat_of, crate::specs::Cut::parent_of))]
    fn over(&self, node: NodeId) -> Option<u16>
        requires { IsNode self.now node }
        ensures { result ≡ over self.now node }
    {
        match node {
            NodeId::Site(site) => Some(self.seat(site)),
            NodeId::Serializer(z) => self.parent(z),
        }
    }

    /// Whether one node hangs on another.
    #[tactic(auto, unfolding(crate::specs::Cut::hangs_on))]
    pub fn hangs_on(&self, lower: NodeId, upper: NodeId) -> bool
        requires { IsNode self.now lower }
        ensures { result ≡ hangs_on self.now lower upper }
    {
        match upper {
            NodeId::Site(_) => false,
            NodeId::Serializer(z) => match self.over(lower) {
                None => false,
                Some(parent) => parent == z,
            },
        }
    }

    /// Whether two nodes are neighbours.
    #[tactic(auto, unfolding(crate::specs::Cut::is_edge))]
    pub fn is_edge(&self, u: NodeId, v: NodeId) -> bool
        requires u { IsNode self.now u }
        requires v { IsNode self.now v }
        ensures { result ≡ is_edge self.now u v }
    {
        self.hangs_on(u, v) || self.hangs_on(v, u)
    }
}
