//! The ways on from one serializer.
ghost use Rattle.std.specs.Prelude.{◌≡◌, ◌<◌, ◌++◌, ◌∷◌, [], ℕ, length, map, IfOk, OnOk};
ghost use Rattle.std.specs.List.{position, All};
ghost use Rattle.sat_queue.specs.Queued.{members_of};
ghost use Rattle.sat_label.specs.Order.{node_eq};
ghost use Rattle.sat_label.specs.Words.{below, bit};
ghost use Rattle.sat_tree.specs.Cut.{neighbours};
ghost use Rattle.sat_tree.specs.Flaw.{IsSmallTree};
ghost use Rattle.sat_tree.specs.Shape.{TreeShape};
ghost use Rattle.sat_sites.specs.Interested.{Interested, is_for, IsLabelOf};
ghost use Rattle.sat_label.specs.declared.label.Label as declared_label;
ghost use Rattle.sat_serial.specs.Routes.{goes, AreFarSides, IsFarSide};
ghost use Rattle.sat_serial.specs.Hits.{code, hits, nodes_at, changed_at, AllInside, Ascending, HasRoomAt, site_place};
ghost use Rattle.sat_serial.specs.Hits.{serializer_place};

use crate::hits::Hits;
use sat_label::{Label, NodeId, Nodes, SiteSet};
use sat_queue::Queue;
use sat_sites::Interest;
use sat_tree::Tree;
use std::alloc::{AllocError, Global};
use std::marker::Model;

/// A serializer's place in its tree. Contracts see the tree and the number, which is one of the tree's.
#[derive(Drop)]
pub struct Router {
    tree: Tree,
    number: u16,
    // For each neighbour the sites that lie beyond it.
    sides: Vec<SiteSet>,
    // For each site, and for each serializer, its place among the neighbours, if it is one.
    sites: Vec<Option<usize>>,
    serializers: Vec<Option<usize>>,
}

impl Model for Router {
    ghost use Rattle.std.specs.Prelude.{◌≡◌, ◌<◌, length, map};
    ghost use Rattle.sat_label.specs.Words.{below};
    ghost use Rattle.sat_tree.specs.Cut.{neighbours};
    ghost use Rattle.sat_serial.specs.Routes.{Placed, AreFarSides};
    ghost use Rattle.sat_serial.specs.Hits.{site_place, serializer_place};

    ghost Value = { Placed };

    ghost view = { λ a. record { tree = a.tree; number = a.number } };

    ghost invariant = { λ a. (a.number < length a.tree.parents)
        × AreFarSides a.tree a.number (neighbours a.tree a.number) a.sides.items
        × (a.sites.items ≡ map (site_place a.tree a.number) (below (length a.tree.seats)))
        × (a.serializers.items ≡ map (serializer_place a.tree a.number) (below (length a.tree.parents))) };
}

// For each neighbour of a serializer the sites that lie beyond it.
fn all_sides(alloc: Global, tree: &Tree, number: u16) -> Result<Vec<SiteSet>, AllocError>
    requires { number < length tree.now.parents }
    ensures { IfOk result (λ sides. AreFarSides tree.now number (neighbours tree.now number) sides.items) }
{
    let mut sides = Vec::new(alloc);
    for neighbour in tree.neighbours(number) {
        sides.push(tree.beyond(NodeId::Serializer(number), *neighbour))?;
    }
    Ok(sides)
}

// A number of its own for each node.
fn code(node: NodeId) -> u32
    ensures { result ≡ code node }
{
    match node {
        NodeId::Site(site) => 2 * site as u32,
        NodeId::Serializer(serializer) => 2 * serializer as u32 + 1,
    }
}

// Whether a label that came from a node goes on to a neighbour, by its targets and the sites beyond that. There is no
// branch here, since what it answers can't be foreseen.
fn goes(targets: &SiteSet, from: NodeId, to: NodeId, side: &SiteSet) -> bool
    ensures { (a : Interested) (t : TreeShape) (z : ℕ) (l : declared_label.Label) → a.sites ≡ length t.seats
        → IsFarSide t z to side.now →
        ((k : ℕ) → bit targets.now.bits k ≡ is_for a l k) → result ≡ goes a t z from l to }
{
    (code(from) != code(to)) & targets.meets(side)
}

// The place of a node in a list, if it is there. It is seldom asked for, so it stays a call.
#[inline(never)]
fn search(nodes: &[NodeId], node: NodeId) -> Option<usize>
    ensures { result ≡ position (node_eq node) nodes.now }
{
    nodes.iter().position(|other| node.is_same(other))
}

// The place of each site among the neighbours of a serializer, if it is one.
fn site_places(alloc: Global, tree: &Tree, number: u16) -> Result<Vec<Option<usize>>, AllocError>
    requires { number < length tree.now.parents }
    ensures { IfOk result (λ places. places.items ≡ map (site_place tree.now number) (below (length tree.now.seats))) }
{
    let mut places = Vec::new(alloc);
    for site in 0..tree.sites() {
        places.push(search(tree.neighbours(number), NodeId::Site(site)))?;
    }
    Ok(places)
}

// The place of each serializer among the neighbours of a serializer, if it is one.
fn serializer_places(
    alloc: Global,
    tree: &Tree,
    number: u16,
) -> Result<Vec<Option<usize>>, AllocError>
    requires { number < length tree.now.parents }
    ensures { IfOk result (λ places. places.items
        ≡ map (serializer_place tree.now number) (below (length tree.now.parents))) }
{
    let mut places = Vec::new(alloc);
    for serializer in 0..tree.serializers() {
        places.push(search(tree.neighbours(number), NodeId::Serializer(serializer)))?;
    }
    Ok(places)
}

impl Router {
    /// The place of a serializer.
    pub fn new(alloc: Global, tree: Tree, number: u16) -> Result<Router, AllocError>
        requires { number < length tree.parents }
        ensures { IfOk result (λ router. router ≡ record { tree = tree; number = number }) }
    {
        let sides = all_sides(alloc, &tree, number)?;
        let sites = site_places(alloc, &tree, number)?;
        let serializers = serializer_places(alloc, &tree, number)?;
        Ok(Router {
            tree,
            number,
            sides,
            sites,
            serializers,
        })
    }

    /// The neighbours, sites ascending and then serializers ascending.
    pub fn neighbours(&self) -> &[NodeId]
        ensures neighbours { result.now ≡ neighbours self.now.tree self.now.number }
        ensures limits { IsSmallTree self.now.tree }
    {
        self.tree.neighbours(self.number)
    }

    /// The place of a node among the neighbours, if it is one.
    pub fn place(&self, node: NodeId) -> Option<usize>
        ensures { result ≡ position (node_eq node) (neighbours self.now.tree self.now.number) }
    {
        match node {
            NodeId::Site(site) => self.site_place(site),
            NodeId::Serializer(serializer) => self.serializer_place(serializer),
        }
    }

    // That of a site: from the table, where it is one of the tree's.
    fn site_place(&self, site: u16) -> Option<usize>
        ensures { result ≡ site_place self.now.tree self.now.number site }
    {
        if site < self.tree.sites() {
            self.sites[site as usize]
        } else {
            search(self.neighbours(), NodeId::Site(site))
        }
    }

    // That of a serializer.
    fn serializer_place(&self, serializer: u16) -> Option<usize>
        ensures { result ≡ serializer_place self.now.tree self.now.number serializer }
    {
        if serializer < self.tree.serializers() {
            self.serializers[serializer as usize]
        } else {
            search(self.neighbours(), NodeId::Serializer(serializer))
        }
    }

    /// The places of the neighbours that a label that came from a node goes on to.
    #[inline(always)]
    pub fn hits(&self, interest: &Interest, from: NodeId, label: &Label) -> Hits
        requires sites { interest.now.sites ≡ length self.now.tree.seats }
        requires label { IsLabelOf interest.now label.now }
        ensures { result ≡ hits (goes interest.now self.now.tree self.now.number from label.now)
            (neighbours self.now.tree self.now.number) }
    {
        let targets = interest.targets(label);
        let mut hits = Hits::none();
        for (place, neighbour) in self.neighbours().iter().enumerate() {
            let hit = goes(&targets, from, *neighbour, &self.sides[place]);
            hits.add_if(hit, place);
        }
        hits
    }

    /// The neighbours at some places.
    pub fn at(&self, alloc: Global, places: &[u8]) -> Result<Nodes, AllocError>
        requires { AllInside (length (neighbours self.now.tree self.now.number)) places.now }
        ensures { IfOk result (λ nodes. nodes ≡ nodes_at (neighbours self.now.tree self.now.number) places.now) }
    {
        let neighbours = self.neighbours();
        let mut nodes = Nodes::new(alloc);
        for place in places {
            nodes.push(neighbours[*place as usize])?;
        }
        Ok(nodes)
    }

    /// Makes room for one label more in the outboxes of the neighbours at some places, and answers these neighbours.
    pub fn room_at(
        &self,
        alloc: Global,
        outboxes: &mut [Queue<Label>],
        places: &[u8],
    ) -> Result<Nodes, AllocError>
        requires each { length outboxes.old ≡ length (neighbours self.now.tree self.now.number) }
        requires inside { AllInside (length (neighbours self.now.tree self.now.number)) places.now }
        ensures nodes { IfOk result (λ nodes. nodes ≡ nodes_at (neighbours self.now.tree self.now.number) places.now) }
        ensures members { map members_of outboxes.new ≡ map members_of outboxes.old }
        ensures room { OnOk result (All (HasRoomAt outboxes.new) places.now) }
    {
        let neighbours = self.neighbours();
        let mut nodes = Nodes::new(alloc);
        for place in places {
            outboxes[*place as usize].reserve(1)?;
            nodes.push(neighbours[*place as usize])?;
        }
        Ok(nodes)
    }
}

/// Makes room for one label more in the outboxes at some places.
#[inline(always)]
pub fn make_room(outboxes: &mut [Queue<Label>], places: &[u8]) -> Result<(), AllocError>
    requires { AllInside (length outboxes.old) places.now }
    ensures members { map members_of outboxes.new ≡ map members_of outboxes.old }
    ensures room { OnOk result (All (HasRoomAt outboxes.new) places.now) }
{
    for place in places {
        outboxes[*place as usize].reserve(1)?;
    }
    Ok(())
}

/// Puts a copy of a label into the outboxes at some places, ascending. There is room.
pub fn push_at(outboxes: &mut [Queue<Label>], places: &[u8], label: &Label)
    requires inside { AllInside (length outboxes.old) places.now }
    requires apart { Ascending places.now }
    requires room { All (HasRoomAt outboxes.old) places.now }
    ensures { map members_of outboxes.new
        ≡ changed_at (λ box. box ++ label.now ∷ []) places.now (map members_of outboxes.old) }
{
    for place in places {
        outboxes[*place as usize].push(*label);
    }
}
