//! Nodes under their locks.
ghost use Rattle.std.specs.Prelude.{◌≡◌, ◌≤◌, [], length, map, vec_capacity, vec_len, IfOk};
ghost use Rattle.sat_opened.specs.Opened.{name_in};

use sat_label::NodeName;
use sat_machines::Laid;
use sat_node::{Held, Locked, Machine, Names};
use sat_parts::HubNode;
use sat_parts_pump::Watched;
use std::alloc::{AllocError, Global};
use std::marker::Model;
use std::sync::Mutex;

/// The names of nodes, in their order.
pub fn names_of<M: Machine, N: Names>(
    alloc: Global,
    nodes: &[Held<M, N>],
) -> Result<Vec<NodeName>, AllocError>
    ensures { IfOk result (λ names. names.items ≡ map name_in nodes.now) }
{
    let mut names = Vec::new(alloc);
    for held in nodes {
        names.push(held.node().name())?;
    }
    Ok(names)
}

/// What lies under locks, each under its own. Contracts see how many there are.
#[derive(Drop)]
pub struct Locks<T> {
    locks: Vec<Mutex<T>>,
}

impl<T> Model for Locks<T> {
    ghost use Rattle.std.specs.Prelude.{ℕ, vec_len};

    ghost Value = { ℕ };

    ghost view = { λ l. vec_len l.locks };
}

// Puts each node under a lock, in their order.
fn cover_all<M: Machine + Drop, N: Names>(
    alloc: Global,
    nodes: Vec<Held<M, N>>,
) -> Result<Vec<Locked<M, N>>, AllocError>
    ensures { IfOk result (λ locks. vec_len locks ≡ vec_len nodes) }
{
    let mut locks = Vec::new(alloc);
    for held in nodes {
        locks.push(Mutex::new(held))?;
    }
    Ok(locks)
}

// The same of hubs, of which nothing was looked at.
fn cover_watched<N: Laid + Names>(
    alloc: Global,
    nodes: Vec<Held<HubNode<N>, N>>,
) -> Result<Vec<Mutex<Watched<N>>>, AllocError>
    ensures { IfOk result (λ locks. vec_len locks ≡ vec_len nodes) }
{
    let mut locks = Vec::new(alloc);
    for held in nodes {
        locks.push(Mutex::new(Watched::new(held)))?;
    }
    Ok(locks)
}

// Takes all locks apart. There is room for the nodes.
fn open_all<M: Machine + Drop, N: Names>(
    locks: Vec<Locked<M, N>>,
    room: Vec<Held<M, N>>,
) -> Vec<Held<M, N>>
    requires { (room.items ≡ []) × (vec_len locks ≤ vec_capacity room) }
    ensures { length result.items ≡ vec_len locks }
{
    let mut nodes = room;
    for lock in locks {
        nodes.push_reserved(lock.into_inner());
    }
    nodes
}

// The same of hubs. What was looked at is forgotten.
fn open_watched<N: Laid + Names>(
    locks: Vec<Mutex<Watched<N>>>,
    room: Vec<Held<HubNode<N>, N>>,
) -> Vec<Held<HubNode<N>, N>>
    requires { (room.items ≡ []) × (vec_len locks ≤ vec_capacity room) }
    ensures { length result.items ≡ vec_len locks }
{
    let mut nodes = room;
    for lock in locks {
        nodes.push_reserved(lock.into_inner().into_held());
    }
    nodes
}

/// Puts each hub under a lock, in their order. Nothing of it was looked at.
pub fn cover_hubs<N: Laid + Names>(
    alloc: Global,
    nodes: Vec<Held<HubNode<N>, N>>,
) -> Result<Locks<Watched<N>>, AllocError>
    ensures { IfOk result (λ locks. locks ≡ length nodes.items) }
{
    let locks = cover_watched(alloc, nodes)?;
    Ok(Locks { locks })
}

/// Puts each node of one sort under a lock, in their order.
pub fn cover_nodes<M: Machine + Drop, N: Names>(
    alloc: Global,
    nodes: Vec<Held<M, N>>,
) -> Result<Locks<Held<M, N>>, AllocError>
    ensures { IfOk result (λ locks. locks ≡ length nodes.items) }
{
    let locks = cover_all(alloc, nodes)?;
    Ok(Locks { locks })
}

/// Takes all locks of hubs apart, into this room. It takes no memory.
pub fn open_hubs<N: Laid + Names>(
    locks: Locks<Watched<N>>,
    room: Vec<Held<HubNode<N>, N>>,
) -> Vec<Held<HubNode<N>, N>>
    requires { (room.items ≡ []) × (locks ≤ vec_capacity room) }
    ensures { length result.items ≡ locks }
{
    open_watched(locks.locks, room)
}

/// Takes all locks of nodes of one sort apart, into this room. It takes no memory.
pub fn open_nodes<M: Machine + Drop, N: Names>(
    locks: Locks<Held<M, N>>,
    room: Vec<Held<M, N>>,
) -> Vec<Held<M, N>>
    requires { (room.items ≡ []) × (locks ≤ vec_capacity room) }
    ensures { length result.items ≡ locks }
{
    open_all(locks.locks, room)
}

impl<T: Drop> Locks<T> {
    /// The lock of this number, which is not taken here. `None` where there is none.
    pub fn at(&self, number: usize) -> Option<&Mutex<T>> {
        self.locks.as_slice().get(number)
    }
}
