//! Room to take locks apart.
ghost use Rattle.std.specs.Prelude.{◌≡◌, ◌≤◌, [], length, vec_capacity};
ghost use Rattle.sat_opened.specs.Opened.{serial_names};
ghost use Rattle.sat_parts.specs.Layout.{gear_names};

use sat_machines::{Laid, SerialNode};
use sat_node::{Held, Names};
use sat_parts::{GearNode, HubNode};
use std::alloc::{AllocError, Global};

/// Room for all hubs, gears and serializers of N's deployment, made before any is locked. It has to lie under a lock
/// itself: a node has ends of links, which threads can't share, so that a `Vec` of nodes can't be shared either, not
/// even an empty one.
#[derive(Drop)]
pub(crate) struct Room<N: Laid + Names> {
    pub(crate) hubs: Vec<Held<HubNode<N>, N>>,
    pub(crate) gears: Vec<Held<GearNode<N>, N>>,
    pub(crate) serials: Vec<Held<SerialNode<N>, N>>,
    ghost no_hubs: { hubs.items ≡ [] },
    ghost no_gears: { gears.items ≡ [] },
    ghost no_serials: { serials.items ≡ [] },
    ghost for_hubs: { N.deployment.sites ≤ vec_capacity hubs },
    ghost for_gears: { length (gear_names N.deployment) ≤ vec_capacity gears },
    ghost for_serials: { length (serial_names N.deployment) ≤ vec_capacity serials },
}

impl<N: Laid + Names> Room<N> {
    /// Room for so many nodes.
    pub(crate) fn new(
        alloc: Global,
        hubs: usize,
        gears: usize,
        serials: usize,
    ) -> Result<Room<N>, AllocError>
        requires hubs { N.deployment.sites ≤ hubs }
        requires gears { length (gear_names N.deployment) ≤ gears }
        requires serials { length (serial_names N.deployment) ≤ serials }
    {
        let hubs = Vec::with_capacity(alloc, hubs)?;
        let gears = Vec::with_capacity(alloc, gears)?;
        let serials = Vec::with_capacity(alloc, serials)?;
        Ok(Room {
            hubs,
            gears,
            serials,
        })
    }
}
