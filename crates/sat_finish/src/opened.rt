//! All nodes of a deployment out of their locks.
ghost use Rattle.std.specs.Prelude.{◌≡◌};

use sat_act::Deployment;
use sat_machines::{Laid, SerialNode};
use sat_node::{Held, Names};
use sat_parts::{GearNode, HubNode};
use std::marker::Model;

/// All nodes of a deployment out of their locks: hubs by site, gears by site and number, serializers by epoch and
/// number. Contracts see what each node kept, and how many sessions were given.
#[derive(Drop)]
pub struct Opened<N: Laid + Names> {
    pub(crate) deployment: Deployment,
    pub(crate) hubs: Vec<Held<HubNode<N>, N>>,
    pub(crate) gears: Vec<Held<GearNode<N>, N>>,
    pub(crate) serials: Vec<Held<SerialNode<N>, N>>,
    pub(crate) given: u64,
}

impl<N: Laid + Names> Model for Opened<N> {
    ghost use Rattle.std.specs.Prelude.{◌≡◌};
    ghost use Rattle.sat_finish.specs.Finishing.{OpenedSeen};

    ghost Value = { OpenedSeen };

    ghost view = { λ o. record {
      hubs = o.hubs.items;
      gears = o.gears.items;
      serials = o.serials.items;
      given = o.given;
    } };

    ghost invariant = { λ o. N.deployment ≡ o.deployment };
}

impl<N: Laid + Names> Opened<N> {
    /// These nodes of a deployment, for which so many sessions were given.
    pub fn new(
        deployment: Deployment,
        hubs: Vec<Held<HubNode<N>, N>>,
        gears: Vec<Held<GearNode<N>, N>>,
        serials: Vec<Held<SerialNode<N>, N>>,
        given: u64,
    ) -> Opened<N>
        requires { N.deployment ≡ deployment }
        ensures { result
            ≡ record { hubs = hubs.items; gears = gears.items; serials = serials.items; given = given } }
    {
        Opened {
            deployment,
            hubs,
            gears,
            serials,
            given,
        }
    }
}
