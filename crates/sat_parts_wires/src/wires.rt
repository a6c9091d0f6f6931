//! All links of a deployment of hubs, gears and serializers.
ghost use Rattle.std.specs.Prelude.{◌≡◌, ◌<◌, ◌+◌, length, map, IfOk};
ghost use Rattle.sat_machines.specs.Layout.{all_links};
ghost use Rattle.sat_parts.specs.Layout.{all_lanes, wire_count};
ghost use Rattle.sat_wires.specs.Wires.{HaveRoom, NothingReceived, NothingSent, wire_in, wire_out};

use crate::lane::Lane;
use crate::layout::all_lanes;
use sat_act::Deployment;
use sat_link::{LinkIn, LinkOut};
use sat_node::Envelope;
use sat_wires::{LinkPairs, Ways, all_ways, make_pairs};
use std::alloc::{AllocError, Global};
use std::marker::Model;
use std::snapshot::Snapshot;

/// The links of a deployment, with both their ends: two for each edge of a tree, for labels; one for each two sites in
/// an order, for beats; and one from each gear to each other site, for payloads. Contracts see the deployment, and the
/// wire of each link: first those of labels and beats, in the order of all links, and then those of lanes.
#[derive(Drop)]
pub struct Wires {
    made_for: Snapshot<Deployment>,
    ways: Ways,
    lanes: Vec<Lane>,
    ins: Vec<LinkIn<Envelope>>,
    outs: Vec<LinkOut<Envelope>>,
}

impl Model for Wires {
    ghost use Rattle.std.specs.Prelude.{map};
    ghost use Rattle.sat_wires.specs.Wires.{WiresSeen, wire_in};
    ghost use Rattle.sat_parts_wires.specs.Lanes.{IsWires};

    ghost Value = { WiresSeen };

    ghost view = { λ w. record { deployment = w.made_for.value; wires = map wire_in w.ins.items } };

    ghost invariant = { λ w. IsWires w.made_for.value w.ways w.lanes.items w.ins.items w.outs.items };
}

/// The links that hubs and serializers have, the lanes, and the ends of all of them in this order.
#[derive(Drop)]
pub struct Apart {
    pub ways: Ways,
    pub lanes: Vec<Lane>,
    pub ins: Vec<LinkIn<Envelope>>,
    pub outs: Vec<LinkOut<Envelope>>,
}

impl Wires {
    /// The links of a deployment, each of which holds at most `capacity` messages.
    #[tactic(auto, using(crate::proofs::Found::are_wires, sat_wires::proofs::Pairs::have_room))]
    pub fn new(alloc: Global, d: &Deployment, capacity: usize) -> Result<Wires, AllocError>
        requires { 0 < capacity }
        ensures deployment { IfOk result (λ wires. wires.deployment ≡ d.now) }
        ensures links { IfOk result (λ wires. length wires.wires ≡ wire_count d.now) }
        ensures capacity { IfOk result (λ wires. HaveRoom capacity wires.wires) }
    {
        let ways = all_ways(alloc, d)?;
        let lanes = all_lanes(alloc, d)?;
        // No memory holds more links than there are numbers.
        let Some(count) = ways.len().checked_add(lanes.len()) else {
            return Err(AllocError);
        };
        let LinkPairs { ins, outs } = make_pairs(alloc, capacity, count)?;
        Ok(Wires {
            made_for: Snapshot::of(d),
            ways,
            lanes,
            ins,
            outs,
        })
    }

    /// The links, and their ends.
    pub(crate) fn apart(self) -> Apart
        ensures ways { result.ways ≡ all_links self.deployment }
        ensures lanes { result.lanes.items ≡ all_lanes self.deployment }
        ensures many { length result.ins.items ≡ length result.ways + length result.lanes.items }
        ensures ins { (map wire_in result.ins.items ≡ self.wires) × NothingSent result.ins.items }
        ensures outs { (map wire_out result.outs.items ≡ self.wires) × NothingReceived result.outs.items }
    {
        let Wires {
            made_for: _,
            ways,
            lanes,
            ins,
            outs,
        } = self;
        Apart {
            ways,
            lanes,
            ins,
            outs,
        }
    }
}
