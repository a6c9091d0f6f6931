//! What lies under a hub's lock: its node, with what its passes have looked at.
ghost use Rattle.std.specs.Prelude.{◌≡◌, ◌≤◌, length};
ghost use Rattle.sat_label.specs.declared.limits.TheConstants.{TS_END};
ghost use Rattle.sat_parts_pump.specs.Times.{most_in};

use crate::keeping::look;
use crate::known::hub_runs;
use sat_label::NodeName;
use sat_machines::Laid;
use sat_node::{Held, Names};
use sat_parts::HubNode;
use std::marker::Model;

/// A hub's node with its link ends, as contracts see it. Beside it stand how many of the first entries of its journal
/// its passes have looked at, and the greatest timestamp of what came by these.
#[derive(Drop)]
pub struct Watched<N: Laid + Names> {
    pub held: Held<HubNode<N>, N>,
    upto: usize,
    ts: u64,
}

impl<N: Laid + Names> Model for Watched<N> {
    ghost use Rattle.sat_parts_passes.specs.Sendings.{HubHeld};
    ghost use Rattle.sat_parts_pump.specs.Watched.{IsWatched};

    ghost Value = { HubHeld };

    ghost view = { λ w. w.held };

    ghost invariant = { λ w. IsWatched w.held w.upto w.ts };
}

impl<N: Laid + Names> Watched<N> {
    /// A node of which nothing was looked at.
    pub fn new(held: Held<HubNode<N>, N>) -> Watched<N>
        ensures { result ≡ held }
    {
        Watched {
            held,
            upto: 0,
            ts: 0,
        }
    }

    /// The node.
    pub fn into_held(self) -> Held<HubNode<N>, N>
        ensures { result ≡ self }
    {
        let Watched {
            held,
            upto: _,
            ts: _,
        } = self;
        held
    }

    /// The node's name.
    pub fn name(&self) -> NodeName
        ensures { result ≡ self.now.node.name }
    {
        self.held.node().name()
    }

    /// How many entries its journal has.
    pub fn count(&self) -> usize
        ensures { result ≡ length self.now.node.entries }
    {
        self.held.node().journal().len()
    }

    /// The greatest timestamp of what came by all entries of its journal: of the labels, of the payloads, and of the
    /// cuts of the beats. Only the entries that were not looked at are looked at.
    #[tactic(auto, using(crate::proofs::Times::came_small))]
    pub fn came(&mut self) -> u64
        ensures same { self.new ≡ self.old }
        ensures ts { result ≡ most_in 0 self.old.node.entries }
        ensures small { result ≤ TS_END }
    {
        hub_runs(&self.held);
        let ts = look(&self.held, self.upto, self.ts);
        self.upto = self.held.node().journal().len();
        self.ts = ts;
        ts
    }
}
