//! A hub sends and hears.
ghost use Rattle.std.specs.Prelude.{◌≡◌, ◌+◌, length, IfErr, IfOk, OnOk};
ghost use Rattle.sat_node.specs.Links.{Both};
ghost use Rattle.sat_parts.specs.Hubs.{hub_puts};
ghost use Rattle.sat_machines.specs.Sites.{number_of};
ghost use Rattle.sat_passes.specs.Faults.{Fails};
ghost use Rattle.sat_passes.specs.Sendings.{FailsAlone};
ghost use Rattle.sat_parts_hearing.specs.Hearings.{Heard, HearsAll, IsHeard, hears_at};
ghost use Rattle.sat_parts_passes.specs.Sendings.{IsIdle, Sent};
ghost use Rattle.sat_parts_passes.specs.Waiting.{SentOrFull};

use crate::watched::Watched;
use sat_machines::Laid;
use sat_node::{CallFault, Names};
use std::sync::Wait;

/// What a hub sends: it emits what is ready and then a pulse, makes a beat for each other site for which it would
/// differ from the last one made, and sends what waits for its links as far as it fits. How many entries the node kept.
/// `Worn`, with the greatest u64, only where that is the node's number; `Memory`. After an error, what was kept and
/// sent by then stays.
pub fn send<N: Laid + Names, R: Wait>(rt: &R, watched: &mut Watched<N>) -> Result<u64, CallFault>
    ensures made { Sent watched.old watched.new }
    ensures ins { watched.new.ins ≡ watched.old.ins }
    ensures count { IfOk result (λ n. length watched.new.node.entries ≡ length watched.old.node.entries + n) }
    ensures idle { OnOk result (IsIdle watched.new.node.machine) }
    ensures sent { OnOk result (Both
        (λ k p o. SentOrFull (hub_puts watched.old.node.name k) watched.new.node.entries p o) watched.old.outs
        watched.new.outs) }
    ensures fault { IfErr result (FailsAlone watched.new) }
{
    let held = &mut watched.held;
    sat_parts_passes::send(rt, held)
}

/// What a hub hears from the other sites: each payload and each beat that came over their links is taken where it fits
/// the hub, and else passed over, in the order of `receive` of `sat_parts_hearing`. How many entries the node kept.
/// `Worn`, with the greatest u64, only where that is the node's number or a received envelope's after the call;
/// `Memory`, also for a message that no node puts on its link. After an error, what was kept by then stays.
pub fn hear<N: Laid + Names, R: Wait>(rt: &R, watched: &mut Watched<N>) -> Result<u64, CallFault>
    ensures heard { Heard watched.old watched.new }
    ensures outs { watched.new.outs ≡ watched.old.outs }
    ensures count { IfOk result (λ n. length watched.new.node.entries ≡ length watched.old.node.entries + n) }
    ensures all { OnOk result (HearsAll N.deployment watched.old watched.new) }
    ensures emptied { OnOk result
        (Both (λ k j i. IsHeard (hears_at N.deployment (number_of watched.old.node.name) k) j i) watched.old.ins
        watched.new.ins) }
    ensures fault { IfErr result (Fails watched.new) }
{
    let held = &mut watched.held;
    sat_parts_hearing::receive(rt, held)
}
