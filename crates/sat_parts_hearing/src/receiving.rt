//! What a hub's node hears from the other sites.
ghost use Rattle.std.specs.Prelude.{◌≡◌, ◌+◌, ◌*◌, ◌-◌, ◌<◌, ◌^◌, length, IfErr, IfOk, OnOk};
ghost use Rattle.sat_node.specs.Links.{Both};
ghost use Rattle.sat_machines.specs.Layout.{site_links};
ghost use Rattle.sat_machines.specs.Sites.{number_of};
ghost use Rattle.sat_passes.specs.Faults.{Fails};
ghost use Rattle.sat_parts_hearing.specs.Along.{HeardGears, HeardLink, HeardSite, IsEnd};
ghost use Rattle.sat_parts_hearing.specs.Hearings.{Heard, HearsAll, IsHeard, hears_at};

use crate::ends::{Source, first_lane, gears, lane_end, others, peer, site_of};
use crate::messages::hear_front;
use sat_machines::Laid;
use sat_node::{CallFault, Held, Names};
use sat_parts::HubNode;
use sat_parts_passes::sound;
use std::sync::Wait;

// Takes or passes over what comes over a link, until it was empty.
#[tactic(auto, using(crate::proofs::Hearing::heard_none))]
fn hear<N: Laid + Names, R: Wait>(
    rt: &R,
    held: &mut Held<HubNode<N>, N>,
    source: Source,
    link: usize,
) -> Result<(), CallFault>
    requires link { link < length held.old.ins }
    requires end { IsEnd N.deployment (number_of held.old.node.name) source link }
    ensures heard { Heard held.old held.new }
    ensures outs { held.new.outs ≡ held.old.outs }
    ensures all { OnOk result (HeardLink N.deployment source link held.old held.new) }
    ensures fault { IfErr result (Fails held.new) }
{
    'hearing: for _ in rt.forever() {
        match hear_front(rt, held, source, link) {
            Ok(true) => {}
            Ok(false) => return Ok(()),
            Err(fault) => return Err(fault),
        }
    }
    unreachable!()
}

// Takes or passes over what comes over the lanes of the gears of another site.
#[tactic(auto, using(crate::proofs::Lanes::few_others))]
fn hear_lanes<N: Laid + Names, R: Wait>(
    rt: &R,
    held: &mut Held<HubNode<N>, N>,
    first: usize,
    number: u16,
) -> Result<(), CallFault>
    requires first { first ≡ length (site_links N.deployment (number_of held.old.node.name)) }
    requires few { first + (N.deployment.sites - 1) * N.deployment.gears < 2 ^ 64 }
    requires number { number < N.deployment.sites - 1 }
    ensures heard { Heard held.old held.new }
    ensures outs { held.new.outs ≡ held.old.outs }
    ensures all { OnOk result (HeardGears N.deployment number N.deployment.gears held.old held.new) }
    ensures fault { IfErr result (Fails held.new) }
{
    sound(held);
    let from = peer(site_of(held), number);
    let gears = gears(held);
    for gear in 0..gears {
        let link = lane_end(first, number, gears, gear);
        if let Err(fault) = hear(rt, held, Source::Lane { from, gear }, link) {
            return Err(fault);
        }
    }
    Ok(())
}

// The same, and then what comes over the link of its hub's beats.
#[tactic(auto, using(crate::proofs::Lanes::few_others))]
fn hear_site<N: Laid + Names, R: Wait>(
    rt: &R,
    held: &mut Held<HubNode<N>, N>,
    first: usize,
    number: u16,
) -> Result<(), CallFault>
    requires first { first ≡ length (site_links N.deployment (number_of held.old.node.name)) }
    requires few { first + (N.deployment.sites - 1) * N.deployment.gears < 2 ^ 64 }
    requires number { number < N.deployment.sites - 1 }
    ensures heard { Heard held.old held.new }
    ensures outs { held.new.outs ≡ held.old.outs }
    ensures all { OnOk result (HeardSite N.deployment number held.old held.new) }
    ensures fault { IfErr result (Fails held.new) }
{
    sound(held);
    let from = peer(site_of(held), number);
    if let Err(fault) = hear_lanes(rt, held, first, number) {
        return Err(fault);
    }
    if let Err(fault) = hear(rt, held, Source::Beats { from }, usize::from(number)) {
        return Err(fault);
    }
    Ok(())
}

// Takes or passes over what comes from each other site.
fn hear_all<N: Laid + Names, R: Wait>(
    rt: &R,
    held: &mut Held<HubNode<N>, N>,
) -> Result<(), CallFault>
    ensures heard { Heard held.old held.new }
    ensures outs { held.new.outs ≡ held.old.outs }
    ensures all { OnOk result (HearsAll N.deployment held.old held.new) }
    ensures emptied { OnOk result
        (Both (λ k j i. IsHeard (hears_at N.deployment (number_of held.old.node.name) k) j i)
        held.old.ins held.new.ins) }
    ensures fault { IfErr result (Fails held.new) }
{
    sound(held);
    let first = first_lane(held);
    let others = others(held);
    for number in 0..others {
        if let Err(fault) = hear_site(rt, held, first, number) {
            return Err(fault);
        }
    }
    Ok(())
}

/// What a hub's node hears from the other sites: each payload and each beat that came over their links is taken where
/// it fits the hub, and else passed over. The links are heard in the order of the sites, and of each site the lanes of
/// its gears, in their order, before the link of its hub's beats; each until it was found empty. The links of trees
/// stay as they are: what comes there is shown or taken in turns. How many entries the node kept. `Worn`, with the
/// greatest u64, only where that is the node's number or a received envelope's after the call; `Memory`, also for a
/// message that no node puts on its link: a label, a payload that is not of the lane's gear, a beat on a lane or a
/// payload among beats. After an error, what was kept by then stays.
pub fn receive<N: Laid + Names, R: Wait>(
    rt: &R,
    held: &mut Held<HubNode<N>, N>,
) -> Result<u64, CallFault>
    ensures heard { Heard held.old held.new }
    ensures outs { held.new.outs ≡ held.old.outs }
    ensures count { IfOk result (λ n. length held.new.node.entries ≡ length held.old.node.entries + n) }
    ensures all { OnOk result (HearsAll N.deployment held.old held.new) }
    ensures emptied { OnOk result
        (Both (λ k j i. IsHeard (hears_at N.deployment (number_of held.old.node.name) k) j i)
        held.old.ins held.new.ins) }
    ensures fault { IfErr result (Fails held.new) }
{
    let before = held.node().journal().len();
    if let Err(fault) = hear_all(rt, held) {
        return Err(fault);
    }
    let after = held.node().journal().len();
    Ok((after - before) as u64)
}
