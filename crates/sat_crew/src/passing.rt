//! Passes over the nodes of a cluster.
ghost use Rattle.std.specs.Prelude.{IfErr};
ghost use Rattle.sat_session.specs.Calls.{IsFault};

use crate::pause::rest;
use crate::roll::Roll;
use sat_cluster::Cluster;
use sat_label::NodeName;
use sat_machines::Laid;
use sat_node::{CallFault, Names};
use sat_outside::Gate;
use std::sync::Wait;
use std::time::Clock;

/// How many passes over all nodes are made at the end, at the most.
pub const MOST_PASSES: u64 = 1_000;

/// Behind so many passes of one worker in a row during which no session's worker was at work, some two seconds, it
/// makes no more.
pub const IDLE_PASSES: u64 = 2_000;

/// Behind so many passes over all nodes in a row that added no entry, no more are made.
pub const QUIET_PASSES: u64 = 3;

// One pass of each gear of a site: how many entries they kept.
fn pass_gears<N: Laid + Names, R: Wait, G: Gate>(
    rt: &R,
    cluster: &Cluster<N>,
    site: u16,
    gate: &G,
) -> Result<u64, CallFault>
    ensures { IfErr result IsFault }
{
    let mut count = 0u64;
    'gears: for gear in 0..cluster.deployment().gears() {
        match cluster.round(rt, NodeName::Gear { site, gear }, gate) {
            Ok(added) => count = count.saturating_add(added),
            Err(fault) => return Err(fault),
        }
    }
    Ok(count)
}

// One pass of a site, its hub first, and then its gears, which send what they wrote: how many entries they kept.
fn pass_site<N: Laid + Names, R: Wait, G: Gate>(
    rt: &R,
    cluster: &Cluster<N>,
    site: u16,
    gate: &G,
) -> Result<u64, CallFault>
    ensures { IfErr result IsFault }
{
    match cluster.round(rt, NodeName::Site(site), gate) {
        Ok(hub) => match pass_gears(rt, cluster, site, gate) {
            Ok(gears) => Ok(hub.saturating_add(gears)),
            Err(fault) => Err(fault),
        },
        Err(fault) => Err(fault),
    }
}

// One pass of each site: how many entries they kept.
fn pass_sites<N: Laid + Names, R: Wait, G: Gate>(
    rt: &R,
    cluster: &Cluster<N>,
    gate: &G,
) -> Result<u64, CallFault>
    ensures { IfErr result IsFault }
{
    let mut count = 0u64;
    'sites: for site in 0..cluster.deployment().sites() {
        match pass_site(rt, cluster, site, gate) {
            Ok(added) => count = count.saturating_add(added),
            Err(fault) => return Err(fault),
        }
    }
    Ok(count)
}

// One pass of each serializer: how many entries they kept.
fn pass_serials<N: Laid + Names, R: Wait, G: Gate>(
    rt: &R,
    cluster: &Cluster<N>,
    gate: &G,
) -> Result<u64, CallFault>
    ensures { IfErr result IsFault }
{
    let mut count = 0u64;
    for name in cluster.serializers() {
        match cluster.round(rt, *name, gate) {
            Ok(added) => count = count.saturating_add(added),
            Err(fault) => return Err(fault),
        }
    }
    Ok(count)
}

/// One pass of each node, site by site, and then of the serializers: how many entries they kept.
pub(crate) fn pass_all<N: Laid + Names, R: Wait, G: Gate>(
    rt: &R,
    cluster: &Cluster<N>,
    gate: &G,
) -> Result<u64, CallFault>
    ensures { IfErr result IsFault }
{
    match pass_sites(rt, cluster, gate) {
        Ok(sites) => match pass_serials(rt, cluster, gate) {
            Ok(serials) => Ok(sites.saturating_add(serials)),
            Err(fault) => Err(fault),
        },
        Err(fault) => Err(fault),
    }
}

// One pass of a node, with a hub's also those of its gears: how many entries they kept.
fn pass_node<N: Laid + Names, R: Wait, G: Gate>(
    rt: &R,
    cluster: &Cluster<N>,
    node: NodeName,
    gate: &G,
) -> Result<u64, CallFault>
    ensures { IfErr result IsFault }
{
    match node {
        NodeName::Site(site) => pass_site(rt, cluster, site, gate),
        _ => cluster.round(rt, node, gate),
    }
}

// How many in a row: one more, or none again.
fn in_row(before: u64, again: bool) -> u64 {
    if again { before.saturating_add(1) } else { 0 }
}

/// Passes of one serializer, or of one site's hub and gears, until all sessions' workers have returned, with a pause
/// behind each, longer behind several that added no entry. Where threads are few, some sessions' workers begin only
/// once this returns: so it also does after `IDLE_PASSES` during which none was at work, and from then on each other
/// node's does once it finds none at work.
pub(crate) fn pass_until<N: Laid + Names, R: Wait + Clock, G: Gate>(
    rt: &R,
    cluster: &Cluster<N>,
    node: NodeName,
    gate: &G,
    roll: &Roll,
) -> Result<(), CallFault>
    ensures { IfErr result IsFault }
{
    let mut idle = 0u64;
    let mut quiet = 0u64;
    'passing: for _ in rt.forever() {
        if roll.all_returned() || roll.none_comes() {
            return Ok(());
        }
        if idle >= IDLE_PASSES {
            roll.gives_up();
            return Ok(());
        }
        idle = in_row(idle, roll.none_works());
        match pass_node(rt, cluster, node, gate) {
            Ok(added) => quiet = in_row(quiet, added == 0),
            Err(fault) => return Err(fault),
        }
        rest(rt, quiet);
    }
    unreachable!()
}

/// Passes over all nodes, until `QUIET_PASSES` in a row added no entry, and `MOST_PASSES` at the most.
pub(crate) fn pass_to_end<N: Laid + Names, R: Wait, G: Gate>(
    rt: &R,
    cluster: &Cluster<N>,
    gate: &G,
) -> Result<(), CallFault>
    ensures { IfErr result IsFault }
{
    let mut quiet = 0u64;
    'ending: for _ in 0..MOST_PASSES {
        if quiet >= QUIET_PASSES {
            return Ok(());
        }
        match pass_all(rt, cluster, gate) {
            Ok(0) => quiet = quiet.saturating_add(1),
            Ok(_) => quiet = 0,
            Err(fault) => return Err(fault),
        }
    }
    Ok(())
}
