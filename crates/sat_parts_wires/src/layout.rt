//! The lanes of a deployment: one from each gear to each site other than its own.
ghost use Rattle.std.specs.Prelude.{◌≡◌, ◌-◌, ◌++◌, IfOk, OnOk};
ghost use Rattle.sat_parts.specs.Layout.{all_lanes, gear_lanes, lanes_from, lanes_to, site_lanes};
ghost use Rattle.sat_parts_wires.specs.Lanes.{lanes_out};

use crate::lane::Lane;
use sat_act::Deployment;
use sat_wires::peer;
use std::alloc::{AllocError, Global};

// From a gear to so many other sites.
#[tactic(auto, using(crate::proofs::Grown::out_more))]
fn add_out(lanes: &mut Vec<Lane>, site: u16, gear: u16, count: u16) -> Result<(), AllocError>
    ensures { OnOk result (lanes.new.items ≡ lanes.old.items ++ lanes_out site gear count) }
{
    for number in 0..count {
        lanes.push(Lane::new(site, gear, peer(site, number)))?;
    }
    Ok(())
}

// From all gears of a site.
#[tactic(auto, using(crate::proofs::Grown::site_more))]
fn add_site(lanes: &mut Vec<Lane>, d: &Deployment, site: u16) -> Result<(), AllocError>
    ensures { OnOk result (lanes.new.items ≡ lanes.old.items ++ site_lanes d.now site) }
{
    for gear in 0..d.gears() {
        add_out(lanes, site, gear, d.sites() - 1)?;
    }
    Ok(())
}

// From all gears of a site to another one.
#[tactic(auto, using(crate::proofs::Grown::from_more))]
fn add_from(lanes: &mut Vec<Lane>, d: &Deployment, site: u16, from: u16) -> Result<(), AllocError>
    ensures { OnOk result (lanes.new.items ≡ lanes.old.items ++ lanes_from d.now site from) }
{
    for gear in 0..d.gears() {
        lanes.push(Lane::new(from, gear, site))?;
    }
    Ok(())
}

/// The lanes out of a gear, in the order of its ends: to each other site.
pub fn gear_lanes(
    alloc: Global,
    d: &Deployment,
    site: u16,
    gear: u16,
) -> Result<Vec<Lane>, AllocError>
    ensures { IfOk result (λ lanes. lanes.items ≡ gear_lanes d.now site gear) }
{
    let mut lanes = Vec::new(alloc);
    add_out(&mut lanes, site, gear, d.sites() - 1)?;
    Ok(lanes)
}

/// The lanes into a hub, in the order of its ends: of each other site those of its gears.
#[tactic(auto, using(crate::proofs::Grown::to_more))]
pub fn lanes_to(alloc: Global, d: &Deployment, site: u16) -> Result<Vec<Lane>, AllocError>
    ensures { IfOk result (λ lanes. lanes.items ≡ lanes_to d.now site) }
{
    let mut lanes = Vec::new(alloc);
    let others = d.sites() - 1;
    for number in 0..others {
        add_from(&mut lanes, d, site, peer(site, number))?;
    }
    Ok(lanes)
}

/// All lanes, in the order of the gears that they lead out of.
#[tactic(auto, using(crate::proofs::Grown::all_more))]
pub fn all_lanes(alloc: Global, d: &Deployment) -> Result<Vec<Lane>, AllocError>
    ensures { IfOk result (λ lanes. lanes.items ≡ all_lanes d.now) }
{
    let mut lanes = Vec::new(alloc);
    for site in 0..d.sites() {
        add_site(&mut lanes, d, site)?;
    }
    Ok(lanes)
}
