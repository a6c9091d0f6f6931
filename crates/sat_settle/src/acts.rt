//! The acts of a round behind its bulks, in order.
ghost use Rattle.std.specs.Prelude.{◌≡◌, ◌<◌, ◌+◌, ◌++◌, ℕ, length, OnOk, IfOk};
ghost use Rattle.sat_act.specs.Limits.{IsDeployment};
ghost use Rattle.sat_act.specs.Settling.{hops, round_acts};
ghost use Rattle.sat_settle.specs.RoundActs.{bulk_to, bulk_acts_by, bulk_acts_from, bulk_acts};
ghost use Rattle.sat_settle.specs.RoundActs.{hops_to, hops_in, hops_by, later_acts, turns_to};

use sat_act::{Act, Acts, Deployment, Plan};
use sat_tree::Tree;
use std::alloc::{AllocError, Global};

// A hop of a serializer from each of its neighbours.
fn add_serializer(acts: &mut Acts, epoch: u16, tree: &Tree, to: u16) -> Result<(), AllocError>
    requires { to < length tree.now.parents }
    ensures { OnOk result (acts.new ≡ acts.old ++ hops_to epoch tree.now to) }
{
    let around = tree.neighbours(to);
    for from in around {
        acts.push(Act::Hop {
            epoch,
            from: *from,
            to,
        })?;
    }
    Ok(())
}

// Those of all serializers of a tree.
fn add_tree(acts: &mut Acts, epoch: u16, tree: &Tree) -> Result<(), AllocError>
    ensures { OnOk result (acts.new ≡ acts.old ++ hops_in epoch tree.now) }
{
    let serializers = tree.serializers();
    for to in 0..serializers {
        add_serializer(acts, epoch, tree, to)?;
    }
    Ok(())
}

// Those of an epoch, by its plan.
fn add_plan(acts: &mut Acts, epoch: u16, plan: &Plan) -> Result<(), AllocError>
    ensures { OnOk result (acts.new ≡ acts.old ++ hops_by epoch plan.now) }
{
    match plan {
        Plan::Stamp => Ok(()),
        Plan::Tree(tree) => add_tree(acts, epoch, tree),
    }
}

// Those of all epochs.
fn add_hops(acts: &mut Acts, d: &Deployment) -> Result<(), AllocError>
    ensures { OnOk result (acts.new ≡ acts.old ++ hops d.now) }
{
    let plans = d.plans();
    for (place, plan) in plans.iter().enumerate() {
        add_plan(acts, place as u16 + 1, plan)?;
    }
    Ok(())
}

// Of each site a turn, a stamp and an advance.
fn add_turns(acts: &mut Acts, sites: u16) -> Result<(), AllocError>
    ensures { OnOk result (acts.new ≡ acts.old ++ turns_to sites) }
{
    for site in 0..sites {
        acts.push(Act::Turn { site })?;
        acts.push(Act::Stamp { site })?;
        acts.push(Act::Advance { site })?;
    }
    Ok(())
}

// The bulk of the next payload of a lane, none of a site's to itself.
fn add_bulk(acts: &mut Acts, from: u16, gear: u16, to: u16) -> Result<(), AllocError>
    ensures { OnOk result (acts.new ≡ acts.old ++ bulk_to from gear to) }
{
    if from == to {
        return Ok(());
    }
    acts.push(Act::Bulk {
        from,
        gear,
        to,
        number: None,
    })?;
    Ok(())
}

// Those of a gear's lanes.
fn add_bulks_by(acts: &mut Acts, from: u16, gear: u16, sites: u16) -> Result<(), AllocError>
    ensures { OnOk result (acts.new ≡ acts.old ++ bulk_acts_by from sites gear) }
{
    for to in 0..sites {
        add_bulk(acts, from, gear, to)?;
    }
    Ok(())
}

// Those of a site's gears.
fn add_bulks_from(acts: &mut Acts, from: u16, gears: u16, sites: u16) -> Result<(), AllocError>
    ensures { OnOk result (acts.new ≡ acts.old ++ bulk_acts_from gears sites from) }
{
    for gear in 0..gears {
        add_bulks_by(acts, from, gear, sites)?;
    }
    Ok(())
}

// Those of all sites.
fn add_bulks(acts: &mut Acts, gears: u16, sites: u16) -> Result<(), AllocError>
    ensures { OnOk result (acts.new ≡ acts.old ++ bulk_acts gears sites) }
{
    for from in 0..sites {
        add_bulks_from(acts, from, gears, sites)?;
    }
    Ok(())
}

/// The acts of a round of a deployment, in order.
pub fn list_round(alloc: Global, d: &Deployment) -> Result<Acts, AllocError>
    ensures acts { IfOk result (λ acts. acts ≡ round_acts d.now) }
    ensures limits { IsDeployment d.now }
{
    let sites = d.sites();
    let gears = d.gears();
    let mut acts = Acts::new(alloc);
    add_bulks(&mut acts, gears, sites)?;
    add_hops(&mut acts, d)?;
    add_turns(&mut acts, sites)?;
    Ok(acts)
}

/// The acts of a round of a deployment behind its bulks, in order.
pub fn list_later(alloc: Global, d: &Deployment) -> Result<Acts, AllocError>
    ensures acts { IfOk result (λ acts. acts ≡ later_acts d.now) }
    ensures limits { IsDeployment d.now }
{
    let sites = d.sites();
    let mut acts = Acts::new(alloc);
    add_hops(&mut acts, d)?;
    add_turns(&mut acts, sites)?;
    Ok(acts)
}
