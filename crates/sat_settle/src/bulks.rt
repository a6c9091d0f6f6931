//! The bulks of a round.
ghost use Rattle.std.specs.Prelude.{◌≡◌, ◌<◌, None, IfOk, OnErr};
ghost use Rattle.sat_act.specs.Limits.{IsDeployment};
ghost use Rattle.sat_act.specs.Ranges.{IsActOf};
ghost use Rattle.sat_settle.specs.Going.{Makes, MakesUntil, Stops, StopsUntil};
ghost use Rattle.sat_settle.specs.Rounds.{bulked, bulks_by, bulks_out, bulks_to};

use sat_act::Act;
use sat_world::World;
use std::alloc::AllocError;

// The payloads of a lane come one after another, until none is left: how many came.
fn bulk_lane(world: &mut World, from: u16, gear: u16, to: u16) -> Result<u64, AllocError>
    requires { IsActOf world.old.deployment (Act.Bulk from gear to None) }
    ensures deployment { world.new.deployment ≡ world.old.deployment }
    ensures ok { IfOk result (λ done. MakesUntil world.old (Act.Bulk from gear to None) done world.new) }
    ensures err { OnErr result (StopsUntil world.old (Act.Bulk from gear to None) world.new) }
{
    let done = world.bulks(from, gear, to)?;
    Ok(done)
}

// Those of a lane to another site, none of a site's to itself.
fn bulk_to(world: &mut World, from: u16, gear: u16, to: u16) -> Result<u64, AllocError>
    requires limits { IsDeployment world.old.deployment }
    requires from { from < world.old.deployment.sites }
    requires gear { gear < world.old.deployment.gears }
    requires to { to < world.old.deployment.sites }
    ensures deployment { world.new.deployment ≡ world.old.deployment }
    ensures ok { IfOk result (λ done. Makes world.old (bulks_to world.old.deployment from gear to) done world.new) }
    ensures err { OnErr result (Stops world.old (bulks_to world.old.deployment from gear to) world.new) }
{
    if from == to {
        return Ok(0);
    }
    let done = bulk_lane(world, from, gear, to)?;
    Ok(done)
}

// Those of a gear.
fn bulk_by(world: &mut World, from: u16, gear: u16) -> Result<u64, AllocError>
    requires limits { IsDeployment world.old.deployment }
    requires from { from < world.old.deployment.sites }
    requires gear { gear < world.old.deployment.gears }
    ensures deployment { world.new.deployment ≡ world.old.deployment }
    ensures ok { IfOk result (λ done. Makes world.old (bulks_by world.old.deployment from gear) done world.new) }
    ensures err { OnErr result (Stops world.old (bulks_by world.old.deployment from gear) world.new) }
{
    let sites = world.deployment().sites();
    let mut done: u64 = 0;
    for site in 0..sites {
        let more = bulk_to(world, from, gear, site)?;
        done = done.saturating_add(more);
    }
    Ok(done)
}

// Those of a site.
fn bulk_out(world: &mut World, from: u16) -> Result<u64, AllocError>
    requires limits { IsDeployment world.old.deployment }
    requires from { from < world.old.deployment.sites }
    ensures deployment { world.new.deployment ≡ world.old.deployment }
    ensures ok { IfOk result (λ done. Makes world.old (bulks_out world.old.deployment from) done world.new) }
    ensures err { OnErr result (Stops world.old (bulks_out world.old.deployment from) world.new) }
{
    let gears = world.deployment().gears();
    let mut done: u64 = 0;
    for gear in 0..gears {
        let more = bulk_by(world, from, gear)?;
        done = done.saturating_add(more);
    }
    Ok(done)
}

/// The payloads of all lanes come, lane by lane: how many came.
pub fn bulk_all(world: &mut World) -> Result<u64, AllocError>
    requires { IsDeployment world.old.deployment }
    ensures deployment { world.new.deployment ≡ world.old.deployment }
    ensures ok { IfOk result (λ done. Makes world.old (bulked world.old.deployment) done world.new) }
    ensures err { OnErr result (Stops world.old (bulked world.old.deployment) world.new) }
{
    let sites = world.deployment().sites();
    let mut done: u64 = 0;
    for site in 0..sites {
        let more = bulk_out(world, site)?;
        done = done.saturating_add(more);
    }
    Ok(done)
}
