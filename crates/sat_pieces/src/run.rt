//! Running a script's acts.
ghost use Rattle.std.specs.Prelude.{◌≡◌, ◌+◌, ◌++◌, ℕ, [], List, ◌≤◌, IfOk, IfSome, OnOk, None, Some, length};
ghost use Rattle.sat_act.specs.declared.act.Act.{Act};
ghost use Rattle.sat_world.specs.Stands.{StandsFor};
ghost use Rattle.sat_stream.specs.Stream.{behind};
ghost use Rattle.sat_script.specs.Spelled.{AreActsOf};
ghost use Rattle.sat_act.specs.declared.entry.Entry.{Entry};
ghost use Rattle.sat_act.specs.Runs.{IsRun};
ghost use Rattle.sat_runs.specs.Runs.{ending, run_text};
ghost use Rattle.sat_runs.specs.Running.{IsAnswering};
ghost use Rattle.sat_pieces.specs.UnderWay.{AtWorld, DoesMore, IsKnown, IsWorldOf};

use sat_act::{Act, Deployment};
use sat_report::{write_fault, write_holdings};
use sat_runs::answer_acts;
use sat_script::{MOST_ACTS, ScriptFault};
use sat_stream::Reading;
use sat_world::World;
use std::alloc::{AllocError, Global};

// A new world of a deployment, after acts of it.
fn begin(
    alloc: Global,
    deployment: &Deployment,
    acts: &[Act],
    text: &mut Vec<u8>,
) -> Result<World, AllocError>
    requires acts { AreActsOf deployment.now acts.now }
    requires few { length acts.now ≤ MOST_ACTS }
    ensures deployment { IfOk result (λ world. world.deployment ≡ deployment.now) }
    ensures running { IfOk result (λ world. text.old.items ≡ []
        → IsAnswering deployment.now world text.new.items acts.now) }
{
    let deployment = deployment.copy()?;
    let mut world = World::new(alloc, deployment)?;
    answer_acts(&mut world, 0, acts, text)?;
    Ok(world)
}

/// Does acts that come after so many others, and makes the text of their answers in the place of what the text was. The
/// world is made as soon as the deployment is known.
pub(crate) fn answer_more(
    alloc: Global,
    deployment: &Option<Deployment>,
    world: &mut Option<World>,
    before: u64,
    acts: &[Act],
    text: &mut Vec<u8>,
) -> Result<(), AllocError>
    requires acts { IfSome deployment.now (λ d. AreActsOf d acts.now) }
    requires none { deployment.now ≡ None → acts.now ≡ [] }
    requires known { IsKnown deployment.now world.old }
    requires few { before + length acts.now ≤ MOST_ACTS }
    ensures known { OnOk result (IsWorldOf deployment.now world.new) }
    ensures more { OnOk result (DoesMore world.old before acts.now world.new text.new.items) }
{
    text.clear();
    if let Some(world) = world {
        return answer_acts(world, before, acts, text);
    }
    if let Some(deployment) = deployment {
        *world = Some(begin(alloc, deployment, acts, text)?);
    }
    Ok(())
}

// Appends the holdings, or the fault's line in their place.
fn write_ending(
    world: &World,
    fault: Option<ScriptFault>,
    text: &mut Vec<u8>,
) -> Result<(), AllocError>
    ensures { OnOk result ((h : List Entry) → IsRun world.now.deployment h → StandsFor world.now h
        → text.new.items ≡ text.old.items ++ ending world.now.deployment h fault) }
{
    match fault {
        None => write_holdings(world, text)?,
        Some(fault) => write_fault(&fault, text)?,
    }
    Ok(())
}

/// The rest of a report, where so many acts had been done: the answers of the acts that are left, and behind them the
/// holdings, or the fault's line, in the place of what the text was.
#[tactic(auto, unfolding(sat_runs::specs::Runs::run_text))]
pub(crate) fn rest_text(
    alloc: Global,
    reading: &Reading,
    world: &mut Option<World>,
    before: u64,
    text: &mut Vec<u8>,
) -> Result<(), AllocError>
    requires acts { IfSome reading.now.deployment (λ d. AreActsOf d reading.now.acts) }
    requires none { reading.now.deployment ≡ None → reading.now.acts ≡ [] }
    requires known { IsKnown reading.now.deployment world.old }
    requires few { before + length reading.now.acts ≤ MOST_ACTS }
    ensures { OnOk result ((front : List ℕ) (done : List Act) → before ≡ length done → AtWorld world.old front done
        → front ++ text.new.items ≡ run_text (behind done reading.now)) }
{
    answer_more(
        alloc,
        &reading.deployment,
        world,
        before,
        reading.acts.as_slice(),
        text,
    )?;
    match world {
        Some(world) => write_ending(world, reading.fault, text),
        None => {
            if let Some(fault) = reading.fault {
                write_fault(&fault, text)?;
            }
            Ok(())
        }
    }
}
