//! Drawing the run of a script.
ghost use Rattle.std.specs.Prelude.{ℕ, ◌≡◌, ◌+◌, ◌++◌, [], ◌∷◌, List, ◌≤◌, IfOk, OnOk, false, length};
ghost use Rattle.sat_act.specs.declared.act.Act.{Act};
ghost use Rattle.sat_act.specs.Ranges.{IsActOf};
ghost use Rattle.sat_world.specs.Stands.{StandsFor};
ghost use Rattle.sat_script.specs.Spelled.{AreActsOf};
ghost use Rattle.sat_stream.specs.Laws.{IsSound};
ghost use Rattle.sat_report.specs.Faults.{fault_line};
ghost use Rattle.sat_draw.specs.Drawing.{drawing};
ghost use Rattle.sat_top.specs.Drawing.{draw_text, numbered, told_history, told_moves};
ghost use Rattle.sat_pieces.specs.Streaming.{run_status};
ghost use Rattle.sat_top.specs.UnderWay.{IsEntering, KeepsIn};
ghost use Rattle.sat_runs.specs.Running.{Does};

use crate::output::Output;
use sat_act::{Act, Answer, Deployment, Entry};
use sat_draw::{Moved, draw};
use sat_report::write_fault;
use sat_runs::do_act;
use sat_script::{MOST_ACTS, ScriptFault};
use sat_settle::settle_keeping;
use sat_stream::Reading;
use sat_world::World;
use std::alloc::{AllocError, Global};

// Does an act, and keeps the first entries of a settle that move a payload or a label.
fn do_keeping(world: &mut World, act: &Act, kept: &mut Vec<Entry>) -> Result<Answer, AllocError>
    requires { IsActOf world.old.deployment act.now }
    ensures deployment { world.new.deployment ≡ world.old.deployment }
    ensures does { IfOk result (λ answer. Does world.old act.now answer world.new) }
    ensures keeps { IfOk result (λ _. KeepsIn world.old act.now kept.old.items kept.new.items) }
{
    match act {
        Act::Settle => settle_keeping(world, kept),
        _ => do_act(world, act),
    }
}

// Adds entries of a settle in a row, with their places.
fn push_moves(row: u32, kept: &[Entry], moved: &mut Vec<Moved>) -> Result<(), AllocError>
    ensures { OnOk result (moved.new.items ≡ moved.old.items ++ numbered row 0 kept.now) }
{
    for (place, entry) in kept.iter().enumerate() {
        let entry = entry.copy()?;
        moved.push(Moved {
            row,
            place: place as u64,
            entry,
        })?;
    }
    Ok(())
}

// Does an act, and keeps its entry, and what a settle moved.
fn enter_act(
    alloc: Global,
    world: &mut World,
    act: &Act,
    row: u32,
    entries: &mut Vec<Entry>,
    moved: &mut Vec<Moved>,
) -> Result<(), AllocError>
    requires act { IsActOf world.old.deployment act.now }
    ensures deployment { world.new.deployment ≡ world.old.deployment }
    ensures one { OnOk result (length entries.new.items ≡ length entries.old.items + 1) }
    ensures entering { OnOk result ((acts : List Act) → row ≡ length acts
        → IsEntering world.old.deployment world.old entries.old.items moved.old.items acts
        → IsEntering world.old.deployment world.new entries.new.items moved.new.items (acts ++ act.now ∷ [])) }
{
    let mut kept = Vec::new(alloc);
    let answer = do_keeping(world, act, &mut kept)?;
    push_moves(row, kept.as_slice(), moved)?;
    let act = act.copy()?;
    entries.push(Entry {
        act,
        answer,
        inner: false,
    })?;
    Ok(())
}

// Does the acts one after another, and keeps their entries, and what their settles moved.
fn enter_acts(
    alloc: Global,
    world: &mut World,
    acts: &[Act],
    moved: &mut Vec<Moved>,
) -> Result<Vec<Entry>, AllocError>
    requires fresh { StandsFor world.old [] }
    requires acts { AreActsOf world.old.deployment acts.now }
    requires few { length acts.now ≤ MOST_ACTS }
    requires none { moved.old.items ≡ [] }
    ensures deployment { world.new.deployment ≡ world.old.deployment }
    ensures size { IfOk result (λ entries. length entries.items ≡ length acts.now) }
    ensures entering { IfOk result
        (λ entries. IsEntering world.old.deployment world.new entries.items moved.new.items acts.now) }
{
    let mut entries = Vec::new(alloc);
    for (place, act) in acts.iter().enumerate() {
        enter_act(alloc, world, act, place as u32, &mut entries, moved)?;
    }
    Ok(entries)
}

// The drawing of the run of acts.
fn draw_acts(alloc: Global, d: Deployment, acts: &[Act]) -> Result<Vec<u8>, AllocError>
    requires acts { AreActsOf d acts.now }
    requires few { length acts.now ≤ MOST_ACTS }
    ensures { IfOk result (λ text. text.items ≡ drawing d (told_history d acts.now) (told_moves d acts.now)) }
{
    let mut world = World::new(alloc, d)?;
    let mut moved = Vec::new(alloc);
    let entries = enter_acts(alloc, &mut world, acts, &mut moved)?;
    let text = draw(
        alloc,
        world.deployment(),
        entries.as_slice(),
        moved.as_slice(),
    )?;
    Ok(text)
}

/// The line of a fault.
pub(crate) fn fault_output(alloc: Global, fault: &ScriptFault) -> Result<Output, AllocError>
    ensures text { IfOk result (λ out. out.text.items ≡ fault_line fault.now) }
    ensures status { IfOk result (λ out. out.status ≡ 1) }
{
    let mut text = Vec::new(alloc);
    write_fault(fault, &mut text)?;
    Ok(Output { text, status: 1 })
}

/// What `draw` writes of what a text was read as: the drawing of its run, or the line of its first fault.
#[tactic(auto, using(sat_stream::proofs::Drained::few_read))]
pub(crate) fn draw_of(alloc: Global, reading: Reading) -> Result<Output, AllocError>
    requires { IsSound false reading }
    ensures text { IfOk result (λ out. out.text.items ≡ draw_text reading) }
    ensures status { IfOk result (λ out. out.status ≡ run_status reading.fault) }
{
    let Reading {
        deployment,
        acts,
        fault,
    } = reading;
    if let Some(fault) = fault {
        return fault_output(alloc, &fault);
    }
    match deployment {
        None => Ok(Output {
            text: Vec::new(alloc),
            status: 0,
        }),
        Some(deployment) => {
            let text = draw_acts(alloc, deployment, acts.as_slice())?;
            Ok(Output { text, status: 0 })
        }
    }
}
