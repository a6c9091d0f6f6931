//! What opened nodes and sessions make: one journal, or where they are not one.
ghost use Rattle.std.specs.Prelude.{◌≡◌, IfOk};
ghost use Rattle.sat_act.specs.Limits.{IsDeployment};
ghost use Rattle.sat_parts_opened.specs.Opened.{PartsOpened};
ghost use Rattle.sat_session.specs.Notes.{session_notes};
ghost use Rattle.sat_session.specs.Sessions.{SameNotes};
ghost use Rattle.sat_parts_notes.specs.Notes.{part_notes};
ghost use Rattle.sat_finish.specs.Findings.{IsFound, IsWhole};
ghost use Rattle.sat_finish.specs.Parts.{SameParts};

use crate::nodes::open_parts;
use crate::walk::{Parting, walk};
use sat_act::{Deployment, Entries};
use sat_machines::{Laid, SerialNode};
use sat_node::{Held, Names};
use sat_parts::{GearNode, HubNode};
use sat_parts_notes::{
    Difference, check_names, check_sessions, collect, compare_notes, parts_noting,
};
use sat_session::Session;
use std::alloc::{AllocError, Global};

/// A difference of nodes and sessions, where a home and a gear are apart, the journal, or that there was no memory.
#[derive(Drop)]
pub(crate) enum Found {
    Differ(Difference),
    Apart(Parting),
    Whole(Entries),
    Memory,
}

/// Compares what nodes and sessions kept, and what homes and gears kept, and merges it where it is the same. The nodes
/// stay as they are.
pub(crate) fn find<N: Laid, W: Names>(
    alloc: Global,
    d: &Deployment,
    hubs: &mut Vec<Held<HubNode<N>, W>>,
    gears: &mut Vec<Held<GearNode<N>, W>>,
    serials: &mut Vec<Held<SerialNode<N>, W>>,
    sessions: &[Session<N>],
) -> Found
    requires { N.deployment ≡ d.now }
    ensures hubs { hubs.new.items ≡ hubs.old.items }
    ensures gears { gears.new.items ≡ gears.old.items }
    ensures serials { serials.new.items ≡ serials.old.items }
    ensures found { IsFound N.deployment hubs.old.items gears.old.items serials.old.items sessions.now result }
{
    match look(alloc, d, hubs, gears, serials, sessions) {
        Ok(found) => found,
        Err(_) => Found::Memory,
    }
}

fn look<N: Laid, W: Names>(
    alloc: Global,
    d: &Deployment,
    hubs: &mut Vec<Held<HubNode<N>, W>>,
    gears: &mut Vec<Held<GearNode<N>, W>>,
    serials: &mut Vec<Held<SerialNode<N>, W>>,
    sessions: &[Session<N>],
) -> Result<Found, AllocError>
    requires { N.deployment ≡ d.now }
    ensures hubs { hubs.new.items ≡ hubs.old.items }
    ensures gears { gears.new.items ≡ gears.old.items }
    ensures serials { serials.new.items ≡ serials.old.items }
    ensures found { IfOk result (IsFound N.deployment hubs.old.items gears.old.items serials.old.items sessions.now) }
{
    let found = compare_notes(
        alloc,
        d,
        hubs.as_slice(),
        gears.as_slice(),
        serials.as_slice(),
        sessions,
    )?;
    match found {
        Some(difference) => Ok(Found::Differ(difference)),
        None => noted(alloc, d, hubs, gears, serials, sessions),
    }
}

// Of nodes and sessions that kept the same.
fn noted<N: Laid, W: Names>(
    alloc: Global,
    d: &Deployment,
    hubs: &mut Vec<Held<HubNode<N>, W>>,
    gears: &mut Vec<Held<GearNode<N>, W>>,
    serials: &mut Vec<Held<SerialNode<N>, W>>,
    sessions: &[Session<N>],
) -> Result<Found, AllocError>
    requires deployment { N.deployment ≡ d.now }
    requires same { SameNotes (part_notes hubs.old.items gears.old.items serials.old.items)
        (session_notes N.deployment sessions.now) }
    ensures hubs { hubs.new.items ≡ hubs.old.items }
    ensures gears { gears.new.items ≡ gears.old.items }
    ensures serials { serials.new.items ≡ serials.old.items }
    ensures found { IfOk result (IsFound N.deployment hubs.old.items gears.old.items serials.old.items sessions.now) }
{
    check_names(
        alloc,
        d,
        hubs.as_slice(),
        gears.as_slice(),
        serials.as_slice(),
    )?;
    open_parts(hubs, gears, serials);
    walked(
        alloc,
        d,
        hubs.as_slice(),
        gears.as_slice(),
        serials.as_slice(),
        sessions,
    )
}

// Of opened nodes.
fn walked<N: Laid, W: Names>(
    alloc: Global,
    d: &Deployment,
    hubs: &[Held<HubNode<N>, W>],
    gears: &[Held<GearNode<N>, W>],
    serials: &[Held<SerialNode<N>, W>],
    sessions: &[Session<N>],
) -> Result<Found, AllocError>
    requires deployment { N.deployment ≡ d.now }
    requires limits { IsDeployment N.deployment }
    requires opened { PartsOpened N.deployment hubs.now gears.now serials.now }
    requires same { SameNotes (part_notes hubs.now gears.now serials.now) (session_notes N.deployment sessions.now) }
    ensures { IfOk result (IsFound N.deployment hubs.now gears.now serials.now sessions.now) }
{
    let found = walk(alloc, d, hubs, gears)?;
    match found {
        Some(parting) => Ok(Found::Apart(parting)),
        None => {
            let journal = whole(alloc, d, hubs, gears, serials, sessions)?;
            Ok(Found::Whole(journal))
        }
    }
}

// The journal of opened nodes and sessions, which kept the same.
fn whole<N: Laid, W: Names>(
    alloc: Global,
    d: &Deployment,
    hubs: &[Held<HubNode<N>, W>],
    gears: &[Held<GearNode<N>, W>],
    serials: &[Held<SerialNode<N>, W>],
    sessions: &[Session<N>],
) -> Result<Entries, AllocError>
    requires deployment { N.deployment ≡ d.now }
    requires limits { IsDeployment N.deployment }
    requires opened { PartsOpened N.deployment hubs.now gears.now serials.now }
    requires notes { SameNotes (part_notes hubs.now gears.now serials.now) (session_notes N.deployment sessions.now) }
    requires parts { SameParts N.deployment hubs.now gears.now }
    ensures { IfOk result (IsWhole N.deployment hubs.now gears.now serials.now sessions.now) }
{
    parts_noting();
    check_sessions(alloc, d, sessions)?;
    let journal = collect(alloc, hubs, gears, serials, sessions)?;
    Ok(journal)
}
