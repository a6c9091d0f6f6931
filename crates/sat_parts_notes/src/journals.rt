//! The journals of all nodes and sessions, and their merge.
ghost use Rattle.std.specs.Prelude.{◌≡◌, ◌+◌, ◌++◌, List, [], ◌∷◌, length, map, IfOk, OnOk};
ghost use Rattle.sat_joint.specs.Seen.{seen};
ghost use Rattle.sat_opened.specs.Keeping.{kept_under, serial_kept};
ghost use Rattle.sat_machines.specs.Serials.{epoch_in, serial_in};
ghost use Rattle.sat_parts_opened.specs.Keeping.{serial_noted};
ghost use Rattle.sat_parts_notes.specs.Collecting.{Lines, alone_line, alone_lines, at_places, collected, home_line};
ghost use Rattle.sat_parts_notes.specs.Collecting.{journals_of, lines_at_gear, lines_at_hub, lines_at_serial};
ghost use Rattle.sat_parts_notes.specs.Collecting.{session_journal};

use crate::notes::{gear_in, site_in};
use sat_act::{Entries, Entry};
use sat_joint::{Journal, KeptEntries, stitch};
use sat_machines::{Laid, SerialNode};
use sat_node::{Held, Names};
use sat_opened::serial_journal;
use sat_parts::{GearNode, HubNode};
use sat_parts_opened::{gear_entries, hub_entries};
use sat_session::{Noted, Session};
use std::alloc::{AllocError, Global};

/// One journal of what all nodes and sessions kept, each act once, at its home: by Lamport number (Lamport, 1978), then
/// hubs by site, gears by site and number, serializers by epoch and number, and sessions by number, then as each has
/// it.
pub fn collect<N: Laid, W: Names>(
    alloc: Global,
    hubs: &[Held<HubNode<N>, W>],
    gears: &[Held<GearNode<N>, W>],
    serials: &[Held<SerialNode<N>, W>],
    sessions: &[Session<N>],
) -> Result<Entries, AllocError>
    ensures { IfOk result (λ journal. journal ≡ collected hubs.now gears.now serials.now sessions.now) }
{
    let list = journals(alloc, hubs, gears, serials, sessions)?;
    let journal = stitch(alloc, list.as_slice())?;
    Ok(journal)
}

// The journals of hubs by site, then of gears by site and number, then of serializers by epoch and number, then of
// sessions by number, each with its place.
fn journals<N: Laid, W: Names>(
    alloc: Global,
    hubs: &[Held<HubNode<N>, W>],
    gears: &[Held<GearNode<N>, W>],
    serials: &[Held<SerialNode<N>, W>],
    sessions: &[Session<N>],
) -> Result<Vec<Journal>, AllocError>
    ensures { IfOk result (λ list. map seen list.items ≡ journals_of hubs.now gears.now serials.now sessions.now) }
{
    let mut list = Vec::new(alloc);
    add_hubs(alloc, &mut list, hubs)?;
    add_gears(alloc, &mut list, gears)?;
    add_serials(alloc, &mut list, serials)?;
    let base = place_of(list.len())?;
    add_sessions(alloc, &mut list, base, sessions)?;
    Ok(list)
}

// A place as the merge takes it. There are not so many nodes that it doesn't fit.
fn place_of(place: usize) -> Result<u32, AllocError>
    ensures { IfOk result (λ p. p ≡ place) }
{
    match u32::try_from(place) {
        Ok(place) => Ok(place),
        Err(_) => Err(AllocError),
    }
}

// One journal more, at the next place.
fn add(list: &mut Vec<Journal>, kept: KeptEntries) -> Result<(), AllocError>
    ensures { OnOk result (map seen list.new.items ≡ map seen list.old.items ++ (length list.old.items, kept) ∷ []) }
{
    let place = place_of(list.len())?;
    list.push(Journal { place, kept })?;
    Ok(())
}

fn add_hubs<N: Laid, W: Names>(
    alloc: Global,
    list: &mut Vec<Journal>,
    hubs: &[Held<HubNode<N>, W>],
) -> Result<(), AllocError>
    requires { list.old.items ≡ [] }
    ensures { OnOk result (map seen list.new.items ≡ at_places 0 (map lines_at_hub hubs.now)) }
{
    for hub in hubs {
        let kept = hub_lines(alloc, hub)?;
        add(list, kept)?;
    }
    Ok(())
}

fn hub_lines<N: Laid, W: Names>(
    alloc: Global,
    held: &Held<HubNode<N>, W>,
) -> Result<KeptEntries, AllocError>
    ensures { IfOk result (λ list. list ≡ lines_at_hub held.now) }
{
    let node = held.node();
    hub_entries(alloc, site_in(node.name()), node.journal())
}

fn add_gears<N: Laid, W: Names>(
    alloc: Global,
    list: &mut Vec<Journal>,
    gears: &[Held<GearNode<N>, W>],
) -> Result<(), AllocError>
    ensures { OnOk result ((lines : List Lines) → map seen list.old.items ≡ at_places 0 lines
        → map seen list.new.items ≡ at_places 0 (lines ++ map lines_at_gear gears.now)) }
{
    for gear in gears {
        let kept = gear_lines(alloc, gear)?;
        add(list, kept)?;
    }
    Ok(())
}

fn gear_lines<N: Laid, W: Names>(
    alloc: Global,
    held: &Held<GearNode<N>, W>,
) -> Result<KeptEntries, AllocError>
    ensures { IfOk result (λ list. list ≡ lines_at_gear held.now) }
{
    let node = held.node();
    let name = node.name();
    gear_entries(alloc, site_in(name), gear_in(name), node.journal())
}

fn add_serials<N: Laid, W: Names>(
    alloc: Global,
    list: &mut Vec<Journal>,
    serials: &[Held<SerialNode<N>, W>],
) -> Result<(), AllocError>
    ensures { OnOk result ((lines : List Lines) → map seen list.old.items ≡ at_places 0 lines
        → map seen list.new.items ≡ at_places 0 (lines ++ map lines_at_serial serials.now)) }
{
    for serial in serials {
        let kept = serial_lines(alloc, serial)?;
        add(list, kept)?;
    }
    Ok(())
}

// A serializer is the home of all that it keeps.
fn serial_lines<N: Laid, W: Names>(
    alloc: Global,
    held: &Held<SerialNode<N>, W>,
) -> Result<KeptEntries, AllocError>
    ensures { IfOk result (λ list. list ≡ lines_at_serial held.now) }
{
    let entries = serial_journal(alloc, held)?;
    let mut list = KeptEntries::new(alloc);
    add_home(&mut list, entries.as_slice())?;
    Ok(list)
}

fn add_home(list: &mut KeptEntries, entries: &[(u64, Entry)]) -> Result<(), AllocError>
    ensures { OnOk result (list.new ≡ list.old ++ map home_line entries.now) }
{
    for entry in entries {
        let copy = entry.1.copy()?;
        list.push(entry.0, copy, true)?;
    }
    Ok(())
}

fn add_sessions<N: Laid>(
    alloc: Global,
    list: &mut Vec<Journal>,
    base: u32,
    sessions: &[Session<N>],
) -> Result<(), AllocError>
    ensures { OnOk result (map seen list.new.items ≡ map seen list.old.items
        ++ map (session_journal base) sessions.now) }
{
    for session in sessions {
        add_session(alloc, list, base, session)?;
    }
    Ok(())
}

fn add_session<N: Laid>(
    alloc: Global,
    list: &mut Vec<Journal>,
    base: u32,
    session: &Session<N>,
) -> Result<(), AllocError>
    ensures { OnOk result (map seen list.new.items ≡ map seen list.old.items ++ session_journal base session.now ∷ []) }
{
    let kept = alone(alloc, session.noted())?;
    let place = behind(base, session.number())?;
    list.push(Journal { place, kept })?;
    Ok(())
}

fn behind(base: u32, number: u16) -> Result<u32, AllocError>
    ensures { IfOk result (λ p. p ≡ base + number) }
{
    match base.checked_add(u32::from(number)) {
        Some(place) => Ok(place),
        None => Err(AllocError),
    }
}

// What a session noted at no node.
fn alone(alloc: Global, notes: &[Noted]) -> Result<KeptEntries, AllocError>
    ensures { IfOk result (λ list. list ≡ alone_lines notes.now) }
{
    let mut list = KeptEntries::new(alloc);
    for noted in notes {
        add_alone(&mut list, noted)?;
    }
    Ok(list)
}

fn add_alone(list: &mut KeptEntries, noted: &Noted) -> Result<(), AllocError>
    ensures { OnOk result (list.new ≡ list.old ++ alone_line noted.now noted.now.at) }
{
    match noted.at {
        Some(_) => Ok(()),
        None => {
            let entry = noted.entry.copy()?;
            list.push(noted.lamport, entry, true)?;
            Ok(())
        }
    }
}
