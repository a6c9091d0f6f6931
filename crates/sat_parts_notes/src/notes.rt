//! What nodes and sessions kept of the acts of sessions at nodes.
ghost use Rattle.std.specs.Prelude.{◌≡◌, ◌≤◌, ◌++◌, true, false, map, length, option_map, slice_get, Some, IfOk};
ghost use Rattle.std.specs.Prelude.{MatchOption, OnOk};
ghost use Rattle.std.specs.List.{flat_map};
ghost use Rattle.sat_machines.specs.Serials.{epoch_in, serial_in};
ghost use Rattle.sat_machines.specs.Sites.{number_of};
ghost use Rattle.sat_stitch.specs.Kept.{entry_of};
ghost use Rattle.sat_parts.specs.Gears.{gear_number};
ghost use Rattle.sat_opened.specs.Keeping.{serial_kept, kept_under, serial_owner};
ghost use Rattle.sat_parts_opened.specs.Keeping.{gear_kept, hub_kept, hub_owner, is_own_line};
ghost use Rattle.sat_session.specs.Notes.{session_at, owned_by, nothing_carried, serial_note, serial_notes};
ghost use Rattle.sat_session.specs.Notes.{notes_at_serial, at_node, own_notes, notes_of, session_notes};
ghost use Rattle.sat_parts_notes.specs.Notes.{gear_carried, gear_owned, hub_carried, hub_owned, notes_at_gear};
ghost use Rattle.sat_parts_notes.specs.Notes.{notes_at_hub, part_notes};
ghost use Rattle.sat_parts_notes.specs.Filing.{owner_in};

use crate::filed::Filed;
use crate::same::copy_noted;
use sat_act::{Deployment, Entry};
use sat_label::{Carried, NodeName, Point};
use sat_machines::{Laid, SerialAct, SerialAnswer, SerialNode};
use sat_node::{Held, Kept, Names};
use sat_opened::serial_journal;
use sat_parts::{GearAct, GearAnswer, GearInput, GearNode, HubAct, HubAnswer, HubInput, HubNode};
use sat_parts_opened::{gear_entries, hub_entries};
use sat_session::{Noted, Session};
use std::alloc::{AllocError, Global};
use std::slice::from_ref;

/// What all nodes kept: hub by hub, then gear by gear, then serializer by serializer.
pub(crate) fn part_notes<N: Laid, W: Names>(
    alloc: Global,
    hubs: &[Held<HubNode<N>, W>],
    gears: &[Held<GearNode<N>, W>],
    serials: &[Held<SerialNode<N>, W>],
) -> Result<Vec<Filed>, AllocError>
    ensures { IfOk result (λ list. list.items ≡ part_notes hubs.now gears.now serials.now) }
{
    let mut list = Vec::new(alloc);
    add_hubs(alloc, &mut list, hubs)?;
    add_gears(alloc, &mut list, gears)?;
    add_serials(alloc, &mut list, serials)?;
    Ok(list)
}

// ---- of hubs

fn add_hubs<N: Laid, W: Names>(
    alloc: Global,
    list: &mut Vec<Filed>,
    hubs: &[Held<HubNode<N>, W>],
) -> Result<(), AllocError>
    ensures { OnOk result (list.new.items ≡ list.old.items ++ flat_map notes_at_hub hubs.now) }
{
    for hub in hubs {
        add_hub(alloc, list, hub)?;
    }
    Ok(())
}

fn add_hub<N: Laid, W: Names>(
    alloc: Global,
    list: &mut Vec<Filed>,
    held: &Held<HubNode<N>, W>,
) -> Result<(), AllocError>
    ensures { OnOk result (list.new.items ≡ list.old.items ++ notes_at_hub held.now) }
{
    let node = held.node();
    add_hub_notes(alloc, list, node.name(), node.journal())
}

fn add_hub_notes<N: Laid>(
    alloc: Global,
    list: &mut Vec<Filed>,
    name: NodeName,
    journal: &[Kept<HubAct<N>, HubAnswer>],
) -> Result<(), AllocError>
    ensures { OnOk result (list.new.items ≡ list.old.items ++ flat_map (hub_owned name) journal.now) }
{
    for kept in journal {
        add_hub_note(alloc, list, name, kept)?;
    }
    Ok(())
}

// One more note, if an entry of a hub is of a session.
fn add_hub_note<N: Laid>(
    alloc: Global,
    list: &mut Vec<Filed>,
    name: NodeName,
    kept: &Kept<HubAct<N>, HubAnswer>,
) -> Result<(), AllocError>
    ensures { OnOk result (list.new.items ≡ list.old.items ++ hub_owned name kept.now) }
{
    let Some(client) = hub_owner(kept.input.by(), kept.input.input()) else {
        return Ok(());
    };
    let entry = hub_entry(alloc, site_in(name), kept)?;
    let noted = Noted {
        lamport: kept.lamport,
        at: Some(name),
        carried: hub_carried(kept.input.input()),
        entry,
    };
    list.push(Filed::new(client, noted))?;
    Ok(())
}

// An entry of a hub, as an act by name.
#[tactic(auto, using(crate::proofs::Loops::hub_first, crate::proofs::Loops::hub_some))]
fn hub_entry<N: Laid>(
    alloc: Global,
    site: u16,
    kept: &Kept<HubAct<N>, HubAnswer>,
) -> Result<Entry, AllocError>
    ensures { IfOk result (λ entry. entry ≡ entry_of (hub_kept site kept.now)) }
{
    let entries = hub_entries(alloc, site, from_ref(kept))?;
    let Some(only) = first_of(entries.as_slice()) else {
        unreachable!()
    };
    let entry = only.1.copy()?;
    Ok(entry)
}

fn first_of(entries: &[(u64, Entry, bool)]) -> Option<&(u64, Entry, bool)>
    ensures { MatchOption result (length entries.now ≤ 0) (λ e. slice_get entries.now 0 ≡ Some e.now) }
{
    entries.get(0)
}

// Whose session keeps an entry of a hub too: that of a client, the operator's, or none.
fn hub_owner(by: Option<u16>, input: &HubInput) -> Option<Option<u16>>
    ensures { option_map owner_in result ≡ hub_owner by input.now }
{
    match by {
        Some(client) => Some(Some(client)),
        None => hub_operator(input),
    }
}

fn hub_operator(input: &HubInput) -> Option<Option<u16>>
    ensures { option_map owner_in result ≡ hub_owner None input.now }
{
    match input {
        HubInput::Attach { .. } => None,
        HubInput::Gather { .. } => None,
        HubInput::Emit => None,
        HubInput::Pulse => None,
        HubInput::Turn { .. } => None,
        HubInput::Bulk { .. } => None,
        HubInput::Beat { .. } => None,
        HubInput::BeatIn { .. } => None,
        HubInput::Stamp => None,
        HubInput::Close => Some(None),
        HubInput::Fall => Some(None),
        HubInput::Advance => None,
    }
}

// What a client carried when it attached; nothing where it is no client's act.
fn hub_carried(input: &HubInput) -> Carried
    ensures { result ≡ hub_carried input.now }
{
    match input {
        HubInput::Attach { carried } => *carried,
        HubInput::Gather { .. } => nothing_carried(),
        HubInput::Emit => nothing_carried(),
        HubInput::Pulse => nothing_carried(),
        HubInput::Turn { .. } => nothing_carried(),
        HubInput::Bulk { .. } => nothing_carried(),
        HubInput::Beat { .. } => nothing_carried(),
        HubInput::BeatIn { .. } => nothing_carried(),
        HubInput::Stamp => nothing_carried(),
        HubInput::Close => nothing_carried(),
        HubInput::Fall => nothing_carried(),
        HubInput::Advance => nothing_carried(),
    }
}

// What an operator carries.
fn nothing_carried() -> Carried
    ensures { result ≡ nothing_carried }
{
    Carried {
        point: Point::zero(),
        moving: None,
    }
}

// ---- of gears

fn add_gears<N: Laid, W: Names>(
    alloc: Global,
    list: &mut Vec<Filed>,
    gears: &[Held<GearNode<N>, W>],
) -> Result<(), AllocError>
    ensures { OnOk result (list.new.items ≡ list.old.items ++ flat_map notes_at_gear gears.now) }
{
    for gear in gears {
        add_gear(alloc, list, gear)?;
    }
    Ok(())
}

fn add_gear<N: Laid, W: Names>(
    alloc: Global,
    list: &mut Vec<Filed>,
    held: &Held<GearNode<N>, W>,
) -> Result<(), AllocError>
    ensures { OnOk result (list.new.items ≡ list.old.items ++ notes_at_gear held.now) }
{
    let node = held.node();
    add_gear_notes(alloc, list, node.name(), node.journal())
}

fn add_gear_notes<N: Laid>(
    alloc: Global,
    list: &mut Vec<Filed>,
    name: NodeName,
    journal: &[Kept<GearAct<N>, GearAnswer>],
) -> Result<(), AllocError>
    ensures { OnOk result (list.new.items ≡ list.old.items ++ flat_map (gear_owned name) journal.now) }
{
    for kept in journal {
        add_gear_note(alloc, list, name, kept)?;
    }
    Ok(())
}

// One more note, if an entry of a gear is of a session.
fn add_gear_note<N: Laid>(
    alloc: Global,
    list: &mut Vec<Filed>,
    name: NodeName,
    kept: &Kept<GearAct<N>, GearAnswer>,
) -> Result<(), AllocError>
    ensures { OnOk result (list.new.items ≡ list.old.items ++ gear_owned name kept.now) }
{
    match kept.input.by() {
        None => Ok(()),
        Some(client) => add_clients(alloc, list, name, client, kept),
    }
}

// That of a client, if it is an act of the gear's own.
fn add_clients<N: Laid>(
    alloc: Global,
    list: &mut Vec<Filed>,
    name: NodeName,
    client: u16,
    kept: &Kept<GearAct<N>, GearAnswer>,
) -> Result<(), AllocError>
    requires { kept.now.input.by ≡ Some client }
    ensures { OnOk result (list.new.items ≡ list.old.items ++ gear_owned name kept.now) }
{
    let found = own_entry(alloc, site_in(name), gear_in(name), kept)?;
    match found {
        None => Ok(()),
        Some(entry) => {
            let noted = Noted {
                lamport: kept.lamport,
                at: Some(name),
                carried: gear_carried(kept.input.input()),
                entry,
            };
            list.push(Filed::new(Some(client), noted))?;
            Ok(())
        }
    }
}

// An entry of a gear, as an act by name, if it is one of the gear's own.
#[tactic(auto, using(crate::proofs::Loops::own_first, crate::proofs::Loops::own_none))]
fn own_entry<N: Laid>(
    alloc: Global,
    site: u16,
    gear: u16,
    kept: &Kept<GearAct<N>, GearAnswer>,
) -> Result<Option<Entry>, AllocError>
    ensures { IfOk result (λ found. MatchOption found (is_own_line kept.now ≡ false)
        (λ entry. (is_own_line kept.now ≡ true) × (entry ≡ entry_of (gear_kept site gear kept.now)))) }
{
    let entries = gear_entries(alloc, site, gear, from_ref(kept))?;
    let Some(own) = first_of(entries.as_slice()) else {
        return Ok(None);
    };
    let entry = own.1.copy()?;
    Ok(Some(entry))
}

// What a client carried when it wrote, read or moved; nothing where it is no client's act.
fn gear_carried(input: &GearInput) -> Carried
    ensures { result ≡ gear_carried input.now }
{
    match input {
        GearInput::Tick { .. } => nothing_carried(),
        GearInput::Write { carried, .. } => *carried,
        GearInput::Read { carried, .. } => *carried,
        GearInput::Move { carried, .. } => *carried,
        GearInput::Drain { .. } => nothing_carried(),
        GearInput::Show { .. } => nothing_carried(),
    }
}

// The site of a hub or of a gear; of a serializer 0.
pub(crate) fn site_in(name: NodeName) -> u16
    ensures { result ≡ number_of name }
{
    match name {
        NodeName::Site(site) => site,
        NodeName::Serializer { .. } => 0,
        NodeName::Gear { site, .. } => site,
    }
}

// The number of a gear at its site; of another node 0.
pub(crate) fn gear_in(name: NodeName) -> u16
    ensures { result ≡ gear_number name }
{
    match name {
        NodeName::Site(_) => 0,
        NodeName::Serializer { .. } => 0,
        NodeName::Gear { gear, .. } => gear,
    }
}

// ---- of serializers

fn add_serials<N: Laid, W: Names>(
    alloc: Global,
    list: &mut Vec<Filed>,
    serials: &[Held<SerialNode<N>, W>],
) -> Result<(), AllocError>
    ensures { OnOk result (list.new.items ≡ list.old.items ++ flat_map notes_at_serial serials.now) }
{
    for serial in serials {
        add_serial(alloc, list, serial)?;
    }
    Ok(())
}

fn add_serial<N: Laid, W: Names>(
    alloc: Global,
    list: &mut Vec<Filed>,
    held: &Held<SerialNode<N>, W>,
) -> Result<(), AllocError>
    ensures { OnOk result (list.new.items ≡ list.old.items ++ notes_at_serial held.now) }
{
    let entries = serial_journal(alloc, held)?;
    let node = held.node();
    add_serial_notes(list, node.name(), node.journal(), entries.as_slice())
}

fn add_serial_notes(
    list: &mut Vec<Filed>,
    name: NodeName,
    journal: &[Kept<SerialAct, SerialAnswer>],
    entries: &[(u64, Entry)],
) -> Result<(), AllocError>
    requires { entries.now ≡ map (kept_under (serial_kept (epoch_in name) (serial_in name))) journal.now }
    ensures { OnOk result (list.new.items ≡ list.old.items ++ serial_notes name journal.now) }
{
    for (place, kept) in journal.iter().enumerate() {
        add_serial_note(list, name, kept, &entries[place].1)?;
    }
    Ok(())
}

// A kill is the operator's, and nothing else of a serializer is a session's.
fn add_serial_note(
    list: &mut Vec<Filed>,
    name: NodeName,
    kept: &Kept<SerialAct, SerialAnswer>,
    entry: &Entry,
) -> Result<(), AllocError>
    requires { entry.now ≡ entry_of (serial_kept (epoch_in name) (serial_in name) kept.now) }
    ensures { OnOk result (list.new.items ≡ list.old.items
        ++ owned_by (serial_owner kept.now.input) (serial_note name kept.now)) }
{
    match kept.input {
        SerialAct::Hop { .. } => Ok(()),
        SerialAct::Kill => {
            let entry = entry.copy()?;
            let noted = Noted {
                lamport: kept.lamport,
                at: Some(name),
                carried: nothing_carried(),
                entry,
            };
            list.push(Filed::new(None, noted))?;
            Ok(())
        }
    }
}

// ---- of sessions

/// What all sessions kept of their acts at nodes.
pub(crate) fn session_notes<N: Laid>(
    alloc: Global,
    d: &Deployment,
    sessions: &[Session<N>],
) -> Result<Vec<Filed>, AllocError>
    requires { N.deployment ≡ d.now }
    ensures { IfOk result (λ list. list.items ≡ session_notes N.deployment sessions.now) }
{
    let mut list = Vec::new(alloc);
    for session in sessions {
        let client = client_at(d, session.number());
        add_notes(&mut list, client, session.noted())?;
    }
    Ok(list)
}

// The client of a session's number, none for the operator's.
fn client_at(d: &Deployment, number: u16) -> Option<u16>
    ensures { owner_in result ≡ session_at d.now number }
{
    if (number as usize) < d.clients().len() {
        Some(number)
    } else {
        None
    }
}

fn add_notes(list: &mut Vec<Filed>, client: Option<u16>, notes: &[Noted]) -> Result<(), AllocError>
    ensures { OnOk result (list.new.items ≡ list.old.items ++ own_notes (owner_in client) notes.now) }
{
    for noted in notes {
        add_note(list, client, noted)?;
    }
    Ok(())
}

// One that stands at a node.
fn add_note(list: &mut Vec<Filed>, client: Option<u16>, noted: &Noted) -> Result<(), AllocError>
    ensures { OnOk result (list.new.items ≡ list.old.items ++ at_node (owner_in client) noted.now noted.now.at) }
{
    match noted.at {
        None => Ok(()),
        Some(_) => {
            let copy = copy_noted(noted)?;
            list.push(Filed::new(client, copy))?;
            Ok(())
        }
    }
}
