//! The parts of a gear in the journal of its hub.
ghost use Rattle.std.specs.Prelude.{◌≡◌, ◌++◌, false, nat_lt, slice_get, IfOk, OnOk};
ghost use Rattle.std.specs.List.{flat_map};
ghost use Rattle.sat_parts_opened.specs.Collected.{shows_at};
ghost use Rattle.sat_finish.specs.Marks.{HubMarks, read_as, read_at};
ghost use Rattle.sat_finish.specs.Parts.{given_by, hub_part, part_if, shown_by};
ghost use Rattle.sat_finish.specs.Walking.{parts_in};

use crate::joint::Given;
use crate::part::Part;
use crate::shown::shows;
use sat_act::{Act, Deployment};
use sat_bulk::{Drained, Payload};
use sat_machines::Laid;
use sat_node::Kept;
use sat_parts::{HubAct, HubAnswer, HubInput};
use std::alloc::{AllocError, Global};

/// The parts of a gear of a site in the journal of the site's hub, the oldest first. It reads the marked places alone.
pub(crate) fn hub_parts<N: Laid>(
    alloc: Global,
    d: &Deployment,
    site: u16,
    gear: u16,
    journal: &[Kept<HubAct<N>, HubAnswer>],
    marks: &[usize],
) -> Result<Vec<Part>, AllocError>
    requires { HubMarks journal.now marks.now }
    ensures { IfOk result (λ list. list.items ≡ flat_map (hub_part d.now site gear) journal.now) }
{
    let mut list = Vec::new(alloc);
    add_parts(&mut list, d, site, gear, journal, marks)?;
    Ok(list)
}

fn add_parts<N: Laid>(
    list: &mut Vec<Part>,
    d: &Deployment,
    site: u16,
    gear: u16,
    journal: &[Kept<HubAct<N>, HubAnswer>],
    marks: &[usize],
) -> Result<(), AllocError>
    ensures { OnOk result (list.new.items
        ≡ list.old.items ++ read_at (hub_part d.now site gear) journal.now marks.now) }
{
    for mark in marks {
        add_part_at(list, d, site, gear, journal, *mark)?;
    }
    Ok(())
}

fn add_part_at<N: Laid>(
    list: &mut Vec<Part>,
    d: &Deployment,
    site: u16,
    gear: u16,
    journal: &[Kept<HubAct<N>, HubAnswer>],
    mark: usize,
) -> Result<(), AllocError>
    ensures { OnOk result (list.new.items
        ≡ list.old.items ++ read_as (hub_part d.now site gear) (slice_get journal.now mark)) }
{
    match journal.get(mark) {
        None => Ok(()),
        Some(kept) => add_part(list, d, site, gear, kept),
    }
}

fn add_part<N: Laid>(
    list: &mut Vec<Part>,
    d: &Deployment,
    site: u16,
    gear: u16,
    kept: &Kept<HubAct<N>, HubAnswer>,
) -> Result<(), AllocError>
    ensures { OnOk result (list.new.items ≡ list.old.items ++ hub_part d.now site gear kept.now) }
{
    let found = part_of(d, site, gear, kept)?;
    add(list, found)
}

/// Adds a part, if there is one.
pub(crate) fn add(list: &mut Vec<Part>, found: Option<Part>) -> Result<(), AllocError>
    ensures { OnOk result (list.new.items ≡ list.old.items ++ parts_in found) }
{
    match found {
        None => Ok(()),
        Some(part) => {
            list.push(part)?;
            Ok(())
        }
    }
}

// The part of a gear in an entry: of each in a gather, and in a turn and a stamp that show of those of the items.
#[tactic(auto, using(crate::proofs::Parted::hub_by, crate::proofs::Parted::ok_as))]
fn part_of<N: Laid>(
    d: &Deployment,
    site: u16,
    gear: u16,
    kept: &Kept<HubAct<N>, HubAnswer>,
) -> Result<Option<Part>, AllocError>
    ensures { IfOk result (λ o. parts_in o ≡ hub_part d.now site gear kept.now) }
{
    match kept.input.input() {
        HubInput::Gather { drained } => gathered(d, site, gear, drained.as_slice(), kept),
        HubInput::Turn { front: _ } => shown(d, site, gear, Act::Turn { site }, kept),
        HubInput::Stamp => shown(d, site, gear, Act::Stamp { site }, kept),
        HubInput::Attach { carried: _ } => Ok(None),
        HubInput::Emit => Ok(None),
        HubInput::Pulse => Ok(None),
        HubInput::Bulk { .. } => Ok(None),
        HubInput::Beat { to: _ } => Ok(None),
        HubInput::BeatIn { .. } => Ok(None),
        HubInput::Close => Ok(None),
        HubInput::Fall => Ok(None),
        HubInput::Advance => Ok(None),
    }
}

// In a gather: what the gear gave.
fn gathered<N: Laid>(
    d: &Deployment,
    site: u16,
    gear: u16,
    drained: &[Drained],
    kept: &Kept<HubAct<N>, HubAnswer>,
) -> Result<Option<Part>, AllocError>
    ensures { IfOk result (λ o. parts_in o ≡ part_if (nat_lt gear d.now.gears) (record {
      lamport = kept.now.lamport;
      entry = record { act = Act.Gather site; answer = kept.now.answer.answer; inner = false };
      given = given_by (slice_get drained.now gear);
    })) }
{
    if gear >= d.gears() {
        return Ok(None);
    }
    let given = given_at(gear, drained)?;
    let part = Part::new(
        kept.lamport,
        Act::Gather { site },
        &kept.answer.answer,
        given,
    )?;
    Ok(Some(part))
}

// What the gear of this number gave.
fn given_at(gear: u16, drained: &[Drained]) -> Result<Given, AllocError>
    ensures { IfOk result (λ given. given ≡ given_by (slice_get drained.now gear)) }
{
    match drained.get(usize::from(gear)) {
        None => Ok(Given::Nothing),
        Some(drained) => {
            let copy = drained.copy()?;
            Ok(Given::Drained(copy))
        }
    }
}

// In an act that may show: the payload that was shown.
fn shown<N: Laid>(
    d: &Deployment,
    site: u16,
    gear: u16,
    act: Act,
    kept: &Kept<HubAct<N>, HubAnswer>,
) -> Result<Option<Part>, AllocError>
    ensures { IfOk result (λ o. parts_in o ≡ part_if (shows_at d.now site gear kept.now.answer.answer)
        (record {
          lamport = kept.now.lamport;
          entry = record { act = act; answer = kept.now.answer.answer; inner = false };
          given = shown_by kept.now.answer.show;
        })) }
{
    if !shows(d, site, gear, &kept.answer.answer) {
        return Ok(None);
    }
    let given = given_of(&kept.answer.show)?;
    let part = Part::new(kept.lamport, act, &kept.answer.answer, given)?;
    Ok(Some(part))
}

// The payload that was shown, if one was.
fn given_of(show: &Option<Payload>) -> Result<Given, AllocError>
    ensures { IfOk result (λ given. given ≡ shown_by show.now) }
{
    match show {
        None => Ok(Given::Nothing),
        Some(payload) => {
            let copy = payload.copy()?;
            Ok(Given::Shown(copy))
        }
    }
}
