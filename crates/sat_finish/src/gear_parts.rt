//! The parts of gears in the journals of gears: of another gear in writes of several items, and of the gear itself.
ghost use Rattle.std.specs.Prelude.{ℕ, ◌≡◌, ◌≢◌, ◌≤◌, ◌++◌, false, [], ◌∷◌, Some, slice_get, IfOk, OnOk, MatchOption};
ghost use Rattle.std.specs.List.{flat_map};
ghost use Rattle.sat_act.specs.declared.answer.Answer.TheVariants.{Wrote};
ghost use Rattle.sat_model.specs.Next.{payload_at};
ghost use Rattle.sat_hub_laws.specs.Changes.{input_is_own};
ghost use Rattle.sat_hub_laws.specs.Gears.{shown_act, write_act};
ghost use Rattle.sat_hub_laws.specs.Parts.{same_home, written_at};
ghost use Rattle.sat_parts.specs.Acts.{client_in, gear_handed, shown_in};
ghost use Rattle.sat_parts_opened.specs.Collected.{write_gives};
ghost use Rattle.sat_finish.specs.declared.joint.Given.TheVariants as given;
ghost use Rattle.sat_finish.specs.Marks.{HandedMarks, WrittenMarks, read_as, read_at};
ghost use Rattle.sat_finish.specs.Parts.{kept_part, part_if, payload_given, written_part};
ghost use Rattle.sat_finish.specs.Walking.{parts_in, parts_of};

use crate::acts::{client_number, shown_act, written};
use crate::hub_parts::add;
use crate::joint::Given;
use crate::part::Part;
use crate::shown::is_beside;
use sat_act::{Act, Answer, Deployment};
use sat_bulk::{Drained, Payload};
use sat_label::{Items, Label, Values};
use sat_machines::Laid;
use sat_node::Kept;
use sat_parts::{GearAct, GearAnswer, GearInput, ShownBy};
use std::alloc::{AllocError, Global};

// ---- at another gear, which is the home

/// The parts of a gear in the journal of another gear of its site, the home, the oldest first. It reads the marked
/// places alone.
pub(crate) fn written_parts<N: Laid>(
    alloc: Global,
    d: &Deployment,
    site: u16,
    home: u16,
    gear: u16,
    journal: &[Kept<GearAct<N>, GearAnswer>],
    marks: &[usize],
) -> Result<Vec<Part>, AllocError>
    requires { WrittenMarks journal.now marks.now }
    ensures { IfOk result (λ list. list.items ≡ flat_map (written_part d.now site home gear) journal.now) }
{
    let mut list = Vec::new(alloc);
    add_written(alloc, &mut list, d, site, home, gear, journal, marks)?;
    Ok(list)
}

fn add_written<N: Laid>(
    alloc: Global,
    list: &mut Vec<Part>,
    d: &Deployment,
    site: u16,
    home: u16,
    gear: u16,
    journal: &[Kept<GearAct<N>, GearAnswer>],
    marks: &[usize],
) -> Result<(), AllocError>
    ensures { OnOk result (list.new.items
        ≡ list.old.items ++ read_at (written_part d.now site home gear) journal.now marks.now) }
{
    for mark in marks {
        add_written_at(alloc, list, d, site, home, gear, journal, *mark)?;
    }
    Ok(())
}

fn add_written_at<N: Laid>(
    alloc: Global,
    list: &mut Vec<Part>,
    d: &Deployment,
    site: u16,
    home: u16,
    gear: u16,
    journal: &[Kept<GearAct<N>, GearAnswer>],
    mark: usize,
) -> Result<(), AllocError>
    ensures { OnOk result (list.new.items
        ≡ list.old.items ++ read_as (written_part d.now site home gear) (slice_get journal.now mark)) }
{
    match journal.get(mark) {
        None => Ok(()),
        Some(kept) => add_one_written(alloc, list, d, site, home, gear, kept),
    }
}

fn add_one_written<N: Laid>(
    alloc: Global,
    list: &mut Vec<Part>,
    d: &Deployment,
    site: u16,
    home: u16,
    gear: u16,
    kept: &Kept<GearAct<N>, GearAnswer>,
) -> Result<(), AllocError>
    ensures { OnOk result (list.new.items ≡ list.old.items ++ written_part d.now site home gear kept.now) }
{
    let found = written_of(alloc, d, site, home, gear, kept)?;
    add(list, found)
}

// The part of a gear in an entry of another one, if it has one.
#[tactic(auto, using(crate::proofs::Parted::written_by, crate::proofs::Parted::ok_as))]
fn written_of<N: Laid>(
    alloc: Global,
    d: &Deployment,
    site: u16,
    home: u16,
    gear: u16,
    kept: &Kept<GearAct<N>, GearAnswer>,
) -> Result<Option<Part>, AllocError>
    ensures { IfOk result (λ o. parts_in o ≡ written_part d.now site home gear kept.now) }
{
    match kept.input.input() {
        GearInput::Write {
            carried: _,
            items,
            values,
        } => in_write(alloc, d, site, gear, *items, values, kept),
        GearInput::Tick { ts: _ } => Ok(None),
        GearInput::Read { .. } => Ok(None),
        GearInput::Move { .. } => Ok(None),
        GearInput::Drain { .. } => Ok(None),
        GearInput::Show { .. } => Ok(None),
    }
}

// In a write of these items.
fn in_write<N: Laid>(
    alloc: Global,
    d: &Deployment,
    site: u16,
    gear: u16,
    items: Items,
    values: &Values,
    kept: &Kept<GearAct<N>, GearAnswer>,
) -> Result<Option<Part>, AllocError>
    ensures { IfOk result (λ o. parts_in o ≡ part_if (write_gives d.now site gear items kept.now.answer.answer)
        (record {
          lamport = kept.now.lamport;
          entry = record {
            act = write_act (client_in kept.now.input.by) items values.now;
            answer = kept.now.answer.answer;
            inner = false;
          };
          given = payload_given values.now kept.now.answer.answer;
        })) }
{
    match &kept.answer.answer {
        Answer::Wrote(label) => in_wrote(alloc, d, site, gear, items, values, *label, kept),
        _ => Ok(None),
    }
}

// In one that was done: the payload that was written.
fn in_wrote<N: Laid>(
    alloc: Global,
    d: &Deployment,
    site: u16,
    gear: u16,
    items: Items,
    values: &Values,
    label: Label,
    kept: &Kept<GearAct<N>, GearAnswer>,
) -> Result<Option<Part>, AllocError>
    ensures { IfOk result (λ o. parts_in o ≡ part_if (write_gives d.now site gear items (Wrote label))
        (record {
          lamport = kept.now.lamport;
          entry = record {
            act = write_act (client_in kept.now.input.by) items values.now;
            answer = kept.now.answer.answer;
            inner = false;
          };
          given = given.Shown (payload_at label values.now);
        })) }
{
    if !is_beside(d, site, gear, items) {
        return Ok(None);
    }
    let payload = Payload::new(alloc, label, values.as_slice())?;
    let client = client_number(kept.input.by());
    let act = written(client, items, values)?;
    let part = Part::new(
        kept.lamport,
        act,
        &kept.answer.answer,
        Given::Shown(payload),
    )?;
    Ok(Some(part))
}

// ---- at the gear itself

/// The parts that a gear of a site kept of acts of a home there, the oldest first: of another gear, or of the hub.
pub(crate) fn kept_parts<N: Laid>(
    alloc: Global,
    site: u16,
    home: Option<u16>,
    journal: &[Kept<GearAct<N>, GearAnswer>],
) -> Result<Vec<Part>, AllocError>
    ensures { IfOk result (λ list. (g : ℕ) → list.items ≡ flat_map (kept_part site g home) journal.now) }
{
    let mut list = Vec::new(alloc);
    add_kept(alloc, &mut list, site, home, journal)?;
    Ok(list)
}

#[tactic(auto, using(sat_parts_opened::proofs::Loops::one_more))]
fn add_kept<N: Laid>(
    alloc: Global,
    list: &mut Vec<Part>,
    site: u16,
    home: Option<u16>,
    journal: &[Kept<GearAct<N>, GearAnswer>],
) -> Result<(), AllocError>
    ensures { OnOk result ((g : ℕ) → list.new.items
        ≡ list.old.items ++ flat_map (kept_part site g home) journal.now) }
{
    for kept in journal {
        add_one_kept(alloc, list, site, home, kept)?;
    }
    Ok(())
}

/// The parts that a gear of a site kept of acts of another gear there, the oldest first. It reads the marked places
/// alone.
pub(crate) fn handed_parts<N: Laid>(
    alloc: Global,
    site: u16,
    home: u16,
    journal: &[Kept<GearAct<N>, GearAnswer>],
    marks: &[usize],
) -> Result<Vec<Part>, AllocError>
    requires { HandedMarks journal.now marks.now }
    ensures { IfOk result (λ list. (g : ℕ) → list.items ≡ flat_map (kept_part site g (Some home)) journal.now) }
{
    let mut list = Vec::new(alloc);
    add_handed(alloc, &mut list, site, home, journal, marks)?;
    Ok(list)
}

fn add_handed<N: Laid>(
    alloc: Global,
    list: &mut Vec<Part>,
    site: u16,
    home: u16,
    journal: &[Kept<GearAct<N>, GearAnswer>],
    marks: &[usize],
) -> Result<(), AllocError>
    ensures { OnOk result ((g : ℕ) → list.new.items
        ≡ list.old.items ++ read_at (kept_part site g (Some home)) journal.now marks.now) }
{
    for mark in marks {
        add_handed_at(alloc, list, site, home, journal, *mark)?;
    }
    Ok(())
}

fn add_handed_at<N: Laid>(
    alloc: Global,
    list: &mut Vec<Part>,
    site: u16,
    home: u16,
    journal: &[Kept<GearAct<N>, GearAnswer>],
    mark: usize,
) -> Result<(), AllocError>
    ensures { OnOk result ((g : ℕ) → list.new.items
        ≡ list.old.items ++ read_as (kept_part site g (Some home)) (slice_get journal.now mark)) }
{
    match journal.get(mark) {
        None => Ok(()),
        Some(kept) => add_one_kept(alloc, list, site, Some(home), kept),
    }
}

fn add_one_kept<N: Laid>(
    alloc: Global,
    list: &mut Vec<Part>,
    site: u16,
    home: Option<u16>,
    kept: &Kept<GearAct<N>, GearAnswer>,
) -> Result<(), AllocError>
    ensures { OnOk result ((g : ℕ) → list.new.items ≡ list.old.items ++ kept_part site g home kept.now) }
{
    let found = kept_of(alloc, site, home, kept)?;
    add(list, found)
}

// Whether an act with this answer is of a home.
fn is_home(answer: &Answer, home: Option<u16>) -> bool
    ensures { result ≡ same_home (written_at answer.now) home }
{
    match answer {
        Answer::Wrote(label) => is_gear(label.point.gear, home),
        _ => home.is_none(),
    }
}

fn is_gear(gear: u16, home: Option<u16>) -> bool
    ensures { result ≡ same_home (Some gear) home }
{
    match home {
        None => false,
        Some(home) => gear == home,
    }
}

// The part that an entry is, if it is one of an act of this home.
#[tactic(auto, using(crate::proofs::Parted::kept_by, crate::proofs::Parted::kept_not, crate::proofs::Parted::ok_as))]
fn kept_of<N: Laid>(
    alloc: Global,
    site: u16,
    home: Option<u16>,
    kept: &Kept<GearAct<N>, GearAnswer>,
) -> Result<Option<Part>, AllocError>
    ensures { IfOk result (λ o. (g : ℕ) → parts_in o ≡ kept_part site g home kept.now) }
{
    if !is_home(&kept.answer.answer, home) {
        return Ok(None);
    }
    match kept.input.input() {
        GearInput::Drain { drained, .. } => drained_in(site, drained, kept),
        GearInput::Show { by, payload } => shown_in(alloc, site, *by, payload, kept),
        GearInput::Tick { ts: _ } => Ok(None),
        GearInput::Write { .. } => Ok(None),
        GearInput::Read { .. } => Ok(None),
        GearInput::Move { .. } => Ok(None),
    }
}

// In a gather: what the gear gave.
fn drained_in<N: Laid>(
    site: u16,
    drained: &Drained,
    kept: &Kept<GearAct<N>, GearAnswer>,
) -> Result<Option<Part>, AllocError>
    ensures { IfOk result (λ o. parts_in o ≡ (record {
      lamport = kept.now.lamport;
      entry = record { act = Act.Gather site; answer = kept.now.answer.answer; inner = false };
      given = given.Drained drained.now;
    }) ∷ []) }
{
    let copy = drained.copy()?;
    let part = Part::new(
        kept.lamport,
        Act::Gather { site },
        &kept.answer.answer,
        Given::Drained(copy),
    )?;
    Ok(Some(part))
}

// In an act that shows: the payload that it was handed.
fn shown_in<N: Laid>(
    alloc: Global,
    site: u16,
    by: ShownBy,
    payload: &Payload,
    kept: &Kept<GearAct<N>, GearAnswer>,
) -> Result<Option<Part>, AllocError>
    ensures { IfOk result (λ o. parts_in o ≡ (record {
      lamport = kept.now.lamport;
      entry = record {
        act = shown_act site (client_in kept.now.input.by) (shown_in by) payload.now;
        answer = kept.now.answer.answer;
        inner = false;
      };
      given = given.Shown payload.now;
    }) ∷ []) }
{
    let client = client_number(kept.input.by());
    let act = shown_act(alloc, site, client, by, payload)?;
    let copy = payload.copy()?;
    let part = Part::new(kept.lamport, act, &kept.answer.answer, Given::Shown(copy))?;
    Ok(Some(part))
}

// ---- homes that there are not

/// The gear of the first act that a gear kept a part of, where that is none below a number.
#[tactic(auto, using(crate::proofs::Parted::stray_more))]
pub(crate) fn stray<N: Laid>(count: u16, journal: &[Kept<GearAct<N>, GearAnswer>]) -> Option<u16>
    ensures { MatchOption result ((i g h : ℕ) → count ≤ h → parts_of i g h journal.now ≡ [])
        (λ h. (count ≤ h) × ((i g : ℕ) → parts_of i g h journal.now ≢ [])) }
{
    for kept in journal {
        if let Some(home) = stray_at(count, kept) {
            return Some(home);
        }
    }
    None
}

#[tactic(auto, using(crate::proofs::Parted::stray_own, crate::proofs::Parted::stray_hub, crate::proofs::Parted::stray_near, crate::proofs::Parted::stray_far))]
fn stray_at<N: Laid>(count: u16, kept: &Kept<GearAct<N>, GearAnswer>) -> Option<u16>
    ensures { MatchOption result ((i g h : ℕ) → count ≤ h → kept_part i g (Some h) kept.now ≡ [])
        (λ h. (count ≤ h) × ((i g : ℕ) → kept_part i g (Some h) kept.now ≢ [])) }
{
    if is_own(kept.input.input()) {
        return None;
    }
    let home = writer(&kept.answer.answer)?;
    if home < count {
        return None;
    }
    Some(home)
}

// The gear that wrote it, none where it is no write.
fn writer(answer: &Answer) -> Option<u16>
    ensures { result ≡ written_at answer.now }
{
    match answer {
        Answer::Wrote(label) => Some(label.point.gear),
        _ => None,
    }
}

/// Whether an input is an act of the gear's own, and no part of another node's.
pub(crate) fn is_own(input: &GearInput) -> bool
    ensures { result ≡ input_is_own (gear_handed input.now) }
{
    match input {
        GearInput::Tick { ts: _ } => true,
        GearInput::Write { .. } => true,
        GearInput::Read { .. } => true,
        GearInput::Move { .. } => true,
        GearInput::Drain { .. } => false,
        GearInput::Show { .. } => false,
    }
}
