//! What a gear does with what it is handed.
ghost use Rattle.std.specs.Prelude.{◌≡◌, ◌<◌, ◌≤◌, ◌%◌, ◌==◌, ◌&&◌, true, false, drop, length, map, IfOk, OnOk, OnErr};
ghost use Rattle.std.specs.List.{list_all};
ghost use Rattle.sat_label.specs.Grouped.{least_item, list_of};
ghost use Rattle.sat_gear.specs.Gear.{AreItemsOf, IsItemOf, drained_of};
ghost use Rattle.sat_gear.specs.Lanes.{count_of};
ghost use Rattle.sat_hub.specs.Inputs.{is_carried_here, is_group_here, is_item_here, is_site_here};
ghost use Rattle.sat_parts.specs.declared.gear_input.GearInput.TheVariants as handed;
ghost use Rattle.sat_parts.specs.GearSteps.{counts_eq, drained_eq, gear_after, gear_answers, gear_may_fail, gear_takes};
ghost use Rattle.sat_parts.specs.GearSteps.{is_of, is_read, keeps_here, labels_eq, move_after, move_answer};
ghost use Rattle.sat_parts.specs.GearSteps.{read_answer, write_after, write_answer};

use crate::gear_input::{GearInput, ShownBy};
use crate::shows::{is_of, may_show, show, show_items};
use sat_act::{Answer, Refusal};
use sat_bulk::{Drained, Payload};
use sat_gear::{Gear, GearFault};
use sat_hub::{is_carried, is_here, is_move, is_read, is_write, keeps_all};
use sat_label::{Carried, Items, Label, TS_END, Value, Values};
use sat_machines::copy_plain;
use sat_sites::Shape;
use std::alloc::AllocError;

// ---- what it gives to a gather

// Whether two lists hold the same labels.
fn same_labels(a: &[Label], b: &[Label]) -> bool
    ensures { result ≡ labels_eq a.now b.now }
{
    match (a.split_first(), b.split_first()) {
        (None, None) => true,
        (None, Some(_)) => false,
        (Some(_), None) => false,
        (Some((first, rest)), Some((other, others))) => {
            first.is_same(other) && same_labels(rest, others)
        }
    }
}

// Whether these are how many payloads the lanes of a gear hold, from that of a site on.
#[tactic(auto, using(crate::proofs::GearCode::counts_none, crate::proofs::GearCode::counts_more))]
fn same_counts(gear: &Gear, sites: u16, to: u16, counts: &[u64]) -> bool
    requires sites { length gear.now.lanes ≡ sites }
    requires shape { sites ≡ gear.now.shape.sites }
    requires to { to ≤ sites }
    ensures { result ≡ counts_eq counts.now (drop to (map count_of gear.now.lanes)) }
{
    match counts.split_first() {
        None => to == sites,
        Some((count, rest)) => {
            if to == sites {
                return false;
            }
            *count == gear.made_for(to) && same_counts(gear, sites, to + 1, rest)
        }
    }
}

// Whether this is what the gear gives to a gather.
fn is_drained(gear: &Gear, sites: u16, given: &Drained) -> bool
    requires { sites ≡ gear.now.shape.sites }
    ensures { result ≡ drained_eq given.now (drained_of gear.now) }
{
    if given.promise != gear.promise() {
        return false;
    }
    same_labels(given.labels.as_slice(), gear.fresh())
        && same_counts(gear, sites, 0, given.counts.as_slice())
}

// ---- which inputs it takes

// Whether a client may write this, and the least item is one of the gear with this number.
fn may_write(shape: &Shape, number: u16, carried: &Carried, items: &Items, values: &Values) -> bool
    requires { 0 < shape.now.gears }
    ensures { result
        ≡ ((is_carried_here shape.now carried.now
        && (is_group_here shape.now items.now && (length values.now == length (list_of items.now))))
        && (least_item (list_of items.now) % shape.now.gears == number)) }
{
    is_write(shape, carried, items, values) && is_of(shape, number, items.least())
}

// Whether a client may read this, and the item is one of the gear with this number.
fn may_read(shape: &Shape, number: u16, carried: &Carried, item: u16) -> bool
    requires { 0 < shape.now.gears }
    ensures { result
        ≡ ((is_carried_here shape.now carried.now && is_item_here shape.now item)
        && (item % shape.now.gears == number)) }
{
    is_read(shape, carried, item) && is_of(shape, number, item)
}

// Whether a client may move to a site, and this is the number of gear 0.
fn may_move(shape: &Shape, number: u16, carried: &Carried, to: u16) -> bool
    ensures { result
        ≡ ((is_carried_here shape.now carried.now && is_site_here shape.now to) && (0 == number)) }
{
    is_move(shape, carried, to) && 0 == number
}

/// Whether the gear of this shape and number may be handed an input. It takes no memory.
pub fn takes(gear: &Gear, shape: &Shape, number: u16, input: &GearInput) -> bool
    requires shape { shape.now ≡ gear.now.shape }
    requires number { number ≡ gear.now.gear }
    ensures { result ≡ gear_takes gear.now input.now }
{
    let _ = gear.promise();
    match input {
        GearInput::Tick { ts } => *ts <= TS_END,
        GearInput::Write {
            carried,
            items,
            values,
        } => may_write(shape, number, carried, items, values),
        GearInput::Read { carried, item } => may_read(shape, number, carried, *item),
        GearInput::Move { carried, to } => may_move(shape, number, carried, *to),
        GearInput::Drain { drained, .. } => is_drained(gear, shape.sites, drained),
        GearInput::Show { by, payload } => may_show(shape, *by, payload),
    }
}

// ---- its step

// Does a client's write of items, the least of which is the gear's.
fn write(
    gear: &mut Gear,
    shape: &Shape,
    number: u16,
    carried: Carried,
    items: Items,
    values: &[Value],
) -> Result<Answer, AllocError>
    requires shape { shape.now ≡ gear.old.shape }
    requires number { number ≡ gear.old.gear }
    requires takes { gear_takes gear.old (handed.Write carried items values.now) ≡ true }
    ensures answer { IfOk result (λ answer. answer
        ≡ write_answer (list_all (keeps_here gear.old) (list_of items)) gear.old carried.point items) }
    ensures after { OnOk result (gear.new
        ≡ write_after (list_all (keeps_here gear.old) (list_of items)) gear.old carried.point items values.now) }
    ensures err { OnErr result (gear.new ≡ gear.old) }
{
    if !keeps_all(shape, &items) {
        return Ok(Answer::Refused(Refusal::NotHere));
    }
    match gear.stamp_write(carried.point, items, values) {
        Ok(made) => {
            let label = made.label();
            show_items(gear, shape, number, items, made);
            Ok(Answer::Wrote(label))
        }
        Err(GearFault::Spent) => Ok(Answer::Refused(Refusal::Spent)),
        Err(GearFault::Memory) => Err(AllocError),
    }
}

// Answers a client's read.
fn read(gear: &Gear, shape: &Shape, number: u16, item: u16) -> Result<Answer, AllocError>
    requires shape { shape.now ≡ gear.now.shape }
    requires number { number ≡ gear.now.gear }
    requires item { item < length gear.now.shape.interest.replicas }
    requires own { is_of gear.now item ≡ true }
    ensures { IfOk result (λ answer. answer ≡ read_answer (keeps_here gear.now item) gear.now item) }
{
    if !is_here(shape, item) {
        return Ok(Answer::Refused(Refusal::NotHere));
    }
    let Some(version) = gear.read(item) else {
        return Ok(Answer::ReadNone);
    };
    let value = version.value().copy()?;
    Ok(Answer::ReadSome {
        label: version.label(),
        value,
    })
}

// Does a client's move to another site.
fn move_to(gear: &mut Gear, shape: &Shape, carried: Carried, to: u16) -> Result<Answer, AllocError>
    requires shape { shape.now ≡ gear.old.shape }
    requires first { gear.old.gear ≡ 0 }
    requires to { to < gear.old.shape.sites }
    ensures answer { IfOk result (λ answer. answer ≡ move_answer (to == gear.old.shape.site) gear.old carried to) }
    ensures after { OnOk result (gear.new ≡ move_after (to == gear.old.shape.site) gear.old carried to) }
    ensures err { OnErr result (gear.new ≡ gear.old) }
{
    if to == shape.site {
        return Ok(Answer::Refused(Refusal::SameSite));
    }
    match gear.stamp_move(carried.point, to) {
        Ok(label) => Ok(Answer::Moved(label)),
        Err(GearFault::Spent) => Ok(Answer::Refused(Refusal::Spent)),
        Err(GearFault::Memory) => Err(AllocError),
    }
}

// Shows its part of another node's act, and answers it.
fn show_part_of(
    gear: &mut Gear,
    shape: &Shape,
    number: u16,
    by: ShownBy,
    payload: Payload,
) -> Answer
    requires shape { shape.now ≡ gear.old.shape }
    requires number { number ≡ gear.old.gear }
    requires takes { gear_takes gear.old (handed.Show by payload) ≡ true }
    ensures answer { result ≡ gear_answers gear.old (handed.Show by payload) }
    ensures after { gear.new ≡ gear_after gear.old (handed.Show by payload) }
{
    let label = payload.label();
    show(gear, shape, number, by, payload);
    match by {
        ShownBy::Turn => Answer::Shown(label),
        ShownBy::Stamp => Answer::Shown(label),
        ShownBy::Write => Answer::Wrote(label),
    }
}

// Does one act but a read, and answers it. It takes no memory in a tick, nor in a part of another node's act; for
// want of memory the gear is as before.
fn act(gear: &mut Gear, shape: &Shape, number: u16, input: GearInput) -> Result<Answer, AllocError>
    requires shape { shape.now ≡ gear.old.shape }
    requires number { number ≡ gear.old.gear }
    requires takes { gear_takes gear.old input ≡ true }
    requires plain { is_read input ≡ false }
    ensures answer { IfOk result (λ answer. answer ≡ gear_answers gear.old input) }
    ensures after { OnOk result (gear.new ≡ gear_after gear.old input) }
    ensures err { OnErr result ((gear.new ≡ gear.old) × (gear_may_fail input ≡ true)) }
{
    match input {
        GearInput::Tick { ts } => Ok(Answer::Ticked(gear.tick(ts))),
        GearInput::Write {
            carried,
            items,
            values,
        } => write(gear, shape, number, carried, items, values.as_slice()),
        GearInput::Read { .. } => unreachable!(),
        GearInput::Move { carried, to } => move_to(gear, shape, carried, to),
        GearInput::Drain {
            drained: _,
            labels,
            stable,
        } => {
            gear.drained();
            Ok(Answer::Gathered { labels, stable })
        }
        GearInput::Show { by, payload } => Ok(show_part_of(gear, shape, number, by, payload)),
    }
}

/// An answer, with its copy.
#[derive(Drop)]
pub struct Twice {
    pub answer: Answer,
    pub again: Answer,
}

// Answers a read, with a copy.
fn read_twice(gear: &Gear, shape: &Shape, number: u16, item: u16) -> Result<Twice, AllocError>
    requires shape { shape.now ≡ gear.now.shape }
    requires number { number ≡ gear.now.gear }
    requires item { item < length gear.now.shape.interest.replicas }
    requires own { is_of gear.now item ≡ true }
    ensures answer { IfOk result (λ t. t.answer ≡ read_answer (keeps_here gear.now item) gear.now item) }
    ensures again { IfOk result (λ t. t.again ≡ t.answer) }
{
    let answer = read(gear, shape, number, item)?;
    let again = answer.copy()?;
    Ok(Twice { answer, again })
}

// Does what is no read, and has an answer without a list.
fn plain(gear: &mut Gear, shape: &Shape, number: u16, input: GearInput) -> Result<Twice, AllocError>
    requires shape { shape.now ≡ gear.old.shape }
    requires number { number ≡ gear.old.gear }
    requires takes { gear_takes gear.old input ≡ true }
    requires plain { is_read input ≡ false }
    ensures answer { IfOk result (λ t. t.answer ≡ gear_answers gear.old input) }
    ensures again { IfOk result (λ t. t.again ≡ t.answer) }
    ensures after { OnOk result (gear.new ≡ gear_after gear.old input) }
    ensures err { OnErr result ((gear.new ≡ gear.old) × (gear_may_fail input ≡ true)) }
{
    let answer = act(gear, shape, number, input)?;
    let again = copy_plain(&answer);
    Ok(Twice { answer, again })
}

/// Does one act, and answers it twice. A read changes nothing, so its copy is made after it.
pub fn step_twice(
    gear: &mut Gear,
    shape: &Shape,
    number: u16,
    input: GearInput,
) -> Result<Twice, AllocError>
    requires shape { shape.now ≡ gear.old.shape }
    requires number { number ≡ gear.old.gear }
    requires takes { gear_takes gear.old input ≡ true }
    ensures answer { IfOk result (λ t. t.answer ≡ gear_answers gear.old input) }
    ensures again { IfOk result (λ t. t.again ≡ t.answer) }
    ensures after { OnOk result (gear.new ≡ gear_after gear.old input) }
    ensures err { OnErr result ((gear.new ≡ gear.old) × (gear_may_fail input ≡ true)) }
{
    match input {
        GearInput::Read { carried: _, item } => read_twice(&*gear, shape, number, item),
        other => plain(gear, shape, number, other),
    }
}
