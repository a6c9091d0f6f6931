//! The parts of gears in an act in which their hub shows a payload.
ghost use Rattle.std.specs.Prelude.{◌≡◌, ◌++◌, ◌<◌, true, false, length, map, Some, IfOk, OnOk};
ghost use Rattle.sat_label.specs.Grouped.{list_of};
ghost use Rattle.sat_sites.specs.Interested.{AreBelow};
ghost use Rattle.sat_node.specs.Together.{lent};
ghost use Rattle.sat_parts.specs.declared.gear_input.GearInput.TheVariants as handed;
ghost use Rattle.sat_parts.specs.Acts.{is_shown_clients};
ghost use Rattle.sat_parts.specs.GearSteps.{gear_takes};
ghost use Rattle.sat_parts_passes.specs.Shows.{all_take, may_take, part_if, show_act, show_input, show_part};
ghost use Rattle.sat_parts_passes.specs.Shows.{shows_kind, shows_one};

use sat_bulk::Payload;
use sat_hub::is_here;
use sat_label::{Items, Kind};
use sat_machines::Laid;
use sat_node::{Held, Names, Part};
use sat_parts::{GearAct, GearInput, GearNode, ShownBy};
use sat_sites::Shape;
use std::alloc::{AllocError, Global};
use std::sync::MutexGuard;

// ---- which gears show

// Whether the gear of this number shows one of these items.
fn shows_one(shape: &Shape, number: u16, items: &[u16]) -> bool
    requires gears { 0 < shape.now.gears }
    requires items { AreBelow (length shape.now.interest.replicas) items.now }
    ensures { result ≡ shows_one shape.now number items.now }
{
    match items.split_first() {
        None => false,
        Some((item, rest)) => {
            (*item % shape.gears == number && is_here(shape, *item))
                || shows_one(shape, number, rest)
        }
    }
}

// The same of the items of an update.
fn shows(shape: &Shape, number: u16, items: &Items) -> bool
    requires gears { 0 < shape.now.gears }
    requires items { AreBelow (length shape.now.interest.replicas) (list_of items.now) }
    ensures { result ≡ shows_one shape.now number (list_of items.now) }
{
    match *items {
        Items::One(a) => shows_one(shape, number, &[a]),
        Items::Two(a, b) => shows_one(shape, number, &[a, b]),
        Items::Three(a, b, c) => shows_one(shape, number, &[a, b, c]),
        Items::Four(a, b, c, d) => shows_one(shape, number, &[a, b, c, d]),
    }
}

// Whether a gear that may be handed this payload shows one of its items.
#[tactic(auto, using(crate::proofs::Shown::known_items))]
fn has_part<N: Laid>(node: &GearNode<N>, by: ShownBy, payload: &Payload) -> bool
    requires { gear_takes node.now (handed.Show by payload.now) ≡ true }
    ensures { result ≡ shows_kind node.now payload.now.label.kind }
{
    let _ = node.gear().promise();
    match payload.label().kind {
        Kind::Update(items) => shows(node.shape(), node.number(), &items),
        Kind::Move(_) => false,
        Kind::Pulse => false,
        Kind::Close(_) => false,
    }
}

// ---- their parts

// What a gear is handed that shows a payload.
fn show<N: Laid>(by: ShownBy, payload: &Payload) -> Result<GearAct<N>, AllocError>
    requires { is_shown_clients by ≡ false }
    ensures { IfOk result (λ act. act ≡ show_act by payload.now) }
{
    let payload = payload.copy()?;
    Ok(GearAct::of_gear(GearInput::Show { by, payload }))
}

// The same, if the hub shows one.
fn input_of<N: Laid>(by: ShownBy, shown: &Option<Payload>) -> Result<Option<GearAct<N>>, AllocError>
    requires { is_shown_clients by ≡ false }
    ensures { IfOk result (λ o. o ≡ show_input by shown.now) }
{
    match shown {
        None => Ok(None),
        Some(payload) => {
            let act = show(by, payload)?;
            Ok(Some(act))
        }
    }
}

// Whether a gear may be handed this, if there is something.
fn may_take<N: Laid + Names>(held: &Held<GearNode<N>, N>, act: &Option<GearAct<N>>) -> bool
    ensures { result ≡ may_take act.now held.now }
{
    match act {
        None => true,
        Some(act) => held.fits(act),
    }
}

// Whether each of these may.
fn each_takes<N: Laid + Names>(
    gears: &[MutexGuard<'_, Held<GearNode<N>, N>>],
    act: &Option<GearAct<N>>,
) -> bool
    ensures { result ≡ all_take act.now (lent gears.now) }
{
    match gears.split_first() {
        None => true,
        Some((first, rest)) => may_take(&**first, act) && each_takes(rest, act),
    }
}

/// Whether each of these gears may be handed what the hub shows.
pub(crate) fn all_take<N: Laid + Names>(
    gears: &[MutexGuard<'_, Held<GearNode<N>, N>>],
    by: ShownBy,
    shown: &Option<Payload>,
) -> Result<bool, AllocError>
    requires { is_shown_clients by ≡ false }
    ensures { IfOk result (λ all. all ≡ all_take (show_input by shown.now) (lent gears.now)) }
{
    let act = input_of::<N>(by, shown)?;
    Ok(each_takes(gears, &act))
}

// A gear's part, with its copy, if it shows one of the items of this payload.
fn part_of<N: Laid + Names>(
    held: &Held<GearNode<N>, N>,
    by: ShownBy,
    payload: &Payload,
) -> Result<Option<Part<GearAct<N>>>, AllocError>
    requires by { is_shown_clients by ≡ false }
    requires takes { gear_takes held.now.node.machine (handed.Show by payload.now) ≡ true }
    ensures { IfOk result
        (λ o. o ≡ part_if (shows_kind held.now.node.machine payload.now.label.kind) by payload.now) }
{
    if !has_part(held.node().machine(), by, payload) {
        return Ok(None);
    }
    let input = show(by, payload)?;
    let copy = show(by, payload)?;
    Ok(Some(Part { input, copy }))
}

// The same, if the hub shows one.
fn part<N: Laid + Names>(
    held: &Held<GearNode<N>, N>,
    by: ShownBy,
    shown: &Option<Payload>,
) -> Result<Option<Part<GearAct<N>>>, AllocError>
    requires by { is_shown_clients by ≡ false }
    requires takes { may_take (show_input by shown.now) held.now ≡ true }
    ensures { IfOk result (λ o. o ≡ show_part by shown.now held.now) }
{
    match shown {
        None => Ok(None),
        Some(payload) => part_of(held, by, payload),
    }
}

// The parts of these gears, behind those of others.
#[tactic(auto, using(crate::proofs::Shown::first_takes, crate::proofs::Shown::rest_take))]
fn add_parts<N: Laid + Names>(
    parts: &mut Vec<Option<Part<GearAct<N>>>>,
    gears: &[MutexGuard<'_, Held<GearNode<N>, N>>],
    by: ShownBy,
    shown: &Option<Payload>,
) -> Result<(), AllocError>
    requires by { is_shown_clients by ≡ false }
    requires take { all_take (show_input by shown.now) (lent gears.now) ≡ true }
    ensures { OnOk result (parts.new.items ≡ parts.old.items ++ map (show_part by shown.now) (lent gears.now)) }
{
    let Some((first, rest)) = gears.split_first() else {
        return Ok(());
    };
    let held = &**first;
    parts.push(part(held, by, shown)?)?;
    add_parts(parts, rest, by, shown)
}

/// The parts of these gears, all of which may be handed what the hub shows.
pub(crate) fn parts_of<N: Laid + Names>(
    alloc: Global,
    gears: &[MutexGuard<'_, Held<GearNode<N>, N>>],
    by: ShownBy,
    shown: &Option<Payload>,
) -> Result<Vec<Option<Part<GearAct<N>>>>, AllocError>
    requires by { is_shown_clients by ≡ false }
    requires take { all_take (show_input by shown.now) (lent gears.now) ≡ true }
    ensures { IfOk result (λ parts. parts.items ≡ map (show_part by shown.now) (lent gears.now)) }
{
    let mut parts = Vec::new(alloc);
    add_parts(&mut parts, gears, by, shown)?;
    Ok(parts)
}
