//! What a gear shows.
ghost use Rattle.std.specs.Prelude.{◌≡◌, ◌+◌, ◌<◌, ◌≤◌, ◌%◌, ◌==◌, ◌&&◌, ◌||◌, not, true, drop, get_or, is_some};
ghost use Rattle.std.specs.Prelude.{length, None};
ghost use Rattle.sat_label.specs.Grouped.{list_of};
ghost use Rattle.sat_sites.specs.Interested.{are_below, keeps, AreBelow};
ghost use Rattle.sat_gear.specs.Gear.{IsItemOf};
ghost use Rattle.sat_hub.specs.Seen.{has_parts_here};
ghost use Rattle.sat_hub_laws.specs.Gears.{has_all};
ghost use Rattle.sat_parts.specs.GearSteps.{is_of, is_written, may_show, shown_all, shown_if, shown_of, shows_item};

use crate::gear_input::ShownBy;
use sat_bulk::{Parts, Payload};
use sat_gear::Gear;
use sat_hub::is_here;
use sat_label::{Items, Kind, Version};
use sat_sites::Shape;

// Whether a payload has a part of this place, where the site keeps the item.
fn has_part(shape: &Shape, item: u16, payload: &Payload, place: usize) -> bool
    requires item { item < length shape.now.interest.replicas }
    requires place { place < length payload.now.values }
    ensures { result
        ≡ (not (keeps shape.now.interest item shape.now.site) || is_some (get_or payload.now.values place None)) }
{
    !is_here(shape, item) || payload.has(place)
}

// Whether a payload has a part for each of these items that the site keeps, from a place on, and no more parts.
#[tactic(auto, using(crate::proofs::GearCode::parts_more))]
fn has_parts(shape: &Shape, items: &[u16], payload: &Payload, place: usize) -> bool
    requires items { AreBelow (length shape.now.interest.replicas) items.now }
    requires place { place + length items.now ≡ length payload.now.values }
    requires few { place + length items.now ≤ 4 }
    ensures { result ≡ has_parts_here shape.now items.now (drop place payload.now.values) }
{
    match items.split_first() {
        None => true,
        Some((item, rest)) => {
            has_part(shape, *item, payload, place) && has_parts(shape, rest, payload, place + 1)
        }
    }
}

// Whether a payload has as many parts as there are items, and a value for each of these that the site keeps.
#[tactic(auto, using(crate::proofs::GearCode::parts_uneven))]
fn are_parts(shape: &Shape, items: &[u16], payload: &Payload) -> bool
    requires items { AreBelow (length shape.now.interest.replicas) items.now }
    requires few { length items.now ≤ 4 }
    ensures { result ≡ has_parts_here shape.now items.now payload.now.values }
{
    if payload.len() != items.len() {
        return false;
    }
    has_parts(shape, items, payload, 0)
}

// The same of the items of an update.
fn is_whole(shape: &Shape, items: &Items, payload: &Payload) -> bool
    requires { AreBelow (length shape.now.interest.replicas) (list_of items.now) }
    ensures { result ≡ has_parts_here shape.now (list_of items.now) payload.now.values }
{
    match *items {
        Items::One(a) => are_parts(shape, &[a], payload),
        Items::Two(a, b) => are_parts(shape, &[a, b], payload),
        Items::Three(a, b, c) => are_parts(shape, &[a, b, c], payload),
        Items::Four(a, b, c, d) => are_parts(shape, &[a, b, c, d], payload),
    }
}

// Whether a payload has each of its parts from a place on.
#[tactic(auto, using(crate::proofs::GearCode::all_none, crate::proofs::GearCode::all_more))]
fn has_all(payload: &Payload, place: usize) -> bool
    requires { place ≤ length payload.now.values }
    ensures { result ≡ has_all (drop place payload.now.values) }
{
    if place == payload.len() {
        return true;
    }
    payload.has(place) && has_all(payload, place + 1)
}

// Whether items that are known ascend, and have a value each, where another gear wrote them.
fn is_written(shape: &Shape, by: ShownBy, items: &Items, payload: &Payload) -> bool
    ensures { result ≡ is_written by shape.now items.now payload.now.values }
{
    match by {
        ShownBy::Turn => true,
        ShownBy::Stamp => true,
        ShownBy::Write => { (items.ascend() && shape.interest.knows(items)) && has_all(payload, 0) }
    }
}

// Whether a gear may show an update of these items.
#[tactic(auto, using(sat_sites::proofs::Below::below_is))]
fn is_update(shape: &Shape, by: ShownBy, items: &Items, payload: &Payload) -> bool
    ensures { result
        ≡ ((are_below (length shape.now.interest.replicas) (list_of items.now)
        && has_parts_here shape.now (list_of items.now) payload.now.values)
        && is_written by shape.now items.now payload.now.values) }
{
    (shape.interest.knows(items) && is_whole(shape, items, payload))
        && is_written(shape, by, items, payload)
}

/// Whether a gear of this shape may show a payload. It takes no memory.
pub fn may_show(shape: &Shape, by: ShownBy, payload: &Payload) -> bool
    ensures { result ≡ may_show shape.now by payload.now payload.now.label.kind }
{
    match payload.label().kind {
        Kind::Update(items) => is_update(shape, by, &items, payload),
        Kind::Move(_) => false,
        Kind::Pulse => false,
        Kind::Close(_) => false,
    }
}

/// Whether an item is one of the gear with this number.
pub fn is_of(shape: &Shape, number: u16, item: u16) -> bool
    requires { 0 < shape.now.gears }
    ensures { result ≡ (item % shape.now.gears == number) }
{
    item % shape.gears == number
}

// Whether the gear shows its part of an item.
fn shows_item(shape: &Shape, number: u16, item: u16) -> bool
    requires gears { 0 < shape.now.gears }
    requires item { item < length shape.now.interest.replicas }
    ensures { result ≡ ((item % shape.now.gears == number) && keeps shape.now.interest item shape.now.site) }
{
    is_of(shape, number, item) && is_here(shape, item)
}

// Shows a part of an update, if there is one, where the item is the gear's, and the site keeps it.
fn show_part(gear: &mut Gear, shape: &Shape, number: u16, item: u16, part: Option<Version>)
    requires shape { shape.now ≡ gear.old.shape }
    requires number { number ≡ gear.old.gear }
    requires item { item < length gear.old.shape.interest.replicas }
    ensures shown { gear.new ≡ shown_if (shows_item gear.old item) gear.old item part }
    ensures shape { gear.new.shape ≡ gear.old.shape }
    ensures number { gear.new.gear ≡ gear.old.gear }
{
    let _ = gear.promise();
    if !shows_item(shape, number, item) {
        return;
    }
    if let Some(version) = part {
        let _ = gear.show(item, version);
    }
}

// Shows the parts of these items, from a place on.
#[tactic(auto, using(crate::proofs::GearCode::shown_none, crate::proofs::GearCode::shown_step))]
fn show_from(
    gear: &mut Gear,
    shape: &Shape,
    number: u16,
    items: &[u16],
    parts: &mut Parts,
    place: usize,
)
    requires shape { shape.now ≡ gear.old.shape }
    requires number { number ≡ gear.old.gear }
    requires items { AreBelow (length gear.old.shape.interest.replicas) items.now }
    requires place { place + length items.now ≡ length parts.old.values }
    requires few { place + length items.now ≤ 4 }
    ensures { gear.new ≡ shown_all gear.old parts.old.label items.now (drop place parts.old.values) }
{
    match items.split_first() {
        None => {}
        Some((item, rest)) => {
            let part = parts.take(place);
            show_part(gear, shape, number, *item, part);
            show_from(gear, shape, number, rest, parts, place + 1);
        }
    }
}

/// Shows an update of these items: of each that is the gear's and that the site keeps, the value. It takes no memory.
pub fn show_items(gear: &mut Gear, shape: &Shape, number: u16, items: Items, payload: Payload)
    requires shape { shape.now ≡ gear.old.shape }
    requires number { number ≡ gear.old.gear }
    requires items { AreBelow (length gear.old.shape.interest.replicas) (list_of items) }
    requires parts { length payload.values ≡ length (list_of items) }
    ensures { gear.new ≡ shown_all gear.old payload.label (list_of items) payload.values }
{
    let mut parts = payload.open();
    match items {
        Items::One(a) => show_from(gear, shape, number, &[a], &mut parts, 0),
        Items::Two(a, b) => show_from(gear, shape, number, &[a, b], &mut parts, 0),
        Items::Three(a, b, c) => show_from(gear, shape, number, &[a, b, c], &mut parts, 0),
        Items::Four(a, b, c, d) => show_from(gear, shape, number, &[a, b, c, d], &mut parts, 0),
    }
}

/// Shows a payload that the gear may show. It takes no memory.
pub fn show(gear: &mut Gear, shape: &Shape, number: u16, by: ShownBy, payload: Payload)
    requires shape { shape.now ≡ gear.old.shape }
    requires number { number ≡ gear.old.gear }
    requires shown { may_show gear.old.shape by payload payload.label.kind ≡ true }
    ensures { gear.new ≡ shown_of gear.old payload payload.label.kind }
{
    if let Kind::Update(items) = payload.label().kind {
        show_items(gear, shape, number, items, payload);
    }
}
