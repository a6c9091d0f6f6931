//! What waits of one gear, where it came in the order of its points.
ghost use Rattle.std.specs.Prelude.{◌≡◌, ◌++◌, ◌∷◌, ◌<◌, [], drop, length, is_some, option_copied, remove, slice_get};
ghost use Rattle.std.specs.Prelude.{IfErr, IfNone, IfSome, OnErr, OnOk, OnSome, Some};
ghost use Rattle.std.specs.Bool.{OnTrue};
ghost use Rattle.std.specs.VecDeque.{deque_capacity, deque_len};
ghost use Rattle.sat_label.specs.Order.{point_lt};
ghost use Rattle.sat_pool.specs.Pool.{at_point, without};
ghost use Rattle.sat_pool.specs.Rows.{first_label, Ascends};
ghost use Rattle.sat_pool.specs.Places.{if_at, is_labelled, place_of, AreBelow};

use sat_bulk::Payload;
use sat_label::{Label, Point};
use std::alloc::{AllocError, Global};
use std::collections::VecDeque;
use std::marker::Model;

// From so many payloads on a queue grows by a quarter and not by as much as it holds, and gives its memory back once it
// is empty: where many wait, as before a settle's turns, most memory is in these queues.
const LARGE: usize = 4096;

/// The payloads of a gear that came in the order of their points. Mostly the first one is taken, since a gear's labels
/// come in their order. Where another one is, the fewer of those before and behind it move.
#[derive(Drop)]
pub struct Rising {
    waiting: VecDeque<Payload>,
}

impl Model for Rising {
    ghost use Rattle.std.specs.Prelude.{List};
    ghost use Rattle.sat_bulk.specs.Payloads as bulk;
    ghost use Rattle.sat_pool.specs.Rows.{Ascends};

    ghost Value = { List bulk.Payload };

    ghost view = { λ a. a.waiting.items };

    ghost invariant = { λ a. Ascends a.waiting.items };
}

// Whether a payload's point is below another.
#[inline(always)]
fn is_below(payload: &Payload, point: &Point) -> bool
    ensures { result ≡ point_lt payload.now.label.point point.now }
{
    payload.label().point.is_below(point)
}

// A payload, if it is at a point.
fn if_at<'a>(payload: &'a Payload, point: &Point) -> Option<&'a Payload>
    ensures { option_copied result ≡ if_at (Some payload.now) point.now }
{
    if payload.label().point.is_same(point) {
        Some(payload)
    } else {
        None
    }
}

// The payload at a place.
fn payload_at(waiting: &VecDeque<Payload>, place: usize) -> Option<&Payload>
    ensures { option_copied result ≡ slice_get waiting.now.items place }
{
    waiting.get(place)
}

// Whether the payload at a place is at a point.
fn waits_at(waiting: &VecDeque<Payload>, place: usize, point: &Point) -> bool
    ensures { result ≡ is_some (if_at (slice_get waiting.now.items place) point.now) }
{
    match payload_at(waiting, place) {
        None => false,
        Some(payload) => if_at(payload, point).is_some(),
    }
}

// Whether the first is the payload of a label.
#[inline(always)]
fn starts_with(waiting: &VecDeque<Payload>, label: &Label) -> bool
    ensures { result ≡ is_labelled (slice_get waiting.now.items 0) label.now }
{
    match payload_at(waiting, 0) {
        None => false,
        Some(payload) => payload.label().is_same(label),
    }
}

// How many stand in front of the first whose point is not below this one.
#[tactic(auto, using(crate::proofs::Places::place_past, crate::proofs::Places::place_upto, crate::proofs::Places::place_within))]
fn search(waiting: &VecDeque<Payload>, point: &Point) -> usize
    requires { Ascends waiting.now.items }
    ensures { result ≡ place_of waiting.now.items point.now }
{
    let mut low = 0;
    let mut high = waiting.len();
    while low < high {
        let middle = low + (high - low) / 2;
        if is_below(&waiting[middle], point) {
            low = middle + 1;
        } else {
            high = middle;
        }
    }
    low
}

// The same: mostly none.
#[tactic(auto, using(crate::proofs::Places::place_front, crate::proofs::Places::place_none))]
fn place_of(waiting: &VecDeque<Payload>, point: &Point) -> usize
    requires { Ascends waiting.now.items }
    ensures { result ≡ place_of waiting.now.items point.now }
{
    let Some(front) = waiting.front() else {
        return 0;
    };
    if !is_below(front, point) {
        return 0;
    }
    search(waiting, point)
}

// Gives the memory of a large queue back, once it is empty.
#[inline(always)]
fn give_back(waiting: &mut VecDeque<Payload>)
    ensures { waiting.new.items ≡ waiting.old.items }
{
    if waiting.is_empty() && waiting.capacity() > LARGE {
        release(waiting);
    }
}

// A call of its own, since it is seldom made.
#[inline(never)]
fn release(waiting: &mut VecDeque<Payload>)
    ensures { waiting.new.items ≡ waiting.old.items }
{
    waiting.shrink_to_fit();
}

// Takes the first out.
fn take_first(waiting: &mut VecDeque<Payload>) -> Option<Payload>
    ensures found { result ≡ slice_get waiting.old.items 0 }
    ensures new { waiting.new.items ≡ drop 1 waiting.old.items }
{
    let taken = waiting.pop_front();
    give_back(waiting);
    taken
}

// Takes the payload at a place out.
fn take_at(waiting: &mut VecDeque<Payload>, place: usize) -> Option<Payload>
    requires { place < length waiting.old.items }
    ensures found { result ≡ slice_get waiting.old.items place }
    ensures new { waiting.new.items ≡ remove waiting.old.items place }
{
    waiting.remove(place)
}

// Takes memory for one more. A call of its own, since mostly there is room.
#[inline(never)]
fn grow(waiting: &mut VecDeque<Payload>) -> Result<(), AllocError>
    ensures items { waiting.new.items ≡ waiting.old.items }
    ensures room { OnOk result (deque_len waiting.new < deque_capacity waiting.new) }
{
    let len = waiting.len();
    if len < LARGE {
        waiting.reserve(1)?;
    } else {
        waiting.reserve_exact(len / 4)?;
    }
    Ok(())
}

// Room for one more.
#[inline(always)]
fn make_room(waiting: &mut VecDeque<Payload>) -> Result<(), AllocError>
    ensures items { waiting.new.items ≡ waiting.old.items }
    ensures room { OnOk result (deque_len waiting.new < deque_capacity waiting.new) }
{
    if waiting.len() < waiting.capacity() {
        return Ok(());
    }
    grow(waiting)
}

impl Rising {
    /// Nothing waits. It takes no memory.
    pub fn new(alloc: Global) -> Rising
        ensures { result ≡ [] }
    {
        Rising {
            waiting: VecDeque::new(alloc),
        }
    }

    /// Whether a point is above those of all that wait.
    #[inline(always)]
    pub fn is_past(&self, point: &Point) -> bool
        ensures { OnTrue result (AreBelow self.now point.now) }
    {
        match self.waiting.back() {
            None => true,
            Some(last) => is_below(last, point),
        }
    }

    /// A payload whose point is above all waits behind them. For want of memory it comes back, and all is as before.
    #[inline(always)]
    pub fn push(&mut self, payload: Payload) -> Result<(), Payload>
        requires { AreBelow self.old payload.label.point }
        ensures ok { OnOk result (self.new ≡ self.old ++ payload ∷ []) }
        ensures back { IfErr result (λ back. back ≡ payload) }
        ensures err { OnErr result (self.new ≡ self.old) }
    {
        if make_room(&mut self.waiting).is_err() {
            return Err(payload);
        }
        self.waiting.push_back_reserved(payload);
        Ok(())
    }

    /// The payload that waits at a point. It takes no memory.
    pub fn get(&self, point: &Point) -> Option<&Payload>
        ensures { option_copied result ≡ at_point self.now point.now }
    {
        let place = place_of(&self.waiting, point);
        match payload_at(&self.waiting, place) {
            None => None,
            Some(payload) => if_at(payload, point),
        }
    }

    /// Takes the payload that waits at a point: mostly the first. It takes no memory.
    pub fn take(&mut self, point: &Point) -> Option<Payload>
        ensures found { result ≡ at_point self.old point.now }
        ensures new { self.new ≡ without self.old point.now }
    {
        if waits_at(&self.waiting, 0, point) {
            return take_first(&mut self.waiting);
        }
        self.take_behind(point)
    }

    // Takes the payload that waits at a point, wherever it stands.
    #[inline(never)]
    fn take_behind(&mut self, point: &Point) -> Option<Payload>
        ensures found { result ≡ at_point self.old point.now }
        ensures new { self.new ≡ without self.old point.now }
    {
        let place = place_of(&self.waiting, point);
        if !waits_at(&self.waiting, place, point) {
            return None;
        }
        take_at(&mut self.waiting, place)
    }

    /// Takes the first, if it is the payload of a label. It looks at no other one, and takes no memory.
    #[inline(always)]
    pub fn take_first_if(&mut self, label: &Label) -> Option<Payload>
        ensures found { IfSome result (λ p. Some p ≡ at_point self.old label.now.point) }
        ensures same { IfSome result (λ p. p.label ≡ label.now) }
        ensures new { OnSome result (self.new ≡ without self.old label.now.point) }
        ensures none { IfNone result (self.new ≡ self.old) }
    {
        if !starts_with(&self.waiting, label) {
            return None;
        }
        take_first(&mut self.waiting)
    }

    /// The label of the first, which is the least.
    pub fn first(&self) -> Option<Label>
        ensures first { result ≡ first_label self.now }
        ensures ascends { Ascends self.now }
    {
        match self.waiting.front() {
            None => None,
            Some(payload) => Some(payload.label()),
        }
    }
}
