//! What waits of one site.
ghost use Rattle.std.specs.Prelude.{◌≡◌, ◌&&◌, [], get_or, is_some, map, nat_le, not, option_copied, set, None, Some};
ghost use Rattle.std.specs.Prelude.{if◌then◌else◌, IfOk, IfErr, IfNone, IfSome, OnOk, OnErr, OnSome};
ghost use Rattle.std.specs.Bool.{OnTrue};
ghost use Rattle.std.specs.List.{list_any};
ghost use Rattle.sat_label.specs.Least.{lesser};
ghost use Rattle.sat_label.specs.Order.{point_le};
ghost use Rattle.sat_pool.specs.Pool.{at_point, labelled, placed, row_after_take_of, row_waiting_of, without};
ghost use Rattle.sat_pool.specs.Rows.{first_label, row_view, sets_first, stands_at, stands_below, Ascends, IsParts};
ghost use Rattle.sat_pool.specs.Rows.{MayStand, SameQueues};

use crate::others::Others;
use crate::rising::Rising;
use sat_bulk::Payload;
use sat_label::{Label, MOST_GEARS, Point};
use std::alloc::{AllocError, Global};
use std::marker::Model;

/// The payloads of one site's updates that wait, by their points: for each gear those that came in order, beside them
/// the others, and the first label of all, while `knows` says so: once it was taken, the next one is not looked for
/// before it is asked for, since turns by tree never ask. Contracts see the list of the payloads.
#[derive(Drop)]
pub struct Row {
    rising: Vec<Rising>,
    others: Others,
    first: Option<Label>,
    knows: bool,
}

impl Model for Row {
    ghost use Rattle.std.specs.Prelude.{List, map};
    ghost use Rattle.sat_bulk.specs.Payloads as bulk;
    ghost use Rattle.sat_pool.specs.Rows.{row_view, IsKept};

    ghost Value = { List bulk.Payload };

    ghost view = { λ a. row_view a.rising.items a.others };

    ghost invariant = { λ a. IsKept a.rising.items a.others a.first a.knows };
}

// The lesser of two labels, of which each may be missing.
pub fn lesser(left: Option<Label>, right: Option<Label>) -> Option<Label>
    ensures { result ≡ lesser left right }
{
    let Some(label) = left else {
        return right;
    };
    let Some(other) = right else {
        return left;
    };
    if label.is_below(&other) { left } else { right }
}

// Whether a label's point is up to this one.
fn is_up_to(label: &Label, point: &Point) -> bool
    ensures { result ≡ point_le label.now.point point.now }
{
    label.point.is_below(point) || label.point.is_same(point)
}

// Whether a label, if there is one, is at a point.
fn stands_at(label: Option<Label>, point: &Point) -> bool
    ensures { result ≡ stands_at label point.now }
{
    match label {
        None => false,
        Some(label) => label.point.is_same(point),
    }
}

// Whether a label, if there is one, is below a point.
#[inline(always)]
fn stands_below(label: &Option<Label>, point: &Point) -> bool
    ensures { result ≡ stands_below label.now point.now }
{
    match label {
        None => false,
        Some(label) => label.point.is_below(point),
    }
}

// Whether the first label, if it is known, is another one once a payload of this point came.
#[inline(always)]
fn may_lead(knows: bool, first: &Option<Label>, point: &Point) -> bool
    ensures { result ≡ (knows && not (stands_below first.now point.now)) }
{
    knows && !stands_below(first, point)
}

// The first label, once one more came.
fn first_with(first: Option<Label>, label: Label) -> Option<Label>
    ensures { result ≡ sets_first first label }
{
    match first {
        None => Some(label),
        Some(before) => {
            if before.point.is_below(&label.point) {
                Some(before)
            } else {
                Some(label)
            }
        }
    }
}

// A queue for each gear up to this one. Few gears make labels; what comes of another number stands among the others.
#[tactic(auto, using(crate::proofs::Parts::more_queues, crate::proofs::Parts::same_queues))]
fn make_queues(rising: &mut Vec<Rising>, gear: u16) -> Result<(), AllocError>
    ensures { SameQueues rising.old.items rising.new.items }
{
    if gear >= MOST_GEARS {
        return Ok(());
    }
    let alloc = *rising.allocator();
    'queues: for _ in rising.len()..gear as usize + 1 {
        rising.push(Rising::new(alloc))?;
    }
    Ok(())
}

// Whether a payload may stand at the end of its gear's queue: its point is above all there, and none of the others has
// it.
#[inline(always)]
#[tactic(auto, using(crate::proofs::Parts::may_stand))]
fn goes_on(rising: &Vec<Rising>, others: &Others, point: &Point) -> bool
    ensures { OnTrue result (MayStand rising.now.items others.now point.now) }
{
    match rising.get(point.gear as usize) {
        None => false,
        Some(queue) => queue.is_past(point) && others.get(point).is_none(),
    }
}

// The payload at a point in its gear's queue.
#[tactic(auto, using(crate::proofs::Parts::queue_some, crate::proofs::Parts::queue_none))]
fn queued_at<'a>(rising: &'a Vec<Rising>, point: &Point) -> Option<&'a Payload>
    ensures { option_copied result ≡ at_point (get_or rising.now.items point.now.gear []) point.now }
{
    let queue = rising.get(point.gear as usize)?;
    queue.get(point)
}

// Takes the payload at a point out of its gear's queue.
fn take_rising(rising: &mut Vec<Rising>, point: &Point) -> Option<Payload>
    ensures found { result ≡ at_point (get_or rising.old.items point.now.gear []) point.now }
    ensures new { rising.new.items ≡ set rising.old.items point.now.gear
        (without (get_or rising.old.items point.now.gear []) point.now) }
{
    if point.gear as usize >= rising.len() {
        return None;
    }
    let queue = &mut rising[point.gear as usize];
    queue.take(point)
}

// Takes the first out of its gear's queue, if it is the payload of a label.
#[inline(always)]
fn take_front(rising: &mut Vec<Rising>, label: &Label) -> Option<Payload>
    ensures found { IfSome result (λ p. Some p
        ≡ at_point (get_or rising.old.items label.now.point.gear []) label.now.point) }
    ensures same { IfSome result (λ p. p.label ≡ label.now) }
    ensures new { OnSome result (rising.new.items ≡ set rising.old.items label.now.point.gear
        (without (get_or rising.old.items label.now.point.gear []) label.now.point)) }
    ensures none { IfNone result (rising.new.items ≡ rising.old.items) }
{
    if label.point.gear as usize >= rising.len() {
        return None;
    }
    let queue = &mut rising[label.point.gear as usize];
    queue.take_first_if(label)
}

// Puts a payload of this point at the end of its gear's queue.
#[inline(always)]
fn push(
    rising: &mut Vec<Rising>,
    others: &Others,
    point: &Point,
    payload: Payload,
) -> Result<(), Payload>
    requires point { point.now ≡ payload.label.point }
    requires parts { IsParts rising.old.items others.now }
    requires may { MayStand rising.old.items others.now point.now }
    ensures parts { IsParts rising.new.items others.now }
    ensures before { at_point (row_view rising.old.items others.now) payload.label.point ≡ None }
    ensures ok { OnOk result (row_view rising.new.items others.now
        ≡ placed (row_view rising.old.items others.now) payload) }
    ensures back { IfErr result (λ back. back ≡ payload) }
    ensures err { OnErr result (row_view rising.new.items others.now
        ≡ row_view rising.old.items others.now) }
{
    let queue = &mut rising[point.gear as usize];
    queue.push(payload)
}

// Puts a payload among the others; one that waited at its point comes back. A call of its own, since it is seldom made.
#[inline(never)]
fn put_aside(
    rising: &mut Vec<Rising>,
    others: &mut Others,
    payload: Payload,
) -> Result<Option<Payload>, Payload>
    requires { IsParts rising.old.items others.old }
    ensures parts { IsParts rising.new.items others.new }
    ensures before { IfOk result (λ before. before
        ≡ at_point (row_view rising.old.items others.old) payload.label.point) }
    ensures ok { OnOk result (row_view rising.new.items others.new
        ≡ placed (row_view rising.old.items others.old) payload) }
    ensures back { IfErr result (λ back. back ≡ payload) }
    ensures err { OnErr result (row_view rising.new.items others.new
        ≡ row_view rising.old.items others.old) }
{
    let point = payload.label().point;
    let aside = others.insert(payload)?;
    let queued = take_rising(rising, &point);
    Ok(queued.or(aside))
}

// Puts a payload where it belongs, where its gear has a queue; one that waited at its point comes back.
fn store(
    rising: &mut Vec<Rising>,
    others: &mut Others,
    payload: Payload,
) -> Result<Option<Payload>, Payload>
    requires { IsParts rising.old.items others.old }
    ensures parts { IsParts rising.new.items others.new }
    ensures before { IfOk result (λ before. before
        ≡ at_point (row_view rising.old.items others.old) payload.label.point) }
    ensures ok { OnOk result (row_view rising.new.items others.new
        ≡ placed (row_view rising.old.items others.old) payload) }
    ensures back { IfErr result (λ back. back ≡ payload) }
    ensures err { OnErr result (row_view rising.new.items others.new
        ≡ row_view rising.old.items others.old) }
{
    let point = payload.label().point;
    if goes_on(rising, others, &point) {
        push(rising, others, &point, payload)?;
        return Ok(None);
    }
    put_aside(rising, others, payload)
}

// The same, where it may have none. A call of its own, since mostly it has one, at whose end the payload may stand.
#[inline(never)]
fn put_anywhere(
    rising: &mut Vec<Rising>,
    others: &mut Others,
    payload: Payload,
) -> Result<Option<Payload>, Payload>
    requires { IsParts rising.old.items others.old }
    ensures parts { IsParts rising.new.items others.new }
    ensures before { IfOk result (λ before. before
        ≡ at_point (row_view rising.old.items others.old) payload.label.point) }
    ensures ok { OnOk result (row_view rising.new.items others.new
        ≡ placed (row_view rising.old.items others.old) payload) }
    ensures back { IfErr result (λ back. back ≡ payload) }
    ensures err { OnErr result (row_view rising.new.items others.new
        ≡ row_view rising.old.items others.old) }
{
    if make_queues(rising, payload.label().point.gear).is_err() {
        return Err(payload);
    }
    store(rising, others, payload)
}

// The same of a payload of this point: mostly at the end of its gear's queue, which is there.
#[inline(always)]
fn put(
    rising: &mut Vec<Rising>,
    others: &mut Others,
    point: &Point,
    payload: Payload,
) -> Result<Option<Payload>, Payload>
    requires point { point.now ≡ payload.label.point }
    requires parts { IsParts rising.old.items others.old }
    ensures parts { IsParts rising.new.items others.new }
    ensures before { IfOk result (λ before. before
        ≡ at_point (row_view rising.old.items others.old) payload.label.point) }
    ensures ok { OnOk result (row_view rising.new.items others.new
        ≡ placed (row_view rising.old.items others.old) payload) }
    ensures back { IfErr result (λ back. back ≡ payload) }
    ensures err { OnErr result (row_view rising.new.items others.new
        ≡ row_view rising.old.items others.old) }
{
    if goes_on(rising, others, point) {
        push(rising, others, point, payload)?;
        return Ok(None);
    }
    put_anywhere(rising, others, payload)
}

// Takes the payload at a point out.
fn take_out(rising: &mut Vec<Rising>, others: &mut Others, point: &Point) -> Option<Payload>
    requires { IsParts rising.old.items others.old }
    ensures parts { IsParts rising.new.items others.new }
    ensures found { result ≡ at_point (row_view rising.old.items others.old) point.now }
    ensures new { row_view rising.new.items others.new
        ≡ without (row_view rising.old.items others.old) point.now }
{
    let queued = take_rising(rising, point);
    if queued.is_some() {
        return queued;
    }
    others.remove(point)
}

// The first label of all: the least. A call of its own, since it is seldom made.
#[inline(never)]
#[tactic(auto, using(crate::proofs::Parts::first_start, crate::proofs::Parts::first_more, crate::proofs::Parts::first_whole))]
fn first_of(rising: &[Rising], others: &Others) -> Option<Label>
    requires { IsParts rising.now others.now }
    ensures { result ≡ first_label (row_view rising.now others.now) }
{
    let mut least = others.first();
    for queue in rising {
        least = lesser(least, queue.first());
    }
    least
}

// The first label of all, once one was taken: another one only where that was the first.
fn first_left(
    first: Option<Label>,
    rising: &Vec<Rising>,
    others: &Others,
    point: &Point,
) -> Option<Label>
    requires { IsParts rising.now.items others.now }
    ensures { result ≡ (if stands_at first point.now
        then first_label (row_view rising.now.items others.now) else first) }
{
    if stands_at(first, point) {
        return first_of(rising.as_slice(), others);
    }
    first
}

impl Row {
    /// Nothing waits. It takes no memory.
    pub fn new(alloc: Global) -> Row
        ensures { result ≡ [] }
    {
        Row {
            rising: Vec::new(alloc),
            others: Others::new(alloc),
            first: None,
            knows: true,
        }
    }

    /// One payload more waits; one that waited at its point comes back. For want of memory the payload itself does, and
    /// all is as before.
    #[inline(always)]
    pub fn insert(&mut self, payload: Payload) -> Result<Option<Payload>, Payload>
        ensures before { IfOk result (λ before. before ≡ at_point self.old payload.label.point) }
        ensures ok { OnOk result (self.new ≡ placed self.old payload) }
        ensures back { IfErr result (λ back. back ≡ payload) }
        ensures err { OnErr result (self.new ≡ self.old) }
    {
        let point = payload.label().point;
        if may_lead(self.knows, &self.first, &point) {
            return self.insert_first(payload);
        }
        put(&mut self.rising, &mut self.others, &point, payload)
    }

    // The same, where it may become the first. A call of its own, since mostly it does not.
    #[inline(never)]
    fn insert_first(&mut self, payload: Payload) -> Result<Option<Payload>, Payload>
        ensures before { IfOk result (λ before. before ≡ at_point self.old payload.label.point) }
        ensures ok { OnOk result (self.new ≡ placed self.old payload) }
        ensures back { IfErr result (λ back. back ≡ payload) }
        ensures err { OnErr result (self.new ≡ self.old) }
    {
        let label = payload.label();
        let before = put(&mut self.rising, &mut self.others, &label.point, payload)?;
        self.first = first_with(self.first, label);
        Ok(before)
    }

    /// The payload that waits at a point. It takes no memory.
    pub fn get(&self, point: &Point) -> Option<&Payload>
        ensures { option_copied result ≡ at_point self.now point.now }
    {
        match queued_at(&self.rising, point) {
            Some(payload) => Some(payload),
            None => self.others.get(point),
        }
    }

    /// Takes the payload that waits at a point. It takes no memory. The first label is looked for, if that one was it.
    pub fn remove(&mut self, point: &Point) -> Option<Payload>
        ensures found { result ≡ at_point self.old point.now }
        ensures new { self.new ≡ without self.old point.now }
    {
        let taken = take_out(&mut self.rising, &mut self.others, point);
        if !self.knows {
            return taken;
        }
        self.first = first_left(self.first, &self.rising, &self.others, point);
        taken
    }

    /// Takes the payload of a label, if it waits: mostly it is the first of its gear's queue. It takes no memory, and
    /// looks for no first label.
    pub fn take_if(&mut self, label: &Label) -> Option<Payload>
        ensures found { result ≡ row_waiting_of self.old label.now }
        ensures new { self.new ≡ row_after_take_of self.old label.now (row_waiting_of self.old label.now) }
    {
        let front = take_front(&mut self.rising, label);
        if front.is_some() {
            self.knows = false;
            return front;
        }
        self.take_behind(label)
    }

    // Takes the payload of a label, wherever it stands. A call of its own, since it is seldom made.
    #[inline(never)]
    #[tactic(auto, using(crate::proofs::Labels::is_there, crate::proofs::Labels::not_there))]
    fn take_behind(&mut self, label: &Label) -> Option<Payload>
        ensures found { result ≡ row_waiting_of self.old label.now }
        ensures new { self.new ≡ row_after_take_of self.old label.now (row_waiting_of self.old label.now) }
    {
        if !self.has_label(label) {
            return None;
        }
        self.take(&label.point)
    }

    // Whether the payload of a label waits.
    #[tactic(auto, using(crate::proofs::Labels::of_none, crate::proofs::Labels::of_some))]
    fn has_label(&self, label: &Label) -> bool
        ensures { result ≡ is_some (row_waiting_of self.now label.now) }
    {
        match self.get(&label.point) {
            None => false,
            Some(waiting) => waiting.label().is_same(label),
        }
    }

    // Takes the payload that waits at a point, and looks for no first label.
    fn take(&mut self, point: &Point) -> Option<Payload>
        ensures found { result ≡ at_point self.old point.now }
        ensures new { self.new ≡ without self.old point.now }
    {
        self.knows = false;
        take_out(&mut self.rising, &mut self.others, point)
    }

    /// Looks for the first label if it is not known, so that it is at hand.
    pub fn look(&mut self)
        ensures { self.new ≡ self.old }
    {
        if self.knows {
            return;
        }
        self.first = first_of(self.rising.as_slice(), &self.others);
        self.knows = true;
    }

    /// The first label, which is the least. Where it is not at hand, each call looks for it.
    pub fn first(&self) -> Option<Label>
        ensures first { result ≡ first_label self.now }
        ensures ascends { Ascends self.now }
    {
        if self.knows {
            return self.first;
        }
        first_of(self.rising.as_slice(), &self.others)
    }

    /// Whether a label with a point up to this one waits.
    #[tactic(auto, using(crate::proofs::Firsts::none_up))]
    pub fn has_up_to(&self, point: &Point) -> bool
        ensures { result ≡ list_any (λ l. point_le l.point point.now) (map labelled self.now) }
    {
        match self.first() {
            None => false,
            Some(label) => is_up_to(&label, point),
        }
    }

    /// Whether a label with a timestamp up to this one waits.
    #[tactic(auto, using(crate::proofs::Firsts::none_early))]
    pub fn has_ts_to(&self, ts: u64) -> bool
        ensures { result ≡ list_any (λ l. nat_le l.point.ts ts) (map labelled self.now) }
    {
        match self.first() {
            None => false,
            Some(label) => label.point.ts <= ts,
        }
    }
}
