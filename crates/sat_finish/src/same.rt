//! Whether two parts are one, and copies of what they hold.
ghost use Rattle.std.specs.Prelude.{◌≡◌, ◌<◌, get_or, length, Some, None, IfOk};
ghost use Rattle.std.specs.Bool.{Decides};
ghost use Rattle.sat_finish.specs.declared.joint.Given.TheVariants as given;

use crate::joint::Given;
use sat_act::{Act, Answer, Entry};
use sat_bulk::{Drained, Payload};
use sat_label::{Counts, Label, Labels};
use std::alloc::AllocError;

// ---- copies

/// The same again.
pub(crate) fn copy_given(given: &Given) -> Result<Given, AllocError>
    ensures { IfOk result (λ g. g ≡ given.now) }
{
    match given {
        Given::Nothing => Ok(Given::Nothing),
        Given::Drained(drained) => {
            let copy = drained.copy()?;
            Ok(Given::Drained(copy))
        }
        Given::Shown(payload) => {
            let copy = payload.copy()?;
            Ok(Given::Shown(copy))
        }
    }
}

// ---- entries

/// Whether two entries are one.
pub(crate) fn same_entry(a: &Entry, b: &Entry) -> bool
    ensures { Decides result (a.now ≡ b.now) }
{
    same_act(&a.act, &b.act) && same_answer(&a.answer, &b.answer) && a.inner == b.inner
}

fn same_act(a: &Act, b: &Act) -> bool
    ensures { Decides result (a.now ≡ b.now) }
{
    *a == *b
}

fn same_answer(a: &Answer, b: &Answer) -> bool
    ensures { Decides result (a.now ≡ b.now) }
{
    *a == *b
}

// ---- what passed

/// Whether the same passed.
pub(crate) fn same_given(a: &Given, b: &Given) -> bool
    ensures { Decides result (a.now ≡ b.now) }
{
    match a {
        Given::Nothing => is_nothing(b),
        Given::Drained(drained) => is_drained(drained, b),
        Given::Shown(payload) => is_shown(payload, b),
    }
}

// Whether nothing passed.
fn is_nothing(b: &Given) -> bool
    ensures { Decides result (given.Nothing ≡ b.now) }
{
    match b {
        Given::Nothing => true,
        Given::Drained(_) => false,
        Given::Shown(_) => false,
    }
}

// Whether this was given.
fn is_drained(a: &Drained, b: &Given) -> bool
    ensures { Decides result (given.Drained a.now ≡ b.now) }
{
    match b {
        Given::Nothing => false,
        Given::Drained(drained) => same_drained(a, drained),
        Given::Shown(_) => false,
    }
}

// Whether this was shown.
fn is_shown(a: &Payload, b: &Given) -> bool
    ensures { Decides result (given.Shown a.now ≡ b.now) }
{
    match b {
        Given::Nothing => false,
        Given::Drained(_) => false,
        Given::Shown(payload) => same_payload(a, payload),
    }
}

fn same_drained(a: &Drained, b: &Drained) -> bool
    ensures { Decides result (a.now ≡ b.now) }
{
    same_labels(&a.labels, &b.labels) && a.promise == b.promise && same_counts(&a.counts, &b.counts)
}

fn same_labels(a: &Labels, b: &Labels) -> bool
    ensures { Decides result (a.now ≡ b.now) }
{
    *a == *b
}

fn same_counts(a: &Counts, b: &Counts) -> bool
    ensures { Decides result (a.now ≡ b.now) }
{
    *a == *b
}

// ---- payloads

fn same_label(a: Label, b: Label) -> bool
    ensures { Decides result (a ≡ b) }
{
    a == b
}

fn same_payload(a: &Payload, b: &Payload) -> bool
    ensures { Decides result (a.now ≡ b.now) }
{
    same_label(a.label(), b.label()) && same_values(a, b)
}

// Whether two payloads have the same parts.
#[tactic(auto, using(crate::proofs::Equals::uneven))]
fn same_values(a: &Payload, b: &Payload) -> bool
    ensures { Decides result (a.now.values ≡ b.now.values) }
{
    if a.len() != b.len() {
        return false;
    }
    same_places(a, b)
}

// The same of payloads with as many parts.
#[tactic(auto, using(crate::proofs::Equals::not_here, crate::proofs::Equals::same_more, crate::proofs::Equals::all_same))]
fn same_places(a: &Payload, b: &Payload) -> bool
    requires { length a.now.values ≡ length b.now.values }
    ensures { Decides result (a.now.values ≡ b.now.values) }
{
    for place in 0..a.len() {
        if !same_value(a, b, place) {
            return false;
        }
    }
    true
}

// Whether two payloads have the same part at a place of both.
fn same_value(a: &Payload, b: &Payload, place: usize) -> bool
    requires a { place < length a.now.values }
    requires b { place < length b.now.values }
    ensures { Decides result (get_or a.now.values place None ≡ get_or b.now.values place None) }
{
    match a.value(place) {
        None => !b.has(place),
        Some(value) => is_value(value.bytes(), b, place),
    }
}

// Whether a payload has this value at a place.
fn is_value(bytes: &[u8], b: &Payload, place: usize) -> bool
    requires { place < length b.now.values }
    ensures { Decides result (Some bytes.now ≡ get_or b.now.values place None) }
{
    match b.value(place) {
        None => false,
        Some(value) => same_bytes(bytes, value.bytes()),
    }
}

fn same_bytes(a: &[u8], b: &[u8]) -> bool
    ensures { Decides result (a.now ≡ b.now) }
{
    a == b
}
