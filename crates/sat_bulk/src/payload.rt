//! Payloads.
ghost use Rattle.std.specs.Prelude.{◌≡◌, ◌<◌, length, get_or, is_some, map, set, None, Some, IfOk, IfSome, MatchOption};
ghost use Rattle.std.specs.Prelude.{[], ◌∷◌};
ghost use Rattle.sat_bulk.specs.Payloads.{held_parts, part_of, value_of, version_for, version_in};

use sat_label::{Label, Value, Version};
use std::alloc::{AllocError, Global};
use std::marker::Model;

// The parts of a group write, one for each of its items, in their order.
#[derive(Drop)]
struct Group {
    label: Label,
    parts: Vec<Option<Version>>,
}

// The payload of one item is no more than its version. The few of several items lie elsewhere, so that all are small.
#[derive(Drop)]
enum Kept {
    One(Version),
    Many(Box<Group>),
}

/// The bulk part of an update: its label, and for each of its items the value, which travel apart from the label.
/// Copies share the versions that the update makes.
#[derive(Drop)]
pub struct Payload {
    kept: Kept,
}

impl Model for Payload {
    ghost use Rattle.sat_bulk.specs.Payloads as payloads;

    ghost Value = { payloads.Payload };

    ghost view = { λ a. payloads.kept_payload a.kept };

    ghost invariant = { λ a. payloads.IsOneLabels a.kept };
}

// A part for each value, with a copy of it.
fn parts_of(
    alloc: Global,
    label: Label,
    values: &[Value],
) -> Result<Vec<Option<Version>>, AllocError>
    ensures { IfOk result (λ parts. parts.items ≡ map (part_of label) values.now) }
{
    let mut parts = Vec::with_capacity(alloc, values.len())?;
    for value in values {
        parts.push(Some(Version::new(alloc, label, value.copy()?)?))?;
    }
    Ok(parts)
}

// The part of a value, none where there is none.
fn part_for(
    alloc: Global,
    label: Label,
    value: &Option<Value>,
) -> Result<Option<Version>, AllocError>
    ensures { IfOk result (λ part. part ≡ version_for label value.now) }
{
    match value {
        None => Ok(None),
        Some(value) => {
            let version = Version::new(alloc, label, value.copy()?)?;
            Ok(Some(version))
        }
    }
}

// The value that stands alone in a list.
fn only(values: &[Option<Value>]) -> Option<&Value>
    ensures { IfSome result (λ value. values.now ≡ Some value.now ∷ []) }
{
    match values {
        [Some(value)] => Some(value),
        _ => None,
    }
}

// A part for each value that is there.
fn parts_for(
    alloc: Global,
    label: Label,
    values: &[Option<Value>],
) -> Result<Vec<Option<Version>>, AllocError>
    ensures { IfOk result (λ parts. parts.items ≡ map (version_for label) values.now) }
{
    let mut parts = Vec::with_capacity(alloc, values.len())?;
    for value in values {
        parts.push(part_for(alloc, label, value)?)?;
    }
    Ok(parts)
}

fn copy_part(part: &Option<Version>) -> Result<Option<Version>, AllocError>
    ensures { IfOk result (λ copy. copy ≡ part.now) }
{
    match part {
        None => Ok(None),
        Some(version) => {
            let version = version.copy()?;
            Ok(Some(version))
        }
    }
}

// The value of a part.
fn value_of(part: &Option<Version>) -> Option<&Value>
    ensures { MatchOption result (value_of part.now ≡ None) (λ value. value_of part.now ≡ Some value.now) }
{
    match part {
        None => None,
        Some(version) => Some(version.value()),
    }
}

fn copy_parts(alloc: Global, parts: &[Option<Version>]) -> Result<Vec<Option<Version>>, AllocError>
    ensures { IfOk result (λ copy. copy.items ≡ parts.now) }
{
    let mut copy = Vec::with_capacity(alloc, parts.len())?;
    for part in parts {
        copy.push(copy_part(part)?)?;
    }
    Ok(copy)
}

fn make_group(
    alloc: Global,
    label: Label,
    parts: Vec<Option<Version>>,
) -> Result<Box<Group>, AllocError>
    ensures label { IfOk result (λ group. group.value.label ≡ label) }
    ensures parts { IfOk result (λ group. group.value.parts.items ≡ parts.items) }
{
    let group = Box::new(alloc, Group { label, parts })?;
    Ok(group)
}

fn copy_group(of: &Box<Group>) -> Result<Box<Group>, AllocError>
    ensures label { IfOk result (λ copy. copy.value.label ≡ of.now.value.label) }
    ensures parts { IfOk result (λ copy. copy.value.parts.items ≡ of.now.value.parts.items) }
{
    let alloc = *of.parts.allocator();
    let parts = copy_parts(alloc, of.parts.as_slice())?;
    make_group(alloc, of.label, parts)
}

// The first of some parts.
fn first_part(parts: Vec<Option<Version>>) -> Option<Version>
    requires { 0 < length parts.items }
    ensures { result ≡ get_or parts.items 0 None }
{
    let mut parts = parts;
    parts[0].take()
}

impl Payload {
    /// The payload of an update with this label, which gives copies of these values to its items.
    #[tactic(auto, using(crate::proofs::Payloads::made_labels, crate::proofs::Payloads::made_payload))]
    pub fn new(alloc: Global, label: Label, values: &[Value]) -> Result<Payload, AllocError>
        ensures { IfOk result (λ payload. payload ≡ record { label = label; values = map Some values.now }) }
    {
        if let [value] = values {
            let version = Version::new(alloc, label, value.copy()?)?;
            return Ok(Payload {
                kept: Kept::One(version),
            });
        }
        let parts = parts_of(alloc, label, values)?;
        let group = make_group(alloc, label, parts)?;
        Ok(Payload {
            kept: Kept::Many(group),
        })
    }

    /// The payload of an update with this label, which gives copies of these values to those of its items that have one
    /// here, as it comes to a site that keeps only some of them.
    pub fn of_parts(
        alloc: Global,
        label: Label,
        values: &[Option<Value>],
    ) -> Result<Payload, AllocError>
        ensures { IfOk result (λ payload. payload ≡ record { label = label; values = values.now }) }
    {
        if let Some(value) = only(values) {
            let version = Version::new(alloc, label, value.copy()?)?;
            return Ok(Payload {
                kept: Kept::One(version),
            });
        }
        let parts = parts_for(alloc, label, values)?;
        let group = make_group(alloc, label, parts)?;
        Ok(Payload {
            kept: Kept::Many(group),
        })
    }

    /// The label of its update.
    pub fn label(&self) -> Label
        ensures { result ≡ self.now.label }
    {
        match &self.kept {
            Kept::One(version) => version.label(),
            Kept::Many(group) => group.label,
        }
    }

    /// How many parts it has: one for each item of its update. It takes no memory.
    pub fn len(&self) -> usize
        ensures { result ≡ length self.now.values }
    {
        match &self.kept {
            Kept::One(_) => 1,
            Kept::Many(group) => group.parts.len(),
        }
    }

    /// Whether the part of this place is there. It takes no memory.
    pub fn has(&self, place: usize) -> bool
        requires { place < length self.now.values }
        ensures { result ≡ is_some (get_or self.now.values place None) }
    {
        match &self.kept {
            Kept::One(_) => true,
            Kept::Many(group) => group.parts[place].is_some(),
        }
    }

    /// The value of this place, None where it is not there. It takes no memory.
    #[tactic(auto, using(crate::proofs::Payloads::only_value, crate::proofs::Payloads::value_there, crate::proofs::Payloads::value_away))]
    pub fn value(&self, place: usize) -> Option<&Value>
        requires { place < length self.now.values }
        ensures { MatchOption result (get_or self.now.values place None ≡ None)
            (λ value. get_or self.now.values place None ≡ Some value.now) }
    {
        match &self.kept {
            Kept::One(version) => Some(version.value()),
            Kept::Many(group) => value_of(&group.parts[place]),
        }
    }

    /// The same payload again. That of one item takes no memory of its own.
    #[tactic(auto, using(crate::proofs::Payloads::same_labels, crate::proofs::Payloads::same_payload))]
    pub fn copy(&self) -> Result<Payload, AllocError>
        ensures { IfOk result (λ payload. payload ≡ self.now) }
    {
        match &self.kept {
            Kept::One(version) => {
                let version = version.copy()?;
                Ok(Payload {
                    kept: Kept::One(version),
                })
            }
            Kept::Many(group) => {
                let group = copy_group(group)?;
                Ok(Payload {
                    kept: Kept::Many(group),
                })
            }
        }
    }

    /// The version of the first of its items, None where it is not there. It takes no memory.
    #[tactic(auto, using(crate::proofs::Payloads::taken_at))]
    pub fn into_first(self) -> Option<Version>
        requires { 0 < length self.values }
        ensures { result ≡ version_in self 0 }
    {
        match self.kept {
            Kept::One(version) => Some(version),
            Kept::Many(group) => first_part(Box::into_inner(group).parts),
        }
    }

    /// Its parts, to be taken out. It takes no memory.
    pub fn open(self) -> Parts
        ensures { result ≡ self }
    {
        match self.kept {
            Kept::One(version) => Parts {
                label: version.label(),
                held: Held::One(Some(version)),
            },
            Kept::Many(group) => {
                let group = Box::into_inner(group);
                Parts {
                    label: group.label,
                    held: Held::Many(group.parts),
                }
            }
        }
    }
}

// The part of one item lies in the value itself, so that it takes no memory of its own.
#[derive(Drop)]
enum Held {
    One(Option<Version>),
    Many(Vec<Option<Version>>),
}

/// A payload whose parts are taken out one by one.
#[derive(Drop)]
pub struct Parts {
    label: Label,
    held: Held,
}

impl Model for Parts {
    ghost use Rattle.sat_bulk.specs.Payloads as payloads;

    ghost Value = { payloads.Payload };

    ghost view = { λ a. payloads.held_payload a.label a.held };

    ghost invariant = { λ a. payloads.AreOneLabels a.label a.held };
}

fn take_part(held: &mut Held, place: usize) -> Option<Version>
    requires { place < length (held_parts held.old) }
    ensures part { result ≡ get_or (held_parts held.old) place None }
    ensures new { held_parts held.new ≡ set (held_parts held.old) place None }
{
    match held {
        Held::One(part) => part.take(),
        Held::Many(parts) => parts[place].take(),
    }
}

impl Parts {
    /// The label of the update.
    pub fn label(&self) -> Label
        ensures { result ≡ self.now.label }
    {
        self.label
    }

    /// Takes the version of an item out, and leaves none in its place. It takes no memory.
    #[tactic(auto, using(crate::proofs::Payloads::taken_at, crate::proofs::Payloads::labels_left))]
    pub fn take(&mut self, place: usize) -> Option<Version>
        requires { place < length self.old.values }
        ensures part { result ≡ version_in self.old place }
        ensures new { self.new ≡ record self.old { values = set self.old.values place None } }
    {
        take_part(&mut self.held, place)
    }
}
