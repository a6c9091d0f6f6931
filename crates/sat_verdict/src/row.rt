//! A number for each of some entries or clients.
ghost use Rattle.std.specs.Prelude.{◌≡◌, ◌<◌, ℕ, [], max, get_or, length, set, slice_index, slice_set, IfOk};

use std::alloc::{AllocError, Global};
use std::marker::Model;

/// So many times a number.
pub fn filled(alloc: Global, size: usize, value: u16) -> Result<Vec<u16>, AllocError>
    ensures size { IfOk result (λ made. length made.items ≡ size) }
    ensures value { IfOk result (λ made. (k : ℕ) → k < size → slice_index made.items k ≡ value) }
{
    let made: Vec<u16> = vec![in alloc; value; size]?;
    Ok(made)
}

/// The greater of two numbers.
fn greater(one: u16, other: u16) -> u16
    ensures { result ≡ max one other }
{
    if one < other { other } else { one }
}

/// A number for each of some entries or clients. Contracts see the list of the numbers.
#[derive(Drop)]
pub struct Row {
    pub counts: Vec<u16>,
}

impl Model for Row {
    ghost use Rattle.std.specs.Prelude as prelude;

    ghost Value = { prelude.List prelude.ℕ };

    ghost view = { λ a. a.counts.items };
}

impl Row {
    /// No numbers. It takes no memory.
    pub fn none(alloc: Global) -> Row
        ensures { result ≡ [] }
    {
        Row {
            counts: Vec::new(alloc),
        }
    }

    /// These numbers.
    pub fn of(alloc: Global, numbers: &[u16]) -> Result<Row, AllocError>
        ensures { IfOk result (λ row. row ≡ numbers.now) }
    {
        let mut counts = Vec::with_capacity(alloc, numbers.len())?;
        counts.extend_from_slice(numbers)?;
        Ok(Row { counts })
    }

    /// The numbers.
    pub fn as_slice(&self) -> &[u16]
        ensures { result.now ≡ self.now }
    {
        self.counts.as_slice()
    }

    /// How many there are.
    pub fn len(&self) -> usize
        ensures { result ≡ length self.now }
    {
        self.counts.len()
    }

    /// The number at a place; 0 past the end.
    pub fn at(&self, place: usize) -> u16
        ensures { result ≡ slice_index self.now place }
    {
        match self.counts.get(place) {
            Some(count) => *count,
            None => 0,
        }
    }

    /// Sets the number at a place.
    pub fn set(&mut self, place: usize, value: u16)
        requires { place < length self.old }
        ensures { self.new ≡ slice_set self.old place value }
    {
        self.counts[place] = value;
    }

    /// Sets the number at a place, if there is one.
    pub fn put(&mut self, place: usize, value: u16)
        ensures { self.new ≡ set self.old place value }
    {
        if place < self.counts.len() {
            self.counts[place] = value;
        }
    }

    /// Raises each number to that of some others at its place.
    pub fn raise(&mut self, others: &[u16])
        ensures size { length self.new ≡ length self.old }
        ensures each { (k : ℕ) → k < length self.old → get_or self.new k 0
            ≡ max (get_or self.old k 0) (get_or others.now k 0) }
    {
        let size = if self.counts.len() < others.len() {
            self.counts.len()
        } else {
            others.len()
        };
        for place in 0..size {
            self.counts[place] = greater(self.counts[place], others[place]);
        }
    }
}
