//! The beats that a site made, and what a beat says.
ghost use Rattle.std.specs.Prelude.{◌≡◌, ◌++◌, ◌∷◌, [], ◌<◌, length, map, option_copied, replicate, slice_get, IfOk};
ghost use Rattle.std.specs.Prelude.{OnOk, OnErr};
ghost use Rattle.sat_hub.specs.Changes.{count_to};

use crate::tally::Row;
use sat_beat::Beat;
use sat_label::{Counts, Point, Points};
use std::alloc::{AllocError, Global};
use std::marker::Model;

/// The beats that were made for one site, in their order. Contracts see the list of them.
#[derive(Drop)]
pub struct Made {
    beats: Vec<Beat>,
}

impl Model for Made {
    ghost use Rattle.std.specs.Prelude.{List};
    ghost use Rattle.sat_beat.specs.declared.Beat.{Beat};

    ghost Value = { List Beat };

    ghost view = { λ a. a.beats.items };
}

impl Made {
    /// No beat was made.
    pub fn new(alloc: Global) -> Made
        ensures { result ≡ [] }
    {
        Made {
            beats: Vec::new(alloc),
        }
    }

    /// Keeps one more, and answers its number. For want of memory all is as before.
    pub fn add(&mut self, beat: Beat) -> Result<u64, AllocError>
        ensures number { IfOk result (λ number. number ≡ length self.old) }
        ensures new { OnOk result (self.new ≡ self.old ++ beat ∷ []) }
        ensures err { OnErr result (self.new ≡ self.old) }
    {
        let number = self.beats.len() as u64;
        self.beats.push(beat)?;
        Ok(number)
    }

    /// The one with this number, None where there is none.
    pub fn get(&self, number: u64) -> Option<&Beat>
        ensures { option_copied result ≡ slice_get self.now number }
    {
        self.beats.get(number as usize)
    }
}

/// For so many sites no beat was made.
pub fn fresh_made(alloc: Global, sites: u16) -> Result<Vec<Made>, AllocError>
    ensures { IfOk result (λ made. made.items ≡ replicate sites []) }
{
    let mut made = Vec::with_capacity(alloc, sites as usize)?;
    'sites: for _ in 0..sites {
        made.push(Made::new(alloc))?;
    }
    Ok(made)
}

/// A list of these points.
pub fn points_of(alloc: Global, points: &[Point]) -> Result<Points, AllocError>
    ensures { IfOk result (λ list. list ≡ points.now) }
{
    let mut list = Points::new(alloc);
    for point in points {
        list.push(*point)?;
    }
    Ok(list)
}

// The count of a site, 0 where there is none.
fn count_to(counts: &Row, to: u16) -> u64
    ensures { result ≡ count_to to counts.now }
{
    match counts.as_slice().get(to as usize) {
        None => 0,
        Some(count) => *count,
    }
}

/// Of each gear the count of a site.
pub fn counts_to(alloc: Global, counts: &[Row], to: u16) -> Result<Counts, AllocError>
    ensures { IfOk result (λ list. list ≡ map (count_to to) counts.now) }
{
    let mut list = Counts::new(alloc);
    for row in counts {
        list.push(count_to(row, to))?;
    }
    Ok(list)
}
