//! The keys with one number a row.
ghost use Rattle.std.specs.Prelude.{ℕ, ◌≡◌, ◌≤◌, ◌<◌, length, option_map, is_some, IfOk};
ghost use Rattle.serde_json.specs.View.{view};
ghost use Rattle.sat_delay.specs.Reading.{gathered, item_at, Gives};
ghost use Rattle.sat_place.specs.Shape.{row_number, rows_among, own_row, seat_bound, is_list, parents_of, seats_of};

use sat_delay::{DelayFault, Place, item_at, number_at};
use sat_label::List;
use serde_json::Value;
use std::alloc::Global;

/// A list of numbers of serializers.
pub type Numbers = List<u16>;

const PARENTS: u8 = 6;

const SEATS: u8 = 7;

// Of each of at most 6 serializers but the first.
const MOST_PARENTS: u16 = 5;

fn row_place(key: u8, row: u16) -> Place
    ensures { result ≡ record { key = key; row = row; column = 0 } }
{
    Place {
        key,
        row,
        column: 0,
    }
}

fn has_row(list: Option<&Value>, row: u16) -> bool
    ensures { result ≡ is_some (item_at row (option_map (λ v. view v.now) list.entry)) }
{
    match item_at(list, row) {
        Some(_) => true,
        None => false,
    }
}

fn is_list(list: Option<&Value>) -> bool
    ensures { result ≡ is_list (option_map (λ v. view v.now) list.entry) }
{
    match list {
        Some(value) => value.is_array(),
        None => false,
    }
}

// The parent in a row.
#[tactic(auto, unfolding(crate::specs::Shape::row_number))]
fn parent_in(list: Option<&Value>, row: u16) -> Result<u16, DelayFault>
    ensures { Gives result (row_number 6 own_row (option_map (λ v. view v.now) list.entry) row) }
{
    let number = number_at(row_place(PARENTS, row), u64::from(row), item_at(list, row))?;
    Ok(number as u16)
}

// The seat in a row.
#[tactic(auto, unfolding(crate::specs::Shape::row_number))]
fn seat_in(list: Option<&Value>, parents: u16, row: u16) -> Result<u16, DelayFault>
    ensures { Gives result (row_number 7 (seat_bound parents) (option_map (λ v. view v.now) list.entry) row) }
{
    let number = number_at(
        row_place(SEATS, row),
        u64::from(parents),
        item_at(list, row),
    )?;
    Ok(number as u16)
}

// The parents in the first rows.
#[tactic(auto, using(sat_delay::proofs::Gathered::gathered_start, sat_delay::proofs::Gathered::gathered_more, sat_delay::proofs::Gathered::gathered_stops))]
fn first_parents(alloc: Global, list: Option<&Value>, count: u16) -> Result<Numbers, DelayFault>
    ensures { Gives result (gathered (row_number 6 own_row (option_map (λ v. view v.now) list.entry)) count) }
{
    let mut numbers = Numbers::new(alloc);
    for row in 0..count {
        let number = parent_in(list, row)?;
        numbers.push(number)?;
    }
    Ok(numbers)
}

// The seats in the first rows.
#[tactic(auto, using(sat_delay::proofs::Gathered::gathered_start, sat_delay::proofs::Gathered::gathered_more, sat_delay::proofs::Gathered::gathered_stops))]
fn first_seats(
    alloc: Global,
    list: Option<&Value>,
    parents: u16,
    count: u16,
) -> Result<Numbers, DelayFault>
    ensures { Gives result
        (gathered (row_number 7 (seat_bound parents) (option_map (λ v. view v.now) list.entry)) count) }
{
    let mut numbers = Numbers::new(alloc);
    for row in 0..count {
        let number = seat_in(list, parents, row)?;
        numbers.push(number)?;
    }
    Ok(numbers)
}

// How many of the first 5 rows a list has.
#[tactic(auto, using(crate::proofs::Trees::among_start, crate::proofs::Trees::among_more))]
fn rows_among(list: Option<&Value>) -> u16
    ensures among { result ≡ rows_among (option_map (λ v. view v.now) list.entry) 5 }
    ensures few { result ≤ 5 }
{
    let mut count = 0;
    for row in 0..MOST_PARENTS {
        if has_row(list, row) {
            count += 1;
        }
    }
    count
}

/// The parents of all serializers but the first, from the value of their key.
#[tactic(auto, unfolding(crate::specs::Shape::parents_of, crate::specs::Shape::rows_of))]
pub fn parents_of(alloc: Global, list: Option<&Value>) -> Result<Numbers, DelayFault>
    ensures { Gives result (parents_of (option_map (λ v. view v.now) list.entry)) }
{
    if !is_list(list) {
        return Err(DelayFault::BadShape(row_place(PARENTS, 0)));
    }
    let count = rows_among(list);
    let parents = first_parents(alloc, list, count)?;
    if has_row(list, count) {
        return Err(DelayFault::BadShape(row_place(PARENTS, count)));
    }
    Ok(parents)
}

/// The seats of all sites, from the value of their key.
#[tactic(auto, unfolding(crate::specs::Shape::seats_of, crate::specs::Shape::rows_of))]
pub fn seats_of(
    alloc: Global,
    list: Option<&Value>,
    parents: u16,
    sites: u16,
) -> Result<Numbers, DelayFault>
    ensures { Gives result (seats_of parents sites (option_map (λ v. view v.now) list.entry)) }
{
    let seats = first_seats(alloc, list, parents, sites)?;
    if has_row(list, sites) {
        return Err(DelayFault::BadShape(row_place(SEATS, sites)));
    }
    Ok(seats)
}
