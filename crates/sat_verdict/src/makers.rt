//! Which entry made a point.
ghost use Rattle.std.specs.Prelude.{◌≡◌, ◌≤◌, if◌then◌else◌, length, reverse, map, Some, IfOk, OnOk};
ghost use Rattle.std.specs.BTreeMap.{get};
ghost use Rattle.sat_label.specs.declared.point.Point as points;
ghost use Rattle.sat_verdict.specs.declared.limits.TheConstants.{MOST_ENTRIES};
ghost use Rattle.sat_verdict.specs.Entries.{makes};
ghost use Rattle.sat_verdict.specs.Found.{made_number};
ghost use Rattle.sat_verdict.specs.Tables.{number_or, number_in, point_cmp, IsUnique};
ghost use Rattle.sat_verdict.specs.declared.tale.Tale as entries;

use crate::Tale;
use sat_label::Point;
use std::alloc::{AllocError, Global};
use std::collections::BTreeMap;

/// Notes under the point that an entry made its number, if it made one.
fn note(makers: &mut BTreeMap<Point, u16>, tale: &Tale, number: u16) -> Result<(), AllocError>
    ensures { OnOk result ((p : points.Point) → get point_cmp makers.new p
        ≡ (if makes tale.now p then Some number else get point_cmp makers.old p)) }
{
    if let Some(point) = tale.made() {
        makers.insert(point, number)?;
    }
    Ok(())
}

/// The number, from 1, of the entry that made a point.
fn makers_of(alloc: Global, tales: &[Tale]) -> Result<BTreeMap<Point, u16>, AllocError>
    requires few { length tales.now ≤ MOST_ENTRIES }
    requires unique { IsUnique (reverse tales.now) }
    ensures { IfOk result (λ makers. (p : points.Point) → get point_cmp makers p ≡ made_number (reverse tales.now) p) }
{
    let mut makers = BTreeMap::new(alloc);
    for (place, tale) in tales.iter().enumerate() {
        note(&mut makers, tale, place as u16 + 1)?;
    }
    Ok(makers)
}

/// The number under a point; 0 where none is.
fn number_at(makers: &BTreeMap<Point, u16>, point: &Point) -> u16
    ensures { result ≡ number_or (get point_cmp makers.now point.now) }
{
    match makers.get(point) {
        Some(number) => *number,
        None => 0,
    }
}

/// The number of the maker of an entry's point.
fn number_of(makers: &BTreeMap<Point, u16>, tale: &Tale) -> u16
    ensures { (whole : Rattle.std.specs.Prelude.List entries.Tale)
        → ((p : points.Point) → get point_cmp makers.now p ≡ made_number whole p) → result ≡ number_in whole tale.now }
{
    match tale {
        Tale::Wrote { point, .. } => number_at(makers, point),
        Tale::Moved { point, .. } => number_at(makers, point),
        Tale::ReadSome { point, .. } => number_at(makers, point),
        Tale::Shown { point, .. } => number_at(makers, point),
        _ => 0,
    }
}

/// The number of the maker of each entry's point; 0 where nobody made it.
pub fn maker_numbers(alloc: Global, tales: &[Tale]) -> Result<Vec<u16>, AllocError>
    requires few { length tales.now ≤ MOST_ENTRIES }
    requires unique { IsUnique (reverse tales.now) }
    ensures { IfOk result (λ numbers. numbers.items ≡ map (number_in (reverse tales.now)) tales.now) }
{
    let makers = makers_of(alloc, tales)?;
    let mut numbers = Vec::with_capacity(alloc, tales.len())?;
    for tale in tales {
        numbers.push(number_of(&makers, tale))?;
    }
    Ok(numbers)
}
