//! The verdict on reading fresh: one pass over the entries.
ghost use Rattle.std.specs.Prelude.{◌≡◌, ◌≤◌, ◌<◌, ◌-◌, None, get_or, length, map, reverse, IsTrue};
ghost use Rattle.sat_verdict.specs.declared.limits.TheConstants.{MOST_ENTRIES};
ghost use Rattle.sat_verdict.specs.declared.tale.Tale.TheVariants as variants;
ghost use Rattle.sat_verdict.specs.Verdicts.{IsFreshVerdict};
ghost use Rattle.sat_verdict.specs.Found.{first};
ghost use Rattle.sat_verdict.specs.Tables.{number_in, scan, AreRows, HasClients, IsUnique};
ghost use Rattle.sat_verdict.specs.Greatest.{AreFresh};
ghost use Rattle.sat_verdict.specs.Passes.{item_of, passes, table_miss_by, table_miss, table_misses, table_fresh};

use crate::Tale;
use crate::row::Row;
use crate::scans::{count_in, lower, row_at};
use sat_label::Point;

/// Whether an entry wrote the item.
fn has_item(item: u16, entry: &Tale) -> bool
    ensures { result ≡ item_of item entry.now }
{
    match entry {
        Tale::Wrote { items, .. } => items.has(item),
        _ => false,
    }
}

/// Whether a point is above what was read, if anything was.
fn passes(read: Option<Point>, point: &Point) -> bool
    ensures { result ≡ passes read point.now }
{
    match read {
        Some(version) => version.is_below(point),
        None => true,
    }
}

/// Whether the maker with this number wrote the item.
fn made_item(tales: &[Tale], item: u16, number: u16) -> bool
    requires { 0 < number }
    ensures { result ≡ item_of item (get_or tales.now (number - 1) variants.Other) }
{
    match tales.get(number as usize - 1) {
        Some(entry) => has_item(item, entry),
        None => false,
    }
}

/// What one entry of a client tells of what a read missed.
fn miss_by(
    tales: &[Tale],
    rows: &[Row],
    place: usize,
    item: u16,
    read: Option<Point>,
    at: u16,
    number: u16,
    client: u16,
    point: &Point,
) -> Option<u16>
    ensures { result ≡ table_miss_by tales.now rows.now place item read at number client point.now }
{
    if number == 0 {
        return None;
    }
    let known = count_in(row_at(rows, place), client as usize);
    if at < known && made_item(tales, item, number) && passes(read, point) {
        Some(number)
    } else {
        None
    }
}

/// What one entry tells of what a read missed.
fn miss(
    entry: &Tale,
    tales: &[Tale],
    rows: &[Row],
    place: usize,
    item: u16,
    read: Option<Point>,
    at: u16,
    number: u16,
) -> Option<u16>
    ensures { result ≡ table_miss tales.now rows.now place item read at number entry.now }
{
    match entry {
        Tale::Wrote { client, point, .. } => miss_by(
            tales, rows, place, item, read, at, number, *client, point,
        ),
        Tale::ReadSome { client, point, .. } => miss_by(
            tales, rows, place, item, read, at, number, *client, point,
        ),
        _ => None,
    }
}

/// The least number of a maker of what a read missed.
fn least_miss(
    tales: &[Tale],
    numbers: &[u16],
    rows: &[Row],
    place: usize,
    item: u16,
    read: Option<Point>,
) -> Option<u16>
    requires few { length tales.now ≤ MOST_ENTRIES }
    requires numbers { length numbers.now ≡ length tales.now }
    requires place { place ≤ length tales.now }
    ensures { result ≡ scan (table_misses tales.now numbers.now rows.now place item read) place }
{
    let mut least = None;
    for at in 0..place {
        let found = miss(
            &tales[at],
            tales,
            rows,
            place,
            item,
            read,
            at as u16,
            numbers[at],
        );
        least = lower(least, found);
    }
    least
}

/// What was found first, or what this entry missed.
fn next_fresh(
    fresh: Option<(u64, u64)>,
    clear: bool,
    tales: &[Tale],
    numbers: &[u16],
    rows: &[Row],
    entry: &Tale,
    place: usize,
) -> Option<(u64, u64)>
    requires few { length tales.now ≤ MOST_ENTRIES }
    requires numbers { length numbers.now ≡ length tales.now }
    requires place { place ≤ length tales.now }
    requires clear { IsTrue clear → table_fresh tales.now numbers.now rows.now place entry.now ≡ None }
    ensures { result ≡ first fresh (table_fresh tales.now numbers.now rows.now place entry.now) }
{
    if fresh.is_some() {
        return fresh;
    }
    if clear {
        return None;
    }
    match entry {
        Tale::ReadSome { item, point, .. } => match least_miss(
            tales,
            numbers,
            rows,
            place,
            *item,
            Some(*point),
        ) {
            Some(maker) => Some((place as u64 + 1, maker as u64)),
            None => None,
        },
        Tale::ReadNone { item, .. } => match least_miss(tales, numbers, rows, place, *item, None) {
            Some(maker) => Some((place as u64 + 1, maker as u64)),
            None => None,
        },
        _ => None,
    }
}

/// Whether each read was fresh: none, or the first that missed an update of its past, and the entry that made it.
pub fn judge_reads(
    tales: &[Tale],
    numbers: &[u16],
    rows: &[Row],
    clear: &[bool],
    clients: u16,
) -> Option<(u64, u64)>
    requires few { length tales.now ≤ MOST_ENTRIES }
    requires numbers { numbers.now ≡ map (number_in (reverse tales.now)) tales.now }
    requires rows { AreRows tales.now clients rows.now }
    requires clear { AreFresh tales.now numbers.now rows.now clear.now }
    requires size { length clear.now ≡ length tales.now }
    requires clients { HasClients clients tales.now }
    requires unique { IsUnique (reverse tales.now) }
    ensures { IsFreshVerdict (reverse tales.now) result }
{
    let mut fresh = None;
    for (place, entry) in tales.iter().enumerate() {
        fresh = next_fresh(fresh, clear[place], tales, numbers, rows, entry, place);
    }
    fresh
}
