//! The least maker's number of what a site lacks.
ghost use Rattle.std.specs.Prelude.{◌≡◌, ◌≤◌, [], get_or, length, slice_index};
ghost use Rattle.sat_verdict.specs.declared.limits.TheConstants.{MOST_ENTRIES};
ghost use Rattle.sat_verdict.specs.Goals.{no_sites};
ghost use Rattle.sat_verdict.specs.Found.{lower};
ghost use Rattle.sat_verdict.specs.Tables.{option_of, scan, table_lack, table_lack_by, table_lacks};

use crate::Tale;
use crate::row::Row;
use sat_label::SiteSet;

/// The number, if it is none but 0.
pub fn option_of(number: u16) -> Option<u16>
    ensures { result ≡ option_of number }
{
    if number == 0 { None } else { Some(number) }
}

/// The lower of two numbers, of which each may be missing.
pub fn lower(one: Option<u16>, other: Option<u16>) -> Option<u16>
    ensures { result ≡ lower one other }
{
    match one {
        None => other,
        Some(m) => match other {
            None => Some(m),
            Some(n) => { if m <= n { Some(m) } else { Some(n) } }
        },
    }
}

/// A row of a table; an empty one past its end.
pub fn row_at(rows: &[Row], place: usize) -> &[u16]
    ensures { result.now ≡ get_or rows.now place [] }
{
    match rows.get(place) {
        Some(row) => row.as_slice(),
        None => &[],
    }
}

/// A client's count in a row; 0 past its end.
pub fn count_in(row: &[u16], client: usize) -> u16
    ensures { result ≡ slice_index row.now client }
{
    match row.get(client) {
        Some(count) => *count,
        None => 0,
    }
}

/// A set of a table; none past its end.
pub fn set_at(sets: &[SiteSet], place: usize) -> SiteSet
    ensures { result ≡ get_or sets.now place no_sites }
{
    match sets.get(place) {
        Some(sites) => *sites,
        None => SiteSet { bits: 0 },
    }
}

/// What one entry of a client tells of what a site lacks.
fn lack_by(
    rows: &[Row],
    unshown: &[SiteSet],
    made: usize,
    site: u16,
    place: u16,
    number: u16,
    client: u16,
) -> Option<u16>
    ensures { result ≡ table_lack_by rows.now unshown.now made site place number client }
{
    if number == 0 {
        return None;
    }
    let known = count_in(row_at(rows, made), client as usize);
    if place < known && set_at(unshown, number as usize - 1).has(site) {
        Some(number)
    } else {
        None
    }
}

/// What one entry tells of what a site lacks.
fn lack(
    entry: &Tale,
    rows: &[Row],
    unshown: &[SiteSet],
    made: usize,
    site: u16,
    place: u16,
    number: u16,
) -> Option<u16>
    ensures { result ≡ table_lack rows.now unshown.now made site place number entry.now }
{
    match entry {
        Tale::Wrote { client, .. } => lack_by(rows, unshown, made, site, place, number, *client),
        Tale::ReadSome { client, .. } => lack_by(rows, unshown, made, site, place, number, *client),
        _ => None,
    }
}

/// The least number of a maker of a cause that a site lacks, when it shows what entry `made` (from 0) made.
pub fn least_lack(
    tales: &[Tale],
    numbers: &[u16],
    rows: &[Row],
    unshown: &[SiteSet],
    made: usize,
    site: u16,
) -> Option<u16>
    requires few { length tales.now ≤ MOST_ENTRIES }
    requires numbers { length numbers.now ≡ length tales.now }
    ensures { result ≡ scan (table_lacks rows.now unshown.now numbers.now tales.now made site) (length tales.now) }
{
    let mut least = None;
    for (place, entry) in tales.iter().enumerate() {
        let found = lack(
            entry,
            rows,
            unshown,
            made,
            site,
            place as u16,
            numbers[place],
        );
        least = lower(least, found);
    }
    least
}
