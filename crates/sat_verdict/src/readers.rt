//! A fast way to see that a read missed nothing.
//!
//! The reads of one client after another: for each other client a place is kept, below which all that this client wrote
//! or read is noted. A client's past only grows, so each place only moves on.
ghost use Rattle.std.specs.Prelude.{◌≡◌, ◌≤◌, ◌<◌, ℕ, [], None, false, length, get_or, slice_index, IsTrue, IfOk};
ghost use Rattle.sat_verdict.specs.declared.limits.TheConstants.{MOST_ENTRIES};
ghost use Rattle.sat_verdict.specs.Tables.{HasClients};
ghost use Rattle.sat_verdict.specs.Passes.{table_fresh};
ghost use Rattle.sat_verdict.specs.declared.tale.Tale.TheVariants as variants;
ghost use Rattle.sat_verdict.specs.Walks.{AreLinks, IsOwn, IsPast, Linked};
ghost use Rattle.sat_verdict.specs.Greatest.{is_none_above, AreAbsorbed, AreFresh, AreRead, Rises};

use crate::Tale;
use crate::greatest::{Noted, absorb, greatest_of, none_noted};
use crate::links::Links;
use crate::row::Row;
use crate::scans::{count_in, row_at};
use sat_label::Point;
use std::alloc::{AllocError, Global};

/// Notes what one client wrote or read from one of its entries on, until none is left below a count.
fn catch_up(
    noted: &mut Vec<Noted>,
    tales: &[Tale],
    numbers: &[u16],
    next: &[u16],
    reader: u16,
    from: u16,
    to: u16,
) -> u16
    requires size { length noted.old.items ≡ 65536 }
    requires numbers { length numbers.now ≡ length tales.now }
    requires links { AreLinks tales.now next.now }
    ensures size { length noted.new.items ≡ 65536 }
    ensures rises { Rises reader noted.old.items noted.new.items }
    ensures walked { (c : ℕ) → IsOwn tales.now c from → IsOwn tales.now c result × IsPast tales.now to result
        × AreAbsorbed tales.now numbers.now noted.new.items reader c from result }
{
    let mut at = from;
    while at < to && (at as usize) < tales.len() {
        let place = at as usize;
        absorb(noted, tales, reader, &tales[place], numbers[place]);
        at = next[place];
    }
    at
}

/// Notes what the client of an entry knew before it, and moves its places on.
fn catch_up_all(
    places: &mut Row,
    noted: &mut Vec<Noted>,
    tales: &[Tale],
    numbers: &[u16],
    next: &[u16],
    rows: &[Row],
    reader: u16,
    place: usize,
)
    requires size { length noted.old.items ≡ 65536 }
    requires numbers { length numbers.now ≡ length tales.now }
    requires links { AreLinks tales.now next.now }
    requires read { AreRead tales.now numbers.now noted.old.items reader places.old }
    ensures size { length noted.new.items ≡ 65536 }
    ensures places { length places.new ≡ length places.old }
    ensures read { AreRead tales.now numbers.now noted.new.items reader places.new }
    ensures past { (c : ℕ) → c < length places.new
        → IsPast tales.now (slice_index (get_or rows.now place []) c) (slice_index places.new c) }
{
    let row = row_at(rows, place);
    for client in 0..places.len() {
        let from = places.at(client);
        let to = count_in(row, client);
        let at = catch_up(noted, tales, numbers, next, reader, from, to);
        places.set(client, at);
    }
}

/// Whether no point is above what was read; where nothing was, whether there is no point.
fn is_none_above(greatest: Option<Point>, read: Option<Point>) -> bool
    ensures { result ≡ is_none_above greatest read }
{
    match greatest {
        None => true,
        Some(greatest) => match read {
            Some(version) => !version.is_below(&greatest),
            None => false,
        },
    }
}

/// Whether an entry surely missed nothing. A read moves its client's places on.
fn is_fresh(
    places: &mut Row,
    noted: &mut Vec<Noted>,
    tales: &[Tale],
    numbers: &[u16],
    next: &[u16],
    rows: &[Row],
    reader: u16,
    place: usize,
) -> bool
    requires size { length noted.old.items ≡ 65536 }
    requires numbers { length numbers.now ≡ length tales.now }
    requires links { AreLinks tales.now next.now }
    requires clients { HasClients (length places.old) tales.now }
    requires place { place < length tales.now }
    requires read { AreRead tales.now numbers.now noted.old.items reader places.old }
    ensures size { length noted.new.items ≡ 65536 }
    ensures places { length places.new ≡ length places.old }
    ensures read { AreRead tales.now numbers.now noted.new.items reader places.new }
    ensures fresh { IsTrue result
        → table_fresh tales.now numbers.now rows.now place (get_or tales.now place variants.Other) ≡ None }
{
    match &tales[place] {
        Tale::ReadSome { item, point, .. } => {
            catch_up_all(places, noted, tales, numbers, next, rows, reader, place);
            is_none_above(greatest_of(noted.as_slice(), reader, *item), Some(*point))
        }
        Tale::ReadNone { item, .. } => {
            catch_up_all(places, noted, tales, numbers, next, rows, reader, place);
            is_none_above(greatest_of(noted.as_slice(), reader, *item), None)
        }
        _ => true,
    }
}

/// Goes over the entries of one client, and marks those that surely missed nothing.
fn mark_fresh(
    fresh: &mut Vec<bool>,
    places: &mut Row,
    noted: &mut Vec<Noted>,
    tales: &[Tale],
    numbers: &[u16],
    next: &[u16],
    rows: &[Row],
    reader: u16,
    first: u16,
)
    requires size { length noted.old.items ≡ 65536 }
    requires numbers { length numbers.now ≡ length tales.now }
    requires links { AreLinks tales.now next.now }
    requires clients { HasClients (length places.old) tales.now }
    requires read { AreRead tales.now numbers.now noted.old.items reader places.old }
    requires marks { length fresh.old.items ≡ length tales.now }
    requires fresh { AreFresh tales.now numbers.now rows.now fresh.old.items }
    ensures size { length noted.new.items ≡ 65536 }
    ensures marks { length fresh.new.items ≡ length tales.now }
    ensures fresh { AreFresh tales.now numbers.now rows.now fresh.new.items }
{
    let mut at = first;
    while (at as usize) < tales.len() {
        let place = at as usize;
        let found = is_fresh(places, noted, tales, numbers, next, rows, reader, place);
        fresh[place] = found;
        at = next[place];
    }
}

/// So many entries that are not marked.
fn no_marks(alloc: Global, size: usize) -> Result<Vec<bool>, AllocError>
    ensures size { IfOk result (λ marks. length marks.items ≡ size) }
    ensures none { IfOk result (λ marks. (i : ℕ) → get_or marks.items i false ≡ false) }
{
    let marks: Vec<bool> = vec![in alloc; false; size]?;
    Ok(marks)
}

/// Marks each entry of a client that surely missed nothing.
pub fn fresh_entries(
    alloc: Global,
    tales: &[Tale],
    numbers: &[u16],
    rows: &[Row],
    links: &Links,
    clients: u16,
) -> Result<Vec<bool>, AllocError>
    requires few { length tales.now ≤ MOST_ENTRIES }
    requires numbers { length numbers.now ≡ length tales.now }
    requires clients { HasClients clients tales.now }
    requires links { Linked tales.now clients links.now.heads.items links.now.next.items 0 }
    ensures marks { IfOk result (λ fresh. length fresh.items ≡ length tales.now) }
    ensures fresh { IfOk result (λ fresh. AreFresh tales.now numbers.now rows.now fresh.items) }
{
    let mut noted = none_noted(alloc)?;
    let mut fresh = no_marks(alloc, tales.len())?;
    for reader in 0..clients {
        let mut places = Row::of(alloc, links.heads.as_slice())?;
        mark_fresh(
            &mut fresh,
            &mut places,
            &mut noted,
            tales,
            numbers,
            links.next.as_slice(),
            rows,
            reader,
            links.heads[reader as usize],
        );
    }
    Ok(fresh)
}
