//! A fast way to see that a site lacks no cause of what it shows.
//!
//! For each site and each client a place is kept: all that the client wrote or read below it was shown at the site, or
//! has no item of the site. It stays so, since what was shown stays shown. So each place only moves on.
ghost use Rattle.std.specs.Prelude.{◌≡◌, ◌-◌, ◌==◌, ◌&&◌, not, ℕ, None, length, get_or, IfSome, IsTrue};
ghost use Rattle.sat_label.specs.Words.{bit};
ghost use Rattle.sat_verdict.specs.Goals.{no_sites};
ghost use Rattle.sat_verdict.specs.Tables.{scan, table_lacks};
ghost use Rattle.sat_verdict.specs.Walks.{is_open, AreClosed, AreDone, AreLinks, IsClear, IsDone, IsOwn, IsPast};

use crate::Tale;
use crate::row::Row;
use crate::scans::{count_in, row_at, set_at};
use sat_label::SiteSet;

/// Whether the point that an entry with this number made is one that a site replicates and did not show.
fn is_unshown(unshown: &[SiteSet], number: u16, site: u16) -> bool
    ensures { result ≡ (not (number == 0) && bit (get_or unshown.now (number - 1) no_sites).bits site) }
{
    number != 0 && set_at(unshown, number as usize - 1).has(site)
}

/// Whether an entry wrote or read a point that a site replicates and did not show.
fn is_open(tale: &Tale, number: u16, unshown: &[SiteSet], site: u16) -> bool
    ensures { result ≡ is_open unshown.now site number tale.now }
{
    match tale {
        Tale::Wrote { .. } => is_unshown(unshown, number, site),
        Tale::ReadSome { .. } => is_unshown(unshown, number, site),
        _ => false,
    }
}

/// Walks over one client's entries from one of them on, until none is left below a count. None where an entry is open
/// on the way.
fn walk(
    tales: &[Tale],
    numbers: &[u16],
    next: &[u16],
    unshown: &[SiteSet],
    site: u16,
    from: u16,
    to: u16,
) -> Option<u16>
    requires numbers { length numbers.now ≡ length tales.now }
    requires links { AreLinks tales.now next.now }
    ensures { (c : ℕ) → IsOwn tales.now c from
        → IfSome result (λ at. IsOwn tales.now c at × IsPast tales.now to at
        × AreClosed tales.now numbers.now unshown.now site c from at) }
{
    let mut at = from;
    while at < to && (at as usize) < tales.len() {
        let place = at as usize;
        if is_open(&tales[place], numbers[place], unshown, site) {
            return None;
        }
        at = next[place];
    }
    Some(at)
}

/// Moves a site's places on to what the maker of a point knew. False where an entry is open on the way.
fn moves_on(
    done: &mut Row,
    tales: &[Tale],
    numbers: &[u16],
    next: &[u16],
    rows: &[Row],
    unshown: &[SiteSet],
    made: usize,
    site: u16,
) -> bool
    requires numbers { length numbers.now ≡ length tales.now }
    requires links { AreLinks tales.now next.now }
    requires done { IsDone tales.now numbers.now unshown.now site done.old }
    ensures done { IsDone tales.now numbers.now unshown.now site done.new }
    ensures clear { IsTrue result
        → scan (table_lacks rows.now unshown.now numbers.now tales.now made site) (length tales.now) ≡ None }
{
    let row = row_at(rows, made);
    for client in 0..done.len() {
        let from = done.at(client);
        let to = count_in(row, client);
        match walk(tales, numbers, next, unshown, site, from, to) {
            Some(at) => done.set(client, at),
            None => return false,
        }
    }
    true
}

/// Whether a site surely lacks no cause of the point that it shows, made by the entry with this number.
pub fn is_clear(
    done: &mut Vec<Row>,
    tales: &[Tale],
    numbers: &[u16],
    next: &[u16],
    rows: &[Row],
    unshown: &[SiteSet],
    site: Option<u16>,
    number: u16,
) -> bool
    requires numbers { length numbers.now ≡ length tales.now }
    requires links { AreLinks tales.now next.now }
    requires done { AreDone tales.now numbers.now unshown.now done.old.items }
    ensures done { AreDone tales.now numbers.now unshown.now done.new.items }
    ensures clear { IsTrue result → IsClear tales.now numbers.now rows.now unshown.now site number }
{
    let Some(site) = site else { return true };
    if number == 0 {
        return true;
    }
    let place = site as usize;
    if place >= done.len() {
        return false;
    }
    moves_on(
        &mut done[place],
        tales,
        numbers,
        next,
        rows,
        unshown,
        number as usize - 1,
        site,
    )
}
