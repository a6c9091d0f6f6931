//! Of each client, how far its entries are known: by the client of each entry before it.
ghost use Rattle.std.specs.Prelude.{◌≡◌, ◌≤◌, length, map, reverse, IfOk};
ghost use Rattle.sat_verdict.specs.declared.limits.TheConstants.{MOST_ENTRIES};
ghost use Rattle.sat_verdict.specs.Tables.{number_in, row_before, AreBlankTo, AreRows, IsUnique, HasClients, Learns};
ghost use Rattle.sat_verdict.specs.Tables.{Raises};

use crate::Tale;
use crate::row::{Row, filled};
use crate::scans::row_at;
use std::alloc::{AllocError, Global};

/// For each client a row of so many zeros: before the first entry nobody knows anything.
fn none_known(alloc: Global, clients: u16) -> Result<Vec<Row>, AllocError>
    ensures { IfOk result (λ now. AreBlankTo clients clients now.items) }
{
    let mut now = Vec::with_capacity(alloc, clients as usize)?;
    for _ in 0..clients {
        let counts = filled(alloc, clients as usize, 0)?;
        now.push(Row { counts })?;
    }
    Ok(now)
}

/// What the client of an entry knows before it: all of its own entries, and of the others what is kept for it.
fn row_before(
    alloc: Global,
    now: &[Row],
    client: Option<u16>,
    place: u16,
) -> Result<Row, AllocError>
    ensures { IfOk result (λ row. row ≡ row_before now.now place client) }
{
    let Some(client) = client else {
        return Ok(Row::none(alloc));
    };
    let mut row = Row::of(alloc, row_at(now, client as usize))?;
    row.put(client as usize, place);
    Ok(row)
}

/// Raises what one client knows to what was known before the entry with this number, if that is one of the first so
/// many.
fn raise(now: &mut Vec<Row>, rows: &[Row], client: u16, number: u16, place: u16)
    ensures { Raises client number place rows.now now.old.items now.new.items }
{
    if number == 0 || number > place {
        return;
    }
    let at = client as usize;
    if at >= now.len() {
        return;
    }
    now[at].raise(row_at(rows, number as usize - 1));
}

/// Lets the client of an entry know what it learns by it.
fn learn(now: &mut Vec<Row>, rows: &[Row], entry: &Tale, number: u16, place: u16)
    ensures { Learns entry.now number place rows.now now.old.items now.new.items }
{
    match entry {
        Tale::ReadSome { client, .. } => raise(now, rows, *client, number, place),
        _ => {}
    }
}

/// Of each client, what the client of each entry knew before it.
pub fn rows_of(
    alloc: Global,
    tales: &[Tale],
    numbers: &[u16],
    clients: u16,
) -> Result<Vec<Row>, AllocError>
    requires few { length tales.now ≤ MOST_ENTRIES }
    requires numbers { numbers.now ≡ map (number_in (reverse tales.now)) tales.now }
    requires clients { HasClients clients tales.now }
    requires unique { IsUnique (reverse tales.now) }
    ensures { IfOk result (λ rows. AreRows tales.now clients rows.items) }
{
    let mut now = none_known(alloc, clients)?;
    let mut rows = Vec::with_capacity(alloc, tales.len())?;
    for (place, entry) in tales.iter().enumerate() {
        let row = row_before(alloc, now.as_slice(), entry.client(), place as u16)?;
        learn(
            &mut now,
            rows.as_slice(),
            entry,
            numbers[place],
            place as u16,
        );
        rows.push(row)?;
    }
    Ok(rows)
}
