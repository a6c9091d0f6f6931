//! The drawing of the run of a script.
ghost use Rattle.std.specs.Prelude.{◌≡◌, ◌≤◌, ◌++◌, List, length, reverse, codes, IfOk, OnOk};
ghost use Rattle.sat_act.specs.declared.entry.Entry.{Entry};
ghost use Rattle.sat_draw.specs.Columns.{rows_top, row_y, answers_x};
ghost use Rattle.sat_draw.specs.Elements.{spelled};
ghost use Rattle.sat_draw.specs.Head.{head};
ghost use Rattle.sat_draw.specs.Tracks.{IsDrawn, HasRows};
ghost use Rattle.sat_draw.specs.Drawing.{opening, title_text, start, drawing};
ghost use Rattle.sat_draw.specs.Laws.{EachIsDrawnOnce, WaysAreTold};
ghost use Rattle.sat_draw.specs.Moved.{smalls, SmallsAreTold};
ghost use Rattle.sat_draw.specs.Seats.{IsOfRun, PathsAreAtSeats};

use crate::columns::{answers_x, rows_top};
use crate::geometry::{NAMES, RIGHT, ROW};
use crate::head::{caption, head};
use crate::legend::legend;
use crate::lost::crosses;
use crate::moved::{Moved, smalls};
use crate::rests::rests;
use crate::rows::append_row;
use crate::spell::append_elements;
use crate::tracks::Tracks;
use sat_act::{Deployment, Entry};
use std::alloc::{AllocError, Global};

fn append_opening(width: u64, height: u64, out: &mut Vec<u8>) -> Result<(), AllocError>
    ensures { OnOk result (out.new.items ≡ out.old.items ++ opening width height) }
{
    let text = format!(in *out.allocator();
        "<svg xmlns='http://www.w3.org/2000/svg' viewBox='0 0 {width} {height}' width='{width}' height='{height}' "
    )?;
    out.extend_from_slice(text.as_bytes())
}

fn append_title(
    alloc: Global,
    d: &Deployment,
    count: u64,
    out: &mut Vec<u8>,
) -> Result<(), AllocError>
    ensures { OnOk result (out.new.items ≡ out.old.items ++ title_text d.now count) }
{
    let title = caption(alloc, d, count)?;
    out.extend_from_slice(b"role='img' aria-labelledby='t'>\n<title id='t'>")?;
    out.extend_from_slice(title.bytes())?;
    out.extend_from_slice(b"</title>\n")?;
    Ok(())
}

// The first line, and the title.
fn start(alloc: Global, d: &Deployment, top: u64, count: u64) -> Result<Vec<u8>, AllocError>
    requires top { top ≡ rows_top d.now }
    requires low { top ≤ 40000000 }
    requires few { count ≤ 4294967296 }
    ensures { IfOk result (λ text. text.items ≡ start d.now count) }
{
    let mut text = Vec::new(alloc);
    append_opening(answers_x(d) + RIGHT, top + count * ROW + NAMES, &mut text)?;
    append_title(alloc, d, count, &mut text)?;
    Ok(text)
}

fn append_head(
    alloc: Global,
    d: &Deployment,
    top: u64,
    count: u64,
    out: &mut Vec<u8>,
) -> Result<(), AllocError>
    requires top { top ≡ rows_top d.now }
    requires low { top ≤ 40000000 }
    requires few { count ≤ 4294967296 }
    ensures { OnOk result (out.new.items ≡ out.old.items ++ spelled (head d.now count)) }
{
    let all = head(alloc, d, top, count)?;
    append_elements(all.as_slice(), out)
}

// The rows' lines and then their words, with the labels that were lost and with what stays down to y.
fn append_drawn(
    alloc: Global,
    d: &Deployment,
    tracks: &Tracks,
    y: u64,
    lines: Vec<u8>,
    words: &[u8],
    out: &mut Vec<u8>,
) -> Result<(), AllocError>
    ensures { OnOk result ((entries : List Entry) → y ≡ row_y d.now (length entries)
        → IsDrawn d.now lines.items words.now tracks.now entries
        → HasRows d.now out.old.items out.new.items (reverse entries)) }
{
    let mut lines = lines;
    let lost = crosses(alloc, &tracks.under_way, tracks.sendings.as_slice())?;
    append_elements(lost.as_slice(), &mut lines)?;
    let stays = rests(alloc, d, tracks, y)?;
    append_elements(stays.as_slice(), &mut lines)?;
    out.extend_from_slice(lines.as_slice())?;
    out.extend_from_slice(words)?;
    Ok(())
}

fn append_rows(
    alloc: Global,
    d: &Deployment,
    top: u64,
    entries: &[Entry],
    out: &mut Vec<u8>,
) -> Result<(), AllocError>
    requires top { top ≡ rows_top d.now }
    requires low { top ≤ 40000000 }
    requires few { length entries.now ≤ 4294967296 }
    ensures { OnOk result (HasRows d.now out.old.items out.new.items (reverse entries.now)) }
{
    let mut tracks = Tracks::new(alloc);
    let mut lines = Vec::new(alloc);
    let mut words = Vec::new(alloc);
    for (place, entry) in entries.iter().enumerate() {
        append_row(
            alloc,
            d,
            &mut tracks,
            top,
            place as u64,
            entry,
            &mut lines,
            &mut words,
        )?;
    }
    let bottom = top + entries.len() as u64 * ROW;
    append_drawn(alloc, d, &tracks, bottom, lines, words.as_slice(), out)?;
    Ok(())
}

fn append_moved(
    alloc: Global,
    d: &Deployment,
    moved: &[Moved],
    out: &mut Vec<u8>,
) -> Result<(), AllocError>
    ensures { OnOk result (out.new.items ≡ out.old.items ++ spelled (smalls d.now moved.now)) }
{
    let all = smalls(alloc, d, moved)?;
    append_elements(all.as_slice(), out)
}

/// The drawing of a history as an SVG: a row for each of these entries, which stand in their order, the oldest first,
/// and are at most 2^32; and, thin in the rows of their settles, what entries moved that a settle made, of each settle
/// the first forty.
#[tactic(auto, unfolding(crate::specs::Drawing::drawing, crate::specs::Drawing::elements))]
pub fn draw(
    alloc: Global,
    d: &Deployment,
    entries: &[Entry],
    moved: &[Moved],
) -> Result<Vec<u8>, AllocError>
    requires { length entries.now ≤ 4294967296 }
    ensures text { IfOk result (λ text. text.items ≡ drawing d.now (reverse entries.now) moved.now) }
    ensures once { IfOk result (λ _. EachIsDrawnOnce d.now (reverse entries.now)) }
    ensures told { IfOk result (λ _. WaysAreTold d.now (reverse entries.now)) }
    ensures seats { IfOk result (λ _. IsOfRun d.now (reverse entries.now)
        → PathsAreAtSeats d.now (reverse entries.now)) }
    ensures small { IfOk result (λ _. SmallsAreTold d.now moved.now) }
{
    let top = rows_top(d);
    let count = entries.len() as u64;
    let mut text = start(alloc, d, top, count)?;
    text.extend_from_slice(legend().as_bytes())?;
    append_moved(alloc, d, moved, &mut text)?;
    append_head(alloc, d, top, count, &mut text)?;
    append_rows(alloc, d, top, entries, &mut text)?;
    text.extend_from_slice(b"</svg>\n")?;
    Ok(text)
}
