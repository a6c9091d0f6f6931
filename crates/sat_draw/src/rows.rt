//! The rows of a drawing: one for each entry.
ghost use Rattle.std.specs.Prelude.{◌≡◌, ◌≤◌, ◌++◌, ◌∷◌, [], ◌^◌, ◌<◌, List, length, OnOk, IfOk};
ghost use Rattle.sat_act.specs.declared.entry.Entry.{Entry};
ghost use Rattle.sat_act.specs.Settling.{is_done};
ghost use Rattle.sat_report.specs.Answers.{answer_line};
ghost use Rattle.sat_script.specs.Spelled.{act_text};
ghost use Rattle.sat_draw.specs.Columns.{act_column, answers_x, rows_top};
ghost use Rattle.sat_draw.specs.Elements.{spelled};
ghost use Rattle.sat_draw.specs.Rows.{mark_spot, begin, arrow, arrow_for, arrows, is_across, rule, cross, is_killed};
ghost use Rattle.sat_draw.specs.Rows.{death};
ghost use Rattle.sat_draw.specs.Rows.{glow, signs, mark_ink, answer_ink, mark_title, mark_of, answer_of, act_of};
ghost use Rattle.sat_draw.specs.Rows.{ways_at, marks_at};
ghost use Rattle.sat_draw.specs.Trails.{born, comes_from};
ghost use Rattle.sat_draw.specs.Tracks.{seat_by, spot_by, IsDrawn};

use crate::columns::{answers_x, column_x, columns, seat_column, serializer_column, site_column};
use crate::element::{Element, Ink, Spot, Text};
use crate::geometry::ROW;
use crate::rests::begin;
use crate::spell::append_elements;
use crate::tracks::{Tracks, seat_by};
use crate::trail::{Coming, Trail, born, comes_from};
use sat_act::{Act, Answer, Deployment, Entry};
use sat_report::write_answer;
use sat_script::act_line;
use std::alloc::{AllocError, Global};
use std::collections::BTreeMap;

// The column of an act.
fn act_column(d: &Deployment, seats: &BTreeMap<u16, Option<u16>>, act: &Act) -> u64
    ensures column { result ≡ act_column d.now (seat_by d.now seats.now) act.now }
    ensures small { result ≤ 2000000 }
{
    match act {
        Act::Tick { site, .. } => site_column(d, *site),
        Act::Clock => 0,
        Act::Write { client, .. } => seat_column(d, seat_by(d, seats, *client)),
        Act::Writes { client, .. } => seat_column(d, seat_by(d, seats, *client)),
        Act::Read { client, .. } => seat_column(d, seat_by(d, seats, *client)),
        Act::Move { client, .. } => seat_column(d, seat_by(d, seats, *client)),
        Act::Leave { client } => seat_column(d, seat_by(d, seats, *client)),
        Act::Attach { site, .. } => site_column(d, *site),
        Act::Gather { site } => site_column(d, *site),
        Act::Emit { site } => site_column(d, *site),
        Act::Pulse { site } => site_column(d, *site),
        Act::Hop { epoch, to, .. } => serializer_column(d, *epoch, *to),
        Act::Turn { site } => site_column(d, *site),
        Act::Bulk { to, .. } => site_column(d, *to),
        Act::Beat { from, .. } => site_column(d, *from),
        Act::BeatIn { to, .. } => site_column(d, *to),
        Act::Stamp { site } => site_column(d, *site),
        Act::Close { site } => site_column(d, *site),
        Act::Fall { site } => site_column(d, *site),
        Act::Advance { site } => site_column(d, *site),
        Act::Kill { epoch, serializer } => serializer_column(d, *epoch, *serializer),
        Act::Settle => 0,
    }
}

// Where the mark of an entry stands.
fn mark_spot(
    d: &Deployment,
    seats: &BTreeMap<u16, Option<u16>>,
    top: u64,
    row: u64,
    entry: &Entry,
) -> Spot
    requires top { top ≡ rows_top d.now }
    requires low { top ≤ 40000000 }
    requires few { row < 2 ^ 32 }
    ensures spot { result ≡ mark_spot d.now (seat_by d.now seats.now) row entry.now }
    ensures left { 100 ≤ result.x }
    ensures right { result.x ≤ 400000000 }
    ensures below { 100 ≤ result.y }
    ensures small { result.y ≤ 2 ^ 40 }
{
    Spot {
        x: column_x(act_column(d, seats, &entry.act)),
        y: top + row * ROW,
    }
}

fn push_arrow(
    d: &Deployment,
    spots: &BTreeMap<Trail, Spot>,
    here: Spot,
    coming: Coming,
    out: &mut Vec<Element>,
) -> Result<(), AllocError>
    ensures { OnOk result (out.new.items ≡ out.old.items ++ arrow_for (begin d.now (spot_by spots.now)) here coming) }
{
    match begin(d, spots, coming.trail) {
        None => Ok(()),
        Some(there) => {
            out.push(Element::Way {
                ink: coming.ink,
                trail: coming.trail,
                from: there,
                to: here,
            })?;
            Ok(())
        }
    }
}

fn push_arrows(
    d: &Deployment,
    spots: &BTreeMap<Trail, Spot>,
    here: Spot,
    all: &[Coming],
    out: &mut Vec<Element>,
) -> Result<(), AllocError>
    ensures { OnOk result (out.new.items ≡ out.old.items ++ arrows (begin d.now (spot_by spots.now)) here all.now) }
{
    for coming in all {
        push_arrow(d, spots, here, *coming, out)?;
    }
    Ok(())
}

fn is_across(act: &Act) -> bool
    ensures { result ≡ is_across act.now }
{
    match act {
        Act::Clock => true,
        Act::Settle => true,
        _ => false,
    }
}

fn push_rule(
    d: &Deployment,
    act: &Act,
    here: Spot,
    out: &mut Vec<Element>,
) -> Result<(), AllocError>
    ensures { OnOk result (out.new.items ≡ out.old.items ++ rule d.now act.now here) }
{
    if !is_across(act) {
        return Ok(());
    }
    let end = Spot {
        x: column_x(columns(d) - 1),
        y: here.y,
    };
    out.push(Element::Line {
        ink: Ink::Rule,
        from: here,
        to: end,
    })?;
    Ok(())
}

fn push_cross(ink: Ink, at: Spot, out: &mut Vec<Element>) -> Result<(), AllocError>
    requires left { 100 ≤ at.x }
    requires right { at.x ≤ 400000000 }
    requires below { 100 ≤ at.y }
    requires small { at.y ≤ 2 ^ 40 }
    ensures { OnOk result (out.new.items ≡ out.old.items ++ cross ink at) }
{
    let (left, right, top, bottom) = (at.x - 7, at.x + 7, at.y - 7, at.y + 7);
    out.push(Element::Line {
        ink,
        from: Spot { x: left, y: top },
        to: Spot {
            x: right,
            y: bottom,
        },
    })?;
    out.push(Element::Line {
        ink,
        from: Spot { x: left, y: bottom },
        to: Spot { x: right, y: top },
    })?;
    Ok(())
}

fn is_killed(answer: &Answer) -> bool
    ensures { result ≡ is_killed answer.now }
{
    match answer {
        Answer::Killed => true,
        _ => false,
    }
}

fn push_death(answer: &Answer, here: Spot, out: &mut Vec<Element>) -> Result<(), AllocError>
    requires left { 100 ≤ here.x }
    requires right { here.x ≤ 400000000 }
    requires below { 100 ≤ here.y }
    requires small { here.y ≤ 2 ^ 40 }
    ensures { OnOk result (out.new.items ≡ out.old.items ++ death answer.now here) }
{
    if !is_killed(answer) {
        return Ok(());
    }
    push_cross(Ink::Dead, here, out)
}

fn push_glow(born: Option<Trail>, out: &mut Vec<Element>) -> Result<(), AllocError>
    ensures { OnOk result (out.new.items ≡ out.old.items ++ glow born) }
{
    match born {
        None => Ok(()),
        Some(trail) => {
            out.push(Element::Glow { trail })?;
            Ok(())
        }
    }
}

// What a row has besides its mark and what leads to it.
fn push_signs(
    d: &Deployment,
    here: Spot,
    entry: &Entry,
    out: &mut Vec<Element>,
) -> Result<(), AllocError>
    requires left { 100 ≤ here.x }
    requires right { here.x ≤ 400000000 }
    requires below { 100 ≤ here.y }
    requires small { here.y ≤ 2 ^ 40 }
    ensures { OnOk result (out.new.items ≡ out.old.items ++ signs d.now here entry.now) }
{
    push_rule(d, &entry.act, here, out)?;
    push_death(&entry.answer, here, out)?;
    push_glow(born(&entry.answer), out)
}

fn is_done(answer: &Answer) -> bool
    ensures { result ≡ is_done answer.now }
{
    match answer {
        Answer::Refused(_) => false,
        Answer::Again => false,
        Answer::Old => false,
        _ => true,
    }
}

fn mark_ink(answer: &Answer) -> Ink
    ensures { result ≡ mark_ink answer.now }
{
    if is_done(answer) {
        Ink::Done
    } else {
        Ink::Refused
    }
}

fn answer_ink(answer: &Answer) -> Ink
    ensures { result ≡ answer_ink answer.now }
{
    if is_done(answer) {
        Ink::Said
    } else {
        Ink::Denied
    }
}

// The line of an entry's answer, with its number.
fn answer_text(
    alloc: Global,
    d: &Deployment,
    number: u64,
    entry: &Entry,
) -> Result<Text, AllocError>
    ensures { IfOk result (λ text. text ≡ answer_line d.now number entry.now.act entry.now.answer) }
{
    let mut bytes = Vec::new(alloc);
    write_answer(d, number, entry, &mut bytes)?;
    Ok(Text::of(bytes))
}

// The act's line, and that of its answer.
fn title_text(alloc: Global, d: &Deployment, number: u64, entry: &Entry) -> Result<Text, AllocError>
    ensures { IfOk result (λ text. text ≡ (act_text d.now entry.now.act ++ 10 ∷ [])
        ++ answer_line d.now number entry.now.act entry.now.answer) }
{
    let mut bytes = act_line(alloc, d, &entry.act)?;
    bytes.push(b'\n')?;
    write_answer(d, number, entry, &mut bytes)?;
    Ok(Text::of(bytes))
}

fn mark_of(
    alloc: Global,
    d: &Deployment,
    row: u64,
    here: Spot,
    entry: &Entry,
) -> Result<Element, AllocError>
    requires { row < 2 ^ 32 }
    ensures { IfOk result (λ element. element ≡ mark_of d.now row here entry.now) }
{
    let text = title_text(alloc, d, row + 1, entry)?;
    Ok(Element::Dot {
        ink: mark_ink(&entry.answer),
        at: here,
        text,
    })
}

fn answer_of(
    alloc: Global,
    d: &Deployment,
    row: u64,
    here: Spot,
    entry: &Entry,
) -> Result<Element, AllocError>
    requires few { row < 2 ^ 32 }
    requires small { here.y ≤ 2 ^ 40 }
    ensures { IfOk result (λ element. element ≡ answer_of d.now row here entry.now) }
{
    let text = answer_text(alloc, d, row + 1, entry)?;
    Ok(Element::Word {
        ink: answer_ink(&entry.answer),
        at: Spot {
            x: answers_x(d),
            y: here.y + 4,
        },
        text,
    })
}

fn act_of(alloc: Global, d: &Deployment, here: Spot, entry: &Entry) -> Result<Element, AllocError>
    requires { here.y ≤ 2 ^ 40 }
    ensures { IfOk result (λ element. element ≡ act_of d.now here entry.now) }
{
    let line = act_line(alloc, d, &entry.act)?;
    Ok(Element::Word {
        ink: Ink::Act,
        at: Spot {
            x: 8,
            y: here.y + 4,
        },
        text: Text::of(line),
    })
}

// The mark of an entry and the words of its row.
fn marks_at(
    alloc: Global,
    d: &Deployment,
    row: u64,
    here: Spot,
    entry: &Entry,
) -> Result<Vec<Element>, AllocError>
    requires few { row < 2 ^ 32 }
    requires small { here.y ≤ 2 ^ 40 }
    ensures { IfOk result (λ all. all.items ≡ marks_at d.now row here entry.now) }
{
    let mark = mark_of(alloc, d, row, here, entry)?;
    let answer = answer_of(alloc, d, row, here, entry)?;
    let act = act_of(alloc, d, here, entry)?;
    let mut all = Vec::new(alloc);
    all.push(mark)?;
    all.push(answer)?;
    all.push(act)?;
    Ok(all)
}

// What leads to a mark that stands here.
fn ways_at(
    alloc: Global,
    d: &Deployment,
    spots: &BTreeMap<Trail, Spot>,
    here: Spot,
    entry: &Entry,
) -> Result<Vec<Element>, AllocError>
    requires left { 100 ≤ here.x }
    requires right { here.x ≤ 400000000 }
    requires below { 100 ≤ here.y }
    requires small { here.y ≤ 2 ^ 40 }
    ensures { IfOk result (λ all. all.items ≡ ways_at d.now (spot_by spots.now) here entry.now) }
{
    let mut all = Vec::new(alloc);
    push_signs(d, here, entry, &mut all)?;
    let coming = comes_from(alloc, entry)?;
    push_arrows(d, spots, here, coming.as_slice(), &mut all)?;
    Ok(all)
}

/// Appends what leads to the mark of an entry to one text, and the mark and its words to another, and follows the
/// entry.
pub(crate) fn append_row(
    alloc: Global,
    d: &Deployment,
    tracks: &mut Tracks,
    top: u64,
    row: u64,
    entry: &Entry,
    lines: &mut Vec<u8>,
    words: &mut Vec<u8>,
) -> Result<(), AllocError>
    requires top { top ≡ rows_top d.now }
    requires low { top ≤ 40000000 }
    requires few { row < 2 ^ 32 }
    ensures { OnOk result ((earlier : List Entry) → row ≡ length earlier
        → IsDrawn d.now lines.old.items words.old.items tracks.old earlier
        → IsDrawn d.now lines.new.items words.new.items tracks.new (earlier ++ entry.now ∷ [])) }
{
    let here = mark_spot(d, &tracks.seats, top, row, entry);
    let ways = ways_at(alloc, d, &tracks.spots, here, entry)?;
    append_elements(ways.as_slice(), lines)?;
    let marks = marks_at(alloc, d, row, here, entry)?;
    append_elements(marks.as_slice(), words)?;
    tracks.follow(alloc, entry, here)?;
    Ok(())
}
