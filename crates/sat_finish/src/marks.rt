//! The places of the entries in journals that may tell of parts. A walk of all pairs of nodes at a site reads these
//! alone, so that it takes each journal whole only once.
ghost use Rattle.std.specs.Prelude.{◌≡◌, ◌&&◌, IfOk, OnOk};
ghost use Rattle.sat_finish.specs.Marks.{HandedMarks, HubMarks, WrittenMarks, gear_tells, hub_tells, is_handed};
ghost use Rattle.sat_finish.specs.Marks.{is_shown, is_written, noted};

use crate::gear_parts::is_own;
use sat_act::Answer;
use sat_machines::Laid;
use sat_node::Kept;
use sat_parts::{GearAct, GearAnswer, GearInput, HubAct, HubAnswer, HubInput};
use std::alloc::{AllocError, Global};

fn note(marks: &mut Vec<usize>, place: usize, tells: bool) -> Result<(), AllocError>
    ensures { OnOk result (marks.new.items ≡ noted marks.old.items place tells) }
{
    if tells {
        marks.push(place)?;
    }
    Ok(())
}

fn is_shown(answer: &Answer) -> bool
    ensures { result ≡ is_shown answer.now }
{
    match answer {
        Answer::Shown(_) => true,
        _ => false,
    }
}

fn is_written(answer: &Answer) -> bool
    ensures { result ≡ is_written answer.now }
{
    match answer {
        Answer::Wrote(_) => true,
        _ => false,
    }
}

// ---- of a hub

fn hub_tells<N: Laid>(kept: &Kept<HubAct<N>, HubAnswer>) -> bool
    ensures { result ≡ hub_tells kept.now.input.input kept.now.answer.answer }
{
    match kept.input.input() {
        HubInput::Gather { drained: _ } => true,
        HubInput::Turn { front: _ } => is_shown(&kept.answer.answer),
        HubInput::Stamp => is_shown(&kept.answer.answer),
        HubInput::Attach { carried: _ } => false,
        HubInput::Emit => false,
        HubInput::Pulse => false,
        HubInput::Bulk { .. } => false,
        HubInput::Beat { to: _ } => false,
        HubInput::BeatIn { .. } => false,
        HubInput::Close => false,
        HubInput::Fall => false,
        HubInput::Advance => false,
    }
}

/// The places in a hub's journal of the entries that gears may have a part of, the oldest first.
pub(crate) fn hub_marks<N: Laid>(
    alloc: Global,
    journal: &[Kept<HubAct<N>, HubAnswer>],
) -> Result<Vec<usize>, AllocError>
    ensures { IfOk result (λ marks. HubMarks journal.now marks.items) }
{
    let mut marks = Vec::new(alloc);
    let mut place = 0usize;
    for kept in journal {
        note(&mut marks, place, hub_tells(kept))?;
        place += 1;
    }
    Ok(marks)
}

// ---- of a gear, as the home of writes

fn gear_tells<N: Laid>(kept: &Kept<GearAct<N>, GearAnswer>) -> bool
    ensures { result ≡ gear_tells kept.now.input.input kept.now.answer.answer }
{
    match kept.input.input() {
        GearInput::Write { .. } => is_written(&kept.answer.answer),
        GearInput::Tick { ts: _ } => false,
        GearInput::Read { .. } => false,
        GearInput::Move { .. } => false,
        GearInput::Drain { .. } => false,
        GearInput::Show { .. } => false,
    }
}

/// The places in a gear's journal of its own writes, of which other gears may have a part, the oldest first.
pub(crate) fn written_marks<N: Laid>(
    alloc: Global,
    journal: &[Kept<GearAct<N>, GearAnswer>],
) -> Result<Vec<usize>, AllocError>
    ensures { IfOk result (λ marks. WrittenMarks journal.now marks.items) }
{
    let mut marks = Vec::new(alloc);
    let mut place = 0usize;
    for kept in journal {
        note(&mut marks, place, gear_tells(kept))?;
        place += 1;
    }
    Ok(marks)
}

// ---- of a gear, as another one's

fn is_handed<N: Laid>(kept: &Kept<GearAct<N>, GearAnswer>) -> bool
    ensures { result ≡ is_handed kept.now.input.input kept.now.answer.answer }
{
    !is_own(kept.input.input()) && is_written(&kept.answer.answer)
}

/// The places in a gear's journal of its parts of other gears' writes, the oldest first.
pub(crate) fn handed_marks<N: Laid>(
    alloc: Global,
    journal: &[Kept<GearAct<N>, GearAnswer>],
) -> Result<Vec<usize>, AllocError>
    ensures { IfOk result (λ marks. HandedMarks journal.now marks.items) }
{
    let mut marks = Vec::new(alloc);
    let mut place = 0usize;
    for kept in journal {
        note(&mut marks, place, is_handed(kept))?;
        place += 1;
    }
    Ok(marks)
}
