//! Labels that were sent and never taken.
ghost use Rattle.std.specs.Prelude.{◌≡◌, ◌≤◌, ◌++◌, ◌∷◌, [], ◌^◌, false, OnOk, IfOk};
ghost use Rattle.sat_draw.specs.Lost.{is_link, is_settled, takes, after_taking, beside, sending, sending_at};
ghost use Rattle.sat_draw.specs.Lost.{sendings_at, is_spot, lost_way, cross_for, crosses_by};
ghost use Rattle.sat_draw.specs.Tracks.{spot_by};

use crate::element::{Element, Spot};
use crate::tracks::spot_by;
use crate::trail::{Coming, SENT, TO_SERIALIZER, Trail};
use sat_act::Answer;
use std::alloc::{AllocError, Global};
use std::collections::BTreeMap;

/// A label that went over a link, with the mark from which it went, and where its way ends if it was lost.
#[derive(Clone, Copy, Debug, PartialEq, Eq)]
pub struct Sending {
    pub trail: Trail,
    pub here: Spot,
    pub end: Spot,
}

fn is_link(trail: Trail) -> bool
    ensures { result ≡ is_link trail }
{
    SENT <= trail.stop && trail.stop <= TO_SERIALIZER
}

pub(crate) fn is_settled(answer: &Answer) -> bool
    ensures { result ≡ is_settled answer.now }
{
    match answer {
        Answer::Settled { .. } => true,
        _ => false,
    }
}

// These were taken.
#[tactic(auto, using(crate::proofs::Taken::none_taken, crate::proofs::Taken::more_taken))]
fn take_up(under_way: &mut BTreeMap<Trail, Spot>, all: &[Coming])
    ensures { (t : Trail) → spot_by under_way.new t ≡ after_taking false all.now (spot_by under_way.old t) t }
{
    let Some((first, rest)) = all.split_first() else {
        return;
    };
    let _ = under_way.remove(&first.trail);
    take_up(under_way, rest);
}

/// These were taken, and by a settle whatever it will have been.
#[tactic(auto, using(crate::proofs::Taken::all_taken))]
pub(crate) fn end_ways(
    alloc: Global,
    under_way: &mut BTreeMap<Trail, Spot>,
    settled: bool,
    all: &[Coming],
)
    ensures { (t : Trail) → spot_by under_way.new t ≡ after_taking settled all.now (spot_by under_way.old t) t }
{
    if settled {
        *under_way = BTreeMap::new(alloc);
        return;
    }
    take_up(under_way, all);
}

fn push_sending(here: Spot, trail: Trail, out: &mut Vec<Sending>) -> Result<(), AllocError>
    requires right { here.x ≤ 400000000 }
    requires small { here.y ≤ 2 ^ 40 }
    ensures { OnOk result (out.new.items ≡ out.old.items ++ sending_at here trail) }
{
    if !is_link(trail) {
        return Ok(());
    }
    let end = Spot {
        x: here.x + 40,
        y: here.y + 11,
    };
    out.push(Sending { trail, here, end })?;
    Ok(())
}

/// Those of these trails that go over links, left here.
pub(crate) fn push_sendings(
    here: Spot,
    trails: &[Trail],
    out: &mut Vec<Sending>,
) -> Result<(), AllocError>
    requires right { here.x ≤ 400000000 }
    requires small { here.y ≤ 2 ^ 40 }
    ensures { OnOk result (out.new.items ≡ out.old.items ++ sendings_at here trails.now) }
{
    for trail in trails {
        push_sending(here, *trail, out)?;
    }
    Ok(())
}

fn is_spot(found: Option<Spot>, here: Spot) -> bool
    ensures { result ≡ is_spot found here }
{
    match found {
        None => false,
        Some(spot) => spot.x == here.x && spot.y == here.y,
    }
}

fn push_lost(
    under_way: &BTreeMap<Trail, Spot>,
    sending: Sending,
    out: &mut Vec<Element>,
) -> Result<(), AllocError>
    ensures { OnOk result (out.new.items ≡ out.old.items ++ cross_for (spot_by under_way.now) sending) }
{
    if !is_spot(spot_by(under_way, sending.trail), sending.here) {
        return Ok(());
    }
    out.push(Element::Lost {
        trail: sending.trail,
        from: sending.here,
        to: sending.end,
    })?;
    Ok(())
}

/// What is drawn of the labels that are still under way.
pub(crate) fn crosses(
    alloc: Global,
    under_way: &BTreeMap<Trail, Spot>,
    sendings: &[Sending],
) -> Result<Vec<Element>, AllocError>
    ensures { IfOk result (λ all. all.items ≡ crosses_by (spot_by under_way.now) sendings.now) }
{
    let mut all = Vec::new(alloc);
    for sending in sendings {
        push_lost(under_way, *sending, &mut all)?;
    }
    Ok(all)
}
