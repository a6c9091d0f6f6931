//! The pending labels of each gear, in the order of their making.
ghost use Rattle.std.specs.Prelude.{◌≡◌, ◌<◌, ◌+◌, List, get_or, length, map, OnOk};
ghost use Rattle.sat_label.specs.declared.label.Label.{Label};
ghost use Rattle.sat_label.specs.Least.{least_label};
ghost use Rattle.sat_gear.specs.Gear.{drained_of};
ghost use Rattle.sat_queue.specs.Queued.{Queued, members_of};
ghost use Rattle.sat_sink.specs.Found.{goes_before, InGearOrder, IsFound};
ghost use Rattle.sat_sink.specs.Pending.{all_of, is_up_to, joined, labels_of, AllRise, HaveRoomFrom};

use sat_bulk::Drained;
use sat_gear::Gear;
use sat_label::Label;
use sat_queue::Queue;
use std::alloc::AllocError;

/// Makes room in each gear's queue for what was drained from it.
pub fn reserve_all(queues: &mut [Queue<Label>], drained: &[Drained]) -> Result<(), AllocError>
    requires { length queues.old ≡ length drained.now }
    ensures labels { map members_of queues.new ≡ map members_of queues.old }
    ensures room { OnOk result (HaveRoomFrom 0 queues.new drained.now) }
{
    for (gear, drain) in drained.iter().enumerate() {
        queues[gear].reserve(drain.labels.as_slice().len())?;
    }
    Ok(())
}

/// Puts into each gear's queue what was drained from it. There is room.
pub fn extend_all(queues: &mut [Queue<Label>], drained: &[Drained])
    requires same { length queues.old ≡ length drained.now }
    requires room { HaveRoomFrom 0 queues.old drained.now }
    ensures { map members_of queues.new ≡ joined (map members_of queues.old) (map labels_of drained.now) }
{
    for (gear, drain) in drained.iter().enumerate() {
        queues[gear].extend(drain.labels.as_slice());
    }
}

/// Makes room in each gear's queue for the labels that the gear made since its last drain.
pub fn reserve_from(queues: &mut [Queue<Label>], gears: &[Gear]) -> Result<(), AllocError>
    requires { length queues.old ≡ length gears.now }
    ensures labels { map members_of queues.new ≡ map members_of queues.old }
    ensures room { OnOk result (HaveRoomFrom 0 queues.new (map drained_of gears.now)) }
{
    for (place, gear) in gears.iter().enumerate() {
        queues[place].reserve(gear.fresh().len())?;
    }
    Ok(())
}

/// Puts into each gear's queue the labels that the gear made since its last drain. There is room.
pub fn extend_from(queues: &mut [Queue<Label>], gears: &[Gear])
    requires same { length queues.old ≡ length gears.now }
    requires room { HaveRoomFrom 0 queues.old (map drained_of gears.now) }
    ensures { map members_of queues.new
        ≡ joined (map members_of queues.old) (map labels_of (map drained_of gears.now)) }
{
    for (place, gear) in gears.iter().enumerate() {
        queues[place].extend(gear.fresh());
    }
}

/// A queue, and the timestamp of its front.
#[derive(Clone, Copy)]
pub struct Found {
    pub place: usize,
    pub ts: u64,
}

// Whether a front with this timestamp goes before what was found; where nothing was, whether it is up to that one.
#[inline(always)]
fn goes_before(front: u64, found: Option<Found>, ts: u64) -> bool
    ensures { result ≡ goes_before front found ts }
{
    match found {
        None => front <= ts,
        Some(found) => front < found.ts,
    }
}

// What is found with one queue more. It looks at the timestamps alone: of two labels with one timestamp that of the
// lower gear is the lesser.
#[inline(always)]
fn with_queue(found: Option<Found>, place: usize, queue: &Queue<Label>, ts: u64) -> Option<Found>
    ensures { (queues : List (Queued Label)) → place < length queues → queue.now ≡ get_or queues place queue.now
        → AllRise queues → InGearOrder queues →
        IsFound ts queues place found → IsFound ts queues (place + 1) result }
{
    let Some(front) = queue.front() else {
        return found;
    };
    if !goes_before(front.point.ts, found, ts) {
        return found;
    }
    Some(Found {
        place,
        ts: front.point.ts,
    })
}

/// The least label of all queues with a timestamp up to this one. It looks at the fronts alone.
pub fn least_up_to(queues: &[Queue<Label>], ts: u64) -> Option<Label>
    requires rise { AllRise queues.now }
    requires order { InGearOrder queues.now }
    ensures { result ≡ least_label (is_up_to ts) (all_of (map members_of queues.now)) }
{
    let mut found = None;
    for (place, queue) in queues.iter().enumerate() {
        found = with_queue(found, place, queue, ts);
    }
    let found = found?;
    queues[found.place].front()
}
