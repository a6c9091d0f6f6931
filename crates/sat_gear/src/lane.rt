//! The places, among all payloads that a gear made, of those that it made for each site.
ghost use Rattle.std.specs.Prelude.{ℕ, ◌≡◌, ◌≤◌, ◌<◌, length, map, true, false, IfOk, OnOk};
ghost use Rattle.sat_label.specs.Words.{bit};
ghost use Rattle.sat_queue.specs.Queued.{members_of};
ghost use Rattle.sat_gear.specs.Lanes.{count_of, numbers_where, HaveRoomWhere, Spread};

use sat_label::{Counts, SiteSet};
use sat_queue::Queue;
use std::alloc::{AllocError, Global};

// The first site of a set from one on, and a number from 64 on where there is none.
#[inline(always)]
fn site_from(set: SiteSet, from: usize) -> usize
    ensures up { from ≤ result }
    ensures passed { (k : ℕ) → from ≤ k → k < result → bit set.bits k ≡ false }
    ensures here { result < 64 → bit set.bits result ≡ true }
{
    if from >= 64 {
        return from;
    }
    let rest = set.bits >> from;
    if rest == 0 {
        return 64;
    }
    from + rest.trailing_zeros() as usize
}

/// Makes room for one place more in the lane of each site of a set.
pub fn reserve_where(lanes: &mut [Queue<u32>], targets: SiteSet) -> Result<(), AllocError>
    requires few { length lanes.old ≤ 64 }
    ensures members { map members_of lanes.new ≡ map members_of lanes.old }
    ensures room { OnOk result (HaveRoomWhere (bit targets.bits) (length lanes.new) lanes.new) }
{
    let mut site = site_from(targets, 0);
    'sites: while site < lanes.len() {
        lanes[site].reserve(1)?;
        site = site_from(targets, site + 1);
    }
    Ok(())
}

/// Puts a place at the end of the lane of each site of a set, and counts it there. There is room.
pub fn spread(lanes: &mut [Queue<u32>], counts: &mut [u64], targets: SiteSet, place: u32)
    requires room { HaveRoomWhere (bit targets.bits) (length lanes.old) lanes.old }
    requires few { length lanes.old ≤ 64 }
    requires counted { counts.old ≡ map count_of (map members_of lanes.old) }
    ensures spread { Spread (bit targets.bits) place (length lanes.old) (map members_of lanes.old)
        (map members_of lanes.new) }
    ensures counted { counts.new ≡ map count_of (map members_of lanes.new) }
{
    let mut site = site_from(targets, 0);
    'sites: while site < lanes.len() {
        lanes[site].push(place);
        counts[site] = lanes[site].len() as u64;
        site = site_from(targets, site + 1);
    }
}

/// How many places each lane of a set of sites has.
pub fn numbers(alloc: Global, lanes: &[Queue<u32>], targets: SiteSet) -> Result<Counts, AllocError>
    requires { length lanes.now ≤ 64 }
    ensures { IfOk result (λ counts. counts ≡ numbers_where (bit targets.bits) 0 (map members_of lanes.now)) }
{
    let mut numbers = Counts::new(alloc);
    for (site, lane) in lanes.iter().enumerate() {
        if targets.has(site as u16) {
            numbers.push(lane.len() as u64)?;
        }
    }
    Ok(numbers)
}
