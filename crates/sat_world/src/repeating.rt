//! Acts of a world that are done until one is refused.
ghost use Rattle.std.specs.Prelude.{◌≡◌, ◌≤◌, ◌<◌, ℕ, None, IfOk, OnErr};
ghost use Rattle.sat_act.specs.Ranges.{IsActOf};
ghost use Rattle.sat_world.specs.declared.repeating.TheConstants.{MOST};
ghost use Rattle.sat_world.specs.Again.{Again, Spends};

use crate::{World, nets, places};
use sat_act::Act;
use sat_label::NodeId;
use std::alloc::AllocError;

// At most so many payloads of a lane come in at once.
const MOST: usize = 256;

// No memory holds the payloads of so many times.
const MOST_PARTS: u64 = 1 << 55;

// How many payloads come in at once, behind a time when some of so many did. Copies are made of all, in vain of those
// that overtook the others; so where not all came it begins with one anew.
fn next_most(most: usize, came: u64) -> usize
    requires some { 0 < most }
    requires most { most ≤ MOST }
    ensures some { 0 < result }
    ensures most { result ≤ MOST }
{
    if came < most as u64 {
        1
    } else {
        MOST.min(2 * most)
    }
}

impl World {
    /// Hops of an epoch's tree over one link, each as `apply` does it, until one is refused: how many were done. For
    /// want of memory some were done.
    pub fn hops(&mut self, epoch: u16, from: NodeId, to: u16) -> Result<u64, AllocError>
        requires { IsActOf self.old.deployment (Act.Hop epoch from to) }
        ensures ok { IfOk result (λ done. Spends (Act.Hop epoch from to) self.old done self.new) }
        ensures err { OnErr result ((done : ℕ) × Again (Act.Hop epoch from to) self.old done self.new) }
        ensures deployment { self.new.deployment ≡ self.old.deployment }
    {
        let place = epoch as usize - 1;
        let done = nets::hops_at(&mut self.nets, place, &self.interest, from, to)?;
        Ok(done)
    }

    // Payloads of a lane come in, at most so many, each as the next of the lane: how many, none where none is left.
    fn bulk_some(&mut self, from: u16, gear: u16, to: u16, most: usize) -> Result<u64, AllocError>
        requires act { IsActOf self.old.deployment (Act.Bulk from gear to None) }
        requires some { 0 < most }
        requires most { most ≤ MOST }
        ensures ok { IfOk result (λ done. Again (Act.Bulk from gear to None) self.old done self.new) }
        ensures most { IfOk result (λ done. done ≤ most) }
        ensures end { IfOk result (λ done. done ≡ 0 → Spends (Act.Bulk from gear to None) self.new 0 self.new) }
        ensures err { OnErr result (Again (Act.Bulk from gear to None) self.old 0 self.new) }
        ensures deployment { self.new.deployment ≡ self.old.deployment }
    {
        let receiver = &self.sites[to as usize];
        let first = receiver.front(from, gear);
        // No memory holds payloads whose number has more than 63 bits.
        if first >= (1 << 63) - MOST as u64 {
            return Err(AllocError);
        }
        let sender = &self.sites[from as usize];
        let payloads = sender.copies(gear, to, first, most)?;
        if payloads.is_empty() {
            return Ok(0);
        }
        let came = places::bulk_all_at(&mut self.sites, to, from, gear, first, payloads);
        // The first one is the next of the lane, so it was memory that lacked.
        if came == 0 {
            return Err(AllocError);
        }
        Ok(came as u64)
    }

    /// Payloads of a lane come in, the next one each time, each as `apply` does it, until one is refused: how many
    /// came. For want of memory some came.
    pub fn bulks(&mut self, from: u16, gear: u16, to: u16) -> Result<u64, AllocError>
        requires { IsActOf self.old.deployment (Act.Bulk from gear to None) }
        ensures ok { IfOk result (λ done. Spends (Act.Bulk from gear to None) self.old done self.new) }
        ensures err { OnErr result ((done : ℕ) × Again (Act.Bulk from gear to None) self.old done self.new) }
        ensures deployment { self.new.deployment ≡ self.old.deployment }
    {
        let mut done: u64 = 0;
        let mut most: usize = 1;
        for _ in 0..MOST_PARTS {
            let more = self.bulk_some(from, gear, to, most)?;
            if more == 0 {
                return Ok(done);
            }
            done += more;
            most = next_most(most, more);
        }
        Err(AllocError)
    }

    /// Turns of a site, each as `apply` does it, until one is refused: how many were done. It takes no memory.
    pub fn turns(&mut self, site: u16) -> u64
        requires { IsActOf self.old.deployment (Act.Turn site) }
        ensures spends { Spends (Act.Turn site) self.old result self.new }
        ensures deployment { self.new.deployment ≡ self.old.deployment }
    {
        let known = &self.sites[site as usize];
        let place = known.view().view as usize - 1;
        if !nets::is_there(&self.nets, place) {
            return 0;
        }
        let mut labels = nets::lend_at(&mut self.nets, place, site);
        let (done, shown) = places::turn_all_at(&mut self.sites, site, &mut labels);
        nets::restore_at(&mut self.nets, place, site, labels);
        self.shown = self.shown.saturating_add(shown);
        done
    }
}
