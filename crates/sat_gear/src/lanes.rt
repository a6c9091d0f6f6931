//! The payloads that a gear made, each once, and for each site which of them were made for it.
ghost use Rattle.std.specs.Prelude.{◌≡◌, ◌≤◌, ◌<◌, [], drop, get_or, length, map, replicate, slice_get, take, Some};
ghost use Rattle.std.specs.Prelude.{None, IfOk, OnOk, OnErr, MatchOption};
ghost use Rattle.sat_label.specs.Words.{bit};
ghost use Rattle.sat_queue.specs.Queued.{members_of};
ghost use Rattle.sat_gear.specs.Lanes.{count_of, lanes_where, numbers_where};

use crate::lane::{numbers, reserve_where, spread};
use sat_bulk::Payload;
use sat_label::{Counts, SiteSet};
use sat_queue::{Queue, empty_queues};
use std::alloc::{AllocError, Global};
use std::marker::Model;

// Contracts see for each site the payloads that were made for it.
#[derive(Drop)]
pub struct Lanes {
    // The payloads that were made for some site, no more than 32 bits number.
    made: Vec<Payload>,
    // For each site the places, among these, of those that were made for it.
    lanes: Vec<Queue<u32>>,
    // For each site how many, side by side: a gather reads all of them.
    counts: Vec<u64>,
}

impl Model for Lanes {
    ghost use Rattle.std.specs.Prelude.{List, map, length};
    ghost use Rattle.sat_bulk.specs.Payloads.{Payload};
    ghost use Rattle.sat_queue.specs.Queued.{members_of};
    ghost use Rattle.sat_gear.specs.Lanes.{picked, IsLaid};

    ghost Value = { List (List Payload) };

    ghost view = { λ a. map (picked a.made.items) (map members_of a.lanes.items) };

    ghost invariant = { λ a. IsLaid (length a.made.items) (map members_of a.lanes.items) a.counts.items };
}

// The place behind all payloads. From 2^32 on there is none, and so no memory.
fn next_place(made: &[Payload]) -> Result<u32, AllocError>
    ensures { IfOk result (λ place. place ≡ length made.now) }
{
    let Ok(place) = u32::try_from(made.len()) else {
        return Err(AllocError);
    };
    Ok(place)
}

impl Lanes {
    /// Empty lanes, one for each of so many sites.
    pub fn new(alloc: Global, sites: u16) -> Result<Lanes, AllocError>
        ensures { IfOk result (λ lanes. lanes ≡ replicate sites []) }
    {
        let lanes = empty_queues(alloc, sites as usize)?;
        let counts = vec![in alloc; 0; sites as usize]?;
        Ok(Lanes {
            made: Vec::new(alloc),
            lanes,
            counts,
        })
    }

    /// Puts a payload at the end of the lane of each site of a set; it is copied only where there is one. For want of
    /// memory the lanes are as before.
    pub fn add(&mut self, targets: SiteSet, payload: &Payload) -> Result<(), AllocError>
        requires { length self.old ≤ 64 }
        ensures ok { OnOk result (self.new ≡ lanes_where (bit targets.bits) payload.now 0 self.old) }
        ensures err { OnErr result (self.new ≡ self.old) }
    {
        if !targets.meets(&targets) {
            return Ok(());
        }
        let payload = payload.copy()?;
        self.push(targets, payload)?;
        Ok(())
    }

    /// How many payloads the lane of each site of a set holds.
    pub fn numbers(&self, targets: SiteSet) -> Result<Counts, AllocError>
        requires { length self.now ≤ 64 }
        ensures { IfOk result (λ counts. counts ≡ numbers_where (bit targets.bits) 0 self.now) }
    {
        let numbers = numbers(*self.made.allocator(), &self.lanes, targets)?;
        Ok(numbers)
    }

    // Puts a payload at the end of the lane of each site of a set. For want of memory the lanes are as before.
    fn push(&mut self, targets: SiteSet, payload: Payload) -> Result<(), AllocError>
        requires { length self.old ≤ 64 }
        ensures ok { OnOk result (self.new ≡ lanes_where (bit targets.bits) payload 0 self.old) }
        ensures err { OnErr result (self.new ≡ self.old) }
    {
        let place = next_place(&self.made)?;
        self.made.reserve(1)?;
        reserve_where(&mut self.lanes, targets)?;
        spread(&mut self.lanes, &mut self.counts, targets, place);
        self.made.push_reserved(payload);
        Ok(())
    }

    /// The payload with this number of the lane of a site, None where there is none.
    pub fn at(&self, site: u16, number: u64) -> Option<&Payload>
        requires { site < length self.now }
        ensures { MatchOption result (slice_get (get_or self.now site []) number ≡ None)
            (λ payload. slice_get (get_or self.now site []) number ≡ Some payload.now) }
    {
        let place = self.lanes[site as usize].get(number as usize)?;
        Some(&self.made[place as usize])
    }

    /// Copies of so many payloads of the lane of a site, from a number on, or of all that there are.
    #[tactic(auto, using(crate::proofs::Copies::copies_more, crate::proofs::Copies::copies_end, crate::proofs::Copies::copies_all))]
    pub fn copies(&self, site: u16, number: u64, most: usize) -> Result<Vec<Payload>, AllocError>
        requires { site < length self.now }
        ensures { IfOk result (λ copies. copies.items ≡ take most (drop number (get_or self.now site []))) }
    {
        let behind = self.count(site).saturating_sub(number);
        let count = behind.min(most as u64);
        let mut copies = Vec::with_capacity(*self.made.allocator(), count as usize)?;
        for offset in 0..count {
            let Some(payload) = self.at(site, number + offset) else {
                return Ok(copies);
            };
            copies.push(payload.copy()?)?;
        }
        Ok(copies)
    }

    /// How many payloads the lane of a site holds. It takes no memory.
    pub fn count(&self, site: u16) -> u64
        requires { site < length self.now }
        ensures { result ≡ length (get_or self.now site []) }
    {
        self.counts[site as usize]
    }

    /// How many payloads each lane holds.
    pub fn counts(&self, alloc: Global) -> Result<Counts, AllocError>
        ensures { IfOk result (λ counts. counts ≡ map count_of self.now) }
    {
        let mut counts = Counts::new(alloc);
        for count in self.counts.iter() {
            counts.push(*count)?;
        }
        Ok(counts)
    }

    /// Makes a list that of how many payloads each lane holds.
    pub fn count_into(&self, counts: &mut Vec<u64>) -> Result<(), AllocError>
        ensures { OnOk result (counts.new.items ≡ map count_of self.now) }
    {
        counts.clear();
        counts.extend_from_slice(&self.counts)?;
        Ok(())
    }
}
