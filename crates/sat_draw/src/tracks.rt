//! What is kept of the entries so far.
ghost use Rattle.std.specs.Prelude.{ℕ, ◌≡◌, ◌≤◌, ◌^◌, [], OnOk, Option, None, unwrap_or};
ghost use Rattle.std.specs.BTreeMap.{get};
ghost use Rattle.std.specs.Ordering.{nat_cmp};
ghost use Rattle.sat_act.specs.declared.entry.Entry.{Entry};
ghost use Rattle.sat_act.specs.Parts.{home};
ghost use Rattle.sat_draw.specs.declared.trail.Trail.{Trail};
ghost use Rattle.sat_draw.specs.Trails.{trail_cmp, after_change, reseated, left_by};
ghost use Rattle.sat_draw.specs.Rows.{after_leaving};
ghost use Rattle.sat_draw.specs.Tracks.{seat_by, spot_by, Moves};

use crate::element::Spot;
use crate::lost::{Sending, end_ways, is_settled, push_sendings};
use crate::trail::{Trail, comes_from, left_by, reseated};
use sat_act::{Deployment, Entry};
use std::alloc::{AllocError, Global};
use std::collections::BTreeMap;

/// Where each trail was left last, and the seats of the clients whose seat changed.
#[derive(Drop)]
pub struct Tracks {
    pub spots: BTreeMap<Trail, Spot>,
    pub seats: BTreeMap<u16, Option<u16>>,
    /// Those that were not taken since.
    pub under_way: BTreeMap<Trail, Spot>,
    /// The labels that went over links.
    pub sendings: Vec<Sending>,
}

// The site of a client's header line.
#[tactic(auto, unfolding(sat_act::specs::Parts::home))]
pub(crate) fn home(d: &Deployment, client: u64) -> Option<u16>
    ensures { result ≡ home d.now client }
{
    match d.clients().get(client as usize) {
        Some(line) => Some(line.site),
        None => None,
    }
}

/// The seat of a client.
pub(crate) fn seat_by(
    d: &Deployment,
    seats: &BTreeMap<u16, Option<u16>>,
    client: u16,
) -> Option<u16>
    ensures { result ≡ seat_by d.now seats.now client }
{
    match seats.get(&client) {
        Some(seat) => *seat,
        None => home(d, u64::from(client)),
    }
}

/// Where a trail was left last.
pub(crate) fn spot_by(spots: &BTreeMap<Trail, Spot>, trail: Trail) -> Option<Spot>
    ensures { result ≡ spot_by spots.now trail }
{
    spots.get(&trail).copied()
}

// The trails were left here.
#[tactic(auto, using(crate::proofs::Trails::none_left, crate::proofs::Trails::more_left))]
fn leave(spots: &mut BTreeMap<Trail, Spot>, trails: &[Trail], here: Spot) -> Result<(), AllocError>
    ensures { OnOk result ((t : Trail) → spot_by spots.new t ≡ after_leaving trails.now here (spot_by spots.old t) t) }
{
    let Some((first, rest)) = trails.split_first() else {
        return Ok(());
    };
    spots.insert(*first, here)?;
    leave(spots, rest, here)
}

// A seat changed.
fn reseat(
    seats: &mut BTreeMap<u16, Option<u16>>,
    change: Option<(u16, Option<u16>)>,
) -> Result<(), AllocError>
    ensures { OnOk result ((first : Option ℕ) (c : ℕ) → unwrap_or (get nat_cmp seats.new c) first
        ≡ after_change change (unwrap_or (get nat_cmp seats.old c) first) c) }
{
    match change {
        None => Ok(()),
        Some((client, seat)) => {
            seats.insert(client, seat)?;
            Ok(())
        }
    }
}

impl Tracks {
    /// Nothing was done. It takes no memory.
    pub(crate) fn new(alloc: Global) -> Tracks
        ensures seats { (c : ℕ) → get nat_cmp result.seats c ≡ None }
        ensures spots { (t : Trail) → spot_by result.spots t ≡ None }
        ensures under_way { (t : Trail) → spot_by result.under_way t ≡ None }
        ensures sendings { result.sendings.items ≡ [] }
    {
        Tracks {
            spots: BTreeMap::new(alloc),
            seats: BTreeMap::new(alloc),
            under_way: BTreeMap::new(alloc),
            sendings: Vec::new(alloc),
        }
    }

    /// An entry was marked here.
    pub(crate) fn follow(
        &mut self,
        alloc: Global,
        entry: &Entry,
        here: Spot,
    ) -> Result<(), AllocError>
        requires right { here.x ≤ 400000000 }
        requires small { here.y ≤ 2 ^ 40 }
        ensures { OnOk result (Moves self.old entry.now here self.new) }
    {
        let coming = comes_from(alloc, entry)?;
        let trails = left_by(alloc, entry)?;
        let settled = is_settled(&entry.answer);
        end_ways(alloc, &mut self.under_way, settled, coming.as_slice());
        leave(&mut self.under_way, trails.as_slice(), here)?;
        push_sendings(here, trails.as_slice(), &mut self.sendings)?;
        leave(&mut self.spots, trails.as_slice(), here)?;
        reseat(&mut self.seats, reseated(entry))?;
        Ok(())
    }
}
