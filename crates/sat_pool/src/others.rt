//! What waits of one site beside its queues.
ghost use Rattle.std.specs.Prelude.{◌≡◌, [], option_copied, IfOk, IfErr, OnOk, OnErr};
ghost use Rattle.std.specs.BTreeMap.{insert_entry, is_at};
ghost use Rattle.std.specs.Map.{lookup};
ghost use Rattle.sat_pool.specs.Pool.{at_point, placed, without};
ghost use Rattle.sat_pool.specs.Rows.{first_label, point_cmp, Ascends};

use sat_bulk::Payload;
use sat_label::{Label, Point};
use std::alloc::Global;
use std::collections::BTreeMap;
use std::marker::Model;

/// The payloads that came behind later ones of their gear, by their points. Contracts see the list of the payloads.
#[derive(Drop)]
pub struct Others {
    waiting: BTreeMap<Point, Payload>,
}

impl Model for Others {
    ghost use Rattle.std.specs.Prelude.{List};
    ghost use Rattle.std.specs.Map.{values_of};
    ghost use Rattle.sat_bulk.specs.Payloads as bulk;
    ghost use Rattle.sat_pool.specs.Rows.{IsKeptRow};

    ghost Value = { List bulk.Payload };

    ghost view = { λ a. values_of a.waiting.entries };

    ghost invariant = { λ a. IsKeptRow a.waiting.entries };
}

// Puts a payload under its point; one that was there comes back. For want of memory the payload itself does, and the
// map is as before.
fn put(waiting: &mut BTreeMap<Point, Payload>, payload: Payload) -> Result<Option<Payload>, Payload>
    ensures before { IfOk result (λ before. before
        ≡ lookup (is_at (point_cmp payload.label.point)) waiting.old.entries) }
    ensures ok { OnOk result (waiting.new.entries
        ≡ insert_entry point_cmp waiting.old.entries payload.label.point payload) }
    ensures back { IfErr result (λ back. back ≡ payload) }
    ensures err { OnErr result (waiting.new.entries ≡ waiting.old.entries) }
{
    let point = payload.label().point;
    match waiting.insert(point, payload) {
        Ok(before) => Ok(before),
        Err(failed) => Err(failed.value.1),
    }
}

impl Others {
    /// Nothing waits. It takes no memory.
    pub fn new(alloc: Global) -> Others
        ensures { result ≡ [] }
    {
        Others {
            waiting: BTreeMap::new(alloc),
        }
    }

    /// One payload more waits; one that waited at its point comes back. For want of memory the payload itself does, and
    /// all is as before.
    pub fn insert(&mut self, payload: Payload) -> Result<Option<Payload>, Payload>
        ensures before { IfOk result (λ before. before ≡ at_point self.old payload.label.point) }
        ensures ok { OnOk result (self.new ≡ placed self.old payload) }
        ensures back { IfErr result (λ back. back ≡ payload) }
        ensures err { OnErr result (self.new ≡ self.old) }
    {
        let before = put(&mut self.waiting, payload)?;
        Ok(before)
    }

    /// The payload that waits at a point. It takes no memory.
    #[inline(always)]
    pub fn get(&self, point: &Point) -> Option<&Payload>
        ensures { option_copied result ≡ at_point self.now point.now }
    {
        if self.waiting.is_empty() {
            return None;
        }
        self.find(point)
    }

    // The same, where some wait. A call of its own, since mostly none does.
    #[inline(never)]
    fn find(&self, point: &Point) -> Option<&Payload>
        ensures { option_copied result ≡ at_point self.now point.now }
    {
        self.waiting.get(point)
    }

    /// Takes the payload that waits at a point. It takes no memory.
    #[tactic(auto, using(crate::proofs::Keyed::removed_seen))]
    pub fn remove(&mut self, point: &Point) -> Option<Payload>
        ensures found { result ≡ at_point self.old point.now }
        ensures new { self.new ≡ without self.old point.now }
    {
        self.waiting.remove(point)
    }

    /// The first label, which is the least.
    pub fn first(&self) -> Option<Label>
        ensures first { result ≡ first_label self.now }
        ensures ascends { Ascends self.now }
    {
        match self.waiting.first_key_value() {
            None => None,
            Some((_, payload)) => Some(payload.label()),
        }
    }
}
