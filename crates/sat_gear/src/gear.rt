//! Gears.
ghost use Rattle.std.specs.Prelude.{ℕ, ◌≡◌, ◌≤◌, ◌<◌, ◌↔◌, ◌^◌, [], length, max, true, slice_get, Some, None, IfOk};
ghost use Rattle.std.specs.Prelude.{IsErrOf, IsOkUnless, OnErr, MatchOption, OnOk, ◌+◌, ◌/◌, false, if◌then◌else◌};
ghost use Rattle.std.specs.Prelude.{drop, take};
ghost use Rattle.sat_label.specs.declared.label.Kind.TheVariants.{Update, Move};
ghost use Rattle.sat_label.specs.Grouped.{list_of};
ghost use Rattle.sat_sites.specs.Interested.{IsLabelOf};
ghost use Rattle.sat_store.specs.Stored.{is_kept};
ghost use Rattle.sat_label.specs.Order.{point_at};
ghost use Rattle.sat_gear.specs.Gear.{after_drain, stamp_base, drained_of, fresh_gear, is_spent, lane_to, after_move};
ghost use Rattle.sat_gear.specs.Gear.{lane_numbers, payload_with, places, after_show, stamped, after_tick, version_of};
ghost use Rattle.sat_gear.specs.Gear.{after_write, AreItemsOf, IsGear, IsItemOf, IsKindHere, IsNextStamp, IsShape};
ghost use Rattle.sat_gear.specs.Gear.{is_due};

use crate::lanes::Lanes;
use crate::{GearFault, Stamped};
use sat_bulk::{Drained, Payload};
use sat_label::{Counts, Items, Kind, Label, Labels, Point, TS_END, Value, Version};
use sat_sites::Shape;
use sat_store::{Put, Store};
use std::alloc::{AllocError, Global};
use std::marker::Model;

/// One gear of a site. Contracts see what it was made from; its promise, and what that was at the last drain; the
/// labels that it made since then; for each site the payloads that it made for it; and the versions of its items.
#[derive(Drop)]
pub struct Gear {
    alloc: Global,
    shape: Shape,
    gear: u16,
    promise: u64,
    drained_promise: u64,
    fresh: Vec<Label>,
    lanes: Lanes,
    store: Store,
}

impl Model for Gear {
    ghost use Rattle.sat_gear.specs.Gear.{GearSeen, IsGear};

    ghost Value = { GearSeen };

    ghost view = { λ a.
        record {
          shape = a.shape;
          gear = a.gear;
          promise = a.promise;
          drained_promise = a.drained_promise;
          fresh = a.fresh.items;
          lanes = a.lanes;
          versions = a.store;
        } };

    ghost invariant = { λ a.
        IsGear
        (record {
          shape = a.shape;
          gear = a.gear;
          promise = a.promise;
          drained_promise = a.drained_promise;
          fresh = a.fresh.items;
          lanes = a.lanes;
          versions = a.store;
        }) };
}

// How many of so many items one of so many gears may have.
#[tactic(auto, using(crate::proofs::Places::places_fit))]
fn places(items: usize, gears: u16) -> u16
    requires items { items < 2 ^ 16 }
    requires gears { 0 < gears }
    ensures { result ≡ places items gears }
{
    items.div_ceil(gears as usize) as u16
}

impl Gear {
    /// The gear with this number of a site, which has promised and made nothing. It asks for a shape of at least one
    /// gear whose site is one of the sites that its interest is for, and for less than 65,536 items.
    pub fn new(alloc: Global, shape: &Shape, gear: u16) -> Result<Gear, AllocError>
        requires shape { IsShape shape.now }
        requires gear { gear < shape.now.gears }
        ensures { IfOk result (λ made. made ≡ fresh_gear shape.now gear) }
    {
        let shape = shape.copy()?;
        let lanes = Lanes::new(alloc, shape.sites)?;
        let places = places(shape.interest.items(), shape.gears);
        let store = Store::new(alloc, places)?;
        Ok(Gear {
            alloc,
            shape,
            gear,
            promise: 0,
            drained_promise: 0,
            fresh: Vec::new(alloc),
            lanes,
            store,
        })
    }

    /// The timestamp up to which the gear makes no label any more.
    pub fn promise(&self) -> u64
        ensures promise { result ≡ self.now.promise }
        ensures limits { IsGear self.now }
    {
        self.promise
    }

    /// Raises the promise to at least this timestamp, and answers it. It takes no memory.
    pub fn tick(&mut self, t: u64) -> u64
        requires { t ≤ 2 ^ 62 }
        ensures promise { result ≡ max self.old.promise t }
        ensures new { self.new ≡ after_tick self.old t }
    {
        self.promise = self.promise.max(t);
        self.promise
    }

    // The place of an item among those of this gear.
    #[tactic(auto, using(crate::proofs::Places::within_places))]
    fn place(&self, item: u16) -> u16
        requires { IsItemOf self.now item }
        ensures place { result ≡ item / self.now.shape.gears }
        ensures within { result < length self.now.versions }
    {
        item / self.shape.gears
    }

    // The timestamp of the next label for a client that saw a point, None where no timestamp is left.
    fn next(&self, seen: Point) -> Option<u64>
        ensures { result ≡ (if is_spent self.now seen then None else Some (stamp_base self.now seen + 1)) }
    {
        let base = self.promise.max(seen.ts);
        if base >= TS_END {
            return None;
        }
        Some(base + 1)
    }

    /// Stamps an update of items for a client that saw a point: its timestamp is the one above the gear's promise and
    /// the client's point, and is the new promise. The update joins the lanes of its targets, with a copy of each
    /// value; what it shows here,
    /// `show` puts for each item. `Spent` says that no timestamp is left; then, and for want of memory, all is as
    /// before. It asks that the least item is one of this gear, that the site keeps all of them, and that there is a
    /// value for each.
    pub fn write(
        &mut self,
        seen: Point,
        items: Items,
        values: &[Value],
    ) -> Result<Stamped, GearFault>
        requires items { AreItemsOf self.old (list_of items) }
        requires values { length values.now ≡ length (list_of items) }
        ensures spent { is_spent self.old seen ≡ true → IsErrOf result GearFault.Spent }
        ensures ok { is_spent self.old seen ≡ false → IsOkUnless result GearFault.Memory }
        ensures label { IfOk result (λ s. s.label ≡ stamped self.old seen (Update items)) }
        ensures numbers { IfOk result (λ s. s.numbers ≡ lane_numbers self.old s.label) }
        ensures new { IfOk result (λ s. self.new ≡ after_write self.old (payload_with s.label values.now)) }
        ensures err { OnErr result (self.new ≡ self.old) }
    {
        let _ = &self.shape;
        let Some(ts) = self.next(seen) else {
            return Err(GearFault::Spent);
        };
        let label = self.label(ts, Kind::Update(items));
        let numbers = self.numbers(&label)?;
        self.take_update(label, items, values)?;
        Ok(Stamped { label, numbers })
    }

    /// Stamps an update as `write` does, and answers its payload, which the lanes share.
    pub fn stamp_write(
        &mut self,
        seen: Point,
        items: Items,
        values: &[Value],
    ) -> Result<Payload, GearFault>
        requires items { AreItemsOf self.old (list_of items) }
        requires values { length values.now ≡ length (list_of items) }
        ensures spent { is_spent self.old seen ≡ true → IsErrOf result GearFault.Spent }
        ensures ok { is_spent self.old seen ≡ false → IsOkUnless result GearFault.Memory }
        ensures label { IfOk result (λ p. p ≡ payload_with (stamped self.old seen (Update items)) values.now) }
        ensures new { IfOk result (λ p. self.new ≡ after_write self.old p) }
        ensures err { OnErr result (self.new ≡ self.old) }
    {
        let Some(ts) = self.next(seen) else {
            return Err(GearFault::Spent);
        };
        let label = self.label(ts, Kind::Update(items));
        let payload = self.take_update(label, items, values)?;
        Ok(payload)
    }

    // The number that a label's payload gets in the lane of each target.
    fn numbers(&self, label: &Label) -> Result<Counts, AllocError>
        requires { IsLabelOf self.now.shape.interest label.now }
        ensures { IfOk result (λ numbers. numbers ≡ lane_numbers self.now label.now) }
    {
        let targets = self.shape.interest.targets(label);
        let numbers = self.lanes.numbers(targets)?;
        Ok(numbers)
    }

    // A label of this gear.
    fn label(&self, ts: u64, kind: Kind) -> Label
        ensures { result ≡ record { point = point_at ts self.now.shape.site self.now.gear; kind = kind } }
    {
        Label {
            point: Point {
                ts,
                site: self.shape.site,
                gear: self.gear,
            },
            kind,
        }
    }

    // Takes in an update of these items that was just stamped, and answers its payload.
    fn take_update(
        &mut self,
        label: Label,
        items: Items,
        values: &[Value],
    ) -> Result<Payload, AllocError>
        requires items { AreItemsOf self.old (list_of items) }
        requires next { IsNextStamp self.old label }
        requires kind { label.kind ≡ Update items }
        requires values { length values.now ≡ length (list_of items) }
        ensures payload { IfOk result (λ p. p ≡ payload_with label values.now) }
        ensures new { IfOk result (λ p. self.new ≡ after_write self.old p) }
        ensures err { OnErr result (self.new ≡ self.old) }
    {
        let targets = self.shape.interest.targets(&label);
        let payload = Payload::new(self.alloc, label, values)?;
        self.fresh.reserve(1)?;
        self.lanes.add(targets, &payload)?;
        self.fresh.push_reserved(label);
        self.promise = label.point.ts;
        Ok(payload)
    }

    /// Stamps a move to a site for a client that saw a point, as `write` does. It asks for gear 0, which stamps the
    /// moves.
    pub fn stamp_move(&mut self, seen: Point, to: u16) -> Result<Label, GearFault>
        requires gear { self.old.gear ≡ 0 }
        requires site { to < self.old.shape.sites }
        ensures spent { is_spent self.old seen ≡ true → IsErrOf result GearFault.Spent }
        ensures ok { is_spent self.old seen ≡ false → IsOkUnless result GearFault.Memory }
        ensures label { IfOk result (λ l. l ≡ stamped self.old seen (Move to)) }
        ensures new { IfOk result (λ l. self.new ≡ after_move self.old l) }
        ensures err { OnErr result (self.new ≡ self.old) }
    {
        let Some(ts) = self.next(seen) else {
            return Err(GearFault::Spent);
        };
        let label = self.label(ts, Kind::Move(to));
        self.take_move(label)?;
        Ok(label)
    }

    // Takes in a move that was just stamped.
    fn take_move(&mut self, label: Label) -> Result<(), AllocError>
        requires next { IsNextStamp self.old label }
        requires kind { IsKindHere self.old label.kind }
        ensures ok { OnOk result (self.new ≡ after_move self.old label) }
        ensures err { OnErr result (self.new ≡ self.old) }
    {
        self.fresh.push(label)?;
        self.promise = label.point.ts;
        Ok(())
    }

    /// Shows the version that an update makes of an item of this gear: the one with the greater label stays. The
    /// promise stays. It takes no memory.
    pub fn show(&mut self, item: u16, version: Version) -> Put
        requires { IsItemOf self.old item }
        ensures new { self.new ≡ after_show self.old item version }
        ensures kept { result ≡ Put.Kept ↔ is_kept (version_of self.old item) version.label }
    {
        let place = self.place(item);
        self.store.put(place, version)
    }

    /// The version of an item of this gear, None exactly where it shows none.
    pub fn read(&self, item: u16) -> Option<&Version>
        requires { IsItemOf self.now item }
        ensures { MatchOption result (version_of self.now item ≡ None)
            (λ version. version_of self.now item ≡ Some version.now) }
    {
        let place = self.place(item);
        self.store.get(place)
    }

    /// The payload with this number of those made for a site, None exactly where there is none.
    pub fn payload(&self, to: u16, number: u64) -> Option<&Payload>
        requires { to < self.now.shape.sites }
        ensures payload { MatchOption result (slice_get (lane_to self.now to) number ≡ None)
            (λ payload. slice_get (lane_to self.now to) number ≡ Some payload.now) }
        ensures limits { IsGear self.now }
    {
        self.lanes.at(to, number)
    }

    /// Copies of so many payloads made for a site, from a number on, or of all that there are.
    pub fn copies(&self, to: u16, number: u64, most: usize) -> Result<Vec<Payload>, AllocError>
        requires { to < self.now.shape.sites }
        ensures copies { IfOk result (λ copies. copies.items ≡ take most (drop number (lane_to self.now to))) }
        ensures limits { IsGear self.now }
    {
        self.lanes.copies(to, number, most)
    }

    /// How many payloads were made for a site. It takes no memory.
    pub fn made_for(&self, to: u16) -> u64
        requires { to < self.now.shape.sites }
        ensures made { result ≡ length (lane_to self.now to) }
        ensures limits { IsGear self.now }
    {
        self.lanes.count(to)
    }

    /// Whether a drain would take something: a label that was not drained, or a promise above the last drained one. It
    /// takes no memory.
    pub fn is_due(&self) -> bool
        ensures { result ≡ is_due self.now }
    {
        !self.fresh.is_empty() || self.drained_promise < self.promise
    }

    /// The labels made since the last drain. It takes no memory.
    pub fn fresh(&self) -> &[Label]
        ensures { result.now ≡ self.now.fresh }
    {
        self.fresh.as_slice()
    }

    /// Makes a list that of how many payloads were made for each site, in its own room where that is enough. For want
    /// of memory the list is empty.
    pub fn count_into(&self, counts: &mut Vec<u64>) -> Result<(), AllocError>
        ensures ok { OnOk result (counts.new.items ≡ (drained_of self.now).counts) }
        ensures err { OnErr result (counts.new.items ≡ []) }
    {
        let counted = self.lanes.count_into(counts);
        if counted.is_err() {
            counts.clear();
        }
        counted
    }

    /// What `drain` would give. It changes nothing.
    pub fn undrained(&self) -> Result<Drained, AllocError>
        ensures drained { IfOk result (λ drained. drained ≡ drained_of self.now) }
        ensures limits { IsGear self.now }
    {
        let mut labels = Labels::new(self.alloc);
        for label in self.fresh.iter() {
            labels.push(*label)?;
        }
        let counts = self.lanes.counts(self.alloc)?;
        Ok(Drained {
            labels,
            promise: self.promise,
            counts,
        })
    }

    /// Makes the gear as after `drain`. It takes no memory.
    pub fn drained(&mut self)
        ensures { self.new ≡ after_drain self.old }
    {
        self.drained_promise = self.promise;
        self.fresh.clear();
    }

    /// The labels made since the last drain, the promise, and how many payloads were made for each site. For want of
    /// memory all is as before.
    pub fn drain(&mut self) -> Result<Drained, AllocError>
        ensures drained { IfOk result (λ drained. drained ≡ drained_of self.old) }
        ensures new { IfOk result (λ drained. self.new ≡ after_drain self.old) }
        ensures err { OnErr result (self.new ≡ self.old) }
    {
        let drained = self.undrained()?;
        self.drained();
        Ok(drained)
    }
}
