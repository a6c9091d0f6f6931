//! The label sink.
ghost use Rattle.std.specs.Prelude.{◌≡◌, ◌<◌, length, map, true, is_some, Some, None, if◌then◌else◌, IfOk, IfSome};
ghost use Rattle.std.specs.Prelude.{OnOk, OnErr};
ghost use Rattle.std.specs.Bool.{Decides};
ghost use Rattle.sat_label.specs.Order.{point_le, point_lt};
ghost use Rattle.sat_gear.specs.Gear.{drained_of};
ghost use Rattle.sat_sink.specs.Pending.{least, promise_of};
ghost use Rattle.sat_sink.specs.Sink.{after_emit, after_close, cut_of, fresh_sink, after_gather, may_pulse, pulse_of};
ghost use Rattle.sat_sink.specs.Sink.{after_pulse, ready_of, stable_of, AllAbove, IsDrain};

use crate::given::goes_on;
use crate::queue::{extend_all, extend_from, least_up_to, reserve_all, reserve_from};
use sat_bulk::Drained;
use sat_gear::Gear;
use sat_label::{Kind, Label, PULSE_GEAR, Point};
use sat_queue::{Queue, empty_queues};
use std::alloc::{AllocError, Global};
use std::marker::Model;

/// What a site gathered from its gears and did not send yet, by gear, with what each gear promised. Contracts see it as
/// the record of these.
#[derive(Drop)]
pub struct LabelSink {
    site: u16,
    promises: Vec<u64>,
    pending: Vec<Queue<Label>>,
    last: Point,
    pulse: u64,
}

impl Model for LabelSink {
    ghost use Rattle.std.specs.Prelude.{map};
    ghost use Rattle.sat_queue.specs.Queued.{members_of};
    ghost use Rattle.sat_sink.specs.Sink.{Sink, IsSink};

    ghost Value = { Sink };

    ghost view = { λ a.
        record {
          site = a.site;
          promises = a.promises.items;
          pending = map members_of a.pending.items;
          last = a.last;
          pulse = a.pulse;
        } };

    ghost invariant = { λ a.
        IsSink
        (record {
          site = a.site;
          promises = a.promises.items;
          pending = map members_of a.pending.items;
          last = a.last;
          pulse = a.pulse;
        }) };
}

// The least of some promises, 0 where there are none.
fn least(promises: &[u64]) -> u64
    ensures { result ≡ least promises.now }
{
    let Some((first, rest)) = promises.split_first() else {
        return 0;
    };
    rest.iter()
        .fold(*first, |least, promise| least.min(*promise))
}

// Notes the promise of each gear.
fn note_promises(promises: &mut [u64], drained: &[Drained])
    requires { length promises.old ≡ length drained.now }
    ensures { promises.new ≡ map promise_of drained.now }
{
    for (gear, drain) in drained.iter().enumerate() {
        promises[gear] = drain.promise;
    }
}

// Notes the promise of each gear.
fn note_promises_of(promises: &mut [u64], gears: &[Gear])
    requires { length promises.old ≡ length gears.now }
    ensures { promises.new ≡ map promise_of (map drained_of gears.now) }
{
    for (place, gear) in gears.iter().enumerate() {
        promises[place] = gear.promise();
    }
}

impl LabelSink {
    /// A sink that has gathered nothing, of a site with so many gears, at least one.
    pub fn new(alloc: Global, site: u16, gears: u16) -> Result<LabelSink, AllocError>
        requires { 0 < gears }
        ensures { IfOk result (λ sink. sink ≡ fresh_sink site gears) }
    {
        let promises = vec![in alloc; 0; gears as usize]?;
        let pending = empty_queues(alloc, gears as usize)?;
        Ok(LabelSink {
            site,
            promises,
            pending,
            last: Point {
                ts: 0,
                site,
                gear: 0,
            },
            pulse: 0,
        })
    }

    /// Whether `gather` may be handed this. It takes no memory.
    pub fn may_gather(&self, drained: &[Drained]) -> bool
        ensures { Decides result (IsDrain self.now drained.now) }
    {
        if drained.len() != self.promises.len() {
            return false;
        }
        for (gear, given) in drained.iter().enumerate() {
            if !goes_on(given, self.site, gear as u16, self.promises[gear]) {
                return false;
            }
        }
        true
    }

    /// Takes in what was drained from each gear, in their order: each gear's promise, which doesn't fall, and its new
    /// labels, whose points rise and are above the gear's gathered promise and up to the new one. For want of memory
    /// all is as before.
    pub fn gather(&mut self, drained: &[Drained]) -> Result<(), AllocError>
        requires { IsDrain self.old drained.now }
        ensures ok { OnOk result (self.new ≡ after_gather self.old drained.now) }
        ensures err { OnErr result (self.new ≡ self.old) }
        ensures cut { point_le (cut_of self.old) (cut_of self.new) ≡ true }
    {
        reserve_all(&mut self.pending, drained)?;
        extend_all(&mut self.pending, drained);
        note_promises(&mut self.promises, drained);
        Ok(())
    }

    /// Takes in what a drain of each of these gears would give, as `gather` does. The gears stay as they are.
    pub fn gather_from(&mut self, gears: &[Gear]) -> Result<(), AllocError>
        requires { IsDrain self.old (map drained_of gears.now) }
        ensures ok { OnOk result (self.new ≡ after_gather self.old (map drained_of gears.now)) }
        ensures err { OnErr result (self.new ≡ self.old) }
        ensures cut { point_le (cut_of self.old) (cut_of self.new) ≡ true }
    {
        reserve_from(&mut self.pending, gears)?;
        extend_from(&mut self.pending, gears);
        note_promises_of(&mut self.promises, gears);
        Ok(())
    }

    /// The label that would be emitted next.
    pub fn next(&self) -> Option<Label>
        ensures { result ≡ ready_of self.now }
    {
        least_up_to(&self.pending, least(&self.promises))
    }

    /// The timestamp up to which no gear will make a label any more: the least gathered promise, 0 before the first
    /// gather.
    pub fn stable(&self) -> u64
        ensures { result ≡ stable_of self.now }
    {
        least(&self.promises)
    }

    /// Whether `emit` would answer a label.
    pub fn ready(&self) -> bool
        ensures { result ≡ is_some (ready_of self.now) }
    {
        self.next().is_some()
    }

    /// Sends the least pending label, where it is stable. The label was above the cut, and is at or below it from then
    /// on.
    pub fn emit(&mut self) -> Option<Label>
        ensures label { result ≡ ready_of self.old }
        ensures new { self.new ≡ after_emit self.old }
        ensures above { IfSome result (λ l. point_lt (cut_of self.old) l.point ≡ true) }
        ensures upto { IfSome result (λ l. point_le l.point (cut_of self.new) ≡ true) }
        ensures cut { point_le (cut_of self.old) (cut_of self.new) ≡ true }
    {
        let label = self.next()?;
        self.emit_known(label);
        Some(label)
    }

    /// Sends the label that `next` answers, as `emit` does, which has to look for it.
    pub fn emit_known(&mut self, label: Label)
        requires { ready_of self.old ≡ Some label }
        ensures new { self.new ≡ after_emit self.old }
        ensures above { point_lt (cut_of self.old) label.point ≡ true }
        ensures upto { point_le label.point (cut_of self.new) ≡ true }
        ensures cut { point_le (cut_of self.old) (cut_of self.new) ≡ true }
    {
        let _ = self.pending[label.point.gear as usize].take();
        self.last = label.point;
    }

    /// Whether `pulse` would answer a label.
    pub fn pulse_ready(&self) -> bool
        ensures { result ≡ may_pulse self.now }
    {
        self.pulse < self.stable() && !self.ready()
    }

    /// Sends a pulse, which tells the stable timestamp, where no pending label is stable and the last pulse told a
    /// lower one.
    pub fn pulse(&mut self) -> Option<Label>
        ensures label { result ≡ (if may_pulse self.old then Some (pulse_of self.old) else None) }
        ensures new { self.new ≡ (if may_pulse self.old then after_pulse self.old else self.old) }
        ensures cut { cut_of self.new ≡ cut_of self.old }
    {
        if !self.pulse_ready() {
            return None;
        }
        let stable = self.stable();
        let label = Label {
            point: Point {
                ts: stable,
                site: self.site,
                gear: PULSE_GEAR,
            },
            kind: Kind::Pulse,
        };
        self.last = label.point;
        self.pulse = stable;
        Some(label)
    }

    /// The site's cut: its made labels at or below this point are those that were sent.
    pub fn cut(&self) -> Point
        ensures cut { result ≡ cut_of self.now }
        ensures pending { AllAbove result self.now.pending }
    {
        match self.next() {
            None => Point::mark(self.stable(), self.site),
            Some(label) => self
                .last
                .greater(Point::mark(label.point.ts - 1, self.site)),
        }
    }

    /// Notes that the site sent a label at its cut, as a close is.
    pub fn closed(&mut self)
        ensures new { self.new ≡ after_close self.old }
        ensures cut { cut_of self.new ≡ cut_of self.old }
    {
        self.last = self.cut();
    }
}
