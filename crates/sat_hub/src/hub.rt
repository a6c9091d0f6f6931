//! Hubs.
ghost use Rattle.std.specs.Prelude.{◌≡◌, ◌≤◌, ◌<◌, ◌%◌, ◌^◌, ◌&&◌, length, map, is_none, is_some, slice_get, Some};
ghost use Rattle.std.specs.Prelude.{take, IfOk, IfSome, MatchOption, OnOk, OnErr, option_copied};
ghost use Rattle.std.specs.Bool.{Decides};
ghost use Rattle.std.specs.List.{flat_map};
ghost use Rattle.sat_label.specs.declared.limits.TheConstants.{MOST_EPOCHS};
ghost use Rattle.sat_label.specs.declared.label.Label.{Label as LabelSeen};
ghost use Rattle.sat_sites.specs.Interested.{IsLabelOf};
ghost use Rattle.sat_bulk.specs.Payloads.{Payload as PayloadSeen};
ghost use Rattle.sat_bulk.specs.Windows.{has_number};
ghost use Rattle.sat_pool.specs.Pool.{all_waiting};
ghost use Rattle.sat_epoch.specs.Epochs.{advance_fault, close_fault, fall_fault, in_stamp, is_stamp, IsEpochs};
ghost use Rattle.sat_gear.specs.Gear.{drained_of, IsShape};
ghost use Rattle.sat_sink.specs.Pending.{labels_of, least, promise_of};
ghost use Rattle.sat_sink.specs.Sink.{may_pulse, ready_of};
ghost use Rattle.sat_model.specs.Interests.{interest_of};
ghost use Rattle.sat_act.specs.declared.answer.Answer.TheVariants as ans;
ghost use Rattle.sat_proxy.specs.Proxy.{front_at, window_of, IsProxy};
ghost use Rattle.sat_proxy.specs.Steps.{after_beat, after_bulk, after_bulks, has_come, shown_after, stamp_fault};
ghost use Rattle.sat_proxy.specs.Steps.{stamp_shows, turn_shows, waiting_of, ComeNext};
ghost use Rattle.sat_proxy.specs.Answers.{advance_answer, attach_answer, beat_answer, bulk_answer, stamp_answer};
ghost use Rattle.sat_proxy.specs.Answers.{turn_answer};
ghost use Rattle.sat_hub.specs.Seen.{IsGather, IsGuest, IsHub};
ghost use Rattle.sat_hub.specs.Inputs.{is_beat_here, is_bulk_here, is_counted, is_front_here, is_other_here, may_turn};
ghost use Rattle.sat_hub.specs.Inputs.{BulkFits, BulksFit, IsFront};
ghost use Rattle.sat_hub.specs.Changes.{beat_for, beaten, fresh_hub, gathered, made_for, new_hub, stamped, turned};
ghost use Rattle.sat_hub.specs.HubSteps.{close_after, close_answer, emit_after, emit_answer, emit_sends, fall_after};
ghost use Rattle.sat_hub.specs.HubSteps.{fall_answer, gather_answer, next_close, next_pulse, passed_after, pulse_after};
ghost use Rattle.sat_hub.specs.HubSteps.{pulse_answer, stamp_given, stamp_told, turn_given, turn_told};

use crate::beats::{Made, counts_to, fresh_made, points_of};
use crate::fitting::{are_given, is_beat, is_bulk_guest, is_for_some, is_front, is_gear, is_other};
use crate::shape::{shape_of, stamp_plans};
use crate::tally::Tally;
use sat_act::{Answer, Deployment, Refusal};
use sat_beat::{Beat, BeatTake};
use sat_bulk::{Drained, Payload, Take};
use sat_epoch::{AdvanceFault, CloseFault, FallFault, Views};
use sat_gear::Gear;
use sat_label::{Carried, Kind, Label, PULSE_GEAR, Point};
use sat_proxy::{Proxy, StampFault, TurnFault, Turned};
use sat_sink::LabelSink;
use sat_sites::{Interest, Shape};
use std::alloc::{AllocError, Global};
use std::marker::Model;

/// What the gears of one site share. It keeps no past. Contracts see its parts as the plain records of these.
#[derive(Drop)]
pub struct Hub {
    alloc: Global,
    shape: Shape,
    sink: LabelSink,
    counts: Tally,
    views: Views,
    proxy: Proxy,
    made: Vec<Made>,
}

impl Model for Hub {
    ghost use Rattle.sat_hub.specs.Seen.{HubSeen, IsHub};

    ghost Value = { HubSeen };

    ghost view = { λ a. record {
      shape = a.shape;
      sink = a.sink;
      counts = a.counts;
      views = a.views;
      proxy = a.proxy;
      made = a.made.items;
    } };

    ghost invariant = { λ a.
        IsHub
        (record {
          shape = a.shape;
          sink = a.sink;
          counts = a.counts;
          views = a.views;
          proxy = a.proxy;
          made = a.made.items;
        }) };
}

// What is true of a site's epochs, and of what it has of the others.
fn sound(views: &Views, proxy: &Proxy)
    ensures views { IsEpochs views.now }
    ensures proxy { IsProxy proxy.now }
{
    let _ = views.view();
    let _ = proxy.waiting();
}

// How many labels gears gave, None where the number is none of 64 bits.
#[tactic(auto, using(crate::proofs::Gathering::given_more))]
fn count_given(drained: &[Drained]) -> Option<u64>
    ensures { MatchOption result (2 ^ 64 ≤ length (flat_map labels_of drained.now))
        (λ count. count ≡ length (flat_map labels_of drained.now)) }
{
    let mut count: u64 = 0;
    for given in drained {
        count = count.checked_add(given.labels.as_slice().len() as u64)?;
    }
    Some(count)
}

impl Hub {
    /// The hub of the site with this number of a deployment, at which nothing has happened, by which sites keep which
    /// items.
    pub fn new(
        alloc: Global,
        d: &Deployment,
        interest: &Interest,
        site: u16,
    ) -> Result<Hub, AllocError>
        requires site { site < d.now.sites }
        requires interest { interest.now ≡ interest_of d.now }
        ensures { IfOk result (λ made. made ≡ new_hub d.now site) }
    {
        let shape = shape_of(d, interest, site)?;
        let stamp = stamp_plans(alloc, d.plans())?;
        Hub::fresh(alloc, shape, &stamp)
    }

    // The hub of a shape, at which nothing has happened, by whether the plan of each epoch is stamp order.
    fn fresh(alloc: Global, shape: Shape, stamp: &[bool]) -> Result<Hub, AllocError>
        requires shape { IsShape shape }
        requires some { 0 < length stamp.now }
        requires few { length stamp.now ≤ MOST_EPOCHS }
        ensures { IfOk result (λ made. made ≡ fresh_hub shape stamp.now) }
    {
        let sink = LabelSink::new(alloc, shape.site, shape.gears)?;
        let views = Views::new(alloc, shape.sites, shape.site, stamp)?;
        let proxy = Proxy::new(alloc, shape.sites, shape.gears, shape.site)?;
        sound(&views, &proxy);
        let counts = Tally::new(alloc, shape.gears)?;
        let made = fresh_made(alloc, shape.sites)?;
        Ok(Hub {
            alloc,
            shape,
            sink,
            counts,
            views,
            proxy,
            made,
        })
    }

    /// What the site was made from. It takes no memory.
    pub fn shape(&self) -> &Shape
        ensures shape { result.now ≡ self.now.shape }
        ensures hub { IsHub self.now }
    {
        &self.shape
    }

    /// The number of the gear that an item belongs to.
    pub fn gear_of(&self, item: u16) -> u16
        ensures number { result ≡ item % self.now.shape.gears }
        ensures gear { result < self.now.shape.gears }
    {
        item % self.shape.gears
    }

    // ---- labels of the site

    /// The sink's next label, which `emit` would take. It takes no memory.
    pub fn next(&self) -> Option<Label>
        ensures next { result ≡ ready_of self.now.sink }
        ensures hub { IsHub self.now }
    {
        let _ = &self.shape;
        self.sink.next()
    }

    /// Whether `emit` would take a label. It takes no memory.
    pub fn can_emit(&self) -> bool
        ensures { result ≡ is_some (ready_of self.now.sink) }
    {
        self.sink.next().is_some()
    }

    /// Whether `pulse` would send one. It takes no memory.
    pub fn can_pulse(&self) -> bool
        ensures { result ≡ may_pulse self.now.sink }
    {
        self.sink.pulse_ready()
    }

    /// What an `emit` sends, where `next` answered this. It takes no memory.
    pub fn sends_next(&self, next: Option<Label>) -> Option<Label>
        requires { next ≡ ready_of self.now.sink }
        ensures { result
            ≡ emit_sends (is_stamp self.now.views self.now.views.emission) self.now.shape (ready_of self.now.sink) }
    {
        let _ = &self.shape;
        self.leaving(next)
    }

    /// What an `emit` sends. It takes no memory.
    pub fn sends_ready(&self) -> Option<Label>
        ensures { result
            ≡ emit_sends (is_stamp self.now.views self.now.views.emission) self.now.shape (ready_of self.now.sink) }
    {
        self.leaving(self.sink.next())
    }

    /// What a `pulse` sends. It takes no memory.
    pub fn sends_pulse(&self) -> Option<Label>
        ensures { result
            ≡ emit_sends (is_stamp self.now.views self.now.views.emission) self.now.shape (next_pulse self.now.sink) }
    {
        let _ = &self.shape;
        self.leaving(self.next_pulse())
    }

    /// What a `close` sends. It takes no memory.
    pub fn sends_close(&self) -> Option<Label>
        ensures { result
            ≡ emit_sends (is_stamp self.now.views self.now.views.emission) self.now.shape
            (next_close (close_fault self.now.views) self.now) }
    {
        let _ = &self.shape;
        self.leaving(self.next_close())
    }

    // The pulse that the sink would send.
    fn next_pulse(&self) -> Option<Label>
        ensures { result ≡ next_pulse self.now.sink }
    {
        if !self.sink.pulse_ready() {
            return None;
        }
        let point = Point {
            ts: self.sink.stable(),
            site: self.shape.site,
            gear: PULSE_GEAR,
        };
        Some(Label {
            point,
            kind: Kind::Pulse,
        })
    }

    // The close that the site would send.
    fn next_close(&self) -> Option<Label>
        ensures { result ≡ next_close (close_fault self.now.views) self.now }
    {
        if self.views.close_fault().is_some() {
            return None;
        }
        Some(Label {
            point: self.sink.cut(),
            kind: Kind::Close(self.views.emission()),
        })
    }

    // What is sent of a label: the label, where it has a target and the plan of the emission epoch is a tree.
    fn leaving(&self, next: Option<Label>) -> Option<Label>
        requires { (l : LabelSeen) → next ≡ Some l → IsLabelOf self.now.shape.interest l }
        ensures { result ≡ emit_sends (is_stamp self.now.views self.now.views.emission) self.now.shape next }
    {
        if self.views.is_stamp(self.views.emission()) {
            return None;
        }
        let label = next?;
        if !is_for_some(&self.shape, &label) {
            return None;
        }
        Some(label)
    }

    /// Whether `gather` may be handed this: what the gears of the site gave, in their order. It takes no memory.
    pub fn may_gather(&self, drained: &[Drained]) -> bool
        ensures { Decides result (IsGather self.now drained.now) }
    {
        if !self.sink.may_gather(drained) {
            return false;
        }
        are_given(&self.shape, drained)
    }

    /// Takes what all gears gave into the sink, and answers it. All memory is taken before anything changes; no memory
    /// holds labels whose number is none of 64 bits.
    pub fn gather(&mut self, drained: &[Drained]) -> Result<Answer, AllocError>
        requires { IsGather self.old drained.now }
        ensures answer { IfOk result (λ answer. answer ≡ gather_answer drained.now) }
        ensures after { OnOk result (self.new ≡ gathered self.old drained.now) }
        ensures err { OnErr result (self.new ≡ self.old) }
    {
        let labels = count_given(drained).ok_or(AllocError)?;
        self.counts.gather(&mut self.sink, drained)?;
        Ok(Answer::Gathered {
            labels,
            stable: self.sink.stable(),
        })
    }

    /// Takes in what a drain of each of these gears of the site would give, as `gather` does, and answers up to which
    /// timestamp all is known then. The gears stay as they are.
    pub fn gather_from(&mut self, gears: &[Gear]) -> Result<u64, AllocError>
        requires { IsGather self.old (map drained_of gears.now) }
        ensures stable { IfOk result (λ stable. stable ≡ least (map promise_of (map drained_of gears.now))) }
        ensures after { OnOk result (self.new ≡ gathered self.old (map drained_of gears.now)) }
        ensures err { OnErr result (self.new ≡ self.old) }
    {
        self.counts.gather_from(&mut self.sink, gears)?;
        Ok(self.sink.stable())
    }

    /// Takes the sink's next label, and answers it. It takes no memory.
    pub fn emit(&mut self) -> Answer
        ensures answer { result ≡ emit_answer (ready_of self.old.sink) }
        ensures after { self.new ≡ emit_after self.old (ready_of self.old.sink) }
    {
        let Some(label) = self.sink.emit() else {
            return Answer::Refused(Refusal::Idle);
        };
        Answer::Emitted(label)
    }

    /// Takes the label that `next` answers, as `emit` does, which has to look for it. It takes no memory.
    pub fn emit_known(&mut self, label: Label)
        requires { ready_of self.old.sink ≡ Some label }
        ensures { self.new ≡ emit_after self.old (Some label) }
    {
        self.sink.emit_known(label);
    }

    /// Sends a pulse, and answers it. It takes no memory.
    pub fn pulse(&mut self) -> Answer
        ensures answer { result ≡ pulse_answer (next_pulse self.old.sink) }
        ensures after { self.new ≡ pulse_after self.old (next_pulse self.old.sink) }
    {
        match self.sink.pulse() {
            None => Answer::Refused(Refusal::Idle),
            Some(label) => Answer::Pulsed(label),
        }
    }

    // ---- clients

    /// Answers a client that wants to attach here. It takes no memory.
    pub fn attach(&self, carried: &Carried) -> Answer
        requires { carried.now.point.site < self.now.shape.sites }
        ensures { result ≡ attach_answer self.now.views self.now.proxy carried.now }
    {
        if self.proxy.may_attach(&self.views, carried) {
            Answer::Attached
        } else {
            Answer::Refused(Refusal::NotYet)
        }
    }

    // ---- what other sites made

    /// Whether a label is one that another site sent in this view. It takes no memory.
    pub fn is_front(&self, label: &Label) -> bool
        ensures { result ≡ is_front_here self.now.shape self.now.views.view label.now }
    {
        is_front(&self.shape, self.views.view(), label)
    }

    /// Takes the front of the link to the site: an update is given, for the gears of its items to show, any other label
    /// is taken. It takes no memory; where it answers a fault nothing changes.
    pub fn turn(&mut self, front: Option<Label>) -> Result<Turned, TurnFault>
        requires { (l : LabelSeen) → front ≡ Some l → IsFront self.old l }
        ensures answer { turn_told result ≡ turn_answer self.old.views self.old.proxy front }
        ensures shows { turn_given result ≡ turn_shows self.old.views self.old.proxy front }
        ensures guest { (p : PayloadSeen) → turn_given result ≡ Some p → IsGuest self.old.shape p }
        ensures after { self.new ≡ turned self.old front }
    {
        let turned = self.proxy.turn(&mut self.views, front);
        sound(&self.views, &self.proxy);
        turned
    }

    /// Gives the update of a label, if its payload waits, as `turn` does by tree. It takes no memory; where none waits
    /// nothing changes.
    #[inline(always)]
    pub fn show_front(&mut self, label: &Label) -> Option<Payload>
        requires front { IsFront self.old label.now }
        ensures found { result ≡ waiting_of self.old.proxy.pool label.now }
        ensures guest { IfSome result (λ p. IsGuest self.old.shape p) }
        ensures after { self.new
            ≡ record self.old {
              proxy = shown_after self.old.proxy label.now (waiting_of self.old.proxy.pool label.now);
            } }
    {
        let shown = self.proxy.show_front(label);
        sound(&self.views, &self.proxy);
        shown
    }

    /// Whether a turn would do something, with this front. It takes no memory.
    pub fn can_turn(&self, front: &Option<Label>) -> bool
        ensures { result ≡ may_turn self.now front.now }
    {
        match front {
            None => false,
            Some(label) => self.is_front(label) && self.proxy.can_turn(&self.views, Some(label)),
        }
    }

    /// The payload that a turn would give, with this front, for the gears of its items to show. It takes no memory.
    pub fn showing(&self, front: &Option<Label>) -> Option<&Payload>
        requires { (l : LabelSeen) → front.now ≡ Some l → IsFront self.now l }
        ensures shows { option_copied result ≡ turn_shows self.now.views self.now.proxy front.now }
        ensures guest { IfSome result (λ p. IsGuest self.now.shape p.now) }
    {
        match front {
            None => None,
            Some(label) => self.proxy.turn_shows(&self.views, Some(label)),
        }
    }

    /// Gives the next update in timestamp order, for the gears of its items to show. It takes no memory; where it
    /// answers a fault nothing changes.
    pub fn stamp(&mut self) -> Result<Payload, StampFault>
        ensures answer { stamp_told result ≡ stamp_answer self.old.views self.old.proxy }
        ensures shows { stamp_given result ≡ stamp_shows self.old.views self.old.proxy }
        ensures guest { IfOk result (λ p. IsGuest self.old.shape p) }
        ensures after { self.new ≡ stamped self.old }
    {
        let shown = self.proxy.stamp(&self.views);
        sound(&self.views, &self.proxy);
        shown
    }

    /// Whether `stamp` would give an update. It takes no memory.
    pub fn can_stamp(&self) -> bool
        ensures { result ≡ is_none (stamp_fault self.now.views self.now.proxy) }
    {
        self.proxy.can_stamp(&self.views)
    }

    /// The payload that `stamp` would give, for the gears of its items to show. It takes no memory.
    pub fn stamping(&self) -> Option<&Payload>
        ensures shows { option_copied result ≡ stamp_shows self.now.views self.now.proxy }
        ensures guest { IfSome result (λ p. IsGuest self.now.shape p.now) }
    {
        self.proxy.stamp_shows(&self.views)
    }

    /// Whether a payload is one of a lane of another site, with a value for each item that the site keeps; where its
    /// number is new, no payload that waits has its point. It takes no memory.
    pub fn is_bulk(&self, from: u16, gear: u16, number: u64, payload: &Payload) -> bool
        ensures { result ≡ is_bulk_here self.now.shape self.now.proxy from gear number payload.now }
    {
        if !is_other(&self.shape, from) || !is_gear(&self.shape, gear) {
            return false;
        }
        if !is_bulk_guest(&self.shape, from, payload) {
            return false;
        }
        self.proxy.has(from, gear, number) || self.proxy.payload(&payload.label().point).is_none()
    }

    /// Takes a payload of the lane from a site and a gear, and answers it. For want of memory the hub is as before.
    pub fn bulk(
        &mut self,
        from: u16,
        gear: u16,
        number: u64,
        payload: Payload,
    ) -> Result<Answer, AllocError>
        requires { BulkFits self.old from gear number payload }
        ensures answer { IfOk result (λ answer. answer ≡ bulk_answer self.old.proxy from gear number payload.label) }
        ensures after { OnOk result
            (self.new ≡ record self.old { proxy = after_bulk self.old.proxy from gear number payload }) }
        ensures err { OnErr result (self.new ≡ self.old) }
    {
        let label = payload.label();
        let taken = self.proxy.bulk(from, gear, number, payload);
        sound(&self.views, &self.proxy);
        match taken {
            Ok(Take::New) => Ok(Answer::Brought(label)),
            Ok(Take::Again) => Ok(Answer::Again),
            Err(_) => Err(AllocError),
        }
    }

    /// Takes payloads of the lane from a site and a gear, with the numbers from `first` on, each as the next of its
    /// lane, and answers how many came: all, or those before the first that is not the next or for which there was no
    /// memory; the others are let go.
    pub fn bulk_all(&mut self, from: u16, gear: u16, first: u64, payloads: Vec<Payload>) -> usize
        requires { BulksFit self.old from gear first payloads.items }
        ensures count { result ≤ length payloads.items }
        ensures after { self.new ≡ record self.old {
          proxy = after_bulks self.old.proxy from gear first (take result payloads.items);
        } }
        ensures next { ComeNext self.old.proxy from gear first payloads.items result }
    {
        let count = self.proxy.bulk_all(from, gear, first, payloads);
        sound(&self.views, &self.proxy);
        count
    }

    /// Whether the payload with this number of the lane of a gear of another site came here. It takes no memory.
    pub fn has(&self, from: u16, gear: u16, number: u64) -> bool
        requires from { from < self.now.shape.sites }
        requires gear { gear < self.now.shape.gears }
        ensures has { result ≡ has_number (window_of self.now.proxy from gear) number }
        ensures hub { IsHub self.now }
    {
        self.proxy.has(from, gear, number)
    }

    /// The front of the lane from a site and a gear: the least number that was not taken here.
    pub fn front(&self, from: u16, gear: u16) -> u64
        requires from { from < self.now.shape.sites }
        requires gear { gear < self.now.shape.gears }
        ensures front { result ≡ front_at self.now.proxy from gear }
        ensures hub { IsHub self.now }
    {
        self.proxy.front(from, gear)
    }

    // ---- beats

    /// The beat that `make_beat` would make for another site now. It changes nothing.
    pub fn beat(&self, to: u16) -> Result<Beat, AllocError>
        requires { to < self.now.shape.sites }
        ensures beat { IfOk result (λ beat. beat ≡ beat_for self.now to) }
        ensures hub { IsHub self.now }
    {
        let _ = &self.shape;
        let closes = points_of(self.alloc, self.views.closes())?;
        let counts = counts_to(self.alloc, self.counts.rows(), to)?;
        Ok(Beat {
            cut: self.sink.cut(),
            closes,
            counts,
        })
    }

    /// Makes a beat for another site, and keeps it. For want of memory the hub is as before.
    pub fn make_beat(&mut self, to: u16) -> Result<Answer, AllocError>
        requires { to < self.old.shape.sites }
        ensures answer { IfOk result (λ answer. answer ≡ ans.Beat (length (made_for self.old to))) }
        ensures after { OnOk result (self.new ≡ beaten self.old to) }
        ensures err { OnErr result (self.new ≡ self.old) }
    {
        let beat = self.beat(to)?;
        let made = &mut self.made[to as usize];
        let number = made.add(beat)?;
        Ok(Answer::Beat(number))
    }

    /// The beat with this number of those that the site made for another one, None where there is none. It takes no
    /// memory.
    pub fn made_beat(&self, to: u16, number: u64) -> Option<&Beat>
        requires { to < self.now.shape.sites }
        ensures beat { option_copied result ≡ slice_get (made_for self.now to) number }
        ensures hub { IsHub self.now }
    {
        let _ = &self.shape;
        self.made[to as usize].get(number)
    }

    /// Whether a beat is one that another site may send: it says points alone. It takes no memory.
    pub fn is_beat(&self, from: u16, beat: &Beat) -> bool
        ensures { result
            ≡ (is_other_here self.now.shape from
            && is_beat_here self.now.shape (length self.now.views.stamp) beat.now) }
    {
        is_other(&self.shape, from) && is_beat(&self.shape, self.views.epochs(), beat)
    }

    /// Whether a beat has one count for each gear, and at most as many close cuts as there are epochs. It takes no
    /// memory.
    pub fn is_counted(&self, beat: &Beat) -> bool
        ensures { result ≡ is_counted self.now beat.now }
    {
        beat.counts.as_slice().len() == self.shape.gears as usize
            && beat.closes.as_slice().len() <= self.views.epochs() as usize
    }

    /// Takes a beat of another site, and answers it. For want of memory the hub is as before.
    pub fn beat_in(&mut self, from: u16, number: u64, beat: Beat) -> Result<Answer, AllocError>
        requires from { from < self.old.shape.sites }
        requires counts { length beat.counts ≡ self.old.shape.gears }
        ensures answer { IfOk result (λ answer. answer ≡ beat_answer self.old.proxy from number) }
        ensures after { OnOk result
            (self.new ≡ record self.old { proxy = after_beat self.old.proxy from number beat }) }
        ensures err { OnErr result (self.new ≡ self.old) }
    {
        let taken = self.proxy.beat_in(from, number, beat);
        sound(&self.views, &self.proxy);
        match taken {
            Ok(BeatTake::New) => Ok(Answer::Taken),
            Ok(BeatTake::Again) => Ok(Answer::Again),
            Ok(BeatTake::Old) => Ok(Answer::Old),
            Err(_) => Err(AllocError),
        }
    }

    // ---- epochs

    /// Closes the emission epoch at the site's cut, and answers it. It takes no memory.
    pub fn close(&mut self) -> Answer
        ensures answer { result ≡ close_answer (close_fault self.old.views) self.old }
        ensures after { self.new ≡ close_after (close_fault self.old.views) self.old }
    {
        let cut = self.sink.cut();
        let closed = self.views.close(cut);
        sound(&self.views, &self.proxy);
        match closed {
            Ok(epoch) => {
                self.sink.closed();
                Answer::Closed { epoch, cut }
            }
            Err(CloseFault::NoNextEpoch) => Answer::Refused(Refusal::NoNextEpoch),
            Err(CloseFault::Behind) => Answer::Refused(Refusal::Behind),
        }
    }

    /// Falls back to timestamp order, and answers it. It takes no memory.
    pub fn fall(&mut self) -> Answer
        ensures answer { result ≡ fall_answer (fall_fault self.old.views) }
        ensures after { self.new ≡ fall_after (fall_fault self.old.views) self.old }
    {
        let fell = self.views.fall();
        sound(&self.views, &self.proxy);
        match fell {
            Ok(()) => Answer::Fallen,
            Err(FallFault::StampOrder) => Answer::Refused(Refusal::StampOrder),
            Err(FallFault::NotClosed) => Answer::Refused(Refusal::NotClosed),
        }
    }

    /// Goes on to the next epoch, and answers it. It takes no memory.
    pub fn advance(&mut self) -> Answer
        ensures answer { result ≡ advance_answer self.old.views self.old.proxy }
        ensures after { self.new
            ≡ passed_after (advance_fault self.old.views (has_come self.old.views self.old.proxy)) self.old }
    {
        let passed = self.proxy.advance(&mut self.views);
        sound(&self.views, &self.proxy);
        match passed {
            Ok(view) => Answer::View(view),
            Err(AdvanceFault::NotClosed) => Answer::Refused(Refusal::NotClosed),
            Err(AdvanceFault::NotYet) => Answer::Refused(Refusal::NotYet),
        }
    }

    /// Whether `advance` would go on. It takes no memory.
    pub fn can_advance(&self) -> bool
        ensures { result ≡ is_none (advance_fault self.now.views (has_come self.now.views self.now.proxy)) }
    {
        self.proxy.can_advance(&self.views)
    }

    /// The epoch in which the site is. It takes no memory.
    pub fn view(&self) -> u16
        ensures { result ≡ self.now.views.view }
    {
        self.views.view()
    }

    /// The epoch in which the site sends. It takes no memory.
    pub fn emission(&self) -> u16
        ensures { result ≡ self.now.views.emission }
    {
        self.views.emission()
    }

    /// Whether the site goes by timestamp order. It takes no memory.
    pub fn in_stamp_mode(&self) -> bool
        ensures { result ≡ in_stamp self.now.views }
    {
        self.views.in_stamp_mode()
    }

    /// How many updates of other sites wait to be shown. It takes no memory.
    pub fn waiting(&self) -> u64
        ensures { result ≡ length (all_waiting self.now.proxy.pool) }
    {
        self.proxy.waiting()
    }
}
