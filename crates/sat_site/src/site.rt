//! Sites.
ghost use Rattle.std.specs.Prelude.{ℕ, ◌%◌, ◌*◌, ◌≡◌, ◌≤◌, ◌<◌, ◌==◌, ◌^◌, ◌&&◌, drop, length, take, true, false, Some};
ghost use Rattle.std.specs.Prelude.{slice_get, None, Option, IfOk, IfSome, IsNone, OnOk, OnErr, IsOk, MatchOption};
ghost use Rattle.std.specs.Prelude.{option_copied};
ghost use Rattle.std.specs.List.{list_any};
ghost use Rattle.sat_label.specs.declared.label.Label.{Label};
ghost use Rattle.sat_label.specs.Grouped.{list_of};
ghost use Rattle.sat_sites.specs.Interested.{AreBelow};
ghost use Rattle.sat_bulk.specs.Windows.{has_number};
ghost use Rattle.sat_pool.specs.Pool.{all_waiting};
ghost use Rattle.sat_epoch.specs.Epochs.{advance_fault, close_fault, fall_fault, in_stamp};
ghost use Rattle.sat_gear.specs.Gear.{GearSeen, is_due};
ghost use Rattle.sat_sink.specs.Sink.{ready_of};
ghost use Rattle.sat_act.specs.Deployed.{Deployed};
ghost use Rattle.sat_act.specs.declared.answer.Answer.TheVariants as ans;
ghost use Rattle.sat_act.specs.Parts.{replicates};
ghost use Rattle.sat_act.specs.Settling.{is_done};
ghost use Rattle.sat_model.specs.Interests.{interest_of};
ghost use Rattle.sat_model.specs.State.{SiteState, fresh_site};
ghost use Rattle.sat_model.specs.Look.{front_of, mode_of};
ghost use Rattle.sat_proxy.specs.Proxy.{front_at, window_of};
ghost use Rattle.sat_proxy.specs.Steps.{after_beat, after_bulk, has_come};
ghost use Rattle.sat_proxy.specs.Answers.{advance_answer, attach_answer, beat_answer, bulk_answer};
ghost use Rattle.sat_site.specs.Seen.{IsSite, SiteSeen};
ghost use Rattle.sat_site.specs.Lanes.{lane_of};
ghost use Rattle.sat_site.specs.Inputs.{fits_here, fits_in, is_counted, is_asked, is_sized, takes_none, BulkFits};
ghost use Rattle.sat_site.specs.Stands.{StandsSite, version_seen};
ghost use Rattle.sat_site.specs.Gives.{PromisesUpTo, IsOfLane};
ghost use Rattle.sat_site.specs.Changes.{beat_for, beaten, clocked, made_for, new_site, HasGear};
ghost use Rattle.sat_site.specs.SiteSteps.{close_after, close_answer, fall_after, fall_answer, keeps_each, keeps_item};
ghost use Rattle.sat_site.specs.SiteSteps.{move_after, move_answer, next_pulse, passed_after, pulse_after};
ghost use Rattle.sat_site.specs.SiteSteps.{pulse_answer, site_after, site_answers, site_beat, site_epoch, site_sends};
ghost use Rattle.sat_site.specs.Does.{Does, Reads, Stamps, Writes};

use crate::gears::{
    all_limits, any_due, count_labels, drain_all, fresh_gears, limits, limits_of, move_at, tick_all,
};
use crate::shape::interest;
use crate::{SiteInput, SiteOutput, SiteView};
use sat_act::{Answer, Deployment, Refusal};
use sat_beat::Beat;
use sat_bulk::Payload;
use sat_gear::{Gear, GearFault};
use sat_hub::{Hub, is_carried, is_here, is_move, is_other, is_read, is_tick, is_write, keeps_all};
use sat_label::{Carried, Items, Label, Point, Value, Version};
use sat_sites::Interest;
use std::alloc::{AllocError, Global};
use std::marker::Model;

/// One site of a deployment. It keeps no past. Contracts see its parts as the plain records of these. What it answers,
/// what it sends and what it then keeps are functions of these and of what it is handed; `site_laws` says that the
/// machine of the model does the same.
#[derive(Drop)]
pub struct Site {
    pub(crate) hub: Hub,
    pub(crate) gears: Vec<Gear>,
}

impl Model for Site {
    ghost use Rattle.sat_site.specs.Seen.{SiteSeen, IsSite, site_of};

    ghost Value = { SiteSeen };

    ghost view = { λ a. site_of a.hub a.gears.items };

    ghost invariant = { λ a. IsSite (site_of a.hub a.gears.items) };
}

impl Site {
    /// The site with this number of a deployment, at which nothing has happened.
    pub fn new(alloc: Global, d: &Deployment, site: u16) -> Result<Site, AllocError>
        requires { site < d.now.sites }
        ensures stands { IfOk result (λ made. StandsSite d.now site made (fresh_site site)) }
        // Two new sites of one deployment and number are one value.
        ensures same { IfOk result (λ made. made ≡ new_site d.now site) }
    {
        let interest = interest(alloc, d)?;
        let made = Site::sharing(alloc, d, &interest, site)?;
        Ok(made)
    }

    /// The same, with the table of which sites keep which items, so that all sites of a deployment can share one.
    pub fn sharing(
        alloc: Global,
        d: &Deployment,
        interest: &Interest,
        site: u16,
    ) -> Result<Site, AllocError>
        requires site { site < d.now.sites }
        requires interest { interest.now ≡ interest_of d.now }
        ensures stands { IfOk result (λ made. StandsSite d.now site made (fresh_site site)) }
        ensures same { IfOk result (λ made. made ≡ new_site d.now site) }
    {
        let hub = Hub::new(alloc, d, interest, site)?;
        let gears = fresh_gears(alloc, hub.shape())?;
        all_limits(&gears);
        // Brings this law into the proof; it does nothing when it runs.
        sat_proxy::proxy_laws();
        Ok(Site { hub, gears })
    }

    /// Does one act, by what it is handed, and answers it. It takes no memory for a Tick, an Emit, a Pulse, a Turn, a
    /// Stamp, an Attach, a Close, a Fall or an Advance; for want of memory the site is as before.
    pub fn step(&mut self, input: SiteInput) -> Result<SiteOutput, AllocError>
        requires { fits_in self.old input ≡ true }
        ensures function { IfOk result (λ out. out.answer ≡ site_answers self.old input) }
        ensures sends { IfOk result (λ out. out.sent ≡ site_sends self.old input) }
        ensures epoch { IfOk result (λ out. out.epoch ≡ site_epoch self.old input) }
        ensures beat { IfOk result (λ out. out.beat ≡ site_beat self.old input) }
        ensures after { IfOk result (λ out. self.new ≡ site_after self.old input) }
        ensures refused { IfOk result (λ out. is_done out.answer ≡ false → self.new ≡ self.old) }
        ensures site { IsSite self.old }
        ensures spare { takes_none input ≡ true → IsOk result }
        ensures err { OnErr result (self.new ≡ self.old) }
    {
        let _ = &self.gears;
        let sent = self.sends(&input);
        let epoch = self.epoch(&input, &sent);
        let beat = self.beat_of(&input)?;
        let answer = self.act(input)?;
        Ok(SiteOutput {
            answer,
            sent,
            epoch,
            beat,
        })
    }

    /// The label that a step would send. It takes no memory.
    pub fn sends(&self, input: &SiteInput) -> Option<Label>
        ensures { result ≡ site_sends self.now input.now }
    {
        match input {
            SiteInput::Emit => self.hub.sends_ready(),
            SiteInput::Pulse => self.hub.sends_pulse(),
            SiteInput::Close => self.hub.sends_close(),
            _ => None,
        }
    }

    /// The sink's next label, which an `emit` would take. It takes no memory.
    pub fn next(&self) -> Option<Label>
        ensures next { result ≡ ready_of self.now.sink }
        ensures site { IsSite self.now }
    {
        let _ = &self.gears;
        self.hub.next()
    }

    /// The label that an `emit` would send, where `next` answered this. It takes no memory.
    pub fn sends_next(&self, next: Option<Label>) -> Option<Label>
        requires { next ≡ ready_of self.now.sink }
        ensures { result ≡ site_sends self.now SiteInput.Emit }
    {
        self.hub.sends_next(next)
    }

    // The epoch of what is sent, or of what a turn takes.
    fn epoch(&self, input: &SiteInput, sent: &Option<Label>) -> u16
        requires { sent.now ≡ site_sends self.now input.now }
        ensures { result ≡ site_epoch self.now input.now }
    {
        match input {
            SiteInput::Turn { .. } => self.hub.view(),
            _ => match sent {
                None => 0,
                Some(_) => self.hub.emission(),
            },
        }
    }

    // The beat that a step would make.
    fn beat_of(&self, input: &SiteInput) -> Result<Option<Beat>, AllocError>
        requires { fits_in self.now input.now ≡ true }
        ensures beat { IfOk result (λ beat. beat ≡ site_beat self.now input.now) }
        ensures spare { takes_none input.now ≡ true → IsOk result }
    {
        match input {
            SiteInput::Beat { to } => Ok(Some(self.beat(*to)?)),
            _ => Ok(None),
        }
    }

    /// Does one act, as `step` does, and tells its answer alone. It takes no memory for a Tick, an Emit, a Pulse, a
    /// Turn, a Stamp, an Attach, a Close, a Fall or an Advance; for want of memory the site is as before.
    pub fn act(&mut self, input: SiteInput) -> Result<Answer, AllocError>
        requires { fits_in self.old input ≡ true }
        ensures answer { IfOk result (λ answer. answer ≡ site_answers self.old input) }
        ensures after { IfOk result (λ answer. self.new ≡ site_after self.old input) }
        ensures refused { IfOk result (λ answer. is_done answer ≡ false → self.new ≡ self.old) }
        ensures site { IsSite self.old }
        ensures spare { takes_none input ≡ true → IsOk result }
        ensures err { OnErr result (self.new ≡ self.old) }
    {
        let _ = &self.gears;
        // The calls below do one kind of act each.
        match input {
            SiteInput::Tick { gear, ts } => Ok(Answer::Ticked(self.tick(gear, ts))),
            SiteInput::Write {
                carried,
                items,
                values,
            } => self.write(carried, items, values.as_slice()),
            SiteInput::Read { carried: _, item } => self.read(item),
            SiteInput::Move { carried, to } => self.move_to(carried, to),
            SiteInput::Attach { carried } => Ok(self.attach(&carried)),
            SiteInput::Gather => self.gather(),
            SiteInput::Emit => Ok(self.emit()),
            SiteInput::Pulse => Ok(self.pulse()),
            SiteInput::Turn { front } => Ok(self.turn(front)),
            SiteInput::Bulk {
                from,
                gear,
                number,
                payload,
            } => self.bulk(from, gear, number, payload),
            SiteInput::Beat { to } => self.make_beat(to),
            SiteInput::BeatIn { from, number, beat } => self.beat_in(from, number, beat),
            SiteInput::Stamp => Ok(self.stamp()),
            SiteInput::Close => Ok(self.close()),
            SiteInput::Fall => Ok(self.fall()),
            SiteInput::Advance => Ok(self.advance()),
        }
    }

    /// Raises the promise of a gear to a timestamp, and tells the promise that it then has. It takes no memory.
    pub fn tick(&mut self, gear: u16, ts: u64) -> u64
        requires gear { gear < self.old.shape.gears }
        requires limit { ts ≤ 2 ^ 62 }
        ensures { Does self.old (SiteInput.Tick gear ts) (ans.Ticked result) self.new }
    {
        let gear = &mut self.gears[gear as usize];
        let promise = gear.tick(ts);
        limits(gear);
        promise
    }

    // Whether the site keeps an item.
    pub(crate) fn keeps(&self, item: u16) -> bool
        requires { item < length self.now.shape.interest.replicas }
        ensures { result ≡ keeps_item self.now item }
    {
        is_here(self.hub.shape(), item)
    }

    // A gear by its number.
    fn gear(&self, number: u16) -> &Gear
        requires { number < self.now.shape.gears }
        ensures gear { HasGear self.now number result.now }
        ensures site { IsSite self.now }
    {
        &self.gears[number as usize]
    }

    // The number of the gear that an item belongs to.
    pub(crate) fn gear_of(&self, item: u16) -> u16
        ensures number { result ≡ item % self.now.shape.gears }
        ensures gear { result < self.now.shape.gears }
    {
        self.hub.gear_of(item)
    }

    // Whether the site keeps each of some items.
    fn keeps_all(&self, items: &Items) -> bool
        requires { AreBelow (length self.now.shape.interest.replicas) (list_of items.now) }
        ensures { result ≡ keeps_each self.now (list_of items.now) }
    {
        keeps_all(self.hub.shape(), items)
    }

    /// Does a client's write of items, each with its value, with what the client carries, and answers it: it is refused
    /// unless the site keeps all of them, and is one update, which the gear of the least item stamps and which is shown
    /// at each. The values are copied where it is done. For want of memory the site is as before.
    pub fn write(
        &mut self,
        carried: Carried,
        items: Items,
        values: &[Value],
    ) -> Result<Answer, AllocError>
        requires items { AreBelow (length self.old.shape.interest.replicas) (list_of items) }
        requires values { length values.now ≡ length (list_of items) }
        ensures writes { IfOk result (λ answer. Writes self.old carried items values.now answer self.new) }
        ensures err { OnErr result (self.new ≡ self.old) }
    {
        if !self.keeps_all(&items) {
            return Ok(Answer::Refused(Refusal::NotHere));
        }
        // The gear takes all memory: to show takes none.
        match self.stamp_at(carried.point, items, values) {
            Ok(made) => {
                let label = made.label();
                self.show(items, made.open());
                Ok(Answer::Wrote(label))
            }
            Err(GearFault::Spent) => Ok(Answer::Refused(Refusal::Spent)),
            Err(GearFault::Memory) => Err(AllocError),
        }
    }

    // Lets the gear of the least of some items that the site keeps make an update of them.
    fn stamp_at(
        &mut self,
        seen: Point,
        items: Items,
        values: &[Value],
    ) -> Result<Payload, GearFault>
        requires items { AreBelow (length self.old.shape.interest.replicas) (list_of items) }
        requires kept { keeps_each self.old (list_of items) ≡ true }
        requires values { length values.now ≡ length (list_of items) }
        ensures { Stamps self.old seen items values.now result self.new }
    {
        let number = self.gear_of(items.least());
        let gear = &mut self.gears[number as usize];
        limits(gear);
        let stamped = gear.stamp_write(seen, items, values);
        limits(gear);
        stamped
    }

    fn read(&self, item: u16) -> Result<Answer, AllocError>
        requires { item < length self.now.shape.interest.replicas }
        ensures { IfOk result (λ answer. Reads self.now item answer) }
    {
        if !self.keeps(item) {
            return Ok(Answer::Refused(Refusal::NotHere));
        }
        let gear = self.gear(self.gear_of(item));
        let Some(version) = gear.read(item) else {
            return Ok(Answer::ReadNone);
        };
        let value = version.value().copy()?;
        Ok(Answer::ReadSome {
            label: version.label(),
            value,
        })
    }

    /// Takes what all gears made into the sink, and answers it. All memory is taken before anything changes; no memory
    /// holds labels whose number is none of 64 bits.
    pub fn gather(&mut self) -> Result<Answer, AllocError>
        ensures does { IfOk result (λ answer. Does self.old SiteInput.Gather answer self.new) }
        ensures err { OnErr result (self.new ≡ self.old) }
    {
        let labels = count_labels(&self.gears).ok_or(AllocError)?;
        let stable = self.hub.gather_from(&self.gears)?;
        drain_all(&mut self.gears);
        all_limits(&self.gears);
        limits_of(&self.hub);
        Ok(Answer::Gathered { labels, stable })
    }

    /// Takes the sink's next label, and answers it. It takes no memory.
    pub fn emit(&mut self) -> Answer
        ensures { Does self.old SiteInput.Emit result self.new }
    {
        let answer = self.hub.emit();
        limits_of(&self.hub);
        answer
    }

    /// Takes the label that `next` answers, as `emit` does, which has to look for it. It takes no memory.
    pub fn emit_known(&mut self, label: Label) -> Answer
        requires { ready_of self.old.sink ≡ Some label }
        ensures { Does self.old SiteInput.Emit result self.new }
    {
        self.hub.emit_known(label);
        limits_of(&self.hub);
        Answer::Emitted(label)
    }

    /// Sends a pulse, and answers it. It takes no memory.
    pub fn pulse(&mut self) -> Answer
        ensures answer { result ≡ pulse_answer (next_pulse self.old.sink) }
        ensures after { self.new ≡ pulse_after self.old (next_pulse self.old.sink) }
    {
        let answer = self.hub.pulse();
        limits_of(&self.hub);
        answer
    }

    // A client's move to another site, stamped by gear 0.
    fn move_to(&mut self, carried: Carried, to: u16) -> Result<Answer, AllocError>
        requires { to < self.old.shape.sites }
        ensures answer { IfOk result (λ answer. answer
            ≡ move_answer (to == self.old.shape.site) (slice_get self.old.gears 0) carried to) }
        ensures after { OnOk result
            (self.new ≡ move_after self.old (to == self.old.shape.site) (slice_get self.old.gears 0) carried to) }
        ensures err { OnErr result (self.new ≡ self.old) }
    {
        let shape = self.hub.shape();
        if to == shape.site {
            return Ok(Answer::Refused(Refusal::SameSite));
        }
        let gear = &mut self.gears[0];
        limits(gear);
        let answer = move_at(gear, carried, to)?;
        limits(gear);
        Ok(answer)
    }

    fn attach(&self, carried: &Carried) -> Answer
        requires { carried.now.point.site < self.now.shape.sites }
        ensures { result ≡ attach_answer self.now.views self.now.proxy carried.now }
    {
        self.hub.attach(carried)
    }

    /// Takes a payload of the lane from a site and a gear, and answers it. For want of memory the site is as before.
    pub fn bulk(
        &mut self,
        from: u16,
        gear: u16,
        number: u64,
        payload: Payload,
    ) -> Result<Answer, AllocError>
        requires { BulkFits self.old from gear number payload }
        ensures answer { IfOk result (λ answer. answer ≡ bulk_answer self.old.proxy from gear number payload.label) }
        ensures after { OnOk result
            (self.new ≡ record self.old { proxy = after_bulk self.old.proxy from gear number payload }) }
        ensures err { OnErr result (self.new ≡ self.old) }
    {
        let answer = self.hub.bulk(from, gear, number, payload);
        limits_of(&self.hub);
        answer
    }

    /// The beat that a step would make for another site now. It changes nothing.
    pub fn beat(&self, to: u16) -> Result<Beat, AllocError>
        requires { to < self.now.shape.sites }
        ensures beat { IfOk result (λ beat. beat ≡ beat_for self.now to) }
        ensures site { IsSite self.now }
    {
        let _ = &self.gears;
        self.hub.beat(to)
    }

    // Makes a beat for another site, and keeps it.
    fn make_beat(&mut self, to: u16) -> Result<Answer, AllocError>
        requires { to < self.old.shape.sites }
        ensures answer { IfOk result (λ answer. answer ≡ ans.Beat (length (made_for self.old to))) }
        ensures after { OnOk result (self.new ≡ beaten self.old to) }
        ensures err { OnErr result (self.new ≡ self.old) }
    {
        let answer = self.hub.make_beat(to);
        limits_of(&self.hub);
        answer
    }

    fn beat_in(&mut self, from: u16, number: u64, beat: Beat) -> Result<Answer, AllocError>
        requires from { from < self.old.shape.sites }
        requires counts { length beat.counts ≡ self.old.shape.gears }
        ensures answer { IfOk result (λ answer. answer ≡ beat_answer self.old.proxy from number) }
        ensures after { OnOk result
            (self.new ≡ record self.old { proxy = after_beat self.old.proxy from number beat }) }
        ensures err { OnErr result (self.new ≡ self.old) }
    {
        let answer = self.hub.beat_in(from, number, beat);
        limits_of(&self.hub);
        answer
    }

    // Closes the emission epoch at the site's cut.
    fn close(&mut self) -> Answer
        ensures answer { result ≡ close_answer (close_fault self.old.views) self.old }
        ensures after { self.new ≡ close_after (close_fault self.old.views) self.old }
    {
        let answer = self.hub.close();
        limits_of(&self.hub);
        answer
    }

    fn fall(&mut self) -> Answer
        ensures answer { result ≡ fall_answer (fall_fault self.old.views) }
        ensures after { self.new ≡ fall_after (fall_fault self.old.views) self.old }
    {
        let answer = self.hub.fall();
        limits_of(&self.hub);
        answer
    }

    fn advance(&mut self) -> Answer
        ensures answer { result ≡ advance_answer self.old.views self.old.proxy }
        ensures after { self.new
            ≡ passed_after (advance_fault self.old.views (has_come self.old.views self.old.proxy)) self.old }
    {
        let answer = self.hub.advance();
        limits_of(&self.hub);
        answer
    }

    /// Raises the promise of each gear to a timestamp that none of them is above. It takes no memory.
    pub fn clock(&mut self, ts: u64)
        requires limit { ts ≤ 2 ^ 62 }
        requires promises { PromisesUpTo self.old ts }
        ensures after { self.new ≡ clocked self.old ts }
        ensures site { IsSite self.old }
    {
        tick_all(&mut self.gears, ts);
        all_limits(&self.gears);
    }

    /// Whether `step` may be handed an input. It takes no memory.
    pub fn fits(&self, input: &SiteInput) -> bool
        ensures { result ≡ fits_in self.now input.now }
    {
        self.fits_here(input) && self.is_sized(input)
    }

    /// Whether `step` may be handed this Emit, Pulse, Turn, Stamp or Advance, and would do it. It takes no memory.
    pub fn can(&self, input: &SiteInput) -> bool
        requires { is_asked input.now ≡ true }
        ensures { result ≡ (fits_in self.now input.now && is_done (site_answers self.now input.now)) }
    {
        match input {
            SiteInput::Emit => self.hub.can_emit(),
            SiteInput::Pulse => self.hub.can_pulse(),
            SiteInput::Turn { front } => self.hub.can_turn(front),
            SiteInput::Stamp => self.hub.can_stamp(),
            SiteInput::Advance => self.hub.can_advance(),
            _ => false,
        }
    }

    /// Whether a gather would take something: some gear has a label that was not drained, or a promise above the
    /// gathered one. It takes no memory.
    pub fn gather_due(&self) -> bool
        ensures { result ≡ list_any is_due self.now.gears }
    {
        any_due(&self.gears)
    }

    // Whether an input is one that the machine of the model may be handed.
    fn fits_here(&self, input: &SiteInput) -> bool
        ensures { result ≡ fits_here self.now input.now }
    {
        let shape = self.hub.shape();
        match input {
            SiteInput::Tick { gear, ts } => is_tick(shape, *gear, *ts),
            SiteInput::Write {
                carried,
                items,
                values,
            } => is_write(shape, carried, items, values),
            SiteInput::Read { carried, item } => is_read(shape, carried, *item),
            SiteInput::Move { carried, to } => is_move(shape, carried, *to),
            SiteInput::Attach { carried } => is_carried(shape, carried),
            SiteInput::Turn { front } => match front {
                None => true,
                Some(label) => self.hub.is_front(label),
            },
            SiteInput::Bulk {
                from,
                gear,
                number,
                payload,
            } => self.hub.is_bulk(*from, *gear, *number, payload),
            SiteInput::Beat { to } => is_other(shape, *to),
            SiteInput::BeatIn { from, beat, .. } => self.hub.is_beat(*from, beat),
            SiteInput::Gather => true,
            SiteInput::Emit => true,
            SiteInput::Pulse => true,
            SiteInput::Stamp => true,
            SiteInput::Close => true,
            SiteInput::Fall => true,
            SiteInput::Advance => true,
        }
    }

    // Whether a number has 63 bits, and a beat the numbers of the deployment.
    fn is_sized(&self, input: &SiteInput) -> bool
        ensures { result ≡ is_sized self.now input.now }
    {
        match input {
            SiteInput::Bulk { number, .. } => *number < (1 << 63),
            SiteInput::BeatIn { number, beat, .. } => {
                *number < (1 << 63) && self.hub.is_counted(beat)
            }
            _ => true,
        }
    }

    /// What the site shows of itself.
    pub fn view(&self) -> SiteView
        ensures sound { IsSite self.now }
        ensures seen { result
            ≡ record {
              view = self.now.views.view;
              emission = self.now.views.emission;
              stamp = in_stamp self.now.views;
              waiting = length (all_waiting self.now.proxy.pool);
            } }
        ensures stands { (d : Deployed) (i : ℕ) (s : SiteState) → StandsSite d i self.now s
            → result
            ≡ record {
              view = s.views.view;
              emission = s.views.emission;
              stamp = mode_of d s;
              waiting = length s.proxy.pool;
            } }
    {
        SiteView {
            view: self.hub.view(),
            emission: self.hub.emission(),
            stamp: self.hub.in_stamp_mode(),
            waiting: self.hub.waiting(),
        }
    }

    /// The version of an item that the site keeps, None where it shows none. Of another item there is none, also where
    /// the site shows an update that has it.
    pub fn version(&self, item: u16) -> Option<&Version>
        requires { item < length self.now.shape.interest.replicas }
        ensures kept { (d : Deployed) (i : ℕ) (s : SiteState) → StandsSite d i self.now s → replicates d item i ≡ true
            → MatchOption result (s.store item ≡ None) (λ v. s.store item ≡ version_seen (Some v.now)) }
        ensures away { keeps_item self.now item ≡ false → IsNone result }
    {
        let gear = self.gear(self.gear_of(item));
        if !self.keeps(item) {
            return None;
        }
        gear.read(item)
    }

    /// The payload with this number of those that a gear made for another site, None where there is none.
    pub fn payload(&self, gear: u16, to: u16, number: u64) -> Option<&Payload>
        requires gear { gear < self.now.shape.gears }
        requires site { to < self.now.shape.sites }
        ensures payload { (d : Deployed) (i : ℕ) (s : SiteState) → StandsSite d i self.now s
            → MatchOption result (slice_get ((s.gears gear).lanes to) number ≡ None)
            (λ p. slice_get ((s.gears gear).lanes to) number ≡ Some p.now) }
        ensures lane { IfSome result (λ p. IsOfLane self.now.shape gear to p.now) }
    {
        let gear = self.gear(gear);
        gear.payload(to, number)
    }

    /// Copies of so many payloads that a gear made for another site, from a number on, or of all that there are.
    pub fn copies(
        &self,
        gear: u16,
        to: u16,
        number: u64,
        most: usize,
    ) -> Result<Vec<Payload>, AllocError>
        requires gear { gear < self.now.shape.gears }
        requires site { to < self.now.shape.sites }
        ensures { (d : Deployed) (i : ℕ) (s : SiteState) → StandsSite d i self.now s
            → IfOk result (λ copies. copies.items ≡ take most (drop number ((s.gears gear).lanes to))) }
    {
        let gear = self.gear(gear);
        gear.copies(to, number, most)
    }

    /// How many payloads a gear made for another site. It takes no memory.
    pub fn made_for(&self, gear: u16, to: u16) -> u64
        requires gear { gear < self.now.shape.gears }
        requires site { to < self.now.shape.sites }
        ensures made { (d : Deployed) (i : ℕ) (s : SiteState) → StandsSite d i self.now s
            → result ≡ length ((s.gears gear).lanes to) }
        ensures seen { result ≡ length (lane_of self.now gear to) }
    {
        let gear = self.gear(gear);
        gear.made_for(to)
    }

    /// Whether the payload with this number of the lane of a gear of another site came here. It takes no memory.
    pub fn has(&self, from: u16, gear: u16, number: u64) -> bool
        requires from { from < self.now.shape.sites }
        requires gear { gear < self.now.shape.gears }
        ensures has { result ≡ has_number (window_of self.now.proxy from gear) number }
        ensures site { IsSite self.now }
    {
        let _ = &self.gears;
        self.hub.has(from, gear, number)
    }

    /// The beat with this number of those that the site made for another one, None where there is none. It takes no
    /// memory.
    pub fn made_beat(&self, to: u16, number: u64) -> Option<&Beat>
        requires { to < self.now.shape.sites }
        ensures beat { option_copied result ≡ slice_get (made_for self.now to) number }
        ensures sound { IsSite self.now }
    {
        let _ = &self.gears;
        self.hub.made_beat(to, number)
    }

    /// The timestamp up to which a gear makes no label any more.
    pub fn promise(&self, gear: u16) -> u64
        requires { gear < self.now.shape.gears }
        ensures promise { (d : Deployed) (i : ℕ) (s : SiteState) → StandsSite d i self.now s
            → result ≡ (s.gears gear).promise }
        ensures limit { result ≤ 2 ^ 62 }
        ensures seen { (g : GearSeen) → slice_get self.now.gears gear ≡ Some g → result ≡ g.promise }
        ensures limits { IsSite self.now }
    {
        let gear = self.gear(gear);
        gear.promise()
    }

    /// The front of the lane from a site and a gear: the least number that was not taken here.
    pub fn front(&self, from: u16, gear: u16) -> u64
        requires from { from < self.now.shape.sites }
        requires gear { gear < self.now.shape.gears }
        ensures front { (d : Deployed) (i : ℕ) (s : SiteState) → StandsSite d i self.now s
            → result ≡ front_of s from gear }
        ensures seen { result ≡ front_at self.now.proxy from gear }
    {
        self.hub.front(from, gear)
    }
}
