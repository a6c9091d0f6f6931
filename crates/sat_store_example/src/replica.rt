//! A replica: the process that runs one site of the store.
ghost use Rattle.std.specs.Prelude.{ℕ, ◌≡◌, ◌∷◌, [], ◌<◌, slice_get, Some, None, IfOk, IfSome, IsOk, OnOk, OnErr};
ghost use Rattle.std.specs.Prelude.{IsErrOf, IsOkUnless, MatchOption, true, false, option_copied};
ghost use Rattle.sat_act.specs.Deployed.{Deployed};
ghost use Rattle.sat_model.specs.State.{SiteState, fresh_site};
ghost use Rattle.sat_proxy.specs.Proxy.{front_at};
ghost use Rattle.sat_site.specs.Inputs.{fits_in, is_front_here, takes_none};
ghost use Rattle.sat_site.specs.Seen.{IsSite};
ghost use Rattle.sat_label.specs.declared.items.Items.TheVariants.{One};
ghost use Rattle.sat_label.specs.declared.label.Label.{Label as LabelSeen};
ghost use Rattle.sat_act.specs.declared.answer.Answer.TheVariants as ans;
ghost use Rattle.sat_site.specs.SiteSteps.{site_after, site_answers, site_beat, site_sends};
ghost use Rattle.sat_site.specs.Stands.{StandsSite};
ghost use Rattle.sat_site.specs.declared.input.SiteInput.TheVariants as input;
ghost use Rattle.sat_store_example.specs.declared.fault.ReplicaFault.TheVariants as fault;
ghost use Rattle.sat_store_example.specs.Duties.{duty_input, sending_input};
ghost use Rattle.sat_store_example.specs.Replicas.{arrive_fault, attach_fault, call_fault, hand_fault, has_lane};
ghost use Rattle.sat_store_example.specs.Replicas.{inbox_after, joined, next_label, posted, told, with_site, MayTell};
ghost use Rattle.sat_store_example.specs.Replicas.{ReadsNewer};
ghost use Rattle.sat_store_example.specs.Waiting.{is_it, link_of, no_links, with_label, without_front};
ghost use Rattle.sat_store_example.specs.declared.links.TheConstants.{LINKS};

use crate::lasting::{has_lane, payload_of};
use crate::links::{LINKS, Links};
use crate::{Duty, Offer, ReplicaFault, Sending};
use sat_act::{Answer, Deployment};
use sat_bulk::Payload;
use sat_client::Client;
use sat_label::{Items, Kind, Label, Value, Values};
use sat_site::{Site, SiteInput, SiteOutput};
use std::alloc::{AllocError, Global};
use std::marker::Model;

/// One site, in a process of its own, with its number, and with two links in the tree of each epoch, to its relay there
/// and from it: the labels that it sent and that the relay has not taken yet, and the labels that came and that it has
/// not taken yet. Contracts see these.
#[derive(Drop)]
pub struct Replica {
    alloc: Global,
    number: u16,
    site: Site,
    inbox: Links,
    outbox: Links,
}

impl Model for Replica {
    ghost use Rattle.sat_store_example.specs.Replicas.{ReplicaSeen};

    ghost Value = { ReplicaSeen };

    ghost view = { λ r. record { number = r.number; site = r.site; inbox = r.inbox; outbox = r.outbox } };
}

// Tells a client what its call was answered.
fn tell(client: &mut Client, answer: &Answer)
    requires { MayTell answer.now client.old }
    ensures { client.new ≡ told answer.now client.old }
{
    match answer {
        Answer::Wrote(label) => client.observe(label.point),
        Answer::ReadSome { label, .. } => client.observe(label.point),
        Answer::Moved(label) => client.moved(*label),
        _ => {}
    }
}

// Seats a client, where it was let in.
fn seat(client: &mut Client, site: u16, answer: &Answer)
    ensures { client.new ≡ joined answer.now site client.old }
{
    match answer {
        Answer::Attached => client.joined(site),
        _ => {}
    }
}

// Puts the label that a site would send, if there is one, onto the link of its epoch.
#[tactic(auto, using(crate::proofs::Views::emission_is_small))]
fn post(site: &Site, given: &SiteInput, outbox: &mut Links) -> Result<(), AllocError>
    ensures ok { OnOk result (outbox.new ≡ posted outbox.old site.now.views.emission (site_sends site.now given.now)) }
    ensures err { OnErr result (outbox.new ≡ outbox.old) }
{
    let Some(label) = site.sends(given) else {
        return Ok(());
    };
    let view = site.view();
    outbox.add(view.emission, label)
}

// Takes the oldest label off a link, where the answer says that it was shown or taken.
fn clear(inbox: &mut Links, epoch: u16, answer: &Answer)
    requires { epoch < LINKS }
    ensures { inbox.new ≡ inbox_after answer.now epoch inbox.old }
{
    match answer {
        Answer::Shown(_) => inbox.take(epoch),
        Answer::Took(_) => inbox.take(epoch),
        _ => {}
    }
}

impl Replica {
    /// A new site: the one with this number of the deployment, at which nothing has happened.
    pub fn new(alloc: Global, d: &Deployment, number: u16) -> Result<Replica, AllocError>
        requires { number < d.now.sites }
        ensures number { IfOk result (λ made. made.number ≡ number) }
        ensures site { IfOk result (λ made. StandsSite d.now number made.site (fresh_site number)) }
        ensures inbox { IfOk result (λ made. made.inbox ≡ no_links) }
        ensures outbox { IfOk result (λ made. made.outbox ≡ no_links) }
    {
        let site = Site::new(alloc, d, number)?;
        Ok(Replica {
            alloc,
            number,
            site,
            inbox: Links::new(alloc)?,
            outbox: Links::new(alloc)?,
        })
    }

    /// The site, for what it tells of itself: its view and how much waits there, what it made for others, what it
    /// promised.
    pub fn site(&self) -> &Site
        ensures { result.now ≡ self.now.site }
    {
        &self.site
    }

    // Lets the site do an act. What it is handed is tested first, since a message may say anything.
    fn step(&mut self, given: SiteInput) -> Result<SiteOutput, ReplicaFault>
        ensures fault { MatchOption (hand_fault self.old given) (IsOkUnless result fault.Memory)
            (λ why. IsErrOf result why) }
        ensures answer { IfOk result (λ out. out.answer ≡ site_answers self.old.site given) }
        ensures sent { IfOk result (λ out. out.sent ≡ site_sends self.old.site given) }
        ensures site { OnOk result (IsSite self.old.site) }
        ensures beat { IfOk result (λ out. out.beat ≡ site_beat self.old.site given) }
        ensures after { OnOk result (self.new ≡ with_site self.old (site_after self.old.site given)) }
        ensures spare { hand_fault self.old given ≡ None → takes_none given ≡ true → IsOk result }
        ensures err { OnErr result (self.new ≡ self.old) }
    {
        if !self.site.fits(&given) {
            return Err(ReplicaFault::Unfit);
        }
        match self.site.step(given) {
            Ok(out) => Ok(out),
            Err(_) => Err(ReplicaFault::Memory),
        }
    }

    /// A duty of the site: a tick of a gear, a gather, a payload or a beat that came, a beat for another site, a stamp,
    /// a fall, an advance. What came is tested first, since a message may say anything. A duty sends no label.
    #[tactic(auto, using(crate::proofs::Duties::duty_sends))]
    pub fn hand(&mut self, duty: Duty) -> Result<SiteOutput, ReplicaFault>
        ensures fault { MatchOption (hand_fault self.old (duty_input duty)) (IsOkUnless result fault.Memory)
            (λ why. IsErrOf result why) }
        ensures answer { IfOk result (λ out. out.answer ≡ site_answers self.old.site (duty_input duty)) }
        ensures sent { IfOk result (λ out. out.sent ≡ None) }
        ensures beat { IfOk result (λ out. out.beat ≡ site_beat self.old.site (duty_input duty)) }
        ensures after { OnOk result (self.new ≡ with_site self.old (site_after self.old.site (duty_input duty))) }
        ensures spare { hand_fault self.old (duty_input duty) ≡ None → takes_none (duty_input duty) ≡ true
            → IsOk result }
        ensures err { OnErr result (self.new ≡ self.old) }
    {
        self.step(duty.input())
    }

    // A call of a client that is seated here.
    fn call(&mut self, client: &Client, given: SiteInput) -> Result<Answer, ReplicaFault>
        ensures fault { MatchOption (call_fault self.old client.now given) (IsOkUnless result fault.Memory)
            (λ why. IsErrOf result why) }
        ensures answer { IfOk result (λ answer. answer ≡ site_answers self.old.site given) }
        ensures after { OnOk result (self.new ≡ with_site self.old (site_after self.old.site given)) }
        ensures site { OnOk result (IsSite self.old.site) }
        ensures err { OnErr result (self.new ≡ self.old) }
    {
        if client.seat != Some(self.number) {
            return Err(ReplicaFault::Seat);
        }
        match self.step(given) {
            Ok(out) => Ok(out.answer),
            Err(fault) => Err(fault),
        }
    }

    // Whether a client is seated here, and may call this.
    fn may_call(&self, client: &Client, given: &SiteInput) -> Result<(), ReplicaFault>
        ensures { MatchOption (call_fault self.now client.now given.now) (IsOk result) (λ why. IsErrOf result why) }
    {
        if client.seat != Some(self.number) {
            return Err(ReplicaFault::Seat);
        }
        if !self.site.fits(given) {
            return Err(ReplicaFault::Unfit);
        }
        Ok(())
    }

    /// A local write by a client that is seated here. The client then carries the label of the write, and a read here
    /// answers the value, unless a version with a greater label was here already.
    #[tactic(auto, using(crate::proofs::OneItem::one_fault))]
    pub fn write(
        &mut self,
        client: &mut Client,
        item: u16,
        value: Value,
    ) -> Result<Answer, ReplicaFault>
        ensures fault { MatchOption
            (call_fault self.old client.old (input.Write client.old.carried (One item) (value ∷ [])))
            (IsOkUnless result fault.Memory) (λ why. IsErrOf result why) }
        ensures answer { IfOk result (λ answer. answer
            ≡ site_answers self.old.site (input.Write client.old.carried (One item) (value ∷ []))) }
        ensures after { OnOk result (self.new
            ≡ with_site self.old (site_after self.old.site (input.Write client.old.carried (One item) (value ∷ [])))) }
        ensures told { IfOk result (λ answer. client.new ≡ told answer client.old) }
        ensures read_back { IfOk result (λ answer. (l : LabelSeen) → answer ≡ ans.Wrote l
            → ReadsNewer self.old.site self.new.site item l value) }
        ensures err { OnErr result (self.new ≡ self.old) }
        ensures client { OnErr result (client.new ≡ client.old) }
    {
        // A write of an item fits where a read of it does. So a fault is told before memory is taken.
        self.may_call(
            client,
            &SiteInput::Read {
                carried: client.carried,
                item,
            },
        )?;
        let values = Values::one(self.alloc, value)?;
        let answer = self.call(
            client,
            SiteInput::Write {
                carried: client.carried,
                items: Items::One(item),
                values,
            },
        )?;
        tell(client, &answer);
        Ok(answer)
    }

    /// A local read by a client that is seated here. The client then carries the greater of its own label and that of
    /// the version.
    pub fn read(&mut self, client: &mut Client, item: u16) -> Result<Answer, ReplicaFault>
        ensures fault { MatchOption (call_fault self.old client.old (input.Read client.old.carried item))
            (IsOkUnless result fault.Memory) (λ why. IsErrOf result why) }
        ensures answer { IfOk result (λ answer. answer
            ≡ site_answers self.old.site (input.Read client.old.carried item)) }
        ensures told { IfOk result (λ answer. client.new ≡ told answer client.old) }
        ensures replica { self.new ≡ self.old }
        ensures client { OnErr result (client.new ≡ client.old) }
    {
        let answer = self.call(
            client,
            SiteInput::Read {
                carried: client.carried,
                item,
            },
        )?;
        tell(client, &answer);
        Ok(answer)
    }

    /// A client leaves for another site: its move is a label like that of a write, and travels with them. The client
    /// has no seat until it is let in there.
    pub fn migrate(&mut self, client: &mut Client, to: u16) -> Result<Answer, ReplicaFault>
        ensures fault { MatchOption (call_fault self.old client.old (input.Move client.old.carried to))
            (IsOkUnless result fault.Memory) (λ why. IsErrOf result why) }
        ensures answer { IfOk result (λ answer. answer
            ≡ site_answers self.old.site (input.Move client.old.carried to)) }
        ensures after { OnOk result
            (self.new ≡ with_site self.old (site_after self.old.site (input.Move client.old.carried to))) }
        ensures told { IfOk result (λ answer. client.new ≡ told answer client.old) }
        ensures err { OnErr result (self.new ≡ self.old) }
        ensures client { OnErr result (client.new ≡ client.old) }
    {
        let answer = self.call(
            client,
            SiteInput::Move {
                carried: client.carried,
                to,
            },
        )?;
        tell(client, &answer);
        Ok(answer)
    }

    /// A client without a seat asks to be let in: it is, once all that it saw is shown here.
    pub fn attach(&mut self, client: &mut Client) -> Result<Answer, ReplicaFault>
        ensures fault { MatchOption (attach_fault self.old client.old (input.Attach client.old.carried)) (IsOk result)
            (λ why. IsErrOf result why) }
        ensures answer { IfOk result (λ answer. answer ≡ site_answers self.old.site (input.Attach client.old.carried)) }
        ensures joined { IfOk result (λ answer. client.new ≡ joined answer self.old.number client.old) }
        ensures replica { self.new ≡ self.old }
        ensures client { OnErr result (client.new ≡ client.old) }
    {
        if client.seat.is_some() {
            return Err(ReplicaFault::Seat);
        }
        let out = self.step(SiteInput::Attach {
            carried: client.carried,
        })?;
        seat(client, self.number, &out.answer);
        Ok(out.answer)
    }

    /// A label out: an Emit, a Pulse or a Close, whose label, if it is for some site, waits on the link of its epoch
    /// until the relay has it. It is put there first, since a label that has left the site must not be lost. For want
    /// of memory nothing has changed.
    #[tactic(auto, using(crate::proofs::Duties::sending_fits, crate::proofs::Duties::sending_spares))]
    pub fn send(&mut self, sending: Sending) -> Result<Answer, AllocError>
        ensures answer { IfOk result (λ answer. answer ≡ site_answers self.old.site (sending_input sending)) }
        ensures after { OnOk result
            (self.new
            ≡ record self.old {
              site = site_after self.old.site (sending_input sending);
              outbox = posted self.old.outbox self.old.site.views.emission
                  (site_sends self.old.site (sending_input sending));
            }) }
        ensures err { OnErr result (self.new ≡ self.old) }
    {
        let given = sending.input();
        post(&self.site, &given, &mut self.outbox)?;
        match self.site.step(given) {
            Ok(out) => Ok(out.answer),
            // A sending takes no memory.
            Err(_) => unreachable!(),
        }
    }

    /// A label out, on the link to the relay in the tree of an epoch: the oldest one, which stays there until `taken`
    /// is told of it; None where none waits. It takes no memory.
    pub fn offer(&self, epoch: u16) -> Option<Offer<u16>>
        ensures label { MatchOption result (slice_get (link_of self.now.outbox epoch) 0 ≡ None)
            (λ offer. slice_get (link_of self.now.outbox epoch) 0 ≡ Some offer.label) }
        ensures link { IfSome result (λ offer. offer.link ≡ epoch) }
    {
        let label = self.outbox.front(epoch)?;
        Some(Offer { label, link: epoch })
    }

    /// The relay has said that it took what was offered: the label leaves its link. Where another one is the oldest
    /// there, since this was told twice, nothing changes, and the answer is false. It takes no memory.
    pub fn taken(&mut self, offer: Offer<u16>) -> bool
        ensures stands { result ≡ is_it offer.label (slice_get (link_of self.old.outbox offer.link) 0) }
        ensures taken { result ≡ true
            → self.new ≡ record self.old { outbox = without_front self.old.outbox offer.link } }
        ensures stays { result ≡ false → self.new ≡ self.old }
    {
        let Some(front) = self.outbox.front(offer.link) else {
            return false;
        };
        if !front.is_same(&offer.label) {
            return false;
        }
        self.outbox.take(offer.link);
        true
    }

    // Whether the site may be handed a label as the front of the link in the tree of its view.
    #[tactic(auto, using(crate::proofs::Fronts::front_fits))]
    fn may_front(&self, label: Label) -> bool
        ensures { result ≡ is_front_here self.now.site.shape self.now.site.views.view label }
    {
        self.site.fits(&SiteInput::Turn { front: Some(label) })
    }

    // Whether a label may wait on the link of an epoch: another site sends it, and where it is a close, it is one of
    // that epoch.
    fn is_sent(&self, epoch: u16, label: Label) -> bool
        ensures { result ≡ is_front_here self.now.site.shape epoch label }
    {
        match label.kind {
            Kind::Close(closed) => {
                let pulse = Label {
                    point: label.point,
                    kind: Kind::Pulse,
                };
                closed == epoch && self.may_front(pulse)
            }
            Kind::Update(_) => self.may_front(label),
            Kind::Move(_) => self.may_front(label),
            Kind::Pulse => self.may_front(label),
        }
    }

    /// A label in, by the tree of an epoch: it waits behind those that came before it on that link. `Unfit` says that
    /// there is no such epoch, or that no other site sends such a label there. For want of memory nothing has changed.
    pub fn arrive(&mut self, epoch: u16, label: Label) -> Result<(), ReplicaFault>
        ensures fault { MatchOption (arrive_fault self.old epoch label) (IsOkUnless result fault.Memory)
            (λ why. IsErrOf result why) }
        ensures ok { OnOk result (self.new ≡ record self.old { inbox = with_label self.old.inbox epoch label }) }
        ensures err { OnErr result (self.new ≡ self.old) }
    {
        if epoch as usize >= LINKS || !self.is_sent(epoch, label) {
            return Err(ReplicaFault::Unfit);
        }
        self.inbox.add(epoch, label)?;
        Ok(())
    }

    // The oldest label that waits in the tree of the site's view.
    fn next(&self) -> Option<Label>
        ensures { result ≡ next_label self.now }
    {
        let view = self.site.view();
        self.inbox.front(view.view)
    }

    /// Shows the oldest label that waits in the tree of the site's view, once its payload is there; it is taken off its
    /// link only then. It takes no memory.
    #[tactic(auto, using(crate::proofs::Views::view_is_small))]
    pub fn show(&mut self) -> Result<Answer, ReplicaFault>
        ensures fault { MatchOption (hand_fault self.old (input.Turn (next_label self.old))) (IsOk result)
            (λ why. IsErrOf result why) }
        ensures answer { IfOk result (λ answer. answer
            ≡ site_answers self.old.site (input.Turn (next_label self.old))) }
        ensures after { IfOk result (λ answer. self.new
            ≡ record self.old {
              site = site_after self.old.site (input.Turn (next_label self.old));
              inbox = inbox_after answer self.old.site.views.view self.old.inbox;
            }) }
        ensures err { OnErr result (self.new ≡ self.old) }
    {
        let view = self.site.view();
        let front = self.next();
        let out = self.step(SiteInput::Turn { front })?;
        clear(&mut self.inbox, view.view, &out.answer);
        Ok(out.answer)
    }

    // Whether the site makes payloads with this gear for this site.
    fn has_lane(&self, gear: u16, to: u16) -> bool
        ensures { result ≡ has_lane self.now.site gear to }
    {
        has_lane(&self.site, gear, to)
    }

    /// The payload to ask another site for next, of those that a gear of it makes for this one: the least number that
    /// did not come yet. None where there is no such gear or site. It takes no memory.
    pub fn wanted(&self, from: u16, gear: u16) -> Option<u64>
        ensures none { has_lane self.now.site gear from ≡ false → result ≡ None }
        ensures number { has_lane self.now.site gear from ≡ true
            → result ≡ Some (front_at self.now.site.proxy from gear) }
    {
        if !self.has_lane(gear, from) {
            return None;
        }
        Some(self.site.front(from, gear))
    }

    /// A payload out: the one with this number of those that a gear made for another site, None where there is none
    /// yet, or no such gear or site. The numbers count from 0, and the receiver is handed the same number with it. It
    /// takes no memory.
    pub fn payload(&self, gear: u16, to: u16, number: u64) -> Option<&Payload>
        ensures none { has_lane self.now.site gear to ≡ false → option_copied result ≡ None }
        ensures payload { has_lane self.now.site gear to ≡ true → (d : Deployed) (i : ℕ) (s : SiteState)
            → StandsSite d i self.now.site s → MatchOption result (slice_get ((s.gears gear).lanes to) number ≡ None)
            (λ p. slice_get ((s.gears gear).lanes to) number ≡ Some p.now) }
    {
        payload_of(&self.site, gear, to, number)
    }
}
