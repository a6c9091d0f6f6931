//! What comes to a site and is shown there: payloads of a lane, turns, one or many, and updates in timestamp order.
ghost use Rattle.std.specs.Prelude.{◌+◌, ◌≡◌, ◌≤◌, ◌<◌, ◌^◌, drop, false, is_some, length, slice_get, Some, IfSome};
ghost use Rattle.sat_label.specs.declared.label.Kind.TheVariants.{Update};
ghost use Rattle.sat_label.specs.declared.label.Label.{Label};
ghost use Rattle.sat_label.specs.Grouped.{list_of};
ghost use Rattle.sat_label.specs.Members.{In};
ghost use Rattle.sat_sites.specs.Interested.{AreBelow};
ghost use Rattle.sat_epoch.specs.Epochs.{in_stamp};
ghost use Rattle.sat_act.specs.declared.answer.Answer.TheVariants as ans;
ghost use Rattle.sat_act.specs.Settling.{is_done};
ghost use Rattle.sat_proxy.specs.Steps.{waiting_of};
ghost use Rattle.sat_proxy.specs.Answers.{stamp_answer, turn_answer};
ghost use Rattle.sat_site.specs.Seen.{IsGuest, IsSite};
ghost use Rattle.sat_site.specs.Bulks.{BulksOn};
ghost use Rattle.sat_site.specs.Inputs.{BulksFit, IsFront};
ghost use Rattle.sat_site.specs.SiteSteps.{shown_of, shown_parts, shown_version, stamped_after, turned_after};
ghost use Rattle.sat_site.specs.Turns.{shown_more, TurnsOn};

use crate::Site;
use crate::gears::{limits, limits_of};
use sat_act::{Answer, Refusal};
use sat_bulk::{Parts, Payload};
use sat_label::{Items, Kind, Label, Version};
use sat_proxy::{StampFault, TurnFault, Turned};
use sat_queue::Queue;

impl Site {
    /// Takes payloads of the lane from a site and a gear, with the numbers from `first` on, one after another, each as
    /// the next of its lane, and answers how many came: all, or those before the first that is not the next or for
    /// which there was no memory; the others are let go.
    pub fn bulk_all(&mut self, from: u16, gear: u16, first: u64, payloads: Vec<Payload>) -> usize
        requires { BulksFit self.old from gear first payloads.items }
        ensures count { result ≤ length payloads.items }
        ensures steps { BulksOn self.old from gear first payloads.items result self.new }
        ensures site { IsSite self.new }
    {
        let count = self.hub.bulk_all(from, gear, first, payloads);
        limits_of(&self.hub);
        count
    }

    /// Shows or takes the front of the link to the site, and answers it. It takes no memory.
    pub fn turn(&mut self, front: Option<Label>) -> Answer
        requires { (l : Label) → front ≡ Some l → IsFront self.old l }
        ensures answer { result ≡ turn_answer self.old.views self.old.proxy front }
        ensures after { self.new ≡ turned_after self.old front }
    {
        let turned = self.hub.turn(front);
        limits_of(&self.hub);
        match turned {
            Ok(Turned::Show(payload)) => self.show_guest(payload),
            Ok(Turned::Took(label)) => Answer::Took(label),
            Err(TurnFault::StampOrder) => Answer::Refused(Refusal::StampOrder),
            Err(TurnFault::Empty) => Answer::Refused(Refusal::Empty),
            Err(TurnFault::NoPayload(label)) => Answer::Refused(Refusal::NoPayload(label)),
        }
    }

    /// Shows or takes the labels of the link to the site, from the front on, as long as a turn does one, and takes them
    /// out: how many, and how many of them it showed. It takes no memory.
    pub fn turn_all(&mut self, labels: &mut Queue<Label>) -> (u64, u64)
        requires fronts { (l : Label) → In labels.old.members l → IsFront self.old l }
        ensures turns { TurnsOn self.old labels.old.members result.0 result.1 self.new }
        ensures left { labels.new.members ≡ drop result.0 labels.old.members }
        ensures end { is_done
            (turn_answer self.new.views self.new.proxy (slice_get labels.old.members result.0)) ≡ false }
        ensures site { IsSite self.new }
    {
        if self.hub.in_stamp_mode() {
            self.sound();
            return (0, 0);
        }
        let counts = self.turn_labels(labels);
        self.sound();
        counts
    }

    // The same, of a site that goes by its tree.
    fn turn_labels(&mut self, labels: &mut Queue<Label>) -> (u64, u64)
        requires tree { in_stamp self.old.views ≡ false }
        requires fronts { (l : Label) → In labels.old.members l → IsFront self.old l }
        ensures turns { TurnsOn self.old labels.old.members result.0 result.1 self.new }
        ensures left { labels.new.members ≡ drop result.0 labels.old.members }
        ensures end { is_done
            (turn_answer self.new.views self.new.proxy (slice_get labels.old.members result.0)) ≡ false }
    {
        let count = labels.len() as u64;
        let mut shown: u64 = 0;
        'labels: for done in 0..count {
            let Some(label) = labels.front() else {
                return (done, shown);
            };
            let Some(count_shown) = self.turn_one(&label, shown) else {
                return (done, shown);
            };
            shown = count_shown;
            let _ = labels.take();
        }
        (count, shown)
    }

    // What is true of a site.
    fn sound(&self)
        ensures { IsSite self.now }
    {
        let _ = &self.gears;
    }

    // Shows or takes this label, if a turn does so by the tree: of how many were shown before, how many are then.
    #[inline(always)]
    fn turn_one(&mut self, label: &Label, shown: u64) -> Option<u64>
        requires tree { in_stamp self.old.views ≡ false }
        requires front { IsFront self.old label.now }
        requires few { shown + 1 < 2 ^ 64 }
        ensures done { is_some result ≡ is_done (turn_answer self.old.views self.old.proxy (Some label.now)) }
        ensures shown { IfSome result
            (λ n. n ≡ shown_more (turn_answer self.old.views self.old.proxy (Some label.now)) shown) }
        ensures after { self.new ≡ turned_after self.old (Some label.now) }
        ensures site { IsSite self.old }
    {
        self.sound();
        match label.kind {
            Kind::Update(items) => {
                if self.show_update(label, items) {
                    Some(shown + 1)
                } else {
                    None
                }
            }
            Kind::Move(_) => {
                self.take_other(label);
                Some(shown)
            }
            Kind::Pulse => {
                self.take_other(label);
                Some(shown)
            }
            Kind::Close(_) => {
                self.take_other(label);
                Some(shown)
            }
        }
    }

    // Shows the update of a label of these items, if its payload waits: whether it does.
    #[inline(always)]
    fn show_update(&mut self, label: &Label, items: Items) -> bool
        requires tree { in_stamp self.old.views ≡ false }
        requires front { IsFront self.old label.now }
        requires kind { label.now.kind ≡ Update items }
        ensures waits { result ≡ is_some (waiting_of self.old.proxy.pool label.now) }
        ensures after { self.new ≡ turned_after self.old (Some label.now) }
    {
        let shown = self.hub.show_front(label);
        limits_of(&self.hub);
        let Some(payload) = shown else {
            return false;
        };
        self.show_all(items, payload);
        true
    }

    // Turns a label that is of no update. A call of its own, since few labels are such.
    #[inline(never)]
    fn take_other(&mut self, label: &Label)
        requires { IsFront self.old label.now }
        ensures { self.new ≡ turned_after self.old (Some label.now) }
    {
        let _ = self.turn(Some(*label));
    }

    /// Shows the next update in timestamp order, and answers it. It takes no memory.
    pub fn stamp(&mut self) -> Answer
        ensures answer { result ≡ stamp_answer self.old.views self.old.proxy }
        ensures after { self.new ≡ stamped_after self.old }
    {
        let shown = self.hub.stamp();
        limits_of(&self.hub);
        match shown {
            Ok(payload) => self.show_guest(payload),
            Err(StampFault::TreeOrder) => Answer::Refused(Refusal::TreeOrder),
            Err(StampFault::NotYet) => Answer::Refused(Refusal::NotYet),
        }
    }

    // Shows an update of another site, and answers it.
    fn show_guest(&mut self, payload: Payload) -> Answer
        requires { IsGuest self.old.shape payload }
        ensures answer { result ≡ ans.Shown payload.label }
        ensures after { self.new ≡ shown_of self.old payload payload.label.kind }
    {
        let label = payload.label();
        let Kind::Update(items) = label.kind else {
            unreachable!()
        };
        self.show_all(items, payload);
        Answer::Shown(label)
    }

    // Shows an update of these items, of one mostly.
    #[inline(always)]
    fn show_all(&mut self, items: Items, payload: Payload)
        requires items { AreBelow (length self.old.shape.interest.replicas) (list_of items) }
        requires parts { length payload.values ≡ length (list_of items) }
        ensures { self.new ≡ shown_parts self.old payload.label items payload.values }
    {
        match items {
            Items::One(item) => self.show_part(item, payload.into_first()),
            _ => self.show_opened(items, payload),
        }
    }

    // The same by its parts. A call of its own, since few updates are of more than one item.
    #[inline(never)]
    fn show_opened(&mut self, items: Items, payload: Payload)
        requires items { AreBelow (length self.old.shape.interest.replicas) (list_of items) }
        requires parts { length payload.values ≡ length (list_of items) }
        ensures { self.new ≡ shown_parts self.old payload.label items payload.values }
    {
        self.show(items, payload.open());
    }

    // Shows each part of an update whose item the site keeps.
    pub(crate) fn show(&mut self, items: Items, parts: Parts)
        requires items { AreBelow (length self.old.shape.interest.replicas) (list_of items) }
        requires parts { length parts.values ≡ length (list_of items) }
        ensures { self.new ≡ shown_parts self.old parts.label items parts.values }
    {
        let mut parts = parts;
        match items {
            Items::One(a) => self.show_part(a, parts.take(0)),
            Items::Two(a, b) => {
                self.show_part(a, parts.take(0));
                self.show_part(b, parts.take(1));
            }
            Items::Three(a, b, c) => {
                self.show_part(a, parts.take(0));
                self.show_part(b, parts.take(1));
                self.show_part(c, parts.take(2));
            }
            Items::Four(a, b, c, d) => {
                self.show_part(a, parts.take(0));
                self.show_part(b, parts.take(1));
                self.show_part(c, parts.take(2));
                self.show_part(d, parts.take(3));
            }
        }
    }

    // Shows a part of an update, if there is one, by the gear of its item, where the site keeps that.
    fn show_part(&mut self, item: u16, part: Option<Version>)
        requires { item < length self.old.shape.interest.replicas }
        ensures { self.new ≡ shown_version self.old item part }
    {
        let Some(version) = part else {
            return;
        };
        if !self.keeps(item) {
            return;
        }
        let number = self.gear_of(item);
        let gear = &mut self.gears[number as usize];
        limits(gear);
        let _ = gear.show(item, version);
        limits(gear);
    }
}
