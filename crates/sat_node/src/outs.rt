//! The sending end of a link, which lies under a node's lock and keeps how far in the node's journal it is.
ghost use Rattle.std.specs.Prelude.{◌≡◌, ◌+◌, ◌^◌, ◌<◌, ℕ, [], length, get_or, IfOk, OnErr, OnOk, Some, slice_get};
ghost use Rattle.std.specs.Prelude.{MatchBool, ◌==◌, if◌then◌else◌};
ghost use Rattle.sat_node.specs.declared.kept.Made.TheVariants as made;
ghost use Rattle.sat_node.specs.Puts.{SameOut, SentOne, SentThing, HasNumbers, FoundFull, Sends, Stopped, Flushed};

use crate::kept::{Body, Envelope, Kept, Made};
use crate::node::Machine;
use sat_beat::Beat;
use sat_bulk::Payload;
use sat_label::{Label, NodeName};
use sat_link::LinkIn;
use std::alloc::{AllocError, Global};
use std::marker::{Brand, Model, PhantomData};
use std::sync::Wait;

/// Names the wires of a cluster.
pub trait Names {
    ghost use Rattle.std.specs.Prelude.{List};
    ghost use Rattle.atomic_table.specs.Seated.{TableId};

    ghost wires: { List TableId };
}

impl Names for Brand {
    ghost use Rattle.std.specs.Prelude.{[]};

    ghost wires = { [] };
}

/// The sending end of a link at its place in the list of wires. It serves labels, payloads and beats: what the first
/// `next` entries of its node's journal put on the link was sent, and what the others put there waits. It counts the
/// payloads of each gear and the beats that it sent, which are the numbers of the next ones.
#[derive(Drop)]
pub struct Out<N: Names> {
    pub(crate) place: usize,
    pub(crate) link: LinkIn<Envelope>,
    next: usize,
    payloads: Vec<u64>,
    beats: u64,
    of: PhantomData<N>,
}

impl<N: Names> Model for Out<N> {
    ghost use Rattle.std.specs.Prelude.{◌≡◌, Some, slice_get};
    ghost use Rattle.sat_node.specs.Puts.{OutSeen};

    ghost Value = { OutSeen };

    ghost view = { λ o. record {
      place = o.place;
      link = o.link;
      next = o.next;
      payloads = o.payloads.items;
      beats = o.beats;
    } };

    ghost invariant = { λ o. slice_get N.wires o.place ≡ Some o.link.wire };
}

impl<N: Names> Out<N> {
    /// A sending end at its place, of which no entry was sent.
    pub fn new(alloc: Global, place: usize, link: LinkIn<Envelope>) -> Out<N>
        requires { slice_get N.wires place ≡ Some link.wire }
        ensures { result ≡ record { place = place; link = link; next = 0; payloads = []; beats = 0 } }
    {
        Out {
            place,
            link,
            next: 0,
            payloads: Vec::new(alloc),
            beats: 0,
            of: PhantomData,
        }
    }

    /// How many entries of the journal it went through.
    pub fn next(&self) -> usize
        ensures { result ≡ self.now.next }
    {
        self.next
    }

    // Sends a label. False where the link was full.
    fn send_label<R: Wait>(&mut self, rt: &R, lamport: u64, label: Label) -> bool
        ensures { MatchBool result (SentOne lamport (made.Label label) self.old self.new)
            (FoundFull self.old self.new) }
    {
        let body = Body::Label(label);
        self.link.push(rt, Envelope { lamport, body }).is_ok()
    }

    // Sends a beat under the next number. False where the link was full.
    fn send_beat<R: Wait>(&mut self, rt: &R, lamport: u64, beat: Beat) -> bool
        requires { self.old.beats + 1 < 2 ^ 64 }
        ensures { MatchBool result (SentOne lamport (made.Beat beat) self.old self.new) (FoundFull self.old self.new) }
    {
        let body = Body::Beat {
            number: self.beats,
            beat,
        };
        if self.link.push(rt, Envelope { lamport, body }).is_err() {
            return false;
        }
        self.beats += 1;
        true
    }

    // Sends a payload under the next number of its gear. False where the link was full.
    fn send_payload<R: Wait>(
        &mut self,
        rt: &R,
        lamport: u64,
        gear: u16,
        payload: Payload,
    ) -> Result<bool, AllocError>
        requires { get_or self.old.payloads gear 0 + 1 < 2 ^ 64 }
        ensures sent { IfOk result
            (λ sent. MatchBool sent (SentOne lamport (made.Payload gear payload) self.old self.new)
            (FoundFull self.old self.new)) }
        ensures err { OnErr result (SameOut self.old self.new × (self.new.link.fulls ≡ self.old.link.fulls)) }
    {
        make_row(&mut self.payloads, gear)?;
        let number = self.payloads.as_slice()[usize::from(gear)];
        let body = Body::Payload {
            gear,
            number,
            payload,
        };
        if self.link.push(rt, Envelope { lamport, body }).is_err() {
            return Ok(false);
        }
        raise(&mut self.payloads, gear);
        Ok(true)
    }

    // Sends a thing, if there is one. False where the link was full.
    fn send<R: Wait>(
        &mut self,
        rt: &R,
        lamport: u64,
        thing: Option<Made>,
    ) -> Result<bool, AllocError>
        requires { HasNumbers self.old }
        ensures sent { IfOk result
            (λ sent. MatchBool sent (SentThing lamport thing self.old self.new) (FoundFull self.old self.new)) }
        ensures err { OnErr result (SameOut self.old self.new × (self.new.link.fulls ≡ self.old.link.fulls)) }
    {
        match thing {
            None => Ok(true),
            Some(Made::Label(label)) => Ok(self.send_label(rt, lamport, label)),
            Some(Made::Payload { gear, payload }) => self.send_payload(rt, lamport, gear, payload),
            Some(Made::Beat(beat)) => Ok(self.send_beat(rt, lamport, beat)),
        }
    }

    // Sends what the next entry puts. False where there is none, or the link was full.
    fn flush_one<M: Machine, R: Wait>(
        &mut self,
        rt: &R,
        name: NodeName,
        journal: &[Kept<M::Input, M::Answer>],
        link: usize,
    ) -> Result<bool, AllocError>
        requires { Sends (M.meaning.puts name link) journal.now self.old }
        ensures sends { Sends (M.meaning.puts name link) journal.now self.new }
        ensures end { (self.new.place ≡ self.old.place) × (self.new.link.wire ≡ self.old.link.wire)
            × (self.new.link.acked ≡ self.old.link.acked) }
        ensures next { IfOk result
            (λ more. MatchBool more ((self.new.next ≡ self.old.next + 1) × (self.old.next < length journal.now)
            × (self.new.link.fulls ≡ self.old.link.fulls)) ((self.new.next ≡ self.old.next)
            × Stopped journal.now self.old self.new)) }
        ensures err { OnErr result ((self.new.next ≡ self.old.next) × (self.new.link.fulls ≡ self.old.link.fulls)) }
    {
        let Some(kept) = journal.get(self.next) else {
            return Ok(false);
        };
        let alloc = *self.payloads.allocator();
        let made = M::put(alloc, name, link, &kept.input, &kept.answer)?;
        let sent = self.send(rt, kept.lamport, made)?;
        if !sent {
            return Ok(false);
        }
        self.next += 1;
        Ok(true)
    }

    /// Sends what the journal puts here, until all was sent or the link was full.
    pub(crate) fn flush<M: Machine, R: Wait>(
        &mut self,
        rt: &R,
        name: NodeName,
        journal: &[Kept<M::Input, M::Answer>],
        link: usize,
    ) -> Result<(), AllocError>
        requires { Sends (M.meaning.puts name link) journal.now self.old }
        ensures sends { Sends (M.meaning.puts name link) journal.now self.new }
        ensures flushed { Flushed journal.now result self.old self.new }
    {
        'sending: while self.flush_one::<M, R>(rt, name, journal, link)? {}
        Ok(())
    }
}

// Counts, of 0 where there were none, up to this gear's.
#[tactic(auto, using(crate::proofs::Counts::zero_more))]
fn make_row(counts: &mut Vec<u64>, gear: u16) -> Result<(), AllocError>
    ensures same { (g : ℕ) → get_or counts.new.items g 0 ≡ get_or counts.old.items g 0 }
    ensures ok { OnOk result (gear < length counts.new.items) }
{
    while counts.len() <= usize::from(gear) {
        counts.push(0)?;
    }
    Ok(())
}

// One more of this gear.
fn raise(counts: &mut Vec<u64>, gear: u16)
    requires row { gear < length counts.old.items }
    requires less { get_or counts.old.items gear 0 + 1 < 2 ^ 64 }
    ensures { (g : ℕ) → get_or counts.new.items g 0 ≡ get_or counts.old.items g 0 + (if gear == g then 1 else 0) }
{
    let rows = counts.as_mut_slice();
    rows[usize::from(gear)] += 1;
}
