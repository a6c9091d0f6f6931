//! What a journal puts on a link, message by message.
ghost use Rattle.std.specs.Prelude.{◌≡◌, ◌+◌, ◌^◌, ◌<◌, ◌≤◌, ◌==◌, ℕ, [], length, get_or, IfOk, OnErr, OnOk, None};
ghost use Rattle.std.specs.Prelude.{MatchBool, if◌then◌else◌};
ghost use Rattle.sat_node.specs.declared.kept.Made.TheVariants as made;
ghost use Rattle.sat_message.specs.Numbering.{CountsOne, CountsThing, Gives, HasNumbers, IsAt, Passes, SameCounts};
ghost use Rattle.sat_message.specs.Numbering.{next_message, put_before};

use crate::message::Message;
use sat_beat::Beat;
use sat_bulk::Payload;
use sat_label::{Label, NodeName};
use sat_node::{Body, Envelope, Kept, Machine, Made};
use std::alloc::{AllocError, Global};
use std::marker::Model;

/// How far a sender went through its node's journal for one outgoing link: how many entries, and how many labels,
/// payloads of each gear and beats these put there, which are the numbers of the next ones. It holds no entry, so it
/// may be dropped and begun anew.
#[derive(Drop)]
pub struct Cursor {
    next: usize,
    labels: u64,
    payloads: Vec<u64>,
    beats: u64,
}

impl Model for Cursor {
    ghost use Rattle.sat_message.specs.Numbering.{CursorSeen};

    ghost Value = { CursorSeen };

    ghost view = { λ c. record { next = c.next; labels = c.labels; payloads = c.payloads.items; beats = c.beats } };
}

impl Cursor {
    /// A cursor in front of all entries.
    pub fn start(alloc: Global) -> Cursor
        ensures { result ≡ record { next = 0; labels = 0; payloads = []; beats = 0 } }
    {
        Cursor {
            next: 0,
            labels: 0,
            payloads: Vec::new(alloc),
            beats: 0,
        }
    }

    /// How many entries it went through.
    pub fn next(&self) -> usize
        ensures { result ≡ self.now.next }
    {
        self.next
    }

    /// Goes back to the front of all entries, to give all messages once more.
    pub fn rewind(&mut self)
        ensures { self.new ≡ record { next = 0; labels = 0; payloads = []; beats = 0 } }
    {
        self.next = 0;
        self.labels = 0;
        self.payloads.clear();
        self.beats = 0;
    }

    // A label as a message, which is counted.
    fn label(&mut self, lamport: u64, label: Label) -> Message
        requires { self.old.labels + 1 < 2 ^ 64 }
        ensures message { result ≡ next_message self.old lamport (made.Label label) }
        ensures counts { CountsOne (made.Label label) self.old self.new }
    {
        let number = self.labels;
        self.labels += 1;
        let body = Body::Label(label);
        Message {
            number,
            sent: Envelope { lamport, body },
        }
    }

    // A beat under the next number.
    fn beat(&mut self, lamport: u64, beat: Beat) -> Message
        requires { self.old.beats + 1 < 2 ^ 64 }
        ensures message { result ≡ next_message self.old lamport (made.Beat beat) }
        ensures counts { CountsOne (made.Beat beat) self.old self.new }
    {
        let number = self.beats;
        self.beats += 1;
        let body = Body::Beat { number, beat };
        Message {
            number: self.labels,
            sent: Envelope { lamport, body },
        }
    }

    // A payload under the next number of its gear.
    fn payload(&mut self, lamport: u64, gear: u16, payload: Payload) -> Result<Message, AllocError>
        requires { get_or self.old.payloads gear 0 + 1 < 2 ^ 64 }
        ensures message { IfOk result (λ m. m ≡ next_message self.old lamport (made.Payload gear payload)) }
        ensures counts { OnOk result (CountsOne (made.Payload gear payload) self.old self.new) }
        ensures err { OnErr result (SameCounts self.old self.new) }
    {
        make_row(&mut self.payloads, gear)?;
        let number = self.payloads.as_slice()[usize::from(gear)];
        raise(&mut self.payloads, gear);
        let body = Body::Payload {
            gear,
            number,
            payload,
        };
        Ok(Message {
            number: self.labels,
            sent: Envelope { lamport, body },
        })
    }

    // A thing as a message, which is counted.
    fn message(&mut self, lamport: u64, made: Made) -> Result<Message, AllocError>
        requires { HasNumbers self.old }
        ensures message { IfOk result (λ m. m ≡ next_message self.old lamport made) }
        ensures counts { OnOk result (CountsOne made self.old self.new) }
        ensures err { OnErr result (SameCounts self.old self.new) }
    {
        match made {
            Made::Label(label) => Ok(self.label(lamport, label)),
            Made::Payload { gear, payload } => self.payload(lamport, gear, payload),
            Made::Beat(beat) => Ok(self.beat(lamport, beat)),
        }
    }

    // A thing, if there is one.
    fn thing(&mut self, lamport: u64, made: Option<Made>) -> Result<Option<Message>, AllocError>
        requires { HasNumbers self.old }
        ensures thing { IfOk result (λ found. CountsThing lamport made found self.old self.new) }
        ensures err { OnErr result (SameCounts self.old self.new) }
    {
        match made {
            None => Ok(None),
            Some(made) => {
                let message = self.message(lamport, made)?;
                Ok(Some(message))
            }
        }
    }

    // Goes past the next entry. True where there is one, and it puts nothing; else what it puts is found.
    fn look<M: Machine>(
        &mut self,
        name: NodeName,
        journal: &[Kept<M::Input, M::Answer>],
        link: usize,
        found: &mut Option<Message>,
    ) -> Result<bool, AllocError>
        requires at { IsAt (M.meaning.puts name link) journal.now self.old }
        requires none { found.old ≡ None }
        ensures at { IsAt (M.meaning.puts name link) journal.now self.new }
        ensures looked { IfOk result
            (λ more. MatchBool more (Passes (M.meaning.puts name link) journal.now self.old.next self.new.next
            found.new) (Gives (M.meaning.puts name link) journal.now self.old.next self.new.next found.new)) }
        ensures next { self.old.next ≤ self.new.next }
        ensures err { OnErr result (self.new.next ≡ self.old.next) }
    {
        let Some(kept) = journal.get(self.next) else {
            return Ok(false);
        };
        let alloc = *self.payloads.allocator();
        let made = M::put(alloc, name, link, &kept.input, &kept.answer)?;
        let thing = self.thing(kept.lamport, made)?;
        self.next += 1;
        let Some(message) = thing else {
            return Ok(true);
        };
        *found = Some(message);
        Ok(false)
    }

    /// What the journal puts next on the link of this number, as a message; `None` where it puts nothing more. Messages
    /// come in the order of the entries, each once. It asks that the cursor is one of this link of this journal, which
    /// stays so while the journal grows. `AllocError` where there is no memory for a copy: no message was passed by
    /// then, so ask again.
    #[tactic(auto, using(crate::proofs::Numbering::gives_from))]
    pub fn next_message<M: Machine>(
        &mut self,
        name: NodeName,
        journal: &[Kept<M::Input, M::Answer>],
        link: usize,
    ) -> Result<Option<Message>, AllocError>
        requires at { IsAt (M.meaning.puts name link) journal.now self.old }
        ensures at { IsAt (M.meaning.puts name link) journal.now self.new }
        ensures gives { IfOk result (Gives (M.meaning.puts name link) journal.now self.old.next self.new.next) }
        ensures next { self.old.next ≤ self.new.next }
        ensures err { OnErr result (put_before (M.meaning.puts name link) journal.now self.new.next
            ≡ put_before (M.meaning.puts name link) journal.now self.old.next) }
    {
        let mut found = None;
        'looking: while self.look::<M>(name, journal, link, &mut found)? {}
        Ok(found)
    }
}

// Counts, of 0 where there were none, up to this gear's.
#[tactic(auto, using(sat_node::proofs::Counts::zero_more))]
fn make_row(counts: &mut Vec<u64>, gear: u16) -> Result<(), AllocError>
    ensures same { (g : ℕ) → get_or counts.new.items g 0 ≡ get_or counts.old.items g 0 }
    ensures ok { OnOk result (gear < length counts.new.items) }
{
    while counts.len() <= usize::from(gear) {
        counts.push(0)?;
    }
    Ok(())
}

// One more of this gear.
fn raise(counts: &mut Vec<u64>, gear: u16)
    requires row { gear < length counts.old.items }
    requires less { get_or counts.old.items gear 0 + 1 < 2 ^ 64 }
    ensures { (g : ℕ) → get_or counts.new.items g 0 ≡ get_or counts.old.items g 0 + (if gear == g then 1 else 0) }
{
    let rows = counts.as_mut_slice();
    rows[usize::from(gear)] += 1;
}
