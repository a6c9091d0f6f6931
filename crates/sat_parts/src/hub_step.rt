//! What a hub does with what it is handed.
ghost use Rattle.std.specs.Prelude.{◌≡◌, ◌^◌, ◌&&◌, nat_lt, length, true, option_copied, Some, IfOk, OnOk, OnErr};
ghost use Rattle.std.specs.List.{list_all};
ghost use Rattle.sat_label.specs.declared.label.Label.{Label as LabelSeen};
ghost use Rattle.sat_hub.specs.Changes.{stamped, turned};
ghost use Rattle.sat_hub.specs.Inputs.{is_beat_here, is_bulk_here, is_counted, is_other_here, IsFront};
ghost use Rattle.sat_proxy.specs.Answers.{stamp_answer, turn_answer};
ghost use Rattle.sat_parts.specs.HubSteps.{hub_after, hub_answers, hub_beat, hub_epoch, hub_sends, hub_shows};
ghost use Rattle.sat_parts.specs.HubSteps.{hub_takes, is_promise, may_gather, IsGiven};

use crate::hub_input::HubInput;
use sat_act::{Answer, Refusal};
use sat_beat::Beat;
use sat_bulk::{Drained, Payload};
use sat_hub::{Hub, is_carried, is_other};
use sat_label::{Label, TS_END};
use sat_proxy::{StampFault, TurnFault, Turned};
use std::alloc::AllocError;

// Whether each promise is a timestamp.
fn are_promises(drained: &[Drained]) -> bool
    ensures { result ≡ list_all is_promise drained.now }
{
    drained.iter().all(|given| given.promise <= TS_END)
}

// Whether the gears of the site may give these.
fn gathers(hub: &Hub, drained: &[Drained]) -> bool
    ensures { result ≡ may_gather hub.now drained.now }
{
    let _ = hub.shape();
    if !hub.may_gather(drained) {
        return false;
    }
    are_promises(drained)
}

// Whether a number has 63 bits.
fn is_small(number: u64) -> bool
    ensures { result ≡ nat_lt number (2 ^ 63) }
{
    number < (1 << 63)
}

// Whether a payload is one that fits, under a number of 63 bits.
fn is_bulk(hub: &Hub, from: u16, gear: u16, number: u64, payload: &Payload) -> bool
    ensures { result
        ≡ (is_bulk_here hub.now.shape hub.now.proxy from gear number payload.now && nat_lt number (2 ^ 63)) }
{
    hub.is_bulk(from, gear, number, payload) && is_small(number)
}

// Whether a beat is one that fits, under a number of 63 bits.
fn is_beat_in(hub: &Hub, from: u16, number: u64, beat: &Beat) -> bool
    ensures { result
        ≡ ((is_other_here hub.now.shape from && is_beat_here hub.now.shape (length hub.now.views.stamp) beat.now)
        && (nat_lt number (2 ^ 63) && is_counted hub.now beat.now)) }
{
    hub.is_beat(from, beat) && (is_small(number) && hub.is_counted(beat))
}

/// Whether a hub may be handed an input. It takes no memory.
pub fn takes(hub: &Hub, input: &HubInput) -> bool
    ensures { result ≡ hub_takes hub.now input.now }
{
    let shape = hub.shape();
    match input {
        HubInput::Attach { carried } => is_carried(shape, carried),
        HubInput::Gather { drained } => gathers(hub, drained.as_slice()),
        HubInput::Emit => true,
        HubInput::Pulse => true,
        HubInput::Turn { front } => match front {
            None => true,
            Some(label) => hub.is_front(label),
        },
        HubInput::Bulk {
            from,
            gear,
            number,
            payload,
        } => is_bulk(hub, *from, *gear, *number, payload),
        HubInput::Beat { to } => is_other(shape, *to),
        HubInput::BeatIn { from, number, beat } => is_beat_in(hub, *from, *number, beat),
        HubInput::Stamp => true,
        HubInput::Close => true,
        HubInput::Fall => true,
        HubInput::Advance => true,
    }
}

/// The label that a step would send. It takes no memory.
pub fn sends(hub: &Hub, input: &HubInput) -> Option<Label>
    ensures { result ≡ hub_sends hub.now input.now }
{
    match input {
        HubInput::Emit => hub.sends_ready(),
        HubInput::Pulse => hub.sends_pulse(),
        HubInput::Close => hub.sends_close(),
        _ => None,
    }
}

/// The epoch of what is sent, or of what a turn takes.
pub fn epoch_of(hub: &Hub, input: &HubInput, sent: &Option<Label>) -> u16
    requires { sent.now ≡ hub_sends hub.now input.now }
    ensures { result ≡ hub_epoch hub.now input.now }
{
    match input {
        HubInput::Turn { .. } => hub.view(),
        _ => match sent {
            None => 0,
            Some(_) => hub.emission(),
        },
    }
}

/// The beat that a step would make.
pub fn beat_of(hub: &Hub, input: &HubInput) -> Result<Option<Beat>, AllocError>
    requires { hub_takes hub.now input.now ≡ true }
    ensures { IfOk result (λ beat. beat ≡ hub_beat hub.now input.now) }
{
    match input {
        HubInput::Beat { to } => Ok(Some(hub.beat(*to)?)),
        _ => Ok(None),
    }
}

// A copy of a payload, if there is one.
fn copy_of(payload: Option<&Payload>) -> Result<Option<Payload>, AllocError>
    ensures { IfOk result (λ copy. copy ≡ option_copied payload.entry) }
{
    match payload {
        Some(payload) => Ok(Some(payload.copy()?)),
        None => Ok(None),
    }
}

/// The payload that a step would give to the gears of its items.
pub fn show_of(hub: &Hub, input: &HubInput) -> Result<Option<Payload>, AllocError>
    requires { hub_takes hub.now input.now ≡ true }
    ensures { IfOk result (λ show. show ≡ hub_shows hub.now input.now) }
{
    match input {
        HubInput::Turn { front } => copy_of(hub.showing(front)),
        HubInput::Stamp => copy_of(hub.stamping()),
        _ => Ok(None),
    }
}

// Takes the front of the link to the site, and answers it.
fn turn(hub: &mut Hub, front: Option<Label>) -> Answer
    requires { (l : LabelSeen) → front ≡ Some l → IsFront hub.old l }
    ensures answer { result ≡ turn_answer hub.old.views hub.old.proxy front }
    ensures after { hub.new ≡ turned hub.old front }
{
    match hub.turn(front) {
        Ok(Turned::Show(payload)) => Answer::Shown(payload.label()),
        Ok(Turned::Took(label)) => Answer::Took(label),
        Err(TurnFault::StampOrder) => Answer::Refused(Refusal::StampOrder),
        Err(TurnFault::Empty) => Answer::Refused(Refusal::Empty),
        Err(TurnFault::NoPayload(label)) => Answer::Refused(Refusal::NoPayload(label)),
    }
}

// Takes the next update in timestamp order, and answers it.
fn stamp(hub: &mut Hub) -> Answer
    ensures answer { result ≡ stamp_answer hub.old.views hub.old.proxy }
    ensures after { hub.new ≡ stamped hub.old }
{
    match hub.stamp() {
        Ok(payload) => Answer::Shown(payload.label()),
        Err(StampFault::TreeOrder) => Answer::Refused(Refusal::TreeOrder),
        Err(StampFault::NotYet) => Answer::Refused(Refusal::NotYet),
    }
}

/// Does one act, and answers it. For want of memory the hub is as before.
pub fn act(hub: &mut Hub, input: HubInput) -> Result<Answer, AllocError>
    requires { hub_takes hub.old input ≡ true }
    ensures answer { IfOk result (λ answer. answer ≡ hub_answers hub.old input) }
    ensures after { OnOk result (hub.new ≡ hub_after hub.old input) }
    ensures err { OnErr result (hub.new ≡ hub.old) }
{
    let _ = hub.shape();
    match input {
        HubInput::Attach { carried } => Ok(hub.attach(&carried)),
        HubInput::Gather { drained } => hub.gather(drained.as_slice()),
        HubInput::Emit => Ok(hub.emit()),
        HubInput::Pulse => Ok(hub.pulse()),
        HubInput::Turn { front } => Ok(turn(hub, front)),
        HubInput::Bulk {
            from,
            gear,
            number,
            payload,
        } => hub.bulk(from, gear, number, payload),
        HubInput::Beat { to } => hub.make_beat(to),
        HubInput::BeatIn { from, number, beat } => hub.beat_in(from, number, beat),
        HubInput::Stamp => Ok(stamp(hub)),
        HubInput::Close => Ok(hub.close()),
        HubInput::Fall => Ok(hub.fall()),
        HubInput::Advance => Ok(hub.advance()),
    }
}

/// A beat and a payload, each with a copy.
#[derive(Drop)]
pub struct Given {
    pub beat: Option<Beat>,
    pub beat_again: Option<Beat>,
    pub show: Option<Payload>,
    pub show_again: Option<Payload>,
}

/// What a step would make and give, with copies.
pub fn gives(hub: &Hub, input: &HubInput) -> Result<Given, AllocError>
    requires { hub_takes hub.now input.now ≡ true }
    ensures { IfOk result (λ g. IsGiven hub.now input.now g) }
{
    let beat = beat_of(hub, input)?;
    let beat_again = beat_of(hub, input)?;
    let show = show_of(hub, input)?;
    let show_again = show_of(hub, input)?;
    Ok(Given {
        beat,
        beat_again,
        show,
        show_again,
    })
}
