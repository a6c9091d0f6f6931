//! One message for a hub from another site.
ghost use Rattle.std.specs.Prelude.{◌≡◌, ◌<◌, true, false, [], ◌∷◌, length, IfErr, IfOk, MatchBool, MatchOption, None};
ghost use Rattle.std.specs.Prelude.{OnOk};
ghost use Rattle.sat_node.specs.declared.kept.Envelope.{Envelope as Sent};
ghost use Rattle.sat_node.specs.declared.kept.CallFault.TheVariants.{Memory};
ghost use Rattle.sat_node.specs.Links.{front_at};
ghost use Rattle.sat_machines.specs.Sites.{number_of};
ghost use Rattle.sat_parts.specs.HubSteps.{hub_takes};
ghost use Rattle.sat_passes.specs.Faults.{Fails};
ghost use Rattle.sat_parts_hearing.specs.Along.{FoundEmpty, HeardAt, IsEnd, IsMessage};
ghost use Rattle.sat_parts_hearing.specs.Hearings.{Heard, beat_from, input_from, is_heard, may_take, payload_from};

use crate::ends::Source;
use sat_machines::Laid;
use sat_node::{Body, CallFault, Held, Names};
use sat_parts::{HubAct, HubAnswer, HubInput, HubNode};
use sat_parts_passes::sound;
use std::alloc::AllocError;
use std::sync::Wait;

// A payload of this gear, as an input.
fn payload_from(from: u16, gear: u16, body: &Body) -> Result<Option<HubInput>, AllocError>
    ensures { IfOk result (λ given. given ≡ payload_from from gear body.now) }
{
    match body {
        Body::Label(_) => Ok(None),
        Body::Payload {
            gear: of,
            number,
            payload,
        } => {
            if *of != gear {
                return Ok(None);
            }
            let payload = payload.copy()?;
            Ok(Some(HubInput::Bulk {
                from,
                gear: *of,
                number: *number,
                payload,
            }))
        }
        Body::Beat { .. } => Ok(None),
    }
}

// A beat, as an input.
fn beat_from(from: u16, body: &Body) -> Result<Option<HubInput>, AllocError>
    ensures { IfOk result (λ given. given ≡ beat_from from body.now) }
{
    match body {
        Body::Label(_) => Ok(None),
        Body::Payload { .. } => Ok(None),
        Body::Beat { number, beat } => {
            let beat = beat.copy()?;
            Ok(Some(HubInput::BeatIn {
                from,
                number: *number,
                beat,
            }))
        }
    }
}

// What comes over a link, as an input.
fn input_from(source: Source, body: &Body) -> Result<Option<HubInput>, AllocError>
    ensures { IfOk result (λ given. given ≡ input_from source body.now) }
{
    match source {
        Source::Lane { from, gear } => payload_from(from, gear, body),
        Source::Beats { from } => beat_from(from, body),
    }
}

// Whether the hub may be handed what came.
fn may_take<N: Laid + Names>(held: &Held<HubNode<N>, N>, act: &HubAct<N>) -> bool
    requires heard { is_heard act.now.input ≡ true }
    ensures state { result ≡ may_take N.deployment held.now.node.name held.now.node.entries act.now.input }
    ensures machine { result ≡ hub_takes held.now.node.machine act.now.input }
{
    sound(held);
    held.fits(act)
}

// The front of a link, as an input of the source that it comes from.
fn act_from<N: Laid + Names>(
    held: &Held<HubNode<N>, N>,
    source: Source,
    link: usize,
) -> Result<Option<HubAct<N>>, CallFault>
    ensures act { IfOk result
        (λ o. MatchOption o (front_at held.now.ins link ≡ None)
        (λ act. (e : Sent) × IsMessage source held.now link e act)) }
    ensures fault { IfErr result (λ f. f ≡ Memory) }
{
    let Some(front) = held.front(link) else {
        return Ok(None);
    };
    let Ok(input) = input_from(source, &front.body) else {
        return Err(CallFault::Memory);
    };
    // No node puts anything else there. This branch is never run in a cluster.
    let Some(input) = input else {
        return Err(CallFault::Memory);
    };
    Ok(Some(HubAct::of_hub(input)))
}

// Takes the front of a link, which fits.
#[tactic(auto, using(crate::proofs::Hearing::heard_same))]
fn take_message<N: Laid + Names>(
    held: &mut Held<HubNode<N>, N>,
    source: Source,
    link: usize,
    act: HubAct<N>,
) -> Result<HubAnswer, CallFault>
    requires end { IsEnd N.deployment (number_of held.old.node.name) source link }
    requires message { (e : Sent) × IsMessage source held.old link e act }
    requires fits { may_take N.deployment held.old.node.name held.old.node.entries act.input ≡ true }
    requires machine { hub_takes held.old.node.machine act.input ≡ true }
    ensures heard { Heard held.old held.new }
    ensures outs { held.new.outs ≡ held.old.outs }
    ensures dealt { OnOk result ((e : Sent) × HeardAt N.deployment source link (e ∷ []) held.old held.new) }
    ensures fault { IfErr result (Fails held.new) }
{
    sound(held);
    let Ok(copy) = act.copy() else {
        return Err(CallFault::Memory);
    };
    held.handle(link, act, copy)
}

// Passes over the front of a link, which doesn't fit.
#[tactic(auto, using(crate::proofs::Hearing::pass_dealt))]
fn pass_message<N: Laid + Names>(
    held: &mut Held<HubNode<N>, N>,
    source: Source,
    link: usize,
    act: &HubAct<N>,
)
    requires link { link < length held.old.ins }
    requires message { (e : Sent) × IsMessage source held.old link e act.now }
    requires fits { may_take N.deployment held.old.node.name held.old.node.entries act.now.input ≡ false }
    ensures node { held.new.node ≡ held.old.node }
    ensures outs { held.new.outs ≡ held.old.outs }
    ensures dealt { (e : Sent) × HeardAt N.deployment source link (e ∷ []) held.old held.new }
{
    let _ = source;
    held.pass_over(link);
}

// Takes the front of a link, or passes over it.
#[tactic(auto, using(crate::proofs::Hearing::heard_same))]
fn deal<N: Laid + Names>(
    held: &mut Held<HubNode<N>, N>,
    source: Source,
    link: usize,
    act: HubAct<N>,
) -> Result<(), CallFault>
    requires link { link < length held.old.ins }
    requires end { IsEnd N.deployment (number_of held.old.node.name) source link }
    requires message { (e : Sent) × IsMessage source held.old link e act }
    ensures heard { Heard held.old held.new }
    ensures outs { held.new.outs ≡ held.old.outs }
    ensures dealt { OnOk result ((e : Sent) × HeardAt N.deployment source link (e ∷ []) held.old held.new) }
    ensures fault { IfErr result (Fails held.new) }
{
    if may_take(held, &act) {
        return match take_message(held, source, link, act) {
            Ok(_) => Ok(()),
            Err(fault) => Err(fault),
        };
    }
    pass_message(held, source, link, &act);
    Ok(())
}

/// Pulls the next message of a link, and takes it or passes over it. False where the link was empty.
#[tactic(auto, using(crate::proofs::Hearing::heard_same, crate::proofs::Hearing::heard_then, crate::proofs::Hearing::pull_empty))]
pub fn hear_front<N: Laid + Names, R: Wait>(
    rt: &R,
    held: &mut Held<HubNode<N>, N>,
    source: Source,
    link: usize,
) -> Result<bool, CallFault>
    requires link { link < length held.old.ins }
    requires end { IsEnd N.deployment (number_of held.old.node.name) source link }
    ensures heard { Heard held.old held.new }
    ensures outs { held.new.outs ≡ held.old.outs }
    ensures dealt { IfOk result
        (λ more. MatchBool more ((e : Sent) × HeardAt N.deployment source link (e ∷ []) held.old held.new)
        (FoundEmpty link held.old held.new)) }
    ensures fault { IfErr result (Fails held.new) }
{
    held.pull(rt, link);
    match act_from(held, source, link) {
        Ok(None) => Ok(false),
        Ok(Some(act)) => match deal(held, source, link, act) {
            Ok(()) => Ok(true),
            Err(fault) => Err(fault),
        },
        Err(fault) => Err(fault),
    }
}
