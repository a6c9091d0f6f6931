//! A hub and the gears of the items that it shows do what is next.
ghost use Rattle.std.specs.Prelude.{◌≡◌, ◌++◌, true, false, List, IfErr, IfOk, OnErr, OnOk};
ghost use Rattle.sat_node.specs.Together.{AllSame, SameHeld, lent};
ghost use Rattle.sat_passes.specs.Sendings.{FailsAlone};
ghost use Rattle.sat_parts.specs.declared.hub_input.HubInput.TheVariants as handed;
ghost use Rattle.sat_parts_passes.specs.Sendings.{HubKept, would_do};
ghost use Rattle.sat_parts_pump.specs.Lent.{are_lent};
ghost use Rattle.sat_parts_pump.specs.Next.{next_of};
ghost use Rattle.sat_parts_pump.specs.Shows.{FailsNext, HasShown, IsAdvanced, may_show, would_next};

use crate::coming::{Next, look, view_link};
use crate::lending::{Lent, are_lent};
use crate::watched::Watched;
use sat_act::Deployment;
use sat_machines::Laid;
use sat_node::{CallFault, Held, Names};
use sat_parts::{GearNode, HubAct, HubAnswer, HubInput, HubNode};
use sat_parts_passes::{sound, stamp, turn};
use std::sync::MutexGuard;

// Goes on to the next epoch, which the hub would do.
fn advance<N: Laid + Names>(held: &mut Held<HubNode<N>, N>) -> Result<HubAnswer, CallFault>
    requires would { would_do held.old.node.machine handed.Advance ≡ true }
    ensures done { OnOk result (IsAdvanced N.deployment held.old held.new) }
    ensures err { OnErr result (SameHeld held.old held.new) }
    ensures fault { IfErr result (FailsAlone held.old) }
{
    sound(held);
    let input = HubAct::of_hub(HubInput::Advance);
    let copy = HubAct::of_hub(HubInput::Advance);
    held.act(0, input, copy)
}

// Whether these are the gears that the hub's act needs.
fn are_its<N: Laid + Names>(
    hub: &Held<HubNode<N>, N>,
    gears: &[MutexGuard<'_, Held<GearNode<N>, N>>],
    needed: &Lent,
) -> bool
    ensures { result ≡ are_lent hub.now.node.machine.shape needed.now (lent gears.now) }
{
    let shape = hub.node().machine().hub().shape();
    are_lent(gears, shape, needed)
}

// Does what is next, with the gears that it needs.
#[tactic(auto, using(sat_node::proofs::Lent::all_same, crate::proofs::Shown::advance_fits, crate::proofs::Shown::advance_shown, crate::proofs::Shown::advance_fails, crate::proofs::Shown::nothing_fits))]
fn show_next<N: Laid + Names>(
    hub: &mut Held<HubNode<N>, N>,
    gears: &mut Vec<MutexGuard<'_, Held<GearNode<N>, N>>>,
    d: &Deployment,
    next: &Next,
) -> Result<bool, CallFault>
    requires deployment { N.deployment ≡ d.now }
    requires next { next.now ≡ next_of N.deployment hub.old }
    ensures fits { IfOk result (λ done. done ≡ would_next N.deployment next.now hub.old (lent gears.old.items)) }
    ensures done { IfOk result (λ done. done ≡ true → HasShown N.deployment next.now hub.old (lent gears.old.items)
        hub.new (lent gears.new.items)) }
    ensures same { IfOk result (λ done. done ≡ false
        → (hub.new ≡ hub.old) × (lent gears.new.items ≡ lent gears.old.items)) }
    ensures err { OnErr result (SameHeld hub.old hub.new × AllSame (lent gears.old.items) (lent gears.new.items)) }
    ensures fault { IfErr result (FailsNext N.deployment next.now hub.old (lent gears.old.items)) }
{
    match next {
        Next::Nothing => Ok(false),
        Next::Turn { .. } => {
            let link = view_link(&*hub, d);
            turn(hub, gears, link)
        }
        Next::Stamp { .. } => stamp(hub, gears),
        Next::Advance => {
            if let Err(fault) = advance(hub) {
                return Err(fault);
            }
            Ok(true)
        }
    }
}

// The same of a hub's node alone.
#[tactic(auto, using(crate::proofs::Shown::may_is, crate::proofs::Shown::may_not, crate::proofs::Shown::shown_as, crate::proofs::Shown::fails_as, crate::proofs::Gathered::more_as))]
fn show_held<N: Laid + Names>(
    hub: &mut Held<HubNode<N>, N>,
    gears: &mut Vec<MutexGuard<'_, Held<GearNode<N>, N>>>,
    d: &Deployment,
) -> Result<bool, CallFault>
    requires { N.deployment ≡ d.now }
    ensures fits { IfOk result (λ done. done ≡ may_show N.deployment hub.old (lent gears.old.items)) }
    ensures done { IfOk result (λ done. done ≡ true → HasShown N.deployment (next_of N.deployment hub.old) hub.old
        (lent gears.old.items) hub.new (lent gears.new.items)) }
    ensures same { IfOk result (λ done. done ≡ false
        → (hub.new ≡ hub.old) × (lent gears.new.items ≡ lent gears.old.items)) }
    ensures err { OnErr result (SameHeld hub.old hub.new × AllSame (lent gears.old.items) (lent gears.new.items)) }
    ensures fault { IfErr result
        (FailsNext N.deployment (next_of N.deployment hub.old) hub.old (lent gears.old.items)) }
    ensures more { (more : List HubKept) × (hub.new.node.entries ≡ hub.old.node.entries ++ more) }
{
    let next = look(&*hub, d);
    if !are_its(&*hub, gears.as_slice(), &next.needs()) {
        return Ok(false);
    }
    show_next(hub, gears, d, &next)
}

/// Does what a hub does next, as `pull_next` answered it, with the gears that this needs, which are lent with the hub
/// in the order of their numbers: where it shows an update, the hub and each of these keep an entry, under one number,
/// or none does; else the hub keeps one alone. False where nothing is next, or these are not the gears that it needs,
/// or one of them may not be handed what the hub shows, which is never so of those; then nothing changes. `Worn`, with
/// the greatest u64, only where that is the number of the front that the hub takes or of one of the nodes; `Memory`.
/// After an error all are as before, but for room.
pub fn show<N: Laid + Names>(
    watched: &mut Watched<N>,
    gears: &mut Vec<MutexGuard<'_, Held<GearNode<N>, N>>>,
    d: &Deployment,
) -> Result<bool, CallFault>
    requires { N.deployment ≡ d.now }
    ensures fits { IfOk result (λ done. done ≡ may_show N.deployment watched.old (lent gears.old.items)) }
    ensures done { IfOk result (λ done. done ≡ true → HasShown N.deployment (next_of N.deployment watched.old)
        watched.old (lent gears.old.items) watched.new (lent gears.new.items)) }
    ensures same { IfOk result (λ done. done ≡ false
        → (watched.new ≡ watched.old) × (lent gears.new.items ≡ lent gears.old.items)) }
    ensures err { OnErr result
        (SameHeld watched.old watched.new × AllSame (lent gears.old.items) (lent gears.new.items)) }
    ensures fault { IfErr result
        (FailsNext N.deployment (next_of N.deployment watched.old) watched.old (lent gears.old.items)) }
{
    let held = &mut watched.held;
    show_held(held, gears, d)
}
