//! A hub shows, and the gears of the items that it shows take part: a turn by the tree, and one by timestamps.
ghost use Rattle.std.specs.Prelude.{◌≡◌, true, false, Some, None, IfErr, IfOk, OnErr, OnOk, option_copied};
ghost use Rattle.sat_node.specs.Links.{front_at};
ghost use Rattle.sat_node.specs.Together.{AllSame, SameHeld, TakesFrom, lent};
ghost use Rattle.sat_machines.specs.Layout.{label_link};
ghost use Rattle.sat_parts.specs.declared.gear_input.ShownBy.TheVariants as act;
ghost use Rattle.sat_parts.specs.declared.hub_input.HubInput.TheVariants as handed;
ghost use Rattle.sat_parts.specs.Acts.{is_hub_clients, is_shown_clients};
ghost use Rattle.sat_parts.specs.HubSteps.{hub_shows};
ghost use Rattle.sat_parts.specs.Hubs.{hub_meaning};
ghost use Rattle.sat_parts_passes.specs.Sendings.{of_hub, would_do};
ghost use Rattle.sat_parts_passes.specs.Shows.{FailsShown, IsShown, all_take, body_label, is_showing, label_of};
ghost use Rattle.sat_parts_passes.specs.Shows.{show_input, turn_of, would_show};

use crate::known::sound;
use crate::parts::{all_take, parts_of};
use crate::taking::take_some;
use sat_bulk::Payload;
use sat_label::Label;
use sat_machines::Laid;
use sat_node::{Body, CallFault, Held, Names, Part};
use sat_parts::{GearNode, HubAct, HubAnswer, HubInput, HubNode, ShownBy, part_inputs};
use std::alloc::AllocError;
use std::sync::MutexGuard;

// ---- what the hub would do

// Whether an update may be shown by its timestamp.
#[tactic(auto, using(crate::proofs::Shown::stamp_can))]
fn can_stamp<N: Laid + Names>(held: &Held<HubNode<N>, N>) -> bool
    ensures { result ≡ would_do held.now.node.machine handed.Stamp }
{
    held.node().machine().hub().can_stamp()
}

// Whether this front may be shown or taken.
#[tactic(auto, using(crate::proofs::Shown::turn_can))]
fn can_turn<N: Laid + Names>(held: &Held<HubNode<N>, N>, front: &Option<Label>) -> bool
    ensures { result ≡ would_do held.now.node.machine (handed.Turn front.now) }
{
    held.node().machine().hub().can_turn(front)
}

// A copy of a payload, if there is one.
fn copy_of(payload: Option<&Payload>) -> Result<Option<Payload>, AllocError>
    ensures { IfOk result (λ copy. copy ≡ option_copied payload.entry) }
{
    match payload {
        Some(payload) => Ok(Some(payload.copy()?)),
        None => Ok(None),
    }
}

// What a stamp shows.
fn stamping<N: Laid + Names>(held: &Held<HubNode<N>, N>) -> Result<Option<Payload>, AllocError>
    ensures { IfOk result (λ shown. shown ≡ hub_shows held.now.node.machine handed.Stamp) }
{
    copy_of(held.node().machine().hub().stamping())
}

// What a turn shows that would be done.
fn turning<N: Laid + Names>(
    held: &Held<HubNode<N>, N>,
    front: &Option<Label>,
) -> Result<Option<Payload>, AllocError>
    requires { would_do held.now.node.machine (handed.Turn front.now) ≡ true }
    ensures { IfOk result (λ shown. shown ≡ hub_shows held.now.node.machine (handed.Turn front.now)) }
{
    copy_of(held.node().machine().hub().showing(front))
}

// The label of a message, if it is one.
fn body_label(body: &Body) -> Option<Label>
    ensures { result ≡ body_label body.now }
{
    match body {
        Body::Label(label) => Some(*label),
        Body::Payload { .. } => None,
        Body::Beat { .. } => None,
    }
}

// The label in front of a link, if one is known to stand there.
fn front_label<N: Laid + Names>(held: &Held<HubNode<N>, N>, link: usize) -> Option<Label>
    ensures { result ≡ label_of (front_at held.now.ins link) }
{
    match held.front(link) {
        Some(front) => body_label(&front.body),
        None => None,
    }
}

// ---- the act

// One act of nodes that are lent together, which the hub would do, where the gears may be handed what it shows.
fn keep<N: Laid + Names>(
    hub: &mut Held<HubNode<N>, N>,
    gears: &mut Vec<MutexGuard<'_, Held<GearNode<N>, N>>>,
    link: Option<usize>,
    by: ShownBy,
    own: Part<HubInput>,
    shown: &Option<Payload>,
) -> Result<HubAnswer, CallFault>
    requires by { is_shown_clients by ≡ false }
    requires copy { own.copy ≡ own.input }
    requires showing { is_showing own.input ≡ true }
    requires shown { shown.now ≡ hub_shows hub.old.node.machine own.input }
    requires would { would_do hub.old.node.machine own.input ≡ true }
    requires from { TakesFrom (hub_meaning N.deployment) hub.old link (of_hub own.input) }
    requires take { all_take (show_input by shown.now) (lent gears.old.items) ≡ true }
    ensures done { OnOk result (IsShown N.deployment link by own.input hub.old (lent gears.old.items) hub.new
        (lent gears.new.items)) }
    ensures err { OnErr result (SameHeld hub.old hub.new × AllSame (lent gears.old.items) (lent gears.new.items)) }
    ensures fault { IfErr result (FailsShown link hub.old (lent gears.old.items)) }
{
    // These bring what is known into the proof; they do nothing when they run.
    sound(hub);
    part_inputs();
    let alloc = *gears.allocator();
    let Ok(parts) = parts_of(alloc, gears.as_slice(), by, shown) else {
        return Err(CallFault::Memory);
    };
    let Part { input, copy } = own;
    let own = Part {
        input: HubAct::of_hub(input),
        copy: HubAct::of_hub(copy),
    };
    take_some(hub, gears, 0, link, own, parts)
}

// The same, where it is not known that the gears may be handed it: false where they may not, and then nothing changes.
fn show_all<N: Laid + Names>(
    hub: &mut Held<HubNode<N>, N>,
    gears: &mut Vec<MutexGuard<'_, Held<GearNode<N>, N>>>,
    link: Option<usize>,
    by: ShownBy,
    own: Part<HubInput>,
    shown: &Option<Payload>,
) -> Result<bool, CallFault>
    requires by { is_shown_clients by ≡ false }
    requires copy { own.copy ≡ own.input }
    requires showing { is_showing own.input ≡ true }
    requires shown { shown.now ≡ hub_shows hub.old.node.machine own.input }
    requires would { would_do hub.old.node.machine own.input ≡ true }
    requires from { TakesFrom (hub_meaning N.deployment) hub.old link (of_hub own.input) }
    ensures fits { IfOk result (λ done. done
        ≡ all_take (show_input by (hub_shows hub.old.node.machine own.input)) (lent gears.old.items)) }
    ensures done { IfOk result (λ done. done ≡ true
        → IsShown N.deployment link by own.input hub.old (lent gears.old.items) hub.new (lent gears.new.items)) }
    ensures same { IfOk result (λ done. done ≡ false
        → (hub.new ≡ hub.old) × (lent gears.new.items ≡ lent gears.old.items)) }
    ensures err { OnErr result (SameHeld hub.old hub.new × AllSame (lent gears.old.items) (lent gears.new.items)) }
    ensures fault { IfErr result (FailsShown link hub.old (lent gears.old.items)) }
{
    let Ok(all) = all_take(gears.as_slice(), by, shown) else {
        return Err(CallFault::Memory);
    };
    if !all {
        return Ok(false);
    }
    if let Err(fault) = keep(hub, gears, link, by, own, shown) {
        return Err(fault);
    }
    Ok(true)
}

/// A turn by timestamps of a hub and of the gears that are lent with it: the hub shows the next update in timestamp
/// order, and each of these gears that has one of its items which the site keeps shows it, all under one number; or
/// nothing is kept anywhere. The other gears keep nothing. False where the hub would not show one, or one of these
/// gears may not be handed what it shows, which is never so of the gears of its site; then nothing changes. `Worn`,
/// with the greatest u64, only where that is the number of one of the nodes; `Memory`. After an error all are as
/// before, but for room.
#[tactic(auto, using(sat_node::proofs::Together::same_self, sat_node::proofs::Lent::all_same))]
pub fn stamp<N: Laid + Names>(
    hub: &mut Held<HubNode<N>, N>,
    gears: &mut Vec<MutexGuard<'_, Held<GearNode<N>, N>>>,
) -> Result<bool, CallFault>
    ensures fits { IfOk result (λ done. done
        ≡ would_show act.Stamp handed.Stamp hub.old.node.machine (lent gears.old.items)) }
    ensures done { IfOk result (λ done. done ≡ true → IsShown N.deployment None act.Stamp handed.Stamp hub.old
        (lent gears.old.items) hub.new (lent gears.new.items)) }
    ensures same { IfOk result (λ done. done ≡ false
        → (hub.new ≡ hub.old) × (lent gears.new.items ≡ lent gears.old.items)) }
    ensures err { OnErr result (SameHeld hub.old hub.new × AllSame (lent gears.old.items) (lent gears.new.items)) }
    ensures fault { IfErr result (FailsShown None hub.old (lent gears.old.items)) }
{
    if !can_stamp(hub) {
        return Ok(false);
    }
    // This brings what is known into the proof; it does nothing when it runs.
    sound(hub);
    let Ok(shown) = stamping(hub) else {
        return Err(CallFault::Memory);
    };
    let own = Part {
        input: HubInput::Stamp,
        copy: HubInput::Stamp,
    };
    show_all(hub, gears, None, ShownBy::Stamp, own, &shown)
}

/// A turn by the tree of a hub and of the gears that are lent with it: the hub takes the label in front of the link of
/// its view's tree. Where that is an update, it shows it, and each of these gears that has one of its items which the
/// site keeps shows it, all under one number; or nothing is kept anywhere. The other gears keep nothing, nor does any
/// gear where the label is no update. The number is above the front's. False where no label is known to stand there, or
/// the hub would not take it now, or one of these gears may not be handed what it shows, which is never so of the gears
/// of its site; then nothing changes. `Worn`, with the greatest u64, only where that is the front's number or that of
/// one of the nodes; `Memory`. After an error all are as before, but for room.
#[tactic(auto, using(sat_node::proofs::Together::same_self, sat_node::proofs::Lent::all_same))]
pub fn turn<N: Laid + Names>(
    hub: &mut Held<HubNode<N>, N>,
    gears: &mut Vec<MutexGuard<'_, Held<GearNode<N>, N>>>,
    link: usize,
) -> Result<bool, CallFault>
    requires link { link ≡ label_link N.deployment hub.old.node.machine.views.view }
    ensures fits { IfOk result (λ done. done
        ≡ would_show act.Turn (turn_of hub.old link) hub.old.node.machine (lent gears.old.items)) }
    ensures done { IfOk result (λ done. done ≡ true → IsShown N.deployment (Some link) act.Turn (turn_of hub.old link)
        hub.old (lent gears.old.items) hub.new (lent gears.new.items)) }
    ensures same { IfOk result (λ done. done ≡ false
        → (hub.new ≡ hub.old) × (lent gears.new.items ≡ lent gears.old.items)) }
    ensures err { OnErr result (SameHeld hub.old hub.new × AllSame (lent gears.old.items) (lent gears.new.items)) }
    ensures fault { IfErr result (FailsShown (Some link) hub.old (lent gears.old.items)) }
{
    let front = front_label(hub, link);
    if !can_turn(hub, &front) {
        return Ok(false);
    }
    // This brings what is known into the proof; it does nothing when it runs.
    sound(hub);
    let Ok(shown) = turning(hub, &front) else {
        return Err(CallFault::Memory);
    };
    let own = Part {
        input: HubInput::Turn { front },
        copy: HubInput::Turn { front },
    };
    show_all(hub, gears, Some(link), ShownBy::Turn, own, &shown)
}
