//! What a hub would show or take next.
ghost use Rattle.std.specs.Prelude.{◌≡◌, ◌+◌, ◌^◌, ◌<◌, true, length, get_or, is_some, option_copied};
ghost use Rattle.sat_epoch.specs.Epochs.{in_stamp};
ghost use Rattle.sat_node.specs.Links.{front_at};
ghost use Rattle.sat_machines.specs.Layout.{label_link, label_links};
ghost use Rattle.sat_parts.specs.declared.hub_input.HubInput.TheVariants as handed;
ghost use Rattle.sat_parts.specs.HubSteps.{hub_shows};
ghost use Rattle.sat_parts_passes.specs.Sendings.{would_do};
ghost use Rattle.sat_parts_pump.specs.Next.{IsPulled, label_at, label_with, lent_by, lent_for, next_alone, next_by};
ghost use Rattle.sat_parts_pump.specs.Next.{next_of};

use crate::lending::Lent;
use crate::watched::Watched;
use sat_act::{Deployment, Plan};
use sat_bulk::Payload;
use sat_label::{Kind, Label};
use sat_machines::Laid;
use sat_node::{Body, Held, Names};
use sat_parts::HubNode;
use std::sync::Wait;

/// What a hub does next, as far as it shows and takes.
#[derive(Clone, Copy, Debug)]
pub enum Next {
    /// Nothing: it can neither show nor take anything now.
    Nothing,
    /// It takes the label in front of the link of its view's tree. Where that is an update, it shows it.
    Turn { lent: Lent },
    /// It shows the next update in timestamp order.
    Stamp { lent: Lent },
    /// It goes on to the next epoch.
    Advance,
}

impl Next {
    /// Which gears this needs.
    pub fn needs(&self) -> Lent
        ensures { result ≡ lent_for self.now }
    {
        match self {
            Next::Nothing => Lent::Alone,
            Next::Turn { lent } => *lent,
            Next::Stamp { lent } => *lent,
            Next::Advance => Lent::Alone,
        }
    }
}

// ---- the link of the view's tree

// At a hub, the number of the end for the tree of the plan at this place, from the end of this number on.
fn link_from(next: usize, plans: &[Plan], place: usize) -> usize
    requires { next + length plans.now < 2 ^ 64 }
    ensures { result ≡ get_or (label_links next plans.now) place 0 }
{
    let Some((plan, rest)) = plans.split_first() else {
        return 0;
    };
    if place == 0 {
        return next;
    }
    match plan {
        Plan::Stamp => link_from(next, rest, place - 1),
        Plan::Tree(_) => link_from(next + 1, rest, place - 1),
    }
}

/// At a hub, the number of the end for the tree of an epoch.
pub(crate) fn link_of(d: &Deployment, epoch: u16) -> usize
    ensures { result ≡ label_link d.now epoch }
{
    let others = d.sites().saturating_sub(1);
    let place = epoch.saturating_sub(1);
    link_from(usize::from(others), d.plans(), usize::from(place))
}

/// At a hub, the number of the end for the tree of its view.
pub(crate) fn view_link<N: Laid + Names>(held: &Held<HubNode<N>, N>, d: &Deployment) -> usize
    requires { N.deployment ≡ d.now }
    ensures { result ≡ label_link N.deployment held.now.node.machine.views.view }
{
    link_of(d, held.node().machine().hub().view())
}

// ---- what the hub would do

// Whether this front may be shown or taken.
#[tactic(auto, using(sat_parts_passes::proofs::Shown::turn_can))]
fn can_turn<N: Laid + Names>(held: &Held<HubNode<N>, N>, front: &Option<Label>) -> bool
    ensures { result ≡ would_do held.now.node.machine (handed.Turn front.now) }
{
    held.node().machine().hub().can_turn(front)
}

// Whether an update may be shown by its timestamp.
#[tactic(auto, using(sat_parts_passes::proofs::Shown::stamp_can))]
fn can_stamp<N: Laid + Names>(held: &Held<HubNode<N>, N>) -> bool
    ensures { result ≡ would_do held.now.node.machine handed.Stamp }
{
    held.node().machine().hub().can_stamp()
}

/// Whether the hub would go on to the next epoch.
#[tactic(auto, using(crate::proofs::Nexts::advance_can))]
pub(crate) fn can_advance<N: Laid + Names>(held: &Held<HubNode<N>, N>) -> bool
    ensures { result ≡ would_do held.now.node.machine handed.Advance }
{
    held.node().machine().hub().can_advance()
}

// The label of a message, if the hub would show or take it now.
fn label_with<N: Laid + Names>(held: &Held<HubNode<N>, N>, body: &Body) -> Option<Label>
    ensures { result ≡ label_with held.now.node.machine body.now }
{
    match body {
        Body::Label(label) => {
            let front = Some(*label);
            if can_turn(held, &front) { front } else { None }
        }
        Body::Payload { .. } => None,
        Body::Beat { .. } => None,
    }
}

// The label in front of a link, if the hub would show or take it now.
fn next_label<N: Laid + Names>(held: &Held<HubNode<N>, N>, link: usize) -> Option<Label>
    ensures { result ≡ label_at held.now.node.machine (front_at held.now.ins link) }
{
    match held.front(link) {
        Some(front) => label_with(held, &front.body),
        None => None,
    }
}

// Which gears show a payload: those of its items.
fn lent_by(payload: Option<&Payload>) -> Lent
    ensures { result ≡ lent_by (option_copied payload.entry) }
{
    let Some(payload) = payload else {
        return Lent::Alone;
    };
    match payload.label().kind {
        Kind::Update(items) => Lent::Of(items),
        Kind::Move(_) => Lent::Alone,
        Kind::Pulse => Lent::Alone,
        Kind::Close(_) => Lent::Alone,
    }
}

// Which gears a stamp needs.
fn stamping<N: Laid + Names>(held: &Held<HubNode<N>, N>) -> Lent
    ensures { result ≡ lent_by (hub_shows held.now.node.machine handed.Stamp) }
{
    lent_by(held.node().machine().hub().stamping())
}

// Which gears a turn needs that would be done.
fn turning<N: Laid + Names>(held: &Held<HubNode<N>, N>, label: Label) -> Lent
    requires { would_do held.now.node.machine (handed.Turn (Some label)) ≡ true }
    ensures { result ≡ lent_by (hub_shows held.now.node.machine (handed.Turn (Some label))) }
{
    lent_by(held.node().machine().hub().showing(&Some(label)))
}

// What the hub does next where it takes no label.
#[tactic(auto, using(crate::proofs::Nexts::stamps, crate::proofs::Nexts::advances, crate::proofs::Nexts::rests))]
fn next_alone<N: Laid + Names>(held: &Held<HubNode<N>, N>) -> Next
    ensures { result ≡ next_alone held.now.node.machine }
{
    if can_stamp(held) {
        return Next::Stamp {
            lent: stamping(held),
        };
    }
    if can_advance(held) {
        return Next::Advance;
    }
    Next::Nothing
}

/// What the hub does next, by what is known to stand in front of the link of its view's tree.
#[tactic(auto, using(crate::proofs::Nexts::label_would, crate::proofs::Nexts::turns, crate::proofs::Nexts::takes_none))]
pub(crate) fn look<N: Laid + Names>(held: &Held<HubNode<N>, N>, d: &Deployment) -> Next
    requires { N.deployment ≡ d.now }
    ensures { result ≡ next_of N.deployment held.now }
{
    let link = view_link(held, d);
    match next_label(held, link) {
        Some(label) => Next::Turn {
            lent: turning(held, label),
        },
        None => next_alone(held),
    }
}

// Pulls the next envelope of the link of the view's tree, where the hub goes by the tree and there is such a link.
fn pull<N: Laid + Names, R: Wait>(rt: &R, held: &mut Held<HubNode<N>, N>, d: &Deployment)
    requires { N.deployment ≡ d.now }
    ensures node { held.new.node ≡ held.old.node }
    ensures outs { held.new.outs ≡ held.old.outs }
    ensures pulled { IsPulled (in_stamp held.old.node.machine.views)
        (label_link N.deployment held.old.node.machine.views.view) held.old.ins held.new.ins }
{
    if held.node().machine().hub().in_stamp_mode() {
        return;
    }
    let link = view_link(held, d);
    if link < held.ins().len() {
        held.pull(rt, link);
    }
}

/// What a hub does next, as far as it shows and takes, once it has pulled what comes next over the link of its view's
/// tree, where it goes by the tree and keeps no front of that link. It answers which gears this needs: `show` does it
/// with these, which the caller lends while it holds the hub. It takes no memory.
pub fn pull_next<N: Laid + Names, R: Wait>(rt: &R, watched: &mut Watched<N>, d: &Deployment) -> Next
    requires { N.deployment ≡ d.now }
    ensures node { watched.new.node ≡ watched.old.node }
    ensures outs { watched.new.outs ≡ watched.old.outs }
    ensures pulled { IsPulled (in_stamp watched.old.node.machine.views)
        (label_link N.deployment watched.old.node.machine.views.view) watched.old.ins watched.new.ins }
    ensures next { result ≡ next_of N.deployment watched.new }
{
    let held = &mut watched.held;
    pull(rt, held, d);
    look(held, d)
}
