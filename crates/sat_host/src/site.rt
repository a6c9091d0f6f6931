//! Messages at a site.
ghost use Rattle.std.specs.Prelude.{◌≡◌, ◌+◌, ◌-◌, ◌^◌, ◌<◌, true, false, get_or, length, nat_lt, IfErr, IfOk};
ghost use Rattle.std.specs.Prelude.{MatchOption, OnErr, OnOk, Some, None};
ghost use Rattle.sat_act.specs.Limits.{IsDeployment};
ghost use Rattle.sat_node.specs.declared.kept.Body.TheVariants as body;
ghost use Rattle.sat_node.specs.Meanings.{replay};
ghost use Rattle.sat_site.specs.declared.input.SiteInput.TheVariants as given;
ghost use Rattle.sat_site.specs.Inputs.{fits_in};
ghost use Rattle.sat_site.specs.Laws.{EachStep};
ghost use Rattle.sat_site.specs.Seen.{IsSite};
ghost use Rattle.sat_machines.specs.Layout.{label_link, label_links, peer};
ghost use Rattle.sat_machines.specs.Sites.{Stands, number_of, site_meaning};
ghost use Rattle.sat_passes.specs.Hearings.{input_from};
ghost use Rattle.sat_passes.specs.Sendings.{would_do};
ghost use Rattle.sat_host.specs.declared.received.Received.TheVariants as became;
ghost use Rattle.sat_host_laws.specs.Messages.{IsBounded, SameHost};
ghost use Rattle.sat_host.specs.Turns.{FailsBy, Receives, turn_of};
ghost use Rattle.sat_host.specs.Receptions.{act_with, bulk_reception, label_reception, site_reception};

use crate::host::Host;
use crate::received::{Received, is_taken, turn_of};
use sat_act::{Deployment, Plan};
use sat_label::{Label, NodeName};
use sat_machines::{Laid, SiteAct, SiteNode};
use sat_message::Message;
use sat_node::{Body, CallFault, Machine};
use sat_site::{SiteInput, site_laws};
use std::alloc::AllocError;

// The machine stands for the replay of the journal; what is true of it, and what it does.
fn sound<N: Laid>(host: &Host<SiteNode<N>>)
    ensures stands { Stands N.deployment host.now.node.name host.now.node.machine
        (replay (site_meaning N.deployment) host.now.node.name host.now.node.entries) }
    ensures deployment { IsDeployment N.deployment }
    ensures site { IsSite host.now.node.machine }
    ensures steps { EachStep }
{
    let machine = host.node().machine();
    let _ = machine.sites();
    let _ = machine.site().view();
    // This brings its laws into the proof; it does nothing when it runs.
    site_laws();
}

// The number of the host's site.
fn site_of<N: Laid>(host: &Host<SiteNode<N>>) -> u16
    ensures { result ≡ number_of host.now.node.name }
{
    match host.node().name() {
        NodeName::Site(site) => site,
        NodeName::Serializer { .. } => 0,
        NodeName::Gear { site, .. } => site,
    }
}

// The site at the other end of a link between sites.
fn peer(site: u16, link: u16) -> u16
    requires { link < 64 }
    ensures { result ≡ peer site link }
{
    if link < site { link } else { link + 1 }
}

// The same, where the link is one between sites.
fn peer_at<N: Laid>(host: &Host<SiteNode<N>>, link: usize) -> Option<u16>
    ensures none { MatchOption result (nat_lt link (N.deployment.sites - 1) ≡ false)
        (λ from. nat_lt link (N.deployment.sites - 1) ≡ true) }
    ensures some { MatchOption result (nat_lt link (N.deployment.sites - 1) ≡ false)
        (λ from. from ≡ peer (number_of host.now.node.name) link) }
{
    let sites = host.node().machine().sites();
    if link >= usize::from(sites.saturating_sub(1)) {
        return None;
    }
    Some(peer(site_of(host), link as u16))
}

// A payload or a beat of a site, as an input.
fn input_from(from: u16, body: &Body) -> Result<Option<SiteInput>, AllocError>
    ensures { IfOk result (λ given. given ≡ input_from from body.now) }
{
    match body {
        Body::Label(_) => Ok(None),
        Body::Payload {
            gear,
            number,
            payload,
        } => {
            let payload = payload.copy()?;
            Ok(Some(SiteInput::Bulk {
                from,
                gear: *gear,
                number: *number,
                payload,
            }))
        }
        Body::Beat { number, beat } => {
            let beat = beat.copy()?;
            Ok(Some(SiteInput::BeatIn {
                from,
                number: *number,
                beat,
            }))
        }
    }
}

// Takes a payload or a beat, which fits.
#[tactic(auto, using(crate::proofs::Turning::turn_wanted, crate::proofs::Turning::took_this, crate::proofs::Turning::bulk_given))]
fn take_bulk<N: Laid>(
    host: &mut Host<SiteNode<N>>,
    link: usize,
    message: &Message,
    act: SiteAct<N>,
) -> Result<(), CallFault>
    requires input { input_from (peer (number_of host.old.node.name) link) message.now.sent.body ≡ Some act.input }
    requires act { act ≡ act_with host.old.node.name link message.now.sent.body }
    requires fits { fits_in host.old.node.machine act.input ≡ true }
    requires turn { turn_of (get_or host.old.wanted link 0) message.now.number message.now.sent.body ≡ became.Taken }
    requires bound { IsBounded message.now.number message.now.sent.body }
    ensures taken { OnOk result (Receives (site_meaning N.deployment) link message.now
        (Some (act_with host.old.node.name link message.now.sent.body)) host.old host.new became.Taken) }
    ensures err { OnErr result (SameHost host.old host.new) }
    ensures fault { IfErr result (FailsBy host.old message.now.sent.lamport) }
{
    sound(host);
    let Ok(copy) = act.copy() else {
        return Err(CallFault::Memory);
    };
    match host.handle(link, message, act, copy) {
        Ok(_) => Ok(()),
        Err(fault) => Err(fault),
    }
}

// Takes what came from another site, where it fits.
#[tactic(auto, using(crate::proofs::Turning::act_is))]
fn receive_bulk<N: Laid>(
    host: &mut Host<SiteNode<N>>,
    link: usize,
    message: &Message,
) -> Result<Received, CallFault>
    requires turn { turn_of (get_or host.old.wanted link 0) message.now.number message.now.sent.body ≡ became.Taken }
    requires bound { IsBounded message.now.number message.now.sent.body }
    ensures received { IfOk result (λ r. r ≡ bulk_reception N.deployment host.old link message.now.sent.body) }
    ensures receives { IfOk result (λ r. Receives (site_meaning N.deployment) link message.now
        (Some (act_with host.old.node.name link message.now.sent.body)) host.old host.new r) }
    ensures err { OnErr result (SameHost host.old host.new) }
    ensures fault { IfErr result (FailsBy host.old message.now.sent.lamport) }
{
    let Some(from) = peer_at(host, link) else {
        return Ok(Received::Unfit);
    };
    let Ok(input) = input_from(from, &message.sent.body) else {
        return Err(CallFault::Memory);
    };
    let Some(input) = input else {
        return Ok(Received::Unfit);
    };
    let act = SiteAct::of_site(input);
    if !host.node().machine().fits(&act) {
        return Ok(Received::Unfit);
    }
    match take_bulk(host, link, message, act) {
        Ok(()) => Ok(Received::Taken),
        Err(fault) => Err(fault),
    }
}

// At a site, the number of the end for the tree of the plan at this place, from the end of this number on.
fn link_from(next: usize, plans: &[Plan], place: usize) -> usize
    requires { next + length plans.now < 2 ^ 64 }
    ensures { result ≡ get_or (label_links next plans.now) place 0 }
{
    let Some((plan, rest)) = plans.split_first() else {
        return 0;
    };
    if place == 0 {
        return next;
    }
    match plan {
        Plan::Stamp => link_from(next, rest, place - 1),
        Plan::Tree(_) => link_from(next + 1, rest, place - 1),
    }
}

// At a site, the number of the end for the tree of an epoch.
fn link_of(d: &Deployment, epoch: u16) -> usize
    ensures { result ≡ label_link d.now epoch }
{
    let others = d.sites().saturating_sub(1);
    let place = epoch.saturating_sub(1);
    link_from(usize::from(others), d.plans(), usize::from(place))
}

// Takes a label of the view's tree, which the site would show or take.
#[tactic(auto, using(crate::proofs::Turning::turn_wanted, crate::proofs::Turning::took_this, crate::proofs::Turning::label_given, sat_passes::proofs::Sendings::would_fit))]
fn take_label<N: Laid>(
    host: &mut Host<SiteNode<N>>,
    link: usize,
    message: &Message,
    label: Label,
) -> Result<(), CallFault>
    requires link { link ≡ label_link N.deployment host.old.node.machine.views.view }
    requires label { message.now.sent.body ≡ body.Label label }
    requires done { would_do host.old.node.machine (given.Turn (Some label)) ≡ true }
    requires turn { turn_of (get_or host.old.wanted link 0) message.now.number message.now.sent.body ≡ became.Taken }
    requires bound { IsBounded message.now.number message.now.sent.body }
    ensures taken { OnOk result (Receives (site_meaning N.deployment) link message.now
        (Some (act_with host.old.node.name link message.now.sent.body)) host.old host.new became.Taken) }
    ensures err { OnErr result (SameHost host.old host.new) }
    ensures fault { IfErr result (FailsBy host.old message.now.sent.lamport) }
{
    sound(host);
    let front = Some(label);
    let input = SiteAct::of_site(SiteInput::Turn { front });
    let copy = SiteAct::of_site(SiteInput::Turn { front });
    match host.handle(link, message, input, copy) {
        Ok(_) => Ok(()),
        Err(fault) => Err(fault),
    }
}

// Shows or takes a label, where it can be now.
fn receive_label<N: Laid>(
    host: &mut Host<SiteNode<N>>,
    d: &Deployment,
    link: usize,
    message: &Message,
    label: Label,
) -> Result<Received, CallFault>
    requires deployment { N.deployment ≡ d.now }
    requires label { message.now.sent.body ≡ body.Label label }
    requires turn { turn_of (get_or host.old.wanted link 0) message.now.number message.now.sent.body ≡ became.Taken }
    requires bound { IsBounded message.now.number message.now.sent.body }
    ensures received { IfOk result (λ r. r ≡ label_reception N.deployment host.old.node.machine link label) }
    ensures receives { IfOk result (λ r. Receives (site_meaning N.deployment) link message.now
        (Some (act_with host.old.node.name link message.now.sent.body)) host.old host.new r) }
    ensures err { OnErr result (SameHost host.old host.new) }
    ensures fault { IfErr result (FailsBy host.old message.now.sent.lamport) }
{
    let seen = host.node().machine().site().view();
    if seen.stamp {
        return Ok(Received::Early);
    }
    if link != link_of(d, seen.view) {
        return Ok(Received::Early);
    }
    let front = Some(label);
    if !host.node().machine().site().can(&SiteInput::Turn { front }) {
        return Ok(Received::Early);
    }
    match take_label(host, link, message, label) {
        Ok(()) => Ok(Received::Taken),
        Err(fault) => Err(fault),
    }
}

/// What a site's host does with a message that came over one of its links: it takes a payload or a beat of another site
/// that fits, and a label of the tree of its view where all before it on the link were taken and the site shows or
/// takes it now. `Worn` only where the node's number or the message's is the greatest, and `Memory`; then all is as
/// before.
#[tactic(auto, using(crate::proofs::Turning::taken_is, crate::proofs::Turning::not_taken))]
pub fn receive_at_site<N: Laid>(
    host: &mut Host<SiteNode<N>>,
    d: &Deployment,
    link: usize,
    message: &Message,
) -> Result<Received, CallFault>
    requires { N.deployment ≡ d.now }
    ensures received { IfOk result (λ r. r ≡ site_reception N.deployment host.old link message.now) }
    ensures receives { IfOk result (λ r. Receives (site_meaning N.deployment) link message.now
        (Some (act_with host.old.node.name link message.now.sent.body)) host.old host.new r) }
    ensures err { OnErr result (SameHost host.old host.new) }
    ensures fault { IfErr result (FailsBy host.old message.now.sent.lamport) }
{
    let turn = turn_of(host.wanted(link), message.number, &message.sent.body);
    if !is_taken(turn) {
        return Ok(turn);
    }
    match &message.sent.body {
        Body::Label(label) => receive_label(host, d, link, message, *label),
        Body::Payload { .. } => receive_bulk(host, link, message),
        Body::Beat { .. } => receive_bulk(host, link, message),
    }
}
