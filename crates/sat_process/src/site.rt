//! A site as a node of a process.
ghost use Rattle.std.specs.Prelude.{◌≡◌, ◌+◌, ◌-◌, ◌^◌, ◌<◌, min, true, get_or, length, IfOk, OnErr, OnOk};
ghost use Rattle.sat_node.specs.declared.kept.Body.TheVariants as body;
ghost use Rattle.sat_site.specs.declared.input.SiteInput.TheVariants as given;
ghost use Rattle.sat_machines.specs.Acts.{is_clients};
ghost use Rattle.sat_machines.specs.Layout.{label_link, label_links, peer};
ghost use Rattle.sat_host.specs.Locals.{is_local};
ghost use Rattle.sat_host_laws.specs.Messages.{SameHost};
ghost use Rattle.sat_handed.specs.declared.handed.Handed.TheVariants as handed;
ghost use Rattle.sat_process.specs.declared.hosted.Became.TheVariants as became;
ghost use Rattle.sat_process.specs.Taking.{Takes};
ghost use Rattle.sat_process.specs.Sites.{asked_at_site, has_come, is_by, peer_of, site_link_count, took_at_site};
ghost use Rattle.sat_process.specs.Sites.{trees_in, would_ask, would_body, would_come, would_count, would_fit};
ghost use Rattle.sat_process.specs.Sites.{would_keep, would_turn};

use crate::hosted::{Became, Hosted};
use sat_act::{Deployment, Plan};
use sat_beat::Beat;
use sat_bulk::Payload;
use sat_handed::Handed;
use sat_host::{Host, Received, act_at_site, receive_at_site};
use sat_label::{Label, NodeName};
use sat_machines::{Laid, SiteAct, SiteNode};
use sat_message::Message;
use sat_node::{Body, CallFault, Machine};
use sat_site::SiteInput;
use std::alloc::AllocError;

// ---- what is asked of a site

// Whether an input is a client's act.
fn is_clients(input: &SiteInput) -> bool
    ensures { result ≡ is_clients input.now }
{
    match input {
        SiteInput::Write { .. } => true,
        SiteInput::Read { .. } => true,
        SiteInput::Move { .. } => true,
        SiteInput::Attach { .. } => true,
        _ => false,
    }
}

// Whether an input takes nothing from a link.
fn is_local(input: &SiteInput) -> bool
    ensures { result ≡ is_local input.now }
{
    match input {
        SiteInput::Turn { .. } => false,
        SiteInput::Bulk { .. } => false,
        SiteInput::BeatIn { .. } => false,
        _ => true,
    }
}

// Whether an input is a client's act and the client is one of the deployment's, or it is no client's and has none.
fn is_by(d: &Deployment, by: Option<u16>, input: &SiteInput) -> bool
    ensures { result ≡ is_by d.now by input.now }
{
    match by {
        None => !is_clients(input),
        Some(client) => usize::from(client) < d.clients().len() && is_clients(input),
    }
}

// What is asked may be the next entry under a number above the last one, where it is no message and fits.
fn would_ask<N: Laid>(
    host: &Host<SiteNode<N>>,
    d: &Deployment,
    lamport: u64,
    by: Option<u16>,
    input: &SiteInput,
) -> Became
    requires { N.deployment ≡ d.now }
    ensures { result ≡ would_ask d.now host.now lamport by input.now }
{
    if lamport <= host.node().lamport() {
        return Became::Unfit;
    }
    if !is_local(input) {
        return Became::Unfit;
    }
    if !is_by(d, by, input) {
        return Became::Unfit;
    }
    if !host.node().machine().site().fits(input) {
        return Became::Unfit;
    }
    Became::Taken
}

// An input with the client whose act it is.
fn act_of<N: Laid>(d: &Deployment, by: Option<u16>, input: SiteInput) -> SiteAct<N>
    requires deployment { N.deployment ≡ d.now }
    requires by { is_by d.now by input ≡ true }
    ensures { result ≡ record { by = by; input = input } }
{
    let _ = d.clients();
    match by {
        None => SiteAct::of_site(input),
        Some(client) => SiteAct::of_client(client, input),
    }
}

fn take_asked<N: Laid>(
    host: &mut Host<SiteNode<N>>,
    d: &Deployment,
    lamport: u64,
    by: Option<u16>,
    input: SiteInput,
) -> Result<(), AllocError>
    requires deployment { N.deployment ≡ d.now }
    requires would { would_ask d.now host.old lamport by input ≡ became.Taken }
    ensures taken { OnOk result (Takes asked_at_site took_at_site (handed.Asked lamport by input) host.old host.new) }
    ensures err { OnErr result (SameHost host.old host.new) }
{
    let act = act_of::<N>(d, by, input);
    match act_at_site(host, lamport - 1, act) {
        Ok(Some(_)) => Ok(()),
        Ok(None) => unreachable!(),
        Err(CallFault::Worn(_)) => unreachable!(),
        Err(CallFault::Memory) => Err(AllocError),
    }
}

// ---- messages at a site

// The number of the link for the tree of the plan at this place, from the link of this number on.
fn link_from(next: usize, plans: &[Plan], place: usize) -> usize
    requires { next + length plans.now < 2 ^ 64 }
    ensures { result ≡ get_or (label_links next plans.now) place 0 }
{
    let Some((plan, rest)) = plans.split_first() else {
        return 0;
    };
    if place == 0 {
        return next;
    }
    match plan {
        Plan::Stamp => link_from(next, rest, place - 1),
        Plan::Tree(_) => link_from(next + 1, rest, place - 1),
    }
}

// The number of the link for the tree of an epoch.
fn link_of(d: &Deployment, epoch: u16) -> usize
    ensures { result ≡ label_link d.now epoch }
{
    let others = d.sites().saturating_sub(1);
    let place = epoch.saturating_sub(1);
    link_from(usize::from(others), d.plans(), usize::from(place))
}

// How many plans have a tree.
fn trees(plans: &[Plan]) -> u16
    ensures { result ≡ min (trees_in plans.now) (2 ^ 16 - 1) }
{
    let Some((plan, rest)) = plans.split_first() else {
        return 0;
    };
    match plan {
        Plan::Stamp => trees(rest),
        Plan::Tree(_) => trees(rest).saturating_add(1),
    }
}

// The k-th of the sites other than this one.
fn peer(site: u16, link: u16) -> u16
    requires { link < 64 }
    ensures { result ≡ peer site link }
{
    if link < site { link } else { link + 1 }
}

// The site at the other end of a link between sites.
fn peer_of<N: Laid>(host: &Host<SiteNode<N>>, d: &Deployment, link: u16) -> Option<u16>
    requires { N.deployment ≡ d.now }
    ensures { result ≡ peer_of d.now host.now link }
{
    if d.sites().saturating_sub(1) <= link {
        return None;
    }
    match host.node().name() {
        NodeName::Site(site) => Some(peer(site, link)),
        NodeName::Serializer { .. } => None,
        NodeName::Gear { .. } => None,
    }
}

// A label whose turn it is: it is taken where its tree is that of the view, and the site shows or takes it now.
fn would_turn<N: Laid>(host: &Host<SiteNode<N>>, d: &Deployment, link: u16, label: Label) -> Became
    requires { N.deployment ≡ d.now }
    ensures { result ≡ would_turn d.now host.now link label }
{
    let site = host.node().machine().site();
    let seen = site.view();
    if seen.stamp {
        return Became::Early;
    }
    if usize::from(link) != link_of(d, seen.view) {
        return Became::Early;
    }
    let front = Some(label);
    if site.can(&SiteInput::Turn { front }) {
        Became::Taken
    } else {
        Became::Early
    }
}

// A payload or a beat of another site: it is taken where it fits.
fn would_fit<N: Laid>(host: &Host<SiteNode<N>>, input: SiteInput) -> Became
    ensures { result ≡ would_fit host.now input }
{
    if host.node().machine().site().fits(&input) {
        Became::Taken
    } else {
        Became::Unfit
    }
}

// Whether this payload of a gear of another site came.
fn has_come<N: Laid>(
    host: &Host<SiteNode<N>>,
    d: &Deployment,
    from: u16,
    gear: u16,
    number: u64,
) -> bool
    requires { N.deployment ≡ d.now }
    ensures { result ≡ has_come d.now host.now from gear number }
{
    if from >= d.sites() {
        return false;
    }
    if gear >= d.gears() {
        return false;
    }
    host.node().machine().site().has(from, gear, number)
}

// A payload that came is not taken again.
fn would_keep<N: Laid>(
    host: &Host<SiteNode<N>>,
    d: &Deployment,
    from: u16,
    gear: u16,
    number: u64,
    payload: &Payload,
) -> Result<Became, AllocError>
    requires { N.deployment ≡ d.now }
    ensures { IfOk result (λ b.
        b ≡ would_keep d.now host.now from gear number (given.Bulk from gear number payload.now)) }
{
    if has_come(host, d, from, gear, number) {
        return Ok(Became::Again);
    }
    let payload = payload.copy()?;
    Ok(would_fit(
        host,
        SiteInput::Bulk {
            from,
            gear,
            number,
            payload,
        },
    ))
}

// A beat of another site is taken where it fits.
fn would_hear<N: Laid>(
    host: &Host<SiteNode<N>>,
    from: u16,
    number: u64,
    beat: &Beat,
) -> Result<Became, AllocError>
    ensures { IfOk result (λ b. b ≡ would_fit host.now (given.BeatIn from number beat.now)) }
{
    let beat = beat.copy()?;
    Ok(would_fit(host, SiteInput::BeatIn { from, number, beat }))
}

// The turn of a label by its number alone.
pub(crate) fn would_count(wanted: u64, number: u64) -> Became
    ensures { result ≡ would_count wanted number }
{
    if number < wanted {
        return Became::Again;
    }
    if number > wanted {
        return Became::Early;
    }
    if number == u64::MAX {
        return Became::Worn;
    }
    Became::Taken
}

fn would_take_label<N: Laid>(
    host: &Host<SiteNode<N>>,
    d: &Deployment,
    link: u16,
    number: u64,
    label: Label,
) -> Became
    requires { N.deployment ≡ d.now }
    ensures { result ≡ would_body d.now host.now link number (body.Label label) }
{
    let turn = would_count(host.wanted(usize::from(link)), number);
    if turn != Became::Taken {
        return turn;
    }
    would_turn(host, d, link, label)
}

// What would become of what a message carries.
fn would_body<N: Laid>(
    host: &Host<SiteNode<N>>,
    d: &Deployment,
    link: u16,
    message: &Message,
) -> Result<Became, AllocError>
    requires { N.deployment ≡ d.now }
    ensures { IfOk result (λ b. b ≡ would_body d.now host.now link message.now.number message.now.sent.body) }
{
    match &message.sent.body {
        Body::Label(label) => Ok(would_take_label(host, d, link, message.number, *label)),
        Body::Payload {
            gear,
            number,
            payload,
        } => match peer_of(host, d, link) {
            Some(from) => would_keep(host, d, from, *gear, *number, payload),
            None => Ok(Became::Unfit),
        },
        Body::Beat { number, beat } => match peer_of(host, d, link) {
            Some(from) => would_hear(host, from, *number, beat),
            None => Ok(Became::Unfit),
        },
    }
}

// What would become of a message of a link.
fn would_come<N: Laid>(
    host: &Host<SiteNode<N>>,
    d: &Deployment,
    link: u16,
    message: &Message,
) -> Result<Became, AllocError>
    requires { N.deployment ≡ d.now }
    ensures { IfOk result (λ b. b ≡ would_come d.now host.now link message.now) }
{
    if message.sent.lamport == u64::MAX {
        return Ok(Became::Worn);
    }
    if host.node().lamport() == u64::MAX {
        return Ok(Became::Worn);
    }
    would_body(host, d, link, message)
}

// Takes a message that would be taken.
fn take_came<N: Laid>(
    host: &mut Host<SiteNode<N>>,
    d: &Deployment,
    link: u16,
    message: &Message,
) -> Result<(), AllocError>
    requires deployment { N.deployment ≡ d.now }
    requires would { would_come d.now host.old link message.now ≡ became.Taken }
    ensures taken { OnOk result (Takes asked_at_site took_at_site (handed.Came link message.now) host.old host.new) }
    ensures err { OnErr result (SameHost host.old host.new) }
{
    match receive_at_site(host, d, usize::from(link), message) {
        Ok(Received::Taken) => Ok(()),
        Ok(Received::Early) => unreachable!(),
        Ok(Received::Again) => unreachable!(),
        Ok(Received::Unfit) => unreachable!(),
        Err(CallFault::Worn(_)) => unreachable!(),
        Err(CallFault::Memory) => Err(AllocError),
    }
}

// How many links a site has, of at most 65,535.
#[tactic(auto, using(crate::proofs::Linking::both_counts))]
fn links_of(d: &Deployment) -> u16
    ensures { result ≡ min (site_link_count d.now) (2 ^ 16 - 1) }
{
    d.sites().saturating_sub(1).saturating_add(trees(d.plans()))
}

impl<N: Laid> Hosted for SiteNode<N> {
    ghost use Rattle.sat_process.specs.Sites.{asked_at_site, site_link_count, site_would, took_at_site};

    ghost deployment = { N.deployment };

    ghost asked = { asked_at_site };

    ghost took = { took_at_site };

    ghost would = { site_would N.deployment };

    ghost link_count = { λ x. site_link_count N.deployment };

    fn links(_host: &Host<SiteNode<N>>, d: &Deployment) -> u16 {
        links_of(d)
    }

    fn would(
        host: &Host<SiteNode<N>>,
        d: &Deployment,
        given: &Handed,
    ) -> Result<Became, AllocError> {
        match given {
            Handed::Asked { lamport, by, input } => Ok(would_ask(host, d, *lamport, *by, input)),
            Handed::Killed { .. } => Ok(Became::Unfit),
            Handed::Came { link, message } => would_come(host, d, *link, message),
        }
    }

    fn take(host: &mut Host<SiteNode<N>>, d: &Deployment, given: Handed) -> Result<(), AllocError> {
        match given {
            Handed::Asked { lamport, by, input } => take_asked(host, d, lamport, by, input),
            Handed::Killed { .. } => unreachable!(),
            Handed::Came { link, message } => take_came(host, d, link, &message),
        }
    }
}
