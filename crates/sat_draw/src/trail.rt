//! What an entry leaves for later ones, and what it comes from.
ghost use Rattle.std.specs.Prelude.{◌≡◌, IfOk, OnOk, ◌++◌, ◌∷◌, [], map};
ghost use Rattle.sat_label.specs.Order.{kind_rank};
ghost use Rattle.sat_label.specs.declared.label.Kind.TheVariants.{Close};
ghost use Rattle.sat_act.specs.Done.{of_client};
ghost use Rattle.sat_label.specs.declared.node.NodeId.TheVariants.{Site};
ghost use Rattle.sat_draw.specs.declared.element.Ink.TheVariants as ink;
ghost use Rattle.sat_draw.specs.Trails.{client_at, closing, viewing, attaching, is_not_yet, waiting, client_trail};
ghost use Rattle.sat_draw.specs.Trails.{client_coming};
ghost use Rattle.sat_draw.specs.Trails.{kind_number, label_at, made, sent, toward, brought, beat, site_in, beat_left};
ghost use Rattle.sat_draw.specs.Trails.{left_by, born, kind_ink, comes, hopped_from, shown_from, took_from, taken_from};
ghost use Rattle.sat_draw.specs.Trails.{comes_from, attached_by, freed_by, reseated};

use crate::element::Ink;
use sat_act::{Act, Answer, Entry, Refusal};
use sat_label::{Kind, Label, NodeId, Point};
use sat_report::at_site;
use std::alloc::{AllocError, Global};

/// A label that was made.
pub const MADE: u16 = 0;

/// A label that its site sent.
pub const SENT: u16 = 1;

/// A label that a serializer handed on to a site.
pub const TO_SITE: u16 = 2;

/// A label that a serializer handed on to another.
pub const TO_SERIALIZER: u16 = 3;

/// A payload that was brought to a site.
pub const BROUGHT: u16 = 4;

/// A beat for a site.
pub const BEAT: u16 = 5;

/// A client at its seat.
pub const SEATED: u16 = 6;

/// A client on its way.
pub const AWAY: u16 = 7;

/// A site that has closed.
pub const CLOSING: u16 = 8;

/// A site in a view that it advanced to.
pub const VIEWING: u16 = 9;

/// The rank of a beat's trail, which no label has.
pub const BEAT_RANK: u16 = 4;

/// The rank of a client's trail.
pub const CLIENT_RANK: u16 = 5;

/// The rank of the trail of a site that has closed.
pub const CLOSING_RANK: u16 = 6;

/// The rank of the trail of a site that has advanced.
pub const VIEWING_RANK: u16 = 7;

/// A stop on the way of a label, of a payload, which goes by the label of its update, or of a beat.
#[derive(Clone, Copy, Debug, PartialEq, Eq, PartialOrd, Ord)]
pub struct Trail {
    /// Which stop.
    pub stop: u16,
    /// The number of the node that it is at or for, where there is one.
    pub at: u16,
    /// The point and the kind of the label, of an update its first item. Of a beat the number and the site that made
    /// it.
    pub ts: u64,
    pub site: u16,
    pub gear: u16,
    pub rank: u16,
    pub number: u16,
}

/// A trail on which an entry ends, and how it is drawn.
#[derive(Clone, Copy, Debug, PartialEq, Eq)]
pub struct Coming {
    pub ink: Ink,
    pub trail: Trail,
}

fn kind_rank(kind: Kind) -> u16
    ensures { result ≡ kind_rank kind }
{
    match kind {
        Kind::Update(_) => 0,
        Kind::Move(_) => 1,
        Kind::Pulse => 2,
        Kind::Close(_) => 3,
    }
}

fn kind_number(kind: Kind) -> u16
    ensures { result ≡ kind_number kind }
{
    match kind {
        Kind::Update(items) => items.least(),
        Kind::Move(site) => site,
        Kind::Pulse => 0,
        Kind::Close(epoch) => epoch,
    }
}

pub(crate) fn label_at(stop: u16, at: u16, label: Label) -> Trail
    ensures { result ≡ label_at stop at label }
{
    Trail {
        stop,
        at,
        ts: label.point.ts,
        site: label.point.site,
        gear: label.point.gear,
        rank: kind_rank(label.kind),
        number: kind_number(label.kind),
    }
}

fn toward(label: Label, node: NodeId) -> Trail
    ensures { result ≡ toward label node }
{
    match node {
        NodeId::Site(site) => label_at(TO_SITE, site, label),
        NodeId::Serializer(z) => label_at(TO_SERIALIZER, z, label),
    }
}

fn beat(from: u16, to: u16, number: u64) -> Trail
    ensures { result ≡ beat from to number }
{
    Trail {
        stop: BEAT,
        at: to,
        ts: number,
        site: from,
        gear: 0,
        rank: BEAT_RANK,
        number: 0,
    }
}

pub(crate) fn client_at(stop: u16, client: u16) -> Trail
    ensures { result ≡ client_at stop client }
{
    Trail {
        stop,
        at: 0,
        ts: u64::from(client),
        site: 0,
        gear: 0,
        rank: CLIENT_RANK,
        number: 0,
    }
}

pub(crate) fn closing(site: u16) -> Trail
    ensures { result ≡ closing site }
{
    Trail {
        stop: CLOSING,
        at: site,
        ts: u64::from(site),
        site: 0,
        gear: 0,
        rank: CLOSING_RANK,
        number: 0,
    }
}

pub(crate) fn viewing(site: u16) -> Trail
    ensures { result ≡ viewing site }
{
    Trail {
        stop: VIEWING,
        at: site,
        ts: u64::from(site),
        site: 0,
        gear: 0,
        rank: VIEWING_RANK,
        number: 0,
    }
}

// The site of an act of a site, or 0.
fn site_in(act: &Act) -> u16
    ensures { result ≡ site_in act.now }
{
    at_site(act).unwrap_or(0)
}

fn beat_left(alloc: Global, act: &Act, number: u64) -> Result<Vec<Trail>, AllocError>
    ensures { IfOk result (λ trails. trails.items ≡ beat_left act.now number) }
{
    match act {
        Act::Beat { from, to } => one(alloc, beat(*from, *to, number)),
        _ => Ok(Vec::new(alloc)),
    }
}

fn one(alloc: Global, trail: Trail) -> Result<Vec<Trail>, AllocError>
    ensures { IfOk result (λ trails. trails.items ≡ trail ∷ []) }
{
    let mut trails = Vec::new(alloc);
    trails.push(trail)?;
    Ok(trails)
}

fn handed_on(alloc: Global, label: Label, to: &[NodeId]) -> Result<Vec<Trail>, AllocError>
    ensures { IfOk result (λ trails. trails.items ≡ map (toward label) to.now) }
{
    let mut trails = Vec::new(alloc);
    for node in to {
        trails.push(toward(label, *node))?;
    }
    Ok(trails)
}

// The label of a close.
fn close_label(epoch: u16, cut: Point) -> Label
    ensures { result ≡ record { point = cut; kind = Close epoch } }
{
    Label {
        point: cut,
        kind: Kind::Close(epoch),
    }
}

fn attaching(act: &Act) -> Option<u16>
    ensures { result ≡ attaching act.now }
{
    match act {
        Act::Attach { client, .. } => Some(*client),
        _ => None,
    }
}

fn is_not_yet(refusal: &Refusal) -> bool
    ensures { result ≡ is_not_yet refusal.now }
{
    match refusal {
        Refusal::NotYet => true,
        _ => false,
    }
}

// The client that goes on waiting for its seat.
fn waiting(act: &Act, refusal: &Refusal) -> Option<u16>
    ensures { result ≡ waiting act.now refusal.now }
{
    if is_not_yet(refusal) {
        attaching(act)
    } else {
        None
    }
}

fn push_client(stop: u16, client: Option<u16>, trails: &mut Vec<Trail>) -> Result<(), AllocError>
    ensures { OnOk result (trails.new.items ≡ trails.old.items ++ client_trail stop client) }
{
    match client {
        None => Ok(()),
        Some(client) => {
            trails.push(client_at(stop, client))?;
            Ok(())
        }
    }
}

fn client_left(alloc: Global, stop: u16, client: Option<u16>) -> Result<Vec<Trail>, AllocError>
    ensures { IfOk result (λ trails. trails.items ≡ client_trail stop client) }
{
    let mut trails = Vec::new(alloc);
    push_client(stop, client, &mut trails)?;
    Ok(trails)
}

// A label that a client made, and the client.
fn made_left(
    alloc: Global,
    label: Label,
    stop: u16,
    client: Option<u16>,
) -> Result<Vec<Trail>, AllocError>
    ensures { IfOk result (λ trails. trails.items ≡ made label ∷ client_trail stop client) }
{
    let mut trails = one(alloc, label_at(MADE, 0, label))?;
    push_client(stop, client, &mut trails)?;
    Ok(trails)
}

// A close, and its site.
fn close_left(alloc: Global, label: Label, site: u16) -> Result<Vec<Trail>, AllocError>
    ensures { IfOk result (λ trails. trails.items ≡ sent label ∷ closing site ∷ []) }
{
    let mut trails = one(alloc, label_at(SENT, 0, label))?;
    trails.push(closing(site))?;
    Ok(trails)
}

/// The trails that an entry leaves.
#[tactic(auto, unfolding(crate::specs::Trails::left_by))]
pub(crate) fn left_by(alloc: Global, entry: &Entry) -> Result<Vec<Trail>, AllocError>
    ensures { IfOk result (λ trails. trails.items ≡ left_by entry.now.act entry.now.answer) }
{
    let act = &entry.act;
    match &entry.answer {
        Answer::Wrote(label) => made_left(alloc, *label, SEATED, of_client(act)),
        Answer::ReadNone => client_left(alloc, SEATED, of_client(act)),
        Answer::ReadSome { .. } => client_left(alloc, SEATED, of_client(act)),
        Answer::Moved(label) => made_left(alloc, *label, AWAY, of_client(act)),
        Answer::Left(_) => client_left(alloc, AWAY, of_client(act)),
        Answer::Attached => client_left(alloc, SEATED, of_client(act)),
        Answer::Refused(refusal) => client_left(alloc, AWAY, waiting(act, refusal)),
        Answer::Emitted(label) => one(alloc, label_at(SENT, 0, *label)),
        Answer::Pulsed(label) => one(alloc, label_at(SENT, 0, *label)),
        Answer::Closed { epoch, cut } => close_left(alloc, close_label(*epoch, *cut), site_in(act)),
        Answer::Hopped { label, to } => handed_on(alloc, *label, to.as_slice()),
        Answer::Brought(label) => one(alloc, label_at(BROUGHT, site_in(act), *label)),
        Answer::Beat(number) => beat_left(alloc, act, *number),
        Answer::View(_) => one(alloc, viewing(site_in(act))),
        _ => Ok(Vec::new(alloc)),
    }
}

/// The trail on which an entry's label is made.
#[tactic(auto, unfolding(crate::specs::Trails::born))]
pub(crate) fn born(answer: &Answer) -> Option<Trail>
    ensures { result ≡ born answer.now }
{
    match answer {
        Answer::Wrote(label) => Some(label_at(MADE, 0, *label)),
        Answer::Moved(label) => Some(label_at(MADE, 0, *label)),
        Answer::Pulsed(label) => Some(label_at(SENT, 0, *label)),
        Answer::Closed { epoch, cut } => Some(label_at(SENT, 0, close_label(*epoch, *cut))),
        _ => None,
    }
}

// How a label is drawn on a link.
pub(crate) fn kind_ink(kind: Kind) -> Ink
    ensures { result ≡ kind_ink kind }
{
    match kind {
        Kind::Update(_) => Ink::Label,
        Kind::Move(_) => Ink::Move,
        Kind::Pulse => Ink::Pulse,
        Kind::Close(_) => Ink::Close,
    }
}

fn one_coming(alloc: Global, ink: Ink, trail: Trail) -> Result<Vec<Coming>, AllocError>
    ensures { IfOk result (λ all. all.items ≡ comes ink trail ∷ []) }
{
    let mut all = Vec::new(alloc);
    all.push(Coming { ink, trail })?;
    Ok(all)
}

fn hopped_from(alloc: Global, act: &Act, label: Label) -> Result<Vec<Coming>, AllocError>
    ensures { IfOk result (λ all. all.items ≡ hopped_from act.now label) }
{
    match act {
        Act::Hop { from, to, .. } => match from {
            NodeId::Site(_) => one_coming(alloc, kind_ink(label.kind), label_at(SENT, 0, label)),
            NodeId::Serializer(_) => one_coming(
                alloc,
                kind_ink(label.kind),
                label_at(TO_SERIALIZER, *to, label),
            ),
        },
        _ => Ok(Vec::new(alloc)),
    }
}

// A label and a payload.
fn both_coming(alloc: Global, label: Label, site: u16) -> Result<Vec<Coming>, AllocError>
    ensures { IfOk result (λ all. all.items ≡ comes (kind_ink label.kind) (toward label (Site site))
        ∷ comes ink.Store (brought label site) ∷ []) }
{
    let mut all = one_coming(alloc, kind_ink(label.kind), label_at(TO_SITE, site, label))?;
    all.push(Coming {
        ink: Ink::Store,
        trail: label_at(BROUGHT, site, label),
    })?;
    Ok(all)
}

fn shown_from(alloc: Global, act: &Act, label: Label) -> Result<Vec<Coming>, AllocError>
    ensures { IfOk result (λ all. all.items ≡ shown_from act.now label) }
{
    match act {
        Act::Turn { site } => both_coming(alloc, label, *site),
        Act::Stamp { site } => one_coming(alloc, Ink::Store, label_at(BROUGHT, *site, label)),
        _ => Ok(Vec::new(alloc)),
    }
}

fn took_from(alloc: Global, act: &Act, label: Label) -> Result<Vec<Coming>, AllocError>
    ensures { IfOk result (λ all. all.items ≡ took_from act.now label) }
{
    match act {
        Act::Turn { site } => one_coming(
            alloc,
            kind_ink(label.kind),
            label_at(TO_SITE, *site, label),
        ),
        _ => Ok(Vec::new(alloc)),
    }
}

fn taken_from(alloc: Global, act: &Act) -> Result<Vec<Coming>, AllocError>
    ensures { IfOk result (λ all. all.items ≡ taken_from act.now) }
{
    match act {
        Act::BeatIn { from, to, number } => one_coming(alloc, Ink::Beat, beat(*from, *to, *number)),
        _ => Ok(Vec::new(alloc)),
    }
}

fn client_coming(
    alloc: Global,
    ink: Ink,
    stop: u16,
    client: Option<u16>,
) -> Result<Vec<Coming>, AllocError>
    ensures { IfOk result (λ all. all.items ≡ client_coming ink stop client) }
{
    match client {
        None => Ok(Vec::new(alloc)),
        Some(client) => one_coming(alloc, ink, client_at(stop, client)),
    }
}

/// The trails on which an entry ends.
#[tactic(auto, unfolding(crate::specs::Trails::comes_from))]
pub(crate) fn comes_from(alloc: Global, entry: &Entry) -> Result<Vec<Coming>, AllocError>
    ensures { IfOk result (λ all. all.items ≡ comes_from entry.now.act entry.now.answer) }
{
    let act = &entry.act;
    match &entry.answer {
        Answer::Wrote(_) => client_coming(alloc, Ink::Seat, SEATED, of_client(act)),
        Answer::ReadNone => client_coming(alloc, Ink::Seat, SEATED, of_client(act)),
        Answer::ReadSome { .. } => client_coming(alloc, Ink::Seat, SEATED, of_client(act)),
        Answer::Moved(_) => client_coming(alloc, Ink::Seat, SEATED, of_client(act)),
        Answer::Left(_) => client_coming(alloc, Ink::Seat, SEATED, of_client(act)),
        Answer::Attached => client_coming(alloc, Ink::Away, AWAY, of_client(act)),
        Answer::Refused(refusal) => client_coming(alloc, Ink::Away, AWAY, waiting(act, refusal)),
        Answer::View(_) => one_coming(alloc, Ink::Switch, closing(site_in(act))),
        Answer::Closed { .. } => one_coming(alloc, Ink::View, viewing(site_in(act))),
        Answer::Emitted(label) => one_coming(alloc, Ink::Sink, label_at(MADE, 0, *label)),
        Answer::Hopped { label, .. } => hopped_from(alloc, act, *label),
        Answer::Brought(label) => one_coming(alloc, Ink::Payload, label_at(MADE, 0, *label)),
        Answer::Shown(label) => shown_from(alloc, act, *label),
        Answer::Took(label) => took_from(alloc, act, *label),
        Answer::Taken => taken_from(alloc, act),
        _ => Ok(Vec::new(alloc)),
    }
}

fn attached_by(act: &Act) -> Option<(u16, Option<u16>)>
    ensures { result ≡ attached_by act.now }
{
    match act {
        Act::Attach { client, site } => Some((*client, Some(*site))),
        _ => None,
    }
}

// The client of an act of a client.
fn of_client(act: &Act) -> Option<u16>
    ensures { result ≡ of_client act.now }
{
    match act {
        Act::Write { client, .. } => Some(*client),
        Act::Writes { client, .. } => Some(*client),
        Act::Read { client, .. } => Some(*client),
        Act::Move { client, .. } => Some(*client),
        Act::Leave { client } => Some(*client),
        Act::Attach { client, .. } => Some(*client),
        _ => None,
    }
}

fn freed_by(act: &Act) -> Option<(u16, Option<u16>)>
    ensures { result ≡ freed_by act.now }
{
    match of_client(act) {
        None => None,
        Some(client) => Some((client, None)),
    }
}

/// The client whose seat an entry changes, and the new seat.
#[tactic(auto, unfolding(crate::specs::Trails::reseated))]
pub(crate) fn reseated(entry: &Entry) -> Option<(u16, Option<u16>)>
    ensures { result ≡ reseated entry.now.act entry.now.answer }
{
    match &entry.answer {
        Answer::Attached => attached_by(&entry.act),
        Answer::Moved(_) => freed_by(&entry.act),
        Answer::Left(_) => freed_by(&entry.act),
        _ => None,
    }
}
