//! Where what nodes kept and what sessions kept differ first.
ghost use Rattle.std.specs.Prelude.{◌≡◌, ◌≤◌, ◌+◌, true, length, take, drop, Some, slice_get, MatchOption, IfOk, OnOk};
ghost use Rattle.std.specs.Bool.{Decides};
ghost use Rattle.sat_label.specs.Members.{In};
ghost use Rattle.sat_session.specs.Notes.{session_notes};
ghost use Rattle.sat_session.specs.Sessions.{SameNotes};
ghost use Rattle.sat_parts_notes.specs.Notes.{part_notes};
ghost use Rattle.sat_parts_notes.specs.Filing.{Ascending, IsUnderSame, AllBefore, AllBehind};
ghost use Rattle.sat_parts_notes.specs.Differences.{IsDifference};
ghost use Rattle.sat_parts_notes.specs.Comparing.{IsCompared, IsPair};

use crate::filed::Filed;
use crate::notes::{part_notes, session_notes};
use crate::same::{copy_noted, same_noted};
use sat_act::Deployment;
use sat_machines::{Laid, SerialNode};
use sat_node::{Held, Names};
use sat_parts::{GearNode, HubNode};
use sat_session::{Noted, Session};
use std::alloc::{AllocError, Global};

/// What nodes kept and what a session kept under one number, none where nothing was kept.
#[derive(Drop)]
pub struct Difference {
    pub node: Option<Noted>,
    pub session: Option<Noted>,
}

/// Nothing where nodes and sessions kept the same of the acts of sessions at nodes, and else a difference.
pub fn compare_notes<N: Laid, W: Names>(
    alloc: Global,
    d: &Deployment,
    hubs: &[Held<HubNode<N>, W>],
    gears: &[Held<GearNode<N>, W>],
    serials: &[Held<SerialNode<N>, W>],
    sessions: &[Session<N>],
) -> Result<Option<Difference>, AllocError>
    requires { N.deployment ≡ d.now }
    ensures { IfOk result (λ o. IsCompared (part_notes hubs.now gears.now serials.now)
        (session_notes N.deployment sessions.now) o) }
{
    let mut nodes = part_notes(alloc, hubs, gears, serials)?;
    let mut noted = session_notes(alloc, d, sessions)?;
    let found = compared(&mut nodes, &mut noted)?;
    Ok(found)
}

// Puts both in order, and looks for the first difference.
fn compared(
    nodes: &mut Vec<Filed>,
    noted: &mut Vec<Filed>,
) -> Result<Option<Difference>, AllocError>
    ensures { IfOk result (λ o. IsCompared nodes.old.items noted.old.items o) }
{
    sort(nodes)?;
    sort(noted)?;
    let kept = nodes.as_slice();
    let told = noted.as_slice();
    let place = common(kept, told);
    let found = difference_at(kept, told, place)?;
    Ok(found)
}

// Puts notes in order.
fn sort(list: &mut Vec<Filed>) -> Result<(), AllocError>
    ensures same { OnOk result (SameNotes list.old.items list.new.items) }
    ensures order { OnOk result (Ascending list.new.items) }
{
    list.sort_by_key(|filed| filed.key())?;
    Ok(())
}

fn filed_at(list: &[Filed], place: usize) -> Option<&Filed>
    ensures { MatchOption result (length list.now ≤ place) (λ f. slice_get list.now place ≡ Some f.now) }
{
    list.get(place)
}

// How many stand at the front of both.
fn common(nodes: &[Filed], sessions: &[Filed]) -> usize
    ensures { take result nodes.now ≡ take result sessions.now }
{
    for place in 0..nodes.len() {
        if !is_same_at(nodes, sessions, place) {
            return place;
        }
    }
    nodes.len()
}

// Whether the same note stands at a place of both.
fn is_same_at(nodes: &[Filed], sessions: &[Filed], place: usize) -> bool
    ensures { result ≡ true → take place nodes.now ≡ take place sessions.now
        → take (place + 1) nodes.now ≡ take (place + 1) sessions.now }
{
    let Some(node) = filed_at(nodes, place) else {
        return false;
    };
    let Some(session) = filed_at(sessions, place) else {
        return false;
    };
    if node.is_before(session) || session.is_before(node) {
        return false;
    }
    same_noted(node.noted(), session.noted())
}

// The first difference of two lists in order whose first so many notes are the same.
fn difference_at(
    nodes: &[Filed],
    sessions: &[Filed],
    place: usize,
) -> Result<Option<Difference>, AllocError>
    requires nodes { Ascending nodes.now }
    requires sessions { Ascending sessions.now }
    requires same { take place nodes.now ≡ take place sessions.now }
    ensures { IfOk result (λ o. IsCompared nodes.now sessions.now o) }
{
    let Some(node) = filed_at(nodes, place) else {
        return rest_at(nodes, sessions, place);
    };
    let Some(session) = filed_at(sessions, place) else {
        let found = node_alone(nodes, sessions, place, node)?;
        return Ok(Some(found));
    };
    if node.is_before(session) {
        let found = node_alone(nodes, sessions, place, node)?;
        return Ok(Some(found));
    }
    if session.is_before(node) {
        let found = session_alone(nodes, sessions, place, session)?;
        return Ok(Some(found));
    }
    let found = pair(node, session)?;
    Ok(Some(found))
}

// Nodes kept no more notes.
fn rest_at(
    nodes: &[Filed],
    sessions: &[Filed],
    place: usize,
) -> Result<Option<Difference>, AllocError>
    requires sessions { Ascending sessions.now }
    requires same { take place nodes.now ≡ take place sessions.now }
    requires done { length nodes.now ≤ place }
    ensures { IfOk result (λ o. IsCompared nodes.now sessions.now o) }
{
    let Some(session) = filed_at(sessions, place) else {
        return Ok(None);
    };
    let found = session_alone(nodes, sessions, place, session)?;
    Ok(Some(found))
}

// A note of nodes, behind which the sessions go on.
fn node_alone(
    nodes: &[Filed],
    sessions: &[Filed],
    place: usize,
    node: &Filed,
) -> Result<Difference, AllocError>
    requires order { Ascending nodes.now }
    requires here { slice_get nodes.now place ≡ Some node.now }
    requires same { take place nodes.now ≡ take place sessions.now }
    requires behind { AllBehind (drop place sessions.now) node.now }
    ensures { IfOk result (λ f. IsDifference nodes.now sessions.now f.node f.session) }
{
    match same_before(nodes, place, node) {
        Some(session) => {
            let found = pair(node, session)?;
            Ok(found)
        }
        None => {
            let node = copy_noted(node.noted())?;
            Ok(Difference {
                node: Some(node),
                session: None,
            })
        }
    }
}

// A note of a session, behind which the nodes go on. A session has no two under one number.
fn session_alone(
    nodes: &[Filed],
    sessions: &[Filed],
    place: usize,
    session: &Filed,
) -> Result<Difference, AllocError>
    requires order { Ascending sessions.now }
    requires here { slice_get sessions.now place ≡ Some session.now }
    requires same { take place nodes.now ≡ take place sessions.now }
    requires behind { AllBehind (drop place nodes.now) session.now }
    ensures { IfOk result (λ f. IsDifference nodes.now sessions.now f.node f.session) }
{
    match same_before(sessions, place, session) {
        Some(_) => Err(AllocError),
        None => {
            let session = copy_noted(session.noted())?;
            Ok(Difference {
                node: None,
                session: Some(session),
            })
        }
    }
}

// The note in front of a place, where it is of the same session and under the same number as the one there.
fn same_before<'a>(list: &'a [Filed], place: usize, filed: &Filed) -> Option<&'a Filed>
    requires order { Ascending list.now }
    requires here { slice_get list.now place ≡ Some filed.now }
    ensures { MatchOption result (AllBefore (take place list.now) filed.now)
        (λ f. In (take place list.now) f.now × IsUnderSame filed.now f.now) }
{
    if place == 0 {
        return None;
    }
    let Some(last) = filed_at(list, place - 1) else {
        return None;
    };
    if last.is_before(filed) {
        return None;
    }
    Some(last)
}

// Two notes under one number. They differ, since no node has a note twice, and no two nodes have the same.
fn pair(node: &Filed, session: &Filed) -> Result<Difference, AllocError>
    ensures { IfOk result (λ f. IsPair node.now session.now f) }
{
    if same_noted(node.noted(), session.noted()) {
        return Err(AllocError);
    }
    let node = copy_noted(node.noted())?;
    let session = copy_noted(session.noted())?;
    Ok(Difference {
        node: Some(node),
        session: Some(session),
    })
}
