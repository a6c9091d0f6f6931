//! What a settle moved, drawn small within the settle's row.
ghost use Rattle.std.specs.Prelude.{◌≡◌, ◌≤◌, ◌++◌, ◌∷◌, [], ◌^◌, map, OnOk, IfOk};
ghost use Rattle.std.specs.List.{flat_map};
ghost use Rattle.sat_draw.specs.Moved.{is_pulse, haul, payload_hauls, site_hauls, hop_hauls, label_hauls, hauls};
ghost use Rattle.sat_draw.specs.Moved.{node_column, small_y, small, smalls_of, more_text, more_word, moved_at, smalls};

use crate::columns::{answers_x, column_x, rows_top, serializer_column, site_column};
use crate::element::{Element, Ink, Spot, Text};
use crate::geometry::{
    MOST_SMALL, ROW, SMALL_ABOVE, SMALL_DROP, SMALL_STEP, SMALL_STEPS, SMALL_WORDS,
};
use crate::trail::{MADE, Trail, kind_ink, label_at};
use sat_act::{Act, Answer, Deployment, Entry};
use sat_label::{Kind, Label, NodeId};
use std::alloc::{AllocError, Global};

/// An entry that a settle made.
#[derive(Drop)]
pub struct Moved {
    /// The row of the settle's own entry, from 0.
    pub row: u32,
    /// Its place among those of its settle, from 0.
    pub place: u64,
    pub entry: Entry,
}

/// A label or its payload that goes from one node to another, the serializers those of an epoch.
#[derive(Clone, Copy, Debug, PartialEq, Eq)]
pub struct Haul {
    pub ink: Ink,
    pub trail: Trail,
    pub epoch: u16,
    pub from: NodeId,
    pub to: NodeId,
}

fn is_pulse(kind: Kind) -> bool
    ensures { result ≡ is_pulse kind }
{
    match kind {
        Kind::Pulse => true,
        _ => false,
    }
}

fn goes(ink: Ink, label: Label, epoch: u16, from: NodeId, to: NodeId) -> Haul
    ensures { result ≡ haul ink label epoch from to }
{
    Haul {
        ink,
        trail: label_at(MADE, 0, label),
        epoch,
        from,
        to,
    }
}

fn push_payload(act: &Act, label: Label, out: &mut Vec<Haul>) -> Result<(), AllocError>
    ensures { OnOk result (out.new.items ≡ out.old.items ++ payload_hauls act.now label) }
{
    match act {
        Act::Bulk { from, to, .. } => {
            let (from, to) = (NodeId::Site(*from), NodeId::Site(*to));
            out.push(goes(Ink::Payload, label, 0, from, to))?;
            Ok(())
        }
        _ => Ok(()),
    }
}

fn push_to_site(
    epoch: u16,
    z: u16,
    label: Label,
    node: NodeId,
    out: &mut Vec<Haul>,
) -> Result<(), AllocError>
    ensures { OnOk result (out.new.items ≡ out.old.items ++ site_hauls epoch z label node) }
{
    match node {
        NodeId::Site(_) => {
            let from = NodeId::Serializer(z);
            out.push(goes(kind_ink(label.kind), label, epoch, from, node))?;
            Ok(())
        }
        NodeId::Serializer(_) => Ok(()),
    }
}

fn push_to_sites(
    epoch: u16,
    z: u16,
    label: Label,
    to: &[NodeId],
    out: &mut Vec<Haul>,
) -> Result<(), AllocError>
    ensures { OnOk result (out.new.items ≡ out.old.items ++ flat_map (site_hauls epoch z label) to.now) }
{
    for node in to {
        push_to_site(epoch, z, label, *node, out)?;
    }
    Ok(())
}

fn push_hop(act: &Act, label: Label, to: &[NodeId], out: &mut Vec<Haul>) -> Result<(), AllocError>
    ensures { OnOk result (out.new.items ≡ out.old.items ++ hop_hauls act.now label to.now) }
{
    match act {
        Act::Hop {
            epoch,
            from,
            to: here,
        } => {
            let ink = kind_ink(label.kind);
            out.push(goes(ink, label, *epoch, *from, NodeId::Serializer(*here)))?;
            push_to_sites(*epoch, *here, label, to, out)
        }
        _ => Ok(()),
    }
}

fn push_label(act: &Act, label: Label, to: &[NodeId], out: &mut Vec<Haul>) -> Result<(), AllocError>
    ensures { OnOk result (out.new.items ≡ out.old.items ++ label_hauls act.now label to.now) }
{
    if is_pulse(label.kind) {
        return Ok(());
    }
    push_hop(act, label, to, out)
}

#[tactic(auto, unfolding(crate::specs::Moved::hauls))]
fn push_hauls(entry: &Entry, out: &mut Vec<Haul>) -> Result<(), AllocError>
    ensures { OnOk result (out.new.items ≡ out.old.items ++ hauls entry.now.act entry.now.answer) }
{
    match &entry.answer {
        Answer::Brought(label) => push_payload(&entry.act, *label, out),
        Answer::Hopped { label, to } => push_label(&entry.act, *label, to.as_slice(), out),
        _ => Ok(()),
    }
}

/// What an entry moved from node to node.
pub(crate) fn hauls(alloc: Global, entry: &Entry) -> Result<Vec<Haul>, AllocError>
    ensures { IfOk result (λ all. all.items ≡ hauls entry.now.act entry.now.answer) }
{
    let mut all = Vec::new(alloc);
    push_hauls(entry, &mut all)?;
    Ok(all)
}

fn node_column(d: &Deployment, epoch: u16, node: NodeId) -> u64
    ensures column { result ≡ node_column d.now epoch node }
    ensures small { result ≤ 2000000 }
{
    match node {
        NodeId::Site(site) => site_column(d, site),
        NodeId::Serializer(z) => serializer_column(d, epoch, z),
    }
}

fn small_y(d: &Deployment, moved: &Moved) -> u64
    ensures y { result ≡ small_y d.now moved.now }
    ensures small { result ≤ 2 ^ 40 }
{
    let row = rows_top(d) + u64::from(moved.row) * ROW;
    row - SMALL_ABOVE + moved.place % SMALL_STEPS * SMALL_STEP
}

fn small(d: &Deployment, y: u64, haul: Haul) -> Element
    requires { y ≤ 2 ^ 40 }
    ensures { result ≡ small d.now y haul }
{
    Element::Small {
        ink: haul.ink,
        trail: haul.trail,
        from: Spot {
            x: column_x(node_column(d, haul.epoch, haul.from)),
            y,
        },
        to: Spot {
            x: column_x(node_column(d, haul.epoch, haul.to)),
            y: y + SMALL_DROP,
        },
    }
}

fn push_smalls(
    d: &Deployment,
    y: u64,
    all: &[Haul],
    out: &mut Vec<Element>,
) -> Result<(), AllocError>
    requires { y ≤ 2 ^ 40 }
    ensures { OnOk result (out.new.items ≡ out.old.items ++ map (small d.now y) all.now) }
{
    for haul in all {
        out.push(small(d, y, *haul))?;
    }
    Ok(())
}

fn push_moved_smalls(
    alloc: Global,
    d: &Deployment,
    moved: &Moved,
    out: &mut Vec<Element>,
) -> Result<(), AllocError>
    ensures { OnOk result (out.new.items ≡ out.old.items ++ smalls_of d.now moved.now) }
{
    let all = hauls(alloc, &moved.entry)?;
    push_smalls(d, small_y(d, moved), all.as_slice(), out)
}

fn more_text(alloc: Global) -> Result<Text, AllocError>
    ensures { IfOk result (λ text. text ≡ more_text) }
{
    let most = MOST_SMALL;
    let text = format!(in alloc; "first {most} moves drawn")?;
    Ok(Text::of(text.into_bytes()))
}

fn push_more(
    alloc: Global,
    d: &Deployment,
    moved: &Moved,
    out: &mut Vec<Element>,
) -> Result<(), AllocError>
    ensures { OnOk result (out.new.items ≡ out.old.items ++ more_word d.now moved.now ∷ []) }
{
    let text = more_text(alloc)?;
    let y = rows_top(d) + u64::from(moved.row) * ROW + 4;
    out.push(Element::Word {
        ink: Ink::Epoch,
        at: Spot {
            x: answers_x(d) + SMALL_WORDS,
            y,
        },
        text,
    })?;
    Ok(())
}

fn push_moved(
    alloc: Global,
    d: &Deployment,
    moved: &Moved,
    out: &mut Vec<Element>,
) -> Result<(), AllocError>
    ensures { OnOk result (out.new.items ≡ out.old.items ++ moved_at d.now moved.now) }
{
    if moved.place < MOST_SMALL {
        push_moved_smalls(alloc, d, moved, out)
    } else {
        push_more(alloc, d, moved, out)
    }
}

/// What is drawn of these entries.
pub(crate) fn smalls(
    alloc: Global,
    d: &Deployment,
    moved: &[Moved],
) -> Result<Vec<Element>, AllocError>
    ensures { IfOk result (λ all. all.items ≡ smalls d.now moved.now) }
{
    let mut all = Vec::new(alloc);
    for one in moved {
        push_moved(alloc, d, one, &mut all)?;
    }
    Ok(all)
}
