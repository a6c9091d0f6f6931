//! Acts that have a line under a deployment's header.
ghost use Rattle.std.specs.Prelude.{◌≡◌, ◌<◌, ◌^◌, true, length, option_copied, IfOk, IfSome};
ghost use Rattle.sat_tree.specs.Cut.{IsNode};
ghost use Rattle.sat_act.specs.Parts.{tree_of};
ghost use Rattle.sat_act.specs.Ranges.{ArePair, IsActOf};
ghost use Rattle.sat_script.specs.Spelled.{AreActsOf};
ghost use Rattle.sat_stitch.specs.Kept.{acts_of};

use crate::groups::is_group;
use sat_act::{Act, Deployment, Entry, Plan};
use sat_label::{NodeId, TS_END};
use sat_tree::Tree;
use std::alloc::{AllocError, Global};

// The tree of an epoch, from 1, where it has one.
#[tactic(auto, unfolding(sat_act::specs::Parts::tree_of))]
fn tree_at(d: &Deployment, epoch: u16) -> Option<&Tree>
    ensures { option_copied result ≡ tree_of d.now epoch }
{
    if epoch == 0 {
        return None;
    }
    match d.plans().get(usize::from(epoch - 1)) {
        Some(Plan::Tree(tree)) => Some(tree),
        Some(Plan::Stamp) => None,
        None => None,
    }
}

// Whether a tree has a node.
fn has_node(tree: &Tree, node: NodeId) -> bool
    ensures { result ≡ true → IsNode tree.now node }
{
    match node {
        NodeId::Site(site) => site < tree.sites(),
        NodeId::Serializer(number) => number < tree.serializers(),
    }
}

// Whether a serializer of an epoch's tree has this neighbour.
#[tactic(auto, using(crate::proofs::Journals::hop_at))]
fn is_hop(d: &Deployment, epoch: u16, from: NodeId, to: u16) -> bool
    ensures { result ≡ true → IsActOf d.now (Act.Hop epoch from to) }
{
    let Some(tree) = tree_at(d, epoch) else {
        return false;
    };
    if !has_node(tree, from) {
        return false;
    }
    if to >= tree.serializers() {
        return false;
    }
    tree.is_edge(from, NodeId::Serializer(to))
}

// Whether an epoch's tree has a serializer.
pub(crate) fn is_kill(d: &Deployment, epoch: u16, serializer: u16) -> bool
    ensures { result ≡ true → IsActOf d.now (Act.Kill epoch serializer) }
{
    match tree_at(d, epoch) {
        Some(tree) => serializer < tree.serializers(),
        None => false,
    }
}

// Two different sites.
fn are_pair(d: &Deployment, from: u16, to: u16) -> bool
    ensures { result ≡ true → ArePair d.now from to }
{
    from < d.sites() && to < d.sites() && from != to
}

pub(crate) fn is_site(d: &Deployment, site: u16) -> bool
    ensures { result ≡ true → site < d.now.sites }
{
    site < d.sites()
}

fn is_client(d: &Deployment, client: u16) -> bool
    ensures { result ≡ true → client < length d.now.clients }
{
    usize::from(client) < d.clients().len()
}

fn is_item(d: &Deployment, item: u16) -> bool
    ensures { result ≡ true → item < length d.now.items }
{
    usize::from(item) < d.items().len()
}

// Tells the prover the range of a number.
fn in_word(number: u64)
    ensures { number < 2 ^ 64 }
{}

fn in_word_if(number: Option<u64>)
    ensures { IfSome number (λ k. k < 2 ^ 64) }
{
    match number {
        Some(number) => in_word(number),
        None => {}
    }
}

// Whether an act has a line under the deployment's header.
fn has_line(d: &Deployment, act: &Act) -> bool
    ensures { result ≡ true → IsActOf d.now act.now }
{
    match act {
        Act::Tick { site, gear, ts } => is_site(d, *site) && *gear < d.gears() && *ts <= TS_END,
        Act::Clock => true,
        Act::Write {
            client,
            item,
            value,
        } => {
            let _ = value.bytes();
            is_client(d, *client) && is_item(d, *item)
        }
        Act::Writes {
            client,
            items,
            values,
        } => is_client(d, *client) && is_group(d, items, values),
        Act::Read { client, item } => is_client(d, *client) && is_item(d, *item),
        Act::Move { client, site } => is_client(d, *client) && is_site(d, *site),
        Act::Leave { client } => is_client(d, *client),
        Act::Attach { client, site } => is_client(d, *client) && is_site(d, *site),
        Act::Gather { site } => is_site(d, *site),
        Act::Emit { site } => is_site(d, *site),
        Act::Pulse { site } => is_site(d, *site),
        Act::Hop { epoch, from, to } => is_hop(d, *epoch, *from, *to),
        Act::Turn { site } => is_site(d, *site),
        Act::Bulk {
            from,
            gear,
            to,
            number,
        } => {
            in_word_if(*number);
            are_pair(d, *from, *to) && *gear < d.gears()
        }
        Act::Beat { from, to } => are_pair(d, *from, *to),
        Act::BeatIn { from, to, number } => {
            let _number = *number;
            are_pair(d, *from, *to)
        }
        Act::Stamp { site } => is_site(d, *site),
        Act::Close { site } => is_site(d, *site),
        Act::Fall { site } => is_site(d, *site),
        Act::Advance { site } => is_site(d, *site),
        Act::Kill { epoch, serializer } => is_kill(d, *epoch, *serializer),
        Act::Settle => true,
    }
}

/// The acts of a journal, each of which has a line under the deployment's header. What nodes and sessions keep are such
/// acts, so that one without a line, which is answered as want of memory, stands in no journal.
#[tactic(auto, using(crate::proofs::Journals::acts_more, crate::proofs::Journals::each_more))]
pub(crate) fn acts_in(
    alloc: Global,
    d: &Deployment,
    journal: &[Entry],
) -> Result<Vec<Act>, AllocError>
    ensures acts { IfOk result (λ acts. acts.items ≡ acts_of journal.now) }
    ensures each { IfOk result (λ acts. AreActsOf d.now acts.items) }
{
    let mut acts = Vec::new(alloc);
    for entry in journal {
        if !has_line(d, &entry.act) {
            return Err(AllocError);
        }
        let act = entry.act.copy()?;
        acts.push(act)?;
    }
    Ok(acts)
}
