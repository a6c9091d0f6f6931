//! The header of a large script.
ghost use Rattle.std.specs.Prelude.{◌≡◌, ◌≤◌, ◌<◌, [], ◌∷◌, map, IfOk};
ghost use Rattle.sat_act.specs.declared.deployment.Plan.TheVariants as plan;
ghost use Rattle.sat_label.specs.Words.{below};
ghost use Rattle.sat_settle.specs.LoadHeader.{three_sites, load_item, load_client, first_tree, second_tree, load_tree};
ghost use Rattle.sat_settle.specs.LoadHeader.{load_deployment};

use crate::load_texts::{client_name, item_name};
use sat_act::{ClientLine, Deployment, DeploymentFault, Item, Plan};
use sat_label::SiteSet;
use sat_tree::{Tree, TreeFault};
use std::alloc::{AllocError, Global};

// Its format.
const FORMAT: u16 = 1;

/// How many sites the deployment has.
pub const SITES: u16 = 5;

const GEARS: u16 = 4;

const ITEMS: u16 = 200;

const CLIENTS: u16 = 40;

// The set of three sites, of which some may be the same.
fn three_sites(a: u16, b: u16, c: u16) -> SiteSet
    requires a { a < 64 }
    requires b { b < 64 }
    requires c { c < 64 }
    ensures { result ≡ record { bits = three_sites a b c } }
{
    SiteSet {
        bits: (1 << a) | (1 << b) | (1 << c),
    }
}

#[tactic(auto, unfolding(crate::specs::LoadHeader::load_item))]
fn item(alloc: Global, number: u16) -> Result<Item, AllocError>
    requires { number < 200 }
    ensures { IfOk result (λ item. item ≡ load_item number) }
{
    let name = item_name(alloc, number)?;
    let replicas = three_sites(number % SITES, (number + 1) % SITES, number / SITES % SITES);
    Ok(Item { name, replicas })
}

fn items(alloc: Global) -> Result<Vec<Item>, AllocError>
    ensures { IfOk result (λ items. items.items ≡ map load_item (below 200)) }
{
    let mut items = Vec::new(alloc);
    for number in 0..ITEMS {
        items.push(item(alloc, number)?)?;
    }
    Ok(items)
}

#[tactic(auto, unfolding(crate::specs::LoadHeader::load_client))]
fn client(alloc: Global, number: u16) -> Result<ClientLine, AllocError>
    ensures { IfOk result (λ client. client ≡ load_client number) }
{
    let name = client_name(alloc, number)?;
    Ok(ClientLine {
        name,
        site: number % SITES,
    })
}

fn clients(alloc: Global) -> Result<Vec<ClientLine>, AllocError>
    ensures { IfOk result (λ clients. clients.items ≡ map load_client (below 40)) }
{
    let mut clients = Vec::new(alloc);
    for number in 0..CLIENTS {
        clients.push(client(alloc, number)?)?;
    }
    Ok(clients)
}

#[tactic(auto, using(crate::proofs::LoadTrees::first_flawless))]
fn first_tree(alloc: Global) -> Result<Tree, AllocError>
    ensures { IfOk result (λ tree. tree ≡ first_tree) }
{
    match Tree::new(alloc, &[None, Some(0), Some(0)], &[0, 1, 1, 2, 2]) {
        Ok(tree) => Ok(tree),
        Err(TreeFault::Memory) => Err(AllocError),
        Err(_) => unreachable!(),
    }
}

#[tactic(auto, using(crate::proofs::LoadTrees::second_flawless))]
fn second_tree(alloc: Global) -> Result<Tree, AllocError>
    ensures { IfOk result (λ tree. tree ≡ second_tree) }
{
    match Tree::new(alloc, &[None, Some(0)], &[0, 0, 1, 1, 1]) {
        Ok(tree) => Ok(tree),
        Err(TreeFault::Memory) => Err(AllocError),
        Err(_) => unreachable!(),
    }
}

fn plans(alloc: Global) -> Result<Vec<Plan>, AllocError>
    ensures { IfOk result (λ plans. plans.items ≡ plan.Tree first_tree ∷ plan.Tree second_tree ∷ []) }
{
    let first = first_tree(alloc)?;
    let second = second_tree(alloc)?;
    let mut plans = Vec::new(alloc);
    plans.push(Plan::Tree(first))?;
    plans.push(Plan::Tree(second))?;
    Ok(plans)
}

/// The deployment of every large script: 5 sites of 4 gears, 200 items, 40 clients and two trees.
#[tactic(auto, using(crate::proofs::LoadFlawless::no_flaw_of), unfolding(crate::specs::LoadHeader::load_deployment))]
pub fn deployment(alloc: Global) -> Result<Deployment, AllocError>
    ensures { IfOk result (λ d. d ≡ load_deployment) }
{
    let items = items(alloc)?;
    let clients = clients(alloc)?;
    let plans = plans(alloc)?;
    match Deployment::new(alloc, FORMAT, SITES, GEARS, items, clients, plans) {
        Ok(d) => Ok(d),
        Err(DeploymentFault::Memory) => Err(AllocError),
        Err(_) => unreachable!(),
    }
}

/// The tree of an epoch of that deployment.
#[tactic(auto, unfolding(crate::specs::LoadHeader::load_deployment, crate::specs::LoadHeader::load_tree))]
pub fn tree_of(d: &Deployment, epoch: u16) -> &Tree
    requires deployment { d.now ≡ load_deployment }
    requires first { 1 ≤ epoch }
    requires last { epoch ≤ 2 }
    ensures { result.now ≡ load_tree epoch }
{
    match &d.plans()[epoch as usize - 1] {
        Plan::Tree(tree) => tree,
        Plan::Stamp => unreachable!(),
    }
}
