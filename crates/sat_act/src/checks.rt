//! What is asked of a deployment's parts.
ghost use Rattle.std.specs.Prelude.{◌≡◌, ◌<◌, ◌≤◌, ℕ, ◌+◌, take, true, not, ◌||◌, List, length, IfOk, OnOk, slice_get};
ghost use Rattle.std.specs.Prelude.{Some, None};
ghost use Rattle.sat_tree.specs.Shape.{TreeShape};
ghost use Rattle.sat_tree.specs.Flaw.{IsSmallTree};
ghost use Rattle.sat_act.specs.declared.deployment.Plan.TheVariants as plan;
ghost use Rattle.std.specs.List.{list_any};
ghost use Rattle.std.specs.Str.{bytes_eq};
ghost use Rattle.sat_label.specs.Words.{first_failing};
ghost use Rattle.sat_label.specs.declared.limits.TheConstants.{MOST_CLIENTS, MOST_EPOCHS, MOST_ITEMS, MOST_SITES};
ghost use Rattle.sat_act.specs.declared.deployment.Item.{Item};
ghost use Rattle.sat_act.specs.declared.deployment.ClientLine.{ClientLine};
ghost use Rattle.sat_act.specs.Flaw.{has_name, HaveItemNames, HaveClientLineNames, client_fits, flaw, item_fits};
ghost use Rattle.sat_act.specs.Flaw.{plan_fits, wrong_size};
ghost use Rattle.sat_act.specs.Limits.{HaveTrees};

use crate::{ClientLine, DeploymentFault, Item, Plan};
use sat_label::{MOST_CLIENTS, MOST_EPOCHS, MOST_GEARS, limits_of};
use std::alloc::{AllocError, Global};
use std::collections::HashSet;

// Adds a name to those that were seen, and answers whether it is new.
fn add_name<'a>(names: &mut HashSet<&'a [u8]>, name: &'a [u8]) -> Result<bool, AllocError>
    ensures added { IfOk result (λ new. new ≡ not (has_name names.old name.now)) }
    ensures names { OnOk result ((other : List ℕ) → has_name names.new other
        ≡ (bytes_eq name.now other || has_name names.old other)) }
{
    let new = names.insert(name)?;
    Ok(new)
}

fn has_item(items: &[Item], name: &[u8]) -> bool
    ensures { result ≡ list_any (λ (earlier : Item). bytes_eq earlier.name name.now) items.now }
{
    items.iter().any(|item| item.name.bytes() == name)
}

fn has_client(clients: &[ClientLine], name: &[u8]) -> bool
    ensures { result ≡ list_any (λ (earlier : ClientLine). bytes_eq earlier.name name.now) clients.now }
{
    clients.iter().any(|client| client.name.bytes() == name)
}

#[tactic(auto, unfolding(crate::specs::Flaw::item_fits))]
fn scan_item(sites: u16, items: &[Item], x: u16) -> bool
    requires place { x < length items.now }
    requires few { sites ≤ MOST_SITES }
    ensures { result ≡ item_fits sites items.now x }
{
    let item = &items[x as usize];
    item.replicas.is_among(sites) && !has_item(&items[..x as usize], item.name.bytes())
}

#[tactic(auto, unfolding(crate::specs::Flaw::client_fits))]
fn scan_client(sites: u16, clients: &[ClientLine], c: u16) -> bool
    requires { c < length clients.now }
    ensures { result ≡ client_fits sites clients.now c }
{
    let line = &clients[c as usize];
    line.site < sites && !has_client(&clients[..c as usize], line.name.bytes())
}

#[tactic(auto, unfolding(crate::specs::Flaw::plan_fits))]
fn plan_fits(sites: u16, plans: &[Plan], e: u16) -> bool
    requires { e < length plans.now }
    ensures fits { result ≡ plan_fits sites plans.now e }
    ensures tree { (t : TreeShape) → slice_get plans.now e ≡ Some (plan.Tree t) → IsSmallTree t }
{
    match &plans[e as usize] {
        Plan::Stamp => true,
        Plan::Tree(tree) => tree.sites() == sites,
    }
}

#[tactic(auto, using(sat_label::proofs::First::first_start, sat_label::proofs::First::first_more, sat_label::proofs::First::first_here))]
fn scan_items(sites: u16, items: &[Item]) -> Option<u16>
    requires few { length items.now ≤ MOST_ITEMS }
    requires few_sites { sites ≤ MOST_SITES }
    ensures { result ≡ first_failing (item_fits sites items.now) (length items.now) }
{
    for x in 0..items.len() as u16 {
        if !scan_item(sites, items, x) {
            return Some(x);
        }
    }
    None
}

#[tactic(auto, using(sat_label::proofs::First::first_start, sat_label::proofs::First::first_more, sat_label::proofs::First::first_here))]
fn scan_clients(sites: u16, clients: &[ClientLine]) -> Option<u16>
    requires { length clients.now ≤ MOST_CLIENTS }
    ensures { result ≡ first_failing (client_fits sites clients.now) (length clients.now) }
{
    for c in 0..clients.len() as u16 {
        if !scan_client(sites, clients, c) {
            return Some(c);
        }
    }
    None
}

// Whether the item at a place fits, once the earlier ones did, whose names are given. Its name is added to them.
#[tactic(auto, unfolding(crate::specs::Flaw::item_fits))]
fn take_item<'a>(
    names: &mut HashSet<&'a [u8]>,
    sites: u16,
    items: &'a [Item],
    x: u16,
) -> Result<bool, AllocError>
    requires place { x < length items.now }
    requires few_sites { sites ≤ MOST_SITES }
    requires names { HaveItemNames names.old (take x items.now) }
    ensures fits { IfOk result (λ fits. fits ≡ item_fits sites items.now x) }
    ensures names { IfOk result (λ fits. fits ≡ true → HaveItemNames names.new (take (x + 1) items.now)) }
{
    let item = &items[x as usize];
    if !item.replicas.is_among(sites) {
        return Ok(false);
    }
    let new = add_name(names, item.name.bytes())?;
    Ok(new)
}

#[tactic(auto, using(sat_label::proofs::First::first_start, sat_label::proofs::First::first_more, sat_label::proofs::First::first_here))]
fn find_wrong_item(alloc: Global, sites: u16, items: &[Item]) -> Result<Option<u16>, AllocError>
    requires few { length items.now ≤ MOST_ITEMS }
    requires few_sites { sites ≤ MOST_SITES }
    ensures { IfOk result (λ place. place ≡ first_failing (item_fits sites items.now) (length items.now)) }
{
    let mut names: HashSet<&[u8]> = HashSet::new(alloc);
    for x in 0..items.len() as u16 {
        if !take_item(&mut names, sites, items, x)? {
            return Ok(Some(x));
        }
    }
    Ok(None)
}

// Whether the client at a place fits, once the earlier ones did, whose names are given. Its name is added to them.
#[tactic(auto, unfolding(crate::specs::Flaw::client_fits))]
fn take_client<'a>(
    names: &mut HashSet<&'a [u8]>,
    sites: u16,
    clients: &'a [ClientLine],
    c: u16,
) -> Result<bool, AllocError>
    requires place { c < length clients.now }
    requires names { HaveClientLineNames names.old (take c clients.now) }
    ensures fits { IfOk result (λ fits. fits ≡ client_fits sites clients.now c) }
    ensures names { IfOk result (λ fits. fits ≡ true → HaveClientLineNames names.new (take (c + 1) clients.now)) }
{
    let client = &clients[c as usize];
    if !(client.site < sites) {
        return Ok(false);
    }
    let new = add_name(names, client.name.bytes())?;
    Ok(new)
}

#[tactic(auto, using(sat_label::proofs::First::first_start, sat_label::proofs::First::first_more, sat_label::proofs::First::first_here))]
fn find_wrong_client(
    alloc: Global,
    sites: u16,
    clients: &[ClientLine],
) -> Result<Option<u16>, AllocError>
    requires few { length clients.now ≤ MOST_CLIENTS }
    ensures { IfOk result (λ place. place ≡ first_failing (client_fits sites clients.now) (length clients.now)) }
{
    let mut names: HashSet<&[u8]> = HashSet::new(alloc);
    for c in 0..clients.len() as u16 {
        if !take_client(&mut names, sites, clients, c)? {
            return Ok(Some(c));
        }
    }
    Ok(None)
}

// The first item that doesn't fit. For want of memory the names are compared pair by pair, which takes none.
fn first_wrong_item(alloc: Global, sites: u16, items: &[Item]) -> Option<u16>
    requires few { length items.now ≤ MOST_ITEMS }
    requires few_sites { sites ≤ MOST_SITES }
    ensures { result ≡ first_failing (item_fits sites items.now) (length items.now) }
{
    match find_wrong_item(alloc, sites, items) {
        Ok(place) => place,
        Err(_) => scan_items(sites, items),
    }
}

// The first client that doesn't fit. For want of memory the names are compared pair by pair, which takes none.
fn first_wrong_client(alloc: Global, sites: u16, clients: &[ClientLine]) -> Option<u16>
    requires { length clients.now ≤ MOST_CLIENTS }
    ensures { result ≡ first_failing (client_fits sites clients.now) (length clients.now) }
{
    match find_wrong_client(alloc, sites, clients) {
        Ok(place) => place,
        Err(_) => scan_clients(sites, clients),
    }
}

#[tactic(auto, using(sat_label::proofs::First::first_start, sat_label::proofs::First::first_more, sat_label::proofs::First::first_here))]
fn first_wrong_plan(sites: u16, plans: &[Plan]) -> Option<u16>
    requires { length plans.now ≤ MOST_EPOCHS }
    ensures first { result ≡ first_failing (plan_fits sites plans.now) (length plans.now) }
    ensures trees { result ≡ None → HaveTrees plans.now }
{
    for e in 0..plans.len() as u16 {
        if !plan_fits(sites, plans, e) {
            return Some(e);
        }
    }
    None
}

#[tactic(auto, unfolding(crate::specs::Flaw::wrong_size))]
fn wrong_size(
    format: u16,
    sites: u16,
    gears: u16,
    items: &[Item],
    clients: &[ClientLine],
    plans: &[Plan],
) -> Option<u16>
    ensures part { result
        ≡ wrong_size
        (record {
          format = format;
          sites = sites;
          gears = gears;
          items = items.now;
          clients = clients.now;
          plans = plans.now;
        }) }
    ensures few_sites { result ≡ None → sites ≤ MOST_SITES }
    ensures few_items { result ≡ None → length items.now ≤ MOST_ITEMS }
{
    if format != 1 && format != 2 {
        return Some(5);
    }
    let limits = limits_of(format);
    if sites < 1 || limits.sites < sites {
        return Some(0);
    }
    if gears < 1 || MOST_GEARS < gears {
        return Some(1);
    }
    if limits.items < items.len() {
        return Some(2);
    }
    if MOST_CLIENTS < clients.len() {
        return Some(3);
    }
    if plans.is_empty() || MOST_EPOCHS < plans.len() {
        return Some(4);
    }
    None
}

/// The first fault of a deployment's parts.
#[tactic(auto, unfolding(crate::specs::Flaw::flaw))]
pub fn flaw_of(
    alloc: Global,
    format: u16,
    sites: u16,
    gears: u16,
    items: &[Item],
    clients: &[ClientLine],
    plans: &[Plan],
) -> Option<DeploymentFault>
    ensures flaw { result
        ≡ flaw
        (record {
          format = format;
          sites = sites;
          gears = gears;
          items = items.now;
          clients = clients.now;
          plans = plans.now;
        }) }
    ensures trees { result ≡ None → HaveTrees plans.now }
{
    if let Some(part) = wrong_size(format, sites, gears, items, clients, plans) {
        return Some(DeploymentFault::Size(part));
    }
    if let Some(place) = first_wrong_item(alloc, sites, items) {
        return Some(DeploymentFault::BadItem(place));
    }
    if let Some(place) = first_wrong_client(alloc, sites, clients) {
        return Some(DeploymentFault::BadClient(place));
    }
    match first_wrong_plan(sites, plans) {
        Some(place) => Some(DeploymentFault::BadPlan(place)),
        None => None,
    }
}
