//! The ways of a deployment's links: two for each edge of a tree, and one for each two sites in an order.
ghost use Rattle.std.specs.Prelude.{◌≡◌, ◌<◌, ◌+◌, ◌^◌, ◌++◌, length, IfOk, OnOk};
ghost use Rattle.std.specs.List.{flat_map};
ghost use Rattle.sat_label.specs.Words.{below};
ghost use Rattle.sat_tree.specs.Cut.{seat_of};
ghost use Rattle.sat_machines.specs.Layout.{Planted, all_links, peer, planted, serial_links, site_links, tree_links};
ghost use Rattle.sat_wires.specs.Ways.{bulk_links, edge_links};

use crate::way::Way;
use crate::ways::Ways;
use sat_act::{Deployment, Plan};
use sat_label::NodeId;
use sat_tree::Tree;
use std::alloc::{AllocError, Global};

/// The site of this number among those other than one.
pub fn peer(site: u16, number: u16) -> u16
    requires { number + 1 < 2 ^ 16 }
    ensures { result ≡ peer site number }
{
    if number < site { number } else { number + 1 }
}

// The serializer that a site sits at, 0 where the tree doesn't seat it.
#[tactic(auto, unfolding(sat_tree::specs::Cut::seat_of))]
fn seat(tree: &Tree, site: u16) -> u16
    ensures { result ≡ seat_of tree.now site }
{
    if site < tree.sites() {
        tree.seat(site)
    } else {
        0
    }
}

// From a site to so many others.
#[tactic(auto, using(crate::proofs::Places::bulk_more))]
fn add_bulk(ways: &mut Ways, site: u16, count: u16) -> Result<(), AllocError>
    ensures { OnOk result (ways.new ≡ ways.old ++ bulk_links site count) }
{
    for number in 0..count {
        let to = peer(site, number);
        ways.push(Way::Bulk { from: site, to })?;
    }
    Ok(())
}

// From a site into the trees of these plans, the first of which is that of this epoch.
fn add_edges(ways: &mut Ways, site: u16, epoch: u16, plans: &[Plan]) -> Result<(), AllocError>
    requires { epoch + length plans.now < 2 ^ 16 }
    ensures { OnOk result (ways.new ≡ ways.old ++ edge_links site (planted epoch plans.now)) }
{
    let Some((plan, rest)) = plans.split_first() else {
        return Ok(());
    };
    match plan {
        Plan::Stamp => add_edges(ways, site, epoch + 1, rest),
        Plan::Tree(tree) => {
            let from = NodeId::Site(site);
            let to = NodeId::Serializer(seat(tree, site));
            ways.push(Way::Edge { epoch, from, to })?;
            add_edges(ways, site, epoch + 1, rest)
        }
    }
}

// From a site to the others, and into all trees.
#[tactic(auto, using(crate::proofs::Places::few_epochs))]
fn add_site(ways: &mut Ways, d: &Deployment, site: u16) -> Result<(), AllocError>
    ensures { OnOk result (ways.new ≡ ways.old ++ site_links d.now site) }
{
    add_bulk(ways, site, d.sites() - 1)?;
    add_edges(ways, site, 1, d.plans())
}

// From a serializer to its neighbours.
fn add_serial(ways: &mut Ways, epoch: u16, tree: &Tree, number: u16) -> Result<(), AllocError>
    requires { number < length tree.now.parents }
    ensures { OnOk result (ways.new ≡ ways.old ++ serial_links (record { epoch = epoch; tree = tree.now }) number) }
{
    let from = NodeId::Serializer(number);
    for node in tree.neighbours(number) {
        ways.push(Way::Edge {
            epoch,
            from,
            to: *node,
        })?;
    }
    Ok(())
}

// From all serializers of a tree.
#[tactic(auto, using(crate::proofs::Places::serials_more))]
fn add_tree(ways: &mut Ways, epoch: u16, tree: &Tree) -> Result<(), AllocError>
    ensures { OnOk result (ways.new ≡ ways.old ++ tree_links (record { epoch = epoch; tree = tree.now })) }
{
    for number in 0..tree.serializers() {
        add_serial(ways, epoch, tree, number)?;
    }
    Ok(())
}

// From all serializers of the trees of these plans, the first of which is that of this epoch.
fn add_trees(ways: &mut Ways, epoch: u16, plans: &[Plan]) -> Result<(), AllocError>
    requires { epoch + length plans.now < 2 ^ 16 }
    ensures { OnOk result (ways.new ≡ ways.old ++ flat_map tree_links (planted epoch plans.now)) }
{
    let Some((plan, rest)) = plans.split_first() else {
        return Ok(());
    };
    match plan {
        Plan::Stamp => add_trees(ways, epoch + 1, rest),
        Plan::Tree(tree) => {
            add_tree(ways, epoch, tree)?;
            add_trees(ways, epoch + 1, rest)
        }
    }
}

#[tactic(auto, using(crate::proofs::Places::sites_more))]
fn add_sites(ways: &mut Ways, d: &Deployment) -> Result<(), AllocError>
    ensures { OnOk result (ways.new ≡ ways.old ++ flat_map (site_links d.now) (below d.now.sites)) }
{
    for site in 0..d.sites() {
        add_site(ways, d, site)?;
    }
    Ok(())
}

/// The ways of the links out of a site, in the order of its ends.
pub fn site_ways(alloc: Global, d: &Deployment, site: u16) -> Result<Ways, AllocError>
    ensures { IfOk result (λ ways. ways ≡ site_links d.now site) }
{
    let mut ways = Ways::new(alloc);
    add_site(&mut ways, d, site)?;
    Ok(ways)
}

/// The ways of the links out of a serializer, in the order of its ends.
pub fn serial_ways(alloc: Global, epoch: u16, tree: &Tree, number: u16) -> Result<Ways, AllocError>
    requires { number < length tree.now.parents }
    ensures { IfOk result (λ ways. ways ≡ serial_links (record { epoch = epoch; tree = tree.now }) number) }
{
    let mut ways = Ways::new(alloc);
    add_serial(&mut ways, epoch, tree, number)?;
    Ok(ways)
}

/// The ways of all links, in the order of the nodes that they lead out of.
#[tactic(auto, using(crate::proofs::Places::few_epochs))]
pub fn all_ways(alloc: Global, d: &Deployment) -> Result<Ways, AllocError>
    ensures { IfOk result (λ ways. ways ≡ all_links d.now) }
{
    let mut ways = Ways::new(alloc);
    add_sites(&mut ways, d)?;
    add_trees(&mut ways, 1, d.plans())?;
    Ok(ways)
}
