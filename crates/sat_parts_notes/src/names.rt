//! Whether opened nodes are all nodes of a deployment in order, and whether no session is there twice.
ghost use Rattle.std.specs.Prelude.{◌≡◌, ◌<◌, ◌+◌, ◌++◌, true, length, map, IfOk, OnOk};
ghost use Rattle.std.specs.List.{flat_map};
ghost use Rattle.sat_label.specs.declared.node.NodeName.TheVariants as named;
ghost use Rattle.sat_label.specs.Words.{below};
ghost use Rattle.sat_machines.specs.Layout.{planted};
ghost use Rattle.sat_opened.specs.Opened.{name_in, tree_names, serial_names};
ghost use Rattle.sat_session.specs.Sessions.{AreSessions};
ghost use Rattle.sat_parts.specs.Layout.{gear_names, site_gears};
ghost use Rattle.sat_parts_notes.specs.Naming.{AreNamed, plan_names};
ghost use Rattle.sat_act.specs.Limits.{IsDeployment};

use sat_act::{Deployment, Plan};
use sat_label::NodeName;
use sat_machines::{Laid, SerialNode};
use sat_node::{Held, Machine, Names};
use sat_parts::{GearNode, HubNode};
use sat_session::Session;
use std::alloc::{AllocError, Global};

/// Ok where these are all nodes of a deployment, each once and in order. No cluster has others.
pub fn check_names<N: Laid, W: Names>(
    alloc: Global,
    d: &Deployment,
    hubs: &[Held<HubNode<N>, W>],
    gears: &[Held<GearNode<N>, W>],
    serials: &[Held<SerialNode<N>, W>],
) -> Result<(), AllocError>
    requires { N.deployment ≡ d.now }
    ensures named { OnOk result (AreNamed N.deployment hubs.now gears.now serials.now) }
    ensures limits { OnOk result (IsDeployment N.deployment) }
{
    let of_hubs = hub_names(alloc, d)?;
    let of_gears = gear_names(alloc, d)?;
    let of_serials = serial_names(alloc, d)?;
    are_all(hubs, of_hubs.as_slice())?;
    are_all(gears, of_gears.as_slice())?;
    are_all(serials, of_serials.as_slice())?;
    Ok(())
}

// The names of all hubs, in order.
fn hub_names(alloc: Global, d: &Deployment) -> Result<Vec<NodeName>, AllocError>
    ensures names { IfOk result (λ names. names.items ≡ map named.Site (below d.now.sites)) }
    ensures limits { IsDeployment d.now }
{
    let mut names = Vec::new(alloc);
    for site in 0..d.sites() {
        names.push(NodeName::Site(site))?;
    }
    Ok(names)
}

// The names of all gears, site by site, in order.
fn gear_names(alloc: Global, d: &Deployment) -> Result<Vec<NodeName>, AllocError>
    ensures { IfOk result (λ names. names.items ≡ gear_names d.now) }
{
    let mut names = Vec::new(alloc);
    let gears = d.gears();
    for site in 0..d.sites() {
        add_site(&mut names, site, gears)?;
    }
    Ok(names)
}

fn add_site(names: &mut Vec<NodeName>, site: u16, gears: u16) -> Result<(), AllocError>
    ensures { OnOk result (names.new.items ≡ names.old.items ++ site_gears gears site) }
{
    for gear in 0..gears {
        names.push(NodeName::Gear { site, gear })?;
    }
    Ok(())
}

// The names of all serializers, tree by tree, in order.
fn serial_names(alloc: Global, d: &Deployment) -> Result<Vec<NodeName>, AllocError>
    ensures { IfOk result (λ names. names.items ≡ serial_names d.now) }
{
    let mut names = Vec::new(alloc);
    add_trees(&mut names, 1, d.plans())?;
    Ok(names)
}

fn add_trees(names: &mut Vec<NodeName>, epoch: u16, plans: &[Plan]) -> Result<(), AllocError>
    requires { epoch + length plans.now < 65536 }
    ensures { OnOk result (names.new.items ≡ names.old.items ++ flat_map tree_names (planted epoch plans.now)) }
{
    let Some((plan, rest)) = plans.split_first() else {
        return Ok(());
    };
    add_plan(names, epoch, plan)?;
    add_trees(names, epoch + 1, rest)?;
    Ok(())
}

fn add_plan(names: &mut Vec<NodeName>, epoch: u16, plan: &Plan) -> Result<(), AllocError>
    ensures { OnOk result (names.new.items ≡ names.old.items ++ plan_names epoch plan.now) }
{
    match plan {
        Plan::Stamp => Ok(()),
        Plan::Tree(tree) => {
            add_tree(names, epoch, tree.serializers())?;
            Ok(())
        }
    }
}

fn add_tree(names: &mut Vec<NodeName>, epoch: u16, count: u16) -> Result<(), AllocError>
    ensures { OnOk result (names.new.items ≡ names.old.items ++ map (named.Serializer epoch) (below count)) }
{
    for number in 0..count {
        names.push(NodeName::Serializer { epoch, number })?;
    }
    Ok(())
}

// Whether these nodes have these names, in their order.
fn are_named<M: Machine, W: Names>(nodes: &[Held<M, W>], names: &[NodeName]) -> bool
    ensures { result ≡ true → map name_in nodes.now ≡ names.now }
{
    if nodes.len() != names.len() {
        return false;
    }
    for (place, held) in nodes.iter().enumerate() {
        if !names[place].is_same(&held.node().name()) {
            return false;
        }
    }
    true
}

// Ok where they have.
fn are_all<M: Machine, W: Names>(nodes: &[Held<M, W>], names: &[NodeName]) -> Result<(), AllocError>
    ensures { OnOk result (map name_in nodes.now ≡ names.now) }
{
    if are_named(nodes, names) {
        return Ok(());
    }
    Err(AllocError)
}

/// Ok where no two sessions have the same number. No cluster gives one twice.
pub fn check_sessions<N: Laid>(
    alloc: Global,
    d: &Deployment,
    sessions: &[Session<N>],
) -> Result<(), AllocError>
    requires { N.deployment ≡ d.now }
    ensures { OnOk result (AreSessions N.deployment sessions.now) }
{
    let mut given = vec![in alloc; false; d.clients().len() + 1]?;
    for session in sessions {
        let number = session.number() as usize;
        if given[number] {
            return Err(AllocError);
        }
        given[number] = true;
    }
    Ok(())
}
