//! All hosts of a deployment.
ghost use Rattle.std.specs.Prelude.{◌≡◌, ◌<◌, ◌+◌, ◌-◌, ◌^◌, ◌++◌, [], length, drop, map, IfOk, OnOk, Some};
ghost use Rattle.std.specs.List.{flat_map};
ghost use Rattle.sat_label.specs.Words.{below};
ghost use Rattle.sat_label.specs.declared.node.NodeName.TheVariants.{Serializer as AtSerializer, Site as AtSite};
ghost use Rattle.sat_act.specs.Limits.{IsDeployment};
ghost use Rattle.sat_act.specs.Parts.{tree_of};
ghost use Rattle.sat_node.specs.Links.{Each};
ghost use Rattle.sat_machines.specs.Layout.{planted};
ghost use Rattle.sat_machines.specs.Serials.{serial_meaning};
ghost use Rattle.sat_machines.specs.Sites.{site_meaning};
ghost use Rattle.sat_opened.specs.Opened.{serial_names, tree_names};
ghost use Rattle.sat_host_laws.specs.Messages.{AllKept, IsKept, host_name};
ghost use Rattle.sat_host.specs.Fresh.{AllNew, IsNew};

use crate::host::Host;
use sat_act::{Deployment, Plan};
use sat_label::NodeName;
use sat_machines::{Laid, SerialNode, SiteNode};
use sat_node::{Machine, Node};
use sat_tree::Tree;
use std::alloc::{AllocError, Global};

/// A host for each site of a deployment, in order, and for each serializer, tree by tree. A process of a store takes
/// out the one that it is; a program for tests keeps all.
#[derive(Drop)]
pub struct Hosts<N: Laid> {
    pub sites: Vec<Host<SiteNode<N>>>,
    pub serials: Vec<Host<SerialNode<N>>>,
}

/// The host of a site, at which nothing happened.
#[tactic(auto, using(crate::proofs::Growing::is_new))]
pub fn site_host<N: Laid>(
    alloc: Global,
    d: &Deployment,
    site: u16,
) -> Result<Host<SiteNode<N>>, AllocError>
    requires deployment { N.deployment ≡ d.now }
    requires site { site < d.now.sites }
    ensures name { IfOk result (λ host. host_name host ≡ AtSite site) }
    ensures fresh { IfOk result (λ host. IsNew (site_meaning N.deployment) host) }
{
    let machine = SiteNode::new(alloc, d, site)?;
    let node = Node::new(alloc, NodeName::Site(site), machine);
    let host = Host::new(alloc, node);
    look(&host);
    Ok(host)
}

/// The host of a serializer of the tree of an epoch, at which nothing happened.
#[tactic(auto, using(crate::proofs::Growing::is_new))]
pub fn serializer_host<N: Laid>(
    alloc: Global,
    d: &Deployment,
    epoch: u16,
    tree: &Tree,
    number: u16,
) -> Result<Host<SerialNode<N>>, AllocError>
    requires deployment { N.deployment ≡ d.now }
    requires tree { tree_of d.now epoch ≡ Some tree.now }
    requires number { number < length tree.now.parents }
    ensures name { IfOk result (λ host. host_name host ≡ AtSerializer epoch number) }
    ensures fresh { IfOk result (λ host. IsNew (serial_meaning N.deployment) host) }
{
    let machine = SerialNode::new(alloc, d, epoch, tree, number)?;
    let name = NodeName::Serializer { epoch, number };
    let node = Node::new(alloc, name, machine);
    let host = Host::new(alloc, node);
    look(&host);
    Ok(host)
}

// All sites, in order.
#[tactic(auto, using(crate::proofs::Growing::none_new))]
fn make_sites<N: Laid>(alloc: Global, d: &Deployment) -> Result<Vec<Host<SiteNode<N>>>, AllocError>
    requires deployment { N.deployment ≡ d.now }
    ensures names { IfOk result (λ sites. map host_name sites.items ≡ map AtSite (below d.now.sites)) }
    ensures fresh { IfOk result (λ sites. AllNew (site_meaning N.deployment) sites.items) }
{
    let mut sites = Vec::new(alloc);
    for site in 0..d.sites() {
        let host = site_host(alloc, d, site)?;
        sites.push(host)?;
    }
    Ok(sites)
}

// All serializers of the tree of an epoch, behind those that there are.
#[tactic(auto, using(crate::proofs::Growing::serials_start))]
fn add_tree<N: Laid>(
    serials: &mut Vec<Host<SerialNode<N>>>,
    alloc: Global,
    d: &Deployment,
    epoch: u16,
    tree: &Tree,
) -> Result<(), AllocError>
    requires deployment { N.deployment ≡ d.now }
    requires tree { tree_of d.now epoch ≡ Some tree.now }
    requires fresh { AllNew (serial_meaning N.deployment) serials.old.items }
    ensures names { OnOk result (map host_name serials.new.items ≡ map host_name serials.old.items
        ++ tree_names (record { epoch = epoch; tree = tree.now })) }
    ensures fresh { OnOk result (AllNew (serial_meaning N.deployment) serials.new.items) }
{
    for number in 0..tree.serializers() {
        let host = serializer_host(alloc, d, epoch, tree, number)?;
        serials.push(host)?;
    }
    Ok(())
}

// All serializers of the trees of these plans, the last of the deployment's, the first of which is that of this epoch.
#[tactic(auto, using(crate::proofs::Growing::plan_here, crate::proofs::Growing::plans_left))]
fn add_trees<N: Laid>(
    serials: &mut Vec<Host<SerialNode<N>>>,
    alloc: Global,
    d: &Deployment,
    epoch: u16,
    plans: &[Plan],
) -> Result<(), AllocError>
    requires deployment { N.deployment ≡ d.now }
    requires epochs { (0 < epoch) × (epoch + length plans.now < 2 ^ 16) }
    requires plans { drop (epoch - 1) d.now.plans ≡ plans.now }
    requires fresh { AllNew (serial_meaning N.deployment) serials.old.items }
    ensures names { OnOk result (map host_name serials.new.items ≡ map host_name serials.old.items
        ++ flat_map tree_names (planted epoch plans.now)) }
    ensures fresh { OnOk result (AllNew (serial_meaning N.deployment) serials.new.items) }
{
    let Some((plan, rest)) = plans.split_first() else {
        return Ok(());
    };
    match plan {
        Plan::Stamp => add_trees(serials, alloc, d, epoch + 1, rest),
        Plan::Tree(tree) => {
            add_tree(serials, alloc, d, epoch, tree)?;
            add_trees(serials, alloc, d, epoch + 1, rest)
        }
    }
}

impl<N: Laid> Hosts<N> {
    /// Makes all hosts of N's deployment, each once and in order, at which nothing happened.
    #[tactic(auto, using(crate::proofs::Growing::few_epochs))]
    pub fn new(alloc: Global, d: &Deployment) -> Result<Hosts<N>, AllocError>
        requires { N.deployment ≡ d.now }
        ensures sites { IfOk result (λ all. map host_name all.sites.items ≡ map AtSite (below N.deployment.sites)) }
        ensures serials { IfOk result (λ all. map host_name all.serials.items ≡ serial_names N.deployment) }
        ensures fresh { IfOk result (λ all. AllNew (site_meaning N.deployment) all.sites.items
            × AllNew (serial_meaning N.deployment) all.serials.items) }
    {
        let sites = make_sites(alloc, d)?;
        let mut serials = Vec::new(alloc);
        add_trees(&mut serials, alloc, d, 1, d.plans())?;
        Ok(Hosts { sites, serials })
    }

    /// Lets all hosts go, with their journals.
    pub fn let_go(self) {}
}

/// What all hosts of a deployment keep true at any time, whatever they were handed: the first premise of the laws on
/// stores. It asks for a host of each site and of each serializer, once and in order, as `Hosts::new` makes them; no
/// call changes a name.
pub fn hosts_keep<N: Laid>(sites: &[Host<SiteNode<N>>], serials: &[Host<SerialNode<N>>])
    requires sites { map host_name sites.now ≡ map AtSite (below N.deployment.sites) }
    requires serials { map host_name serials.now ≡ serial_names N.deployment }
    ensures { AllKept N.deployment sites.now serials.now }
{
    look_all(sites);
    look_all(serials);
}

// What each of these hosts keeps.
fn look_all<M: Machine>(hosts: &[Host<M>])
    ensures { Each hosts.now (λ _ h. IsKept M.meaning h) }
{
    for host in hosts {
        look(host);
    }
}

// What a host keeps.
fn look<M: Machine>(host: &Host<M>)
    ensures { IsKept M.meaning host.now }
{
    let _ = host.node();
}
