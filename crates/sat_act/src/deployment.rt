//! Deployments: what a script's header says.
ghost use Rattle.std.specs.Prelude.{◌≡◌, IfOk, IsOk, MatchOption, IsErrOf};

use crate::DeploymentFault;
use crate::checks::flaw_of;
use sat_label::{Name, SiteSet};
use sat_tree::Tree;
use std::alloc::{AllocError, Global};
use std::marker::Model;

/// An item: its name, and the sites that keep it.
#[derive(Drop)]
pub struct Item {
    pub name: Name,
    pub replicas: SiteSet,
}

impl Item {
    /// The same item again.
    pub fn copy(&self) -> Result<Self, AllocError>
        ensures { IfOk result (λ item. item ≡ self.now) }
    {
        let name = self.name.copy()?;
        Ok(Item {
            name,
            replicas: self.replicas,
        })
    }
}

/// A client: its name, and the site that it is seated at in the beginning.
#[derive(Drop)]
pub struct ClientLine {
    pub name: Name,
    pub site: u16,
}

impl ClientLine {
    /// The same client again.
    pub fn copy(&self) -> Result<Self, AllocError>
        ensures { IfOk result (λ client. client ≡ self.now) }
    {
        let name = self.name.copy()?;
        Ok(ClientLine {
            name,
            site: self.site,
        })
    }
}

/// The plan of an epoch: by timestamp order alone, or by a tree.
#[derive(Drop)]
pub enum Plan {
    Stamp,
    Tree(Tree),
}

impl Plan {
    /// The same plan again.
    pub fn copy(&self) -> Result<Self, AllocError>
        ensures { IfOk result (λ plan. plan ≡ self.now) }
    {
        match self {
            Plan::Stamp => Ok(Plan::Stamp),
            Plan::Tree(tree) => {
                let tree = tree.copy()?;
                Ok(Plan::Tree(tree))
            }
        }
    }
}

fn copy_items(alloc: Global, items: &[Item]) -> Result<Vec<Item>, AllocError>
    ensures { IfOk result (λ copy. copy.items ≡ items.now) }
{
    let mut copy = Vec::new(alloc);
    for item in items {
        copy.push(item.copy()?)?;
    }
    Ok(copy)
}

fn copy_clients(alloc: Global, clients: &[ClientLine]) -> Result<Vec<ClientLine>, AllocError>
    ensures { IfOk result (λ copy. copy.items ≡ clients.now) }
{
    let mut copy = Vec::new(alloc);
    for client in clients {
        copy.push(client.copy()?)?;
    }
    Ok(copy)
}

fn copy_plans(alloc: Global, plans: &[Plan]) -> Result<Vec<Plan>, AllocError>
    ensures { IfOk result (λ copy. copy.items ≡ plans.now) }
{
    let mut copy = Vec::new(alloc);
    for plan in plans {
        copy.push(plan.copy()?)?;
    }
    Ok(copy)
}

/// A deployment within its limits.
#[derive(Drop)]
pub struct Deployment {
    format: u16,
    sites: u16,
    gears: u16,
    items: Vec<Item>,
    clients: Vec<ClientLine>,
    plans: Vec<Plan>,
}

impl Model for Deployment {
    ghost use Rattle.sat_act.specs.Deployed.{Deployed};

    ghost Value = { Deployed };

    ghost use Rattle.sat_act.specs.Limits.{IsDeployment};

    ghost view = { λ a. record {
      format = a.format;
      sites = a.sites;
      gears = a.gears;
      items = a.items.items;
      clients = a.clients.items;
      plans = a.plans.items;
    } };

    ghost invariant = { λ a.
        IsDeployment
        (record {
          format = a.format;
          sites = a.sites;
          gears = a.gears;
          items = a.items.items;
          clients = a.clients.items;
          plans = a.plans.items;
        }) };
}

impl Deployment {
    ghost use Rattle.sat_act.specs.Limits.{IsDeployment};
    ghost use Rattle.sat_act.specs.Flaw.{flaw};

    /// A deployment of format 1 or 2: 1 to 16 sites and at most 4,096 items, or 1 to 64 sites and at most 65,535 items;
    /// 1 to 8 gears at each site, at most 1,024 clients, and the plans of 1 to 16 epochs. Its faults say what is wrong,
    /// the sizes first and of these the format first, then the items, the clients and the plans, each in order. For
    /// want of memory it compares names pair by pair, which takes none, so it never answers `Memory`.
    pub fn new(
        alloc: Global,
        format: u16,
        sites: u16,
        gears: u16,
        items: Vec<Item>,
        clients: Vec<ClientLine>,
        plans: Vec<Plan>,
    ) -> Result<Self, DeploymentFault>
        ensures deployment { IfOk result
            (λ d. d
            ≡ record {
              format = format;
              sites = sites;
              gears = gears;
              items = items.items;
              clients = clients.items;
              plans = plans.items;
            }) }
        ensures fault { MatchOption
            (flaw
            (record {
              format = format;
              sites = sites;
              gears = gears;
              items = items.items;
              clients = clients.items;
              plans = plans.items;
            }))
            (IsOk result)
            (λ fault. IsErrOf result fault) }
    {
        match flaw_of(alloc, format, sites, gears, &items, &clients, &plans) {
            Some(fault) => Err(fault),
            None => Ok(Deployment {
                format,
                sites,
                gears,
                items,
                clients,
                plans,
            }),
        }
    }

    /// The format of its scripts, 1 or 2.
    pub fn format(&self) -> u16
        ensures format { result ≡ self.now.format }
        ensures limits { IsDeployment self.now }
    {
        self.format
    }

    /// The number of sites.
    pub fn sites(&self) -> u16
        ensures sites { result ≡ self.now.sites }
        ensures limits { IsDeployment self.now }
    {
        self.sites
    }

    /// The number of gears of each site.
    pub fn gears(&self) -> u16
        ensures gears { result ≡ self.now.gears }
        ensures limits { IsDeployment self.now }
    {
        self.gears
    }

    /// The items, in header order.
    pub fn items(&self) -> &[Item]
        ensures items { result.now ≡ self.now.items }
        ensures limits { IsDeployment self.now }
    {
        self.items.as_slice()
    }

    /// The clients, in header order.
    pub fn clients(&self) -> &[ClientLine]
        ensures clients { result.now ≡ self.now.clients }
        ensures limits { IsDeployment self.now }
    {
        self.clients.as_slice()
    }

    /// The plans of the epochs 1, 2 and so on.
    pub fn plans(&self) -> &[Plan]
        ensures plans { result.now ≡ self.now.plans }
        ensures limits { IsDeployment self.now }
    {
        self.plans.as_slice()
    }

    /// The same deployment again.
    pub fn copy(&self) -> Result<Self, AllocError>
        ensures copy { IfOk result (λ d. d ≡ self.now) }
        ensures limits { IsDeployment self.now }
    {
        let alloc = *self.items.allocator();
        let items = copy_items(alloc, self.items.as_slice())?;
        let clients = copy_clients(alloc, self.clients.as_slice())?;
        let plans = copy_plans(alloc, self.plans.as_slice())?;
        Ok(Deployment {
            format: self.format,
            sites: self.sites,
            gears: self.gears,
            items,
            clients,
            plans,
        })
    }
}
