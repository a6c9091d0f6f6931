//! A header as far as it has come, and the deployment that it becomes.
ghost use Rattle.std.specs.Prelude.{◌≡◌, ◌≤◌, ◌<◌, ◌++◌, [], ◌∷◌, false, length, option_copied, OnOk, OnErr, None};
ghost use Rattle.std.specs.Prelude.{Some};
ghost use Rattle.sat_act.specs.Flaw.{flaw};
ghost use Rattle.sat_act.specs.Parts.{tree_of};
ghost use Rattle.sat_script.specs.State.{no_header, header_lines};
ghost use Rattle.sat_script.specs.Causes.{client_of, item_of, has_client, has_item};

use crate::limits::{MOST_CLIENTS, MOST_ITEMS, MOST_PLANS};
use crate::names::Names;
use sat_act::{ClientLine, Deployment, Item, Plan};
use sat_tree::Tree;
use std::alloc::{AllocError, Global};
use std::marker::Model;
use std::mem;

/// A header as far as it has come. Its items, clients and plans move into its deployment, once it is whole.
#[derive(Drop)]
pub struct Header {
    format: u16,
    sites: u16,
    gears: u16,
    items: Vec<Item>,
    clients: Vec<ClientLine>,
    plans: Vec<Plan>,
    // The names of the items and of the clients, for looking them up.
    item_names: Names,
    client_names: Names,
    // The deployment, once the header is whole. The items, clients and plans are in it then.
    whole: Option<Deployment>,
}

impl Model for Header {
    ghost use Rattle.sat_script.specs.Header.{HeaderSeen, said_by};
    ghost use Rattle.sat_script.specs.Names.{AreNamed};

    ghost Value = { HeaderSeen };

    ghost view = { λ h.
        record {
          said = said_by h.whole (record {
            format = h.format;
            sites = h.sites;
            gears = h.gears;
            items = h.items.items;
            clients = h.clients.items;
            plans = h.plans.items;
          });
          whole = h.whole;
        } };

    ghost invariant = { λ h.
        AreNamed
        (said_by h.whole
        (record {
          format = h.format;
          sites = h.sites;
          gears = h.gears;
          items = h.items.items;
          clients = h.clients.items;
          plans = h.plans.items;
        })) h.format h.sites h.gears h.item_names h.client_names };
}

impl Header {
    /// A header of which nothing has come.
    pub fn new(alloc: Global) -> Header
        ensures { result ≡ record { said = no_header; whole = None } }
    {
        Header {
            format: 1,
            sites: 0,
            gears: 0,
            items: Vec::new(alloc),
            clients: Vec::new(alloc),
            plans: Vec::new(alloc),
            item_names: Names::new(alloc),
            client_names: Names::new(alloc),
            whole: None,
        }
    }

    /// The format, and until its line has come 1.
    #[inline(always)]
    pub fn format(&self) -> u16
        ensures { result ≡ self.now.said.format }
    {
        self.format
    }

    /// The number of sites.
    pub fn sites(&self) -> u16
        ensures { result ≡ self.now.said.sites }
    {
        self.sites
    }

    /// The number of gears.
    pub fn gears(&self) -> u16
        ensures { result ≡ self.now.said.gears }
    {
        self.gears
    }

    // The items, in their order.
    fn item_list(&self) -> &[Item]
        ensures list { result.now ≡ self.now.said.items }
        ensures few { length result.now ≤ MOST_ITEMS }
    {
        match &self.whole {
            Some(deployment) => deployment.items(),
            None => self.items.as_slice(),
        }
    }

    // The clients, in their order.
    fn client_list(&self) -> &[ClientLine]
        ensures list { result.now ≡ self.now.said.clients }
        ensures few { length result.now ≤ MOST_CLIENTS }
    {
        match &self.whole {
            Some(deployment) => deployment.clients(),
            None => self.clients.as_slice(),
        }
    }

    // The plans, in their order.
    #[inline(always)]
    fn plan_list(&self) -> &[Plan]
        ensures list { result.now ≡ self.now.said.plans }
        ensures few { length result.now ≤ MOST_PLANS }
    {
        match &self.whole {
            Some(deployment) => deployment.plans(),
            None => self.plans.as_slice(),
        }
    }

    /// The number of items.
    pub fn items(&self) -> usize
        ensures { result ≡ length self.now.said.items }
    {
        self.item_list().len()
    }

    /// The number of clients.
    pub fn clients(&self) -> u16
        ensures { result ≡ length self.now.said.clients }
    {
        self.client_list().len() as u16
    }

    /// The number of plans.
    pub fn plans(&self) -> u16
        ensures { result ≡ length self.now.said.plans }
    {
        self.plan_list().len() as u16
    }

    /// The number of lines of items, clients and plans.
    pub fn lines(&self) -> u64
        ensures lines { result ≡ header_lines self.now.said }
        ensures few { result ≤ 66575 }
    {
        self.item_list().len() as u64
            + self.client_list().len() as u64
            + self.plan_list().len() as u64
    }

    /// The tree of an epoch, from 1, where it has one.
    #[tactic(auto, unfolding(sat_act::specs::Parts::tree_of))]
    pub fn tree(&self, epoch: u16) -> Option<&Tree>
        ensures { option_copied result ≡ tree_of self.now.said epoch }
    {
        if epoch == 0 {
            return None;
        }
        match self.plan_list().get(usize::from(epoch - 1)) {
            Some(Plan::Tree(tree)) => Some(tree),
            Some(Plan::Stamp) => None,
            None => None,
        }
    }

    /// The number of the client with a name.
    #[tactic(auto, unfolding(crate::specs::Causes::client_of))]
    pub fn client_of(&self, name: &[u8]) -> Option<u16>
        ensures { result ≡ client_of self.now.said name.now }
    {
        Some(self.client_names.place_of(name)? as u16)
    }

    /// The number of the item with a name.
    #[tactic(auto, unfolding(crate::specs::Causes::item_of))]
    pub fn item_of(&self, name: &[u8]) -> Option<u16>
        ensures { result ≡ item_of self.now.said name.now }
    {
        Some(self.item_names.place_of(name)? as u16)
    }

    /// Whether a client has this name.
    #[tactic(auto, unfolding(crate::specs::Causes::has_client))]
    pub fn has_client(&self, name: &[u8]) -> bool
        ensures { result ≡ has_client self.now.said name.now }
    {
        self.client_names.has(name)
    }

    /// Whether an item has this name.
    #[tactic(auto, unfolding(crate::specs::Causes::has_item))]
    pub fn has_item(&self, name: &[u8]) -> bool
        ensures { result ≡ has_item self.now.said name.now }
    {
        self.item_names.has(name)
    }

    /// Takes the line of the format.
    pub fn set_format(&mut self, format: u16)
        requires open { self.old.whole ≡ None }
        ensures { self.new ≡ record self.old { said = record self.old.said { format = format } } }
    {
        self.format = format;
    }

    /// Takes the line of the sites.
    pub fn set_sites(&mut self, sites: u16)
        requires open { self.old.whole ≡ None }
        ensures { self.new ≡ record self.old { said = record self.old.said { sites = sites } } }
    {
        self.sites = sites;
    }

    /// Takes the line of the gears.
    pub fn set_gears(&mut self, gears: u16)
        requires open { self.old.whole ≡ None }
        ensures { self.new ≡ record self.old { said = record self.old.said { gears = gears } } }
    {
        self.gears = gears;
    }

    /// Takes an item with a name of its own. For want of memory the header is as before.
    pub fn add_item(&mut self, alloc: Global, item: Item) -> Result<(), AllocError>
        requires open { self.old.whole ≡ None }
        requires few { length self.old.said.items < MOST_ITEMS }
        requires new { has_item self.old.said item.name ≡ false }
        ensures ok { OnOk result
            (self.new ≡ record self.old { said = record self.old.said { items = self.old.said.items ++ item ∷ [] } }) }
        ensures err { OnErr result (self.new ≡ self.old) }
    {
        self.items.reserve(1)?;
        self.item_names.add(alloc, item.name.bytes())?;
        self.items.push(item)?;
        Ok(())
    }

    /// Takes a client with a name of its own. For want of memory the header is as before.
    pub fn add_client(&mut self, alloc: Global, line: ClientLine) -> Result<(), AllocError>
        requires open { self.old.whole ≡ None }
        requires few { length self.old.said.clients < MOST_CLIENTS }
        requires new { has_client self.old.said line.name ≡ false }
        ensures ok { OnOk result (self.new
            ≡ record self.old { said = record self.old.said { clients = self.old.said.clients ++ line ∷ [] } }) }
        ensures err { OnErr result (self.new ≡ self.old) }
    {
        self.clients.reserve(1)?;
        self.client_names.add(alloc, line.name.bytes())?;
        self.clients.push(line)?;
        Ok(())
    }

    /// Takes a plan. For want of memory the header is as before.
    pub fn add_plan(&mut self, plan: Plan) -> Result<(), AllocError>
        requires open { self.old.whole ≡ None }
        requires few { length self.old.said.plans < MOST_PLANS }
        ensures ok { OnOk result
            (self.new ≡ record self.old { said = record self.old.said { plans = self.old.said.plans ++ plan ∷ [] } }) }
        ensures err { OnErr result (self.new ≡ self.old) }
    {
        self.plans.push(plan)?;
        Ok(())
    }

    /// Makes the whole header a deployment, which is kept from now on. Nothing is copied, and it takes no memory.
    pub fn begin(&mut self, alloc: Global)
        requires flawless { flaw self.old.said ≡ None }
        requires open { self.old.whole ≡ None }
        ensures { self.new ≡ record { said = self.old.said; whole = Some self.old.said } }
    {
        let items = mem::replace(&mut self.items, Vec::new(alloc));
        let clients = mem::replace(&mut self.clients, Vec::new(alloc));
        let plans = mem::replace(&mut self.plans, Vec::new(alloc));
        match Deployment::new(
            alloc,
            self.format,
            self.sites,
            self.gears,
            items,
            clients,
            plans,
        ) {
            Ok(deployment) => self.whole = Some(deployment),
            Err(_) => unreachable!(),
        }
    }

    /// The deployment, once the header is whole.
    pub fn deployment(&self) -> &Option<Deployment>
        ensures { result.now ≡ self.now.whole }
    {
        &self.whole
    }

    /// The same, given away.
    pub fn into_deployment(self) -> Option<Deployment>
        ensures { result ≡ self.whole }
    {
        let Header { whole, .. } = self;
        whole
    }
}
