//! What sessions do at sites.
ghost use Rattle.std.specs.Prelude.{◌≡◌, ◌<◌, [], ◌∷◌, length, Some, None, IfOk};
ghost use Rattle.sat_label.specs.declared.items.Items.TheVariants.{One};
ghost use Rattle.sat_label.specs.declared.node.NodeName.{NodeName as Name};
ghost use Rattle.sat_act.specs.Done.{write_in};
ghost use Rattle.sat_site.specs.declared.input.SiteInput.TheVariants as given;
ghost use Rattle.sat_node.specs.Meanings.{replay};
ghost use Rattle.sat_machines.specs.Sites.{number_of, site_meaning};
ghost use Rattle.sat_session.specs.Calls.{AtNode, IsGroup, of_site, asked_by};
ghost use Rattle.sat_session.specs.Replies.{Asks, Looked};

use crate::answers::read_of;
use crate::nodes::is_at;
use crate::reply::OfSite;
use crate::{Lent, Session};
use sat_act::{Act, Answer};
use sat_label::{Items, NodeName, Value, Values};
use sat_machines::{Laid, SiteAct, SiteNode};
use sat_node::{CallFault, Part};
use sat_site::SiteInput;
use std::alloc::{AllocError, Global};

// What a read would answer, where that is a value. Its point is one of the deployment; else the answer is want of
// memory.
fn look<N: Laid, H: Lent<SiteNode<N>>>(held: &H, item: u16) -> Result<Option<Answer>, AllocError>
    requires { item < length N.deployment.items }
    ensures { IfOk result (λ spare. Looked N.deployment (number_of (H.node_of held.now).name)
        (replay (site_meaning N.deployment) (H.node_of held.now).name (H.node_of held.now).entries) item spare) }
{
    let machine = held.node().machine();
    let sites = machine.sites();
    let Some(version) = machine.site().version(item) else {
        return Ok(None);
    };
    let spare = read_of(version, sites)?;
    Ok(Some(spare))
}

/// The values of a write of one item: a copy of this one.
pub fn one_value(alloc: Global, value: &Value) -> Result<Values, AllocError>
    ensures { IfOk result (λ values. values ≡ value.now ∷ []) }
{
    let value = value.copy()?;
    Values::one(alloc, value)
}

impl<N: Laid> Session<N> {
    // Takes an act to the site at which it stands.
    fn at_site<H: Lent<SiteNode<N>>>(
        &mut self,
        held: &mut H,
        input: SiteAct<N>,
        act: Act,
        spare: Option<Answer>,
    ) -> Result<Answer, CallFault>
        requires { Asks N.deployment (site_meaning N.deployment) of_site self.old (H.node_of held.old) input act spare }
        ensures done { AtNode act input of_site result (H.node_of held.old) (H.node_of held.new) self.old self.new }
        ensures beside { H.beside held.new ≡ H.beside held.old }
    {
        let Ok(copy) = input.copy() else {
            return Err(CallFault::Memory);
        };
        self.at_node::<SiteNode<N>, OfSite, H>(held, Part { input, copy }, act, spare)
    }

    // Takes a write to the site where the client is seated, with the act that it is.
    fn take_write<H: Lent<SiteNode<N>>>(
        &mut self,
        held: &mut H,
        items: Items,
        values: Values,
        act: Act,
    ) -> Result<Answer, CallFault>
        requires client { self.old.number < length N.deployment.clients }
        requires act { write_in act ≡ Some (record { client = self.old.number; items = items; values = values }) }
        ensures done { AtNode act (asked_by (Some self.old.number) (given.Write self.old.client.carried items values))
            of_site result (H.node_of held.old) (H.node_of held.new) self.old self.new }
        ensures beside { H.beside held.new ≡ H.beside held.old }
    {
        let Some(seat) = self.client.seat else {
            return Err(CallFault::Memory);
        };
        if !is_at(held, NodeName::Site(seat)) {
            return Err(CallFault::Memory);
        }
        let input = SiteAct::of_client(
            self.number,
            SiteInput::Write {
                carried: self.client.carried,
                items,
                values,
            },
        );
        self.at_site(held, input, act, None)
    }

    /// Writes an item at the site where the client is seated. Where that is another site, the answer is `Memory`, as
    /// for want of memory;
    /// `Worn`, with the greatest u64, comes only where the session's number or the node's is that. After an error all
    /// is as before.
    pub fn write<H: Lent<SiteNode<N>>>(
        &mut self,
        held: &mut H,
        item: u16,
        value: &Value,
    ) -> Result<Answer, CallFault>
        requires client { self.old.number < length N.deployment.clients }
        requires item { item < length N.deployment.items }
        ensures done { AtNode (Act.Write self.old.number item value.now)
            (asked_by (Some self.old.number) (given.Write self.old.client.carried (One item) (value.now ∷ []))) of_site
            result (H.node_of held.old) (H.node_of held.new) self.old self.new }
        ensures beside { H.beside held.new ≡ H.beside held.old }
    {
        let Ok(values) = one_value(*self.noted.allocator(), value) else {
            return Err(CallFault::Memory);
        };
        let Ok(value) = value.copy() else {
            return Err(CallFault::Memory);
        };
        let act = Act::Write {
            client: self.number,
            item,
            value,
        };
        self.take_write(held, Items::One(item), values, act)
    }

    /// Writes several items under one label at the site where the client is seated. Errors come as in `write`.
    pub fn writes<H: Lent<SiteNode<N>>>(
        &mut self,
        held: &mut H,
        items: Items,
        values: &Values,
    ) -> Result<Answer, CallFault>
        requires client { self.old.number < length N.deployment.clients }
        requires group { IsGroup N.deployment items values.now }
        ensures done { AtNode (Act.Writes self.old.number items values.now)
            (asked_by (Some self.old.number) (given.Write self.old.client.carried items values.now)) of_site result
            (H.node_of held.old) (H.node_of held.new) self.old self.new }
        ensures beside { H.beside held.new ≡ H.beside held.old }
    {
        let Ok(first) = values.copy() else {
            return Err(CallFault::Memory);
        };
        let Ok(second) = values.copy() else {
            return Err(CallFault::Memory);
        };
        let act = Act::Writes {
            client: self.number,
            items,
            values: second,
        };
        self.take_write(held, items, first, act)
    }

    /// Reads an item at the site where the client is seated. Errors come as in `write`.
    pub fn read<H: Lent<SiteNode<N>>>(
        &mut self,
        held: &mut H,
        item: u16,
    ) -> Result<Answer, CallFault>
        requires client { self.old.number < length N.deployment.clients }
        requires item { item < length N.deployment.items }
        ensures done { AtNode (Act.Read self.old.number item)
            (asked_by (Some self.old.number) (given.Read self.old.client.carried item)) of_site result
            (H.node_of held.old) (H.node_of held.new) self.old self.new }
        ensures beside { H.beside held.new ≡ H.beside held.old }
    {
        let Some(seat) = self.client.seat else {
            return Err(CallFault::Memory);
        };
        if !is_at(held, NodeName::Site(seat)) {
            return Err(CallFault::Memory);
        }
        let Ok(spare) = look(held, item) else {
            return Err(CallFault::Memory);
        };
        let input = SiteAct::of_client(
            self.number,
            SiteInput::Read {
                carried: self.client.carried,
                item,
            },
        );
        let act = Act::Read {
            client: self.number,
            item,
        };
        self.at_site(held, input, act, spare)
    }

    /// Gives up the client's seat at its site, to go to another one. Errors come as in `write`.
    pub fn move_to<H: Lent<SiteNode<N>>>(
        &mut self,
        held: &mut H,
        site: u16,
    ) -> Result<Answer, CallFault>
        requires client { self.old.number < length N.deployment.clients }
        requires site { site < N.deployment.sites }
        ensures done { AtNode (Act.Move self.old.number site)
            (asked_by (Some self.old.number) (given.Move self.old.client.carried site)) of_site result
            (H.node_of held.old) (H.node_of held.new) self.old self.new }
        ensures beside { H.beside held.new ≡ H.beside held.old }
    {
        let Some(seat) = self.client.seat else {
            return Err(CallFault::Memory);
        };
        if !is_at(held, NodeName::Site(seat)) {
            return Err(CallFault::Memory);
        }
        let input = SiteAct::of_client(
            self.number,
            SiteInput::Move {
                carried: self.client.carried,
                to: site,
            },
        );
        let act = Act::Move {
            client: self.number,
            site,
        };
        self.at_site(held, input, act, None)
    }

    /// Asks a site for a seat. Where the client has one, or this is another site, the answer is `Memory`; errors come
    /// as in `write`.
    pub fn attach<H: Lent<SiteNode<N>>>(
        &mut self,
        held: &mut H,
        site: u16,
    ) -> Result<Answer, CallFault>
        requires client { self.old.number < length N.deployment.clients }
        requires site { site < N.deployment.sites }
        ensures done { AtNode (Act.Attach self.old.number site)
            (asked_by (Some self.old.number) (given.Attach self.old.client.carried)) of_site result (H.node_of held.old)
            (H.node_of held.new) self.old self.new }
        ensures beside { H.beside held.new ≡ H.beside held.old }
    {
        if self.client.seat.is_some() {
            return Err(CallFault::Memory);
        }
        if !is_at(held, NodeName::Site(site)) {
            return Err(CallFault::Memory);
        }
        let input = SiteAct::of_client(
            self.number,
            SiteInput::Attach {
                carried: self.client.carried,
            },
        );
        let act = Act::Attach {
            client: self.number,
            site,
        };
        self.at_site(held, input, act, None)
    }

    /// The operator closes the emission epoch of a site. Where this is another site, the answer is `Memory`; errors
    /// come as in `write`.
    pub fn close<H: Lent<SiteNode<N>>>(
        &mut self,
        held: &mut H,
        site: u16,
    ) -> Result<Answer, CallFault>
        requires { self.old.number ≡ length N.deployment.clients }
        ensures done { AtNode (Act.Close site) (asked_by None given.Close) of_site result (H.node_of held.old)
            (H.node_of held.new) self.old self.new }
        ensures beside { H.beside held.new ≡ H.beside held.old }
    {
        if !is_at(held, NodeName::Site(site)) {
            return Err(CallFault::Memory);
        }
        let input = SiteAct::of_site(SiteInput::Close);
        let act = Act::Close { site };
        self.at_site(held, input, act, None)
    }

    /// The operator makes a site go by timestamp order. Where this is another site, the answer is `Memory`; errors come
    /// as in `write`.
    pub fn fall<H: Lent<SiteNode<N>>>(
        &mut self,
        held: &mut H,
        site: u16,
    ) -> Result<Answer, CallFault>
        requires { self.old.number ≡ length N.deployment.clients }
        ensures done { AtNode (Act.Fall site) (asked_by None given.Fall) of_site result (H.node_of held.old)
            (H.node_of held.new) self.old self.new }
        ensures beside { H.beside held.new ≡ H.beside held.old }
    {
        if !is_at(held, NodeName::Site(site)) {
            return Err(CallFault::Memory);
        }
        let input = SiteAct::of_site(SiteInput::Fall);
        let act = Act::Fall { site };
        self.at_site(held, input, act, None)
    }
}
