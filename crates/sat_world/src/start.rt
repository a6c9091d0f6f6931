//! The parts of a world in which nothing has happened.
ghost use Rattle.std.specs.Prelude.{ℕ, ◌≡◌, ◌<◌, [], length, map, slice_get, Some, IfOk};
ghost use Rattle.sat_act.specs.declared.deployment.Plan.{Plan as PlanSeen};
ghost use Rattle.sat_model.specs.Interests.{interest_of};
ghost use Rattle.sat_world.specs.Starts.{AreFresh, fresh_for, seated};

use sat_act::{Deployment, Plan};
use sat_client::Client;
use sat_net::Net;
use sat_site::Site;
use sat_sites::Interest;
use std::alloc::{AllocError, Global};

/// The sites, which share the table of which sites keep which items.
pub fn sites(alloc: Global, d: &Deployment, interest: &Interest) -> Result<Vec<Site>, AllocError>
    requires { interest.now ≡ interest_of d.now }
    ensures { IfOk result (λ sites. AreFresh d.now d.now.sites sites.items) }
{
    let mut sites = Vec::new(alloc);
    for site in 0..d.sites() {
        sites.push(Site::sharing(alloc, d, interest, site)?)?;
    }
    Ok(sites)
}

// The net of a plan, None where it is stamp order.
fn net(alloc: Global, plan: &Plan) -> Result<Option<Net>, AllocError>
    ensures { IfOk result (λ net. net ≡ fresh_for plan.now) }
{
    match plan {
        Plan::Stamp => Ok(None),
        Plan::Tree(tree) => {
            let net = Net::new(alloc, tree)?;
            Ok(Some(net))
        }
    }
}

/// The nets of all plans.
pub fn nets(alloc: Global, plans: &[Plan]) -> Result<Vec<Option<Net>>, AllocError>
    ensures { IfOk result (λ nets. nets.items ≡ map fresh_for plans.now) }
{
    let mut nets = Vec::new(alloc);
    for plan in plans {
        nets.push(net(alloc, plan)?)?;
    }
    Ok(nets)
}

/// The clients, at their first sites.
pub fn clients(alloc: Global, d: &Deployment) -> Result<Vec<Client>, AllocError>
    ensures { IfOk result (λ clients. clients.items ≡ map seated d.now.clients) }
{
    let mut clients = Vec::new(alloc);
    for line in d.clients() {
        clients.push(Client::new(line.site))?;
    }
    Ok(clients)
}
