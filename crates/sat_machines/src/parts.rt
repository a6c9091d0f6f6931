//! What a machine keeps of a deployment.
ghost use Rattle.std.specs.Prelude.{◌≡◌, ◌+◌, ◌-◌, ◌^◌, ◌<◌, ◌++◌, length, IfOk, OnOk};
ghost use Rattle.sat_act.specs.Limits.{IsDeployment};
ghost use Rattle.sat_machines.specs.Layout.{label_links};

use sat_act::{Deployment, Plan};
use sat_label::Counts;
use std::alloc::{AllocError, Global};

// One more end for each tree of these plans, from this number on.
fn add_links(links: &mut Counts, next: u64, plans: &[Plan]) -> Result<(), AllocError>
    requires { next + length plans.now < 2 ^ 64 }
    ensures { OnOk result (links.new ≡ links.old ++ label_links next plans.now) }
{
    let Some((plan, rest)) = plans.split_first() else {
        return Ok(());
    };
    links.push(next)?;
    match plan {
        Plan::Stamp => add_links(links, next, rest),
        Plan::Tree(_) => add_links(links, next + 1, rest),
    }
}

/// At a site, the number of the end for the tree of each epoch.
pub fn links(alloc: Global, d: &Deployment) -> Result<Counts, AllocError>
    ensures { IfOk result (λ links. links ≡ label_links (d.now.sites - 1) d.now.plans) }
{
    let mut links = Counts::new(alloc);
    add_links(&mut links, u64::from(d.sites()) - 1, d.plans())?;
    Ok(links)
}
