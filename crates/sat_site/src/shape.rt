//! Which sites of a deployment keep which items.
ghost use Rattle.std.specs.Prelude.{◌≡◌, IfOk};
ghost use Rattle.sat_model.specs.Interests.{interest_of};
ghost use Rattle.sat_act.specs.Limits.{IsDeployment};

use sat_act::Deployment;
use sat_label::SiteSet;
use sat_sites::{Interest, InterestFault};
use std::alloc::{AllocError, Global};

// The sites that keep each item.
fn replicas(alloc: Global, d: &Deployment) -> Result<Vec<SiteSet>, AllocError>
    ensures replicas { IfOk result (λ sets. sets.items ≡ (interest_of d.now).replicas) }
    ensures limits { IsDeployment d.now }
{
    let mut sets = Vec::new(alloc);
    for item in d.items() {
        sets.push(item.replicas)?;
    }
    Ok(sets)
}

/// Which sites of a deployment keep which items.
pub fn interest(alloc: Global, d: &Deployment) -> Result<Interest, AllocError>
    ensures interest { IfOk result (λ interest. interest ≡ interest_of d.now) }
    ensures limits { IsDeployment d.now }
{
    let sets = replicas(alloc, d)?;
    match Interest::new(alloc, d.sites(), sets.as_slice()) {
        Ok(interest) => Ok(interest),
        Err(InterestFault::Memory) => Err(AllocError),
        Err(InterestFault::BadItem(_)) => unreachable!(),
    }
}
