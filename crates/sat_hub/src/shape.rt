//! What the parts of a site of a deployment are made from.
ghost use Rattle.std.specs.Prelude.{◌≡◌, map, IfOk};
ghost use Rattle.sat_model.specs.Interests.{interest_of};
ghost use Rattle.sat_sites.specs.Interested.{IsInterest};
ghost use Rattle.sat_act.specs.Limits.{IsDeployment};
ghost use Rattle.sat_hub.specs.Changes.{is_stamp_plan, shape_for};

use sat_act::{Deployment, Plan};
use sat_sites::{Interest, Shape};
use std::alloc::{AllocError, Global};

/// The shape of a site with this number, by which sites keep which items.
pub fn shape_of(d: &Deployment, interest: &Interest, site: u16) -> Result<Shape, AllocError>
    requires { interest.now ≡ interest_of d.now }
    ensures shape { IfOk result (λ shape. shape ≡ shape_for d.now site) }
    ensures limits { IfOk result (λ shape. IsDeployment d.now) }
    ensures interest { IfOk result (λ shape. IsInterest shape.interest) }
{
    let interest = interest.copy()?;
    let _ = interest.items();
    Ok(Shape {
        sites: d.sites(),
        gears: d.gears(),
        site,
        interest,
    })
}

/// Of each plan whether it is stamp order.
pub fn stamp_plans(alloc: Global, plans: &[Plan]) -> Result<Vec<bool>, AllocError>
    ensures { IfOk result (λ stamp. stamp.items ≡ map is_stamp_plan plans.now) }
{
    let mut stamp = Vec::with_capacity(alloc, plans.len())?;
    for plan in plans {
        stamp.push(is_stamp(plan))?;
    }
    Ok(stamp)
}

fn is_stamp(plan: &Plan) -> bool
    ensures { result ≡ is_stamp_plan plan.now }
{
    match plan {
        Plan::Stamp => true,
        Plan::Tree(_) => false,
    }
}
