//! Places of nodes.
ghost use Rattle.std.specs.Prelude.{◌≡◌, ◌+◌, ◌*◌, ◌^◌, ◌<◌, ◌≤◌, length};
ghost use Rattle.sat_outcome.specs.Texts.{node_place, serials_before, serials_in};

use sat_act::{Deployment, Plan};
use sat_label::NodeName;

fn serials_in(plan: &Plan) -> u16
    ensures { result ≡ serials_in plan.now }
{
    match plan {
        Plan::Stamp => 0,
        Plan::Tree(tree) => tree.serializers(),
    }
}

// How many serializers the plans before that of an epoch have, the first of which is of epoch `first`, and so many
// more.
fn add_serials(more: u64, first: u64, epoch: u16, plans: &[Plan]) -> u64
    requires more { more + 65536 * length plans.now < 2 ^ 64 }
    requires first { first + length plans.now < 2 ^ 64 }
    ensures count { result ≡ more + serials_before first epoch plans.now }
    ensures few { result ≤ more + 65536 * length plans.now }
{
    let Some((plan, rest)) = plans.split_first() else {
        return more;
    };
    if first >= u64::from(epoch) {
        return more;
    }
    add_serials(more + u64::from(serials_in(plan)), first + 1, epoch, rest)
}

/// The place of a node among all: hubs by site, then gears by site and number, then serializers by epoch and number.
pub fn node_place(d: &Deployment, name: NodeName) -> u64
    ensures { result ≡ node_place d.now name }
{
    match name {
        NodeName::Site(site) => u64::from(site),
        NodeName::Gear { site, gear } => {
            u64::from(d.sites()) + u64::from(site) * u64::from(d.gears()) + u64::from(gear)
        }
        NodeName::Serializer { epoch, number } => {
            let before = u64::from(d.sites()) + u64::from(d.sites()) * u64::from(d.gears());
            add_serials(before, 1, epoch, d.plans()) + u64::from(number)
        }
    }
}
