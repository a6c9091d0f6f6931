//! Where a hub hears: over the lanes of the gears of other sites, and over the links of their hubs' beats.
ghost use Rattle.std.specs.Prelude.{◌≡◌, ◌<◌, ◌+◌, ◌*◌, ◌-◌, ◌^◌, length};
ghost use Rattle.sat_machines.specs.Layout.{peer, site_links};
ghost use Rattle.sat_machines.specs.Sites.{number_of};
ghost use Rattle.sat_parts.specs.Layout.{lane_end};

use sat_label::NodeName;
use sat_machines::Laid;
use sat_node::{Held, Names};
use sat_parts::HubNode;
use sat_parts_passes::sound;

/// What comes from another site over one link: the payloads of a gear, or the beats of the hub.
#[derive(Clone, Copy)]
pub enum Source {
    Lane { from: u16, gear: u16 },
    Beats { from: u16 },
}

/// The number of the node's site.
pub fn site_of<N: Laid + Names>(held: &Held<HubNode<N>, N>) -> u16
    ensures { result ≡ number_of held.now.node.name }
{
    match held.node().name() {
        NodeName::Site(site) => site,
        NodeName::Serializer { .. } => 0,
        NodeName::Gear { site, .. } => site,
    }
}

/// How many other sites there are.
#[tactic(auto, using(crate::proofs::Lanes::sites_are, crate::proofs::Lanes::few_others))]
pub fn others<N: Laid + Names>(held: &Held<HubNode<N>, N>) -> u16
    ensures others { result ≡ N.deployment.sites - 1 }
    ensures few { result < 64 }
{
    sound(held);
    held.node().machine().hub().shape().sites.saturating_sub(1)
}

/// How many gears each site has.
#[tactic(auto, using(crate::proofs::Lanes::gears_are))]
pub fn gears<N: Laid + Names>(held: &Held<HubNode<N>, N>) -> u16
    ensures { result ≡ N.deployment.gears }
{
    sound(held);
    held.node().machine().hub().shape().gears
}

/// The site of this number among those other than one's own.
pub fn peer(site: u16, number: u16) -> u16
    requires { number < 64 }
    ensures { result ≡ peer site number }
{
    if number < site { number } else { number + 1 }
}

// So many lanes of each of so many sites.
#[tactic(auto, using(crate::proofs::Numbers::product_small))]
fn count(sites: u16, gears: u16) -> usize
    ensures count { result ≡ sites * gears }
    ensures small { result < 2 ^ 32 }
{
    usize::from(sites) * usize::from(gears)
}

/// At a hub, how many ends stand before those of the lanes: those by which it sends.
pub fn first_lane<N: Laid + Names>(held: &Held<HubNode<N>, N>) -> usize
    ensures first { result ≡ length (site_links N.deployment (number_of held.now.node.name)) }
    ensures few { result + (N.deployment.sites - 1) * N.deployment.gears < 2 ^ 64 }
{
    sound(held);
    let lanes = count(others(held), gears(held));
    let ends = held.ins().len();
    ends.saturating_sub(lanes)
}

/// At a hub, the number of the end for the lane of a gear of the site of this number among the others, where so many
/// ends stand before those of the lanes.
pub fn lane_end(first: usize, number: u16, gears: u16, gear: u16) -> usize
    requires { first + number * gears + gear < 2 ^ 64 }
    ensures { result ≡ first + number * gears + gear }
{
    first + count(number, gears) + usize::from(gear)
}
