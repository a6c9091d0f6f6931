//! What is under way: payloads of lanes that did not come to their site, and labels on links.
ghost use Rattle.std.specs.Prelude.{ℕ, ◌≡◌, ◌<◌, ◌==◌, not, count_by, length, slice_get, Some};
ghost use Rattle.std.specs.List.{sum_by};
ghost use Rattle.sat_label.specs.Words.{below, has};
ghost use Rattle.sat_act.specs.Deployed.{Deployed};
ghost use Rattle.sat_act.specs.Settling.{capped};
ghost use Rattle.sat_model.specs.State.{SiteState};
ghost use Rattle.sat_site.specs.Seen.{SiteSeen};
ghost use Rattle.sat_site.specs.Stands.{StandsSite};
ghost use Rattle.sat_world.specs.Left.{net_underway, IsLeft, IsLeftOf, IsLeftTo, IsOfShape};

use crate::places::sound;
use sat_net::Net;
use sat_site::Site;

// How many of the first so many payloads of a lane did not come to a site.
fn missing(receiver: &Site, from: u16, gear: u16, made: u64) -> u64
    requires from { from < receiver.now.shape.sites }
    requires gear { gear < receiver.now.shape.gears }
    ensures { (d : Deployed) (j : ℕ) (t : SiteState) → StandsSite d j receiver.now t →
        result ≡ count_by (λ k. not (has ◌==◌ (t.proxy.taken from gear) k)) (below made) }
{
    sound(receiver);
    let mut count: u64 = 0;
    let front = receiver.front(from, gear).min(made);
    for number in front..made {
        if !receiver.has(from, gear, number) {
            count += 1;
        }
    }
    count
}

// How many payloads of the lanes of one site did not come to another one.
fn left_of(sender: &Site, receiver: &Site, from: u16, to: u16, gears: u16) -> u64
    requires sender { sender.now.shape.gears ≡ gears }
    requires receiver { receiver.now.shape.gears ≡ gears }
    requires from { from < receiver.now.shape.sites }
    requires to { to < sender.now.shape.sites }
    ensures { IsLeftOf sender.now receiver.now from to gears result }
{
    let mut count: u64 = 0;
    for gear in 0..gears {
        let made = sender.made_for(gear, to);
        count = count.saturating_add(missing(receiver, from, gear, made));
    }
    count
}

// How many payloads of all lanes to a site did not come there.
fn left_to(sites: &[Site], to: u16, count: u16, gears: u16) -> u64
    requires count { length sites.now ≡ count }
    requires to { to < count }
    requires shapes { (i : ℕ) (x : SiteSeen) → slice_get sites.now i ≡ Some x → IsOfShape x count gears }
    ensures { IsLeftTo sites.now gears to count result }
{
    let mut sum: u64 = 0;
    let receiver = &sites[to as usize];
    for from in 0..count {
        let sender = &sites[from as usize];
        sum = sum.saturating_add(left_of(sender, receiver, from, to, gears));
    }
    sum
}

/// How many payloads of all lanes did not come to their site, or 2^64 - 1 where there are more.
pub fn in_lanes(sites: &[Site], count: u16, gears: u16) -> u64
    requires count { length sites.now ≡ count }
    requires shapes { (i : ℕ) (x : SiteSeen) → slice_get sites.now i ≡ Some x → IsOfShape x count gears }
    ensures { IsLeft sites.now gears count result }
{
    let mut sum: u64 = 0;
    for to in 0..count {
        sum = sum.saturating_add(left_to(sites, to, count, gears));
    }
    sum
}

// How many labels stand on the links of one epoch.
fn in_net(net: &Option<Net>) -> u64
    ensures { result ≡ capped (net_underway net.now) }
{
    match net {
        None => 0,
        Some(net) => net.underway(),
    }
}

/// How many labels stand on all links, or 2^64 - 1 where there are more.
pub fn on_links(nets: &[Option<Net>]) -> u64
    ensures { result ≡ capped (sum_by net_underway nets.now) }
{
    let mut sum: u64 = 0;
    for net in nets {
        sum = sum.saturating_add(in_net(net));
    }
    sum
}
