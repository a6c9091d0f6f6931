//! The greatest promise of all, and the act clock.
ghost use Rattle.std.specs.Prelude.{ℕ, ◌≡◌, ◌≤◌, ◌<◌, ◌^◌, length, slice_get, Some};
ghost use Rattle.sat_site.specs.Seen.{SiteSeen};
ghost use Rattle.sat_site.specs.Gives.{PromisesUpTo};
ghost use Rattle.sat_world.specs.Clocks.{IsTop, IsGreatest, AreUpTo, AreClocked};

use sat_site::Site;

/// The greatest promise of a site's gears.
fn top(site: &Site, gears: u16) -> u64
    requires gears { site.now.shape.gears ≡ gears }
    requires some { 0 < gears }
    ensures top { IsTop site.now gears result }
    ensures above { PromisesUpTo site.now result }
    ensures limit { result ≤ 2 ^ 62 }
{
    let mut greatest: u64 = 0;
    for gear in 0..gears {
        greatest = greatest.max(site.promise(gear));
    }
    greatest
}

/// The greatest promise of the gears of all sites.
pub fn greatest(sites: &[Site], gears: u16) -> u64
    requires gears { (i : ℕ) (x : SiteSeen) → slice_get sites.now i ≡ Some x → x.shape.gears ≡ gears }
    requires some { 0 < gears }
    ensures greatest { IsGreatest sites.now gears result }
    ensures above { AreUpTo sites.now result }
    ensures limit { result ≤ 2 ^ 62 }
{
    let mut greatest: u64 = 0;
    for site in sites {
        greatest = greatest.max(top(site, gears));
    }
    greatest
}

/// Raises the promises of all sites to a timestamp that none of them is above.
pub fn raise(sites: &mut [Site], ts: u64)
    requires limit { ts ≤ 2 ^ 62 }
    requires above { AreUpTo sites.old ts }
    ensures { AreClocked ts sites.old sites.new }
{
    for site in sites.iter_mut() {
        site.clock(ts);
    }
}
