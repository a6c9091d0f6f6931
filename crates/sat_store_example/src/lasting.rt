//! A replica on a disk: a site whose inputs are on the disk before they are answered, so that its process may stop at
//! any moment. It keeps no links of its own. What it sends waits in its sink until the relay has it, and what comes
//! waits at the relay until the turn with it is on the disk.
ghost use Rattle.std.specs.Prelude.{◌≡◌, ◌⊎◌, ℕ, ◌^◌, ◌<◌, ◌≤◌, true, false, slice_get, Some, None, MatchOption};
ghost use Rattle.std.specs.Prelude.{option_copied};
ghost use Rattle.sat_act.specs.Deployed.{Deployed};
ghost use Rattle.sat_model.specs.State.{SiteState};
ghost use Rattle.sat_site.specs.Stands.{StandsSite};
ghost use Rattle.sat_durable.specs.Durables.{machine_of, size_of};
ghost use Rattle.sat_lasting.specs.Sites.{site_meaning};
ghost use Rattle.sat_store_example.specs.Replicas.{has_lane};

use sat_bulk::Payload;
use sat_durable::{Disk, Durable, Machine};
use sat_lasting::KeptSite;
use sat_site::{Site, SiteInput};

/// Whether a site on a disk may be handed this, by `step`: it fits the site, and the journal has at most 2^40 bytes.
/// Ask first, since a message may say anything. It takes no memory.
pub fn may_hand<D: Disk>(kept: &Durable<D, KeptSite>, given: &SiteInput) -> bool
    ensures may { result ≡ true → (size_of kept.now ≤ 2 ^ 40)
        × (site_meaning.fits (machine_of kept.now) given.now ≡ true) }
    ensures may_not { result ≡ false → (2 ^ 40 < size_of kept.now)
        ⊎ (site_meaning.fits (machine_of kept.now) given.now ≡ false) }
{
    if kept.size() > 1 << 40 {
        return false;
    }
    kept.machine().fits(given)
}

// Whether a site makes payloads with this gear for this site.
pub(crate) fn has_lane(site: &Site, gear: u16, to: u16) -> bool
    ensures { result ≡ has_lane site.now gear to }
{
    site.fits(&SiteInput::Tick { gear, ts: 0 }) && site.fits(&SiteInput::Beat { to })
}

/// A payload out: the one with this number of those that a gear of a site made for another one, None where there is
/// none yet, or no such gear or site. It takes no memory.
pub fn payload_of(site: &Site, gear: u16, to: u16, number: u64) -> Option<&Payload>
    ensures none { has_lane site.now gear to ≡ false → option_copied result ≡ None }
    ensures payload { has_lane site.now gear to ≡ true → (d : Deployed) (i : ℕ) (s : SiteState) →
        StandsSite d i site.now s → MatchOption result (slice_get ((s.gears gear).lanes to) number
        ≡ None) (λ p. slice_get ((s.gears gear).lanes to) number ≡ Some p.now) }
{
    if !has_lane(site, gear, to) {
        return None;
    }
    site.payload(gear, to, number)
}
