//! The place of a site in the lists of all sites.
ghost use Rattle.std.specs.Prelude.{◌≡◌, ◌<◌, ◌==◌, ℕ, false, None, Some, IfOk, length, set, slice_get};
ghost use Rattle.sat_lasting.specs.declared.slot.Slot.{Slot as SlotSeen};
ghost use Rattle.sat_lasting.specs.Lasts.{Changes, Steps, Stops};
ghost use Rattle.sat_lasting.specs.Slots.{IsFew, SlotFits};

use crate::cut::Cut;
use crate::slot::Slot;
use sat_act::Deployment;
use sat_site::SiteInput;
use std::alloc::{AllocError, Global};

/// Takes the cut that waits at a site.
pub(crate) fn take_cut(cuts: &mut Vec<Option<Cut>>, site: u16) -> Option<Cut>
    requires { site < length cuts.old.items }
    ensures cut { slice_get cuts.old.items site ≡ Some result }
    ensures cuts { cuts.new.items ≡ set cuts.old.items site None }
{
    let cut = cuts.as_slice()[site as usize];
    cuts[site as usize] = None;
    cut
}

/// Makes a cut wait at a site.
pub(crate) fn put_cut(cuts: &mut Vec<Option<Cut>>, site: u16, cut: Cut)
    requires { site < length cuts.old.items }
    ensures { cuts.new.items ≡ set cuts.old.items site (Some cut) }
{
    cuts[site as usize] = Some(cut);
}

/// The site at a place.
pub(crate) fn slot_at(slots: &Vec<Slot>, site: u16) -> &Slot
    requires { site < length slots.now.items }
    ensures { slice_get slots.now.items site ≡ Some result.now }
{
    &slots.as_slice()[site as usize]
}

/// Puts an input into the journal of a site, and tells whether the input is there.
pub(crate) fn step_at(
    slots: &mut Vec<Slot>,
    alloc: Global,
    d: &Deployment,
    site: u16,
    input: SiteInput,
    cut: Option<Cut>,
    buffer: &mut Vec<u8>,
) -> Result<bool, AllocError>
    requires place { site < length slots.old.items }
    requires site { site < d.now.sites }
    requires fits { (slot : SlotSeen) → slice_get slots.old.items site ≡ Some slot → SlotFits input slot }
    requires few { IsFew cut }
    ensures long { length slots.new.items ≡ length slots.old.items }
    ensures steps { IfOk result
        (λ there. Changes site slots.old.items slots.new.items (Steps d.now site input cut there)) }
{
    let slot = &mut slots[site as usize];
    let there = slot.step(alloc, d, site, &input, cut, buffer)?;
    Ok(there)
}

/// Stops a site and makes it again, and tells from how many inputs.
pub(crate) fn stop_at(
    slots: &mut Vec<Slot>,
    alloc: Global,
    d: &Deployment,
    site: u16,
) -> Result<u64, AllocError>
    requires place { site < length slots.old.items }
    requires site { site < d.now.sites }
    ensures long { length slots.new.items ≡ length slots.old.items }
    ensures stops { IfOk result (λ count. Changes site slots.old.items slots.new.items (Stops d.now site count)) }
{
    let slot = &mut slots[site as usize];
    let count = slot.stop(alloc, d, site)?;
    Ok(count)
}
