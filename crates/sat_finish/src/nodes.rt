//! All nodes of a deployment out of their locks, and what is known of them.
ghost use Rattle.std.specs.Prelude.{◌≡◌, ◌+◌, ◌*◌, Some, slice_get, IfOk};
ghost use Rattle.sat_label.specs.declared.node.NodeName.TheVariants as named;
ghost use Rattle.sat_node.specs.Links.{Each};
ghost use Rattle.sat_opened.specs.Opened.{IsOpened};
ghost use Rattle.sat_parts_opened.specs.Opened.{PartsOpened};
ghost use Rattle.sat_parts_notes.specs.Naming.{AreNamed};

use sat_label::NodeName;
use sat_machines::{Laid, SerialNode};
use sat_node::{Held, Machine, Names, agree_all, agree_within};
use sat_parts::{GearNode, HubNode};
use std::alloc::AllocError;

/// All hubs, gears and serializers of a deployment, each once and in order: each is opened, and each link between two
/// of them carried what its sender put there. The nodes stay as they are.
pub(crate) fn open_parts<N: Laid, W: Names>(
    hubs: &mut Vec<Held<HubNode<N>, W>>,
    gears: &mut Vec<Held<GearNode<N>, W>>,
    serials: &mut Vec<Held<SerialNode<N>, W>>,
)
    requires { AreNamed N.deployment hubs.old.items gears.old.items serials.old.items }
    ensures hubs { hubs.new.items ≡ hubs.old.items }
    ensures gears { gears.new.items ≡ gears.old.items }
    ensures serials { serials.new.items ≡ serials.old.items }
    ensures opened { PartsOpened N.deployment hubs.old.items gears.old.items serials.old.items }
{
    look_all(hubs.as_slice());
    look_all(gears.as_slice());
    look_all(serials.as_slice());
    agree_within(hubs);
    agree_within(serials);
    agree_all(gears, hubs);
    agree_all(hubs, serials);
    agree_all(serials, hubs);
}

// What each of these nodes keeps.
fn look_all<M: Machine, W: Names>(nodes: &[Held<M, W>])
    ensures { Each nodes.now (λ _ h. IsOpened M.meaning h) }
{
    for node in nodes {
        look(node);
    }
}

// What a node keeps.
fn look<M: Machine, W: Names>(held: &Held<M, W>)
    ensures { IsOpened M.meaning held.now }
{
    let node = held.node();
    let _ = node.journal();
    let _ = node.lamport();
}

// ---- a node at its place

/// The hub of a site. No cluster has another node there.
pub(crate) fn hub_at<'a, N: Laid, W: Names>(
    hubs: &'a [Held<HubNode<N>, W>],
    site: u16,
) -> Result<&'a Held<HubNode<N>, W>, AllocError>
    ensures there { IfOk result (λ h. slice_get hubs.now site ≡ Some h.now) }
    ensures name { IfOk result (λ h. h.now.node.name ≡ named.Site site) }
{
    match hubs.get(usize::from(site)) {
        None => Err(AllocError),
        Some(held) => {
            if held.node().name().is_same(&NodeName::Site(site)) {
                Ok(held)
            } else {
                Err(AllocError)
            }
        }
    }
}

/// The gear of a number of a site, of which each has so many. No cluster has another node there.
pub(crate) fn gear_at<'a, N: Laid, W: Names>(
    gears: &'a [Held<GearNode<N>, W>],
    count: u16,
    site: u16,
    gear: u16,
) -> Result<&'a Held<GearNode<N>, W>, AllocError>
    ensures there { IfOk result (λ h. slice_get gears.now (site * count + gear) ≡ Some h.now) }
    ensures name { IfOk result (λ h. h.now.node.name ≡ named.Gear site gear) }
{
    let place = usize::from(site) * usize::from(count) + usize::from(gear);
    match gears.get(place) {
        None => Err(AllocError),
        Some(held) => {
            if held.node().name().is_same(&NodeName::Gear { site, gear }) {
                Ok(held)
            } else {
                Err(AllocError)
            }
        }
    }
}
