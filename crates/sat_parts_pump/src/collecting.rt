//! A hub gathers what the gears of its site made.
ghost use Rattle.std.specs.Prelude.{◌≡◌, ◌++◌, true, false, List, IfErr, IfOk, OnErr, OnOk};
ghost use Rattle.sat_gear.specs.Gear.{is_due};
ghost use Rattle.sat_node.specs.Together.{AllSame, SameHeld, lent};
ghost use Rattle.sat_parts_passes.specs.Gathers.{FailsAll, IsGathered};
ghost use Rattle.sat_parts_passes.specs.Sendings.{HubKept};
ghost use Rattle.sat_parts_pump.specs.Gathers.{any_due, may_gather, would_gather};

use crate::lending::{Lent, are_lent};
use crate::watched::Watched;
use sat_machines::Laid;
use sat_node::{CallFault, Held, Names};
use sat_parts::{GearNode, HubNode};
use std::sync::MutexGuard;

/// Whether a gather is due because of this gear: it has a label that was not gathered, or a promise above the gathered
/// one. It takes no memory.
pub fn is_due<N: Laid + Names>(gear: &Held<GearNode<N>, N>) -> bool
    ensures { result ≡ is_due gear.now.node.machine }
{
    gear.node().machine().gear().is_due()
}

// Whether it is because of one of these.
fn any_due<N: Laid + Names>(gears: &[MutexGuard<'_, Held<GearNode<N>, N>>]) -> bool
    ensures { result ≡ any_due (lent gears.now) }
{
    match gears.split_first() {
        None => false,
        Some((first, rest)) => is_due(&**first) || any_due(rest),
    }
}

// Whether these are all gears of the hub's site, and a gather is due because of one of them.
fn may_gather<N: Laid + Names>(
    hub: &Held<HubNode<N>, N>,
    gears: &[MutexGuard<'_, Held<GearNode<N>, N>>],
) -> bool
    ensures { result ≡ may_gather hub.now (lent gears.now) }
{
    let shape = hub.node().machine().hub().shape();
    are_lent(gears, shape, &Lent::All) && any_due(gears)
}

// The same of a hub's node alone.
#[tactic(auto, using(crate::proofs::Gathered::would_not, crate::proofs::Gathered::would_more, crate::proofs::Gathered::more_as))]
fn gather_held<N: Laid + Names>(
    hub: &mut Held<HubNode<N>, N>,
    gears: &mut Vec<MutexGuard<'_, Held<GearNode<N>, N>>>,
) -> Result<bool, CallFault>
    ensures fits { IfOk result (λ done. done ≡ would_gather hub.old (lent gears.old.items)) }
    ensures done { IfOk result (λ done. done ≡ true
        → IsGathered N.deployment hub.old (lent gears.old.items) hub.new (lent gears.new.items)) }
    ensures same { IfOk result (λ done. done ≡ false
        → (hub.new ≡ hub.old) × (lent gears.new.items ≡ lent gears.old.items)) }
    ensures err { OnErr result (SameHeld hub.old hub.new × AllSame (lent gears.old.items) (lent gears.new.items)) }
    ensures fault { IfErr result (FailsAll hub.old (lent gears.old.items)) }
    ensures more { (more : List HubKept) × (hub.new.node.entries ≡ hub.old.node.entries ++ more) }
{
    if !may_gather(&*hub, gears.as_slice()) {
        return Ok(false);
    }
    sat_parts_passes::gather(hub, gears)
}

/// One gather of a hub and of all gears of its site, which are lent with it in the order of their numbers, where it is
/// due because of one of them: all keep an entry, under one number, or none does. The hub is handed what each gear
/// gives, and each gear keeps what it gave and what the hub answered. False where none is due, or these are not the
/// gears of the hub's site, or the hub may not be handed what these gears give, which is never so of those; then
/// nothing changes. `Worn`, with the greatest u64, only where that is the number of one of the nodes; `Memory`. After
/// an error all are as before, but for room.
pub fn gather<N: Laid + Names>(
    watched: &mut Watched<N>,
    gears: &mut Vec<MutexGuard<'_, Held<GearNode<N>, N>>>,
) -> Result<bool, CallFault>
    ensures fits { IfOk result (λ done. done ≡ would_gather watched.old (lent gears.old.items)) }
    ensures done { IfOk result (λ done. done ≡ true
        → IsGathered N.deployment watched.old (lent gears.old.items) watched.new (lent gears.new.items)) }
    ensures same { IfOk result (λ done. done ≡ false
        → (watched.new ≡ watched.old) × (lent gears.new.items ≡ lent gears.old.items)) }
    ensures err { OnErr result
        (SameHeld watched.old watched.new × AllSame (lent gears.old.items) (lent gears.new.items)) }
    ensures fault { IfErr result (FailsAll watched.old (lent gears.old.items)) }
{
    let held = &mut watched.held;
    gather_held(held, gears)
}
