//! All gears of a site at once.
ghost use Rattle.std.specs.Prelude.{◌≡◌, ◌≤◌, ◌<◌, ◌^◌, length, map, IfOk, OnOk, OnErr, MatchOption};
ghost use Rattle.sat_label.specs.declared.label.Kind.TheVariants.{Move};
ghost use Rattle.std.specs.List.{flat_map, list_any};
ghost use Rattle.sat_label.specs.Words.{below};
ghost use Rattle.sat_gear.specs.Gear.{after_drain, fresh_gear, is_due, is_spent, stamped, IsGear, IsShape};
ghost use Rattle.sat_hub.specs.Seen.{IsHub};
ghost use Rattle.sat_site.specs.Changes.{fresh_of, ticked_to};
ghost use Rattle.sat_site.specs.SiteSteps.{moved_answer, moved_gear};
ghost use Rattle.sat_site.specs.Seen.{AreGears};

use sat_act::{Answer, Refusal};
use sat_gear::{Gear, GearFault};
use sat_hub::Hub;
use sat_label::Carried;
use sat_sites::Shape;
use std::alloc::{AllocError, Global};

/// The gears of a shape, which have promised and made nothing.
#[tactic(auto, using(crate::proofs::Loops::fresh_more))]
pub fn fresh_gears(alloc: Global, shape: &Shape) -> Result<Vec<Gear>, AllocError>
    requires { IsShape shape.now }
    ensures { IfOk result (λ gears. gears.items ≡ map (fresh_gear shape.now) (below shape.now.gears)) }
{
    let count = shape.gears;
    let mut gears = Vec::with_capacity(alloc, count as usize)?;
    for gear in 0..count {
        gears.push(Gear::new(alloc, shape, gear)?)?;
    }
    Ok(gears)
}

/// What is true of a gear.
pub fn limits(gear: &Gear)
    ensures { IsGear gear.now }
{
    let _ = gear.promise();
}

/// What is true of a hub.
pub fn limits_of(hub: &Hub)
    ensures { IsHub hub.now }
{
    let _ = hub.shape();
}

/// What is true of each gear.
pub fn all_limits(gears: &[Gear])
    ensures { AreGears gears.now }
{
    for gear in gears {
        limits(gear);
    }
}

/// Hands a client's move to gear 0.
pub fn move_at(gear: &mut Gear, carried: Carried, to: u16) -> Result<Answer, AllocError>
    requires gear { gear.old.gear ≡ 0 }
    requires site { to < gear.old.shape.sites }
    ensures answer { IfOk result (λ answer. answer
        ≡ moved_answer (is_spent gear.old carried.point) (stamped gear.old carried.point (Move to))) }
    ensures gear { OnOk result
        (gear.new ≡ moved_gear (is_spent gear.old carried.point) gear.old (stamped gear.old carried.point (Move to))) }
    ensures err { OnErr result (gear.new ≡ gear.old) }
{
    match gear.stamp_move(carried.point, to) {
        Ok(label) => Ok(Answer::Moved(label)),
        Err(GearFault::Spent) => Ok(Answer::Refused(Refusal::Spent)),
        Err(GearFault::Memory) => Err(AllocError),
    }
}

/// Raises each promise to a timestamp.
pub fn tick_all(gears: &mut [Gear], ts: u64)
    requires { ts ≤ 2 ^ 62 }
    ensures { gears.new ≡ map (ticked_to ts) gears.old }
{
    for gear in gears.iter_mut() {
        let _ = gear.tick(ts);
    }
}

/// Whether a drain of some gear would take something.
pub fn any_due(gears: &[Gear]) -> bool
    ensures { result ≡ list_any is_due gears.now }
{
    gears.iter().any(|gear| gear.is_due())
}

/// Makes each gear as after a drain.
pub fn drain_all(gears: &mut [Gear])
    ensures { gears.new ≡ map after_drain gears.old }
{
    for gear in gears.iter_mut() {
        gear.drained();
    }
}

/// How many labels the gears made since their last drain, None where the number is none of 64 bits.
#[tactic(auto, using(crate::proofs::Loops::count_more))]
pub fn count_labels(gears: &[Gear]) -> Option<u64>
    ensures { MatchOption result (2 ^ 64 ≤ length (flat_map fresh_of gears.now))
        (λ count. count ≡ length (flat_map fresh_of gears.now)) }
{
    let mut count: u64 = 0;
    for gear in gears {
        count = count.checked_add(gear.fresh().len() as u64)?;
    }
    Some(count)
}
