//! The gears of a write of several items beside the least item's gear, and their parts of it.
ghost use Rattle.std.specs.Prelude.{ℕ, ◌≡◌, ◌==◌, ◌%◌, ◌<◌, true, List, map, replicate, IfOk, IfSome};
ghost use Rattle.sat_label.specs.declared.label.Label.{Label as Made};
ghost use Rattle.sat_label.specs.declared.node.NodeName.TheVariants.{Gear as AtGear};
ghost use Rattle.sat_label.specs.Grouped.{list_of};
ghost use Rattle.sat_label.specs.Words.{has};
ghost use Rattle.sat_act.specs.Answers.{gear_of};
ghost use Rattle.sat_model.specs.Reply.{gear_for};
ghost use Rattle.sat_node.specs.Links.{Each};
ghost use Rattle.sat_node.specs.Together.{AreSure, lent};
ghost use Rattle.sat_opened.specs.Opened.{name_in};
ghost use Rattle.sat_parts.specs.GearSteps.{gear_may_fail, gear_takes};
ghost use Rattle.sat_parts.specs.Gears.{gear_meaning};
ghost use Rattle.sat_parts_session.specs.Groups.{AreGears, gears_where, is_beside, shown_under};

use crate::gear::{gears, seated};
use sat_label::{Items, NodeName};
use sat_machines::Laid;
use sat_node::{Held, Names, Part};
use sat_parts::{GearAct, GearNode};
use sat_session::Session;
use std::alloc::{AllocError, Global};
use std::sync::MutexGuard;

// ---- which gears they are

// Whether a gear has one of these items.
fn has_gear(items: &Items, gears: u16, gear: u16) -> bool
    requires { 0 < gears }
    ensures { result ≡ has ◌==◌ (map (λ (x : ℕ). x % gears) (list_of items.now)) gear }
{
    match *items {
        Items::One(a) => a % gears == gear,
        Items::Two(a, b) => a % gears == gear || b % gears == gear,
        Items::Three(a, b, c) => a % gears == gear || b % gears == gear || c % gears == gear,
        Items::Four(a, b, c, d) => {
            a % gears == gear || b % gears == gear || c % gears == gear || d % gears == gear
        }
    }
}

// Whether a gear other than the home has one of them.
#[tactic(auto, using(crate::proofs::Together::beside_as))]
fn is_beside<N: Laid>(items: &Items, home: u16, gears: u16, gear: u16) -> bool
    requires gears { gears ≡ N.deployment.gears }
    requires some { 0 < gears }
    requires home { home ≡ gear_for N.deployment items.now }
    ensures { result ≡ is_beside N.deployment items.now gear }
{
    let here = has_gear(items, gears, gear);
    gear != home && here
}

// Whether these are, ascending, the gears of a site below this number that have one of the items, but for the home.
fn are_beside<N: Laid + Names>(
    others: &[MutexGuard<'_, Held<GearNode<N>, N>>],
    site: u16,
    items: &Items,
    home: u16,
    gears: u16,
    below: u16,
) -> bool
    requires gears { gears ≡ N.deployment.gears }
    requires some { 0 < gears }
    requires home { home ≡ gear_for N.deployment items.now }
    ensures { result ≡ true → map name_in (lent others.now)
        ≡ map (AtGear site) (gears_where (is_beside N.deployment items.now) below) }
{
    if below == 0 {
        return others.is_empty();
    }
    let gear = below - 1;
    if !is_beside::<N>(items, home, gears, gear) {
        return are_beside(others, site, items, home, gears, gear);
    }
    match others.split_last() {
        None => false,
        Some((last, rest)) => {
            let name = last.node().name();
            if !name.is_same(&NodeName::Gear { site, gear }) {
                return false;
            }
            are_beside(rest, site, items, home, gears, gear)
        }
    }
}

/// The client's seat, if these are the gears of a write of these items there.
pub(crate) fn seat_of<N: Laid + Names>(
    session: &Session<N>,
    home: &Held<GearNode<N>, N>,
    others: &[MutexGuard<'_, Held<GearNode<N>, N>>],
    items: &Items,
) -> Option<u16>
    ensures { IfSome result (λ i. AreGears N.deployment session.now.client.seat items.now i home.now.node.name
        (map name_in (lent others.now))) }
{
    let gears = gears::<N, Held<GearNode<N>, N>>(home);
    let gear = items.least() % gears;
    let seat = seated::<N, Held<GearNode<N>, N>>(session, home, gear)?;
    if !are_beside(others, seat, items, gear, gears, gears) {
        return None;
    }
    Some(seat)
}

// ---- their parts

// Whether each of these gears takes an input.
fn all_take<N: Laid + Names>(
    others: &[MutexGuard<'_, Held<GearNode<N>, N>>],
    shown: &GearAct<N>,
) -> bool
    ensures { result ≡ true → Each (lent others.now) (λ _ h. gear_takes h.node.machine shown.now.input ≡ true) }
{
    match others.split_first() {
        None => true,
        Some((first, rest)) => first.fits(shown) && all_take(rest, shown),
    }
}

// An input with its copy.
fn part_of<N: Laid>(shown: &GearAct<N>) -> Result<Part<GearAct<N>>, AllocError>
    ensures { IfOk result (λ p. p ≡ record { input = shown.now; copy = shown.now }) }
{
    let input = shown.copy()?;
    let copy = shown.copy()?;
    Ok(Part { input, copy })
}

// So many copies of an input, each with a copy of its own.
#[tactic(auto, using(crate::proofs::Together::rep_more))]
fn parts_of<N: Laid>(
    alloc: Global,
    shown: &GearAct<N>,
    count: usize,
) -> Result<Vec<Part<GearAct<N>>>, AllocError>
    ensures { IfOk result (λ parts. parts.items
        ≡ replicate count (record { input = shown.now; copy = shown.now })) }
{
    let mut parts = Vec::new(alloc);
    'parts: for _ in 0..count {
        let part = part_of(shown)?;
        parts.push(part)?;
    }
    Ok(parts)
}

/// The parts of these gears in a write at another one, each with a copy. Where one of them does not take its part, this
/// is want of memory.
pub(crate) fn prepared<N: Laid + Names>(
    alloc: Global,
    others: &[MutexGuard<'_, Held<GearNode<N>, N>>],
    shown: &GearAct<N>,
) -> Result<Vec<Part<GearAct<N>>>, AllocError>
    requires shown { (c : ℕ) × (values : List (List ℕ)) × (l : Made) × (shown.now ≡ shown_under c values l) }
    ensures sure { IfOk result (λ parts. AreSure (gear_meaning N.deployment) (λ x act. gear_takes x act.input)
        (λ x act. gear_may_fail act.input) (lent others.now) parts.items) }
    ensures same { IfOk result (λ parts. Each parts.items (λ _ p. p.input ≡ shown.now)) }
{
    if !all_take(others, shown) {
        return Err(AllocError);
    }
    let parts = parts_of(alloc, shown, others.len())?;
    Ok(parts)
}
