//! Which gears of a site are lent to an act of its hub.
ghost use Rattle.std.specs.Prelude.{◌≡◌, ◌-◌, ◌<◌, map};
ghost use Rattle.sat_label.specs.declared.node.NodeName.TheVariants.{Gear as AtGear};
ghost use Rattle.sat_label.specs.Grouped.{list_of};
ghost use Rattle.sat_node.specs.Together.{lent as lent_by};
ghost use Rattle.sat_parts_passes.specs.Shows.{shows_one};
ghost use Rattle.sat_parts_pump.specs.Lent.{are_lent, gears_from, lends, name_of, names_eq, shows_item};

use crate::watched::Watched;
use sat_hub::is_here;
use sat_label::{Items, NodeName};
use sat_machines::Laid;
use sat_node::{Held, Names};
use sat_parts::GearNode;
use sat_sites::Shape;
use std::sync::MutexGuard;

/// Which gears of a site an act of its hub needs beside it.
#[derive(Clone, Copy, Debug)]
pub enum Lent {
    /// None of them: the act is the hub's alone.
    Alone,
    /// Those that have one of these items which the site keeps: the act shows an update of them.
    Of(Items),
    /// All of them: the act is a gather.
    All,
}

// Whether an item is the gear's, and one that the site keeps.
#[tactic(auto, using(crate::proofs::Needed::unknown_item))]
fn shows_item(shape: &Shape, gear: u16, item: u16) -> bool
    requires { 0 < shape.now.gears }
    ensures { result ≡ shows_item shape.now gear item }
{
    if usize::from(item) >= shape.interest.items() {
        return false;
    }
    item % shape.gears == gear && is_here(shape, item)
}

// Whether one of these items is.
fn shows_one(shape: &Shape, gear: u16, items: &Items) -> bool
    requires { 0 < shape.now.gears }
    ensures { result ≡ shows_one shape.now gear (list_of items.now) }
{
    match *items {
        Items::One(a) => shows_item(shape, gear, a),
        Items::Two(a, b) => shows_item(shape, gear, a) || shows_item(shape, gear, b),
        Items::Three(a, b, c) => {
            shows_item(shape, gear, a) || shows_item(shape, gear, b) || shows_item(shape, gear, c)
        }
        Items::Four(a, b, c, d) => {
            shows_item(shape, gear, a)
                || shows_item(shape, gear, b)
                || shows_item(shape, gear, c)
                || shows_item(shape, gear, d)
        }
    }
}

// Whether the gear of this number, of a site of this shape, is one of them.
fn is_one(shape: &Shape, lent: &Lent, gear: u16) -> bool
    requires { 0 < shape.now.gears }
    ensures { result ≡ lends shape.now lent.now gear }
{
    match lent {
        Lent::Alone => false,
        Lent::Of(items) => shows_one(shape, gear, items),
        Lent::All => true,
    }
}

/// Whether the gear of this number at a hub's site is one of those that its act needs.
pub fn lends<N: Laid + Names>(watched: &Watched<N>, lent: &Lent, gear: u16) -> bool
    ensures { result ≡ lends watched.now.node.machine.shape lent.now gear }
{
    let shape = watched.held.node().machine().hub().shape();
    is_one(shape, lent, gear)
}

// Whether these are those of them from a number on.
#[tactic(auto, using(crate::proofs::Needed::names_none, crate::proofs::Needed::names_skip, crate::proofs::Needed::names_next, crate::proofs::Needed::names_short))]
fn are_from<N: Laid + Names>(
    gears: &[MutexGuard<'_, Held<GearNode<N>, N>>],
    shape: &Shape,
    lent: &Lent,
    from: u16,
) -> bool
    requires { 0 < shape.now.gears }
    ensures { result ≡ names_eq (map name_of (lent_by gears.now))
        (map (AtGear shape.now.site) (gears_from (lends shape.now lent.now) from (shape.now.gears - from))) }
{
    if from >= shape.gears {
        return match gears.split_first() {
            None => true,
            Some(_) => false,
        };
    }
    if !is_one(shape, lent, from) {
        return are_from(gears, shape, lent, from + 1);
    }
    match gears.split_first() {
        None => false,
        Some((first, rest)) => {
            let name = NodeName::Gear {
                site: shape.site,
                gear: from,
            };
            first.node().name().is_same(&name) && are_from(rest, shape, lent, from + 1)
        }
    }
}

/// Whether these are the gears that an act of a hub of this shape needs: each once, ascending, and no other.
pub(crate) fn are_lent<N: Laid + Names>(
    gears: &[MutexGuard<'_, Held<GearNode<N>, N>>],
    shape: &Shape,
    lent: &Lent,
) -> bool
    requires { 0 < shape.now.gears }
    ensures { result ≡ are_lent shape.now lent.now (lent_by gears.now) }
{
    are_from(gears, shape, lent, 0)
}
