//! Which gears of a site have a part of what is shown there.
ghost use Rattle.std.specs.Prelude.{◌≡◌, ◌==◌, ◌&&◌, ◌%◌, not};
ghost use Rattle.sat_label.specs.Grouped.{list_of};
ghost use Rattle.sat_act.specs.Parts.{items_of, replicates};
ghost use Rattle.sat_model.specs.Reply.{gear_for};
ghost use Rattle.sat_hub_laws.specs.Sites.{has_part};
ghost use Rattle.sat_parts_opened.specs.Collected.{shows_at};

use sat_act::{Answer, Deployment};
use sat_label::{Items, Kind};

/// Whether an answer shows an item of a gear that the site keeps.
pub(crate) fn shows(d: &Deployment, site: u16, gear: u16, answer: &Answer) -> bool
    ensures { result ≡ shows_at d.now site gear answer.now }
{
    match answer {
        Answer::Shown(label) => has_kind(d, site, gear, label.kind),
        _ => false,
    }
}

/// Whether a gear has one of these items, of those that the site keeps, and is not the least item's.
pub(crate) fn is_beside(d: &Deployment, site: u16, gear: u16, items: Items) -> bool
    ensures { result ≡ (has_part d.now site (list_of items) gear && not (gear_for d.now items == gear)) }
{
    has_items(d, site, gear, items) && items.least() % d.gears() != gear
}

fn has_kind(d: &Deployment, site: u16, gear: u16, kind: Kind) -> bool
    ensures { result ≡ has_part d.now site (items_of kind) gear }
{
    match kind {
        Kind::Update(items) => has_items(d, site, gear, items),
        Kind::Move(_) => false,
        Kind::Pulse => false,
        Kind::Close(_) => false,
    }
}

fn has_items(d: &Deployment, site: u16, gear: u16, items: Items) -> bool
    ensures { result ≡ has_part d.now site (list_of items) gear }
{
    match items {
        Items::One(a) => has_some(d, site, gear, &[a]),
        Items::Two(a, b) => has_some(d, site, gear, &[a, b]),
        Items::Three(a, b, c) => has_some(d, site, gear, &[a, b, c]),
        Items::Four(a, b, c, e) => has_some(d, site, gear, &[a, b, c, e]),
    }
}

// Whether a gear has one of these items, of those that its site keeps.
#[tactic(auto, using(sat_parts_opened::proofs::Loops::has_more))]
fn has_some(d: &Deployment, site: u16, gear: u16, items: &[u16]) -> bool
    ensures { result ≡ has_part d.now site items.now gear }
{
    match items.split_first() {
        None => false,
        Some((item, rest)) => { has_item(d, site, gear, *item) || has_some(d, site, gear, rest) }
    }
}

// Whether a site keeps an item, and it is of this gear.
#[tactic(auto, unfolding(sat_act::specs::Parts::replicates))]
fn has_item(d: &Deployment, site: u16, gear: u16, item: u16) -> bool
    ensures { result ≡ (replicates d.now item site && (item % d.now.gears == gear)) }
{
    if item % d.gears() != gear {
        return false;
    }
    match d.items().get(usize::from(item)) {
        None => false,
        Some(found) => found.replicas.has(site),
    }
}
