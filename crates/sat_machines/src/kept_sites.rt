//! The sites that keep the items of a write.
ghost use Rattle.std.specs.Prelude.{ℕ, ◌≡◌};
ghost use Rattle.sat_label.specs.Grouped.{list_of};
ghost use Rattle.sat_label.specs.Words.{bit};
ghost use Rattle.sat_sites.specs.Interested.{keeps, keeps_one};

use sat_label::{Items, SiteSet};
use sat_sites::Interest;

// The sites that keep an item, none where there is no such item.
#[tactic(auto, using(crate::proofs::Keepers::kept_here, crate::proofs::Keepers::kept_nowhere))]
fn kept_by(interest: &Interest, item: u16) -> SiteSet
    ensures { (k : ℕ) → bit result.bits k ≡ keeps interest.now item k }
{
    if usize::from(item) < interest.items() {
        interest.replicas(item)
    } else {
        SiteSet::none()
    }
}

/// The sites that keep one of some items.
pub fn kept_by_one(interest: &Interest, items: &Items) -> SiteSet
    ensures { (k : ℕ) → bit result.bits k ≡ keeps_one interest.now (list_of items.now) k }
{
    match *items {
        Items::One(a) => kept_by(interest, a),
        Items::Two(a, b) => kept_by(interest, a).plus(&kept_by(interest, b)),
        Items::Three(a, b, c) => kept_by(interest, a)
            .plus(&kept_by(interest, b))
            .plus(&kept_by(interest, c)),
        Items::Four(a, b, c, d) => kept_by(interest, a)
            .plus(&kept_by(interest, b))
            .plus(&kept_by(interest, c))
            .plus(&kept_by(interest, d)),
    }
}
