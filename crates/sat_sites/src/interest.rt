//! Which sites keep each item.
ghost use Rattle.std.specs.Prelude.{◌≡◌, ◌<◌, ◌≤◌, ℕ, length, Some, slice_get, IfOk, IfSome, IsErrOf, IsOkUnless};
ghost use Rattle.std.specs.Prelude.{MatchOption};
ghost use Rattle.sat_label.specs.Words.{bit, first_failing};
ghost use Rattle.sat_label.specs.Grouped.{list_of};
ghost use Rattle.sat_sites.specs.Interested.{are_below, first_bad, is_for, keeps_one, AreBelow, Interested, IsLabelOf};

use sat_label::{Items, Kind, Label, SiteSet};
use std::alloc::{AllocError, Global};
use std::marker::Model;
use std::sync::ArcSlice;
use thiserror::Error;

/// Why no interest was made.
#[derive(Clone, Copy, Debug, PartialEq, Eq, Drop, Error)]
pub enum InterestFault {
    /// The first item that is kept nowhere, or at a site that is none.
    #[error("item {0} is kept nowhere, or at a site that is none")]
    BadItem(usize),
    /// There was no memory for it.
    #[error("out of memory")]
    Memory,
}

impl From<AllocError> for InterestFault {
    ghost use Rattle.std.specs.Prelude.{◌≡◌};
    ghost use Rattle.sat_sites.specs.declared.interest.InterestFault.TheVariants.{Memory};

    ghost from_gives = { λ _ fault. fault ≡ Memory };

    fn from(_error: AllocError) -> InterestFault {
        InterestFault::Memory
    }
}

/// For each item the sites that keep it, at least one and all below the number of sites, which is at most 64.
#[derive(Drop)]
pub struct Interest {
    sites: u16,
    replicas: ArcSlice<SiteSet>,
}

impl Model for Interest {
    ghost use Rattle.std.specs.Prelude.{◌≡◌, None, length};
    ghost use Rattle.sat_sites.specs.Interested.{Interested, IsInterest};
    ghost use Rattle.std.specs.Arc.{arc_slice_items};

    ghost Value = { Interested };

    ghost view = { λ a. record { sites = a.sites; replicas = arc_slice_items a.replicas } };

    ghost invariant = { λ a. IsInterest (record { sites = a.sites; replicas = arc_slice_items a.replicas }) };
}

// The first item whose set is not good.
fn first_bad(sites: u16, replicas: &[SiteSet]) -> Option<usize>
    requires { sites ≤ 64 }
    ensures { result ≡ first_bad sites replicas.now }
{
    replicas.iter().position(|set| !set.is_among(sites))
}

// The sites that keep one of some items.
fn joined(replicas: &[SiteSet], items: &Items) -> SiteSet
    requires { AreBelow (length replicas.now) (list_of items.now) }
    ensures { (a : Interested) (k : ℕ) → a.replicas ≡ replicas.now
        → bit result.bits k ≡ keeps_one a (list_of items.now) k }
{
    match *items {
        Items::One(a) => replicas[a as usize],
        Items::Two(a, b) => replicas[a as usize].plus(&replicas[b as usize]),
        Items::Three(a, b, c) => replicas[a as usize]
            .plus(&replicas[b as usize])
            .plus(&replicas[c as usize]),
        Items::Four(a, b, c, d) => replicas[a as usize]
            .plus(&replicas[b as usize])
            .plus(&replicas[c as usize])
            .plus(&replicas[d as usize]),
    }
}

impl Interest {
    ghost use Rattle.sat_sites.specs.Interested.{IsInterest};

    /// The sites that keep the items 0, 1 and so on. It asks for at most 64 sites.
    #[tactic(auto, using(crate::proofs::Sets::is_interest))]
    pub fn new(alloc: Global, sites: u16, replicas: &[SiteSet]) -> Result<Interest, InterestFault>
        requires { sites ≤ 64 }
        ensures made { IfOk result (λ a. a ≡ record { sites = sites; replicas = replicas.now }) }
        ensures fault { MatchOption (first_bad sites replicas.now)
            (IsOkUnless result InterestFault.Memory)
            (λ place. IsErrOf result (InterestFault.BadItem place)) }
    {
        if let Some(place) = first_bad(sites, replicas) {
            return Err(InterestFault::BadItem(place));
        }
        Ok(Interest::sound(alloc, sites, replicas)?)
    }

    // The interest of sets of which none is bad.
    fn sound(alloc: Global, sites: u16, replicas: &[SiteSet]) -> Result<Interest, AllocError>
        requires { IsInterest (record { sites = sites; replicas = replicas.now }) }
        ensures { IfOk result (λ a. a ≡ record { sites = sites; replicas = replicas.now }) }
    {
        let replicas = ArcSlice::from_slice(alloc, replicas)?;
        Ok(Interest { sites, replicas })
    }

    /// How many items there are.
    pub fn items(&self) -> usize
        ensures items { result ≡ length self.now.replicas }
        ensures limits { IsInterest self.now }
    {
        self.replicas.len()
    }

    /// Whether each of some items is one of these: below their number.
    pub fn knows(&self, items: &Items) -> bool
        ensures { result ≡ are_below (length self.now.replicas) (list_of items.now) }
    {
        let count = self.items();
        match *items {
            Items::One(a) => (a as usize) < count,
            Items::Two(a, b) => (a as usize) < count && (b as usize) < count,
            Items::Three(a, b, c) => {
                (a as usize) < count && (b as usize) < count && (c as usize) < count
            }
            Items::Four(a, b, c, d) => {
                (a as usize) < count
                    && (b as usize) < count
                    && (c as usize) < count
                    && (d as usize) < count
            }
        }
    }

    /// The sites that keep an item.
    pub fn replicas(&self, item: u16) -> SiteSet
        requires { item < length self.now.replicas }
        ensures replicas { slice_get self.now.replicas item ≡ Some result }
        ensures limits { IsInterest self.now }
    {
        self.replicas.as_slice()[item as usize]
    }

    /// The sites that a label is for: an Update for the sites of its items but its own, a Move for the site that it
    /// names, a Pulse or a Close for all sites but its own.
    #[tactic(auto, unfolding(crate::specs::Interested::is_for))]
    pub fn targets(&self, label: &Label) -> SiteSet
        requires { IsLabelOf self.now label.now }
        ensures targets { (k : ℕ) → bit result.bits k ≡ is_for self.now label.now k }
        ensures limits { IsInterest self.now }
    {
        let sites = self.sites;
        let own = SiteSet::one(label.point.site);
        match label.kind {
            Kind::Update(items) => joined(self.replicas.as_slice(), &items).minus(&own),
            Kind::Move(site) => SiteSet::one(site),
            Kind::Pulse => SiteSet::all(sites).minus(&own),
            Kind::Close(_) => SiteSet::all(sites).minus(&own),
        }
    }

    /// The same again.
    pub fn copy(&self) -> Result<Interest, AllocError>
        ensures { IfOk result (λ a. a ≡ self.now) }
    {
        let replicas = self.replicas.clone()?;
        Ok(Interest {
            sites: self.sites,
            replicas,
        })
    }
}
