//! Sets of sites.
ghost use Rattle.std.specs.Prelude.{◌≡◌, ℕ, ◌<◌, ◌≤◌, ◌==◌, ◌&&◌, ◌||◌, not, true, nat_lt, IsTrue, ◌↔◌};
ghost use Rattle.sat_label.specs.Words.{are_sites, bit};

/// A set of sites below 64, one bit each.
#[derive(Clone, Copy, Debug, PartialEq, Eq)]
pub struct SiteSet {
    pub bits: u64,
}

impl SiteSet {
    /// The empty set.
    pub fn none() -> SiteSet
        ensures { (k : ℕ) → bit result.bits k ≡ Rattle.std.specs.Prelude.false }
    {
        SiteSet { bits: 0 }
    }

    /// The set of one site.
    pub fn one(site: u16) -> SiteSet
        requires { site < 64 }
        ensures { (k : ℕ) → bit result.bits k ≡ (k == site) }
    {
        SiteSet { bits: 1 << site }
    }

    /// The set of all sites below a number, at most 64.
    pub fn all(sites: u16) -> SiteSet
        requires { sites ≤ 64 }
        ensures { (k : ℕ) → bit result.bits k ≡ nat_lt k sites }
    {
        if sites == 0 {
            return SiteSet { bits: 0 };
        }
        SiteSet {
            bits: u64::MAX >> (64 - sites),
        }
    }

    /// Whether a site is in the set; none from 64 on is.
    pub fn has(&self, site: u16) -> bool
        ensures { result ≡ bit self.now.bits site }
    {
        let bits = self.bits;
        site < 64 && (bits >> site) & 1 == 1
    }

    /// The set with one site more.
    pub fn with(&self, site: u16) -> SiteSet
        requires { site < 64 }
        ensures { (k : ℕ) → bit result.bits k ≡ (bit self.now.bits k || (k == site)) }
    {
        SiteSet {
            bits: self.bits | (1 << site),
        }
    }

    /// The sites of this set and of another.
    pub fn plus(&self, other: &SiteSet) -> SiteSet
        ensures { (k : ℕ) → bit result.bits k ≡ (bit self.now.bits k || bit other.now.bits k) }
    {
        SiteSet {
            bits: self.bits | other.bits,
        }
    }

    /// The set without the sites of another.
    pub fn minus(&self, other: &SiteSet) -> SiteSet
        ensures { (k : ℕ) → bit result.bits k ≡ (bit self.now.bits k && not (bit other.now.bits k)) }
    {
        SiteSet {
            bits: self.bits & !other.bits,
        }
    }

    /// Whether the set has a site, and only sites below a number, at most 64.
    #[tactic(auto, using(crate::proofs::Bits::shifted))]
    pub fn is_among(&self, sites: u16) -> bool
        requires { sites ≤ 64 }
        ensures { result ≡ are_sites sites self.now.bits }
    {
        let bits = self.bits;
        if bits == 0 {
            return false;
        }
        sites == 64 || bits >> sites == 0
    }

    /// Whether the two sets have a site in common.
    pub fn meets(&self, other: &SiteSet) -> bool
        ensures { IsTrue result ↔ ((k : ℕ) × (bit self.now.bits k ≡ true) × (bit other.now.bits k ≡ true)) }
    {
        self.bits & other.bits != 0
    }
}
