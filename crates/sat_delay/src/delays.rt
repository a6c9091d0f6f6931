//! Tables of delays.
ghost use Rattle.std.specs.Prelude.{◌≡◌, ◌<◌};
ghost use Rattle.sat_delay.specs.Table.{entry, IsWithinLimits};

use crate::rows::Rows;
use std::marker::Model;

/// A table of delays: 1 to 16 sites and 1 to 32 places, with milliseconds of at most 100,000 and weights of at most
/// 1,000,000. Contracts see its numbers of sites and places and its matrices as lists of rows.
#[derive(Drop)]
pub struct Delays {
    sites: u16,
    places: u16,
    reach: Rows,
    between: Rows,
    optimal: Rows,
    weight: Rows,
}

impl Model for Delays {
    ghost use Rattle.sat_delay.specs.Table.{DelayTable, IsWithinLimits};

    ghost Value = { DelayTable };

    ghost view = { λ a. record {
      sites = a.sites;
      places = a.places;
      reach = a.reach;
      between = a.between;
      optimal = a.optimal;
      weight = a.weight;
    } };

    ghost invariant = { λ a.
        IsWithinLimits
        (record {
          sites = a.sites;
          places = a.places;
          reach = a.reach;
          between = a.between;
          optimal = a.optimal;
          weight = a.weight;
        }) };
}

impl Delays {
    /// The table with these parts.
    pub(crate) fn new(
        sites: u16,
        places: u16,
        reach: Rows,
        between: Rows,
        optimal: Rows,
        weight: Rows,
    ) -> Delays
        requires { IsWithinLimits
            (record {
              sites = sites;
              places = places;
              reach = reach;
              between = between;
              optimal = optimal;
              weight = weight;
            }) }
        ensures { result ≡ record {
          sites = sites;
          places = places;
          reach = reach;
          between = between;
          optimal = optimal;
          weight = weight;
        } }
    {
        Delays {
            sites,
            places,
            reach,
            between,
            optimal,
            weight,
        }
    }

    /// The number of sites, 1 to 16.
    pub fn sites(&self) -> u16
        ensures sites { result ≡ self.now.sites }
        ensures limits { IsWithinLimits self.now }
    {
        self.sites
    }

    /// The number of places, 1 to 32.
    pub fn places(&self) -> u16
        ensures places { result ≡ self.now.places }
        ensures limits { IsWithinLimits self.now }
    {
        self.places
    }

    /// The milliseconds between a site and a place, either way, at most 100,000.
    pub fn reach(&self, i: u16, p: u16) -> u64
        requires site { i < self.now.sites }
        requires place { p < self.now.places }
        ensures reach { result ≡ entry self.now.reach i p }
        ensures limits { IsWithinLimits self.now }
    {
        self.reach.entry(i, p)
    }

    /// The milliseconds from one place to another, at most 100,000.
    pub fn between(&self, p: u16, q: u16) -> u64
        requires from { p < self.now.places }
        requires to { q < self.now.places }
        ensures between { result ≡ entry self.now.between p q }
        ensures limits { IsWithinLimits self.now }
    {
        self.between.entry(p, q)
    }

    /// The best milliseconds from one site to another, at most 100,000.
    pub fn optimal(&self, i: u16, k: u16) -> u64
        requires from { i < self.now.sites }
        requires to { k < self.now.sites }
        ensures optimal { result ≡ entry self.now.optimal i k }
        ensures limits { IsWithinLimits self.now }
    {
        self.optimal.entry(i, k)
    }

    /// How much it weighs that one site hears another late or early, at most 1,000,000.
    pub fn weight(&self, i: u16, k: u16) -> u64
        requires from { i < self.now.sites }
        requires to { k < self.now.sites }
        ensures weight { result ≡ entry self.now.weight i k }
        ensures limits { IsWithinLimits self.now }
    {
        self.weight.entry(i, k)
    }
}
