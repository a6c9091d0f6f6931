//! The link for the payloads of a gear to another site.
ghost use Rattle.std.specs.Prelude.{◌≡◌};
ghost use Rattle.sat_parts.specs.Layout.{lane, lane_eq};

use std::marker::Model;

/// The lane of a gear of a site to another site.
#[derive(Drop)]
pub struct Lane {
    site: u16,
    gear: u16,
    to: u16,
}

impl Model for Lane {
    ghost use Rattle.sat_parts.specs.Layout.{Lane as LaneSeen};

    ghost Value = { LaneSeen };

    ghost view = { λ l. record { site = l.site; gear = l.gear; to = l.to } };
}

impl Lane {
    /// That of this gear of this site to that site.
    pub fn new(site: u16, gear: u16, to: u16) -> Lane
        ensures { result ≡ lane site gear to }
    {
        Lane { site, gear, to }
    }

    /// Whether the two are one lane.
    pub fn is_same(&self, other: &Lane) -> bool
        ensures { result ≡ lane_eq self.now other.now }
    {
        self.site == other.site && (self.gear == other.gear && self.to == other.to)
    }
}
