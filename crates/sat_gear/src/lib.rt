//! A gear of a site: it stamps the updates of its items, keeps their versions, and holds what it made for other sites
//! (Bravo, Rodrigues and Van Roy, EuroSys 2017).
#![tactic(auto)]

mod gear;
mod lane;
mod lanes;
mod stamped;

ghost use Rattle.sat_gear.specs.Gear.{EachLane};

pub use gear::Gear;
pub use stamped::{GearFault, Stamped};

/// What a write does to the lane of each site.
pub fn lane_laws()
    ensures { EachLane }
{}
