//! The world: all sites, links and clients of a deployment on one thread.
#![tactic(auto)]

ghost use Rattle.sat_world.specs.Laws.{FlagsStayFree, UndoneKeeps};

mod clocks;
mod nets;
mod places;
mod repeating;
mod start;
mod tally;
mod underway;
mod world;

pub use sat_client::Client;
pub use sat_site::SiteView;
pub use sat_store::Version;
pub use world::World;

/// A world doesn't know of entries that were not done, nor of the entry of a settle beside its inner ones, nor of an
/// entry's flag.
pub fn world_laws()
    ensures flags { FlagsStayFree }
    ensures undone { UndoneKeeps }
{}
