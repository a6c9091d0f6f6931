//! Sites that last: a site whose inputs are journalled on a disk, and made again from it after a stop.
#![tactic(auto)]

ghost use Rattle.sat_lasting.specs.Laws.{AllHaveBodies};

mod cut;
mod kept_site;
mod lasting;
mod places;
mod slot;

pub use kept_site::KeptSite;
pub use lasting::Lasting;

/// What fits a site of a deployment has a body: the test of bodies refuses nothing there.
pub fn kept_sites()
    ensures { AllHaveBodies }
{}
