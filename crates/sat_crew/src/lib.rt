//! A crew: each session of a cluster of hubs, gears and serializers does its acts of a script, in a thread of its own,
//! each serializer makes its passes in one, and each site those of its hub and of its gears.
#![tactic(auto)]

mod acting;
mod fault;
mod passing;
mod pause;
mod roll;
mod serving;
mod together;
mod worker;

ghost use Rattle.sat_crew.specs.Crews.{GiveFronts};

pub use fault::CrewFault;
pub use together::crew;

/// Where a journal has of the sessions that came back what they noted, and of no other session anything, what each
/// session did in it is a front of its acts, each in its turn.
pub fn fronts()
    ensures fronts { GiveFronts }
{}
