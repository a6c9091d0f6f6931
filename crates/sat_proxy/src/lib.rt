//! What a site has of the other sites: payloads, beats, and how far it knows each of them.
#![tactic(auto)]

ghost use Rattle.sat_proxy.specs.Laws.{Starts, EachAnswers, EachFollows};

mod asks;
mod known;
mod proxy;
mod tells;

pub use proxy::{Proxy, StampFault, TurnFault, Turned};

/// What a site has of the others answers what the machine of the model answers in each state that it stands for, and
/// each call makes of it what the machine makes of that state.
pub fn proxy_laws()
    ensures starts { Starts }
    ensures answers { EachAnswers }
    ensures follows { EachFollows }
{}
