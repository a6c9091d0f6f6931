//! Messages of a store over a transport that loses, delays, doubles and reorders: the journals of its nodes fit
//! together.
#![tactic(auto)]

ghost use Rattle.sat_host_laws.specs.Messages.{StoresFit, StoresAreRuns, StoresAreGood, OneMore, StaysSent};

/// Journals of hosts that keep what hosts keep, over a transport that makes nothing up, are kept lists that fit, and
/// with what sessions kept one run. What was taken once fits the next, and what was sent stays sent.
pub fn hosting()
    ensures stores { StoresFit }
    ensures store_runs { StoresAreRuns }
    ensures store_good { StoresAreGood }
    ensures more { OneMore }
    ensures stays { StaysSent }
{}
