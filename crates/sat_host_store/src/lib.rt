//! A store over a transport of the builder's is one run, and its sessions note what its hosts do.
#![tactic(auto)]

ghost use Rattle.sat_host_store.specs.Noting.{StoresNote};
ghost use Rattle.sat_host_store.specs.Stores.{StoresAreOneRun, StoresHold};

/// Hosts that keep what hosts keep, over a transport that makes nothing up, with sessions that noted the same acts, are
/// one run, of which the headline holds.
pub fn storing()
    ensures run { StoresAreOneRun }
    ensures good { StoresHold }
{}

/// Hosts and sessions that began together noted the same acts, whatever sessions asked of hosts since and whatever else
/// hosts took: the last premise of a store.
pub fn noting()
    ensures same { StoresNote }
{}
