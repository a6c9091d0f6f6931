//! Nodes that took from links only what the other ends put there: their journals fit together. So do those of running
//! nodes whose locks were taken apart.
#![tactic(auto)]

mod entries;
mod opened;

ghost use Rattle.sat_opened.specs.Laws.{OpenedFit, OpenedAreJournals, SitesAreKept, SerialsAreKept, SiteJournals};
ghost use Rattle.sat_opened.specs.Laws.{SerialJournals, SitesHaveOwners, SerialsHaveOwners, PlacesCover, FitsJoin};
ghost use Rattle.sat_opened.specs.Laws.{OpenedAreRuns};
ghost use Rattle.sat_opened.specs.Hosts.{HostsFit, HostsJoin, HostsAreRuns, HostsAreGood, OpenedAreHosts};

pub use entries::{serial_entries, serial_journal, site_entries, site_journal};
pub use opened::open_nodes;

/// The journals of all opened nodes are kept lists that fit; with what sessions kept they make one run.
pub fn opening()
    ensures nodes { OpenedFit }
    ensures journals { OpenedAreJournals }
    ensures sites { SitesAreKept }
    ensures serials { SerialsAreKept }
    ensures site_journals { SiteJournals }
    ensures serial_journals { SerialJournals }
    ensures owners { SitesHaveOwners }
    ensures kills { SerialsHaveOwners }
    ensures places { PlacesCover }
    ensures whole { FitsJoin }
    ensures runs { OpenedAreRuns }
{}

/// Journals whose nodes took nothing from a link but what the other end's journal put there are kept lists that fit,
/// and with what sessions kept one run.
pub fn delivering()
    ensures fit { HostsFit }
    ensures join { HostsJoin }
    ensures runs { HostsAreRuns }
    ensures good { HostsAreGood }
    ensures opened { OpenedAreHosts }
{}
