//! Hubs, gears and serializers that took from links only what the other ends put there: their journals fit together. So
//! do those of running nodes whose locks were taken apart.
#![tactic(auto)]

mod entries;

ghost use Rattle.sat_parts_opened.specs.Laws.{FitsJoin, GearJournals, GearsAreKept, GearsAreParts, GearsHaveOwners};
ghost use Rattle.sat_parts_opened.specs.Laws.{HostsAreRuns, HostsFit, HostsStand, HubJournals, HubsAreKept};
ghost use Rattle.sat_parts_opened.specs.Laws.{HubsAreParts, HubsHaveOwners, NodesCover, OpenedAreHosts};
ghost use Rattle.sat_parts_opened.specs.Laws.{OpenedAreJournals, OpenedAreRuns, OpenedFit, OpenedStand, OwnAreHomes};
ghost use Rattle.sat_parts_opened.specs.Laws.{SerialJournals, SerialsAreKept};
ghost use Rattle.sat_parts_opened.specs.Collected.{GearsGive, GearsKeepParts, HubPartsKept, HubsGive};
ghost use Rattle.sat_parts_opened.specs.Within.{AgreeIfWithin, WithinIfAgree};

pub use entries::{gear_entries, hub_entries};

/// The journals of all opened hubs, gears and serializers fit; where the parts of hubs and gears agree, with sessions
/// that fit they are one run, in which each site's state is that of its hub and its gears.
pub fn parts_opening()
    ensures nodes { OpenedFit }
    ensures whole { FitsJoin }
    ensures runs { OpenedAreRuns }
    ensures states { OpenedStand }
{}

/// The same of hubs, gears and serializers that took nothing from a link but what the other end's journal put there.
/// Opened nodes are such.
pub fn parts_delivering()
    ensures fit { HostsFit }
    ensures runs { HostsAreRuns }
    ensures states { HostsStand }
    ensures opened { OpenedAreHosts }
{}

/// What was kept at each node is its journal, each entry with whether the node is the act's home; each node has one
/// place among all; and an entry is of its client's session, of the operator's, or of none.
pub fn parts_named()
    ensures journals { OpenedAreJournals }
    ensures hubs { HubsAreKept }
    ensures gears { GearsAreKept }
    ensures serials { SerialsAreKept }
    ensures hub_parts { HubsAreParts }
    ensures gear_parts { GearsAreParts }
    ensures hub_journals { HubJournals }
    ensures gear_journals { GearJournals }
    ensures own { OwnAreHomes }
    ensures serial_journals { SerialJournals }
    ensures hub_owners { HubsHaveOwners }
    ensures gear_owners { GearsHaveOwners }
    ensures nodes { NodesCover }
{}

/// The parts of hubs and gears agree exactly where those of all pairs of a gear and a home of its site do, and no gear
/// kept a part of an act of a home that there is not.
pub fn parts_within()
    ensures agree { AgreeIfWithin }
    ensures within { WithinIfAgree }
{}

/// The parts of a gear, in the journal of a home and in its own, are those that each entry alone tells.
pub fn parts_collected()
    ensures hubs { HubsGive }
    ensures gears { GearsGive }
    ensures kept { GearsKeepParts }
    ensures of_hub { HubPartsKept }
{}
