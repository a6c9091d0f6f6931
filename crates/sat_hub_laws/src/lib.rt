//! A site is its hub and its gears.
#![tactic(auto)]

ghost use Rattle.sat_hub_laws.specs.Changes.{GearsChange, HubsChange};
ghost use Rattle.sat_hub_laws.specs.Laws.{GearsAnswer, GearsAreHomes, GearsReplay, HubsAnswer, HubsAreHomes};
ghost use Rattle.sat_hub_laws.specs.Laws.{HubsReplay, HubsStandAt, JournalsAreRuns, JournalsJoin, SitesAreReplayed};
ghost use Rattle.sat_hub_laws.specs.Laws.{WritesStandAt};
ghost use Rattle.sat_hub_laws.specs.Parts.{InputsShare, PartsAreExact, PartsHaveHomes, PartsJoin, PartsRise};
ghost use Rattle.sat_hub_laws.specs.Sites.{GearsActAlone, GearsWrite, HubsActAlone, HubsGather, HubsShow};

/// What the hub and the gears of a site answer and become in an act, handed what they give one another, is what the
/// site answers and becomes: in an act of the hub or of a gear alone the other nodes stay; a gather drains the gears
/// that gave what it was handed; in a turn or a stamp that shows, and in a write of several items, the gears of the
/// items show the payload.
pub fn site_acts()
    ensures hubs { HubsActAlone }
    ensures gather { HubsGather }
    ensures shows { HubsShow }
    ensures gears { GearsActAlone }
    ensures writes { GearsWrite }
{}

/// What each act makes of a hub and of a gear: which part of it changes, and how.
pub fn node_changes()
    ensures hubs { HubsChange }
    ensures gears { GearsChange }
{}

/// Machines of hubs and gears do acts of the table of nodes: each is the home of its own acts, whose answers are the
/// machines', and its state is the replay of its journal. So journals that fit, merged with each act once at its home,
/// are a run, in which each site's state is that of its hub and its gears.
pub fn node_journals()
    ensures hubs { HubsAreHomes }
    ensures gears { GearsAreHomes }
    ensures beside { HubsStandAt }
    ensures written { WritesStandAt }
    ensures hub_answers { HubsAnswer }
    ensures gear_answers { GearsAnswer }
    ensures hub_states { HubsReplay }
    ensures gear_states { GearsReplay }
    ensures joined { JournalsJoin }
    ensures runs { JournalsAreRuns }
    ensures states { SitesAreReplayed }
{}

/// Where for each gear and each home at its site the parts that both kept of their acts are one list, each act of
/// several nodes stands at all of them, and each part has its home. Of lists that fit they are one list. The numbers of
/// parts rise. What a gear kept of an act stands in what it was handed.
pub fn same_parts()
    ensures joined { PartsJoin }
    ensures homes { PartsHaveHomes }
    ensures exact { PartsAreExact }
    ensures rising { PartsRise }
    ensures shares { InputsShare }
{}
