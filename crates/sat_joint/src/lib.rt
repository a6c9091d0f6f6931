//! Kept lists of hubs and gears, merged, are one run.
#![tactic(auto)]

mod journal;

ghost use Rattle.sat_joint.specs.Compare.{CopiesHaveHomes, OthersJoin, SamePartsJoin, WrittenHaveHomes};
ghost use Rattle.sat_joint.specs.Journals.{JointStitchesAreRuns, JointStitchesMerge};
ghost use Rattle.sat_joint.specs.Laws.{JointActsAreEnough, JointListsAreParts, JointMergesAreGood, JointMergesAreRuns};
ghost use Rattle.sat_joint.specs.Laws.{JointSessionsAreParts};
ghost use Rattle.sat_joint.specs.Split.{JointRunsFit};
ghost use Rattle.sat_joint.specs.Steps.{GearsStep, HubsStep};

pub use journal::{Journal, KeptEntries, stitch};

/// A site is its hub and its gears: what an entry does at the site is what it does at its nodes there.
pub fn site_nodes()
    ensures hubs { HubsStep }
    ensures gears { GearsStep }
{}

/// Kept lists of hubs, gears, serializers and sessions that fit, merged with each act once, at its home, are a run;
/// each list is the run's part at its node, and each session's its part of the client's. The lists of each run fit.
pub fn joint_merging()
    ensures runs { JointMergesAreRuns }
    ensures acts { JointActsAreEnough }
    ensures parts { JointListsAreParts }
    ensures sessions { JointSessionsAreParts }
    ensures good { JointMergesAreGood }
    ensures stitched { JointStitchesMerge }
    ensures whole { JointStitchesAreRuns }
    ensures every { JointRunsFit }
{}

/// What has to be compared at the end: where each gear that is not the home of an act kept the same part of it as
/// the home, the act is joined, and where such a part is one with a piece at a home, it has that home.
pub fn comparing()
    ensures parts { SamePartsJoin }
    ensures others { OthersJoin }
    ensures copies { CopiesHaveHomes }
    ensures written { WrittenHaveHomes }
{}
