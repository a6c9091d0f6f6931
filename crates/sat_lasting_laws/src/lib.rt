//! Sites that last: each keeps its inputs on a disk, and is made again from it after a stop. The acts of scripts with
//! stops, which of them are kept, and the laws of their histories.
#![tactic(auto)]

mod lasting_act;
mod lasting_answer;

ghost use Rattle.sat_lasting_laws.specs.Goals.{EveryLastingIsGood, HandedThere, ListedReach};

pub use lasting_act::{LastingAct, MOST_CALLS};
pub use lasting_answer::LastingAnswer;

/// Every history with stops whose entries have the answers of their acts is good: its plain answers, and those behind a
/// stop, are those of the run of the kept acts, for which the headline holds. Which site an act is an act at is the
/// site that the model hands it to: none for a leave, a hop and a kill, and for an act that is refused since its client
/// has no seat or has one, or since there is no such payload or beat; for every other act, refused or not, there is
/// one.
pub fn lastings_are_good()
    ensures good { EveryLastingIsGood }
    ensures handed { HandedThere }
    ensures reach { ListedReach }
{}
