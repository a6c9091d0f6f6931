//! Settle, proved on histories: its rounds end, within their bound, and where it can it ends at rest.
#![tactic(auto)]

ghost use Rattle.sat_rest.specs.Laws.{AnswersIgnoreFlags, EveryActPrintsOnce, EveryRunIsGood, EveryRunIsOfActs};
ghost use Rattle.sat_rest.specs.Laws.{EverySettleRests, EverySettleSettles};

/// Every settle does its acts until they are refused, ends with a quiet round, and takes no more rounds than its bound.
/// Where it can, it ends at rest. Of the entries of a run all but one for each act are inner, and every run is good.
/// Each history that is a run is, flags aside, the run of a list of acts; no answer depends on flags.
pub fn settles_all()
    ensures settles { EverySettleSettles }
    ensures rests { EverySettleRests }
    ensures prints { EveryActPrintsOnce }
    ensures runs { EveryRunIsGood }
    ensures back { EveryRunIsOfActs }
    ensures flags { AnswersIgnoreFlags }
{}
