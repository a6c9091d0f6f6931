//! The headline, proved on histories: every history whose entries have the answers of their acts is causal, shows each
//! update once, is fresh, whole and settled.
#![tactic(auto)]

ghost use Rattle.sat_laws.specs.Laws.{EveryHistoryIsGood};

/// Every history whose entries have the answers of their acts is causal, shows each update once, is fresh, whole and
/// settled.
pub fn headline()
    ensures { EveryHistoryIsGood }
{}
