//! The cut of a site, proved on histories: it says which labels the site sent, they were sent in order, and it never
//! falls.
#![tactic(auto)]

ghost use Rattle.sat_cuts.specs.Laws.{CutIsWhatWasSent, SentInLabelOrder, SentBySite, CutNeverFalls};
ghost use Rattle.sat_cuts.specs.Laws.{CutNeverFallsLater, CutIsStable};

/// A made label of a site was sent exactly where its point is at or below the site's cut. Made labels leave a site in
/// their order, each once, and each label that a site sends is of that site. The cut never falls, and is never above
/// the site's stable timestamp.
pub fn sinks_tell_the_truth()
    ensures told { CutIsWhatWasSent }
    ensures order { SentInLabelOrder }
    ensures own { SentBySite }
    ensures rises { CutNeverFalls }
    ensures later { CutNeverFallsLater }
    ensures stable { CutIsStable }
{}
