//! The laws of histories that were told, beside those of runs.
ghost use Rattle.sat_told.specs.Laws.{EveryRunIsJudgedGood, RunsNameLabelsWell, TheLawsAreOne};

/// The history that a run told has the verdict of three yeses.
pub fn every_run_is_judged_good()
    ensures { EveryRunIsJudgedGood }
{}

/// The entries of a run name labels well: each that is read or shown was made before, at a point of its own, by an act
/// that makes such.
pub fn runs_name_labels_well()
    ensures { RunsNameLabelsWell }
{}

/// Where the entries of a history name labels well, be it a run or not, it is causal, shows once and reads fresh as the
/// laws of runs say exactly where what it told does so as the laws of told histories say.
pub fn the_laws_are_one()
    ensures { TheLawsAreOne }
{}
