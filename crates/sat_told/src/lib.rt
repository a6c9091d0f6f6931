//! What a run told, judged: its own history, as anybody reads it, has three yeses. And the laws of histories that were
//! told say what the laws of runs say, of every history whose entries name labels as those of a run do.
#![tactic(auto)]

mod law;

pub use law::{every_run_is_judged_good, runs_name_labels_well, the_laws_are_one};
