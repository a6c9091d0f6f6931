//! Runs of acts: a list of acts done one after another on a world, the text of their answers, and that their history is
//! good.
#![tactic(auto)]

mod acts;
mod law;

pub use acts::{answer_acts, do_act};
pub use law::good_runs;
