//! The updates that wait at a site for their turn, by the site that made them and their points.
#![tactic(auto)]

ghost use Rattle.sat_pool.specs.Laws.{AddCounts, AddKeeps, AddMembers, FoundWaits, NoneWaits, TakeCounts, TakeKeeps};
ghost use Rattle.sat_pool.specs.Laws.{TakeMembers, TakeOfNone, WaitingIsFound};

mod others;
mod pool;
mod rising;
mod row;

pub use pool::Pool;

/// Which updates wait, and how many, after one comes or is taken: a payload of a new point is one more, a taken one is
/// gone, and all others wait on. Points are all different: what waits is found by its point.
pub fn pool_laws()
    ensures add_members { AddMembers }
    ensures add_counts { AddCounts }
    ensures add_keeps { AddKeeps }
    ensures take_members { TakeMembers }
    ensures take_counts { TakeCounts }
    ensures take_of_none { TakeOfNone }
    ensures take_keeps { TakeKeeps }
    ensures found_waits { FoundWaits }
    ensures waiting_is_found { WaitingIsFound }
    ensures none_waits { NoneWaits }
{}
