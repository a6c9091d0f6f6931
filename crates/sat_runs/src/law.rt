//! What every list of acts gives.
ghost use Rattle.sat_runs.specs.Good.{EveryListIsGood};

use sat_laws::headline;
use sat_rest::settles_all;

/// The history of a deployment's acts is good: each site shows each update at most once and after every cause that it
/// keeps, no client reads older than it saw, what a site shows it shows whole, and where nothing waits or is under way
/// each site holds its items' greatest versions. Each settle in it ends within its bound, and where it can, at rest.
pub fn good_runs()
    ensures { EveryListIsGood }
{
    // Brings these laws into the proof; they do nothing when they run.
    headline();
    settles_all();
}
