//! What every good script gives.
ghost use Rattle.sat_pieces.specs.Good.{EveryReadingIsGood};

use sat_laws::headline;
use sat_rest::settles_all;
use sat_stream::one_spelling;

/// A text that is read without a fault spells a deployment and acts, and the report of their history is what `run`
/// writes. In this history each site shows each update at most once and after every cause that it keeps, no client
/// reads older than it saw, and where nothing waits or is under way each site holds its items' greatest versions; each
/// settle ends within its bound, and where it can, at rest.
pub fn good_scripts()
    ensures { EveryReadingIsGood }
{
    // Brings these laws into the proof; they do nothing when they run.
    headline();
    settles_all();
    one_spelling();
}
