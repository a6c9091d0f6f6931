//! What every drawing of a good script gives.
ghost use Rattle.sat_top.specs.Drawing.{EveryDrawingIsGood};

use sat_laws::headline;
use sat_rest::settles_all;
use sat_stream::one_spelling;

/// A text that is read without a fault spells a deployment and acts, and what `draw` makes of it is the drawing of
/// their run, in which each act is drawn once and each line of a label, a payload or a beat begins where it was left
/// last.
pub fn good_drawings()
    ensures { EveryDrawingIsGood }
{
    // Brings these laws into the proof; they do nothing when they run.
    headline();
    settles_all();
    one_spelling();
}
