//! How many updates were shown.
ghost use Rattle.std.specs.Prelude.{◌≡◌};
ghost use Rattle.sat_world.specs.Counts.{counted};

use sat_act::Answer;

/// The number of answers Shown, after one more answer.
pub fn more_shown(shown: u64, answer: &Answer) -> u64
    ensures { result ≡ counted answer.now shown }
{
    match answer {
        Answer::Shown(_) => shown.saturating_add(1),
        _ => shown,
    }
}
