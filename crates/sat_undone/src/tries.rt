//! Attaches that have to wait, and are tried again.
ghost use Rattle.std.specs.Prelude.{◌≡◌};
ghost use Rattle.sat_undone.specs.Undone.{has_to_wait, is_attach, is_not_yet};

use sat_act::{Act, Answer, Refusal};

/// How many attaches in a row a client tries that have to wait. Behind so many it stops.
pub const MOST_TRIES: u64 = 1_000;

fn is_attach(act: &Act) -> bool
    ensures { result ≡ is_attach act.now }
{
    match act {
        Act::Attach { .. } => true,
        _ => false,
    }
}

fn is_not_yet(answer: &Answer) -> bool
    ensures { result ≡ is_not_yet answer.now }
{
    match answer {
        Answer::Refused(Refusal::NotYet) => true,
        _ => false,
    }
}

/// Whether an act with this answer is an attach that has to wait: its client tries it again, `MOST_TRIES` times in a
/// row at the most.
pub fn has_to_wait(act: &Act, answer: &Answer) -> bool
    ensures { result ≡ has_to_wait act.now answer.now }
{
    is_attach(act) && is_not_yet(answer)
}
