//! The stop or cut that the words of a line say.
ghost use Rattle.std.specs.Prelude.{◌≡◌, map, Ok};
ghost use Rattle.sat_script.specs.Lines.{Gives};
ghost use Rattle.sat_script.specs.Said.{said_of};
ghost use Rattle.sat_script.specs.Table.{place_at, num_at};
ghost use Rattle.sat_lasting_script.specs.Forms.{said_step, step_words};

use crate::form::{LastingForm, kinds_of};
use sat_lasting_laws::{LastingAct, MOST_CALLS};
use sat_script::{Cause, Reader, Said};

fn place_at(said: &[Said], k: usize) -> u16
    ensures { result ≡ place_at (map said_of said.now) k }
{
    match said.get(k) {
        Some(Said::Place(place)) => *place,
        _ => 0,
    }
}

fn num_at(said: &[Said], k: usize) -> u64
    ensures { result ≡ num_at (map said_of said.now) k }
{
    match said.get(k) {
        Some(Said::Number(number)) => *number,
        _ => 0,
    }
}

// The act that words of a form say, unless a number is out of its range.
fn said_step(form: LastingForm, said: &[Said]) -> Result<LastingAct, Cause>
    ensures { Gives result (said_step form (Ok (map said_of said.now))) }
{
    let site = place_at(said, 0);
    match form {
        LastingForm::Stop => Ok(LastingAct::Stop { site }),
        LastingForm::Cut => {
            let calls = num_at(said, 1);
            let keep = num_at(said, 2);
            if calls > MOST_CALLS {
                return Err(Cause::OutOfRange);
            }
            if keep > 1 {
                return Err(Cause::OutOfRange);
            }
            Ok(LastingAct::Cut {
                site,
                calls,
                keep: keep == 1,
            })
        }
    }
}

/// The stop or cut that the words of a line after the first say.
#[tactic(auto, unfolding(crate::specs::Forms::step_words))]
pub(crate) fn step_words(
    reader: &Reader,
    form: LastingForm,
    words: &[&[u8]],
) -> Result<LastingAct, Cause>
    ensures { Gives result (step_words reader.now.state form (map (λ word. word.now) words.now)) }
{
    match reader.said(kinds_of(form), words) {
        Ok(said) => said_step(form, said.as_slice()),
        Err(cause) => Err(cause),
    }
}
