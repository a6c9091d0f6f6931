//! What a line of a script for sites that last says.
ghost use Rattle.std.specs.Prelude.{◌≡◌, ◌↔◌, ◌≤◌, true, length, map, take, IsTrue};
ghost use Rattle.sat_script.specs.Grammar.{line_at};
ghost use Rattle.sat_script.specs.Lines.{Gives};
ghost use Rattle.sat_script.specs.Words.{is_text, words_of};
ghost use Rattle.sat_script.specs.declared.line.Stage.TheVariants as stage;
ghost use Rattle.sat_own_acts.specs.Lines.{of_script, own_line};
ghost use Rattle.sat_lasting_script.specs.Forms.{lasting_acts};

use crate::form::lasting_form;
use crate::step::step_words;
use arrayvec::ArrayVec;
use sat_lasting_laws::LastingAct;
use sat_own_acts::OwnParsed;
use sat_script::{Cause, LONGEST_LINE, Parsed, Reader, first_words};

// Whether the next line stands behind `begin` and before `end`.
fn is_in_body(reader: &Reader) -> bool
    ensures { IsTrue result ↔ (reader.now.state.stage ≡ stage.Body) }
{
    if reader.has_ended() {
        return false;
    }
    reader.deployment().is_some()
}

fn plain_line(reader: &Reader, line: &[u8]) -> Result<OwnParsed<LastingAct>, Cause>
    ensures { Gives result (of_script (line_at reader.now.state line.now)) }
{
    match reader.parse(line) {
        Ok(parsed) => Ok(OwnParsed::Plain(parsed)),
        Err(cause) => Err(cause),
    }
}

// What a line says behind `begin`, by its first eleven words.
fn words_line(reader: &Reader, line: &[u8], words: &[&[u8]]) -> Result<OwnParsed<LastingAct>, Cause>
    requires body { reader.now.state.stage ≡ stage.Body }
    requires short { length line.now ≤ LONGEST_LINE }
    requires text { is_text line.now ≡ true }
    requires words { map (λ word. word.now) words.now ≡ take 11 (words_of line.now) }
    ensures { Gives result (own_line lasting_acts reader.now.state line.now) }
{
    let Some((_word, rest)) = words.split_first() else {
        return plain_line(reader, line);
    };
    match lasting_form(words) {
        Some(form) => match step_words(reader, form, rest) {
            Ok(act) => Ok(OwnParsed::Own(act)),
            Err(cause) => Err(cause),
        },
        None => plain_line(reader, line),
    }
}

// What a line says, whatever it is.
fn any_line(reader: &Reader, line: &[u8]) -> Result<OwnParsed<LastingAct>, Cause>
    ensures { Gives result (own_line lasting_acts reader.now.state line.now) }
{
    if !is_in_body(reader) {
        return plain_line(reader, line);
    }
    if line.len() > LONGEST_LINE {
        return Err(Cause::LongLine);
    }
    let mut words = ArrayVec::new();
    if !first_words(line, &mut words) {
        return Err(Cause::NotText);
    }
    words_line(reader, line, words.as_slice())
}

/// What the next line says, without its byte 10. `Memory` comes last, and for want of memory alone. Most lines are
/// plain acts that are found quickly.
pub fn lasting_line(reader: &Reader, line: &[u8]) -> Result<OwnParsed<LastingAct>, Cause>
    ensures { Gives result (own_line lasting_acts reader.now.state line.now) }
{
    if let Some(act) = reader.good_act(line) {
        return Ok(OwnParsed::Plain(Parsed::Act(act)));
    }
    any_line(reader, line)
}
