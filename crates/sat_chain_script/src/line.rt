//! What a line of a script with chains says.
ghost use Rattle.std.specs.Prelude.{◌≡◌, ◌↔◌, ◌≤◌, true, length, map, take, IsTrue};
ghost use Rattle.sat_script.specs.Grammar.{line_at};
ghost use Rattle.sat_script.specs.Lines.{Gives};
ghost use Rattle.sat_script.specs.Words.{is_text, words_of};
ghost use Rattle.sat_script.specs.declared.line.Stage.TheVariants as stage;
ghost use Rattle.sat_chain_script.specs.ChainLines.{chain_line, of_script};

use crate::form::chain_form;
use crate::step::step_words;
use arrayvec::ArrayVec;
use sat_chain_laws::ChainAct;
use sat_script::{Cause, LONGEST_LINE, Parsed, Reader, first_words};

/// What a good line says.
#[derive(Drop)]
pub enum ChainParsed {
    /// What a line of any script says.
    Plain(Parsed),
    /// An act of a chain.
    Step(ChainAct),
}

// Whether the next line stands behind `begin` and before `end`.
fn is_in_body(reader: &Reader) -> bool
    ensures { IsTrue result ↔ (reader.now.state.stage ≡ stage.Body) }
{
    if reader.has_ended() {
        return false;
    }
    reader.deployment().is_some()
}

fn plain_line(reader: &Reader, line: &[u8]) -> Result<ChainParsed, Cause>
    ensures { Gives result (of_script (line_at reader.now.state line.now)) }
{
    match reader.parse(line) {
        Ok(parsed) => Ok(ChainParsed::Plain(parsed)),
        Err(cause) => Err(cause),
    }
}

// What a line says behind `begin`, by its first eleven words.
fn words_line(
    reader: &Reader,
    replicas: u16,
    line: &[u8],
    words: &[&[u8]],
) -> Result<ChainParsed, Cause>
    requires body { reader.now.state.stage ≡ stage.Body }
    requires short { length line.now ≤ LONGEST_LINE }
    requires text { is_text line.now ≡ true }
    requires words { map (λ word. word.now) words.now ≡ take 11 (words_of line.now) }
    ensures { Gives result (chain_line replicas reader.now.state line.now) }
{
    let Some((_word, rest)) = words.split_first() else {
        return plain_line(reader, line);
    };
    match chain_form(words) {
        Some(form) => match step_words(reader, replicas, form, rest) {
            Ok(act) => Ok(ChainParsed::Step(act)),
            Err(cause) => Err(cause),
        },
        None => plain_line(reader, line),
    }
}

/// What the next line says, without its byte 10, where each serializer has so many replicas. `Memory` comes last, and
/// for want of memory alone.
pub fn chain_line(reader: &Reader, replicas: u16, line: &[u8]) -> Result<ChainParsed, Cause>
    ensures { Gives result (chain_line replicas reader.now.state line.now) }
{
    if !is_in_body(reader) {
        return plain_line(reader, line);
    }
    if line.len() > LONGEST_LINE {
        return Err(Cause::LongLine);
    }
    let mut words = ArrayVec::new();
    if !first_words(line, &mut words) {
        return Err(Cause::NotText);
    }
    words_line(reader, replicas, line, words.as_slice())
}
