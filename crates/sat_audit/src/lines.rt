//! The lines of a history, one after another.
ghost use Rattle.std.specs.Prelude.{◌≡◌, ◌<◌, ◌≤◌, None, Ok, true, length, map, take, MatchResult, IfOk, IfErr};
ghost use Rattle.sat_script.specs.Causes.{bar};
ghost use Rattle.sat_script.specs.Lines.{Gives};
ghost use Rattle.sat_script.specs.Grammar.{line_at};
ghost use Rattle.sat_script.specs.Table.{act_line};
ghost use Rattle.sat_script.specs.Words.{is_text, words_of};
ghost use Rattle.sat_script.specs.declared.line.Parsed.TheVariants as parsed;
ghost use Rattle.sat_script.specs.declared.line.Stage.TheVariants as stage;
ghost use Rattle.sat_audit.specs.Fronts.{front_end};
ghost use Rattle.sat_audit.specs.Lines.{act_words_of, is_of_act, told_at};
ghost use Rattle.sat_audit.specs.Steps.{hearing, IsCauseOf, IsHeardLine, IsTaken, IsRefused};

use crate::answers::answered;
use crate::made::Noted;
use crate::words::{act_words_of, front, words_of};
use crate::{Heard, Told};
use sat_act::{Act, Deployment};
use sat_script::{Cause, LONGEST_LINE, Line, Parsed, Reader, ScriptFault};
use std::alloc::Global;

// Whether a line has bytes from 32 to 126 only.
fn is_text(line: &[u8]) -> bool
    ensures { result ≡ is_text line.now }
{
    line.iter().all(|byte| 32 <= *byte && *byte <= 126)
}

// The act of a line of which the first so many words are one.
#[tactic(auto, using(crate::proofs::Answering::no_words, crate::proofs::Answering::front_line, crate::proofs::Answering::said_act, crate::proofs::Answering::said_cause, crate::proofs::Answering::said_acts))]
fn act_in(reader: &Reader, line: &[u8], count: usize) -> Result<Act, Cause>
    requires body { reader.now.state.stage ≡ stage.Body }
    requires short { length line.now ≤ LONGEST_LINE }
    requires text { is_text line.now ≡ true }
    requires count { count ≡ act_words_of reader.now.state.header.format (words_of line.now) }
    ensures act { Gives result
        (act_line (bar reader.now.state) reader.now.state.header (take count (words_of line.now))) }
    ensures reads { IfOk result (λ act. (0 < count)
        × (line_at reader.now.state (take (front_end count line.now) line.now) ≡ Ok (parsed.Act act))) }
{
    if count == 0 {
        return Err(Cause::BadAct);
    }
    match reader.parse(front(line, count)) {
        Ok(Parsed::Act(act)) => Ok(act),
        Ok(_) => unreachable!(),
        Err(cause) => Err(cause),
    }
}

// What the words behind an act tell.
#[tactic(auto, unfolding(crate::specs::Lines::told_at))]
fn told_at(
    alloc: Global,
    reader: &Reader,
    d: &Deployment,
    noted: &Noted,
    act: &Act,
    words: &[&[u8]],
) -> Result<Told, Cause>
    requires { reader.now.state.header ≡ d.now }
    ensures { Gives result (told_at (hearing reader.now.state noted.now) act.now (map (λ word. word.now) words.now)) }
{
    let Ok(answer) = answered(alloc, reader, d, act, words) else {
        return Err(Cause::Memory);
    };
    let Some(told) = answer else {
        return Err(Cause::BadAnswer);
    };
    if noted.makes_again(&told) {
        return Err(Cause::SamePoint);
    }
    Ok(told)
}

// What a line of an act says: its front that is the act, and what that was told.
#[tactic(auto, using(crate::proofs::Answering::too_long, crate::proofs::Answering::no_text, crate::proofs::Answering::in_body))]
fn heard_line<'a>(
    alloc: Global,
    reader: &Reader,
    d: &Deployment,
    noted: &Noted,
    line: &'a [u8],
) -> Result<(&'a [u8], Told), Cause>
    requires header { reader.now.state.header ≡ d.now }
    requires of_act { is_of_act reader.now.state.stage (words_of line.now) ≡ true }
    ensures { MatchResult result
        (λ said. IsHeardLine (hearing reader.now.state noted.now) line.now said.0.now said.1)
        (λ cause. IsCauseOf (hearing reader.now.state noted.now) line.now cause) }
{
    if line.len() > LONGEST_LINE {
        return Err(Cause::LongLine);
    }
    if !is_text(line) {
        return Err(Cause::NotText);
    }
    let Ok(words) = words_of(alloc, line) else {
        return Err(Cause::Memory);
    };
    let count = act_words_of(d.format(), words.as_slice());
    let act = match act_in(reader, line, count) {
        Ok(act) => act,
        Err(cause) => return Err(cause),
    };
    match told_at(alloc, reader, d, noted, &act, &words.as_slice()[count..]) {
        Ok(told) => Ok((front(line, count), told)),
        Err(cause) => Err(cause),
    }
}

// Takes the line of an act.
#[tactic(auto, using(crate::proofs::Answering::in_body, crate::proofs::Answering::body_deploys, crate::proofs::Answering::act_same, crate::proofs::Answering::other_line, crate::proofs::Answering::no_fault, crate::proofs::Answering::takes_fresh))]
fn take_heard(
    alloc: Global,
    reader: &mut Reader,
    noted: Noted,
    line: &[u8],
) -> Result<Noted, ScriptFault>
    requires fresh { reader.old.fault ≡ None }
    requires of_act { is_of_act reader.old.state.stage (words_of line.now) ≡ true }
    ensures ok { IfOk result (λ new. IsTaken (hearing reader.old.state noted) line.now reader.new new) }
    ensures err { IfErr result (λ fault. IsRefused (hearing reader.old.state noted) line.now fault) }
{
    let said = match reader.deployment() {
        Some(d) => heard_line(alloc, reader, d, &noted, line),
        None => unreachable!(),
    };
    let (front, told) = match said {
        Ok(said) => said,
        Err(cause) => return Err(reader.fail(cause)),
    };
    match reader.line(front) {
        Ok(Line::Act(act)) => match noted.with(Heard { act, told }) {
            Ok(noted) => Ok(noted),
            Err(_) => Err(reader.fail(Cause::Memory)),
        },
        Ok(_) => unreachable!(),
        Err(fault) => Err(fault),
    }
}

// Whether the next line is that of an act.
#[tactic(auto, using(crate::proofs::Answering::ended_no_act, crate::proofs::Answering::closed_no_act, crate::proofs::Answering::body_act))]
fn is_of_act(reader: &Reader, line: &[u8]) -> bool
    ensures { result ≡ is_of_act reader.now.state.stage (words_of line.now) }
{
    if reader.has_ended() {
        return false;
    }
    match reader.deployment() {
        Some(_) => line != b"end".as_slice(),
        None => false,
    }
}

/// Takes a line, without its byte 10: one of the header, that of an act and its answer, or `end`.
#[tactic(auto, using(crate::proofs::Answering::plain_taken, crate::proofs::Answering::plain_refused, crate::proofs::Answering::takes_fresh))]
pub fn take_line(
    alloc: Global,
    reader: &mut Reader,
    noted: Noted,
    line: &[u8],
) -> Result<Noted, ScriptFault>
    requires fresh { reader.old.fault ≡ None }
    ensures ok { IfOk result (λ new. IsTaken (hearing reader.old.state noted) line.now reader.new new) }
    ensures err { IfErr result (λ fault. IsRefused (hearing reader.old.state noted) line.now fault) }
{
    if is_of_act(reader, line) {
        return take_heard(alloc, reader, noted, line);
    }
    if let Err(fault) = reader.line(line) {
        return Err(fault);
    }
    Ok(noted)
}
