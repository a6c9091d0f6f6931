//! Lines of answers to acts for sites that last.
ghost use Rattle.std.specs.Prelude.{◌≡◌, ◌++◌, ◌∷◌, [], OnOk, OnErr};
ghost use Rattle.std.specs.Fmt.{decimal};
ghost use Rattle.sat_report.specs.Fronts.{Keeps};
ghost use Rattle.sat_report.specs.Answers.{answer_text};
ghost use Rattle.sat_lasting_laws.specs.declared.lasting_act.LastingAct.TheVariants.{Plain};
ghost use Rattle.sat_lasting_texts.specs.Texts.{plain_act, lasting_answer_text, lasting_line_text};

use itoa::write_digits;
use sat_act::{Act, Answer, Deployment};
use sat_lasting_laws::{LastingAct, LastingAnswer};
use sat_report::{append_answer, write_line};
use std::alloc::AllocError;

/// The most digits of a number.
const NUMBER_DIGITS: usize = 20;

fn append_number(number: u64, out: &mut Vec<u8>) -> Result<(), AllocError>
    ensures ok { OnOk result (out.new.items ≡ out.old.items ++ decimal number) }
    ensures err { OnErr result (Keeps out.old.items out.new.items) }
{
    let mut digits = [0; NUMBER_DIGITS];
    let start = write_digits(number, &mut digits, NUMBER_DIGITS);
    out.extend_from_slice(&digits[start..])
}

// A word, and a number behind it.
fn append_counted(word: &[u8], number: u64, out: &mut Vec<u8>) -> Result<(), AllocError>
    ensures ok { OnOk result (out.new.items ≡ out.old.items ++ (word.now ++ decimal number)) }
    ensures err { OnErr result (Keeps out.old.items out.new.items) }
{
    out.extend_from_slice(word)?;
    append_number(number, out)
}

// The text of a plain answer.
fn append_plain(
    d: &Deployment,
    act: &LastingAct,
    answer: &Answer,
    out: &mut Vec<u8>,
) -> Result<(), AllocError>
    ensures ok { OnOk result (out.new.items ≡ out.old.items ++ answer_text d.now (plain_act act.now) answer.now) }
    ensures err { OnErr result (Keeps out.old.items out.new.items) }
{
    match act {
        LastingAct::Plain(act) => append_answer(d, act, answer, out),
        LastingAct::Stop { .. } => append_answer(d, &Act::Clock, answer, out),
        LastingAct::Cut { .. } => append_answer(d, &Act::Clock, answer, out),
    }
}

// A word, and a plain answer behind it.
fn append_stopped(
    d: &Deployment,
    word: &[u8],
    act: &LastingAct,
    answer: &Answer,
    out: &mut Vec<u8>,
) -> Result<(), AllocError>
    ensures ok { OnOk result (out.new.items ≡ out.old.items
        ++ (word.now ++ answer_text d.now (plain_act act.now) answer.now)) }
    ensures err { OnErr result (Keeps out.old.items out.new.items) }
{
    out.extend_from_slice(word)?;
    append_plain(d, act, answer, out)
}

// The text of an answer.
#[tactic(auto, unfolding(crate::specs::Texts::lasting_answer_text))]
fn append_lasting(
    d: &Deployment,
    act: &LastingAct,
    answer: &LastingAnswer,
    out: &mut Vec<u8>,
) -> Result<(), AllocError>
    ensures ok { OnOk result (out.new.items ≡ out.old.items ++ lasting_answer_text d.now act.now answer.now) }
    ensures err { OnErr result (Keeps out.old.items out.new.items) }
{
    match answer {
        LastingAnswer::Plain(answer) => append_plain(d, act, answer, out),
        LastingAnswer::Recovered(inputs) => append_counted(b"recovered ", *inputs, out),
        LastingAnswer::Armed => out.extend_from_slice(b"armed"),
        LastingAnswer::Stopped(answer) => append_stopped(d, b"stopped ", act, answer, out),
        LastingAnswer::StoppedWithout => out.extend_from_slice(b"stopped without"),
    }
}

// Its number and a space.
fn append_front(number: u64, out: &mut Vec<u8>) -> Result<(), AllocError>
    ensures ok { OnOk result (out.new.items ≡ out.old.items ++ (decimal number ++ 32 ∷ [])) }
    ensures err { OnErr result (Keeps out.old.items out.new.items) }
{
    append_number(number, out)?;
    out.extend_from_slice(b" ")
}

// The line of an answer.
fn append_line(
    d: &Deployment,
    number: u64,
    act: &LastingAct,
    answer: &LastingAnswer,
    out: &mut Vec<u8>,
) -> Result<(), AllocError>
    ensures ok { OnOk result (out.new.items ≡ out.old.items
        ++ lasting_line_text number (lasting_answer_text d.now act.now answer.now)) }
    ensures err { OnErr result (Keeps out.old.items out.new.items) }
{
    append_front(number, out)?;
    append_lasting(d, act, answer, out)?;
    out.extend_from_slice(b"\n")
}

// The same, put together piece by piece. For want of memory `out` is as before.
fn write_pieces(
    d: &Deployment,
    number: u64,
    act: &LastingAct,
    answer: &LastingAnswer,
    out: &mut Vec<u8>,
) -> Result<(), AllocError>
    ensures ok { OnOk result (out.new.items ≡ out.old.items
        ++ lasting_line_text number (lasting_answer_text d.now act.now answer.now)) }
    ensures err { OnErr result (out.new.items ≡ out.old.items) }
{
    let length = out.len();
    let written = append_line(d, number, act, answer, out);
    if written.is_err() {
        out.truncate(length);
    }
    written
}

// The line of the answer to a plain act: in one piece, where no cut fell into it.
#[tactic(auto, unfolding(crate::specs::Texts::lasting_answer_text), using(crate::proofs::Plain::plain_line))]
fn write_plain(
    d: &Deployment,
    number: u64,
    act: &LastingAct,
    plain: &Act,
    answer: &LastingAnswer,
    out: &mut Vec<u8>,
) -> Result<(), AllocError>
    requires { act.now ≡ Plain plain.now }
    ensures ok { OnOk result (out.new.items ≡ out.old.items
        ++ lasting_line_text number (lasting_answer_text d.now act.now answer.now)) }
    ensures err { OnErr result (out.new.items ≡ out.old.items) }
{
    match answer {
        LastingAnswer::Plain(told) => write_line(d, number, plain, told, out),
        _ => write_pieces(d, number, act, answer, out),
    }
}

/// Appends the line of the answer to an act for sites that last: its number and a space, the answer's text and then a
/// newline. No memory is taken but what `out` grows by. For want of memory `out` is as before.
pub fn write_lasting_line(
    d: &Deployment,
    number: u64,
    act: &LastingAct,
    answer: &LastingAnswer,
    out: &mut Vec<u8>,
) -> Result<(), AllocError>
    ensures ok { OnOk result (out.new.items ≡ out.old.items
        ++ lasting_line_text number (lasting_answer_text d.now act.now answer.now)) }
    ensures err { OnErr result (out.new.items ≡ out.old.items) }
{
    match act {
        LastingAct::Plain(plain) => write_plain(d, number, act, plain, answer, out),
        _ => write_pieces(d, number, act, answer, out),
    }
}
