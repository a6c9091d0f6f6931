//! Lines of answers to acts with chains.
ghost use Rattle.std.specs.Prelude.{◌≡◌, ◌++◌, OnOk, OnErr, codes};
ghost use Rattle.sat_report.specs.Fronts.{Keeps};
ghost use Rattle.sat_report.specs.Frames.{framed};
ghost use Rattle.sat_report.specs.Answers.{answer_text};
ghost use Rattle.sat_chain_texts.specs.Texts.{chain_refusal_text, plain_act, chain_answer_text};

use sat_act::{Act, Answer, Deployment};
use sat_chain_laws::{ChainAct, ChainAnswer, ChainRefusal};
use sat_report::{LineFront, append_framed, append_with_kind, append_word};
use std::alloc::AllocError;

// The text of a plain answer.
fn append_plain(
    d: &Deployment,
    number: &LineFront,
    act: &ChainAct,
    answer: &Answer,
    out: &mut Vec<u8>,
) -> Result<(), AllocError>
    ensures ok { OnOk result (out.new.items ≡ out.old.items
        ++ framed number.now (answer_text d.now (plain_act act.now) answer.now)) }
    ensures err { OnErr result (Keeps out.old.items out.new.items) }
{
    match act {
        ChainAct::Plain(act) => append_framed(d, number, act, answer, out),
        ChainAct::Enter { .. } => append_framed(d, number, &Act::Clock, answer, out),
        ChainAct::Pass { .. } => append_framed(d, number, &Act::Clock, answer, out),
        ChainAct::Apply { .. } => append_framed(d, number, &Act::Clock, answer, out),
        ChainAct::Crash { .. } => append_framed(d, number, &Act::Clock, answer, out),
    }
}

#[tactic(auto, unfolding(crate::specs::Texts::chain_refusal_text))]
fn append_chain_refusal(
    number: &LineFront,
    refusal: ChainRefusal,
    out: &mut Vec<u8>,
) -> Result<(), AllocError>
    ensures ok { OnOk result (out.new.items ≡ out.old.items
        ++ framed number.now (codes "refused " ++ chain_refusal_text refusal)) }
    ensures err { OnErr result (Keeps out.old.items out.new.items) }
{
    match refusal {
        ChainRefusal::Empty => append_word(number, b"refused Empty", out),
        ChainRefusal::Dead => append_word(number, b"refused Dead", out),
        ChainRefusal::Crashed => append_word(number, b"refused Crashed", out),
        ChainRefusal::Last => append_word(number, b"refused Last", out),
    }
}

// The text of an answer, as a line where it has a number.
#[tactic(auto, unfolding(crate::specs::Texts::chain_answer_text))]
fn append_chain_framed(
    d: &Deployment,
    number: &LineFront,
    act: &ChainAct,
    answer: &ChainAnswer,
    out: &mut Vec<u8>,
) -> Result<(), AllocError>
    ensures ok { OnOk result (out.new.items ≡ out.old.items
        ++ framed number.now (chain_answer_text d.now act.now answer.now)) }
    ensures err { OnErr result (Keeps out.old.items out.new.items) }
{
    match answer {
        ChainAnswer::Plain(answer) => append_plain(d, number, act, answer, out),
        ChainAnswer::Entered(label) => append_with_kind(number, b"entered ", label, out),
        ChainAnswer::Passed(label) => append_with_kind(number, b"passed ", label, out),
        ChainAnswer::Crashed => append_word(number, b"crashed", out),
        ChainAnswer::Refused(refusal) => append_chain_refusal(number, *refusal, out),
    }
}

/// Appends the line of the answer to an act with chains: its number and a space, if it has one, the answer's text and
/// then a newline. No memory is taken but what `out` grows by. For want of memory `out` is as before.
pub fn write_chain_numbered(
    d: &Deployment,
    number: &LineFront,
    act: &ChainAct,
    answer: &ChainAnswer,
    out: &mut Vec<u8>,
) -> Result<(), AllocError>
    ensures ok { OnOk result (out.new.items ≡ out.old.items
        ++ framed number.now (chain_answer_text d.now act.now answer.now)) }
    ensures err { OnErr result (out.new.items ≡ out.old.items) }
{
    let length = out.len();
    let written = append_chain_framed(d, number, act, answer, out);
    if written.is_err() {
        out.truncate(length);
    }
    written
}
