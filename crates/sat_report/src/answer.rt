//! Lines of answers.
ghost use Rattle.std.specs.Prelude.{◌≡◌, ◌≤◌, ◌++◌, ◌∷◌, [], OnOk, OnErr, IfSome, codes, Some, None, length};
ghost use Rattle.std.specs.Fmt.{decimal};
ghost use Rattle.sat_label.specs.Text.{node_text, point_text};
ghost use Rattle.sat_act.specs.Done.{at_site};
ghost use Rattle.sat_report.specs.Texts.{kind_word, label_text, names_at, nodes_text};
ghost use Rattle.sat_report.specs.Fronts.{Keeps};
ghost use Rattle.sat_report.specs.Frames.{commas, end_text, framed, front_text};
ghost use Rattle.sat_report.specs.Answers.{refusal_text, with_items, with_kind, with_label, answer_text, answer_line};

use crate::front::LineFront;
use crate::items::{at_site, brought_at, kept_name, shown_at, write_names};
use crate::line::{
    LINE_BYTES, LONG_LINE_BYTES, write_byte, write_end, write_front, write_kind, write_node,
    write_number, write_point, write_slice, write_word,
};
use crate::text::append_next_nodes;
use sat_act::{Act, Answer, Deployment, Entry, Refusal};
use sat_label::{Items, Kind, Label, NodeId, Point, Value};
use std::alloc::AllocError;

// In this file each word that something follows ends with its space. `number` is that of the line; an answer that
// stands by itself has none. All but a value and further nodes is put together in an array, so that `out` grows once.
/// Appends a word, at most 24 bytes, by itself or as a line with its number. For want of memory a front of it may stand
/// there.
#[inline(always)]
pub fn append_word<const N: usize>(
    number: &LineFront,
    word: &[u8; N],
    out: &mut Vec<u8>,
) -> Result<(), AllocError>
    requires { N ≤ 24 }
    ensures ok { OnOk result (out.new.items ≡ out.old.items ++ framed number.now word.now) }
    ensures err { OnErr result (Keeps out.old.items out.new.items) }
{
    let mut text = [0; LINE_BYTES];
    let end = write_end(number, &mut text);
    let at = write_word(word, &mut text, end);
    let at = write_front(number, &mut text, at);
    out.extend_from_slice(&text[at..])
}

#[inline(always)]
fn append_with_number<const N: usize>(
    number: &LineFront,
    word: &[u8; N],
    value: u64,
    out: &mut Vec<u8>,
) -> Result<(), AllocError>
    requires { N ≤ 24 }
    ensures ok { OnOk result (out.new.items ≡ out.old.items ++ framed number.now (word.now ++ decimal value)) }
    ensures err { OnErr result (Keeps out.old.items out.new.items) }
{
    let mut text = [0; LINE_BYTES];
    let end = write_end(number, &mut text);
    let at = write_number(value, &mut text, end);
    let at = write_word(word, &mut text, at);
    let at = write_front(number, &mut text, at);
    out.extend_from_slice(&text[at..])
}

#[inline(always)]
fn append_with_two<const N: usize, const M: usize>(
    number: &LineFront,
    word: &[u8; N],
    first: u64,
    between: &[u8; M],
    second: u64,
    out: &mut Vec<u8>,
) -> Result<(), AllocError>
    requires { (N ≤ 24) × (M ≤ 24) }
    ensures ok { OnOk result (out.new.items ≡ out.old.items
        ++ framed number.now (word.now ++ (decimal first ++ (between.now ++ decimal second)))) }
    ensures err { OnErr result (Keeps out.old.items out.new.items) }
{
    let mut text = [0; LINE_BYTES];
    let end = write_end(number, &mut text);
    let at = write_number(second, &mut text, end);
    let at = write_word(between, &mut text, at);
    let at = write_number(first, &mut text, at);
    let at = write_word(word, &mut text, at);
    let at = write_front(number, &mut text, at);
    out.extend_from_slice(&text[at..])
}

#[inline(always)]
fn append_with_point<const N: usize>(
    number: &LineFront,
    word: &[u8; N],
    point: &Point,
    out: &mut Vec<u8>,
) -> Result<(), AllocError>
    requires { N ≤ 24 }
    ensures ok { OnOk result (out.new.items ≡ out.old.items ++ framed number.now (word.now ++ point_text point.now)) }
    ensures err { OnErr result (Keeps out.old.items out.new.items) }
{
    let mut text = [0; LINE_BYTES];
    let end = write_end(number, &mut text);
    let at = write_point(point, &mut text, end);
    let at = write_word(word, &mut text, at);
    let at = write_front(number, &mut text, at);
    out.extend_from_slice(&text[at..])
}

/// Appends a word, at most 24 bytes, whose last one is a space, and the kind and the point of a label. For want of
/// memory a front of it may stand there.
#[inline(always)]
pub fn append_with_kind<const N: usize>(
    number: &LineFront,
    word: &[u8; N],
    label: &Label,
    out: &mut Vec<u8>,
) -> Result<(), AllocError>
    requires { N ≤ 24 }
    ensures ok { OnOk result (out.new.items ≡ out.old.items
        ++ framed number.now (word.now ++ (kind_word label.now.kind ++ 32 ∷ label_text label.now))) }
    ensures err { OnErr result (Keeps out.old.items out.new.items) }
{
    let mut text = [0; LINE_BYTES];
    let end = write_end(number, &mut text);
    let at = write_point(&label.point, &mut text, end);
    let at = write_kind(label.kind, &mut text, at);
    let at = write_word(word, &mut text, at);
    let at = write_front(number, &mut text, at);
    out.extend_from_slice(&text[at..])
}

#[inline(always)]
fn append_with_name<const N: usize>(
    number: &LineFront,
    word: &[u8; N],
    name: &[u8],
    point: &Point,
    out: &mut Vec<u8>,
) -> Result<(), AllocError>
    requires { (N ≤ 24) × (length name.now ≤ 32) }
    ensures ok { OnOk result (out.new.items ≡ out.old.items
        ++ framed number.now (word.now ++ (name.now ++ 32 ∷ point_text point.now))) }
    ensures err { OnErr result (Keeps out.old.items out.new.items) }
{
    let mut text = [0; LINE_BYTES];
    let end = write_end(number, &mut text);
    let at = write_point(point, &mut text, end);
    let at = write_byte(b' ', &mut text, at);
    let at = write_slice(name, &mut text, at);
    let at = write_word(word, &mut text, at);
    let at = write_front(number, &mut text, at);
    out.extend_from_slice(&text[at..])
}

// Of any label and any act. The longer array is no part of what other answers cost.
#[cold]
#[inline(never)]
fn append_with_names(
    d: &Deployment,
    number: &LineFront,
    word: &[u8],
    act: &Act,
    label: &Label,
    out: &mut Vec<u8>,
) -> Result<(), AllocError>
    requires { length word.now ≤ 24 }
    ensures ok { OnOk result (out.new.items ≡ out.old.items
        ++ framed number.now
        (word.now ++ (names_at d.now (at_site act.now) label.now.kind ++ 32 ∷ label_text label.now))) }
    ensures err { OnErr result (Keeps out.old.items out.new.items) }
{
    let mut text = [0; LONG_LINE_BYTES];
    let end = write_end(number, &mut text);
    let at = write_point(&label.point, &mut text, end);
    let at = write_byte(b' ', &mut text, at);
    let at = write_names(d, at_site(act), label.kind, &mut text, at);
    let at = write_slice(word, &mut text, at);
    let at = write_front(number, &mut text, at);
    out.extend_from_slice(&text[at..])
}

// Most labels that are brought and shown are of one item, by the acts that are known to bring and to show: their site
// is handed in.
#[inline(always)]
fn append_with_items<const N: usize>(
    d: &Deployment,
    number: &LineFront,
    word: &[u8; N],
    site: Option<u16>,
    act: &Act,
    label: &Label,
    out: &mut Vec<u8>,
) -> Result<(), AllocError>
    requires short { N ≤ 24 }
    requires site { IfSome site (λ site. at_site act.now ≡ Some site) }
    ensures ok { OnOk result (out.new.items ≡ out.old.items
        ++ framed number.now
        (word.now ++ (names_at d.now (at_site act.now) label.now.kind ++ 32 ∷ label_text label.now))) }
    ensures err { OnErr result (Keeps out.old.items out.new.items) }
{
    if let Some(site) = site {
        if let Kind::Update(Items::One(item)) = label.kind {
            let name = kept_name(d, site, item);
            return append_with_name(number, word, name, &label.point, out);
        }
    }
    append_with_names(d, number, word, act, label, out)
}

#[inline(always)]
fn append_closed(
    number: &LineFront,
    epoch: u16,
    cut: &Point,
    out: &mut Vec<u8>,
) -> Result<(), AllocError>
    ensures ok { OnOk result (out.new.items ≡ out.old.items
        ++ framed number.now (codes "closed " ++ (decimal epoch ++ 32 ∷ point_text cut.now))) }
    ensures err { OnErr result (Keeps out.old.items out.new.items) }
{
    let mut text = [0; LINE_BYTES];
    let end = write_end(number, &mut text);
    let at = write_point(cut, &mut text, end);
    let at = write_byte(b' ', &mut text, at);
    let at = write_number(u64::from(epoch), &mut text, at);
    let at = write_word(b"closed ", &mut text, at);
    let at = write_front(number, &mut text, at);
    out.extend_from_slice(&text[at..])
}

// The end of a line whose other pieces stand in `out`.
#[tactic(auto, unfolding(crate::specs::Frames::end_text))]
#[inline(always)]
fn append_end(number: &LineFront, out: &mut Vec<u8>) -> Result<(), AllocError>
    ensures ok { OnOk result (out.new.items ≡ out.old.items ++ end_text number.now) }
    ensures err { OnErr result (Keeps out.old.items out.new.items) }
{
    if number.is_number() {
        out.push(b'\n')?;
    }
    Ok(())
}

// What stands before a value.
#[inline(always)]
fn append_version(number: &LineFront, label: &Label, out: &mut Vec<u8>) -> Result<(), AllocError>
    ensures ok { OnOk result (out.new.items ≡ out.old.items
        ++ (front_text number.now ++ (with_label (codes "read") label.now ++ 32 ∷ []))) }
    ensures err { OnErr result (Keeps out.old.items out.new.items) }
{
    let mut text = [0; LINE_BYTES];
    let at = write_byte(b' ', &mut text, LINE_BYTES);
    let at = write_point(&label.point, &mut text, at);
    let at = write_word(b"read ", &mut text, at);
    let at = write_front(number, &mut text, at);
    out.extend_from_slice(&text[at..])
}

#[inline(always)]
fn append_value(number: &LineFront, value: &Value, out: &mut Vec<u8>) -> Result<(), AllocError>
    ensures ok { OnOk result (out.new.items ≡ out.old.items ++ (value.now ++ end_text number.now)) }
    ensures err { OnErr result (Keeps out.old.items out.new.items) }
{
    out.extend_from_slice(value.bytes())?;
    append_end(number, out)
}

#[inline(always)]
fn append_read(
    number: &LineFront,
    label: &Label,
    value: &Value,
    out: &mut Vec<u8>,
) -> Result<(), AllocError>
    ensures ok { OnOk result (out.new.items ≡ out.old.items
        ++ framed number.now (with_label (codes "read") label.now ++ 32 ∷ value.now)) }
    ensures err { OnErr result (Keeps out.old.items out.new.items) }
{
    append_version(number, label, out)?;
    append_value(number, value, out)
}

// A hop to one node, or what stands before the further ones.
#[inline(always)]
fn append_first_hop(
    number: &LineFront,
    label: &Label,
    to: NodeId,
    out: &mut Vec<u8>,
) -> Result<(), AllocError>
    ensures ok { OnOk result (out.new.items ≡ out.old.items
        ++ (front_text number.now ++ (with_kind (codes "hopped") label.now ++ (codes " to " ++ node_text to)))) }
    ensures err { OnErr result (Keeps out.old.items out.new.items) }
{
    let mut text = [0; LINE_BYTES];
    let at = write_node(to, &mut text, LINE_BYTES);
    let at = write_word(b" to ", &mut text, at);
    let at = write_point(&label.point, &mut text, at);
    let at = write_kind(label.kind, &mut text, at);
    let at = write_word(b"hopped ", &mut text, at);
    let at = write_front(number, &mut text, at);
    out.extend_from_slice(&text[at..])
}

fn append_no_hop(number: &LineFront, label: &Label, out: &mut Vec<u8>) -> Result<(), AllocError>
    ensures ok { OnOk result (out.new.items ≡ out.old.items
        ++ framed number.now (with_kind (codes "hopped") label.now ++ codes " to ")) }
    ensures err { OnErr result (Keeps out.old.items out.new.items) }
{
    let mut text = [0; LINE_BYTES];
    let end = write_end(number, &mut text);
    let at = write_word(b" to ", &mut text, end);
    let at = write_point(&label.point, &mut text, at);
    let at = write_kind(label.kind, &mut text, at);
    let at = write_word(b"hopped ", &mut text, at);
    let at = write_front(number, &mut text, at);
    out.extend_from_slice(&text[at..])
}

#[inline(always)]
fn append_hops(
    number: &LineFront,
    label: &Label,
    first: NodeId,
    rest: &[NodeId],
    out: &mut Vec<u8>,
) -> Result<(), AllocError>
    ensures ok { OnOk result (out.new.items ≡ out.old.items
        ++ framed number.now (with_kind (codes "hopped") label.now
        ++ (codes " to " ++ (node_text first ++ commas rest.now)))) }
    ensures err { OnErr result (Keeps out.old.items out.new.items) }
{
    append_first_hop(number, label, first, out)?;
    append_next_nodes(rest, out)?;
    append_end(number, out)
}

#[tactic(auto, using(crate::proofs::Commas::joined_by_commas))]
#[inline(always)]
fn append_hopped(
    number: &LineFront,
    label: &Label,
    to: &[NodeId],
    out: &mut Vec<u8>,
) -> Result<(), AllocError>
    ensures ok { OnOk result (out.new.items ≡ out.old.items
        ++ framed number.now (with_kind (codes "hopped") label.now ++ (codes " to " ++ nodes_text to.now))) }
    ensures err { OnErr result (Keeps out.old.items out.new.items) }
{
    match to.split_first() {
        None => append_no_hop(number, label, out),
        Some((first, rest)) => append_hops(number, label, *first, rest, out),
    }
}

#[tactic(auto, unfolding(crate::specs::Answers::refusal_text))]
fn append_refused(n: &LineFront, refusal: &Refusal, out: &mut Vec<u8>) -> Result<(), AllocError>
    ensures ok { OnOk result (out.new.items ≡ out.old.items
        ++ framed n.now (codes "refused " ++ refusal_text refusal.now)) }
    ensures err { OnErr result (Keeps out.old.items out.new.items) }
{
    match refusal {
        Refusal::NoSession => append_word(n, b"refused NoSession", out),
        Refusal::NotHere => append_word(n, b"refused NotHere", out),
        Refusal::Spent => append_word(n, b"refused Spent", out),
        Refusal::SameSite => append_word(n, b"refused SameSite", out),
        Refusal::Joined => append_word(n, b"refused Joined", out),
        Refusal::NotYet => append_word(n, b"refused NotYet", out),
        Refusal::Idle => append_word(n, b"refused Idle", out),
        Refusal::Empty => append_word(n, b"refused Empty", out),
        Refusal::Dead => append_word(n, b"refused Dead", out),
        Refusal::NoPayload(label) => {
            append_with_point(n, b"refused NoPayload ", &label.point, out)
        }
        Refusal::StampOrder => append_word(n, b"refused StampOrder", out),
        Refusal::TreeOrder => append_word(n, b"refused TreeOrder", out),
        Refusal::NoSuch => append_word(n, b"refused NoSuch", out),
        Refusal::NoNextEpoch => append_word(n, b"refused NoNextEpoch", out),
        Refusal::Behind => append_word(n, b"refused Behind", out),
        Refusal::NotClosed => append_word(n, b"refused NotClosed", out),
        Refusal::Already => append_word(n, b"refused Already", out),
    }
}

/// Appends the text of an answer, by itself or as a line with its number. For want of memory a front of it may stand
/// there.
#[tactic(auto, unfolding(crate::specs::Answers::answer_text))]
pub fn append_framed(
    d: &Deployment,
    n: &LineFront,
    act: &Act,
    answer: &Answer,
    out: &mut Vec<u8>,
) -> Result<(), AllocError>
    ensures ok { OnOk result (out.new.items ≡ out.old.items ++ framed n.now (answer_text d.now act.now answer.now)) }
    ensures err { OnErr result (Keeps out.old.items out.new.items) }
{
    match answer {
        Answer::Ticked(promise) => append_with_number(n, b"ticked ", *promise, out),
        Answer::Clocked(promise) => append_with_number(n, b"clocked ", *promise, out),
        Answer::Wrote(label) => append_with_point(n, b"wrote ", &label.point, out),
        Answer::ReadNone => append_word(n, b"read none", out),
        Answer::ReadSome { label, value } => append_read(n, label, value, out),
        Answer::Moved(label) => append_with_point(n, b"moved ", &label.point, out),
        Answer::Left(point) => append_with_point(n, b"left ", point, out),
        Answer::Attached => append_word(n, b"attached", out),
        Answer::Gathered { labels, stable } => {
            append_with_two(n, b"gathered ", *labels, b" stable ", *stable, out)
        }
        Answer::Emitted(label) => append_with_kind(n, b"emitted ", label, out),
        Answer::Pulsed(label) => append_with_point(n, b"pulsed ", &label.point, out),
        Answer::Hopped { label, to } => append_hopped(n, label, to.as_slice(), out),
        Answer::Shown(label) => append_with_items(d, n, b"shown ", shown_at(act), act, label, out),
        Answer::Took(label) => append_with_kind(n, b"took ", label, out),
        Answer::Brought(label) => append_with_items(
            d,
            n,
            b"brought ",
            brought_at(act),
            act,
            label,
            out,
        ),
        Answer::Again => append_word(n, b"again", out),
        Answer::Beat(number) => append_with_number(n, b"beat ", *number, out),
        Answer::Taken => append_word(n, b"taken", out),
        Answer::Old => append_word(n, b"old", out),
        Answer::Closed { epoch, cut } => append_closed(n, *epoch, cut, out),
        Answer::Fallen => append_word(n, b"fallen", out),
        Answer::View(view) => append_with_number(n, b"view ", u64::from(*view), out),
        Answer::Killed => append_word(n, b"killed", out),
        Answer::Settled { rounds, done } => {
            append_with_two(n, b"settled ", *rounds, b" ", *done, out)
        }
        Answer::Refused(refusal) => append_refused(n, refusal, out),
    }
}

/// Appends the text of an act's answer. For want of memory a front of it may stand there.
#[tactic(auto, using(crate::proofs::Frames::by_itself))]
pub fn append_answer(
    d: &Deployment,
    act: &Act,
    answer: &Answer,
    out: &mut Vec<u8>,
) -> Result<(), AllocError>
    ensures ok { OnOk result (out.new.items ≡ out.old.items ++ answer_text d.now act.now answer.now) }
    ensures err { OnErr result (Keeps out.old.items out.new.items) }
{
    append_framed(d, &LineFront::nothing(), act, answer, out)
}

/// Appends the line of an act's answer: its number and a space, if it has one, the answer's text and then a newline.
/// No memory is taken but what `out` grows by. For want of memory `out` is as before.
pub fn write_numbered(
    d: &Deployment,
    number: &LineFront,
    act: &Act,
    answer: &Answer,
    out: &mut Vec<u8>,
) -> Result<(), AllocError>
    ensures ok { OnOk result (out.new.items ≡ out.old.items
        ++ framed number.now (answer_text d.now act.now answer.now)) }
    ensures err { OnErr result (out.new.items ≡ out.old.items) }
{
    let length = out.len();
    let written = append_framed(d, number, act, answer, out);
    if written.is_err() {
        out.truncate(length);
    }
    written
}

/// Appends the line of an act's answer: its number, from 1, a space, and the answer's text.
/// No memory is taken but what `out` grows by. For want of memory `out` is as before.
#[tactic(auto, unfolding(crate::specs::Answers::answer_line), using(crate::proofs::Frames::as_line))]
pub fn write_line(
    d: &Deployment,
    number: u64,
    act: &Act,
    answer: &Answer,
    out: &mut Vec<u8>,
) -> Result<(), AllocError>
    ensures ok { OnOk result (out.new.items ≡ out.old.items ++ answer_line d.now number act.now answer.now) }
    ensures err { OnErr result (out.new.items ≡ out.old.items) }
{
    write_numbered(d, &LineFront::of(number), act, answer, out)
}

/// Appends the line of an entry's answer, as [`write_line`] does.
/// An entry that is inner is written like any other; a report leaves these out. For want of memory `out` is as before.
pub fn write_answer(
    d: &Deployment,
    number: u64,
    entry: &Entry,
    out: &mut Vec<u8>,
) -> Result<(), AllocError>
    ensures ok { OnOk result (out.new.items ≡ out.old.items
        ++ answer_line d.now number entry.now.act entry.now.answer) }
    ensures err { OnErr result (out.new.items ≡ out.old.items) }
{
    write_line(d, number, &entry.act, &entry.answer, out)
}
