//! A text put together from its end, in a small array. Each call writes its piece so that it ends at `end`, and says
//! where it starts.
ghost use Rattle.std.specs.Prelude.{◌≡◌, ◌+◌, ◌++◌, ◌∷◌, ◌≤◌, length, drop};
ghost use Rattle.std.specs.Fmt.{decimal};
ghost use Rattle.sat_label.specs.Text.{node_text, point_text};
ghost use Rattle.sat_report.specs.Texts.{kind_word};
ghost use Rattle.sat_report.specs.Frames.{end_text, front_text};

use crate::front::LineFront;
use itoa::write_digits;
use sat_label::{Kind, NodeId, Point};

/// The most bytes of a line without a value, without nodes behind the first and without items behind it.
pub(crate) const LINE_BYTES: usize = 112;

/// The most bytes of a line with the names of an update's items, each with a comma.
pub(crate) const LONG_LINE_BYTES: usize = 224;

#[inline(always)]
pub(crate) fn write_byte<const L: usize>(byte: u8, text: &mut [u8; L], end: usize) -> usize
    requires { (1 ≤ end) × (end ≤ L) }
    ensures start { result + 1 ≡ end }
    ensures written { drop result text.new ≡ byte ∷ drop end text.old }
{
    text[end - 1] = byte;
    end - 1
}

#[inline(always)]
pub(crate) fn write_slice<const L: usize>(word: &[u8], text: &mut [u8; L], end: usize) -> usize
    requires { (length word.now ≤ end) × (end ≤ L) }
    ensures start { result + length word.now ≡ end }
    ensures written { drop result text.new ≡ word.now ++ drop end text.old }
{
    let start = end - word.len();
    let whole = &mut text[..];
    whole[start..end].copy_from_slice(word);
    start
}

// Of a word whose length is known the copy takes an instruction or two.
#[inline(always)]
pub(crate) fn write_word<const N: usize, const L: usize>(
    word: &[u8; N],
    text: &mut [u8; L],
    end: usize,
) -> usize
    requires { (N ≤ end) × (end ≤ L) }
    ensures start { result + N ≡ end }
    ensures written { drop result text.new ≡ word.now ++ drop end text.old }
{
    write_slice(word, text, end)
}

/// Most sites and gears have one digit.
#[inline(always)]
fn write_small<const L: usize>(number: u16, text: &mut [u8; L], end: usize) -> usize
    requires { (5 ≤ end) × (end ≤ L) }
    ensures near { end ≤ result + 5 }
    ensures start { result + 1 ≤ end }
    ensures written { drop result text.new ≡ decimal number ++ drop end text.old }
{
    if number < 10 {
        return write_byte(b'0' + number as u8, text, end);
    }
    write_digits(u64::from(number), text, end)
}

#[inline(always)]
pub(crate) fn write_number<const L: usize>(number: u64, text: &mut [u8; L], end: usize) -> usize
    requires { (20 ≤ end) × (end ≤ L) }
    ensures near { end ≤ result + 20 }
    ensures start { result ≤ end }
    ensures written { drop result text.new ≡ decimal number ++ drop end text.old }
{
    write_digits(number, text, end)
}

#[inline(always)]
fn write_part<const L: usize>(number: u16, text: &mut [u8; L], end: usize) -> usize
    requires { (6 ≤ end) × (end ≤ L) }
    ensures near { end ≤ result + 6 }
    ensures start { result ≤ end }
    ensures written { drop result text.new ≡ 46 ∷ (decimal number ++ drop end text.old) }
{
    let start = write_small(number, text, end);
    write_byte(b'.', text, start)
}

/// A point is written as `ts.site.gear`.
#[inline(always)]
pub(crate) fn write_point<const L: usize>(point: &Point, text: &mut [u8; L], end: usize) -> usize
    requires { (32 ≤ end) × (end ≤ L) }
    ensures near { end ≤ result + 32 }
    ensures start { result ≤ end }
    ensures written { drop result text.new ≡ point_text point.now ++ drop end text.old }
{
    let gear = write_part(point.gear, text, end);
    let site = write_part(point.site, text, gear);
    write_number(point.ts, text, site)
}

// The word of a kind that is no update, and a space.
#[tactic(auto, unfolding(crate::specs::Texts::kind_word))]
#[inline(never)]
fn write_other_kind(kind: Kind, text: &mut [u8; LINE_BYTES], end: usize) -> usize
    requires { (7 ≤ end) × (end ≤ 112) }
    ensures near { end ≤ result + 7 }
    ensures start { result ≤ end }
    ensures written { drop result text.new ≡ kind_word kind ++ 32 ∷ drop end text.old }
{
    match kind {
        Kind::Update(_) => write_word(b"update ", text, end),
        Kind::Move(_) => write_word(b"move ", text, end),
        Kind::Pulse => write_word(b"pulse ", text, end),
        Kind::Close(_) => write_word(b"close ", text, end),
    }
}

/// The word of a kind, and a space. Most labels are those of updates.
#[tactic(auto, unfolding(crate::specs::Texts::kind_word))]
#[inline(always)]
pub(crate) fn write_kind(kind: Kind, text: &mut [u8; LINE_BYTES], end: usize) -> usize
    requires { (7 ≤ end) × (end ≤ 112) }
    ensures near { end ≤ result + 7 }
    ensures start { result ≤ end }
    ensures written { drop result text.new ≡ kind_word kind ++ 32 ∷ drop end text.old }
{
    match kind {
        Kind::Update(_) => write_word(b"update ", text, end),
        _ => write_other_kind(kind, text, end),
    }
}

// A node's letter, and its number.
#[inline(always)]
fn write_lettered(letter: u8, number: u16, text: &mut [u8; LINE_BYTES], end: usize) -> usize
    requires { (6 ≤ end) × (end ≤ 112) }
    ensures near { end ≤ result + 6 }
    ensures start { result ≤ end }
    ensures written { drop result text.new ≡ letter ∷ (decimal number ++ drop end text.old) }
{
    let start = write_small(number, text, end);
    write_byte(letter, text, start)
}

#[tactic(auto, unfolding(sat_label::specs::Text::node_text))]
#[inline(always)]
pub(crate) fn write_node(node: NodeId, text: &mut [u8; LINE_BYTES], end: usize) -> usize
    requires { (6 ≤ end) × (end ≤ 112) }
    ensures near { end ≤ result + 6 }
    ensures start { result ≤ end }
    ensures written { drop result text.new ≡ node_text node ++ drop end text.old }
{
    match node {
        NodeId::Site(site) => write_lettered(b's', site, text, end),
        NodeId::Serializer(serializer) => write_lettered(b'z', serializer, text, end),
    }
}

/// The end of a line with a number, at the array's end.
#[inline(always)]
pub(crate) fn write_end<const L: usize>(number: &LineFront, text: &mut [u8; L]) -> usize
    requires { 1 ≤ L }
    ensures near { L ≤ result + 1 }
    ensures start { result ≤ L }
    ensures written { drop result text.new ≡ end_text number.now }
{
    if number.is_number() {
        write_byte(b'\n', text, L)
    } else {
        L
    }
}

/// The number of a line, and a space.
#[inline(always)]
pub(crate) fn write_front<const L: usize>(
    number: &LineFront,
    text: &mut [u8; L],
    end: usize,
) -> usize
    requires { (21 ≤ end) × (end ≤ L) }
    ensures start { result ≤ end }
    ensures written { drop result text.new ≡ front_text number.now ++ drop end text.old }
{
    if number.is_number() {
        let space = write_byte(b' ', text, end);
        let (digits, start) = number.parts();
        write_word(digits, text, space) + start
    } else {
        end
    }
}
