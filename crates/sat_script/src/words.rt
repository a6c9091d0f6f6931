//! The words of a line.
ghost use Rattle.std.specs.Prelude.{◌≡◌, [], false, IfOk, IfSome, map, ◌∷◌, length, take, drop, ◌≤◌, ◌-◌};
ghost use Rattle.sat_label.specs.Text.{is_between};
ghost use Rattle.std.specs.List.{list_all};
ghost use Rattle.sat_script.specs.Words.{is_text, is_token, is_number, is_node, is_serializer, words_of, AreFirst};
ghost use Rattle.sat_script.specs.Words.{IsCut, blanks_from};

use crate::number::is_number;
use arrayvec::ArrayVec;
use std::alloc::{AllocError, Global};

/// The parts of a line between its blanks.
pub fn words_of(alloc: Global, line: &[u8]) -> Result<Vec<&[u8]>, AllocError>
    ensures { IfOk result (λ words. map (λ word. word.now) words.items ≡ words_of line.now) }
{
    line.split(|byte| *byte == b' ').collect(alloc)
}

/// The first words of a line.
pub type FirstWords<'a> = ArrayVec<&'a [u8], 11>;

#[inline(always)]
fn is_visible(byte: u8) -> bool
    ensures { result ≡ is_between 33 126 byte }
{
    33 <= byte && byte <= 126
}

/// Finds the first eleven parts of a line between its blanks, or all where there are fewer. Whether the line is text.
/// No act has as many.
#[inline(never)]
pub fn first_words<'a>(line: &'a [u8], words: &mut FirstWords<'a>) -> bool
    requires { words.old.items ≡ [] }
    ensures { AreFirst result line.now (map (λ word. word.now) words.new.items) }
{
    let mut start = 0usize;
    for place in 0..line.len() {
        let byte = line[place];
        if is_visible(byte) {
            continue;
        }
        if byte != b' ' {
            return false;
        }
        words.push(&line[start..place]);
        start = place + 1;
        if words.len() == 11 {
            return is_text(&line[start..]);
        }
    }
    words.push(&line[start..]);
    true
}

/// The most bytes of a short line.
pub const SHORT_LINE: usize = 64;

/// Finds the places of a short line's blanks. How many there are. No branch asks for a byte, since words begin and end
/// where none can foretell it.
#[inline(never)]
pub fn blanks(line: &[u8], places: &mut [u8; 64]) -> usize
    requires short { length line.now ≤ 64 }
    ensures { take result places.new ≡ blanks_from 0 line.now }
{
    let mut count = 0usize;
    for place in 0..line.len() {
        places[count] = place as u8;
        count += usize::from(line[place] == b' ');
    }
    count
}

// The part of a line from a place up to another.
#[inline(always)]
fn part<'a>(line: &'a [u8], start: usize, end: usize) -> &'a [u8]
    requires order { start ≤ end }
    requires inside { end ≤ length line.now }
    ensures { result.now ≡ take (end - start) (drop start line.now) }
{
    &line[start..end]
}

/// The two words of a line with one blank.
#[inline(always)]
pub fn two_words<'a>(line: &'a [u8], places: &[u8; 64]) -> (&'a [u8], &'a [u8])
    requires { take 1 places.now ≡ blanks_from 0 line.now }
    ensures { words_of line.now ≡ result.0.now ∷ result.1.now ∷ [] }
{
    let a = usize::from(places[0]);
    let one = part(line, 0, a);
    let two = part(line, a + 1, line.len());
    (one, two)
}

/// The three words of a line with two.
#[inline(always)]
pub fn three_words<'a>(line: &'a [u8], places: &[u8; 64]) -> (&'a [u8], &'a [u8], &'a [u8])
    requires { take 2 places.now ≡ blanks_from 0 line.now }
    ensures { words_of line.now ≡ result.0.now ∷ result.1.now ∷ result.2.now ∷ [] }
{
    let a = usize::from(places[0]);
    let b = usize::from(places[1]);
    let one = part(line, 0, a);
    let two = part(line, a + 1, b);
    let three = part(line, b + 1, line.len());
    (one, two, three)
}

/// The four words of a line with three.
#[inline(always)]
pub fn four_words<'a>(line: &'a [u8], places: &[u8; 64]) -> (&'a [u8], &'a [u8], &'a [u8], &'a [u8])
    requires { take 3 places.now ≡ blanks_from 0 line.now }
    ensures { words_of line.now ≡ result.0.now ∷ result.1.now ∷ result.2.now ∷ result.3.now ∷ [] }
{
    let a = usize::from(places[0]);
    let b = usize::from(places[1]);
    let c = usize::from(places[2]);
    let one = part(line, 0, a);
    let two = part(line, a + 1, b);
    let three = part(line, b + 1, c);
    let four = part(line, c + 1, line.len());
    (one, two, three, four)
}

/// The five words of a line with four.
#[inline(always)]
pub fn five_words<'a>(
    line: &'a [u8],
    places: &[u8; 64],
) -> (&'a [u8], &'a [u8], &'a [u8], &'a [u8], &'a [u8])
    requires { take 4 places.now ≡ blanks_from 0 line.now }
    ensures { words_of line.now ≡ result.0.now ∷ result.1.now ∷ result.2.now ∷ result.3.now ∷ result.4.now ∷ [] }
{
    let a = usize::from(places[0]);
    let b = usize::from(places[1]);
    let c = usize::from(places[2]);
    let d = usize::from(places[3]);
    let one = part(line, 0, a);
    let two = part(line, a + 1, b);
    let three = part(line, b + 1, c);
    let four = part(line, c + 1, d);
    let five = part(line, d + 1, line.len());
    (one, two, three, four, five)
}

// A text before and behind its first blank.
#[inline(always)]
fn cut_word(text: &[u8]) -> Option<(&[u8], &[u8])>
    ensures { IfSome result (λ parts. IsCut 32 text.now parts.0.now parts.1.now) }
{
    for place in 0..text.len() {
        if text[place] == b' ' {
            return Some((&text[..place], &text[place + 1..]));
        }
    }
    None
}

/// The first three words of a line, and what stands behind the third blank.
#[inline(always)]
pub fn cut_line(line: &[u8]) -> Option<(&[u8], &[u8], &[u8], &[u8])>
    ensures { IfSome result (λ parts. words_of line.now ≡ parts.0.now ∷ parts.1.now ∷ parts.2.now
        ∷ words_of parts.3.now) }
{
    let (word, rest) = cut_word(line)?;
    let (one, rest) = cut_word(rest)?;
    let (two, rest) = cut_word(rest)?;
    Some((word, one, two, rest))
}

/// Whether a line has bytes from 32 to 126 only.
pub fn is_text(line: &[u8]) -> bool
    ensures { result ≡ is_text line.now }
{
    line.iter().all(|byte| 32 <= *byte && *byte <= 126)
}

fn all_visible(word: &[u8]) -> bool
    ensures { result ≡ list_all (is_between 33 126) word.now }
{
    word.iter().all(|byte| 33 <= *byte && *byte <= 126)
}

/// Whether a word has bytes from 33 to 126 only, and at least one.
pub fn is_token(word: &[u8]) -> bool
    ensures { result ≡ is_token word.now }
{
    0 < word.len() && all_visible(word)
}

/// Whether all words are numbers.
pub fn are_numbers(words: &[&[u8]]) -> bool
    ensures { result ≡ list_all is_number (map (λ word. word.now) words.now) }
{
    let Some((word, words)) = words.split_first() else {
        return true;
    };
    is_number(word) && are_numbers(words)
}

/// Whether a word is `s` and a number, or `z` and a number.
#[tactic(auto, unfolding(crate::specs::Words::is_node))]
pub fn is_node(word: &[u8]) -> bool
    ensures { result ≡ is_node word.now }
{
    match word {
        [] => false,
        [byte, number @ ..] => (*byte == b's' || *byte == b'z') && is_number(number),
    }
}

/// Whether a word is `z` and a number.
#[tactic(auto, unfolding(crate::specs::Words::is_serializer))]
pub fn is_serializer(word: &[u8]) -> bool
    ensures { result ≡ is_serializer word.now }
{
    match word {
        [] => false,
        [byte, number @ ..] => *byte == b'z' && is_number(number),
    }
}
