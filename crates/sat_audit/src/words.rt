//! The words of a line, and those of them that are its act.
ghost use Rattle.std.specs.Prelude.{◌≡◌, ◌≤◌, ◌<◌, map, take, length, MatchOption, IfOk};
ghost use Rattle.std.specs.List.{slice_split};
ghost use Rattle.sat_script.specs.Table.{shapes};
ghost use Rattle.sat_script.specs.Words.{HasNo, IsCut, words_of, parts_of};
ghost use Rattle.sat_audit.specs.Lines.{act_words_of, has_form, most_with_form};
ghost use Rattle.sat_audit.specs.Told.{is_dot};
ghost use Rattle.sat_audit.specs.Fronts.{front_end};

use memchr::memchr;
use sat_script::{Kind, act_forms, allows, found_form, has_shape, kinds_of};
use std::alloc::{AllocError, Global};

/// A text before and behind the first place of a byte, where the byte stands in it.
pub fn cut_at(byte: u8, text: &[u8]) -> Option<(&[u8], &[u8])>
    ensures { MatchOption result (HasNo byte text.now) (λ parts. IsCut byte text.now parts.0.now parts.1.now) }
{
    match memchr(byte, text) {
        Some(at) => Some((&text[..at], &text[at + 1..])),
        None => None,
    }
}

/// The parts of a line between its blanks.
pub fn words_of(alloc: Global, line: &[u8]) -> Result<Vec<&[u8]>, AllocError>
    ensures { IfOk result (λ words. map (λ word. word.now) words.items ≡ words_of line.now) }
{
    line.split(|byte| *byte == b' ').collect(alloc)
}

/// The parts of a word between its commas.
pub fn names_of(alloc: Global, word: &[u8]) -> Result<Vec<&[u8]>, AllocError>
    ensures { IfOk result (λ parts. map (λ part. part.now) parts.items ≡ parts_of word.now) }
{
    word.split(|byte| *byte == b',').collect(alloc)
}

/// The parts of a word between its dots.
pub fn numbers_of(alloc: Global, word: &[u8]) -> Result<Vec<&[u8]>, AllocError>
    ensures { IfOk result (λ parts. map (λ part. part.now) parts.items ≡ slice_split is_dot word.now) }
{
    word.split(|byte| *byte == b'.').collect(alloc)
}

// As many words as kinds, each of its shape.
fn shapes(kinds: &[Kind], words: &[&[u8]]) -> bool
    ensures { result ≡ shapes kinds.now (map (λ word. word.now) words.now) }
{
    let Some((kind, kinds)) = kinds.split_first() else {
        return words.is_empty();
    };
    let Some((word, words)) = words.split_first() else {
        return false;
    };
    has_shape(*kind, word) && shapes(kinds, words)
}

// Whether the words have a form that the format allows.
fn has_form(format: u16, words: &[&[u8]]) -> bool
    ensures { result ≡ has_form format (map (λ word. word.now) words.now) }
{
    let Some((word, words)) = words.split_first() else {
        return false;
    };
    match found_form(word, words.len(), act_forms()) {
        Some(form) => allows(format, form) && shapes(kinds_of(form), words),
        None => false,
    }
}

// The most of the first words, up to so many, that have a form.
#[tactic(auto, using(crate::proofs::Forms::most_none, crate::proofs::Forms::most_of_front, crate::proofs::Forms::most_of_less))]
fn most_with_form(format: u16, words: &[&[u8]], count: usize) -> usize
    requires { count ≤ length words.now }
    ensures most { result ≡ most_with_form format (map (λ word. word.now) words.now) count }
    ensures inside { result ≤ count }
{
    if count == 0 {
        return 0;
    }
    if has_form(format, &words[..count]) {
        return count;
    }
    most_with_form(format, words, count - 1)
}

// The most words that an act has.
const MOST_ACT_WORDS: usize = 10;

/// How many of the first words are the act; 0 where none are.
#[tactic(auto, using(crate::proofs::Forms::all_words, crate::proofs::Forms::ten_words))]
pub fn act_words_of(format: u16, words: &[&[u8]]) -> usize
    ensures count { result ≡ act_words_of format (map (λ word. word.now) words.now) }
    ensures inside { result ≤ length words.now }
{
    if words.len() < MOST_ACT_WORDS {
        return most_with_form(format, words, words.len());
    }
    most_with_form(format, words, MOST_ACT_WORDS)
}

// The place of the blank behind so many words, or the end of the line.
#[tactic(auto, using(crate::proofs::Fronts::left_start, crate::proofs::Fronts::left_here, crate::proofs::Fronts::left_next, crate::proofs::Fronts::left_on, crate::proofs::Fronts::left_end))]
fn front_end(line: &[u8], count: usize) -> usize
    requires { 0 < count }
    ensures end { result ≡ front_end count line.now }
    ensures inside { result ≤ length line.now }
{
    let mut left = count;
    for place in 0..line.len() {
        if line[place] != b' ' {
            continue;
        }
        if left == 1 {
            return place;
        }
        left -= 1;
    }
    line.len()
}

/// The first so many words of a line, or all where there are fewer.
pub fn front(line: &[u8], count: usize) -> &[u8]
    requires { 0 < count }
    ensures { result.now ≡ take (front_end count line.now) line.now }
{
    &line[..front_end(line, count)]
}
