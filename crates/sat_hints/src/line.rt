//! A line, its words and places in it.

use std::alloc::{AllocError, Global};
use std::fmt;
use std::fmt::Write;

// So many bytes of a line are shown.
const WIDTH: usize = 72;
// Where a line is cut at its front, so many stand before the place that is meant.
const BEFORE: usize = 24;

/// Bytes as a terminal may have them: a `?` in place of each that is none of 32 to 126.
#[derive(Clone, Copy, Debug, PartialEq, Eq)]
pub(crate) struct Shown<'a> {
    bytes: &'a [u8],
}

impl<'a> Shown<'a> {
    pub(crate) fn new(bytes: &'a [u8]) -> Shown<'a> {
        Shown { bytes }
    }
}

// The character that stands for a byte.
pub(crate) fn plain(byte: u8) -> char {
    match byte {
        b' '..=b'~' => char::from(byte),
        _ => '?',
    }
}

impl fmt::Display for Shown<'_> {
    fn fmt<W: fmt::Write>(&self, f: &mut fmt::Formatter<W>) -> fmt::Result {
        for byte in self.bytes {
            f.write_char(plain(*byte))?;
        }
        Ok(())
    }
}

/// Lines as text: with a `?` in place of each byte that is neither a line's end nor one of 32 to 126.
pub(crate) fn text_of(alloc: Global, bytes: &[u8]) -> Result<String, AllocError> {
    let mut text = String::with_capacity(alloc, bytes.len())?;
    for byte in bytes {
        let shown = if *byte == b'\n' { '\n' } else { plain(*byte) };
        text.push(shown)?;
    }
    Ok(text)
}

/// Some bytes of a line, from 0.
#[derive(Clone, Copy, Debug, PartialEq, Eq)]
pub(crate) struct Place {
    pub start: usize,
    pub count: usize,
}

/// The word at a place among a line's words, from 0; none where it has fewer.
pub(crate) fn word_at(line: &str, index: usize) -> Option<&str> {
    line.split(' ').nth(index)
}

pub(crate) fn first_word(line: &str) -> &str {
    word_at(line, 0).unwrap_or(line)
}

pub(crate) fn count_words(line: &str) -> usize {
    line.split(' ').count()
}

/// Where such a word stands; behind the line where it has fewer.
pub(crate) fn place_of(line: &str, index: usize) -> Place {
    let mut start = 0usize;
    for (number, word) in line.split(' ').enumerate() {
        if number == index {
            return Place {
                start,
                count: word.len(),
            };
        }
        start = start.saturating_add(word.len()).saturating_add(1);
    }
    Place { start, count: 1 }
}

/// From a word on to the line's end.
pub(crate) fn place_from(line: &str, index: usize) -> Place {
    let place = place_of(line, index);
    Place {
        start: place.start,
        count: line.len().saturating_sub(place.start),
    }
}

// The first byte that is shown, so that the place that is meant is seen.
fn shown_from(place: Place) -> usize {
    if place.start.saturating_add(BEFORE) <= WIDTH {
        0
    } else {
        place.start.saturating_sub(BEFORE)
    }
}

fn add_many(text: &mut String, shown: char, count: usize) -> Result<(), AllocError> {
    for _ in 0..count {
        text.push(shown)?;
    }
    Ok(())
}

/// Adds a line, as much of it as a terminal shows, and a caret below a place.
pub(crate) fn show(text: &mut String, line: &str, place: Option<Place>) -> Result<(), AllocError> {
    let from = place.map_or(0, shown_from);
    let front = if from == 0 { "  " } else { "  .." };
    let is_cut = line.len().saturating_sub(from) > WIDTH;
    text.push_str(front)?;
    for shown in line.chars().skip(from).take(WIDTH) {
        text.push(shown)?;
    }
    text.push_str(if is_cut { "..\n" } else { "\n" })?;
    let Some(place) = place else {
        return Ok(());
    };
    let start = place.start.saturating_sub(from);
    add_many(text, ' ', start.saturating_add(front.len()))?;
    add_many(
        text,
        '^',
        place.count.min(WIDTH.saturating_sub(start)).max(1),
    )?;
    text.push('\n')
}
