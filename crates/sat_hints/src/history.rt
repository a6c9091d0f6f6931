//! What is said of a history that is not as it should be: for each no a sentence that names lines, sites and clients.

use crate::kept::Kept;
use crate::line::{first_word, show, text_of, word_at};
use crate::reason::number;
use crate::wrote::Wrote;
use std::alloc::{AllocError, Global};
use std::fmt::Write;

const PAGE: &str = "what a verdict says, and what to look for: docs/AUDIT.md\n";

// A line of a history, and its number among all lines, from 1.
#[derive(Clone, Copy)]
struct Entry<'a> {
    number: u64,
    line: &'a str,
}

// The entries of a history, and how many lines stand before them.
#[derive(Clone, Copy)]
struct Entries<'a> {
    text: &'a str,
    before: u64,
}

impl<'a> Entries<'a> {
    // Those behind `begin`, where it stands.
    fn read(text: &'a str) -> Option<Entries<'a>> {
        for (index, line) in text.split('\n').enumerate() {
            if line == "begin" {
                let before = (index as u64).saturating_add(1);
                return Some(Entries { text, before });
            }
        }
        None
    }

    // The entry with this number, from 1.
    fn entry(&self, place: u64) -> Option<Entry<'a>> {
        let number = self.before.saturating_add(place);
        let line = self.text.split('\n').nth(number.checked_sub(1)? as usize)?;
        Some(Entry { number, line })
    }

    // The first line before another one that shows a point at a site.
    fn shown_before(&self, until: u64, site: &str, point: &str) -> Option<u64> {
        for (index, line) in self.text.split('\n').enumerate().skip(self.before as usize) {
            let number = (index as u64).saturating_add(1);
            if until <= number {
                return None;
            }
            if shows(line) && point_of(line) == point && site_of(line) == site {
                return Some(number);
            }
        }
        None
    }

    // Whether an entry tells of a write of a point.
    fn writes(&self, point: &str) -> bool {
        for line in self.text.split('\n').skip(self.before as usize) {
            if is_write(line) && point_of(line) == point {
                return true;
            }
        }
        false
    }
}

fn is_write(line: &str) -> bool {
    matches!(first_word(line), "write" | "writes") && line.contains(" -> wrote ")
}

// Whether a line shows an update at a site: a write at its own, or one that came in.
fn shows(line: &str) -> bool {
    match first_word(line) {
        "stamp" | "turn" => line.contains(" -> shown "),
        _ => is_write(line),
    }
}

// The point that an answer tells: a read's stands before its value, any other at the end.
fn point_of(line: &str) -> &str {
    match first_word(line) {
        "read" => word_at(line, 5).unwrap_or("none"),
        _ => line.rsplit(' ').next().unwrap_or(line),
    }
}

// The site at which a line shows.
fn site_of(line: &str) -> &str {
    match first_word(line) {
        "stamp" | "turn" => word_at(line, 1).unwrap_or("?"),
        _ => point_of(line).split('.').nth(1).unwrap_or("?"),
    }
}

// Adds the items of a write or of an update that is shown.
fn add_items(text: &mut String, line: &str) -> Result<(), AllocError> {
    match first_word(line) {
        "stamp" | "turn" => text.push_str(word_at(line, 4).unwrap_or("?")),
        "writes" => {
            let act = line.split(" -> ").next().unwrap_or(line);
            for (index, word) in act.split(' ').enumerate() {
                if index >= 2 && index % 2 == 0 {
                    text.push_str(if index == 2 { "" } else { "," })?;
                    text.push_str(word)?;
                }
            }
            Ok(())
        }
        _ => text.push_str(word_at(line, 2).unwrap_or("?")),
    }
}

// Adds who wrote an update, and in which line.
fn add_writer(text: &mut String, maker: Entry<'_>) -> Result<(), AllocError> {
    add_items(text, maker.line)?;
    let point = point_of(maker.line);
    let client = word_at(maker.line, 1).unwrap_or("?");
    let line = maker.number;
    write!(text, " {point}, written in line {line} by {client}")
}

// A site showed an update before one of its causes.
fn about_causal(
    text: &mut String,
    entries: Entries<'_>,
    numbers: (u64, u64),
    site: &str,
) -> Result<(), AllocError> {
    let (Some(shown), Some(cause)) = (entries.entry(numbers.0), entries.entry(numbers.1)) else {
        return Ok(());
    };
    let line = shown.number;
    write!(text, "saturn: line {line} shows ")?;
    add_items(text, shown.line)?;
    let point = point_of(shown.line);
    write!(text, " {point} at site {site} before its cause ")?;
    add_writer(text, cause)?;
    text.push('\n')?;
    show(text, shown.line, None)
}

// Why an entry shows what is not new.
fn add_reason(text: &mut String, entries: Entries<'_>, shown: Entry<'_>) -> Result<(), AllocError> {
    let (site, point) = (site_of(shown.line), point_of(shown.line));
    if let Some(earlier) = entries.shown_before(shown.number, site, point) {
        return write!(text, " again, as in line {earlier}");
    }
    if entries.writes(point) {
        return write!(text, ", which keeps none of its items");
    }
    write!(text, ", which no line writes")
}

// A site showed an update again, or one that it should not show.
fn about_once(text: &mut String, entries: Entries<'_>, place: u64) -> Result<(), AllocError> {
    let Some(shown) = entries.entry(place) else {
        return Ok(());
    };
    let (line, site, point) = (shown.number, site_of(shown.line), point_of(shown.line));
    write!(text, "saturn: line {line} shows ")?;
    add_items(text, shown.line)?;
    write!(text, " {point} at site {site}")?;
    add_reason(text, entries, shown)?;
    text.push('\n')?;
    show(text, shown.line, None)
}

// A client read what was older than it had seen.
fn about_fresh(
    text: &mut String,
    entries: Entries<'_>,
    numbers: (u64, u64),
) -> Result<(), AllocError> {
    let (Some(read), Some(missed)) = (entries.entry(numbers.0), entries.entry(numbers.1)) else {
        return Ok(());
    };
    let client = word_at(read.line, 1).unwrap_or("?");
    let item = word_at(read.line, 2).unwrap_or("?");
    let (line, point) = (read.number, point_of(read.line));
    write!(
        text,
        "saturn: in line {line} {client} reads {item} and gets {point}, but had seen "
    )?;
    add_writer(text, missed)?;
    text.push('\n')?;
    show(text, read.line, None)
}

// What is said of one line of a verdict.
fn about_law(text: &mut String, entries: Entries<'_>, line: &str) -> Result<(), AllocError> {
    let at = |index| word_at(line, index).and_then(number).unwrap_or(0);
    if word_at(line, 1) != Some("no") {
        return Ok(());
    }
    match first_word(line) {
        "causal" => about_causal(
            text,
            entries,
            (at(2), at(3)),
            word_at(line, 4).unwrap_or("?"),
        ),
        "once" => about_once(text, entries, at(2)),
        "fresh" => about_fresh(text, entries, (at(2), at(3))),
        _ => Ok(()),
    }
}

/// What is said of a history with a no, by what was read and what was written; nothing where that does not tell it, as
/// where more was read than is kept.
pub fn about_history(
    alloc: Global,
    kept: &Kept,
    wrote: &Wrote,
) -> Result<Option<String>, AllocError> {
    let verdict = text_of(alloc, wrote.last())?;
    let history = text_of(alloc, kept.head())?;
    let Some(entries) = Entries::read(history.as_str()) else {
        return Ok(None);
    };
    let mut text = String::new(alloc);
    for line in verdict.as_str().split('\n') {
        about_law(&mut text, entries, line)?;
    }
    if text.is_empty() {
        return Ok(None);
    }
    text.push_str(PAGE)?;
    Ok(Some(text))
}
