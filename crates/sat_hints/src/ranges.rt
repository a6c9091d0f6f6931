//! Acts and lines of the header whose words are of the right kinds and name nothing, or a number that is out of its
//! range.

use crate::forms::form_of;
use crate::header::{Header, count_serializers};
use crate::line::{Place, first_word, place_of, word_at};
use crate::reason::number;
use std::alloc::{AllocError, Global};
use std::fmt::Write;

// The word before the names of a kind in the header.
fn names_of(kind: &str) -> Option<&'static str> {
    match kind {
        "C" => Some("client"),
        "X" => Some("item"),
        _ => None,
    }
}

/// Which name of an act the header lacks, and the nearest that it has.
pub(crate) fn about_name(
    alloc: Global,
    text: &mut String,
    header: &Header<'_>,
    line: &str,
) -> Result<Option<Place>, AllocError> {
    let form = form_of(line).unwrap_or("");
    for (index, (kind, name)) in form.split(' ').zip(line.split(' ')).enumerate() {
        if let Some(word) = names_of(kind) {
            if index > 0 && header.place(word, name).is_none() {
                match header.nearest(alloc, word, name)? {
                    Some(near) => write!(
                        text,
                        "the header has no {word} `{name}`; did you mean `{near}`?"
                    )?,
                    None => write!(text, "the header has no {word} `{name}`")?,
                }
                return Ok(Some(place_of(line, index)));
            }
        }
    }
    text.push_str("a name that the header lacks")?;
    Ok(None)
}

/// Which item of a group does not stand behind the one before it.
pub(crate) fn about_group(
    text: &mut String,
    header: &Header<'_>,
    line: &str,
) -> Result<Option<Place>, AllocError> {
    text.push_str("the items of a group stand in the order of the header")?;
    let form = form_of(line).unwrap_or("");
    let mut least = 0usize;
    for (index, (kind, name)) in form.split(' ').zip(line.split(' ')).enumerate() {
        if kind == "X" {
            let place = header.place("item", name).unwrap_or(least);
            if place < least {
                return Ok(Some(place_of(line, index)));
            }
            least = place.saturating_add(1);
        }
    }
    Ok(None)
}

// What numbers may stand for a kind: the first and the last one.
#[derive(Clone, Copy, Debug, PartialEq, Eq)]
struct Range {
    what: &'static str,
    first: u64,
    last: u64,
}

// Numbers from 0, so many.
fn below(what: &'static str, count: u64) -> Range {
    Range {
        what,
        first: 0,
        last: count.saturating_sub(1),
    }
}

fn sites(header: &Header<'_>) -> Range {
    below("sites", header.number("sites").unwrap_or(0))
}

// The serializers of the epoch that a line names.
fn serializers(header: &Header<'_>, line: &str) -> Range {
    let epoch = word_at(line, 1).and_then(number).unwrap_or(0);
    let plan = header.plan(epoch).unwrap_or("");
    below("serializers", count_serializers(plan))
}

fn range_of(header: &Header<'_>, line: &str, kind: &str, word: &str) -> Option<Range> {
    match kind {
        "I" | "J" => Some(sites(header)),
        "G" => Some(below("gears", header.number("gears").unwrap_or(0))),
        "T" => Some(Range {
            what: "timestamps",
            first: 0,
            last: 4611686018427387904,
        }),
        "N" => Some(Range {
            what: "numbers",
            first: 0,
            last: u64::MAX,
        }),
        "D" => Some(Range {
            what: "calls of the disk that pass",
            first: 0,
            last: 3,
        }),
        "B" => Some(Range {
            what: "marks of what stays",
            first: 0,
            last: 1,
        }),
        "E" => Some(Range {
            what: "epochs",
            first: 1,
            last: header.count_plans(),
        }),
        "U" if word.starts_with('s') => Some(sites(header)),
        "U" | "Z" => Some(serializers(header, line)),
        _ => None,
    }
}

// The number of a word, also of a node.
fn number_in(word: &str) -> Option<u64> {
    let digits = word.strip_prefix('s').or(word.strip_prefix('z'));
    number(digits.unwrap_or(word))
}

fn is_outside(range: Range, word: &str) -> bool {
    number_in(word).is_none_or(|value| value < range.first || range.last < value)
}

fn write_range(text: &mut String, range: Range) -> Result<(), AllocError> {
    let Range { what, first, last } = range;
    if last < first {
        return write!(text, "there are no {what} here");
    }
    if first == last {
        return write!(text, "of {what} there is only {first} here");
    }
    write!(text, "{what} go from {first} to {last} here")
}

// The second of two words that are one site.
fn same_site(form: &str, line: &str) -> Option<usize> {
    let (first, second) = match first_word(form) {
        "bulk" => (1, 3),
        "beat" | "beatin" => (1, 2),
        _ => return None,
    };
    if word_at(line, first) == word_at(line, second) {
        return Some(second);
    }
    None
}

// An act with a number out of its range.
fn about_act(
    text: &mut String,
    header: &Header<'_>,
    line: &str,
    form: &str,
) -> Result<Option<Place>, AllocError> {
    for (index, (kind, word)) in form.split(' ').zip(line.split(' ')).enumerate() {
        if index > 0 && kind == "V" && word.len() > 256 {
            text.push_str("a value has at most 256 bytes")?;
            return Ok(Some(place_of(line, index)));
        }
        if kind == "K" {
            text.push_str("replicas go from 0 to one less than the number behind `chain`")?;
            return Ok(Some(place_of(line, index)));
        }
        if let Some(range) = range_of(header, line, kind, word) {
            if index > 0 && is_outside(range, word) {
                write_range(text, range)?;
                return Ok(Some(place_of(line, index)));
            }
        }
    }
    if let Some(index) = same_site(form, line) {
        text.push_str("the two sites are one")?;
        return Ok(Some(place_of(line, index)));
    }
    text.push_str("a number is out of its range")?;
    Ok(None)
}

// How many sites a script may have.
fn most_sites(header: &Header<'_>) -> u64 {
    if header.number("saturn") == Some(2) {
        64
    } else {
        16
    }
}

// A line of the header with a number out of its range.
fn about_header(
    text: &mut String,
    header: &Header<'_>,
    line: &str,
) -> Result<Option<Place>, AllocError> {
    let (range, index) = match first_word(line) {
        "sites" => (
            Range {
                what: "counts of sites",
                first: 1,
                last: most_sites(header),
            },
            1,
        ),
        "gears" => (
            Range {
                what: "counts of gears",
                first: 1,
                last: 8,
            },
            1,
        ),
        _ => (sites(header), 2),
    };
    write_range(text, range)?;
    Ok(Some(place_of(line, index)))
}

/// Which number is out of its range, and what the range is.
pub(crate) fn about_range(
    text: &mut String,
    header: &Header<'_>,
    line: &str,
) -> Result<Option<Place>, AllocError> {
    match form_of(line) {
        Some(form) => about_act(text, header, line, form),
        None => about_header(text, header, line),
    }
}

/// Which word of a `hop` or a `kill` lacks its tree or its edge.
pub(crate) fn about_edge(
    text: &mut String,
    header: &Header<'_>,
    line: &str,
) -> Result<Option<Place>, AllocError> {
    let epoch = word_at(line, 1).and_then(number).unwrap_or(0);
    match header.plan(epoch) {
        Some("plan stamp") => {
            write!(text, "epoch {epoch} is timestamp order, and has no tree")?;
            Ok(Some(place_of(line, 1)))
        }
        Some(plan) => {
            write!(
                text,
                "the two nodes are no neighbours in the tree of epoch {epoch}: {plan}"
            )?;
            Ok(Some(place_of(line, 2)))
        }
        None => {
            write!(
                text,
                "the two nodes are no neighbours in the tree of epoch {epoch}"
            )?;
            Ok(Some(place_of(line, 2)))
        }
    }
}
