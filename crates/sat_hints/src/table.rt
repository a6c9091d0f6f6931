//! Tables of delays that are refused.

use crate::line::{first_word, word_at};
use std::alloc::AllocError;
use std::fmt::Write;

// Where in a table something is wrong.
fn about_place(text: &mut String, line: &str) -> Result<(), AllocError> {
    let key = word_at(line, 2).unwrap_or("");
    let row = word_at(line, 3).unwrap_or("");
    let column = word_at(line, 4).unwrap_or("");
    match key {
        "sites" | "places" => write!(text, "`{key}`"),
        _ => write!(
            text,
            "`{key}`, in row {row} and column {column}, counted from 0,"
        ),
    }
}

// What is wrong there.
fn about_number(text: &mut String, line: &str, cause: &str) -> Result<(), AllocError> {
    about_place(text, line)?;
    match (cause, word_at(line, 2).unwrap_or("")) {
        ("TooBig", _) => text.push_str(" is above its bound"),
        (_, "sites" | "places") => text.push_str(" is missing, 0 or no whole number"),
        _ => text.push_str(" lacks a whole number, or has one too many"),
    }
}

/// Why a table of delays is refused, by the line that was written, as `plan: TooBig reach 3 2`.
pub(crate) fn about_table(text: &mut String, line: &str) -> Result<(), AllocError> {
    write!(text, "saturn: {line}: ")?;
    match word_at(line, 1).unwrap_or("") {
        "TooLong" => text.push_str("the input has more than 1048576 bytes")?,
        "NotJson" => text.push_str("the input is no JSON")?,
        "BadShape" => about_number(text, line, "BadShape")?,
        "TooBig" => about_number(text, line, "TooBig")?,
        _ => text.push_str("the input is refused")?,
    }
    let section = if first_word(line) == "place:" { 11 } else { 10 };
    write!(
        text,
        "\nthe keys of a table: docs/SCRIPTS.md, section {section}\n"
    )
}
