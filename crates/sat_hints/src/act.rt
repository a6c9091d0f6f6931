//! Lines of acts that have no form of an act.

use crate::forms::{act_words, form_of, header_form, is_act, kind_text, longest_form};
use crate::header::Header;
use crate::line::{Place, count_words, first_word, place_from, place_of, word_at};
use crate::near::near_word;
use crate::reason::{about_blanks, has_leading_zero, is_digits, is_name};
use std::alloc::{AllocError, Global};
use std::fmt::Write;

// No act begins with the line's first word.
fn about_word(alloc: Global, text: &mut String, word: &str) -> Result<(), AllocError> {
    if header_form(word).is_some() {
        return write!(
            text,
            "`{word}` is a line of the header, and stands before `begin`"
        );
    }
    match near_word(alloc, word, act_words())? {
        Some(near) => write!(text, "no act begins with `{word}`; did you mean `{near}`?"),
        None => write!(text, "no act begins with `{word}`"),
    }
}

// The line has as many words as no act with its first word.
fn about_count(text: &mut String, line: &str, word: &str) -> Result<Place, AllocError> {
    let Some(longest) = longest_form(word) else {
        write!(text, "no act has this form")?;
        return Ok(place_of(line, 0));
    };
    let most = count_words(longest);
    match word {
        "writes" => write!(
            text,
            "`writes` takes a client and two to four items, each with its value: writes C X V X V"
        )?,
        "bulk" => write!(text, "the forms are `bulk I G J` and `bulk I G J N`")?,
        _ => write!(text, "the form is `{longest}`")?,
    }
    if most < count_words(line) {
        return Ok(place_from(line, most));
    }
    Ok(Place {
        start: line.len().saturating_add(1),
        count: 1,
    })
}

// Whether a word may stand for a kind.
fn is_kind(kind: &str, word: &str) -> bool {
    let digits = match kind {
        "C" | "X" => return is_name(word),
        "V" => return true,
        "U" => word.strip_prefix('s').or(word.strip_prefix('z')),
        "Z" => word.strip_prefix('z'),
        _ => Some(word),
    };
    digits.is_some_and(|digits| is_digits(digits) && !has_leading_zero(digits))
}

// A word is of another kind than its place asks for.
fn about_kinds(text: &mut String, line: &str, form: &str) -> Result<Option<Place>, AllocError> {
    for (index, (kind, word)) in form.split(' ').zip(line.split(' ')).enumerate() {
        if index > 0 && !is_kind(kind, word) {
            if has_leading_zero(word) {
                write!(text, "`{word}` begins with a zero")?;
            } else {
                write!(text, "{}, and not `{word}`", kind_text(kind))?;
            }
            return Ok(Some(place_of(line, index)));
        }
    }
    Ok(None)
}

// The line has the form of an act, which the scripts of some commands lack.
fn about_command(text: &mut String, word: &str) -> Result<(), AllocError> {
    match word {
        "enter" | "pass" | "apply" | "crash" => {
            write!(text, "`{word}` is an act of scripts for `chain` alone")
        }
        "stop" | "cut" => write!(text, "`{word}` is an act of scripts for `durable` alone"),
        "hop" | "kill" | "settle" | "clock" => write!(
            text,
            "scripts for this command have no act `{word}`"
        ),
        _ => write!(text, "no act has this form"),
    }
}

/// Why a line behind `begin` has no form of an act, and where.
pub(crate) fn about_act(
    alloc: Global,
    text: &mut String,
    header: &Header<'_>,
    line: &str,
) -> Result<Option<Place>, AllocError> {
    if let Some((reason, place)) = about_blanks(line) {
        text.push_str(reason)?;
        return Ok(Some(place));
    }
    let word = first_word(line);
    if !is_act(word) {
        about_word(alloc, text, word)?;
        return Ok(Some(place_of(line, 0)));
    }
    if word == "writes" && header.number("saturn") == Some(1) {
        write!(
            text,
            "`writes` is an act of format 2, and this script begins with `saturn 1`"
        )?;
        return Ok(Some(place_of(line, 0)));
    }
    let Some(form) = form_of(line) else {
        return Ok(Some(about_count(text, line, word)?));
    };
    let place = about_kinds(text, line, form)?;
    if place.is_none() {
        about_command(text, word)?;
    }
    Ok(place)
}
