//! Lines of the header that have none of the forms that may stand at their place.

use crate::forms::{header_form, header_words, is_act};
use crate::header::Header;
use crate::line::{Place, count_words, first_word, place_from, place_of, word_at};
use crate::near::near_word;
use crate::reason::{about_blanks, has_leading_zero, is_digits, is_name, number};
use std::alloc::{AllocError, Global};
use std::fmt::Write;

// The word that the line with this number begins with, where that is fixed.
fn first_lines(line: u64) -> Option<&'static str> {
    match line {
        1 => Some("saturn"),
        2 => Some("sites"),
        3 => Some("gears"),
        _ => None,
    }
}

// No line of the header begins with the line's first word.
fn about_word(alloc: Global, text: &mut String, word: &str) -> Result<(), AllocError> {
    if is_act(word) || word == "end" {
        return write!(
            text,
            "`{word}` stands behind `begin`, and no `begin` has come"
        );
    }
    match near_word(alloc, word, header_words())? {
        Some(near) => write!(
            text,
            "no line of the header begins with `{word}`; did you mean `{near}`?"
        ),
        None => write!(text, "no line of the header begins with `{word}`"),
    }
}

// Whether a list of sites ascends, as far as it can be read.
fn ascends(list: &str) -> bool {
    let mut least = 0u64;
    for site in list.split(',') {
        match number(site) {
            Some(site) if least <= site => least = site.saturating_add(1),
            _ => return false,
        }
    }
    true
}

// Whether a list has nothing but numbers.
fn is_list(list: &str) -> bool {
    list.split(',')
        .all(|site| is_digits(site) && !has_leading_zero(site))
}

// A line with a name, and behind it a site or sites.
fn about_named(text: &mut String, line: &str, form: &str) -> Result<Option<Place>, AllocError> {
    let name = word_at(line, 1).unwrap_or("");
    let sites = word_at(line, 2).unwrap_or("");
    if !is_name(name) {
        text.push_str("a name has 1 to 32 letters, digits, `_`, `-` or `.`")?;
        return Ok(Some(place_of(line, 1)));
    }
    if first_word(line) == "item" && is_list(sites) && !ascends(sites) {
        text.push_str("the sites of an item ascend")?;
    } else {
        write!(text, "the form is `{form}`")?;
    }
    Ok(Some(place_of(line, 2)))
}

// A line of a known form that may not stand here.
fn about_order(text: &mut String, header: &Header<'_>, word: &str) -> Result<bool, AllocError> {
    let reason = match word {
        "saturn" => "`saturn F` is the first line alone",
        "sites" => "`sites N` is the second line alone",
        "gears" => "`gears N` is the third line alone",
        "item" if header.has("client") || header.has("plan") => {
            "an item stands before the first client and the first plan"
        }
        "client" if header.has("plan") => "a client stands before the first plan",
        "begin" if !header.has("plan") => "a `plan` stands before `begin`, and none has come",
        _ => return Ok(false),
    };
    text.push_str(reason)?;
    Ok(true)
}

// A line that begins with a word of the header.
fn about_form(text: &mut String, line: &str, form: &str) -> Result<Option<Place>, AllocError> {
    let word = first_word(line);
    let wanted = match word {
        "saturn" | "sites" | "gears" => 2,
        "item" | "client" => 3,
        "begin" => 1,
        _ => {
            write!(text, "the form is `{form}`")?;
            return Ok(Some(place_from(line, 1)));
        }
    };
    if wanted < count_words(line) {
        write!(text, "the form is `{form}`")?;
        return Ok(Some(place_from(line, wanted)));
    }
    if count_words(line) < wanted {
        write!(text, "the form is `{form}`")?;
        return Ok(Some(Place {
            start: line.len().saturating_add(1),
            count: 1,
        }));
    }
    if wanted == 3 {
        return about_named(text, line, form);
    }
    write!(text, "the form is `{form}`")?;
    Ok(Some(place_of(line, 1)))
}

/// Why a line of the header has none of the forms that may stand there, and where.
pub(crate) fn about_header(
    alloc: Global,
    text: &mut String,
    header: &Header<'_>,
    line: &str,
    number: u64,
) -> Result<Option<Place>, AllocError> {
    if let Some((reason, place)) = about_blanks(line) {
        text.push_str(reason)?;
        return Ok(Some(place));
    }
    let word = first_word(line);
    if let Some(first) = first_lines(number) {
        if word != first {
            let form = header_form(first).unwrap_or(first);
            write!(text, "line {number} is `{form}`")?;
            return Ok(Some(place_of(line, 0)));
        }
        return about_form(text, line, header_form(first).unwrap_or(first));
    }
    let Some(form) = header_form(word) else {
        about_word(alloc, text, word)?;
        return Ok(Some(place_of(line, 0)));
    };
    if about_order(text, header, word)? {
        return Ok(Some(place_of(line, 0)));
    }
    about_form(text, line, form)
}
