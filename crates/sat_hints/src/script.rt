//! What is said of an input that is refused, and of acts that were.

use crate::act::about_act;
use crate::header::Header;
use crate::header_line::about_header;
use crate::kept::Kept;
use crate::line::{Place, first_word, place_of, show, text_of, word_at};
use crate::ranges::{about_edge, about_group, about_name, about_range};
use crate::reason::number;
use crate::table::about_table;
use crate::tree::about_tree;
use crate::wrote::Wrote;
use std::alloc::{AllocError, Global};
use std::fmt::Write;

// The number of the line and its cause, of the line that tells a fault, as `line 8: BadAct`.
fn fault_of(line: &str) -> Option<(u64, &str)> {
    if first_word(line) != "line" {
        return None;
    }
    let number = number(word_at(line, 1)?.strip_suffix(':')?)?;
    Some((number, word_at(line, 2)?))
}

// Where more is said of a cause.
fn page_of(cause: &str) -> &'static str {
    match cause {
        "BadAct" => "the acts and their forms: docs/SCRIPTS.md, section 3\n",
        "BadHeader" | "BadTree" | "TooMany" => {
            "the lines of a script and their limits: docs/SCRIPTS.md, section 2\n"
        }
        "NotLive" => "the acts of live: docs/SCRIPTS.md, section 14\n",
        "BadAnswer" | "SamePoint" => "histories and their answers: docs/AUDIT.md\n",
        _ => "the causes: docs/SCRIPTS.md, section 8\n",
    }
}

// What a byte is that no line may have.
fn about_byte(byte: u8) -> &'static str {
    match byte {
        b'\t' => "a tab",
        b'\r' => "a carriage return; a line ends with byte 10 alone",
        0xef => "a letter with an accent or another sign beyond ASCII, or a byte order mark",
        0x80..=0xff => "a letter with an accent or another sign beyond ASCII",
        _ => "a control character",
    }
}

// The first byte of a line that is none of 32 to 126.
fn about_text(text: &mut String, bytes: &[u8]) -> Result<Option<Place>, AllocError> {
    for (start, byte) in bytes.iter().enumerate() {
        if *byte < b' ' || b'~' < *byte {
            let what = about_byte(*byte);
            write!(text, "byte {} is {what}", start.saturating_add(1))?;
            return Ok(Some(Place { start, count: 1 }));
        }
    }
    text.push_str("a byte outside 32 to 126")?;
    Ok(None)
}

// The name of an earlier item or client.
fn about_same(text: &mut String, line: &str) -> Result<Option<Place>, AllocError> {
    let word = first_word(line);
    let name = word_at(line, 1).unwrap_or("");
    write!(text, "an earlier {word} has the name `{name}`")?;
    Ok(Some(place_of(line, 1)))
}

// The input ends before the line does.
fn about_end(text: &mut String, line: &str) -> Result<Option<Place>, AllocError> {
    if line.is_empty() {
        text.push_str("the input ends here, and no line `end` has come")?;
        return Ok(None);
    }
    text.push_str("the input ends before this line has its line feed")?;
    Ok(Some(Place {
        start: line.len(),
        count: 1,
    }))
}

// A cause that the line's place alone decides.
fn about_place(text: &mut String, cause: &str, line: &str) -> Result<Option<Place>, AllocError> {
    let word = first_word(line);
    match cause {
        "AfterEnd" => text.push_str("nothing stands behind the line `end`")?,
        "LongLine" => text.push_str("a line has at most 4096 bytes")?,
        "TooMany" => write!(
            text,
            "one `{word}` more than a script of this format may have"
        )?,
        "NotLive" => text.push_str(
            "`live` takes write, writes, read, move, leave, attach, close, fall and kill alone",
        )?,
        "BadAnswer" => text.push_str(
            "behind the act there is no answer, or none that this act has",
        )?,
        "SamePoint" => text.push_str(
            "an earlier answer tells of a write or a move with this point",
        )?,
        _ => text.push_str("the line is at fault")?,
    }
    Ok(Some(place_of(line, 0)))
}

// Why a line is at fault, and where.
fn reason(
    alloc: Global,
    text: &mut String,
    header: &Header<'_>,
    fault: (u64, &str),
    line: &str,
) -> Result<Option<Place>, AllocError> {
    let (number, cause) = fault;
    match cause {
        "NoEnd" => about_end(text, line),
        "BadHeader" => about_header(alloc, text, header, line, number),
        "BadAct" => about_act(alloc, text, header, line),
        "SameName" => about_same(text, line),
        "UnknownName" => about_name(alloc, text, header, line),
        "OutOfRange" => about_range(text, header, line),
        "BadTree" => about_tree(text, header, line),
        "NoEdge" => about_edge(text, header, line),
        "BadGroup" => about_group(text, header, line),
        _ => about_place(text, cause, line),
    }
}

// What is said of a line at fault.
fn about_line(
    alloc: Global,
    head: &str,
    bytes: &[u8],
    fault: (u64, &str),
) -> Result<String, AllocError> {
    let (number, cause) = fault;
    let line = text_of(alloc, bytes)?;
    let header = Header::read(alloc, head, number)?;
    let mut text = String::new(alloc);
    write!(text, "saturn: line {number}: {cause}: ")?;
    let place = match cause {
        "NotText" => about_text(&mut text, bytes)?,
        _ => reason(alloc, &mut text, &header, fault, line.as_str())?,
    };
    text.push('\n')?;
    if place.is_some() || !line.is_empty() {
        show(&mut text, line.as_str(), place)?;
    }
    text.push_str(page_of(cause))?;
    Ok(text)
}

/// What is said of an input that is refused, by what was read and what was written; nothing where that does not tell
/// it.
pub fn about_input(
    alloc: Global,
    kept: &Kept,
    wrote: &Wrote,
) -> Result<Option<String>, AllocError> {
    let last = text_of(alloc, wrote.last_line())?;
    let last = last.as_str();
    let Some(fault) = fault_of(last) else {
        if first_word(last) != "plan:" && first_word(last) != "place:" {
            return Ok(None);
        }
        let mut text = String::new(alloc);
        about_table(&mut text, last)?;
        return Ok(Some(text));
    };
    let Some(bytes) = kept.line(fault.0) else {
        return Ok(None);
    };
    let head = text_of(alloc, kept.head())?;
    let text = about_line(alloc, head.as_str(), bytes, fault)?;
    Ok(Some(text))
}

/// What is said of a run with refused acts, where they were counted; nothing where there are none.
pub fn about_refusals(alloc: Global, wrote: &Wrote) -> Result<Option<String>, AllocError> {
    let Some((acts, refused, first)) = wrote.refusals() else {
        return Ok(None);
    };
    let mut text = String::new(alloc);
    let were = if refused == 1 { "was" } else { "were" };
    writeln!(
        text,
        "saturn: {refused} of {acts} acts {were} refused, the first of them act {first}"
    )?;
    Ok(Some(text))
}
