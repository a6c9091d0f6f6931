//! What several reasons ask of a line.

use crate::line::Place;

/// The number that a word spells: digits without a leading zero, below 2^64.
pub(crate) fn number(word: &str) -> Option<u64> {
    if word.is_empty() || (word.len() > 1 && word.starts_with('0')) {
        return None;
    }
    let mut value = 0u64;
    for byte in word.as_bytes() {
        let digit = match *byte {
            b'0'..=b'9' => u64::from(byte.saturating_sub(b'0')),
            _ => return None,
        };
        value = value.checked_mul(10)?.checked_add(digit)?;
    }
    Some(value)
}

/// Whether a word has digits alone.
pub(crate) fn is_digits(word: &str) -> bool {
    !word.is_empty() && word.as_bytes().iter().all(|byte| byte.is_ascii_digit())
}

/// Whether a word is a number with a zero before it.
pub(crate) fn has_leading_zero(word: &str) -> bool {
    word.len() > 1 && is_digits(word) && word.starts_with('0')
}

/// Whether a word is a name.
pub(crate) fn is_name(word: &str) -> bool {
    let is_fit = word.as_bytes().iter().all(|byte| {
        byte.is_ascii_alphanumeric() || *byte == b'_' || *byte == b'-' || *byte == b'.'
    });
    !word.is_empty() && word.len() <= 32 && is_fit
}

/// Why a line has no words at all, or a blank too many, and where.
pub(crate) fn about_blanks(line: &str) -> Option<(&'static str, Place)> {
    let one = |start| Place { start, count: 1 };
    if line.is_empty() {
        return Some(("the line is empty, and a script has no empty lines", one(0)));
    }
    if line.starts_with('#') || line.starts_with("//") || line.starts_with("--") {
        return Some(("a script has no comments", one(0)));
    }
    if line.starts_with(' ') {
        return Some(("a blank before the first word", one(0)));
    }
    if let Some(start) = line.find("  ") {
        return Some(("two blanks between words", one(start.saturating_add(1))));
    }
    if line.ends_with(' ') {
        let start = line.len().saturating_sub(1);
        return Some(("a blank at the end of the line", one(start)));
    }
    None
}
