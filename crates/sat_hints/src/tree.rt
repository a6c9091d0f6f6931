//! Plans whose words are no tree.

use crate::header::{Header, count_serializers};
use crate::line::{Place, place_from, place_of};
use crate::reason::number;
use std::alloc::AllocError;
use std::fmt::Write;

// The most serializers of a tree.
const MOST_SERIALIZERS: u64 = 15;

/// Why the words of a plan are no tree, and where: `plan`, `tree`, the parents from the third word on, `/`, the seats.
pub(crate) fn about_tree(
    text: &mut String,
    header: &Header<'_>,
    line: &str,
) -> Result<Option<Place>, AllocError> {
    let count = count_serializers(line);
    if MOST_SERIALIZERS < count {
        write!(
            text,
            "a tree has 1 to {MOST_SERIALIZERS} serializers, and here are {count}"
        )?;
        return Ok(Some(place_from(line, 2)));
    }
    let mut seats = 0u64;
    let mut is_seat = false;
    for (index, word) in line.split(' ').enumerate().skip(3) {
        let serializer = (index as u64).saturating_sub(2);
        if word == "/" {
            is_seat = true;
        } else if is_seat {
            seats = seats.saturating_add(1);
            if number(word).is_none_or(|seat| count <= seat) {
                let last = count.saturating_sub(1);
                write!(text, "the serializers of this tree are 0 to {last}")?;
                return Ok(Some(place_of(line, index)));
            }
        } else if number(word).is_none_or(|parent| serializer <= parent) {
            write!(
                text,
                "serializer {serializer} hangs on one with a smaller number"
            )?;
            return Ok(Some(place_of(line, index)));
        }
    }
    let sites = header.number("sites").unwrap_or(0);
    write!(
        text,
        "a tree has a seat for each site, so {sites} and not {seats}"
    )?;
    Ok(Some(place_from(line, 3)))
}
