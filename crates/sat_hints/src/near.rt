//! The word that may have been meant.

use std::alloc::{AllocError, Global};
use strsim::osa_distance;

// Longer words are compared with none.
const LONGEST: usize = 32;

// The nearest word so far, and how far it is from the one that was written.
#[derive(Clone, Copy, Debug, PartialEq, Eq)]
struct Nearest<'a> {
    word: Option<&'a str>,
    distance: usize,
}

// How far a word may be from the one that was meant: a third of its bytes, and one of a word of two or three.
fn most_apart(word: &str) -> usize {
    match word.len() {
        0 | 1 => 0,
        length => (length / 3).max(1),
    }
}

impl<'a> Nearest<'a> {
    fn new(word: &str) -> Nearest<'a> {
        Nearest {
            word: None,
            distance: most_apart(word).saturating_add(1),
        }
    }

    fn offer(&mut self, alloc: Global, word: &str, known: &'a str) -> Result<(), AllocError> {
        if word.len() > LONGEST || known.len() > LONGEST {
            return Ok(());
        }
        let distance = osa_distance(alloc, word, known)?;
        if distance < self.distance {
            self.distance = distance;
            self.word = Some(known);
        }
        Ok(())
    }
}

/// The known word that is nearest to the one that was written, where one is near enough.
pub(crate) fn near_word<'a>(
    alloc: Global,
    word: &str,
    known: &[&'a str],
) -> Result<Option<&'a str>, AllocError> {
    let mut nearest = Nearest::new(word);
    for known in known {
        nearest.offer(alloc, word, known)?;
    }
    Ok(nearest.word)
}
