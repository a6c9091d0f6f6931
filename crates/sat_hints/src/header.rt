//! The header of a script, as far as it was kept.

use crate::line::{first_word, word_at};
use crate::near::near_word;
use crate::reason::number;
use std::alloc::{AllocError, Global};

/// The lines of the header before a line, without `begin`.
#[derive(Drop)]
pub(crate) struct Header<'a> {
    lines: Vec<&'a str>,
}

impl<'a> Header<'a> {
    /// The header of a script, from its text, without the line with this number, from 1, and those behind it.
    pub(crate) fn read(
        alloc: Global,
        text: &'a str,
        before: u64,
    ) -> Result<Header<'a>, AllocError> {
        let mut lines = Vec::new(alloc);
        for (index, line) in text.split('\n').enumerate() {
            if line == "begin" || before <= (index as u64).saturating_add(1) {
                break;
            }
            lines.push(line)?;
        }
        Ok(Header { lines })
    }

    /// The first line that begins with a word.
    pub(crate) fn line(&self, word: &str) -> Option<&'a str> {
        for line in &self.lines {
            if first_word(line) == word {
                return Some(line);
            }
        }
        None
    }

    /// Whether a line begins with a word.
    pub(crate) fn has(&self, word: &str) -> bool {
        self.line(word).is_some()
    }

    /// The number of the line that begins with a word, as of `sites`.
    pub(crate) fn number(&self, word: &str) -> Option<u64> {
        let line = self.line(word)?;
        number(word_at(line, 1)?)
    }

    /// The names of the items or of the clients, by the word before them.
    pub(crate) fn names(&self, alloc: Global, word: &str) -> Result<Vec<&'a str>, AllocError> {
        let mut names = Vec::new(alloc);
        for line in &self.lines {
            if first_word(line) == word {
                names.push(word_at(line, 1).unwrap_or(""))?;
            }
        }
        Ok(names)
    }

    /// The place among the items or the clients that a name has.
    pub(crate) fn place(&self, word: &str, name: &str) -> Option<usize> {
        let mut place = 0usize;
        for line in &self.lines {
            if first_word(line) == word {
                if word_at(line, 1) == Some(name) {
                    return Some(place);
                }
                place = place.saturating_add(1);
            }
        }
        None
    }

    /// The nearest name of an item or a client, by the word before it.
    pub(crate) fn nearest(
        &self,
        alloc: Global,
        word: &str,
        name: &str,
    ) -> Result<Option<&'a str>, AllocError> {
        let names = self.names(alloc, word)?;
        near_word(alloc, name, names.as_slice())
    }

    /// How many plans there are.
    pub(crate) fn count_plans(&self) -> u64 {
        let mut count = 0u64;
        for line in &self.lines {
            if first_word(line) == "plan" {
                count = count.saturating_add(1);
            }
        }
        count
    }

    /// The plan of an epoch, from 1.
    pub(crate) fn plan(&self, epoch: u64) -> Option<&'a str> {
        let mut count = 0u64;
        for line in &self.lines {
            if first_word(line) == "plan" {
                count = count.saturating_add(1);
                if count == epoch {
                    return Some(line);
                }
            }
        }
        None
    }
}

/// How many serializers the tree of a plan has; none where it is timestamp order.
pub(crate) fn count_serializers(plan: &str) -> u64 {
    let mut count = 0u64;
    for word in plan.split(' ').skip(2) {
        if word == "/" {
            break;
        }
        count = count.saturating_add(1);
    }
    count
}
