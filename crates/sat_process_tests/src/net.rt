//! A transport in memory.
use sat_handed::{NoLetter, Transport};
use std::alloc::{AllocError, Global};

// A letter of a link.
#[derive(Drop)]
pub(crate) struct Letter {
    pub(crate) link: u16,
    pub(crate) bytes: Vec<u8>,
}

// What a process was handed for its links, the oldest first, and the letter that waits for it.
#[derive(Drop)]
pub(crate) struct Net {
    out: Vec<Letter>,
    coming: Option<Letter>,
}

impl Net {
    // Nothing waits.
    pub(crate) fn new(alloc: Global) -> Net {
        Net {
            out: Vec::new(alloc),
            coming: None,
        }
    }

    // This letter waits.
    pub(crate) fn with(alloc: Global, letter: Letter) -> Net {
        Net {
            out: Vec::new(alloc),
            coming: Some(letter),
        }
    }

    // What it was handed.
    pub(crate) fn letters(self) -> Vec<Letter> {
        let Net { out, coming: _ } = self;
        out
    }
}

// It tells contracts nothing.
impl Transport for Net {
    ghost use Rattle.std.specs.Prelude.{None};

    ghost sent = { λ net. None };

    ghost came = { λ net. None };

    fn send(&mut self, link: u16, bytes: &[u8]) -> bool {
        let Ok(bytes) = copied(*self.out.allocator(), bytes) else {
            return false;
        };
        self.out.push(Letter { link, bytes }).is_ok()
    }

    fn receive(&mut self, into: &mut Vec<u8>) -> Result<Option<u16>, NoLetter> {
        let Some(letter) = self.coming.take() else {
            return Ok(None);
        };
        into.clear();
        if into.extend_from_slice(letter.bytes.as_slice()).is_err() {
            return Err(NoLetter);
        }
        Ok(Some(letter.link))
    }
}

pub(crate) fn copied(alloc: Global, bytes: &[u8]) -> Result<Vec<u8>, AllocError> {
    let mut copy = Vec::new(alloc);
    copy.extend_from_slice(bytes)?;
    Ok(copy)
}
