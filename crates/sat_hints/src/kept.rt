//! What a reader gave, as far as a message needs it.
ghost use Rattle.std.specs.Prelude.{◌≤◌, length};

use std::alloc::{AllocError, Global};
use std::io;
use std::io::Read;

// So much of the input's beginning is kept, where the header stands.
const MOST_HEAD: usize = 65536;
// So much of a history is kept, all of whose lines a message may need.
const MOST_HISTORY: usize = 4_194_304;
// So much of a line that is not whole yet is kept. A longer one is at fault.
const MOST_BEGUN: usize = 8192;

/// The first bytes that a reader gave, and the lines of its last piece.
#[derive(Drop)]
pub struct Kept {
    head: Vec<u8>,
    // so many bytes the head has at most
    most: usize,
    recent: Vec<u8>,
    // the number of the line that `recent` begins with, from 1
    first: u64,
    // there was no memory, so the rest is not what was read
    lost: bool,
}

// The place behind the last whole line.
fn whole_lines(bytes: &[u8]) -> usize
    ensures { result ≤ length bytes.now }
{
    match bytes.iter().rposition(|byte| *byte == b'\n') {
        Some(place) => place + 1,
        None => 0,
    }
}

// How many lines end in some bytes. The whole input goes through this loop, so it has no branch.
fn count_lines(bytes: &[u8]) -> usize {
    let mut count = 0usize;
    for byte in bytes {
        count = count.wrapping_add((*byte == b'\n') as usize);
    }
    count
}

impl Kept {
    /// Nothing was read yet. Of a history all is kept, up to 4 MiB.
    pub fn new(alloc: Global, is_history: bool) -> Kept {
        Kept {
            head: Vec::new(alloc),
            most: if is_history { MOST_HISTORY } else { MOST_HEAD },
            recent: Vec::new(alloc),
            first: 1,
            lost: false,
        }
    }

    fn keep_head(&mut self, piece: &[u8]) -> Result<(), AllocError> {
        let room = self.most.saturating_sub(self.head.len()).min(piece.len());
        self.head.extend_from_slice(&piece[..room])
    }

    fn keep_recent(&mut self, piece: &[u8]) -> Result<(), AllocError> {
        let whole = whole_lines(self.recent.as_slice());
        let count = count_lines(&self.recent.as_slice()[..whole]);
        self.first = self.first.saturating_add(count as u64);
        let length = self.recent.len();
        self.recent.copy_within(whole..length, 0);
        self.recent.truncate((length - whole).min(MOST_BEGUN));
        self.recent.extend_from_slice(piece)
    }

    // A read at the input's end gives no piece, and the last one stays.
    fn keep(&mut self, piece: &[u8]) {
        if piece.is_empty() {
            return;
        }
        if !self.lost && self.keep_head(piece).is_ok() {
            self.lost = self.keep_recent(piece).is_err();
        } else {
            self.lost = true;
        }
    }

    /// The beginning of what was read.
    pub(crate) fn head(&self) -> &[u8] {
        &self.head
    }

    /// The line with this number, from 1, where it is one of the last piece or the next one.
    pub(crate) fn line(&self, number: u64) -> Option<&[u8]> {
        if self.lost {
            return None;
        }
        let place = number.checked_sub(self.first)?;
        self.recent
            .as_slice()
            .split(|byte| *byte == b'\n')
            .nth(place as usize)
    }
}

/// A reader that keeps what a message may need of the bytes of another one.
#[derive(Drop)]
pub struct KeepingReader<R: Read + Drop> {
    reader: R,
    kept: Kept,
}

impl<R: Read + Drop> KeepingReader<R> {
    /// A reader of the same bytes. Of a history all is kept, up to 4 MiB.
    pub fn new(alloc: Global, reader: R, is_history: bool) -> KeepingReader<R> {
        KeepingReader {
            reader,
            kept: Kept::new(alloc, is_history),
        }
    }

    /// What was kept.
    pub fn kept(&self) -> &Kept {
        &self.kept
    }
}

impl<R: Read + Drop> Read for KeepingReader<R> {
    ghost remaining = { λ s. R.remaining s.reader };

    fn read(&mut self, buf: &mut [u8]) -> io::Result<usize> {
        let count = self.reader.read(buf)?;
        self.kept.keep(&buf[..count]);
        Ok(count)
    }
}
