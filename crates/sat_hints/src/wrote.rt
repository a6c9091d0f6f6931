//! What a writer took, as far as a message needs it.
ghost use Rattle.std.specs.Prelude.{◌≤◌, length};

use std::alloc::Global;
use std::io;
use std::io::{ErrorKind, Write};

// So much of the output's end is kept. The line of a fault is shorter, and so are the three lines of a verdict.
const MOST_LAST: usize = 128;

// How an act that was refused is answered, behind its number.
const REFUSED: &[u8; 8] = b"refused ";

// Where in a line of the report a byte stands.
#[derive(Clone, Copy, Debug, PartialEq, Eq)]
enum Stage {
    Begin,
    Number,
    // so many bytes of REFUSED have come
    Answer(usize),
    Rest,
}

// How many acts a report has answered, and how many of them were refused.
#[derive(Clone, Copy, Debug, PartialEq, Eq)]
struct Tally {
    stage: Stage,
    number: u64,
    acts: u64,
    refused: u64,
    first: u64,
}

// The value of a digit.
fn digit(byte: u8) -> Option<u64> {
    match byte {
        b'0'..=b'9' => Some(u64::from(byte.saturating_sub(b'0'))),
        _ => None,
    }
}

impl Tally {
    fn new() -> Tally {
        Tally {
            stage: Stage::Begin,
            number: 0,
            acts: 0,
            refused: 0,
            first: 0,
        }
    }

    fn take_number(&mut self, byte: u8) {
        match digit(byte) {
            Some(digit) => {
                self.number = self.number.saturating_mul(10).saturating_add(digit);
                self.stage = Stage::Number;
            }
            None if byte == b' ' && self.stage == Stage::Number => {
                self.acts = self.acts.saturating_add(1);
                self.stage = Stage::Answer(0);
            }
            None => self.stage = Stage::Rest,
        }
    }

    fn take_answer(&mut self, place: usize, byte: u8) {
        if REFUSED.get(place).copied() != Some(byte) {
            self.stage = Stage::Rest;
        } else if place < 7 {
            self.stage = Stage::Answer(place + 1);
        } else {
            self.stage = Stage::Rest;
            self.refused = self.refused.saturating_add(1);
            if self.refused == 1 {
                self.first = self.number;
            }
        }
    }

    fn take(&mut self, byte: u8) {
        if byte == b'\n' {
            self.stage = Stage::Begin;
            self.number = 0;
            return;
        }
        match self.stage {
            Stage::Begin => self.take_number(byte),
            Stage::Number => self.take_number(byte),
            Stage::Answer(place) => self.take_answer(place, byte),
            Stage::Rest => {}
        }
    }
}

/// The end of what a writer took, a count of refused acts where one is wanted, and whether a pipe was closed at its
/// other end.
#[derive(Drop)]
pub struct Wrote {
    last: Vec<u8>,
    tally: Option<Tally>,
    is_closed: bool,
}

impl Wrote {
    /// Nothing was written yet. Refused acts are counted where `counts` says so.
    pub fn new(alloc: Global, counts: bool) -> Wrote {
        let tally = if counts { Some(Tally::new()) } else { None };
        Wrote {
            last: Vec::new(alloc),
            tally,
            is_closed: false,
        }
    }

    fn keep_last(&mut self, piece: &[u8]) {
        let from = piece.len().saturating_sub(MOST_LAST);
        let surplus = self
            .last
            .len()
            .saturating_add(piece.len())
            .saturating_sub(MOST_LAST)
            .min(self.last.len());
        drop(self.last.drain(..surplus));
        if self.last.extend_from_slice(&piece[from..]).is_err() {
            self.last.clear();
        }
    }

    fn keep(&mut self, piece: &[u8]) {
        self.keep_last(piece);
        if let Some(tally) = &mut self.tally {
            for byte in piece {
                tally.take(*byte);
            }
        }
    }

    /// Whether the reader of standard output went away.
    pub fn is_closed(&self) -> bool {
        self.is_closed
    }

    /// The last bytes.
    pub(crate) fn last(&self) -> &[u8] {
        self.last.as_slice()
    }

    /// The last whole line.
    pub(crate) fn last_line(&self) -> &[u8] {
        let bytes = self.last.as_slice();
        let bytes = bytes.strip_suffix(b"\n").unwrap_or(bytes);
        bytes.rsplit(|byte| *byte == b'\n').next().unwrap_or(bytes)
    }

    /// How many acts were answered, how many of them refused, and the number of the first of these, where there is one.
    pub(crate) fn refusals(&self) -> Option<(u64, u64, u64)> {
        match self.tally {
            Some(tally) if 0 < tally.refused => Some((tally.acts, tally.refused, tally.first)),
            _ => None,
        }
    }
}

/// A writer that keeps what a message may need of the bytes that another one takes.
#[derive(Drop)]
pub struct KeepingWriter<W: Write + Drop> {
    writer: W,
    wrote: Wrote,
}

impl<W: Write + Drop> KeepingWriter<W> {
    /// A writer that hands its bytes on. Refused acts are counted where `counts` says so.
    pub fn new(alloc: Global, writer: W, counts: bool) -> KeepingWriter<W> {
        KeepingWriter {
            writer,
            wrote: Wrote::new(alloc, counts),
        }
    }

    /// What was kept.
    pub fn wrote(&self) -> &Wrote {
        &self.wrote
    }
}

impl<W: Write + Drop> Write for KeepingWriter<W> {
    ghost contents = { λ s. W.contents s.writer };

    fn write(&mut self, buf: &[u8]) -> io::Result<usize> {
        match self.writer.write(buf) {
            Ok(count) => {
                self.wrote.keep(&buf[..count]);
                Ok(count)
            }
            Err(error) => {
                self.wrote.is_closed = error.kind() == ErrorKind::BrokenPipe;
                Err(error)
            }
        }
    }

    fn flush(&mut self) -> io::Result<()> {
        self.writer.flush()
    }
}
