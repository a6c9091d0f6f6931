//! How far a command has come, for a person who waits at a terminal.
ghost use Rattle.std.specs.Prelude.{◌≤◌};

use std::io;
use std::io::Read;

// So many bytes are read between two lines.
const STEP: u64 = 16_777_216;

/// What begins once the input is read, of a command that may take long.
pub fn work_of(words: &[String]) -> Option<&'static str> {
    let [word] = words else {
        return None;
    };
    match word.as_str() {
        "plan" => Some("looking for a tree"),
        "place" => Some("looking for the best places"),
        "live" => Some("nodes and clients begin"),
        _ => None,
    }
}

// How much was read, and what is told of it.
#[derive(Drop)]
struct Progress {
    // whether anything is told at all
    tells: bool,
    work: Option<&'static str>,
    bytes: u64,
    // the next line is told at so many
    next: u64,
}

impl Progress {
    fn tell_end<E: Eprint>(&mut self, rt: &E) {
        if let Some(work) = self.work.take() {
            let bytes = self.bytes;
            let _ = eprintln!(rt; "saturn: {bytes} bytes read; {work}");
        }
    }

    fn tell_bytes<E: Eprint>(&mut self, rt: &E, count: u64) {
        self.bytes = self.bytes.saturating_add(count);
        if self.bytes >= self.next {
            self.next = self.next.saturating_add(STEP);
            let millions = self.bytes / 1_000_000;
            let _ = eprintln!(rt; "saturn: {millions} million bytes read");
        }
    }

    fn tell<E: Eprint>(&mut self, rt: &E, count: usize) {
        if !self.tells {
            return;
        }
        if count == 0 {
            self.tell_end(rt);
        } else {
            self.tell_bytes(rt, count as u64);
        }
    }
}

/// A reader that tells on standard error, each time many bytes more were read, how many they are, and at the input's
/// end what begins.
#[derive(Drop)]
pub struct TellingReader<'a, E: Eprint, R: Read + Drop> {
    rt: &'a E,
    reader: R,
    progress: Progress,
}

impl<'a, E: Eprint, R: Read + Drop> TellingReader<'a, E, R> {
    /// A reader of the same bytes, which tells nothing unless `tells` is true.
    pub fn new(rt: &'a E, reader: R, tells: bool, work: Option<&'static str>) -> Self {
        TellingReader {
            rt,
            reader,
            progress: Progress {
                tells,
                work,
                bytes: 0,
                next: STEP,
            },
        }
    }

    /// The reader below.
    pub fn reader(&self) -> &R {
        &self.reader
    }
}

impl<E: Eprint, R: Read + Drop> Read for TellingReader<'_, E, R> {
    ghost remaining = { λ s. R.remaining s.reader };

    fn read(&mut self, buf: &mut [u8]) -> io::Result<usize> {
        let count = self.reader.read(buf)?;
        self.progress.tell(self.rt, count);
        Ok(count)
    }
}
