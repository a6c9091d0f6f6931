//! Clients of a history on threads that gave up.
ghost use Rattle.std.specs.Prelude.{◌≤◌, length};

use crate::line::{first_word, word_at};
use crate::reason::number;
use std::alloc::{AllocError, Global};
use std::fmt::Write as _;
use std::io;
use std::io::Write;

// So much of a line is kept. An attach, and what names the client of another act, is shorter.
const MOST_LINE: usize = 64;

// Behind so many refusals in a row a client gives up.
const TRIES: &str = "1,000";

// Where in the output a line stands.
#[derive(Clone, Copy, Debug, PartialEq, Eq)]
enum Part {
    Header,
    Acts,
    Report,
}

// The last act of a client so far: its number, the site where it is an attach, and whether it was answered that it has
// to wait.
#[derive(Drop)]
struct Last {
    client: String,
    act: u64,
    site: u64,
    waits: bool,
}

/// The last act of each client in the history that `live` writes.
#[derive(Drop)]
pub struct Followed {
    alloc: Global,
    line: Vec<u8>,
    part: Part,
    acts: u64,
    last: Vec<Last>,
    // there was no memory, so nothing is told
    lost: bool,
}

// Whether an act with this word is a client's.
fn is_of_client(word: &str) -> bool {
    matches!(
        word,
        "write" | "writes" | "read" | "move" | "leave" | "attach"
    )
}

// The site of an attach; 0 of another act.
fn site_of(line: &str) -> u64 {
    match (first_word(line), word_at(line, 2)) {
        ("attach", Some(word)) => number(word).unwrap_or(0),
        _ => 0,
    }
}

impl Followed {
    fn new(alloc: Global) -> Followed {
        Followed {
            alloc,
            line: Vec::new(alloc),
            part: Part::Header,
            acts: 0,
            last: Vec::new(alloc),
            lost: false,
        }
    }

    // A client's act, which is its last one so far.
    fn take_act(&mut self, line: &str) -> Result<(), AllocError> {
        self.acts = self.acts.saturating_add(1);
        if !is_of_client(first_word(line)) {
            return Ok(());
        }
        let client = word_at(line, 1).unwrap_or("");
        let (act, site) = (self.acts, site_of(line));
        for last in self.last.as_mut_slice() {
            if last.client.as_str() == client {
                last.act = act;
                last.site = site;
                return Ok(());
            }
        }
        let client = String::from_str(self.alloc, client)?;
        self.last.push(Last {
            client,
            act,
            site,
            waits: false,
        })?;
        Ok(())
    }

    // An answer: of a client's last act, whether it has to wait.
    fn take_answer(&mut self, line: &str) {
        let Some((act, "refused NotYet")) = line.split_once(' ') else {
            return;
        };
        let act = number(act);
        for last in self.last.as_mut_slice() {
            if act == Some(last.act) {
                last.waits = true;
            }
        }
    }

    fn take_line(&mut self, line: &str) -> Result<(), AllocError> {
        match (self.part, line) {
            (Part::Header, "begin") => self.part = Part::Acts,
            (Part::Header, _) => {}
            (Part::Acts, "end") => self.part = Part::Report,
            (Part::Acts, _) => return self.take_act(line),
            (Part::Report, _) => self.take_answer(line),
        }
        Ok(())
    }

    // A line has come whole.
    fn end_line(&mut self) -> Result<(), AllocError> {
        let bytes = self.line.as_slice().to_vec(self.alloc)?;
        self.line.clear();
        match str::from_utf8(&bytes) {
            Ok(line) => self.take_line(line),
            Err(_) => Ok(()),
        }
    }

    fn take(&mut self, byte: u8) -> Result<(), AllocError> {
        if byte == b'\n' {
            return self.end_line();
        }
        if self.line.len() < MOST_LINE {
            self.line.push(byte)?;
        }
        Ok(())
    }

    fn keep(&mut self, piece: &[u8]) {
        for byte in piece {
            if self.lost {
                return;
            }
            self.lost = self.take(*byte).is_err();
        }
    }
}

/// A writer that follows the history in the bytes that another one takes.
#[derive(Drop)]
pub struct FollowingWriter<W: Write + Drop> {
    writer: W,
    followed: Option<Followed>,
}

impl<W: Write + Drop> FollowingWriter<W> {
    /// A writer that hands its bytes on. They are a history where `follows` says so.
    pub fn new(alloc: Global, writer: W, follows: bool) -> FollowingWriter<W> {
        let followed = if follows {
            Some(Followed::new(alloc))
        } else {
            None
        };
        FollowingWriter { writer, followed }
    }

    /// The other writer.
    pub fn writer(&self) -> &W {
        &self.writer
    }

    /// What was followed.
    pub fn followed(&self) -> Option<&Followed> {
        self.followed.as_ref()
    }
}

impl<W: Write + Drop> Write for FollowingWriter<W> {
    ghost contents = { λ s. W.contents s.writer };

    fn write(&mut self, buf: &[u8]) -> io::Result<usize> {
        let count = self.writer.write(buf)?;
        if let Some(followed) = &mut self.followed {
            followed.keep(&buf[..count]);
        }
        Ok(count)
    }

    fn flush(&mut self) -> io::Result<()> {
        self.writer.flush()
    }
}

/// A line for each client that gave up, in the order of their first acts; nothing where none did.
pub fn about_stopped(alloc: Global, followed: &Followed) -> Result<Option<String>, AllocError> {
    let mut text = String::new(alloc);
    if followed.lost {
        return Ok(None);
    }
    for last in followed.last.as_slice() {
        if last.waits {
            writeln!(
                text,
                "saturn: client {} stopped: its attach to site {} was refused {TRIES} times in a row",
                last.client.as_str(),
                last.site
            )?;
        }
    }
    if text.is_empty() {
        return Ok(None);
    }
    Ok(Some(text))
}
