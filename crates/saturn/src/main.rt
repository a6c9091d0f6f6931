//! The program over standard input and output.
#![tactic(auto)]

use sat_hints::{
    Followed, FollowingWriter, KeepingReader, KeepingWriter, Kept, TellingReader, Wrote,
    about_history, about_input, about_refusals, about_stopped, about_words, awaits, is_audit,
    is_live, is_run, is_version, work_of,
};
use sat_outside::{FreeGate, StdSink, StdSource};
use sat_top::saturn;
use std::alloc::{AllocError, Global};
use std::io::{ErrorKind, IsTerminal};
use std::process::ExitCode;
use std::rt::Env;
use std::{env, io};

// The logic with which `rt ci` proves this program, as `rt version` prints it; .ci/checks compares.
const LOGIC: &str = "dac8208d650f15bf";

// The status of the top call for want of memory.
const NO_MEMORY: u8 = 5;

// The status where the output could not be written.
const UNWRITTEN: u8 = 4;

// What a status means, for the person who started the program.
fn meaning(status: u8) -> Option<&'static str> {
    match status {
        1 => Some("the input is refused; the last line written says where and why"),
        2 => Some("no such command; the input comes on standard input: saturn --help"),
        3 => Some("standard input could not be read"),
        4 => Some("standard output could not be written"),
        5 => Some("out of memory"),
        6 => Some("what was kept of one act at two places is not the same"),
        7 => Some("the history is not as it should be"),
        8 => Some("the history is not whole"),
        _ => None,
    }
}

// Says what a status means.
fn say_meaning<R: Eprint>(rt: &R, status: u8) {
    if let Some(text) = meaning(status) {
        let _ = eprintln!(rt; "saturn: {text}");
    }
}

// Says which clients gave up.
fn tell_stopped<R: Eprint + AllocGlobal>(rt: &R, followed: &Followed) {
    if let Ok(Some(text)) = about_stopped(rt.alloc(), followed) {
        let _ = eprint!(rt; "{text}");
    }
}

// The words after the program's name.
fn words<R: Env + AllocGlobal>(rt: &R) -> io::Result<Vec<String>> {
    Ok(env::args(rt)?.skip(1).collect(rt.alloc())?)
}

// What more than its meaning can be said of a status, by the words, what was read and what was written.
fn hint(
    alloc: Global,
    status: u8,
    words: Option<&[String]>,
    kept: &Kept,
    wrote: &Wrote,
) -> Result<Option<String>, AllocError> {
    match status {
        1 => about_input(alloc, kept, wrote),
        2 => Ok(Some(about_words(alloc, words)?)),
        7 => about_history(alloc, kept, wrote),
        _ => Ok(None),
    }
}

// Says on standard error what a status means. Where that is closed too, nobody can be told. Where the reader of
// standard output went away, nobody asks.
fn tell<R: Eprint + AllocGlobal>(
    rt: &R,
    status: u8,
    words: Option<&[String]>,
    kept: &Kept,
    wrote: &Wrote,
) {
    if status == UNWRITTEN && wrote.is_closed() {
        return;
    }
    if let Ok(Some(text)) = hint(rt.alloc(), status, words, kept, wrote) {
        let _ = eprint!(rt; "{text}");
    } else {
        say_meaning(rt, status);
    }
    if let Ok(Some(text)) = about_refusals(rt.alloc(), wrote) {
        let _ = eprint!(rt; "{text}");
    }
}

fn main(rt: HostRuntime) -> ExitCode {
    let said = match words(&rt) {
        Ok(words) => Some(words),
        // A word that is no text is refused like any other.
        Err(error) if error.kind() == ErrorKind::InvalidData => None,
        Err(_) => {
            say_meaning(&rt, NO_MEMORY);
            return ExitCode::from(NO_MEMORY);
        }
    };
    let said = said.as_ref().map(|words| words.as_slice());
    let words = said.unwrap_or(&[]);
    if let Some(text) = awaits(words)
        && rt.stdin().is_terminal()
    {
        let _ = eprintln!(rt; "saturn: {text}");
    }
    if is_version(words) {
        let _ = eprintln!(rt; "saturn: where rt ci built it, it is proved with logic {LOGIC}");
    }
    let is_watched = rt.stderr().is_terminal();
    let counts = is_run(words) && is_watched;
    let reader = KeepingReader::new(rt.alloc(), rt.stdin().reader(), is_audit(words));
    let mut reader = TellingReader::new(&rt, reader, is_watched, work_of(words));
    let writer = KeepingWriter::new(rt.alloc(), rt.stdout(), counts);
    let mut writer = FollowingWriter::new(rt.alloc(), writer, is_live(words));
    let mut source = StdSource::new(&mut reader);
    let mut sink = StdSink::new(&mut writer);
    let status = saturn(&rt, words, &mut source, &mut sink, &FreeGate);
    drop(source);
    drop(sink);
    tell(
        &rt,
        status,
        said,
        reader.reader().kept(),
        writer.writer().wrote(),
    );
    if let Some(followed) = writer.followed() {
        tell_stopped(&rt, followed);
    }
    ExitCode::from(status)
}
