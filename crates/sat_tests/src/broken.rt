//! Input that is cut or never ends, and sources and sinks that fail at each place.
use crate::program::{ACTS, REPORT, ROOM, script, words};
use sat_outside::{CleanSink, CleanSource, LoopSource, MemorySink, MemorySource};
use sat_top::{still, still_in_memory};
use std::alloc::Global;
use std::fmt::Write;
use std::test::Fail;

// How many bytes the script has, lines its header, and acts stand behind that.
const BYTES: u64 = 157;

const HEADER_LINES: u64 = 8;

const MOST_ACTS: u64 = 7;

fn first(bytes: &[u8], count: u64) -> &[u8] {
    &bytes[..bytes.len().min(count as usize)]
}

fn count_lines(bytes: &[u8]) -> u64 {
    bytes.iter().filter(|byte| **byte == b'\n').count() as u64
}

// The first so many lines of the report.
fn first_lines(count: u64) -> &'static [u8] {
    let report = REPORT.as_bytes();
    let mut left = count;
    for (place, byte) in report.iter().enumerate() {
        if left == 0 {
            return &report[..place];
        }
        if *byte == b'\n' {
            left -= 1;
        }
    }
    report
}

// The answers of the acts that have their whole line in these bytes of the script.
fn answers_in(bytes: &[u8]) -> &'static [u8] {
    first_lines(
        count_lines(bytes)
            .saturating_sub(HEADER_LINES)
            .min(MOST_ACTS),
    )
}

// What `run` prints of a script that ends too early.
fn cut_report(alloc: Global, bytes: &[u8]) -> Result<Vec<u8>, Fail> {
    let mut line = String::new(alloc);
    writeln!(line, "line {}: NoEnd", count_lines(bytes).saturating_add(1))?;
    let mut report = answers_in(bytes).to_vec(alloc)?;
    report.extend_from_slice(line.as_bytes())?;
    Ok(report)
}

#[test]
fn a_cut_script_has_the_answers_of_its_lines(rt: HostRuntime) -> Result<(), Fail> {
    let alloc = rt.alloc();
    let (words, whole) = (words(alloc, "run")?, script(alloc, ACTS)?);
    for count in 0..BYTES {
        let text = first(whole.as_slice(), count);
        let (status, sink) = still_in_memory(
            alloc,
            words.as_slice(),
            text.to_vec(alloc)?,
            7,
            ROOM,
        )?;
        assert_eq!(rt; status, 1);
        assert_eq!(rt; sink.held(), cut_report(alloc, text)?.as_slice());
    }
    Ok(())
}

// The source gives a byte at each call, and fails at one.
#[test]
fn a_source_that_fails_leaves_the_answers_so_far(rt: HostRuntime) -> Result<(), Fail> {
    let alloc = rt.alloc();
    let (words, whole) = (words(alloc, "run")?, script(alloc, ACTS)?);
    for failing in 0..=BYTES {
        let mut source = MemorySource::new(script(alloc, ACTS)?, 1, vec![in alloc; failing]?);
        let mut sink = CleanSink::with_room(alloc, 4, ROOM)?;
        assert_eq!(rt; still(alloc, words.as_slice(), &mut source, &mut sink), 3);
        assert_eq!(rt; sink.held(), answers_in(first(whole.as_slice(), failing)));
    }
    Ok(())
}

// The sink takes a byte at each call, and fails at one.
#[test]
fn a_sink_that_fails_has_the_report_so_far(rt: HostRuntime) -> Result<(), Fail> {
    let alloc = rt.alloc();
    let words = words(alloc, "run")?;
    for failing in 0..REPORT.len() as u64 {
        let mut source = CleanSource::new(script(alloc, ACTS)?, 10);
        let mut sink = MemorySink::new(alloc, 1, vec![in alloc; failing]?, 65536)?;
        assert_eq!(rt; still(alloc, words.as_slice(), &mut source, &mut sink), 4);
        assert_eq!(rt; sink.held(), first(REPORT.as_bytes(), failing));
    }
    Ok(())
}

// What comes again and again, and what is printed of it.
const ENDLESS: &[(&str, &str)] = &[
    ("a", "line 1: LongLine\n"),
    ("saturn 1\n", "line 2: BadHeader\n"),
];

#[test]
fn an_endless_source_ends_at_its_first_bad_line(rt: HostRuntime) -> Result<(), Fail> {
    let alloc = rt.alloc();
    let words = words(alloc, "run")?;
    for (text, fault) in ENDLESS {
        let bytes = text.as_bytes().to_vec(alloc)?;
        if bytes.is_empty() {
            return Err("there is nothing to give".into());
        }
        let mut source = LoopSource::new(bytes);
        let mut sink = CleanSink::with_room(alloc, 4, ROOM)?;
        assert_eq!(rt; still(alloc, words.as_slice(), &mut source, &mut sink), 1);
        assert_eq!(rt; sink.held(), fault.as_bytes());
    }
    Ok(())
}
