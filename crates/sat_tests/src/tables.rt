//! Tables of delays and trees through the program: what is wrong with them, and which placement is the least.
use crate::rows::{
    BAD_MATRICES, BAD_SHAPES, BAD_SIZES, BEFORE_BAD_SHAPES, BEFORE_MATRICES, GOOD_MATRICES,
    NINE_PLACES, PLACED,
};
use sat_outside::{CleanSink, CleanSource, FreeGate};
use sat_top::{saturn, still_in_memory};
use std::alloc::Global;
use std::sync::Wait;
use std::test::Fail;
use std::thread::Threads;
use std::time::Clock;

const ROOM: usize = 4096;

// The most bytes that a table may have.
const MOST_BYTES: usize = 1_048_576;

// The words of a command that is one word.
fn word(alloc: Global, text: &str) -> Result<Vec<String>, Fail> {
    let mut words = Vec::new(alloc);
    words.push(String::from_str(alloc, text)?)?;
    Ok(words)
}

// A text in two parts.
fn joined(alloc: Global, front: &str, rest: &str) -> Result<Vec<u8>, Fail> {
    let mut text = front.as_bytes().to_vec(alloc)?;
    text.extend_from_slice(rest.as_bytes())?;
    Ok(text)
}

// The status and the output of a command over a text that comes in pieces of 4,096 bytes.
fn ended(alloc: Global, command: &str, text: Vec<u8>) -> Result<(u8, CleanSink), Fail> {
    let words = word(alloc, command)?;
    let (status, sink) = still_in_memory(alloc, words.as_slice(), text, 4096, ROOM)?;
    Ok((status, sink))
}

// The same of a placement that is found on several threads.
fn placed_wide<R: AllocGlobal + Threads + Wait + Clock + Sync>(
    rt: &R,
    text: Vec<u8>,
) -> Result<(u8, CleanSink), Fail> {
    let alloc = rt.alloc();
    let words = word(alloc, "place")?;
    let mut source = CleanSource::new(text, 4096);
    let mut sink = CleanSink::with_room(alloc, 4096, ROOM)?;
    let status = saturn(rt, words.as_slice(), &mut source, &mut sink, &FreeGate);
    Ok((status, sink))
}

#[test]
fn the_least_placement_is_found(rt: HostRuntime) -> Result<(), Fail> {
    let alloc = rt.alloc();
    for (table, tree, wanted) in PLACED {
        let (status, sink) = ended(alloc, "place", joined(alloc, table, tree)?)?;
        assert_eq!(rt; status, 0);
        assert_eq!(rt; sink.held(), wanted.as_bytes());
        let (status, sink) = placed_wide(&rt, joined(alloc, table, tree)?)?;
        assert_eq!(rt; status, 0);
        assert_eq!(rt; sink.held(), wanted.as_bytes());
    }
    Ok(())
}

#[test]
fn bad_tables_have_their_places(rt: HostRuntime) -> Result<(), Fail> {
    let alloc = rt.alloc();
    for (front, rows, command) in [
        ("", BAD_SIZES, "plan"),
        (BEFORE_MATRICES, BAD_MATRICES, "plan"),
        (BEFORE_BAD_SHAPES, BAD_SHAPES, "place"),
        (
            "",
            [(NINE_PLACES, "place: TooBig places 0 0\n")].as_slice(),
            "place",
        ),
    ] {
        for (rest, line) in rows {
            let (status, sink) = ended(alloc, command, joined(alloc, front, rest)?)?;
            assert_eq!(rt; status, 1);
            assert_eq!(rt; sink.held(), line.as_bytes());
        }
    }
    Ok(())
}

// A good table with blanks behind it, up to so many bytes in all.
fn padded(alloc: Global, length: usize) -> Result<Vec<u8>, Fail> {
    let mut text = joined(alloc, BEFORE_MATRICES, GOOD_MATRICES)?;
    for _ in text.len()..length {
        text.push(b' ')?;
    }
    Ok(text)
}

#[test]
fn a_table_may_have_so_many_bytes(rt: HostRuntime) -> Result<(), Fail> {
    let alloc = rt.alloc();
    let (status, sink) = ended(alloc, "plan", padded(alloc, MOST_BYTES)?)?;
    assert_eq!(rt; status, 0);
    assert!(rt; sink.held().starts_with(b"plan tree - / 0 0\n"));
    let (status, sink) = ended(alloc, "plan", padded(alloc, MOST_BYTES + 1)?)?;
    assert_eq!(rt; status, 1);
    assert_eq!(rt; sink.held(), b"plan: TooLong\n".as_slice());
    Ok(())
}
