//! Each source and sink over a few bytes.
use sat_label::NodeName;
use sat_outside::{
    CleanSink, CleanSource, Failed, FreeGate, Gate, MemorySink, MemorySource, Sink, Source,
    StdSink, StdSource,
};
use std::alloc::Global;
use std::cell::Cell;
use std::io::{Read, Write};
use std::test::Fail;

fn bytes(alloc: Global, text: &[u8]) -> Result<Vec<u8>, Fail> {
    let bytes = text.to_vec(alloc)?;
    Ok(bytes)
}

#[test]
fn clean_source_gives_its_bytes(rt: HostRuntime) -> Result<(), Fail> {
    let mut source = CleanSource::new(bytes(rt.alloc(), b"abcde")?, 3);
    let mut into = [0; 4];
    assert_eq!(rt; source.read(&mut into), Ok(3));
    assert_eq!(rt; into, *b"abc\0");
    assert_eq!(rt; source.read(&mut into), Ok(2));
    assert_eq!(rt; into, *b"dec\0");
    assert_eq!(rt; source.read(&mut into), Ok(0));
    Ok(())
}

#[test]
fn clean_sink_keeps_its_room(rt: HostRuntime) -> Result<(), Fail> {
    let mut sink = CleanSink::with_room(rt.alloc(), 4, 5)?;
    assert_eq!(rt; sink.write(b"abcdefg"), Ok(4));
    assert_eq!(rt; sink.write(b"ef"), Ok(2));
    assert_eq!(rt; sink.write(b"g"), Ok(1));
    assert_eq!(rt; sink.held(), b"abcde".as_slice());
    let mut none = CleanSink::new(rt.alloc(), 1);
    assert_eq!(rt; none.write(b"ab"), Ok(1));
    assert_eq!(rt; none.held().len(), 0);
    Ok(())
}

#[test]
fn memory_source_fails_where_listed(rt: HostRuntime) -> Result<(), Fail> {
    let alloc = rt.alloc();
    let mut source = MemorySource::new(bytes(alloc, b"abc")?, 2, [1, 3].to_vec(alloc)?);
    let mut into = [0; 8];
    assert_eq!(rt; source.read(&mut into), Ok(2));
    assert_eq!(rt; source.read(&mut into), Err(Failed));
    assert_eq!(rt; source.read(&mut into), Ok(1));
    assert_eq!(rt; into, *b"cb\0\0\0\0\0\0");
    assert_eq!(rt; source.read(&mut into), Err(Failed));
    assert_eq!(rt; source.read(&mut into), Ok(0));
    Ok(())
}

#[test]
fn memory_sink_fails_where_listed_and_full(rt: HostRuntime) -> Result<(), Fail> {
    let alloc = rt.alloc();
    let mut sink = MemorySink::new(alloc, 2, [1].to_vec(alloc)?, 3)?;
    assert_eq!(rt; sink.write(b"abc"), Ok(2));
    assert_eq!(rt; sink.write(b"c"), Err(Failed));
    assert_eq!(rt; sink.write(b"cd"), Ok(1));
    assert_eq!(rt; sink.write(b"d"), Err(Failed));
    assert_eq!(rt; sink.held(), b"abc".as_slice());
    Ok(())
}

#[test]
fn standard_forms_pass_on(rt: HostRuntime) -> Result<(), Fail> {
    let mut source = StdSource::new(b"abc".as_slice());
    let mut into = [0; 2];
    assert_eq!(rt; source.read(&mut into), Ok(2));
    assert_eq!(rt; into, *b"ab");
    assert_eq!(rt; source.read(&mut into), Ok(1));
    assert_eq!(rt; source.read(&mut into), Ok(0));
    let mut sink = StdSink::new(Vec::new(rt.alloc()));
    assert_eq!(rt; sink.write(b"abc"), Ok(3));
    let mut room = [0; 2];
    let mut full = StdSink::new(room.as_mut_slice());
    assert_eq!(rt; full.write(b"abc"), Ok(2));
    assert_eq!(rt; full.write(b"c"), Err(Failed));
    Ok(())
}

// Fills or takes all that it is given, and counts its calls.
#[derive(Drop)]
struct Counting<'a> {
    calls: &'a Cell<u64>,
}

impl Counting<'_> {
    fn count(&self) {
        self.calls.set(self.calls.get().saturating_add(1));
    }
}

impl Read for Counting<'_> {
    fn read(&mut self, into: &mut [u8]) -> std::io::Result<usize> {
        self.count();
        Ok(into.len())
    }
}

impl Write for Counting<'_> {
    fn write(&mut self, piece: &[u8]) -> std::io::Result<usize> {
        self.count();
        Ok(piece.len())
    }

    fn flush(&mut self) -> std::io::Result<()> {
        Ok(())
    }
}

#[test]
fn standard_forms_move_a_piece_in_one_call(rt: HostRuntime) -> Result<(), Fail> {
    let calls = Cell::new(0);
    let mut piece = [0; 4096];
    let mut source = StdSource::new(Counting { calls: &calls });
    assert_eq!(rt; source.read(&mut piece), Ok(4096));
    assert_eq!(rt; calls.get(), 1);
    let mut sink = StdSink::new(Counting { calls: &calls });
    assert_eq!(rt; sink.write(&piece), Ok(4096));
    assert_eq!(rt; calls.get(), 2);
    Ok(())
}

#[test]
fn free_gate_lets_all_pass(_rt: HostRuntime) -> Result<(), Fail> {
    let gate = FreeGate;
    gate.inside(NodeName::Site(0));
    gate.inside(NodeName::Serializer {
        epoch: 1,
        number: 0,
    });
    gate.answered(0, 1);
    Ok(())
}
