//! Reading a script from a source, and running it as it comes.
ghost use Rattle.std.specs.Prelude.{◌≡◌, ◌≢◌, ℕ, ◌≤◌, ◌+◌, false, List, [], length, IfOk, IfSome, OnOk, OnErr, IsErrOf};
ghost use Rattle.std.specs.Prelude.{None, Some, Err};
ghost use Rattle.std.specs.Io.KnownBytes.{Consumes, IsAtEnd};
ghost use Rattle.sat_act.specs.Deployed.{Deployed};
ghost use Rattle.sat_outside.specs.Causes.{Rose};
ghost use Rattle.sat_outside.specs.Streams.{Takes};
ghost use Rattle.sat_follow.specs.Following.{IsTextOf};
ghost use Rattle.sat_stream.specs.Reading.{reading};
ghost use Rattle.sat_script.specs.Spelled.{AreActsOf};
ghost use Rattle.sat_stream.specs.Stream.{will_be, known_fault, behind, drained, LacksOnlyItsEnd};
ghost use Rattle.sat_stream.specs.declared.limits.TheConstants.{MOST_BYTES as MOST_SCRIPT_BYTES};
ghost use Rattle.sat_follow.specs.declared.pieces.TheConstants.{BUFFER_BYTES};
ghost use Rattle.sat_pieces.specs.declared.stream.Stop.TheVariants.{Memory};
ghost use Rattle.sat_pieces.specs.Streaming.{HasAnswered, HasFront, HasReadLines, IsReported, StopsReading};
ghost use Rattle.sat_pieces.specs.Streaming.{WasAnswering, run_status};
ghost use Rattle.sat_pieces.specs.UnderWay.{DoesMore, Ends, EndsBefore, IsKnown, IsWorldOf};

use crate::law::good_scripts;
use crate::run::{answer_more, rest_text};
use sat_follow::{BUFFER_BYTES, Halt, write_text};
use sat_laws::headline;
use sat_outside::{Sink, Source};
use sat_rest::settles_all;
use sat_script::{Cause, MOST_ACTS};
use sat_stream::{BYTES_END, Reading, ScriptReader, sound_readings};
use sat_world::World;
use std::alloc::{AllocError, Global};

/// Why nothing is written.
#[derive(Clone, Copy, Debug, PartialEq, Eq)]
pub enum Stop {
    Source,
    Memory,
}

impl From<AllocError> for Stop {
    ghost from_gives = { λ _ e. e ≡ Memory };

    fn from(_: AllocError) -> Stop {
        Stop::Memory
    }
}

// The status of a script: 0, or 1 where it has a bad line.
fn run_status(reading: &Reading) -> u8
    ensures { result ≡ run_status reading.now.fault }
{
    match reading.fault {
        None => 0,
        Some(_) => 1,
    }
}

// Does the acts of a piece that a reader has taken, and makes the text of their answers in the place of what the text
// was.
fn answer_piece(
    alloc: Global,
    reader: &mut ScriptReader,
    world: &mut Option<World>,
    done: &mut u64,
    text: &mut Vec<u8>,
) -> Result<(), AllocError>
    requires known { IsKnown reader.old.lines.deployment world.old }
    requires few { done.old + length reader.old.lines.acts ≤ MOST_ACTS }
    ensures reader { reader.new ≡ drained reader.old }
    ensures script { (more : List ℕ) → will_be reader.old more
        ≡ behind reader.old.lines.acts (will_be reader.new more) }
    ensures stays { (d : Deployed) (more : List ℕ) → reader.old.lines.deployment ≡ Some d
        → (will_be reader.new more).deployment ≡ Some d }
    ensures lacks { known_fault reader.old ≡ None → LacksOnlyItsEnd (will_be reader.new []) }
    ensures known { OnOk result (IsWorldOf reader.old.lines.deployment world.new) }
    ensures count { OnOk result (done.new ≡ done.old + length reader.old.lines.acts) }
    ensures more { OnOk result (DoesMore world.old done.old reader.old.lines.acts world.new text.new.items) }
{
    let acts = reader.drain();
    answer_more(
        alloc,
        reader.deployment(),
        world,
        *done,
        acts.as_slice(),
        text,
    )?;
    *done += acts.as_slice().len() as u64;
    reader.reuse(acts);
    Ok(())
}

// Says what a run is at the end of its text: it writes the rest of its report.
fn end_script<K: Sink>(
    alloc: Global,
    reading: &Reading,
    world: &mut Option<World>,
    done: u64,
    text: &mut Vec<u8>,
    sink: &mut K,
) -> Result<u8, Halt>
    requires acts { IfSome reading.now.deployment (λ d. AreActsOf d reading.now.acts) }
    requires none { reading.now.deployment ≡ None → reading.now.acts ≡ [] }
    requires known { IsKnown reading.now.deployment world.old }
    requires few { done + length reading.now.acts ≤ MOST_ACTS }
    ensures status { IfOk result (λ status. status ≡ run_status reading.now.fault) }
    ensures whole { OnOk result (Ends world.old done reading.now (K.told sink.old) (K.told sink.new)) }
    ensures front { IsErrOf result Halt.Sink
        → EndsBefore world.old done reading.now (K.told sink.old) (K.told sink.new) }
    ensures cause { IsErrOf result Halt.Sink → Rose (K.faults sink.old) (K.faults sink.new) }
    ensures nothing { IsErrOf result Halt.Memory → Takes (K.told sink.old) (K.told sink.new) [] }
    ensures causes { result ≢ Err Halt.Source }
    ensures later { K.faults sink.old ≤ K.faults sink.new }
{
    if rest_text(alloc, reading, world, done, text).is_err() {
        return Err(Halt::Memory);
    }
    match write_text(sink, text.as_slice()) {
        Ok(()) => Ok(run_status(reading)),
        Err(_) => Err(Halt::Sink),
    }
}

/// Runs a script: reads a piece, does the acts of each whole line in it, writes their answers, and reads on; at the end
/// it writes the rest of the report. It keeps neither the text nor the acts. It answers 0, or 1 where the script has a
/// bad line.
pub fn run_script<S: Source, K: Sink>(
    alloc: Global,
    source: &mut S,
    sink: &mut K,
) -> Result<u8, Halt>
    ensures whole { IfOk result (λ status. (text : List ℕ) × IsReported (S.left source.old) text status
        × Takes (K.told sink.old) (K.told sink.new) text) }
    ensures end { IfOk result (λ status. status ≡ 0 → IsAtEnd (S.left source.new)) }
    // The bytes taken have a bound, however much the source has.
    ensures bounded { (taken : List ℕ) × Consumes (S.left source.old) (S.left source.new) taken
        × (length taken ≤ MOST_SCRIPT_BYTES + BUFFER_BYTES) }
    // All that is read but the last bytes, at most a piece, has no bad line in it.
    ensures stops { StopsReading false (S.left source.old) (S.left source.new) }
    ensures failed { IsErrOf result Halt.Source → Rose (S.faults source.old) (S.faults source.new) }
    ensures answered { IsErrOf result Halt.Source
        → HasAnswered (S.left source.old) (S.left source.new) (K.told sink.old) (K.told sink.new) }
    ensures refused { IsErrOf result Halt.Sink → Rose (K.faults sink.old) (K.faults sink.new) }
    ensures front { OnErr result (HasFront (S.left source.old) (K.told sink.old) (K.told sink.new)) }
    ensures stopped { OnErr result
        (WasAnswering (S.left source.old) (S.left source.new) (K.told sink.old) (K.told sink.new)) }
    ensures once { S.ends source.new ≤ S.ends source.old + 1 }
    ensures later { S.faults source.old ≤ S.faults source.new }
    ensures kept { K.faults sink.old ≤ K.faults sink.new }
{
    // Brings these laws into the proof; they do nothing when they run.
    headline();
    settles_all();
    good_scripts();
    sound_readings();
    let mut reader = ScriptReader::new(alloc, false);
    let mut world = None;
    let mut done = 0u64;
    let mut text = Vec::new(alloc);
    let mut buffer = [0u8; BUFFER_BYTES];
    let mut taken = 0u64;
    // A first bad line begins before this byte.
    'pieces: while taken < BYTES_END {
        match source.read(&mut buffer) {
            Err(_) => return Err(Halt::Source),
            Ok(0) => return end_script(alloc, &reader.finish(), &mut world, done, &mut text, sink),
            Ok(count) => {
                taken += count as u64;
                if let Err(fault) = reader.feed(&buffer[..count]) {
                    if fault.cause == Cause::Memory {
                        return Err(Halt::Memory);
                    }
                    return end_script(alloc, &reader.finish(), &mut world, done, &mut text, sink);
                }
                if let Err(_lacking) = answer_piece(
                    alloc,
                    &mut reader,
                    &mut world,
                    &mut done,
                    &mut text,
                ) {
                    return Err(Halt::Memory);
                }
                if let Err(_failed) = write_text(sink, text.as_slice()) {
                    return Err(Halt::Sink);
                }
            }
        }
    }
    unreachable!()
}

/// Reads a script, for nodes on threads or not, until the source has no more, or the first bad line is known. Where the
/// source fails, none of the whole lines that were read is bad.
pub fn read_script<S: Source>(alloc: Global, source: &mut S, live: bool) -> Result<Reading, Stop>
    ensures script { IfOk result (λ found. (text : List ℕ) × IsTextOf (S.left source.old) text
        × (reading live text ≡ found)) }
    ensures end { IfOk result (λ found. found.fault ≡ None → IsAtEnd (S.left source.new)) }
    // The bytes taken have a bound, however much the source has.
    ensures bounded { (taken : List ℕ) × Consumes (S.left source.old) (S.left source.new) taken
        × (length taken ≤ MOST_SCRIPT_BYTES + BUFFER_BYTES) }
    // All that is read but the last bytes, at most a piece, has no bad line in it.
    ensures stops { StopsReading live (S.left source.old) (S.left source.new) }
    ensures once { S.ends source.new ≤ S.ends source.old + 1 }
    ensures later { S.faults source.old ≤ S.faults source.new }
    ensures failed { IsErrOf result Stop.Source → Rose (S.faults source.old) (S.faults source.new) }
    ensures lines { IsErrOf result Stop.Source → HasReadLines live (S.left source.old) (S.left source.new) }
{
    let mut reader = ScriptReader::new(alloc, live);
    let mut buffer = [0u8; BUFFER_BYTES];
    let mut taken = 0u64;
    // A first bad line begins before this byte.
    while taken < BYTES_END {
        match source.read(&mut buffer) {
            Err(_) => return Err(Stop::Source),
            Ok(0) => return Ok(reader.finish()),
            Ok(count) => {
                taken += count as u64;
                if let Err(fault) = reader.feed(&buffer[..count]) {
                    if fault.cause == Cause::Memory {
                        return Err(Stop::Memory);
                    }
                    return Ok(reader.finish());
                }
            }
        }
    }
    unreachable!()
}
