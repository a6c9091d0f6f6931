//! The loop: a piece is read, answered and written before more is read.
ghost use Rattle.std.specs.Prelude.{◌≡◌, ◌≢◌, ℕ, ◌≤◌, ◌+◌, true, false, List, [], length, IfOk, OnErr, IsErrOf, Err};
ghost use Rattle.std.specs.Io.KnownBytes.{Consumes, IsAtEnd};
ghost use Rattle.sat_outside.specs.Causes.{Rose};
ghost use Rattle.sat_outside.specs.Streams.{Takes};
ghost use Rattle.sat_follow.specs.declared.pieces.TheConstants.{BUFFER_BYTES};
ghost use Rattle.sat_follow.specs.Following.{HasAnswered, HasFront, IsOutput, StopsReading, WasAnswering};
ghost use Rattle.sat_follow.specs.UnderWay.{Answers, Stops, Ends, Broke, EndedBefore};

use crate::follower::{BYTES_END, Follower};
use crate::writing::write_text;
use sat_outside::{Sink, Source};
use std::alloc::Global;

/// The most bytes that one read takes.
pub const BUFFER_BYTES: usize = 16_384;

/// Why a text is given up.
#[derive(Clone, Copy, Debug, PartialEq, Eq)]
pub enum Halt {
    Source,
    Sink,
    Memory,
}

// Answers a piece, and writes that. Whether none of its lines is bad.
fn answer_piece<F: Follower, K: Sink>(
    follower: &mut F,
    piece: &[u8],
    text: &mut Vec<u8>,
    sink: &mut K,
) -> Result<bool, Halt>
    ensures same { F.meaning follower.new ≡ F.meaning follower.old }
    ensures good { IfOk result (λ good. good ≡ true
        → Answers (F.meaning follower.old) (F.follows follower.old) (F.follows follower.new) piece.now (K.told sink.old)
        (K.told sink.new)) }
    ensures bad { IfOk result (λ good. good ≡ false
        → Stops (F.meaning follower.old) (F.follows follower.old) piece.now (K.told sink.old) (K.told sink.new)) }
    ensures broke { IsErrOf result Halt.Sink
        → Broke (F.meaning follower.old) (F.follows follower.old) piece.now (K.told sink.old) (K.told sink.new) }
    ensures refused { IsErrOf result Halt.Sink → Rose (K.faults sink.old) (K.faults sink.new) }
    ensures nothing { IsErrOf result Halt.Memory → Takes (K.told sink.old) (K.told sink.new) [] }
    ensures causes { result ≢ Err Halt.Source }
    ensures later { K.faults sink.old ≤ K.faults sink.new }
{
    let Ok(good) = follower.feed(piece, text) else {
        return Err(Halt::Memory);
    };
    match write_text(sink, text.as_slice()) {
        Ok(()) => Ok(good),
        Err(_) => Err(Halt::Sink),
    }
}

// Writes the rest of the output, where no more comes.
fn end_text<F: Follower, K: Sink>(
    follower: &mut F,
    text: &mut Vec<u8>,
    sink: &mut K,
) -> Result<u8, Halt>
    ensures whole { IfOk result
        (λ status. Ends (F.meaning follower.old) (F.follows follower.old) (K.told sink.old) (K.told sink.new) status) }
    ensures broke { IsErrOf result Halt.Sink
        → EndedBefore (F.meaning follower.old) (F.follows follower.old) (K.told sink.old) (K.told sink.new) }
    ensures refused { IsErrOf result Halt.Sink → Rose (K.faults sink.old) (K.faults sink.new) }
    ensures nothing { IsErrOf result Halt.Memory → Takes (K.told sink.old) (K.told sink.new) [] }
    ensures causes { result ≢ Err Halt.Source }
    ensures later { K.faults sink.old ≤ K.faults sink.new }
{
    let Ok(status) = follower.finish(text) else {
        return Err(Halt::Memory);
    };
    match write_text(sink, text.as_slice()) {
        Ok(()) => Ok(status),
        Err(_) => Err(Halt::Sink),
    }
}

/// Follows a text: reads a piece, has the lines in it answered, writes that, and reads on; at the end it writes the
/// rest of the output. It keeps no more of the text than a piece. It answers the text's status, which is 0, or 1 where
/// a line is bad.
pub fn follow<F: Follower, S: Source, K: Sink>(
    alloc: Global,
    follower: &mut F,
    source: &mut S,
    sink: &mut K,
) -> Result<u8, Halt>
    requires fresh { F.follows follower.old [] }
    ensures whole { IfOk result (λ status. (text : List ℕ)
        × IsOutput (F.meaning follower.old) (S.left source.old) text status
        × Takes (K.told sink.old) (K.told sink.new) text) }
    ensures end { IfOk result (λ status. status ≡ 0 → IsAtEnd (S.left source.new)) }
    // The bytes taken have a bound, however much the source has.
    ensures bounded { (taken : List ℕ) × Consumes (S.left source.old) (S.left source.new) taken
        × (length taken ≤ (F.meaning follower.old).most + BUFFER_BYTES) }
    // All that is read but the last bytes, at most a piece, has no bad line in it.
    ensures stops { StopsReading (F.meaning follower.old) (S.left source.old) (S.left source.new) }
    ensures failed { IsErrOf result Halt.Source → Rose (S.faults source.old) (S.faults source.new) }
    ensures answered { IsErrOf result Halt.Source
        → HasAnswered (F.meaning follower.old) (S.left source.old) (S.left source.new) (K.told sink.old)
        (K.told sink.new) }
    ensures refused { IsErrOf result Halt.Sink → Rose (K.faults sink.old) (K.faults sink.new) }
    ensures front { OnErr result
        (HasFront (F.meaning follower.old) (S.left source.old) (K.told sink.old) (K.told sink.new)) }
    ensures stopped { OnErr result (WasAnswering (F.meaning follower.old) (S.left source.old) (S.left source.new)
        (K.told sink.old) (K.told sink.new)) }
    ensures once { S.ends source.new ≤ S.ends source.old + 1 }
    ensures later { S.faults source.old ≤ S.faults source.new }
    ensures kept { K.faults sink.old ≤ K.faults sink.new }
{
    let mut text = Vec::new(alloc);
    let mut buffer = [0u8; BUFFER_BYTES];
    let mut taken = 0u64;
    // A first bad line begins before this byte.
    'pieces: while taken < BYTES_END {
        match source.read(&mut buffer) {
            Err(_) => return Err(Halt::Source),
            Ok(0) => return end_text(follower, &mut text, sink),
            Ok(count) => {
                taken += count as u64;
                match answer_piece(follower, &buffer[..count], &mut text, sink) {
                    Err(halt) => return Err(halt),
                    Ok(good) => {
                        if !good {
                            return Ok(1);
                        }
                    }
                }
            }
        }
    }
    unreachable!()
}
