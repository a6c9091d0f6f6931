//! Reading a text of delays, or of a history, from a source.
ghost use Rattle.std.specs.Prelude.{◌≡◌, ℕ, ◌≤◌, ◌+◌, List, length, IfOk, IsErrOf};
ghost use Rattle.std.specs.Io.KnownBytes.{Consumes, IsAtEnd};
ghost use Rattle.sat_outside.specs.Causes.{Rose};
ghost use Rattle.sat_follow.specs.Following.{IsTextOf};
ghost use Rattle.sat_delay.specs.Reading.{reading as delays_in};
ghost use Rattle.sat_place.specs.Shape.{shape_reading};
ghost use Rattle.sat_delay.specs.declared.read.TheConstants.{MOST_BYTES as MOST_DELAY_BYTES};
ghost use Rattle.sat_follow.specs.declared.pieces.TheConstants.{BUFFER_BYTES};
ghost use Rattle.sat_top.specs.Auditing.{heard_in};

use crate::auditing::MOST_HISTORY_BYTES;
use sat_delay::MOST_BYTES;
use sat_follow::BUFFER_BYTES;
use sat_outside::Source;
use sat_pieces::Stop;
use std::alloc::Global;

// Reads all that the source has, or more than so many bytes.
#[tactic(auto, using(sat_pieces::proofs::Progress::ends_once, sat_pieces::proofs::Progress::ends_same))]
fn read_past<S: Source>(alloc: Global, source: &mut S, most: usize) -> Result<Vec<u8>, Stop>
    ensures taken { IfOk result (λ found. Consumes (S.left source.old) (S.left source.new) found.items) }
    ensures end { IfOk result (λ found. length found.items ≤ most → IsAtEnd (S.left source.new)) }
    ensures bounded { (taken : List ℕ) × Consumes (S.left source.old) (S.left source.new) taken
        × (length taken ≤ most + BUFFER_BYTES) }
    ensures once { S.ends source.new ≤ S.ends source.old + 1 }
    ensures later { S.faults source.old ≤ S.faults source.new }
    ensures failed { IsErrOf result Stop.Source → Rose (S.faults source.old) (S.faults source.new) }
{
    let mut text = Vec::new(alloc);
    let mut buffer = [0u8; BUFFER_BYTES];
    while text.len() <= most {
        match source.read(&mut buffer) {
            Err(_) => return Err(Stop::Source),
            Ok(0) => return Ok(text),
            Ok(count) => text.extend_from_slice(&buffer[..count])?,
        }
    }
    Ok(text)
}

/// Reads a text of delays: all that the source has, or more than such a text may have.
pub fn read_delay_text<S: Source>(alloc: Global, source: &mut S) -> Result<Vec<u8>, Stop>
    ensures text { IfOk result (λ found. (text : List ℕ) × IsTextOf (S.left source.old) text
        × (delays_in text ≡ delays_in found.items) × (shape_reading text ≡ shape_reading found.items)) }
    ensures end { IfOk result (λ found. length found.items ≤ MOST_BYTES → IsAtEnd (S.left source.new)) }
    ensures bounded { (taken : List ℕ) × Consumes (S.left source.old) (S.left source.new) taken
        × (length taken ≤ MOST_DELAY_BYTES + BUFFER_BYTES) }
    ensures once { S.ends source.new ≤ S.ends source.old + 1 }
    ensures later { S.faults source.old ≤ S.faults source.new }
    ensures failed { IsErrOf result Stop.Source → Rose (S.faults source.old) (S.faults source.new) }
{
    let text = read_past(alloc, source, MOST_BYTES)?;
    Ok(text)
}

/// Reads the text of a history: all that the source has, or more than is read of one.
pub fn read_history_text<S: Source>(alloc: Global, source: &mut S) -> Result<Vec<u8>, Stop>
    ensures text { IfOk result (λ found. (text : List ℕ) × IsTextOf (S.left source.old) text
        × (heard_in text ≡ heard_in found.items)) }
    ensures end { IfOk result (λ found. length found.items ≤ MOST_HISTORY_BYTES → IsAtEnd (S.left source.new)) }
    ensures bounded { (taken : List ℕ) × Consumes (S.left source.old) (S.left source.new) taken
        × (length taken ≤ MOST_HISTORY_BYTES + BUFFER_BYTES) }
    ensures once { S.ends source.new ≤ S.ends source.old + 1 }
    ensures later { S.faults source.old ≤ S.faults source.new }
    ensures failed { IsErrOf result Stop.Source → Rose (S.faults source.old) (S.faults source.new) }
{
    let text = read_past(alloc, source, MOST_HISTORY_BYTES)?;
    Ok(text)
}
