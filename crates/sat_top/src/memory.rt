//! The program over a text in memory.
ghost use Rattle.std.specs.Prelude.{◌≡◌, ◌⊎◌, [], ◌<◌, ◌≤◌, IfOk, Some, map, length, string_bytes};
ghost use Rattle.sat_top.specs.Whole.{status_of, output_of};

use crate::still;
use sat_outside::{CleanSink, CleanSource, Sink};
use std::alloc::{AllocError, Global};

/// Does the command of the words over a text that comes in pieces. Nothing outside can fail, so the status is that of
/// the words and the text, and the sink tells the whole output where its room holds it, unless memory runs out.
pub fn still_in_memory(
    alloc: Global,
    words: &[String],
    text: Vec<u8>,
    piece: usize,
    room: usize,
) -> Result<(u8, CleanSink), AllocError>
    requires { 0 < piece }
    ensures status { IfOk result (λ ended. (ended.0 ≡ status_of (map string_bytes words.now) text.items)
        ⊎ (ended.0 ≡ 5)) }
    ensures told { IfOk result (λ ended. ended.0 ≤ 2 → length (output_of (map string_bytes words.now) text.items) ≤ room
        → ⟦<CleanSink as Sink>⟧.told ended.1 [] ≡ Some (output_of (map string_bytes words.now) text.items)) }
{
    let mut sink = CleanSink::with_room(alloc, piece, room)?;
    let mut source = CleanSource::new(text, piece);
    let status = still(alloc, words, &mut source, &mut sink);
    Ok((status, sink))
}
