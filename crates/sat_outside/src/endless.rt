//! A source in memory without an end.
ghost use Rattle.std.specs.Prelude.{◌≡◌, ◌==◌, ℕ, ◌+◌, ◌<◌, ◌≤◌, List, length, take, drop, min, None, IfOk, IsOk};
ghost use Rattle.std.specs.Prelude.{vec_len, if◌then◌else◌};
ghost use Rattle.std.specs.Io.{ReadsAtMost};
ghost use Rattle.std.specs.Io.KnownBytes.{ReadConsumes};
ghost use Rattle.sat_outside.specs.Causes.{CountsEnds, HasCause};

use crate::clean::give;
use crate::{Failed, Source};

/// Gives bytes of its own again and again, without an end. It tells nothing of what is left, and never fails.
#[derive(Drop)]
pub struct LoopSource {
    bytes: Vec<u8>,
    at: usize,
    ghost within: { at < vec_len bytes },
}

impl LoopSource {
    ghost use Rattle.sat_outside.specs.Endless.{loop_bytes, loop_at};

    /// A source of these bytes, at least one. It takes no memory.
    pub fn new(bytes: Vec<u8>) -> LoopSource
        requires { 0 < length bytes.items }
        ensures ends { ⟦<LoopSource as Source>⟧.ends result ≡ 0 }
        ensures bytes { loop_bytes result ≡ bytes.items }
        ensures begins { loop_at result ≡ 0 }
    {
        LoopSource { bytes, at: 0 }
    }
}

impl Source for LoopSource {
    ghost use Rattle.sat_outside.specs.Endless.{loop_bytes, loop_at};

    ghost left = { λ _. None };

    ghost faults = { λ _. 0 };

    ghost ends = { λ _. 0 };

    fn read(&mut self, into: &mut [u8]) -> Result<usize, Failed>
        requires { 0 < length into.old }
        ensures count { ReadsAtMost result into.new }
        ensures bytes { ReadConsumes None None result into.new }
        ensures cause { HasCause 0 0 result }
        ensures ends { CountsEnds 0 0 result }

        // It gives what it has from its place on, as far as there is room, and goes on behind that, from the last byte
        // to the first.
        ensures most { IfOk result
            (λ n. n ≡ min (length into.old) (length (drop (loop_at self.old) (loop_bytes self.old)))) }
        ensures given { IfOk result (λ n. take n into.new ≡ take n (drop (loop_at self.old) (loop_bytes self.old))) }
        ensures goes { IfOk result (λ n. loop_at self.new
            ≡ (if loop_at self.old + n == length (loop_bytes self.old) then 0 else loop_at self.old + n)) }
        ensures stays { loop_bytes self.new ≡ loop_bytes self.old }
        ensures fine { IsOk result }
    {
        let count = give(&self.bytes[self.at..], into);
        let next = self.at + count;
        self.at = if next == self.bytes.len() { 0 } else { next };
        Ok(count)
    }
}
