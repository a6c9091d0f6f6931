//! A source and a sink in memory that fail at calls that are named.
ghost use Rattle.std.specs.Prelude.{◌≡◌, ℕ, ◌+◌, ◌-◌, ◌^◌, ◌<◌, ◌≤◌, ◌↔◌, ◌⊎◌, List, [], length, take, drop, min, All};
ghost use Rattle.std.specs.Prelude.{Contains, Some, IfOk, IfSome, IsErr, MatchResult, vec_len, vec_capacity};
ghost use Rattle.std.specs.Io.{ReadsAtMost};
ghost use Rattle.std.specs.Io.KnownBytes.{ReadConsumes};
ghost use Rattle.sat_outside.specs.Causes.{CountsEnds, CountsFaults, HasCause};
ghost use Rattle.sat_outside.specs.Streams.{Takes, all_told, all_told-appends};

use crate::clean::{ends_behind, give};
use crate::{Failed, Sink, Source};
use std::alloc::{AllocError, Global};

/// Gives bytes of its own, at most a piece at each call, and fails at the calls whose numbers are listed.
#[derive(Drop)]
pub struct MemorySource {
    bytes: Vec<u8>,
    at: usize,
    piece: usize,
    failing: Vec<u64>,
    calls: u64,
    faults: u64,
    ends: u64,
    ghost within: { at ≤ vec_len bytes },
    ghost moves: { 0 < piece },
}

impl MemorySource {
    ghost use Rattle.sat_outside.specs.Memory.{source_failing, source_calls, source_piece};

    /// A source of these bytes, which gives at most `piece` of them at each call, and fails at the calls whose numbers
    /// are listed, counted from 0. A piece is at least one byte; the number of calls stays at its last value, 2^64 - 1,
    /// so that none of the list is as high.
    pub fn new(bytes: Vec<u8>, piece: usize, failing: Vec<u64>) -> MemorySource
        requires moves { 0 < piece }
        requires counted { All (λ call. call < 2 ^ 64 - 1) failing.items }
        ensures left { ⟦<MemorySource as Source>⟧.left result ≡ Some bytes.items }
        ensures faults { ⟦<MemorySource as Source>⟧.faults result ≡ 0 }
        ensures ends { ⟦<MemorySource as Source>⟧.ends result ≡ 0 }
        ensures calls { source_calls result ≡ 0 }
        ensures failing { source_failing result ≡ failing.items }
        ensures piece { source_piece result ≡ piece }
    {
        MemorySource {
            bytes,
            at: 0,
            piece,
            failing,
            calls: 0,
            faults: 0,
            ends: 0,
        }
    }
}

impl Source for MemorySource {
    ghost use Rattle.sat_outside.specs.Memory.{source_failing, source_calls, source_piece};

    ghost left = { λ s. Some (drop s.at s.bytes.items) };

    ghost faults = { λ s. s.faults };

    ghost ends = { λ s. s.ends };

    fn read(&mut self, into: &mut [u8]) -> Result<usize, Failed>
        requires { 0 < length into.old }
        ensures count { ReadsAtMost result into.new }
        ensures bytes { ReadConsumes (Some (drop self.old.at self.old.bytes.items))
            (Some (drop self.new.at self.new.bytes.items)) result into.new }
        ensures cause { HasCause self.old.faults self.new.faults result }
        ensures ends { CountsEnds self.old.ends self.new.ends result }

        // It fails at the calls that are listed, and at no others.
        ensures fails { IsErr result ↔ Contains (source_failing self.old) (source_calls self.old) }
        ensures faults { CountsFaults self.old.faults self.new.faults result }

        // It gives a whole piece, where there is room for it and as much is left.
        ensures most { IfOk result (λ n. n
            ≡ min (min (length into.old) (source_piece self.old)) (length (drop self.old.at self.old.bytes.items))) }
        ensures calls { source_calls self.new ≡ min (source_calls self.old + 1) (2 ^ 64 - 1) }
        ensures failing { source_failing self.new ≡ source_failing self.old }
        ensures piece { source_piece self.new ≡ source_piece self.old }
    {
        let call = self.calls;
        self.calls = call.saturating_add(1);
        if self.failing.contains(&call) {
            self.faults = self.faults.saturating_add(1);
            return Err(Failed);
        }
        let most = into.len().min(self.piece);
        let count = give(&self.bytes[self.at..], &mut into[..most]);
        self.at += count;
        self.ends = ends_behind(self.ends, count);
        Ok(count)
    }
}

/// Holds what it was given, and fails at the calls whose numbers are listed and where its room is full.
#[derive(Drop)]
pub struct MemorySink {
    kept: Vec<u8>,
    room: usize,
    piece: usize,
    failing: Vec<u64>,
    calls: u64,
    faults: u64,
    ghost fits: { vec_len kept ≤ room },
    ghost reserved: { room ≤ vec_capacity kept },
    ghost moves: { 0 < piece },
}

impl MemorySink {
    ghost use Rattle.sat_outside.specs.Memory.{sink_failing, sink_calls, sink_kept, sink_piece, sink_room};

    /// A sink with room for this many bytes, which takes at most `piece` of them at each call, and fails at the calls
    /// whose numbers are listed, counted from 0, and at those that find its room full. A piece is at least one byte;
    /// the number of calls stays at its last value, 2^64 - 1, so that none of the list is as high. It takes no memory
    /// from now on.
    pub fn new(
        alloc: Global,
        piece: usize,
        failing: Vec<u64>,
        room: usize,
    ) -> Result<MemorySink, AllocError>
        requires moves { 0 < piece }
        requires counted { All (λ call. call < 2 ^ 64 - 1) failing.items }
        ensures told { IfOk result (λ s. (given : List ℕ) → ⟦<MemorySink as Sink>⟧.told s given ≡ Some given) }
        ensures faults { IfOk result (λ s. ⟦<MemorySink as Sink>⟧.faults s ≡ 0) }
        ensures calls { IfOk result (λ s. sink_calls s ≡ 0) }
        ensures failing { IfOk result (λ s. sink_failing s ≡ failing.items) }
        ensures kept { IfOk result (λ s. sink_kept s ≡ []) }
        ensures piece { IfOk result (λ s. sink_piece s ≡ piece) }
        ensures room { IfOk result (λ s. sink_room s ≡ room) }
    {
        let kept = Vec::with_capacity(alloc, room)?;
        Ok(MemorySink {
            kept,
            room,
            piece,
            failing,
            calls: 0,
            faults: 0,
        })
    }

    /// What was kept.
    pub fn held(&self) -> &[u8]
        ensures kept { result.now ≡ sink_kept self.now }
        ensures told { IfSome (⟦<MemorySink as Sink>⟧.told self.now []) (λ held. result.now ≡ held) }
    {
        &self.kept
    }
}

impl Sink for MemorySink {
    ghost use Rattle.sat_outside.specs.Memory.{sink_failing, sink_calls, sink_kept, sink_piece, sink_room};

    ghost told = { λ s. all_told s.kept.items };

    ghost faults = { λ s. s.faults };

    ghost appends = { λ s. all_told-appends s.kept.items };

    fn write(&mut self, piece: &[u8]) -> Result<usize, Failed>
        requires { 0 < length piece.now }
        ensures count { IfOk result (λ n. (0 < n) × (n ≤ length piece.now)) }
        ensures bytes { MatchResult result
            (λ n. Takes (all_told self.old.kept.items) (all_told self.new.kept.items) (take n piece.now))
            (λ _. Takes (all_told self.old.kept.items) (all_told self.new.kept.items) []) }
        ensures cause { HasCause self.old.faults self.new.faults result }

        // It fails at the calls that are listed and where its room is full, and at no others.
        ensures fails { IsErr result ↔ (Contains (sink_failing self.old) (sink_calls self.old)
            ⊎ (length (sink_kept self.old) ≡ sink_room self.old)) }
        ensures faults { CountsFaults self.old.faults self.new.faults result }

        // It takes a whole piece, where there is room for it.
        ensures most { IfOk result (λ n. n
            ≡ min (min (length piece.now) (sink_piece self.old)) (sink_room self.old - length (sink_kept self.old))) }
        ensures piece { sink_piece self.new ≡ sink_piece self.old }
        ensures calls { sink_calls self.new ≡ min (sink_calls self.old + 1) (2 ^ 64 - 1) }
        ensures failing { sink_failing self.new ≡ sink_failing self.old }
        ensures room { sink_room self.new ≡ sink_room self.old }
    {
        let call = self.calls;
        self.calls = call.saturating_add(1);
        let space = self.room - self.kept.len();
        if self.failing.contains(&call) || space == 0 {
            self.faults = self.faults.saturating_add(1);
            return Err(Failed);
        }
        let count = piece.len().min(self.piece).min(space);
        if self.kept.extend_from_slice(&piece[..count]).is_err() {
            unreachable!();
        }
        Ok(count)
    }
}
