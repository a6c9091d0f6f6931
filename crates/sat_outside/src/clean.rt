//! A source and a sink in memory that never fail.
ghost use Rattle.std.specs.Prelude.{◌≡◌, ◌==◌, ℕ, ◌+◌, ◌-◌, ◌^◌, ◌<◌, ◌≤◌, ◌++◌, List, [], length, take, drop, min};
ghost use Rattle.std.specs.Prelude.{Some, IfOk, IfSome, MatchResult, vec_len, vec_capacity, if◌then◌else◌};
ghost use Rattle.std.specs.Io.{ReadsAtMost};
ghost use Rattle.std.specs.Io.KnownBytes.{ReadConsumes};
ghost use Rattle.sat_outside.specs.Causes.{CountsEnds, HasCause};
ghost use Rattle.sat_outside.specs.Streams.{Takes, told_within, none_told, flagged-appends};

use crate::{Failed, Sink, Source};
use std::alloc::{AllocError, Global};

/// Copies as many bytes as both have room for, and says how many.
pub(crate) fn give(from: &[u8], into: &mut [u8]) -> usize
    ensures count { result ≡ min (length from.now) (length into.old) }
    ensures given { take result into.new ≡ take result from.now }
{
    let count = from.len().min(into.len());
    into[..count].copy_from_slice(&from[..count]);
    count
}

/// A count of ends behind a read that gave so many bytes.
pub(crate) fn ends_behind(ends: u64, count: usize) -> u64
    ensures { result ≡ (if count == 0 then min (ends + 1) (2 ^ 64 - 1) else ends) }
{
    if count == 0 {
        return ends.saturating_add(1);
    }
    ends
}

/// Gives bytes of its own, at most a piece at each call.
#[derive(Drop)]
pub struct CleanSource {
    bytes: Vec<u8>,
    at: usize,
    piece: usize,
    ends: u64,
    ghost within: { at ≤ vec_len bytes },
    ghost moves: { 0 < piece },
}

impl CleanSource {
    ghost use Rattle.sat_outside.specs.Clean.{source_piece};

    /// A source of these bytes, which gives at most `piece` of them at each call. A piece is at least one byte.
    pub fn new(bytes: Vec<u8>, piece: usize) -> CleanSource
        requires { 0 < piece }
        ensures left { ⟦<CleanSource as Source>⟧.left result ≡ Some bytes.items }
        ensures ends { ⟦<CleanSource as Source>⟧.ends result ≡ 0 }
        ensures piece { source_piece result ≡ piece }
    {
        CleanSource {
            bytes,
            at: 0,
            piece,
            ends: 0,
        }
    }
}

impl Source for CleanSource {
    ghost use Rattle.sat_outside.specs.Clean.{source_piece};

    ghost left = { λ s. Some (drop s.at s.bytes.items) };

    ghost faults = { λ _. 0 };

    ghost ends = { λ s. s.ends };

    fn read(&mut self, into: &mut [u8]) -> Result<usize, Failed>
        requires { 0 < length into.old }
        ensures count { ReadsAtMost result into.new }
        ensures bytes { ReadConsumes (Some (drop self.old.at self.old.bytes.items))
            (Some (drop self.new.at self.new.bytes.items)) result into.new }
        ensures cause { HasCause 0 0 result }
        ensures ends { CountsEnds self.old.ends self.new.ends result }

        // It gives a whole piece, where there is room for it and as much is left.
        ensures most { IfOk result (λ n. n
            ≡ min (min (length into.old) (source_piece self.old)) (length (drop self.old.at self.old.bytes.items))) }
        ensures piece { source_piece self.new ≡ source_piece self.old }
    {
        let most = into.len().min(self.piece);
        let count = give(&self.bytes[self.at..], &mut into[..most]);
        self.at += count;
        self.ends = ends_behind(self.ends, count);
        Ok(count)
    }
}

/// Holds what it was given, as far as its room goes, and takes what comes after that without keeping it.
#[derive(Drop)]
pub struct CleanSink {
    kept: Vec<u8>,
    room: usize,
    piece: usize,
    // more came than the room holds
    past: bool,
    ghost fits: { vec_len kept ≤ room },
    ghost reserved: { room ≤ vec_capacity kept },
    ghost moves: { 0 < piece },
}

impl CleanSink {
    ghost use Rattle.sat_outside.specs.Clean.{sink_kept, sink_piece, sink_room};

    /// A sink that keeps nothing, and takes at most `piece` bytes at each call. A piece is at least one byte.
    pub fn new(alloc: Global, piece: usize) -> CleanSink
        requires { 0 < piece }
        ensures told { (given : List ℕ) → ⟦<CleanSink as Sink>⟧.told result given ≡ told_within 0 [] given }
        ensures kept { sink_kept result ≡ [] }
        ensures piece { sink_piece result ≡ piece }
        ensures room { sink_room result ≡ 0 }
    {
        CleanSink {
            kept: Vec::new(alloc),
            room: 0,
            piece,
            past: false,
        }
    }

    /// A sink that keeps the first `room` bytes, and takes at most `piece` bytes at each call. A piece is at least one
    /// byte. It takes no memory from now on.
    pub fn with_room(alloc: Global, piece: usize, room: usize) -> Result<CleanSink, AllocError>
        requires { 0 < piece }
        ensures told { IfOk result (λ s. (given : List ℕ) → ⟦<CleanSink as Sink>⟧.told s given
            ≡ told_within room [] given) }
        ensures kept { IfOk result (λ s. sink_kept s ≡ []) }
        ensures piece { IfOk result (λ s. sink_piece s ≡ piece) }
        ensures room { IfOk result (λ s. sink_room s ≡ room) }
    {
        let kept = Vec::with_capacity(alloc, room)?;
        Ok(CleanSink {
            kept,
            room,
            piece,
            past: false,
        })
    }

    /// What was kept.
    pub fn held(&self) -> &[u8]
        ensures kept { result.now ≡ sink_kept self.now }
        ensures told { IfSome (⟦<CleanSink as Sink>⟧.told self.now []) (λ held. result.now ≡ held) }
    {
        &self.kept
    }
}

impl Sink for CleanSink {
    ghost use Rattle.sat_outside.specs.Clean.{sink_kept, sink_piece, sink_room};

    ghost told = { λ s. if s.past then none_told else told_within s.room s.kept.items };

    ghost faults = { λ _. 0 };

    ghost appends = { λ s. flagged-appends s.past s.room s.kept.items };

    fn write(&mut self, piece: &[u8]) -> Result<usize, Failed>
        requires { 0 < length piece.now }
        ensures count { IfOk result (λ n. (0 < n) × (n ≤ length piece.now)) }
        ensures bytes { MatchResult result
            (λ n. Takes (if self.old.past then none_told else told_within self.old.room self.old.kept.items)
            (if self.new.past then none_told else told_within self.new.room self.new.kept.items) (take n piece.now))
            (λ _. Takes (if self.old.past then none_told else told_within self.old.room self.old.kept.items)
            (if self.new.past then none_told else told_within self.new.room self.new.kept.items) []) }
        ensures cause { HasCause 0 0 result }

        // It takes a whole piece, and keeps of it what the room holds.
        ensures most { IfOk result (λ n. n ≡ min (length piece.now) (sink_piece self.old)) }
        ensures kept { IfOk result (λ n. sink_kept self.new
            ≡ take (sink_room self.old) (sink_kept self.old ++ take n piece.now)) }
        ensures piece { sink_piece self.new ≡ sink_piece self.old }
        ensures room { sink_room self.new ≡ sink_room self.old }
    {
        let count = piece.len().min(self.piece);
        let keep = count.min(self.room - self.kept.len());
        if self.kept.extend_from_slice(&piece[..keep]).is_err() {
            unreachable!();
        }
        if keep < count {
            self.past = true;
        }
        Ok(count)
    }
}
