//! A reader that takes a script in pieces.
ghost use Rattle.std.specs.Prelude.{◌≡◌, ◌≢◌, ℕ, ◌+◌, ◌≤◌, true, List, [], ◌∷◌, ◌++◌, length, None, Some, IfSome};
ghost use Rattle.std.specs.Prelude.{IfErr, OnOk, OnErr, MatchOption};
ghost use Rattle.sat_stream.specs.Reading.{reading, UnlessMemory};
ghost use Rattle.sat_script.specs.Spelled.{AreActsOf, HaveNames};
ghost use Rattle.sat_script.specs.Words.{HasNo, IsCut};
ghost use Rattle.sat_act.specs.Limits.{IsDeployment};
ghost use Rattle.sat_act.specs.Deployed.{Deployed};

use crate::limits::MOST_BYTES;
use crate::lines::Lines;
use memchr::memchr;
use sat_act::{Acts, Deployment};
use sat_script::{Cause, LONGEST_LINE, MOST_ACTS, ScriptFault};
use std::alloc::Global;
use std::marker::Model;

// A text before and behind the first place of a byte, where the byte stands in it.
#[inline(always)]
fn cut_at(byte: u8, text: &[u8]) -> Option<(&[u8], &[u8])>
    ensures { MatchOption result (HasNo byte text.now) (λ parts. IsCut byte text.now parts.0.now parts.1.now) }
{
    match memchr(byte, text) {
        Some(at) => Some((&text[..at], &text[at + 1..])),
        None => None,
    }
}

/// What a text is: its deployment, where its header is good, the acts before its first bad line, and the fault, if any.
#[derive(Drop)]
pub struct Reading {
    pub deployment: Option<Deployment>,
    pub acts: Acts,
    pub fault: Option<ScriptFault>,
}

/// Reads a script piece by piece. Of a piece it keeps no more than the beginning of its last line.
#[derive(Drop)]
pub struct ScriptReader {
    lines: Lines,
    begun: Vec<u8>,
}

impl Model for ScriptReader {
    ghost use Rattle.sat_stream.specs.Stream.{Came};
    ghost use Rattle.sat_stream.specs.Coming.{IsComing};

    ghost Value = { Came };

    ghost view = { λ r. record { lines = r.lines; begun = r.begun.items } };

    ghost invariant = { λ r. IsComing r.lines r.begun.items };
}

impl ScriptReader {
    ghost use Rattle.sat_stream.specs.Stream.{will_be, known_fault, Knows, bytes_of, line_of, stuck_with, TakesPiece};
    ghost use Rattle.sat_stream.specs.Stream.{behind, drained, LacksOnlyItsEnd};

    /// A reader at the beginning of a script.
    pub fn new(alloc: Global, live: bool) -> ScriptReader
        ensures script { (text : List ℕ) → will_be result text ≡ reading live text }
        ensures fresh { known_fault result ≡ None }
        ensures counted { bytes_of result ≡ 0 }
    {
        ScriptReader {
            lines: Lines::new(alloc, live),
            begun: Vec::new(alloc),
        }
    }

    // Why the line that has begun can't go on with so many bytes more: it stands behind the end, or is too long.
    fn stuck(&self, more: usize) -> Option<Cause>
        ensures { result ≡ stuck_with self.now.lines.seen.state (length self.now.begun + more) more }
    {
        if self.lines.have_ended() && 0 < more {
            return Some(Cause::AfterEnd);
        }
        if more > LONGEST_LINE - self.begun.len() {
            return Some(Cause::LongLine);
        }
        None
    }

    // Takes bytes of a line that don't end it.
    fn front(&mut self, part: &[u8]) -> Result<(), ScriptFault>
        requires fresh { known_fault self.old ≡ None }
        requires none { HasNo 10 part.now }
        ensures { TakesPiece self.old self.new result part.now }
    {
        if let Some(cause) = self.stuck(part.len()) {
            return Err(self.lines.fail(cause));
        }
        if self.begun.extend_from_slice(part).is_err() {
            return Err(self.lines.fail(Cause::Memory));
        }
        Ok(())
    }

    // Takes the byte that ends the line that has begun. Few lines lie in two pieces, so it takes the line as any other,
    // and the quick call has one caller, into which it goes whole.
    fn begun_line(&mut self) -> Result<(), ScriptFault>
        requires fresh { known_fault self.old ≡ None }
        ensures { TakesPiece self.old self.new result (10 ∷ []) }
    {
        match self.lines.any_line(self.begun.as_slice()) {
            Ok(()) => {
                self.begun.clear();
                Ok(())
            }
            Err(fault) => Err(fault),
        }
    }

    // Takes the last bytes of a line, and the byte that ends it. A line that lies whole in a piece is copied nowhere.
    fn end_of_line(&mut self, part: &[u8]) -> Result<(), ScriptFault>
        requires fresh { known_fault self.old ≡ None }
        requires none { HasNo 10 part.now }
        ensures { TakesPiece self.old self.new result (part.now ++ 10 ∷ []) }
    {
        if self.begun.as_slice().is_empty() {
            return self.lines.line(part);
        }
        match self.front(part) {
            Ok(()) => self.begun_line(),
            Err(fault) => Err(fault),
        }
    }

    // Takes a piece, line by line.
    fn take(&mut self, piece: &[u8]) -> Result<(), ScriptFault>
        requires fresh { known_fault self.old ≡ None }
        ensures { TakesPiece self.old self.new result piece.now }
    {
        let mut rest = piece;
        'lines: while let Some((line, more)) = cut_at(b'\n', rest) {
            if let Err(fault) = self.end_of_line(line) {
                return Err(fault);
            }
            rest = more;
        }
        self.front(rest)
    }

    /// Takes the next piece. The fault of the first bad line comes as soon as it is known.
    pub fn feed(&mut self, piece: &[u8]) -> Result<(), ScriptFault>
        requires fresh { known_fault self.old ≡ None }
        ensures script { UnlessMemory result ((more : List ℕ)
            → will_be self.new more ≡ will_be self.old (piece.now ++ more)) }
        ensures fault { Knows self.new result }
        // Where a fault is known, what comes after it changes nothing.
        ensures settled { OnErr result ((more : List ℕ) → will_be self.new more ≡ will_be self.new []) }
        // The text that came while no fault is known is no longer than the longest good script.
        ensures counted { OnOk result (bytes_of self.old + length piece.now ≤ bytes_of self.new) }
        ensures few { bytes_of self.new ≤ MOST_BYTES }
        // While no fault is known, none of the whole lines is bad.
        ensures lacks { known_fault self.new ≡ None → LacksOnlyItsEnd (will_be self.new []) }
        // A fault stands at the line at which the reader stops, also for want of memory, and all before it is kept.
        ensures line { IfErr result (λ fault. fault.line ≡ line_of self.new) }
    {
        let taken = self.take(piece);
        // The bound holds by what a reader keeps, so it is named.
        let _ = &self.begun;
        taken
    }

    /// The deployment, once the line `begin` has come.
    pub fn deployment(&self) -> &Option<Deployment>
        ensures { result.now ≡ self.now.lines.deployment }
    {
        self.lines.deployment()
    }

    /// Hands out the acts that came since the last call, so that they need not be kept until the end. It takes no
    /// memory.
    pub fn drain(&mut self) -> Acts
        ensures acts { result ≡ self.old.lines.acts }
        ensures rest { self.new ≡ drained self.old }
        // However the text goes on, it is these acts and then what will be read.
        ensures script { (more : List ℕ) → will_be self.old more ≡ behind result (will_be self.new more) }
        ensures sound { IfSome self.old.lines.deployment (λ d. IsDeployment d × HaveNames d × AreActsOf d result) }
        ensures none { self.old.lines.deployment ≡ None → result ≡ [] }
        // A deployment that is known stays, whatever comes.
        ensures stays { (d : Deployed) (more : List ℕ) → self.old.lines.deployment ≡ Some d
            → (will_be self.new more).deployment ≡ Some d }
        // While no fault is known, none of the whole lines is bad.
        ensures lacks { known_fault self.old ≡ None → LacksOnlyItsEnd (will_be self.new []) }
    {
        self.lines.drain()
    }

    /// Takes the memory of a list that `drain` handed out for the acts to come, where none has come since. It changes
    /// nothing else.
    pub fn reuse(&mut self, spent: Acts)
        ensures { self.new ≡ self.old }
    {
        self.lines.reuse(spent);
    }

    /// What the text is that came, at its end.
    #[tactic(auto, unfolding(crate::specs::Stream::will_be))]
    pub fn finish(self) -> Reading
        ensures script { result ≡ will_be self [] }
        ensures sound { IfSome result.deployment (λ d. IsDeployment d × HaveNames d × AreActsOf d result.acts) }
        ensures none { result.deployment ≡ None → result.acts ≡ [] }
        ensures few { length result.acts ≤ MOST_ACTS }
    {
        let ScriptReader { lines, begun } = self;
        lines.finish(begun.as_slice())
    }
}
