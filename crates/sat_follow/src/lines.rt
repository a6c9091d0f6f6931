//! A text that is followed line by line.
ghost use Rattle.std.specs.Prelude.{◌≡◌, ◌<◌, true, false, List, [], ◌∷◌, ◌++◌, IfOk, MatchOption};
ghost use Rattle.sat_follow.specs.Meaning.{Meaning, GoesOn, StopsAt, EndsAt};
ghost use Rattle.sat_follow.specs.Rules.{Rules, meaning_of};
ghost use Rattle.sat_follow.specs.ByLines.{GoodLine, BadLine, EndsText, IsStuckAt, Begins, Follows, Adds, Breaks};
ghost use Rattle.sat_follow.specs.ByLines.{HasNoEnd, IsLine};

use crate::follower::Follower;
use memchr::memchr;
use std::alloc::{AllocError, Global};

/// Answers a text whole line by whole line.
pub trait LineFollower {
    /// What the lines so far say.
    ghost State: { Type 0 };

    /// What a line comes to, and the end.
    ghost rules: { Self → Rules State };

    /// It has taken lines that say this.
    ghost stands_for: { Self → State → Type 0 };

    /// Takes a line, without its byte 10, and appends its answer, or the text of its fault where it is bad. Whether it
    /// is good. After a bad line and after want of memory nothing is known of it.
    fn line(&mut self, line: &[u8], text: &mut Vec<u8>) -> Result<bool, AllocError>
        ensures same { rules self.new ≡ rules self.old }
        ensures good { IfOk result (λ good. good ≡ true
            → GoodLine (rules self.old) (stands_for self.old) (stands_for self.new) line.now text.old.items
            text.new.items) }
        ensures bad { IfOk result (λ good. good ≡ false
            → BadLine (rules self.old) (stands_for self.old) line.now text.old.items text.new.items) };

    /// Whether the next line is bad with so many bytes, whatever they are and whatever stands behind them.
    fn is_stuck(&self, count: usize) -> bool
        requires { 0 < count }
        ensures { (s : State) → stands_for self.now s → IsStuckAt (rules self.now) s count result };

    /// Says that no more comes, and that these bytes, none of them 10, stood after the last line. It appends the rest
    /// of the output, and answers the text's status.
    fn finish(&mut self, rest: &[u8], text: &mut Vec<u8>) -> Result<u8, AllocError>
        ensures { IfOk result
            (λ status. EndsText (rules self.old) (stands_for self.old) rest.now text.old.items text.new.items status) };
}

// A text before and behind its first byte 10, where it has one.
#[inline(always)]
fn cut_line(text: &[u8]) -> Option<(&[u8], &[u8])>
    ensures { MatchOption result (HasNoEnd text.now) (λ parts. IsLine text.now parts.0.now parts.1.now) }
{
    match memchr(b'\n', text) {
        Some(at) => Some((&text[..at], &text[at + 1..])),
        None => None,
    }
}

/// Follows a text line by line. Of the text it keeps no more than the beginning of a line.
#[derive(Drop)]
pub struct Lines<L: LineFollower + Drop> {
    each: L,
    begun: Vec<u8>,
}

impl<L: LineFollower + Drop> Lines<L> {
    /// Before the first line.
    pub fn new(alloc: Global, each: L) -> Lines<L>
        requires { Begins (L.rules each) (L.stands_for each) }
        ensures meaning { ⟦<Lines<L> as Follower>⟧.meaning result ≡ meaning_of (L.rules each) }
        ensures fresh { ⟦<Lines<L> as Follower>⟧.follows result [] }
    {
        Lines {
            each,
            begun: Vec::new(alloc),
        }
    }

    // Takes bytes of a line that don't end it.
    fn front(&mut self, part: &[u8], text: &mut Vec<u8>) -> Result<bool, AllocError>
        requires { HasNoEnd part.now }
        ensures same { L.rules self.new.each ≡ L.rules self.old.each }
        ensures good { (r : Rules L.State) → L.rules self.old.each ≡ r
            → IfOk result (λ good. good ≡ true
            → Adds r (Follows r (L.stands_for self.old.each) self.old.begun.items)
            (Follows r (L.stands_for self.new.each) self.new.begun.items) part.now text.old.items text.new.items) }
        ensures bad { (r : Rules L.State) → L.rules self.old.each ≡ r
            → IfOk result (λ good. good ≡ false
            → Breaks r (Follows r (L.stands_for self.old.each) self.old.begun.items) part.now text.old.items
            text.new.items) }
    {
        if part.is_empty() {
            return Ok(true);
        }
        self.begun.extend_from_slice(part)?;
        if self.each.is_stuck(self.begun.len()) {
            let _good = self.each.line(self.begun.as_slice(), text)?;
            return Ok(false);
        }
        Ok(true)
    }

    // Takes the byte that ends the line that has begun.
    #[inline(never)]
    fn begun_line(&mut self, part: &[u8], text: &mut Vec<u8>) -> Result<bool, AllocError>
        requires { HasNoEnd part.now }
        ensures same { L.rules self.new.each ≡ L.rules self.old.each }
        ensures good { (r : Rules L.State) → L.rules self.old.each ≡ r
            → IfOk result (λ good. good ≡ true
            → Adds r (Follows r (L.stands_for self.old.each) self.old.begun.items)
            (Follows r (L.stands_for self.new.each) self.new.begun.items) (part.now ++ 10 ∷ []) text.old.items
            text.new.items) }
        ensures bad { (r : Rules L.State) → L.rules self.old.each ≡ r
            → IfOk result (λ good. good ≡ false
            → Breaks r (Follows r (L.stands_for self.old.each) self.old.begun.items) (part.now ++ 10 ∷ [])
            text.old.items text.new.items) }
    {
        self.begun.extend_from_slice(part)?;
        let good = self.each.line(self.begun.as_slice(), text)?;
        self.begun.clear();
        Ok(good)
    }

    // Takes the last bytes of a line, and the byte that ends it. A line that lies whole in a piece is copied nowhere.
    fn end_of_line(&mut self, part: &[u8], text: &mut Vec<u8>) -> Result<bool, AllocError>
        requires { HasNoEnd part.now }
        ensures same { L.rules self.new.each ≡ L.rules self.old.each }
        ensures good { (r : Rules L.State) → L.rules self.old.each ≡ r
            → IfOk result (λ good. good ≡ true
            → Adds r (Follows r (L.stands_for self.old.each) self.old.begun.items)
            (Follows r (L.stands_for self.new.each) self.new.begun.items) (part.now ++ 10 ∷ []) text.old.items
            text.new.items) }
        ensures bad { (r : Rules L.State) → L.rules self.old.each ≡ r
            → IfOk result (λ good. good ≡ false
            → Breaks r (Follows r (L.stands_for self.old.each) self.old.begun.items) (part.now ++ 10 ∷ [])
            text.old.items text.new.items) }
    {
        if self.begun.as_slice().is_empty() {
            return self.each.line(part, text);
        }
        self.begun_line(part, text)
    }

    // Takes a piece, line by line.
    fn take(&mut self, piece: &[u8], text: &mut Vec<u8>) -> Result<bool, AllocError>
        ensures same { L.rules self.new.each ≡ L.rules self.old.each }
        ensures good { IfOk result (λ good. good ≡ true
            → Adds (L.rules self.old.each)
            (Follows (L.rules self.old.each) (L.stands_for self.old.each) self.old.begun.items)
            (Follows (L.rules self.old.each) (L.stands_for self.new.each) self.new.begun.items) piece.now text.old.items
            text.new.items) }
        ensures bad { IfOk result (λ good. good ≡ false
            → Breaks (L.rules self.old.each) (Follows (L.rules self.old.each) (L.stands_for self.old.each)
            self.old.begun.items) piece.now text.old.items text.new.items) }
    {
        let mut rest = piece;
        'lines: while let Some((line, more)) = cut_line(rest) {
            let good = self.end_of_line(line, text)?;
            if !good {
                return Ok(false);
            }
            rest = more;
        }
        self.front(rest, text)
    }
}

impl<L: LineFollower + Drop> Follower for Lines<L> {
    ghost use Rattle.sat_follow.specs.Rules.{meaning_of};
    ghost use Rattle.sat_follow.specs.ByLines.{Follows};
    ghost use Rattle.sat_follow.specs.Answered.{answered};

    ghost meaning = { λ s. meaning_of (L.rules s.each) };

    ghost follows = { λ s front. Follows (L.rules s.each) (L.stands_for s.each) s.begun.items front };

    ghost answered = { λ s front had. answered (L.rules s.each) (L.stands_for s.each) s.begun.items front had };

    fn feed(&mut self, piece: &[u8], text: &mut Vec<u8>) -> Result<bool, AllocError> {
        text.clear();
        self.take(piece, text)
    }

    fn finish(&mut self, text: &mut Vec<u8>) -> Result<u8, AllocError> {
        text.clear();
        self.each.finish(self.begun.as_slice(), text)
    }
}
