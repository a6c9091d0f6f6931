//! A source and a sink of bytes, by what they tell and by how often they failed.
ghost use Rattle.std.specs.Prelude.{ℕ, ◌<◌, ◌≤◌, List, [], length, take, IfOk, MatchResult};
ghost use Rattle.std.specs.declared.option.Option.{Option};
ghost use Rattle.std.specs.Io.{ReadsAtMost};
ghost use Rattle.std.specs.Io.KnownBytes.{ReadConsumes};
ghost use Rattle.sat_outside.specs.Causes.{CountsEnds, HasCause};
ghost use Rattle.sat_outside.specs.Streams.{Appends, Takes};

/// A read or a write didn't happen: nothing was given or taken, and the count of faults rose.
#[derive(Clone, Copy, Debug, PartialEq, Eq)]
pub struct Failed;

/// Where bytes come from. What it still gives is known only where it tells it.
pub trait Source {
    /// The bytes that it still gives, where it tells them.
    ghost left: { Self → Option (List ℕ) };

    /// How often it has failed. It never falls.
    ghost faults: { Self → ℕ };

    /// How often it has said that none are left.
    ghost ends: { Self → ℕ };

    /// Puts some of the bytes that are left, the first ones, into the front of a slice that isn't empty, and answers
    /// how many. 0 means that none are left. `Failed` comes only where the count of faults rose in this call, or stands
    /// at 2^64 - 1.
    fn read(&mut self, into: &mut [u8]) -> Result<usize, Failed>
        requires { 0 < length into.old }
        ensures count { ReadsAtMost result into.new }
        ensures bytes { ReadConsumes (left self.old) (left self.new) result into.new }
        ensures cause { HasCause (faults self.old) (faults self.new) result }
        ensures ends { CountsEnds (ends self.old) (ends self.new) result };
}

/// Where bytes go to. What it holds is known only where it tells it.
pub trait Sink {
    /// What it tells that it holds, once it was given these bytes more.
    ghost told: { Self → List ℕ → Option (List ℕ) };

    /// How often it has failed. It never falls.
    ghost faults: { Self → ℕ };

    /// Takes some of the bytes of a piece that isn't empty, the first ones and at least one, and answers how many.
    /// `Failed` comes only where the count of faults rose in this call, or stands at 2^64 - 1.
    fn write(&mut self, piece: &[u8]) -> Result<usize, Failed>
        requires { 0 < length piece.now }
        ensures count { IfOk result (λ n. (0 < n) × (n ≤ length piece.now)) }
        ensures bytes { MatchResult result (λ n. Takes (told self.old) (told self.new) (take n piece.now))
            (λ _. Takes (told self.old) (told self.new) []) }
        ensures cause { HasCause (faults self.old) (faults self.new) result };

    /// Where it tells what it holds, it told it before, and what it was given since stands behind that.
    ghost appends: { (s : Self) → Appends (told s) };
}
