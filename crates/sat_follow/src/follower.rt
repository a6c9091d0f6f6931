//! What answers a text that comes in pieces.
ghost use Rattle.std.specs.Prelude.{◌≡◌, ℕ, true, false, List, IfOk};
ghost use Rattle.sat_follow.specs.Meaning.{Meaning, IsAnswered, GoesOn, StopsAt, EndsAt};

use std::alloc::AllocError;

/// No follower takes as many bytes without a bad line.
pub const BYTES_END: u64 = 1_099_511_627_776;

/// Answers a text line by line as it comes. Of the text it keeps what it likes: what is made of a text, and that it has
/// taken just these bytes, is said for contracts alone.
pub trait Follower {
    /// What is made of a text.
    ghost meaning: { Self → Meaning };

    /// It has taken just these bytes, and answered their whole lines, none of which is bad.
    ghost follows: { Self → List ℕ → Type 0 };

    /// Takes a piece, and puts the answers of the lines that end in it in the place of what the text was. Whether none
    /// of them is bad; after a bad line the text is the whole rest of the output, whatever comes, and the status is 1.
    /// After want of memory nothing is known of it.
    fn feed(&mut self, piece: &[u8], text: &mut Vec<u8>) -> Result<bool, AllocError>
        ensures same { meaning self.new ≡ meaning self.old }
        ensures good { IfOk result (λ good. good ≡ true
            → GoesOn (meaning self.old) (follows self.old) (follows self.new) piece.now text.new.items) }
        ensures bad { IfOk result (λ good. good ≡ false
            → StopsAt (meaning self.old) (follows self.old) piece.now text.new.items) };

    /// Says that no more comes, and puts the rest of the output in the place of what the text was. It answers the
    /// text's status. After want of memory nothing is known of it.
    fn finish(&mut self, text: &mut Vec<u8>) -> Result<u8, AllocError>
        ensures { IfOk result (λ status. EndsAt (meaning self.old) (follows self.old) text.new.items status) };

    /// Of the bytes that it has taken none of the whole lines is bad, they are not too many, and the output begins with
    /// their answers.
    ghost answered: { (s : Self) (front : List ℕ) → follows s front → IsAnswered (meaning s) front };
}
