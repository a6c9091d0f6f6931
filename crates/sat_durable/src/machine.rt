//! A machine whose inputs can be journalled.
ghost use Rattle.std.specs.Prelude.{◌≡◌, ℕ, ◌^◌, ◌<◌, true, List, length, Some, IfOk, OnOk, OnErr};
ghost use Rattle.sat_durable.specs.Journal.{AreBytes};
ghost use Rattle.sat_durable.specs.Machine.{Meaning};

use std::alloc::{AllocError, Global};

/// A machine that takes inputs one by one. What it answers and what it becomes are functions of the machine and the
/// input.
pub trait Machine: Drop {
    type Input: Drop;

    type Output: Drop;

    /// What a step does, and how inputs are written.
    ghost meaning: { Meaning Self Self.Input Self.Output };

    /// Whether the machine takes an input.
    fn fits(&self, input: &Self::Input) -> bool
        ensures { result ≡ meaning.fits self.now input.now };

    /// Takes an input, and answers it. After an error nothing changed.
    fn step(&mut self, input: Self::Input) -> Result<Self::Output, AllocError>
        requires { meaning.fits self.old input ≡ true }
        ensures output { IfOk result (λ output. output ≡ meaning.output self.old input) }
        ensures after { OnOk result (self.new ≡ meaning.after self.old input) }
        ensures err { OnErr result (self.new ≡ self.old) };

    /// The body in a journal of an input that fits. It is read again as that input, and its length fits four bytes.
    fn encode(&self, alloc: Global, input: &Self::Input) -> Result<Vec<u8>, AllocError>
        requires { meaning.fits self.now input.now ≡ true }
        ensures body { IfOk result (λ body. body.items ≡ meaning.body input.now) }
        ensures again { IfOk result (λ body. meaning.input_of body.items ≡ Some input.now) }
        ensures short { IfOk result (λ body. length body.items < 2 ^ 32) };

    /// The input that a body stands for. None where it is the body of no input.
    fn decode(alloc: Global, body: &[u8]) -> Result<Option<Self::Input>, AllocError>
        ensures { IfOk result (λ input. input ≡ meaning.input_of body.now) };

    /// Bytes stand for an input only if they are its body: no other spelling is read.
    ghost exact: { (body : List ℕ) (input : Self.Input) → AreBytes body → meaning.input_of body ≡ Some input
        → body ≡ meaning.body input };
}
