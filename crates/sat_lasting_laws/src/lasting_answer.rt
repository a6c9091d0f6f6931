//! Answers to acts of a script for sites that last.
use sat_act::Answer;

/// What came of an act.
#[derive(Drop, PartialEq, Eq)]
pub enum LastingAnswer {
    /// The answer of a plain act into which no cut fell.
    Plain(Answer),
    /// The site was made again from so many inputs.
    Recovered(u64),
    /// The cut waits for the next act at its site.
    Armed,
    /// The site stopped in the middle of the act, with the act's input on its disk, and was made again: the act has
    /// this answer.
    Stopped(Answer),
    /// The site stopped in the middle of the act, was made again without its input, and is as before the act.
    StoppedWithout,
}
