//! A script whose sites may stop, from a source to a sink.
ghost use Rattle.sat_follow.specs.HasFollowed.{HasFollowed};
ghost use Rattle.sat_lasting_runs.specs.LastingTexts.{lasting_meaning};

use crate::lasting_lines::lasting_follower;
use sat_follow::{Halt, follow};
use sat_outside::{Sink, Source};
use std::alloc::Global;

/// Answers a script whose sites may stop as it comes: reads a piece, does the acts of the lines in it, writes their
/// answers, and reads on. At the end it writes what the sites hold. It answers 0, or 1 where a line is bad.
pub fn follow_lasting<S: Source, K: Sink>(
    alloc: Global,
    source: &mut S,
    sink: &mut K,
) -> Result<u8, Halt>
    ensures { HasFollowed lasting_meaning result (S.left source.old) (S.left source.new) (K.told sink.old)
        (K.told sink.new)
        (S.faults source.old) (S.faults source.new) (K.faults sink.old) (K.faults sink.new) (S.ends source.old)
        (S.ends source.new) }
{
    let mut follower = lasting_follower(alloc);
    follow(alloc, &mut follower, source, sink)
}
