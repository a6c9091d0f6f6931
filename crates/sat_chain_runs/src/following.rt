//! A script with chains, from a source to a sink.
ghost use Rattle.std.specs.Prelude.{◌≤◌};
ghost use Rattle.sat_follow.specs.HasFollowed.{HasFollowed};
ghost use Rattle.sat_chain_runs.specs.ChainTexts.{chain_meaning};

use crate::chain_lines::chain_follower;
use sat_follow::{Halt, follow};
use sat_outside::{Sink, Source};
use std::alloc::Global;

/// Answers a script with chains as it comes, where each serializer has 1 to 5 replicas: reads a piece, does the acts of
/// the lines in it, writes their answers, and reads on. At the end it writes what the sites hold. It answers 0, or 1
/// where a line is bad.
pub fn follow_chains<S: Source, K: Sink>(
    alloc: Global,
    replicas: u16,
    source: &mut S,
    sink: &mut K,
) -> Result<u8, Halt>
    requires some { 1 ≤ replicas }
    requires few { replicas ≤ 5 }
    ensures { HasFollowed (chain_meaning replicas) result (S.left source.old) (S.left source.new) (K.told sink.old)
        (K.told sink.new)
        (S.faults source.old) (S.faults source.new) (K.faults sink.old) (K.faults sink.new) (S.ends source.old)
        (S.ends source.new) }
{
    let mut follower = chain_follower(alloc, replicas);
    follow(alloc, &mut follower, source, sink)
}
