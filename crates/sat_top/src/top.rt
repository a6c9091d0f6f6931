//! The top call.
ghost use Rattle.std.specs.Prelude.{ℕ, ◌≡◌, ◌≢◌, ◌≤◌, false, map, string_bytes, Some};
ghost use Rattle.sat_top.specs.declared.words.Command.TheVariants.{Chain, Durable, Place, Run};
ghost use Rattle.sat_top.specs.declared.words.TheConstants.{MOST_REPLICAS};
ghost use Rattle.sat_top.specs.Words.{command_of, is_live};
ghost use Rattle.sat_top.specs.Whole.{reads};
ghost use Rattle.sat_top.specs.Contract.{Meets, MeetsCommand};
ghost use Rattle.sat_top.specs.UnderWay.{followed_status};

use crate::living::lived;
use crate::output::{make_output, place_wide};
use crate::words::{Command, command_of, is_live};
use sat_chain_runs::follow_chains;
use sat_chain_script::good_chain_texts;
use sat_follow::{Halt, write_text};
use sat_lasting_runs::follow_lasting;
use sat_lasting_script::good_lasting_texts;
use sat_outside::{Gate, Sink, Source};
use sat_pieces::{Stop, run_script};
use std::alloc::Global;
use std::sync::Wait;
use std::thread::Threads;
use std::time::Clock;

/// Does the command that the words say, and answers its status. `run`, `chain` and `durable` read a piece, do each
/// whole line in it and write its answer before they read more; the other commands write nothing before they have read
/// all. The statuses: 0, the command was done; 1, the input is refused; 2, the words are no command; 3, the source
/// failed; 4, the sink failed; 5, memory ran out; 7, a history that was judged is not as it should be. It waits for
/// nobody, and so `live` is none of its commands.
pub fn still<S: Source, K: Sink>(
    alloc: Global,
    words: &[String],
    source: &mut S,
    sink: &mut K,
) -> u8
    ensures meets { MeetsCommand (command_of (map string_bytes words.now)) result (S.left source.old)
        (S.left source.new) (K.told sink.old) (K.told sink.new)
        (S.faults source.old) (S.faults source.new) (K.faults sink.old) (K.faults sink.new) (S.ends source.old)
        (S.ends source.new) }
    // Words that ask for no input leave the source as it was.
    ensures unasked { reads (command_of (map string_bytes words.now)) ≡ false → source.new ≡ source.old }
{
    match command_of(words) {
        Some(Command::Run) => streamed(alloc, source, sink),
        Some(Command::Chain { replicas }) => chained(alloc, replicas, source, sink),
        Some(Command::Durable) => lasted(alloc, source, sink),
        _ => told(alloc, words, source, sink),
    }
}

// Runs a script line by line, and answers the status.
#[tactic(auto, using(crate::proofs::Done::is_done, crate::proofs::Done::is_refused, crate::proofs::Done::is_found, crate::proofs::Done::has_status))]
fn streamed<S: Source, K: Sink>(alloc: Global, source: &mut S, sink: &mut K) -> u8
    ensures meets { MeetsCommand (Some Run) result (S.left source.old) (S.left source.new) (K.told sink.old)
        (K.told sink.new)
        (S.faults source.old) (S.faults source.new) (K.faults sink.old) (K.faults sink.new) (S.ends source.old)
        (S.ends source.new) }
{
    match run_script(alloc, source, sink) {
        Ok(status) => status,
        Err(Halt::Source) => 3,
        Err(Halt::Sink) => 4,
        Err(Halt::Memory) => 5,
    }
}

// The status of a text that was followed.
fn status_of(followed: Result<u8, Halt>) -> u8
    ensures { result ≡ followed_status followed }
{
    match followed {
        Ok(status) => status,
        Err(Halt::Source) => 3,
        Err(Halt::Sink) => 4,
        Err(Halt::Memory) => 5,
    }
}

// Runs a script whose serializers are chains of replicas, line by line, and answers the status.
fn chained<S: Source, K: Sink>(alloc: Global, replicas: u16, source: &mut S, sink: &mut K) -> u8
    requires some { 1 ≤ replicas }
    requires few { replicas ≤ MOST_REPLICAS }
    ensures meets { MeetsCommand (Some (Chain replicas)) result (S.left source.old) (S.left source.new)
        (K.told sink.old) (K.told sink.new)
        (S.faults source.old) (S.faults source.new) (K.faults sink.old) (K.faults sink.new) (S.ends source.old)
        (S.ends source.new) }
{
    // Brings this law into the proof; it does nothing when it runs.
    good_chain_texts();
    status_of(follow_chains(alloc, replicas, source, sink))
}

// Runs a script whose sites may stop, line by line, and answers the status.
fn lasted<S: Source, K: Sink>(alloc: Global, source: &mut S, sink: &mut K) -> u8
    ensures meets { MeetsCommand (Some Durable) result (S.left source.old) (S.left source.new)
        (K.told sink.old) (K.told sink.new)
        (S.faults source.old) (S.faults source.new) (K.faults sink.old) (K.faults sink.new) (S.ends source.old)
        (S.ends source.new) }
{
    // Brings this law into the proof; it does nothing when it runs.
    good_lasting_texts();
    status_of(follow_lasting(alloc, source, sink))
}

// Does another command: makes its whole output, writes it, and answers the status.
#[tactic(auto, using(crate::proofs::Done::is_done, crate::proofs::Done::is_refused, crate::proofs::Done::is_found, crate::proofs::Done::has_status))]
fn told<S: Source, K: Sink>(alloc: Global, words: &[String], source: &mut S, sink: &mut K) -> u8
    requires run { command_of (map string_bytes words.now) ≢ Some Run }
    requires durable { command_of (map string_bytes words.now) ≢ Some Durable }
    requires chain { (replicas : ℕ) → command_of (map string_bytes words.now) ≢ Some (Chain replicas) }
    ensures meets { MeetsCommand (command_of (map string_bytes words.now)) result (S.left source.old)
        (S.left source.new) (K.told sink.old) (K.told sink.new)
        (S.faults source.old) (S.faults source.new) (K.faults sink.old) (K.faults sink.new) (S.ends source.old)
        (S.ends source.new) }
    ensures unasked { reads (command_of (map string_bytes words.now)) ≡ false → source.new ≡ source.old }
{
    let output = match make_output(alloc, words, source) {
        Ok(output) => output,
        Err(Stop::Source) => return 3,
        Err(Stop::Memory) => return 5,
    };
    match write_text(sink, output.text.as_slice()) {
        Ok(()) => output.status,
        Err(_) => 4,
    }
}

// Finds the best places of a tree on several threads, and answers the status.
#[tactic(auto, using(crate::proofs::Done::is_done, crate::proofs::Done::is_refused, crate::proofs::Done::is_found, crate::proofs::Done::has_status))]
fn placed<R: AllocGlobal + Threads + Sync, S: Source, K: Sink>(
    rt: &R,
    words: &[String],
    source: &mut S,
    sink: &mut K,
) -> u8
    requires { command_of (map string_bytes words.now) ≡ Some Place }
    ensures meets { MeetsCommand (command_of (map string_bytes words.now)) result (S.left source.old)
        (S.left source.new) (K.told sink.old) (K.told sink.new)
        (S.faults source.old) (S.faults source.new) (K.faults sink.old) (K.faults sink.new) (S.ends source.old)
        (S.ends source.new) }
{
    let _ = words.len();
    let output = match place_wide(rt, rt.alloc(), source) {
        Ok(output) => output,
        Err(Stop::Source) => return 3,
        Err(Stop::Memory) => return 5,
    };
    match write_text(sink, output.text.as_slice()) {
        Ok(()) => output.status,
        Err(_) => 4,
    }
}

/// Does the command that the words say, as [`still`] does, but `place` on several threads; and `live`, whose workers
/// call the gate. Its further statuses: 6, what was kept of one act at two places is not the same; 8, the history is
/// not whole. `live` may wait.
pub fn saturn<R: AllocGlobal + Threads + Wait + Clock + Sync, S: Source, K: Sink, G: Gate>(
    rt: &R,
    words: &[String],
    source: &mut S,
    sink: &mut K,
    gate: &G,
) -> u8
    ensures meets { Meets (map string_bytes words.now) result (S.left source.old) (S.left source.new) (K.told sink.old)
        (K.told sink.new)
        (S.faults source.old) (S.faults source.new) (K.faults sink.old) (K.faults sink.new) (S.ends source.old)
        (S.ends source.new) }
    ensures unasked { is_live (map string_bytes words.now) ≡ false
        → reads (command_of (map string_bytes words.now)) ≡ false → source.new ≡ source.old }
{
    if is_live(words) {
        return lived(rt, source, sink, gate);
    }
    match command_of(words) {
        Some(Command::Place) => placed(rt, words, source, sink),
        _ => still(rt.alloc(), words, source, sink),
    }
}
