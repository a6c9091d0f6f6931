//! A script whose acts nodes on threads do.
ghost use Rattle.std.specs.Prelude.{ℕ, ◌≡◌, true, List, IfOk, None};
ghost use Rattle.sat_stream.specs.Laws.{IsRead};
ghost use Rattle.sat_top.specs.Living.{MeetsLive, Tells};

use crate::drawing::fault_output;
use crate::output::Output;
use sat_follow::write_text;
use sat_live::live;
use sat_outside::{Gate, Sink, Source};
use sat_pieces::{Stop, read_script};
use sat_stream::{Reading, one_spelling};
use std::alloc::{AllocError, Global};
use std::sync::Wait;
use std::thread::Threads;
use std::time::Clock;

// Does what was read at nodes on threads, and makes what is told of their history; or the line of the first fault, and
// no node is made.
fn tell<R: Threads + Wait + Clock + Sync, G: Gate>(
    rt: &R,
    alloc: Global,
    reading: Reading,
    gate: &G,
) -> Result<Output, AllocError>
    requires { reading.fault ≡ None → (text : List ℕ) × IsRead true reading text }
    ensures { IfOk result (λ out. Tells reading.deployment reading.acts reading.fault out.text.items out.status) }
{
    let Reading {
        deployment,
        acts,
        fault,
    } = reading;
    if let Some(fault) = fault {
        return fault_output(alloc, &fault);
    }
    match deployment {
        None => unreachable!(),
        Some(deployment) => {
            let told = live(rt, alloc, deployment, acts.as_slice(), gate)?;
            Ok(Output {
                text: told.text,
                status: told.status,
            })
        }
    }
}

/// Reads a script, has nodes on threads do its acts, and writes the history that happened, or why it is not whole. It
/// answers the status.
pub(crate) fn lived<R: AllocGlobal + Threads + Wait + Clock + Sync, S: Source, K: Sink, G: Gate>(
    rt: &R,
    source: &mut S,
    sink: &mut K,
    gate: &G,
) -> u8
    ensures { MeetsLive result (S.left source.old) (S.left source.new) (K.told sink.old) (K.told sink.new)
        (S.faults source.old) (S.faults source.new) (K.faults sink.old) (K.faults sink.new) (S.ends source.old)
        (S.ends source.new) }
{
    // Brings this law into the proof; it does nothing when it runs.
    one_spelling();
    let alloc = rt.alloc();
    let reading = match read_script(alloc, source, true) {
        Ok(reading) => reading,
        Err(Stop::Source) => return 3,
        Err(Stop::Memory) => return 5,
    };
    let output = match tell(rt, alloc, reading, gate) {
        Ok(output) => output,
        Err(_) => return 5,
    };
    match write_text(sink, output.text.as_slice()) {
        Ok(()) => output.status,
        Err(_) => 4,
    }
}
