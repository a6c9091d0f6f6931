//! What a command makes in memory, before anything is written.
ghost use Rattle.std.specs.Prelude.{◌≡◌, ◌≢◌, ◌≤◌, ◌+◌, ℕ, List, IfOk, IsErrOf, Some, true, false, length, map};
ghost use Rattle.std.specs.Prelude.{string_bytes};
ghost use Rattle.std.specs.Io.KnownBytes.{Consumes, IsAtEnd};
ghost use Rattle.sat_outside.specs.Causes.{Rose};
ghost use Rattle.sat_top.specs.declared.words.Command.TheVariants.{Audit, Chain, Durable, Run};
ghost use Rattle.sat_top.specs.Words.{command_of};
ghost use Rattle.sat_top.specs.Whole.{refusal, reads, IsOutput};
ghost use Rattle.sat_top.specs.Contract.{most_taken};
ghost use Rattle.sat_pieces.specs.Streaming.{StopsReading};
ghost use Rattle.sat_top.specs.Streaming.{StopsReadingOf};

use crate::auditing::audit_of;
use crate::drawing::draw_of;
use crate::law::good_drawings;
use crate::loading::load_output;
use crate::placing::{place_of, place_wide_of};
use crate::planning::plan_of;
use crate::stream::{read_delay_text, read_history_text};
use crate::words::{Command, command_of};
use sat_outside::Source;
use sat_pieces::{Stop, read_script};
use sat_stream::sound_readings;
use std::alloc::{AllocError, Global};
use std::thread::Threads;

// What the program says of itself.
const HELP: &str =
    "saturn: causal order between sites that keep some items each\n\nusage: saturn COMMAND < INPUT\n\n  run          reads a script, and writes the report of its run\n  plan         reads a table of delays as JSON, and writes a tree of serializers\n  place        reads the same with a given tree, and writes the best places of its serializers\n  draw         reads a script, and writes a picture of its run as SVG\n  live         reads a script of clients, has nodes on threads do it, and writes its history\n  audit        reads the history of a store, and writes whether it is causal, shown once and fresh\n  chain R      reads a script whose serializers are chains of R replicas, and writes the report of its run\n  durable      reads a script whose sites may stop, and writes the report of its run\n  load SEED N  makes a script of N acts and six more, runs it, and writes a summary\n  --help       writes this text\n  --version    writes the version\n\nstatus: 0 done; 1 the input is refused, and the last line written says where; 2 no such command;\n        3 the input could not be read; 4 the output could not be written; 5 out of memory;\n        6 and 8 what the nodes did is not whole, and the output says why\n        7 the history that was judged is not causal, not shown once or not fresh\n";

const VERSION: &str = "saturn 0.1.0\n";

/// What is to be written, and the status that says so.
#[derive(Drop)]
pub(crate) struct Output {
    pub text: Vec<u8>,
    pub status: u8,
}

fn refusal(alloc: Global) -> Result<Output, AllocError>
    ensures text { IfOk result (λ out. out.text.items ≡ refusal) }
    ensures status { IfOk result (λ out. out.status ≡ 2) }
{
    let text = b"words refused\n".to_vec(alloc)?;
    Ok(Output { text, status: 2 })
}

// A text of the program's own, with status 0.
fn told(alloc: Global, text: &str) -> Result<Output, AllocError>
    ensures text { IfOk result (λ out. out.text.items ≡ text.now) }
    ensures status { IfOk result (λ out. out.status ≡ 0) }
{
    let text = text.as_bytes().to_vec(alloc)?;
    Ok(Output { text, status: 0 })
}

// Reads a script, runs it and draws its run.
fn draw<S: Source>(alloc: Global, source: &mut S) -> Result<Output, Stop>
    ensures output { IfOk result (λ out. IsOutput (Some Command.Draw) (S.left source.old) out.text.items out.status) }
    ensures end { IfOk result (λ out. out.status ≡ 0 → IsAtEnd (S.left source.new)) }
    ensures bounded { (taken : List ℕ) × Consumes (S.left source.old) (S.left source.new) taken
        × (length taken ≤ most_taken (Some Command.Draw)) }
    ensures stops { StopsReading false (S.left source.old) (S.left source.new) }
    ensures once { S.ends source.new ≤ S.ends source.old + 1 }
    ensures later { S.faults source.old ≤ S.faults source.new }
    ensures failed { IsErrOf result Stop.Source → Rose (S.faults source.old) (S.faults source.new) }
{
    // Brings these laws into the proof; they do nothing when they run.
    good_drawings();
    sound_readings();
    let reading = read_script(alloc, source, false)?;
    let output = draw_of(alloc, reading)?;
    Ok(output)
}

// Reads a table of delays, and makes the text of its tree.
fn plan<S: Source>(alloc: Global, source: &mut S) -> Result<Output, Stop>
    ensures output { IfOk result (λ out. IsOutput (Some Command.Plan) (S.left source.old) out.text.items out.status) }
    ensures end { IfOk result (λ out. out.status ≡ 0 → IsAtEnd (S.left source.new)) }
    ensures bounded { (taken : List ℕ) × Consumes (S.left source.old) (S.left source.new) taken
        × (length taken ≤ most_taken (Some Command.Plan)) }
    ensures once { S.ends source.new ≤ S.ends source.old + 1 }
    ensures later { S.faults source.old ≤ S.faults source.new }
    ensures failed { IsErrOf result Stop.Source → Rose (S.faults source.old) (S.faults source.new) }
{
    let text = read_delay_text(alloc, source)?;
    let output = plan_of(alloc, &text)?;
    Ok(output)
}

// Reads a table of delays and a tree, and makes the text of the tree's best places.
fn place<S: Source>(alloc: Global, source: &mut S) -> Result<Output, Stop>
    ensures output { IfOk result (λ out. IsOutput (Some Command.Place) (S.left source.old) out.text.items out.status) }
    ensures end { IfOk result (λ out. out.status ≡ 0 → IsAtEnd (S.left source.new)) }
    ensures bounded { (taken : List ℕ) × Consumes (S.left source.old) (S.left source.new) taken
        × (length taken ≤ most_taken (Some Command.Place)) }
    ensures once { S.ends source.new ≤ S.ends source.old + 1 }
    ensures later { S.faults source.old ≤ S.faults source.new }
    ensures failed { IsErrOf result Stop.Source → Rose (S.faults source.old) (S.faults source.new) }
{
    let text = read_delay_text(alloc, source)?;
    let output = place_of(alloc, &text)?;
    Ok(output)
}

// Reads a history, and makes the verdict on it.
fn judge<S: Source>(alloc: Global, source: &mut S) -> Result<Output, Stop>
    ensures output { IfOk result (λ out. IsOutput (Some Command.Audit) (S.left source.old) out.text.items out.status) }
    ensures end { IfOk result (λ out. out.status ≡ 0 → IsAtEnd (S.left source.new)) }
    ensures found_end { IfOk result (λ out. out.status ≡ 7 → IsAtEnd (S.left source.new)) }
    ensures bounded { (taken : List ℕ) × Consumes (S.left source.old) (S.left source.new) taken
        × (length taken ≤ most_taken (Some Command.Audit)) }
    ensures once { S.ends source.new ≤ S.ends source.old + 1 }
    ensures later { S.faults source.old ≤ S.faults source.new }
    ensures failed { IsErrOf result Stop.Source → Rose (S.faults source.old) (S.faults source.new) }
{
    let text = read_history_text(alloc, source)?;
    let output = audit_of(alloc, &text)?;
    Ok(output)
}

/// The same, made on several threads.
pub(crate) fn place_wide<R: Threads + Sync, S: Source>(
    rt: &R,
    alloc: Global,
    source: &mut S,
) -> Result<Output, Stop>
    ensures output { IfOk result (λ out. IsOutput (Some Command.Place) (S.left source.old) out.text.items out.status) }
    ensures end { IfOk result (λ out. out.status ≡ 0 → IsAtEnd (S.left source.new)) }
    ensures bounded { (taken : List ℕ) × Consumes (S.left source.old) (S.left source.new) taken
        × (length taken ≤ most_taken (Some Command.Place)) }
    ensures once { S.ends source.new ≤ S.ends source.old + 1 }
    ensures later { S.faults source.old ≤ S.faults source.new }
    ensures failed { IsErrOf result Stop.Source → Rose (S.faults source.old) (S.faults source.new) }
{
    let text = read_delay_text(alloc, source)?;
    let output = place_wide_of(rt, alloc, &text)?;
    Ok(output)
}

/// Does the command that the words say, where it writes nothing before its input is read, and makes what is to be
/// written.
pub(crate) fn make_output<S: Source>(
    alloc: Global,
    words: &[String],
    source: &mut S,
) -> Result<Output, Stop>
    requires run { command_of (map string_bytes words.now) ≢ Some Run }
    requires durable { command_of (map string_bytes words.now) ≢ Some Durable }
    requires chain { (replicas : ℕ) → command_of (map string_bytes words.now) ≢ Some (Chain replicas) }
    ensures output { IfOk result
        (λ out. IsOutput (command_of (map string_bytes words.now)) (S.left source.old) out.text.items out.status) }
    ensures end { IfOk result (λ out. reads (command_of (map string_bytes words.now)) ≡ true → out.status ≡ 0
        → IsAtEnd (S.left source.new)) }
    ensures found_end { IfOk result (λ out. command_of (map string_bytes words.now) ≡ Some Audit → out.status ≡ 7
        → IsAtEnd (S.left source.new)) }
    ensures bounded { (taken : List ℕ) × Consumes (S.left source.old) (S.left source.new) taken
        × (length taken ≤ most_taken (command_of (map string_bytes words.now))) }
    ensures stops { StopsReadingOf (command_of (map string_bytes words.now)) (S.left source.old) (S.left source.new) }
    ensures once { S.ends source.new ≤ S.ends source.old + 1 }
    ensures later { S.faults source.old ≤ S.faults source.new }
    ensures failed { IsErrOf result Stop.Source → Rose (S.faults source.old) (S.faults source.new) }
    ensures unasked { reads (command_of (map string_bytes words.now)) ≡ false → source.new ≡ source.old }
    ensures asked { IsErrOf result Stop.Source → reads (command_of (map string_bytes words.now)) ≡ true }
{
    match command_of(words) {
        Some(Command::Run) => unreachable!(),
        Some(Command::Chain { .. }) => unreachable!(),
        Some(Command::Durable) => unreachable!(),
        Some(Command::Draw) => draw(alloc, source),
        Some(Command::Plan) => plan(alloc, source),
        Some(Command::Place) => place(alloc, source),
        Some(Command::Audit) => judge(alloc, source),
        Some(Command::Load { seed, acts }) => {
            let output = load_output(alloc, seed, acts)?;
            Ok(output)
        }
        Some(Command::Help) => {
            let output = told(alloc, HELP)?;
            Ok(output)
        }
        Some(Command::Version) => {
            let output = told(alloc, VERSION)?;
            Ok(output)
        }
        None => {
            let output = refusal(alloc)?;
            Ok(output)
        }
    }
}
