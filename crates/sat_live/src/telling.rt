//! What is printed of a script that nodes on threads did.
ghost use Rattle.std.specs.Prelude.{◌≡◌, ◌++◌, [], List, IfOk};
ghost use Rattle.sat_act.specs.declared.entry.Entry.{Entry};
ghost use Rattle.sat_act.specs.Runs.{IsRun};
ghost use Rattle.sat_act.specs.Settling.{answer_of};
ghost use Rattle.sat_script.specs.Spelled.{AreActsOf, spelling};
ghost use Rattle.sat_world.specs.Stands.{StandsFor};
ghost use Rattle.sat_runs.specs.Running.{IsAnswering};
ghost use Rattle.sat_outcome.specs.Texts.{apart_text, differ_text, undone_text, unsettled_text};
ghost use Rattle.sat_live.specs.Coming.{IsJournalOf};
ghost use Rattle.sat_live.specs.Told.{IsTold};
ghost use Rattle.sat_live.specs.Telling.{CanBeTold, CanPartsBeTold, IsRunTold};

use crate::lines::acts_in;
use crate::names::have_names;
use crate::notes::{can_be_told, can_parts_be_told};
use sat_act::{Act, Answer, Deployment, Entry};
use sat_finish::Joint;
use sat_outcome::{write_apart, write_differ, write_undone, write_unsettled};
use sat_report::write_holdings;
use sat_runs::{answer_acts, good_runs};
use sat_script::write_script;
use sat_session::Noted;
use sat_settle::settle;
use sat_stream::one_beginning;
use sat_undone::{doing, undone};
use sat_world::World;
use std::alloc::{AllocError, Global};

/// What is printed of a script that nodes on threads did, and the status that says what it is: 0 for the script of
/// their journal and its report, 6 for a difference between a node and a session or between two nodes of one act, 8 for
/// the first act that is lacking, or for a settle with something left to do.
#[derive(Drop)]
pub struct Told {
    pub text: Vec<u8>,
    pub status: u8,
}

// ---- the run of a journal's acts

// A new world, after acts of its deployment, with the text of their answers.
fn run_again(
    alloc: Global,
    d: &Deployment,
    done: &[Act],
    text: &mut Vec<u8>,
) -> Result<World, AllocError>
    requires { AreActsOf d.now done.now }
    ensures deployment { IfOk result (λ world. world.deployment ≡ d.now) }
    ensures running { IfOk result (λ world. text.old.items ≡ [] → IsAnswering d.now world text.new.items done.now) }
{
    let copy = d.copy()?;
    let mut world = World::new(alloc, copy)?;
    answer_acts(&mut world, 0, done, text)?;
    Ok(world)
}

// A settle: in how many rounds it did something, and how many acts it did.
fn settled(world: &mut World) -> Result<(u64, u64), AllocError>
    requires { (h : List Entry) × IsRun world.old.deployment h × StandsFor world.old h }
    ensures { IfOk result (λ r. (h : List Entry) → IsRun world.old.deployment h → StandsFor world.old h
        → answer_of world.old.deployment h Act.Settle ≡ Answer.Settled r.0 r.1) }
{
    let answer = settle(world)?;
    match answer {
        Answer::Settled { rounds, done } => Ok((rounds, done)),
        _ => unreachable!(),
    }
}

// ---- the texts

fn tell_unsettled(alloc: Global, rounds: u64, moves: u64) -> Result<Told, AllocError>
    ensures text { IfOk result (λ told. told.text.items ≡ unsettled_text rounds moves) }
    ensures status { IfOk result (λ told. told.status ≡ 8) }
{
    let mut text = Vec::new(alloc);
    write_unsettled(rounds, moves, &mut text)?;
    Ok(Told { text, status: 8 })
}

fn tell_undone(alloc: Global, d: &Deployment, act: &Act) -> Result<Told, AllocError>
    ensures text { IfOk result (λ told. told.text.items ≡ undone_text d.now act.now) }
    ensures status { IfOk result (λ told. told.status ≡ 8) }
{
    let mut text = Vec::new(alloc);
    write_undone(d, act, &mut text)?;
    Ok(Told { text, status: 8 })
}

/// What is told where a node and a session did not keep the same of an act of a script. Notes that can't be told, which
/// no node and no session keeps, are answered as want of memory.
pub(crate) fn tell_differ(
    alloc: Global,
    d: &Deployment,
    acts: &[Act],
    node: &Option<Noted>,
    session: &Option<Noted>,
) -> Result<Told, AllocError>
    ensures text { IfOk result (λ told. told.text.items ≡ differ_text d.now node.now session.now) }
    ensures status { IfOk result (λ told. told.status ≡ 6) }
    ensures notes { IfOk result (λ _. CanBeTold d.now acts.now node.now session.now) }
{
    if !can_be_told(d, acts, node, session) {
        return Err(AllocError);
    }
    let mut text = Vec::new(alloc);
    write_differ(d, node, session, &mut text)?;
    Ok(Told { text, status: 6 })
}

/// What is told where two nodes did not keep the same of one act. Parts that can't be told, which no node keeps, are
/// answered as want of memory.
pub(crate) fn tell_apart(
    alloc: Global,
    d: &Deployment,
    acts: &[Act],
    lamport: u64,
    home: &Option<Joint>,
    other: &Option<Joint>,
) -> Result<Told, AllocError>
    ensures text { IfOk result (λ told. told.text.items ≡ apart_text d.now lamport home.now other.now) }
    ensures status { IfOk result (λ told. told.status ≡ 6) }
    ensures parts { IfOk result (λ _. CanPartsBeTold d.now acts.now home.now other.now) }
{
    if !can_parts_be_told(d, acts, home, other) {
        return Err(AllocError);
    }
    let mut text = Vec::new(alloc);
    write_apart(d, lamport, home, other, &mut text)?;
    Ok(Told { text, status: 6 })
}

// The script of the acts, and behind it a report.
fn tell_script(
    alloc: Global,
    d: &Deployment,
    done: &[Act],
    report: &[u8],
) -> Result<Told, AllocError>
    ensures text { IfOk result (λ told. told.text.items ≡ spelling d.now done.now ++ report.now) }
    ensures status { IfOk result (λ told. told.status ≡ 0) }
{
    let mut text = Vec::new(alloc);
    write_script(d, done, &mut text)?;
    text.extend_from_slice(report)?;
    Ok(Told { text, status: 0 })
}

// Runs the acts again, and tells of their run: its script and report, or that a settle behind them has something left
// to do.
#[tactic(auto, using(crate::proofs::Reruns::script_told, crate::proofs::Reruns::unsettled_told, crate::proofs::Reruns::stands_for))]
fn tell_run(alloc: Global, d: &Deployment, done: &[Act]) -> Result<Told, AllocError>
    requires { AreActsOf d.now done.now }
    ensures { IfOk result (λ told. IsRunTold d.now done.now told.text.items told.status) }
{
    let mut report = Vec::new(alloc);
    let mut world = run_again(alloc, d, done, &mut report)?;
    write_holdings(&world, &mut report)?;
    let (rounds, moves) = settled(&mut world)?;
    if rounds == 0 {
        tell_script(alloc, d, done, report.as_slice())
    } else {
        tell_unsettled(alloc, rounds, moves)
    }
}

/// What is told of a journal, the oldest entry first, of nodes and sessions that did these acts.
#[tactic(auto, using(crate::proofs::Journals::known_acts, crate::proofs::Outcomes::told_undone, crate::proofs::Outcomes::told_run))]
pub(crate) fn tell(
    alloc: Global,
    d: &Deployment,
    acts: &[Act],
    journal: &[Entry],
) -> Result<Told, AllocError>
    requires acts { AreActsOf d.now acts.now }
    requires journal { IsJournalOf d.now acts.now journal.now }
    ensures { IfOk result (λ told. IsTold d.now acts.now told.text.items told.status) }
{
    // Brings these laws into the proof; they do nothing when they run.
    good_runs();
    doing();
    one_beginning();
    have_names(d);
    let done = acts_in(alloc, d, journal)?;
    let clients = d.clients().len() as u16;
    match undone(alloc, clients, journal, acts)? {
        Some(act) => tell_undone(alloc, d, act),
        None => tell_run(alloc, d, done.as_slice()),
    }
}
