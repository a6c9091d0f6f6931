//! A crew at work.
ghost use Rattle.std.specs.Prelude.{◌≡◌, ◌≤◌, ◌+◌, ◌++◌, [], vec_capacity, vec_len, IfErr, IfOk, IfSome, MatchOption};
ghost use Rattle.std.specs.Prelude.{OnOk};
ghost use Rattle.std.specs.List.{AllByRecursion, AllZip};
ghost use Rattle.sat_act.specs.Ranges.{IsActOf};
ghost use Rattle.sat_session.specs.Calls.{IsFault};
ghost use Rattle.sat_crew.specs.Crews.{CameBack, CameThrough, IsFresh};
ghost use Rattle.sat_crew.specs.Workers.{HasFault, IsWell, Works, fault_of, sessions_in};

use crate::fault::CrewFault;
use crate::passing::pass_to_end;
use crate::roll::Roll;
use crate::serving::work;
use crate::worker::{Caller, Passer, Worker};
use sat_act::Act;
use sat_cluster::Cluster;
use sat_label::NodeName;
use sat_machines::Laid;
use sat_node::{CallFault, Names};
use sat_outside::Gate;
use sat_session::Session;
use std::alloc::{AllocError, Global};
use std::sync::Wait;
use std::thread;
use std::thread::Threads;
use std::time::Clock;

// ---- the workers

// The workers of nodes, and room for all workers and for the sessions when they come back.
#[derive(Drop)]
struct Rooms<N: Laid> {
    passers: Vec<Worker<N>>,
    places: Vec<Worker<N>>,
    room: Vec<Session<N>>,
}

// A worker more, for a node.
#[tactic(auto, using(crate::proofs::Hiring::one_passer))]
fn add_passer<N: Laid>(workers: &mut Vec<Worker<N>>, node: NodeName) -> Result<(), AllocError>
    ensures { sessions_in workers.new.items ≡ sessions_in workers.old.items }
{
    workers.push(Worker::Passer(Passer { node, fault: None }))?;
    Ok(())
}

// A worker for each serializer.
fn add_serials<N: Laid + Names>(
    workers: &mut Vec<Worker<N>>,
    cluster: &Cluster<N>,
) -> Result<(), AllocError>
    ensures { sessions_in workers.new.items ≡ sessions_in workers.old.items }
{
    for name in cluster.serializers() {
        if let Err(fault) = add_passer(workers, *name) {
            return Err(fault);
        }
    }
    Ok(())
}

// A worker for each site, which is its hub and its gears.
fn add_sites<N: Laid + Names>(
    workers: &mut Vec<Worker<N>>,
    cluster: &Cluster<N>,
) -> Result<(), AllocError>
    ensures { sessions_in workers.new.items ≡ sessions_in workers.old.items }
{
    for site in 0..cluster.deployment().sites() {
        if let Err(fault) = add_passer(workers, NodeName::Site(site)) {
            return Err(fault);
        }
    }
    Ok(())
}

// A worker for each serializer, and then for each site.
fn passers<N: Laid + Names>(
    alloc: Global,
    cluster: &Cluster<N>,
) -> Result<Vec<Worker<N>>, AllocError>
    ensures { IfOk result (λ workers. sessions_in workers.items ≡ []) }
{
    let mut workers = Vec::new(alloc);
    add_serials(&mut workers, cluster)?;
    add_sites(&mut workers, cluster)?;
    Ok(workers)
}

// All that is made before so many sessions are handed to workers, since nothing may be wanting behind that.
fn make_rooms<N: Laid + Names>(
    alloc: Global,
    cluster: &Cluster<N>,
    count: usize,
) -> Option<Rooms<N>>
    ensures passers { IfSome result (λ r. sessions_in r.passers.items ≡ []) }
    ensures places { IfSome result (λ r. (r.places.items ≡ []) × (count + vec_len r.passers ≤ vec_capacity r.places)) }
    ensures room { IfSome result (λ r. (r.room.items ≡ []) × (count + vec_len r.passers ≤ vec_capacity r.room)) }
{
    let Ok(passers) = passers(alloc, cluster) else {
        return None;
    };
    let Some(most) = count.checked_add(passers.len()) else {
        return None;
    };
    let Ok(places) = Vec::with_capacity(alloc, most) else {
        return None;
    };
    let Ok(room) = Vec::with_capacity(alloc, most) else {
        return None;
    };
    Some(Rooms {
        passers,
        places,
        room,
    })
}

// A worker for each session, in their order. There is room for them.
fn callers<N: Laid>(places: Vec<Worker<N>>, sessions: Vec<Session<N>>) -> Vec<Worker<N>>
    requires { (places.items ≡ []) × (vec_len sessions ≤ vec_capacity places) }
    ensures sessions { sessions_in result.items ≡ sessions.items }
    ensures many { vec_len result ≡ vec_len sessions }
    ensures room { vec_capacity result ≡ vec_capacity places }
{
    let mut workers = places;
    for session in sessions {
        workers.push_reserved(Worker::Caller(Caller {
            session,
            fault: None,
        }));
    }
    workers
}

// Workers behind others. There is room for them.
fn with_passers<N: Laid>(callers: Vec<Worker<N>>, passers: Vec<Worker<N>>) -> Vec<Worker<N>>
    requires { vec_len callers + vec_len passers ≤ vec_capacity callers }
    ensures { result.items ≡ callers.items ++ passers.items }
{
    let mut workers = callers;
    for passer in passers {
        workers.push_reserved(passer);
    }
    workers
}

// All workers: those of the sessions, in their order, and then those of the nodes.
#[tactic(auto, using(crate::proofs::Hiring::hired))]
fn hire<N: Laid>(
    places: Vec<Worker<N>>,
    sessions: Vec<Session<N>>,
    passers: Vec<Worker<N>>,
) -> Vec<Worker<N>>
    requires passers { sessions_in passers.items ≡ [] }
    requires places { (places.items ≡ []) × (vec_len sessions + vec_len passers ≤ vec_capacity places) }
    ensures sessions { sessions_in result.items ≡ sessions.items }
    ensures many { vec_len result ≡ vec_len sessions + vec_len passers }
{
    let callers = callers(places, sessions);
    with_passers(callers, passers)
}

// The sessions that the workers hold. There is room for them.
fn collect<N: Laid>(workers: Vec<Worker<N>>, room: Vec<Session<N>>) -> Vec<Session<N>>
    requires { (room.items ≡ []) × (vec_len workers ≤ vec_capacity room) }
    ensures { result.items ≡ sessions_in workers.items }
{
    let mut sessions = room;
    for worker in workers {
        match worker {
            Worker::Caller(caller) => {
                let Caller { session, fault: _ } = caller;
                sessions.push_reserved(session);
            }
            Worker::Passer(_) => {}
        }
    }
    sessions
}

// ---- the work

// The same fault again.
fn same_fault(fault: &CallFault) -> CallFault
    ensures { result ≡ fault.now }
{
    match fault {
        CallFault::Worn(number) => CallFault::Worn(*number),
        CallFault::Memory => CallFault::Memory,
    }
}

fn same_if(fault: &Option<CallFault>) -> Option<CallFault>
    ensures { result ≡ fault.now }
{
    match fault {
        Some(fault) => Some(same_fault(fault)),
        None => None,
    }
}

// The fault at which a worker stopped, if any.
fn fault_at<N: Laid>(worker: &Worker<N>) -> Option<CallFault>
    ensures { result ≡ fault_of worker.now }
{
    match worker {
        Worker::Caller(caller) => same_if(&caller.fault),
        Worker::Passer(passer) => same_if(&passer.fault),
    }
}

// The first fault at which a worker stopped.
fn first_fault<N: Laid>(workers: &[Worker<N>]) -> Option<CallFault>
    requires { AllByRecursion HasFault workers.now }
    ensures { MatchOption result (AllByRecursion IsWell workers.now) IsFault }
{
    let Some((first, rest)) = workers.split_first() else {
        return None;
    };
    match fault_at(first) {
        Some(fault) => Some(fault),
        None => first_fault(rest),
    }
}

// Each worker works in a thread of its own. Where the system refuses threads, some work one after another in one, in no
// order that anything says: a node's worker then does not wait for a session's that cannot begin.
#[tactic(auto, using(crate::proofs::Hiring::zip_each))]
fn work_all<N: Laid + Names + Send + Sync, R: Threads + Wait + Clock + Sync, G: Gate>(
    rt: &R,
    cluster: &Cluster<N>,
    acts: &[Act],
    workers: &mut [Worker<N>],
    gate: &G,
    roll: &Roll,
)
    requires acts { AllByRecursion (IsActOf N.deployment) acts.now }
    ensures { AllZip (Works N.deployment acts.now) workers.old workers.new }
{
    let threads = workers.len().max(1);
    let each = |_: usize, worker: &mut Worker<N>|
        requires { AllByRecursion (IsActOf N.deployment) acts.now }
        ensures { Works N.deployment acts.entry.now worker.entry.now worker.exit.now }
    { work(rt, cluster, acts, worker, gate, roll) };
    thread::for_each_mut(rt, workers, threads, &each);
}

// The same of a whole list of workers.
fn work_whole<N: Laid + Names + Send + Sync, R: Threads + Wait + Clock + Sync, G: Gate>(
    rt: &R,
    cluster: &Cluster<N>,
    acts: &[Act],
    workers: &mut Vec<Worker<N>>,
    gate: &G,
    roll: &Roll,
)
    requires acts { AllByRecursion (IsActOf N.deployment) acts.now }
    ensures many { vec_len workers.new ≡ vec_len workers.old }
    ensures works { AllZip (Works N.deployment acts.now) workers.old.items workers.new.items }
{
    work_all(rt, cluster, acts, workers.as_mut_slice(), gate, roll);
}

// All workers work, and then the nodes make passes until nothing is left to do. Where a worker stopped at a fault, no
// passes are made.
#[tactic(auto, using(crate::proofs::Hiring::back, crate::proofs::Hiring::through))]
fn run<N: Laid + Names + Send + Sync, R: Threads + Wait + Clock + Sync, G: Gate>(
    rt: &R,
    cluster: &Cluster<N>,
    acts: &[Act],
    workers: &mut Vec<Worker<N>>,
    gate: &G,
    count: u64,
) -> Result<(), CallFault>
    requires acts { AllByRecursion (IsActOf N.deployment) acts.now }
    requires fresh { AllByRecursion IsFresh (sessions_in workers.old.items) }
    ensures many { vec_len workers.new ≡ vec_len workers.old }
    ensures back { AllZip (CameBack N.deployment acts.now) (sessions_in workers.old.items)
        (sessions_in workers.new.items) }
    ensures through { OnOk result
        (AllZip (CameThrough N.deployment acts.now) (sessions_in workers.old.items) (sessions_in workers.new.items)) }
    ensures fault { IfErr result IsFault }
{
    let roll = Roll::new(count);
    work_whole(rt, cluster, acts, workers, gate, &roll);
    match first_fault(workers.as_slice()) {
        Some(fault) => Err(fault),
        None => pass_to_end(rt, cluster, gate),
    }
}

/// Does a script at the nodes of a cluster, on threads: one for each session, which does its acts in their order, one
/// for each serializer, and one for each site, which makes the passes of its hub and of its gears. Passes are made
/// until all sessions' threads have returned, or until for many passes none was at work, as where the system refuses
/// threads. A client whose attach has to wait tries again, `MOST_TRIES` times in a row at the most, and then leaves out
/// its further acts. At the end all nodes make passes until nothing is left to do. After Ok each session did all its
/// acts, or its client gave up at the end of what it did, after exactly so many tries; after an error each did a front
/// of its acts. Each try is of the act that comes next. `Worn`, with the greatest u64, where a worker's call answered
/// it; `Memory`. All sessions come back, in their order.
#[tactic(auto, using(crate::proofs::Hiring::untouched, crate::proofs::Hiring::back_as, crate::proofs::Hiring::through_as))]
pub fn crew<N: Laid + Names + Send + Sync, R: Threads + Wait + Clock + Sync, G: Gate>(
    rt: &R,
    alloc: Global,
    cluster: &Cluster<N>,
    acts: &[Act],
    sessions: Vec<Session<N>>,
    gate: &G,
) -> Result<Vec<Session<N>>, CrewFault<N>>
    requires acts { AllByRecursion (IsActOf N.deployment) acts.now }
    requires fresh { AllByRecursion IsFresh sessions.items }
    ensures ok { IfOk result (λ back. AllZip (CameThrough N.deployment acts.now) sessions.items back.items) }
    ensures err { IfErr result (λ f. IsFault f.fault
        × AllZip (CameBack N.deployment acts.now) sessions.items f.sessions.items) }
{
    let Some(rooms) = make_rooms(alloc, cluster, sessions.len()) else {
        return Err(CrewFault {
            fault: CallFault::Memory,
            sessions,
        });
    };
    let Rooms {
        passers,
        places,
        room,
    } = rooms;
    let count = sessions.len() as u64;
    let mut workers = hire(places, sessions, passers);
    let result = run(rt, cluster, acts, &mut workers, gate, count);
    let sessions = collect(workers, room);
    match result {
        Ok(()) => Ok(sessions),
        Err(fault) => Err(CrewFault { fault, sessions }),
    }
}
