//! The nodes of a deployment on threads, from a script to their one journal.
ghost use Rattle.std.specs.Prelude.{◌≡◌, [], length, IfOk, IfSome};
ghost use Rattle.std.specs.List.{AllByRecursion, AllZip};
ghost use Rattle.sat_act.specs.Ranges.{IsActOf};
ghost use Rattle.sat_session.specs.Sessions.{IsSession};
ghost use Rattle.sat_cluster.specs.Clusters.{count_given};
ghost use Rattle.sat_crew.specs.Crews.{CameBack, IsFresh};
ghost use Rattle.sat_live.specs.Coming.{AreGiven, IsCame, IsEnded};

use sat_act::{Act, ClientLine, Deployment, Entries};
use sat_cluster::Cluster;
use sat_crew::{CrewFault, crew, fronts};
use sat_finish::{FinishFault, Joint};
use sat_machines::Laid;
use sat_node::{CallFault, Names};
use sat_outside::Gate;
use sat_parts_wires::Wires;
use sat_session::{Noted, Session};
use std::alloc::{AllocError, Global};
use std::sync::Wait;
use std::thread::Threads;
use std::time::Clock;

/// The one journal of nodes and sessions, the oldest entry first; or what a node and a session kept of an act, or what
/// two nodes of one act kept of it, where this is not the same; or that there was no memory.
#[derive(Drop)]
pub(crate) enum Came {
    Whole(Entries),
    Differ {
        node: Option<Noted>,
        session: Option<Noted>,
    },
    Apart {
        lamport: u64,
        home: Option<Joint>,
        other: Option<Joint>,
    },
    Memory,
}

// ---- the sessions

// A session of each client, in the order of the header.
#[tactic(auto, using(crate::proofs::Coming::client_more))]
fn client_sessions<N: Laid + Names>(
    alloc: Global,
    clients: &[ClientLine],
    cluster: &mut Cluster<N>,
) -> Result<Vec<Session<N>>, AllocError>
    requires { AreGiven N.deployment cluster.old.given [] }
    ensures { IfOk result (λ sessions. AreGiven N.deployment cluster.new.given sessions.items) }
{
    let mut sessions = Vec::new(alloc);
    'clients: for line in clients {
        let Ok(session) = cluster.session(alloc, &line.name) else {
            return Err(AllocError);
        };
        sessions.push(session)?;
    }
    Ok(sessions)
}

// The sessions of all clients, and then the operator's.
#[tactic(auto, using(crate::proofs::Coming::operator_more))]
fn all_sessions<N: Laid + Names>(
    alloc: Global,
    clients: &[ClientLine],
    cluster: &mut Cluster<N>,
) -> Result<Vec<Session<N>>, AllocError>
    requires { AreGiven N.deployment cluster.old.given [] }
    ensures { IfOk result (λ sessions. AreGiven N.deployment cluster.new.given sessions.items) }
{
    let mut sessions = client_sessions(alloc, clients, cluster)?;
    let Ok(operator) = cluster.operator(alloc) else {
        return Err(AllocError);
    };
    sessions.push(operator)?;
    Ok(sessions)
}

// ---- their work

// The sessions as they come back of a script. Where a number ran out, what stands is told; None for want of memory.
#[tactic(auto, using(crate::proofs::Coming::through_back))]
fn worked<N: Laid + Names + Send + Sync, R: Threads + Wait + Clock + Sync, G: Gate>(
    rt: &R,
    alloc: Global,
    cluster: &Cluster<N>,
    acts: &[Act],
    sessions: Vec<Session<N>>,
    gate: &G,
) -> Option<Vec<Session<N>>>
    requires acts { AllByRecursion (IsActOf N.deployment) acts.now }
    requires fresh { AllByRecursion IsFresh sessions.items }
    ensures { IfSome result (λ back. AllZip (CameBack N.deployment acts.now) sessions.items back.items) }
{
    match crew(rt, alloc, cluster, acts, sessions, gate) {
        Ok(back) => Some(back),
        Err(CrewFault { fault, sessions }) => match fault {
            CallFault::Worn(_) => Some(sessions),
            CallFault::Memory => None,
        },
    }
}

// Tells the prover what is true of every session; it does nothing else when it runs.
#[tactic(auto, using(crate::proofs::Members::all_next, crate::proofs::Members::all_whole))]
fn are_sessions<N: Laid>(sessions: &[Session<N>])
    ensures { AllByRecursion (IsSession N.deployment) sessions.now }
{
    'sessions: for session in sessions {
        let _ = session.number();
    }
}

// What nodes and sessions kept.
#[tactic(auto, using(crate::proofs::Coming::finished))]
fn ended<N: Laid + Names>(alloc: Global, cluster: Cluster<N>, sessions: Vec<Session<N>>) -> Came
    requires { count_given cluster.given ≡ length sessions.items }
    ensures { IsEnded N.deployment sessions.items result }
{
    match cluster.finish(alloc, sessions) {
        Ok(ended) => Came::Whole(ended.journal),
        Err(FinishFault::Differ { node, session }) => Came::Differ { node, session },
        Err(
            FinishFault::Apart {
                lamport,
                home,
                other,
            },
        ) => Came::Apart {
            lamport,
            home,
            other,
        },
        Err(FinishFault::SessionsOut { .. }) => unreachable!(),
        Err(FinishFault::Memory { .. }) => Came::Memory,
    }
}

/// Does a script at the nodes of N's deployment, on threads, and tells what came of it. The sessions are those of these
/// clients, which are the deployment's, and of the operator.
#[tactic(auto, using(crate::proofs::Coming::none_are, crate::proofs::Coming::as_many, crate::proofs::Coming::came_of))]
pub(crate) fn come<N: Laid + Names + Send + Sync, R: Threads + Wait + Clock + Sync, G: Gate>(
    rt: &R,
    alloc: Global,
    d: Deployment,
    wires: Wires,
    clients: &[ClientLine],
    acts: &[Act],
    gate: &G,
) -> Came
    requires deployment { N.deployment ≡ d }
    requires made { wires.deployment ≡ d }
    requires wires { N.wires ≡ wires.wires }
    requires acts { AllByRecursion (IsActOf N.deployment) acts.now }
    ensures { IsCame N.deployment acts.now result }
{
    // Brings this law into the proof; it does nothing when it runs.
    fronts();
    let Ok(mut cluster) = Cluster::<N>::new(alloc, d, wires) else {
        return Came::Memory;
    };
    let Ok(sessions) = all_sessions(alloc, clients, &mut cluster) else {
        return Came::Memory;
    };
    let Some(sessions) = worked(rt, alloc, &cluster, acts, sessions, gate) else {
        return Came::Memory;
    };
    are_sessions(sessions.as_slice());
    ended(alloc, cluster, sessions)
}
