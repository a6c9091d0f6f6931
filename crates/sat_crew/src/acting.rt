//! One act of a script, done by its session.
ghost use Rattle.std.specs.Prelude.{◌≡◌, ◌==◌, ◌&&◌, true, nat_lt, List, length, None, IfErr};
ghost use Rattle.sat_act.specs.declared.act.Act.{Act as Deed};
ghost use Rattle.sat_act.specs.Ranges.{IsActOf};
ghost use Rattle.sat_session.specs.Calls.{IsFault};
ghost use Rattle.sat_session.specs.Notes.{session_at};
ghost use Rattle.sat_undone.specs.Undone.{is_of};
ghost use Rattle.sat_cluster.specs.Doing.{Did};
ghost use Rattle.sat_crew.specs.Crews.{entries_in};
ghost use Rattle.sat_crew.specs.Standing.{Came, Stood, Tried};

use crate::passing::pass_all;
use crate::pause::pause;
use sat_act::{Act, Answer, Deployment};
use sat_cluster::Cluster;
use sat_machines::Laid;
use sat_node::{CallFault, Names};
use sat_outside::Gate;
use sat_session::Session;
use sat_undone::{MOST_TRIES, has_to_wait};
use std::sync::Wait;
use std::time::Clock;

// ---- whose act it is

// Whether the session of this number is that of the client.
fn is_client(clients: usize, number: u16, client: u16) -> bool
    ensures { result ≡ ((nat_lt number clients) && (client == number)) }
{
    usize::from(number) < clients && client == number
}

/// Whether an act is the session's own.
#[tactic(auto, using(crate::proofs::Owning::own_client, crate::proofs::Owning::own_operator))]
pub(crate) fn is_own<N: Laid>(session: &Session<N>, d: &Deployment, act: &Act) -> bool
    requires { N.deployment ≡ d.now }
    ensures { result ≡ is_of (session_at N.deployment session.now.number) act.now }
{
    let clients = d.clients().len();
    let number = session.number();
    match act {
        Act::Write { client, .. } => is_client(clients, number, *client),
        Act::Writes { client, .. } => is_client(clients, number, *client),
        Act::Read { client, .. } => is_client(clients, number, *client),
        Act::Move { client, .. } => is_client(clients, number, *client),
        Act::Leave { client } => is_client(clients, number, *client),
        Act::Attach { client, .. } => is_client(clients, number, *client),
        Act::Close { .. } => usize::from(number) >= clients,
        Act::Fall { .. } => usize::from(number) >= clients,
        Act::Kill { .. } => usize::from(number) >= clients,
        _ => false,
    }
}

// ---- the call of an act

/// The cluster's call of a session's act.
#[tactic(auto, using(crate::proofs::Owning::inside, crate::proofs::Owning::at_operator, crate::proofs::Owning::own_number, crate::proofs::Owning::is_group, sat_cluster::proofs::Doing::as_write, sat_cluster::proofs::Doing::as_writes, sat_cluster::proofs::Doing::as_read, sat_cluster::proofs::Doing::as_move, sat_cluster::proofs::Doing::as_leave, sat_cluster::proofs::Doing::as_attach))]
fn call<N: Laid + Names, R: Wait>(
    rt: &R,
    cluster: &Cluster<N>,
    session: &mut Session<N>,
    act: &Act,
) -> Result<Answer, CallFault>
    requires range { IsActOf N.deployment act.now }
    requires own { is_of (session_at N.deployment session.old.number) act.now ≡ true }
    ensures { Did N.deployment act.now result session.old session.new }
{
    // This brings what is known of the session into the proof.
    let _ = session.number();
    match act {
        Act::Write { item, value, .. } => cluster.write(rt, session, *item, value),
        Act::Writes { items, values, .. } => cluster.writes(rt, session, *items, values),
        Act::Read { item, .. } => cluster.read(rt, session, *item),
        Act::Move { site, .. } => cluster.move_to(rt, session, *site),
        Act::Leave { .. } => cluster.leave(session),
        Act::Attach { site, .. } => cluster.attach(rt, session, *site),
        Act::Close { site } => cluster.close_epoch(rt, session, *site),
        Act::Fall { site } => cluster.fall(rt, session, *site),
        Act::Kill { epoch, serializer } => cluster.kill(rt, session, *epoch, *serializer),
        _ => unreachable!(),
    }
}

// ---- tries

// Tells the gate that a client has an answer.
fn tell<N: Laid, G: Gate>(session: &Session<N>, d: &Deployment, gate: &G) {
    let number = session.number();
    if usize::from(number) < d.clients().len() {
        gate.answered(number, session.noted().len() as u64);
    }
}

/// Calls the act once. Whether it has to wait: then each node has made one pass.
#[tactic(auto, using(crate::proofs::Trying::tried_done, crate::proofs::Trying::tried_waits, crate::proofs::Trying::tried_broken, crate::proofs::Trying::tried_failed))]
fn try_act<N: Laid + Names, R: Wait, G: Gate>(
    rt: &R,
    cluster: &Cluster<N>,
    session: &mut Session<N>,
    act: &Act,
    gate: &G,
) -> Result<bool, CallFault>
    requires range { IsActOf N.deployment act.now }
    requires own { is_of (session_at N.deployment session.old.number) act.now ≡ true }
    ensures number { session.new.number ≡ session.old.number }
    ensures tried { Tried act.now result (entries_in session.old) (entries_in session.new) }
{
    match call(rt, cluster, session, act) {
        Ok(answer) => {
            tell(session, cluster.deployment(), gate);
            if !has_to_wait(act, &answer) {
                return Ok(false);
            }
            match pass_all(rt, cluster, gate) {
                Ok(_) => Ok(true),
                Err(fault) => Err(fault),
            }
        }
        Err(fault) => Err(fault),
    }
}

/// Does the act: an attach that has to wait is tried again, `MOST_TRIES` times in a row at the most. False where the
/// client gave up, after exactly so many.
#[tactic(auto, using(crate::proofs::Trying::trying_start, crate::proofs::Trying::trying_more, crate::proofs::Trying::trying_done, crate::proofs::Trying::trying_failed, crate::proofs::Trying::trying_given_up, crate::proofs::Owning::own_still))]
pub(crate) fn do_act<N: Laid + Names, R: Wait + Clock, G: Gate>(
    rt: &R,
    cluster: &Cluster<N>,
    session: &mut Session<N>,
    act: &Act,
    gate: &G,
) -> Result<bool, CallFault>
    requires range { IsActOf N.deployment act.now }
    requires own { is_of (session_at N.deployment session.old.number) act.now ≡ true }
    ensures number { session.new.number ≡ session.old.number }
    ensures came { (done : List Deed) → Stood done 0 None (entries_in session.old)
        → Came done act.now result (entries_in session.new) }
    ensures fault { IfErr result IsFault }
{
    'trying: for tries in 0..MOST_TRIES {
        match try_act(rt, cluster, session, act, gate) {
            // What it waits for may be another's act, which wants the same lock.
            Ok(true) => pause(rt, tries),
            Ok(false) => return Ok(true),
            Err(fault) => return Err(fault),
        }
    }
    Ok(false)
}
