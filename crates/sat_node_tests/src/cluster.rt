//! Two sites and a tree of one serializer, in two threads: the sessions, their calls, the nodes' passes and the end.
ghost use Rattle.std.specs.Prelude.{◌≡◌, ◌<◌, [], ◌∷◌, length, IfOk};
ghost use Rattle.sat_tree.specs.Shape.{TreeShape};
ghost use Rattle.sat_act.specs.declared.deployment.Plan.TheVariants as plan;
ghost use Rattle.sat_act.specs.Ranges.{IsActOf};

use sat_act::{Act, Answer, ClientLine, Deployment, Item, Plan, Refusal};
use sat_cluster::{Cluster, SessionFault};
use sat_finish::FinishFault;
use sat_label::{Name, NodeName, SiteSet, Value};
use sat_machines::Laid;
use sat_node::{CallFault, Names};
use sat_outside::FreeGate;
use sat_parts_wires::Wires;
use sat_session::Session;
use sat_tree::Tree;
use std::alloc::{AllocError, Global};
use std::marker::Brand;
use std::sync::Wait;
use std::test::*;
use std::thread;
use std::thread::Threads;

fn name(alloc: Global, text: &[u8]) -> Result<Name, AllocError> {
    match Name::of(alloc, text)? {
        Some(name) => Ok(name),
        None => Err(AllocError),
    }
}

// A serializer at which both sites sit, and then timestamp order.
fn plans(alloc: Global) -> Result<Vec<Plan>, AllocError>
    ensures { IfOk result (λ plans. (tree : TreeShape) × (plans.items ≡ plan.Tree tree ∷ plan.Stamp ∷ [])
        × (length tree.parents ≡ 1)) }
{
    let parents: [Option<u16>; 1] = [None];
    let seats: [u16; 2] = [0, 0];
    let Ok(tree) = Tree::new(alloc, parents.as_slice(), seats.as_slice()) else {
        return Err(AllocError);
    };
    let mut plans = Vec::new(alloc);
    plans.push(Plan::Tree(tree))?;
    plans.push(Plan::Stamp)?;
    Ok(plans)
}

// Two sites, an item at both, and a client.
fn deployment(alloc: Global) -> Result<Deployment, AllocError>
    ensures { IfOk result (λ d. (d.sites ≡ 2) × (length d.items ≡ 1) × IsActOf d (Act.Kill 1 0)) }
{
    let plans = plans(alloc)?;
    let mut items = Vec::new(alloc);
    items.push(Item {
        name: name(alloc, b"x")?,
        replicas: SiteSet { bits: 3 },
    })?;
    let mut clients = Vec::new(alloc);
    clients.push(ClientLine {
        name: name(alloc, b"a")?,
        site: 0,
    })?;
    match Deployment::new(alloc, 1, 2, 1, items, clients, plans) {
        Ok(d) => Ok(d),
        Err(_) => Err(AllocError),
    }
}

// A session's number, 100 where there is no such client, 101 where it was given.
fn told<N: Laid>(answer: &Result<Session<N>, SessionFault>) -> u64 {
    match answer {
        Ok(session) => u64::from(session.number()),
        Err(SessionFault::NoSuch) => 100,
        Err(SessionFault::Taken) => 101,
        Err(SessionFault::Memory) => 102,
    }
}

fn note(found: &mut Vec<u64>, word: u64) -> Result<(), AllocError> {
    found.push(word)?;
    Ok(())
}

// A number for each answer of this test, 0 for others.
fn code(answer: &Result<Answer, CallFault>) -> u64 {
    match answer {
        Ok(Answer::Wrote(_)) => 1,
        Ok(Answer::ReadSome { .. }) => 2,
        Ok(Answer::Moved(_)) => 3,
        Ok(Answer::Attached) => 4,
        Ok(Answer::Left(_)) => 5,
        Ok(Answer::Closed { .. }) => 6,
        Ok(Answer::Fallen) => 7,
        Ok(Answer::Killed) => 8,
        Ok(Answer::Refused(Refusal::NoSession)) => 9,
        Ok(Answer::Refused(Refusal::Joined)) => 10,
        Ok(Answer::Refused(Refusal::NotYet)) => 11,
        _ => 0,
    }
}

// A pass of a site: of its hub, and of its gear.
fn pass<N: Laid + Names, R: Wait>(rt: &R, cluster: &Cluster<N>, site: u16) {
    let _ = cluster.round(rt, NodeName::Site(site), &FreeGate);
    let _ = cluster.round(rt, NodeName::Gear { site, gear: 0 }, &FreeGate);
}

// Four passes over all nodes.
fn passes<N: Laid + Names, R: Wait>(rt: &R, cluster: &Cluster<N>) {
    for _ in 0..4usize {
        pass(rt, cluster, 0);
        let _ = cluster.round(
            rt,
            NodeName::Serializer {
                epoch: 1,
                number: 0,
            },
            &FreeGate,
        );
        pass(rt, cluster, 1);
    }
}

// The same in two threads at once.
fn together<N: Laid + Names + Send + Sync, R: Threads + Wait + Sync>(rt: &R, cluster: &Cluster<N>) {
    let _ = thread::join(rt, move || passes(rt, cluster), move || passes(rt, cluster));
}

// A client writes at its first site, and goes to the other one.
fn goes<N: Laid + Names, R: Wait>(
    rt: &R,
    cluster: &Cluster<N>,
    session: &mut Session<N>,
    value: &Value,
    found: &mut Vec<u64>,
) -> Result<(), AllocError>
    requires client { session.old.number < length N.deployment.clients }
    requires items { length N.deployment.items ≡ 1 }
    requires sites { N.deployment.sites ≡ 2 }
    ensures number { session.new.number ≡ session.old.number }
{
    note(found, code(&cluster.attach(rt, session, 1)))?;
    note(found, code(&cluster.write(rt, session, 0, value)))?;
    note(found, code(&cluster.move_to(rt, session, 1)))?;
    note(found, code(&cluster.write(rt, session, 0, value)))?;
    note(found, code(&cluster.attach(rt, session, 1)))?;
    Ok(())
}

// And comes there.
fn comes<N: Laid + Names, R: Wait>(
    rt: &R,
    cluster: &Cluster<N>,
    session: &mut Session<N>,
    found: &mut Vec<u64>,
) -> Result<(), AllocError>
    requires client { session.old.number < length N.deployment.clients }
    requires items { length N.deployment.items ≡ 1 }
    requires sites { N.deployment.sites ≡ 2 }
{
    note(found, code(&cluster.attach(rt, session, 1)))?;
    note(found, code(&cluster.read(rt, session, 0)))?;
    note(found, code(&cluster.leave(session)))?;
    Ok(())
}

// The operator's acts.
fn ends<N: Laid + Names, R: Wait>(
    rt: &R,
    cluster: &Cluster<N>,
    session: &mut Session<N>,
    found: &mut Vec<u64>,
) -> Result<(), AllocError>
    requires operator { session.old.number ≡ length N.deployment.clients }
    requires sites { N.deployment.sites ≡ 2 }
    requires serializer { IsActOf N.deployment (Act.Kill 1 0) }
{
    note(found, code(&cluster.close_epoch(rt, session, 0)))?;
    note(found, code(&cluster.fall(rt, session, 0)))?;
    note(found, code(&cluster.kill(rt, session, 1, 0)))?;
    Ok(())
}

// The client's session. Before it was given there is none for another name, and then none for this one.
fn ask_client<N: Laid + Names>(
    alloc: Global,
    cluster: &mut Cluster<N>,
    found: &mut Vec<u64>,
) -> Result<Session<N>, AllocError>
    ensures { IfOk result (λ s. s.number < length N.deployment.clients) }
{
    let known = name(alloc, b"a")?;
    let unknown = name(alloc, b"b")?;
    note(found, told(&cluster.session(alloc, &unknown)))?;
    let Ok(client) = cluster.session(alloc, &known) else {
        return Err(AllocError);
    };
    note(found, told(&cluster.session(alloc, &known)))?;
    Ok(client)
}

// The operator's session, which is given once.
fn ask_operator<N: Laid + Names>(
    alloc: Global,
    cluster: &mut Cluster<N>,
    found: &mut Vec<u64>,
) -> Result<Session<N>, AllocError>
    ensures { IfOk result (λ s. s.number ≡ length N.deployment.clients) }
{
    let Ok(operator) = cluster.operator(alloc) else {
        return Err(AllocError);
    };
    note(found, told(&cluster.operator(alloc)))?;
    Ok(operator)
}

// What both do, with the nodes' passes between.
fn acts<N: Laid + Names + Send + Sync, R: Threads + Wait + Sync>(
    rt: &R,
    cluster: &Cluster<N>,
    client: &mut Session<N>,
    operator: &mut Session<N>,
    value: &Value,
    found: &mut Vec<u64>,
) -> Result<(), AllocError>
    requires client { client.old.number < length N.deployment.clients }
    requires operator { operator.old.number ≡ length N.deployment.clients }
    requires items { length N.deployment.items ≡ 1 }
    requires sites { N.deployment.sites ≡ 2 }
    requires serializer { IsActOf N.deployment (Act.Kill 1 0) }
{
    goes(rt, cluster, client, value, found)?;
    together(rt, cluster);
    passes(rt, cluster);
    comes(rt, cluster, client, found)?;
    ends(rt, cluster, operator, found)
}

// How it ends, as a number: 12 with a journal.
fn finished<N: Laid + Names>(
    alloc: Global,
    cluster: Cluster<N>,
    client: Session<N>,
    operator: Session<N>,
) -> Result<u64, AllocError> {
    let mut sessions = Vec::new(alloc);
    sessions.push(client)?;
    sessions.push(operator)?;
    match cluster.finish(alloc, sessions) {
        Ok(_) => Ok(12),
        Err(_) => Ok(13),
    }
}

fn running<N: Laid + Names + Send + Sync, R: Threads + Wait + Sync>(
    rt: &R,
    alloc: Global,
    d: Deployment,
    wires: Wires,
) -> Result<Vec<u64>, AllocError>
    requires deployment { N.deployment ≡ d }
    requires made { wires.deployment ≡ d }
    requires wires { N.wires ≡ wires.wires }
    requires items { length N.deployment.items ≡ 1 }
    requires sites { N.deployment.sites ≡ 2 }
    requires serializer { IsActOf N.deployment (Act.Kill 1 0) }
{
    let mut cluster = Cluster::<N>::new(alloc, d, wires)?;
    let mut found = Vec::new(alloc);
    let mut client = ask_client(alloc, &mut cluster, &mut found)?;
    let mut operator = ask_operator(alloc, &mut cluster, &mut found)?;
    let Some(value) = Value::of(alloc, b"v")? else {
        return Err(AllocError);
    };
    acts(rt, &cluster, &mut client, &mut operator, &value, &mut found)?;
    let end = finished(alloc, cluster, client, operator)?;
    note(&mut found, end)?;
    Ok(found)
}

// The numbers of sessions given and returned, where one of two comes back; none where that is not told.
fn one_comes_back<N: Laid + Names>(
    alloc: Global,
    d: Deployment,
    wires: Wires,
) -> Result<Vec<u64>, AllocError>
    requires deployment { N.deployment ≡ d }
    requires made { wires.deployment ≡ d }
    requires wires { N.wires ≡ wires.wires }
{
    let mut cluster = Cluster::<N>::new(alloc, d, wires)?;
    let mut found = Vec::new(alloc);
    let client = ask_client(alloc, &mut cluster, &mut found)?;
    let _operator = ask_operator(alloc, &mut cluster, &mut found)?;
    let mut sessions = Vec::new(alloc);
    sessions.push(client)?;
    let mut counts = Vec::new(alloc);
    if let Err(
        FinishFault::SessionsOut {
            given,
            returned,
            ..
        },
    ) = cluster.finish(alloc, sessions)
    {
        counts.push(given)?;
        counts.push(returned)?;
    }
    Ok(counts)
}

#[test]
fn sessions_are_counted(rt: HostRuntime) -> Result<(), Fail> {
    let alloc = rt.alloc();
    let d = deployment(alloc)?;
    let wires = Wires::new(alloc, &d, 3)?;
    let found = one_comes_back::<Brand>(alloc, d, wires)?;
    assert_eq!(rt; found.as_slice(), [2u64, 1].as_slice());
    Ok(())
}

#[test]
fn a_cluster_in_two_threads(rt: HostRuntime) -> Result<(), Fail> {
    let alloc = rt.alloc();
    let d = deployment(alloc)?;
    let wires = Wires::new(alloc, &d, 3)?;
    let found = running::<Brand, _>(&rt, alloc, d, wires)?;
    let rows = [100, 101, 101, 10, 1, 3, 9, 11, 4, 2, 5, 6, 7, 8, 12];
    assert_eq!(rt; found.as_slice(), rows.as_slice());
    Ok(())
}
