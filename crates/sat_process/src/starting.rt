//! How a process begins, on an empty disk or on what a stop left.
ghost use Rattle.std.specs.Prelude.{◌≡◌, ◌≤◌, ◌<◌, [], length, Err, IfErr, IfOk, IfSome, MatchBool, ⊤};
ghost use Rattle.sat_durable.specs.Causes.{Rose};
ghost use Rattle.sat_durable.specs.Disk.{LeftOnly, Rests};
ghost use Rattle.sat_durable.specs.Durables.{disk_of, machine_of};
ghost use Rattle.sat_durable.specs.Machine.{Recovers, recovered};
ghost use Rattle.sat_log.specs.Logs.{gathering, log_meaning, passing};
ghost use Rattle.sat_handed.specs.declared.handed.Handed.{Handed};
ghost use Rattle.sat_handed.specs.Handed.{body_of, input_of};
ghost use Rattle.sat_handed.specs.Told.{IsFed};
ghost use Rattle.sat_process.specs.Keeping.{IsJournalOf};
ghost use Rattle.sat_process.specs.Starting.{Feeds, HasStrange, IsStrange, MatchProcess, NotTaken, disk_begun};
ghost use Rattle.sat_process.specs.Starting.{fault_with, transport_begun};
ghost use Rattle.sat_process.specs.Taking.{Takes};

use crate::hosted::{Became, Hosted};
use crate::process::Process;
use sat_act::Deployment;
use sat_durable::{Disk, Durable, DurableFault};
use sat_handed::{Handed, Transport, input_of};
use sat_host::Host;
use sat_log::{Bytes, Log, begin, read, resume};
use std::alloc::{AllocError, Global};

/// Why there is no process. The disk and the transport are handed back.
#[derive(Drop)]
pub enum ProcessFault<D: Disk, T: Transport> {
    /// The disk failed.
    Disk(D, T),
    /// What the disk holds is no journal, from this byte on.
    Torn(D, T, u64),
    /// It is a journal, and the record of this number, from 0 on, is nothing that this node takes there: it is that of
    /// another node, or of another deployment.
    Strange(D, T, u64),
    /// Out of memory: what the disk holds is as before.
    Memory(D, T),
}

fn fault_of<D: Disk, T: Transport>(fault: DurableFault<D>, transport: T) -> ProcessFault<D, T>
    ensures { result ≡ fault_with fault transport }
{
    match fault {
        DurableFault::Disk(disk) => ProcessFault::Disk(disk, transport),
        DurableFault::Torn(disk, at) => ProcessFault::Torn(disk, transport, at),
        DurableFault::Memory(disk) => ProcessFault::Memory(disk, transport),
    }
}

/// Begins a process with a host at which nothing happened, on a disk that is empty.
pub fn create<D: Disk, T: Transport, M: Hosted>(
    alloc: Global,
    disk: D,
    transport: T,
    host: Host<M>,
    d: &Deployment,
) -> Result<Process<D, T, M>, ProcessFault<D, T>>
    requires disk { (D.state disk).content ≡ [] }
    requires deployment { M.deployment ≡ d.now }
    requires fresh { host.node.entries ≡ [] }
    ensures host { IfOk result (λ process. process.host ≡ host) }
    ensures journal { IfOk result (λ process. IsJournalOf M.asked M.took host (D.state process.disk).content) }
    ensures transport { transport_begun result ≡ transport }
    ensures faults { IfErr result (λ fault. MatchProcess fault
        (λ left. Rose (D.state disk).faults (D.state left).faults)
        (λ left at. ⊥) (λ left number. ⊥)
        (λ left. Rests (D.state disk) (D.state left))) }
{
    let _ = host.node();
    let Ok(deployment) = d.copy() else {
        return Err(ProcessFault::Memory(disk, transport));
    };
    match begin(alloc, disk) {
        Ok(durable) => Ok(Process {
            durable,
            host,
            deployment,
            transport,
            letter: Vec::new(alloc),
        }),
        Err(fault) => Err(fault_of(fault, transport)),
    }
}

// What bytes are the body of, if they are one.
#[tactic(auto, using(sat_handed::specs::Handed::body_exact))]
fn given_in(alloc: Global, bytes: &[u8]) -> Result<Option<Handed>, AllocError>
    ensures found { IfOk result (λ found. found ≡ input_of bytes.now) }
    ensures exact { IfOk result (λ found. IfSome found (λ given. bytes.now ≡ body_of given)) }
{
    input_of(alloc, bytes)
}

// Whether a host took what one record is the body of; where it did not, nothing changed.
fn feed_one<M: Hosted>(
    alloc: Global,
    host: &mut Host<M>,
    d: &Deployment,
    body: &Bytes,
) -> Result<bool, AllocError>
    requires { M.deployment ≡ d.now }
    ensures took { IfOk result (λ took. MatchBool took
        ((given : Handed) × (body.now ≡ body_of given) × Takes M.asked M.took given host.old host.new)
        ((host.new ≡ host.old) × NotTaken M.would host.old (input_of body.now))) }
{
    let found = given_in(alloc, body.as_slice())?;
    let Some(given) = found else {
        return Ok(false);
    };
    let became = M::would(host, d, &given)?;
    if became != Became::Taken {
        return Ok(false);
    }
    M::take(host, d, given)?;
    Ok(true)
}

// Hands a host all that a journal has, in order. Answers how many records it took: all of them, or those before the
// first that it would not take.
fn feed<M: Hosted>(
    alloc: Global,
    host: &mut Host<M>,
    d: &Deployment,
    bodies: &[Bytes],
) -> Result<usize, AllocError>
    requires deployment { M.deployment ≡ d.now }
    requires fresh { host.old.node.entries ≡ [] }
    ensures fed { IfOk result (λ number. Feeds M.asked M.took bodies.now number host.old host.new) }
    ensures least { IfOk result (λ number. number ≤ length bodies.now) }
    ensures strange { IfOk result (λ number. number < length bodies.now
        → IsStrange M.asked M.took M.would bodies.now number) }
{
    let _ = host.node();
    for number in 0..bodies.len() {
        if !feed_one(alloc, host, d, &bodies[number])? {
            return Ok(number);
        }
    }
    Ok(bodies.len())
}

// The process of a host that took what the disk's journal has.
fn go_on<D: Disk, T: Transport, M: Hosted>(
    alloc: Global,
    disk: D,
    transport: T,
    host: Host<M>,
    deployment: Deployment,
) -> Result<Process<D, T, M>, ProcessFault<D, T>>
    requires deployment { deployment ≡ M.deployment }
    requires journal { IsJournalOf M.asked M.took host (D.state disk).content }
    requires fed { IsFed M.asked M.took host.node.entries host.slips }
    ensures host { IfOk result (λ process. process.host ≡ host) }
    ensures content { (D.state (disk_begun result)).content ≡ (D.state disk).content }
    ensures any_moment { LeftOnly (D.state disk) (D.state (disk_begun result)) (D.state disk).may_leave }
    ensures transport { transport_begun result ≡ transport }
    ensures faults { IfErr result (λ fault. MatchProcess fault
        (λ left. Rose 0 (D.state left).faults) (λ left at. ⊥) (λ left number. ⊥) (λ left. ⊤)) }
{
    match resume(alloc, disk) {
        Ok(durable) => Ok(Process {
            durable,
            host,
            deployment,
            transport,
            letter: Vec::new(alloc),
        }),
        Err(fault) => Err(fault_of(fault, transport)),
    }
}

// The same, once the host is handed what the journal has.
fn recover_from<D: Disk, T: Transport, M: Hosted>(
    alloc: Global,
    journal: Durable<D, Log>,
    transport: T,
    host: Host<M>,
    deployment: Deployment,
) -> Result<Process<D, T, M>, ProcessFault<D, T>>
    requires deployment { deployment ≡ M.deployment }
    requires fresh { host.node.entries ≡ [] }
    requires journal { Recovers log_meaning passing (D.state (disk_of journal)).content (machine_of journal).bodies }
    ensures journal { IfOk result (λ process. IsJournalOf M.asked M.took process.host
        (D.state (disk_of journal)).content) }
    ensures name { IfOk result (λ process. process.host.node.name ≡ host.node.name) }
    ensures content { (D.state (disk_begun result)).content ≡ (D.state (disk_of journal)).content }
    ensures any_moment { LeftOnly (D.state (disk_of journal)) (D.state (disk_begun result))
        (D.state (disk_of journal)).may_leave }
    ensures transport { transport_begun result ≡ transport }
    ensures faults { IfErr result (λ fault. MatchProcess fault
        (λ left. Rose 0 (D.state left).faults)
        (λ left at. ⊥)
        (λ left number. HasStrange M.asked M.took M.would (D.state (disk_of journal)).content number)
        (λ left. ⊤)) }
{
    let mut host = host;
    let bodies = journal.machine().bodies();
    let many = bodies.len();
    let fed = feed(alloc, &mut host, &deployment, bodies);
    let disk = journal.into_disk();
    match fed {
        Ok(number) => {
            if number < many {
                return Err(ProcessFault::Strange(disk, transport, number as u64));
            }
            go_on(alloc, disk, transport, host, deployment)
        }
        Err(_) => Err(ProcessFault::Memory(disk, transport)),
    }
}

/// Begins a process again with a host at which nothing happened, from what a stop left on its disk: the host then has
/// taken just what the disk says. What the disk holds stays as it is.
pub fn recover<D: Disk, T: Transport, M: Hosted>(
    alloc: Global,
    disk: D,
    transport: T,
    host: Host<M>,
    d: &Deployment,
) -> Result<Process<D, T, M>, ProcessFault<D, T>>
    requires deployment { M.deployment ≡ d.now }
    requires fresh { host.node.entries ≡ [] }
    ensures journal { IfOk result (λ process. IsJournalOf M.asked M.took process.host (D.state disk).content) }
    ensures name { IfOk result (λ process. process.host.node.name ≡ host.node.name) }
    ensures content { (D.state (disk_begun result)).content ≡ (D.state disk).content }

    // A stop at any moment leaves nothing that it might not have left before.
    ensures any_moment { LeftOnly (D.state disk) (D.state (disk_begun result)) (D.state disk).may_leave }
    ensures transport { transport_begun result ≡ transport }
    ensures faults { IfErr result (λ fault. MatchProcess fault
        (λ left. Rose 0 (D.state left).faults)
        (λ left at. recovered log_meaning gathering (D.state disk).content ≡ Err at)
        (λ left number. HasStrange M.asked M.took M.would (D.state disk).content number)
        (λ left. ⊤)) }
{
    let Ok(deployment) = d.copy() else {
        return Err(ProcessFault::Memory(disk, transport));
    };
    match read(alloc, disk) {
        Ok(journal) => recover_from(alloc, journal, transport, host, deployment),
        Err(fault) => Err(fault_of(fault, transport)),
    }
}
