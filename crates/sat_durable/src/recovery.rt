//! How a machine is made again from what a stop has left.
ghost use Rattle.std.specs.Prelude.{◌≡◌, ℕ, ◌+◌, ◌≤◌, List, length, replicate, Ok, Err, IfOk, IfErr, MatchResult, OnOk};
ghost use Rattle.std.specs.Prelude.{IsErrOf, ⊤};
ghost use Rattle.sat_durable.specs.Causes.{Rose};
ghost use Rattle.sat_durable.specs.Disk.{DiskState, IsSynced, LeavesNoMore, LeftOnly};
ghost use Rattle.sat_durable.specs.Drills.{IsCalm};
ghost use Rattle.sat_durable.specs.Machine.{recovered, Recovers, Keeps};
ghost use Rattle.sat_durable.specs.Durables.{disk_of, machine_of};
ghost use Rattle.sat_durable.specs.Fault.{MatchDurableFault};
ghost use Rattle.sat_durable.specs.Recovering.{disk_recovered};

use crate::replay::{ReplayFault, replay};
use crate::{Disk, Durable, DurableFault, Machine};
use std::alloc::{AllocError, Global};

/// A machine after the inputs of a journal, how many they were, and the output of the last.
#[derive(Drop)]
pub struct Recovered<D: Disk, M: Machine> {
    pub durable: Durable<D, M>,
    pub inputs: u64,
    pub last: Option<M::Output>,
}

#[derive(Clone, Copy, Debug, PartialEq, Eq)]
enum ReadFault {
    Failed,
    Memory,
}

/// Makes a machine again, from one that has taken no input and the disk of a journal: it has just the inputs whose
/// records are whole. The disk's content stays as it is.
pub fn recover<D: Disk, M: Machine>(
    alloc: Global,
    disk: D,
    fresh: M,
) -> Result<Recovered<D, M>, DurableFault<D>>
    // What it makes of the content, whatever that is.
    ensures recovered { IfOk result (λ made. recovered M.meaning fresh (D.state disk).content
        ≡ Ok (record { machine = machine_of made.durable; inputs = made.inputs; last = made.last })) }

    // Of a journal of inputs that fit it makes the machine after just these, and is never torn.
    ensures keeps { IfOk result (λ made. (inputs : List M.Input)
        → Recovers M.meaning fresh (D.state disk).content inputs
        → Keeps M.meaning fresh (D.state (disk_of made.durable)) (machine_of made.durable) inputs) }
    ensures never_torn { (inputs : List M.Input) → Recovers M.meaning fresh (D.state disk).content inputs
        → IfErr result (λ fault. MatchDurableFault fault (λ left. ⊤) (λ left at. ⊥) (λ left. ⊤)) }
    ensures content { (D.state (disk_recovered result)).content ≡ (D.state disk).content }

    // A stop at any moment leaves nothing that it might not have left before.
    ensures any_moment { LeftOnly (D.state disk) (D.state (disk_recovered result)) (D.state disk).may_leave }

    // Why there is no machine.
    ensures faults { IfErr result (λ fault. MatchDurableFault fault
        (λ left. Rose (D.state disk).faults (D.state left).faults)
        (λ left at. recovered M.meaning fresh (D.state disk).content ≡ Err at)
        (λ left. ⊤)) }

    // A disk that will not fail doesn't, and will not.
    ensures calm { IsCalm (D.state disk) → MatchResult result (λ made. IsCalm (D.state (disk_of made.durable)))
        (λ fault. MatchDurableFault fault (λ left. ⊥) (λ left at. ⊤) (λ left. ⊤)) }
{
    let mut disk = disk;
    let bytes = match read_all(alloc, &mut disk) {
        Ok(bytes) => bytes,
        Err(ReadFault::Failed) => return Err(DurableFault::Disk(disk)),
        Err(ReadFault::Memory) => return Err(DurableFault::Memory(disk)),
    };
    let replayed = match replay(alloc, fresh, &bytes) {
        Ok(replayed) => replayed,
        Err(ReplayFault::Torn(at)) => return Err(DurableFault::Torn(disk, at)),
        Err(ReplayFault::Memory) => return Err(DurableFault::Memory(disk)),
    };
    let durable = Durable {
        disk,
        machine: replayed.machine,
        size: replayed.size,
    };
    Ok(Recovered {
        durable,
        inputs: replayed.inputs,
        last: replayed.last,
    })
}

// All that a disk holds, once all of it is synced.
fn read_all<D: Disk>(alloc: Global, disk: &mut D) -> Result<Vec<u8>, ReadFault>
    ensures bytes { IfOk result (λ bytes. bytes.items ≡ (D.state disk.new).content) }
    ensures synced { OnOk result (IsSynced (D.state disk.new)) }
    ensures content { (D.state disk.new).content ≡ (D.state disk.old).content }
    ensures any_moment { LeftOnly (D.state disk.old) (D.state disk.new) (D.state disk.old).may_leave }
    ensures failed { IsErrOf result ReadFault.Failed → Rose (D.state disk.old).faults (D.state disk.new).faults }
    ensures calm { IsCalm (D.state disk.old) → IsCalm (D.state disk.new) }
    ensures fine { IsCalm (D.state disk.old) → IsErrOf result ReadFault.Failed → ⊥ }
{
    if let Err(_) = disk.sync() {
        return Err(ReadFault::Failed);
    }
    let Ok(mut bytes) = zeros(alloc, disk.len() as usize) else {
        return Err(ReadFault::Memory);
    };
    if let Err(_) = disk.read(0, &mut bytes) {
        return Err(ReadFault::Failed);
    }
    Ok(bytes)
}

// So many bytes.
fn zeros(alloc: Global, count: usize) -> Result<Vec<u8>, AllocError>
    ensures { IfOk result (λ bytes. length bytes.items ≡ count) }
{
    vec![in alloc; 0; count]
}
