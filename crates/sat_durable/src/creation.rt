//! How a machine is started on an empty disk.
ghost use Rattle.std.specs.Prelude.{◌≡◌, ◌≤◌, [], ◌∷◌, IfOk, IfErr, IsOk, MatchResult, OnOk, ⊤};
ghost use Rattle.sat_durable.specs.Causes.{HasCause, Rose};
ghost use Rattle.sat_durable.specs.Disk.{DiskState, IsSynced, Rests};
ghost use Rattle.sat_durable.specs.Drills.{IsCalm};
ghost use Rattle.sat_durable.specs.Durables.{disk_of, machine_of};
ghost use Rattle.sat_durable.specs.Machine.{Keeps};
ghost use Rattle.sat_durable.specs.Fault.{MatchDurableFault};

use crate::{Disk, Durable, DurableFault, Failed, Machine};

/// Starts a machine that has taken no input on a disk that is empty.
pub fn create<D: Disk, M: Machine>(disk: D, fresh: M) -> Result<Durable<D, M>, DurableFault<D>>
    requires { (D.state disk).content ≡ [] }
    ensures created { IfOk result
        (λ durable. Keeps M.meaning fresh (D.state (disk_of durable)) (machine_of durable) []) }
    ensures machine { IfOk result (λ durable. machine_of durable ≡ fresh) }
    ensures faults { IfErr result (λ fault. MatchDurableFault fault
        (λ left. Rose (D.state disk).faults (D.state left).faults)
        (λ left at. ⊥)
        (λ left. Rests (D.state disk) (D.state left))) }
    // A disk that will not fail doesn't, and will not.
    ensures calm { IsCalm (D.state disk) → MatchResult result (λ durable. IsCalm (D.state (disk_of durable)))
        (λ fault. MatchDurableFault fault (λ left. ⊥) (λ left at. ⊥) (λ left. ⊤)) }
{
    let mut disk = disk;
    if let Err(_) = disk.room(1) {
        return Err(DurableFault::Memory(disk));
    }
    if let Err(_) = begin(&mut disk) {
        return Err(DurableFault::Disk(disk));
    }
    Ok(Durable {
        disk,
        machine: fresh,
        size: 0,
    })
}

// Writes the closed byte of a journal that has no records.
fn begin<D: Disk>(disk: &mut D) -> Result<(), Failed>
    requires content { (D.state disk.old).content ≡ [] }
    requires room { 1 ≤ (D.state disk.old).room }
    ensures content { OnOk result ((D.state disk.new).content ≡ 0 ∷ []) }
    ensures synced { OnOk result (IsSynced (D.state disk.new)) }
    ensures cause { HasCause (D.state disk.old).faults (D.state disk.new).faults result }
    ensures calm { IsCalm (D.state disk.old) → IsOk result × IsCalm (D.state disk.new) }
{
    disk.write(0, &[0])?;
    disk.sync()
}
