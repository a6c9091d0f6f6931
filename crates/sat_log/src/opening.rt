//! How a journal of byte strings is begun, read and gone on with.
ghost use Rattle.std.specs.Prelude.{◌≡◌, ℕ, List, [], Err, IfErr, IfOk, ⊤};
ghost use Rattle.sat_durable.specs.Causes.{Rose};
ghost use Rattle.sat_durable.specs.Disk.{DiskState, LeftOnly, Rests};
ghost use Rattle.sat_durable.specs.Durables.{disk_of, machine_of};
ghost use Rattle.sat_durable.specs.Fault.{MatchDurableFault};
ghost use Rattle.sat_durable.specs.Machine.{Keeps, Recovers, recovered};
ghost use Rattle.sat_log.specs.Logs.{disk_opened, gathering, log_meaning, passing};

use crate::Log;
use sat_durable::{Disk, Durable, DurableFault, create, recover};
use std::alloc::Global;

/// A journal of no byte strings, on a disk that is empty.
pub fn begin<D: Disk>(alloc: Global, disk: D) -> Result<Durable<D, Log>, DurableFault<D>>
    requires { (D.state disk).content ≡ [] }
    ensures keeps { IfOk result (λ durable.
        Keeps log_meaning passing (D.state (disk_of durable)) (machine_of durable) []) }
    ensures faults { IfErr result (λ fault. MatchDurableFault fault
        (λ left. Rose (D.state disk).faults (D.state left).faults)
        (λ left at. ⊥)
        (λ left. Rests (D.state disk) (D.state left))) }
{
    create(disk, Log::passing(alloc))
}

/// Reads a journal: it gathers all of its byte strings. What the disk holds stays as it is, and may be gone on with by
/// `resume`.
pub fn read<D: Disk>(alloc: Global, disk: D) -> Result<Durable<D, Log>, DurableFault<D>>
    // The byte strings are those of the journal, and the disk holds what it held.
    ensures bodies { IfOk result (λ durable.
        Recovers log_meaning passing (D.state disk).content (machine_of durable).bodies) }
    ensures content { (D.state (disk_opened result)).content ≡ (D.state disk).content }

    // A journal of byte strings is torn nowhere.
    ensures never_torn { (bodies : List (List ℕ)) → Recovers log_meaning passing (D.state disk).content bodies
        → IfErr result (λ fault. MatchDurableFault fault (λ left. ⊤) (λ left at. ⊥) (λ left. ⊤)) }

    // A stop at any moment leaves nothing that it might not have left before.
    ensures any_moment { LeftOnly (D.state disk) (D.state (disk_opened result)) (D.state disk).may_leave }
    ensures faults { IfErr result (λ fault. MatchDurableFault fault
        (λ left. Rose (D.state disk).faults (D.state left).faults)
        (λ left at. recovered log_meaning gathering (D.state disk).content ≡ Err at)
        (λ left. ⊤)) }
{
    match recover(alloc, disk, Log::gathering(alloc)) {
        Ok(made) => Ok(made.durable),
        Err(fault) => Err(fault),
    }
}

/// Goes on with a journal, and gathers no more.
pub fn resume<D: Disk>(alloc: Global, disk: D) -> Result<Durable<D, Log>, DurableFault<D>>
    ensures keeps { (bodies : List (List ℕ)) → Recovers log_meaning passing (D.state disk).content bodies
        → IfOk result (λ durable.
        Keeps log_meaning passing (D.state (disk_of durable)) (machine_of durable) bodies) }
    ensures content { (D.state (disk_opened result)).content ≡ (D.state disk).content }
    ensures never_torn { (bodies : List (List ℕ)) → Recovers log_meaning passing (D.state disk).content bodies
        → IfErr result (λ fault. MatchDurableFault fault (λ left. ⊤) (λ left at. ⊥) (λ left. ⊤)) }
    ensures any_moment { LeftOnly (D.state disk) (D.state (disk_opened result)) (D.state disk).may_leave }
    ensures faults { IfErr result (λ fault. MatchDurableFault fault
        (λ left. Rose (D.state disk).faults (D.state left).faults)
        (λ left at. recovered log_meaning passing (D.state disk).content ≡ Err at)
        (λ left. ⊤)) }
{
    match recover(alloc, disk, Log::passing(alloc)) {
        Ok(made) => Ok(made.durable),
        Err(fault) => Err(fault),
    }
}
