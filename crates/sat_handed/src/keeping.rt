//! What a node is handed, put on its disk.
ghost use Rattle.std.specs.Prelude.{◌≡◌, ◌⊎◌, ℕ, ◌^◌, ◌≤◌, true, List, [], ◌∷◌, ◌++◌, IfErr, IfOk, ⊤};
ghost use Rattle.sat_durable.specs.Causes.{Rose};
ghost use Rattle.sat_durable.specs.Disk.{LeftOnly, Rests};
ghost use Rattle.sat_durable.specs.Durables.{disk_of, machine_of, size_of};
ghost use Rattle.sat_durable.specs.Machine.{Keeps, Recovers};
ghost use Rattle.sat_durable.specs.Step.{MatchFault};
ghost use Rattle.sat_log.specs.Logs.{log_meaning, passing};
ghost use Rattle.sat_handed.specs.Handed.{body_of, handed_allows};
ghost use Rattle.sat_handed.specs.Kept.{disk_kept};

use crate::handed::{Handed, body_of};
use sat_durable::{Disk, Durable, StepFault};
use sat_log::{Appended, Bytes, Log};
use std::alloc::Global;

/// Puts what a node is handed on its disk, behind what is there. After `Disk` what the disk holds is to be recovered;
/// after `Memory` all is as before.
pub fn keep<D: Disk>(
    alloc: Global,
    durable: Durable<D, Log>,
    given: &Handed,
) -> Result<Durable<D, Log>, StepFault<D, Log>>
    requires size { size_of durable ≤ 2 ^ 40 }
    requires allowed { handed_allows given.now ≡ true }
    ensures keeps { IfOk result (λ kept. (bodies : List (List ℕ))
        → Keeps log_meaning passing (D.state (disk_of durable)) (machine_of durable) bodies
        → Keeps log_meaning passing (D.state (disk_of kept)) (machine_of kept) (bodies ++ body_of given.now ∷ [])) }
    ensures any_moment { (bodies : List (List ℕ))
        → Keeps log_meaning passing (D.state (disk_of durable)) (machine_of durable) bodies
        → LeftOnly (D.state (disk_of durable)) (D.state (disk_kept result))
        (λ c. Recovers log_meaning passing c bodies
        ⊎ Recovers log_meaning passing c (bodies ++ body_of given.now ∷ [])) }
    ensures memory { IfErr result (λ fault. MatchFault fault (λ disk. ⊤) (λ left. (bodies : List (List ℕ))
        → Keeps log_meaning passing (D.state (disk_of durable)) (machine_of durable) bodies
        → Keeps log_meaning passing (D.state (disk_of left)) (machine_of left) bodies)) }
    ensures faults { IfErr result (λ fault. MatchFault fault
        (λ disk. Rose (D.state (disk_of durable)).faults (D.state disk).faults)
        (λ left. (machine_of left ≡ machine_of durable) × (size_of left ≡ size_of durable)
        × Rests (D.state (disk_of durable)) (D.state (disk_of left)))) }
{
    let bytes = match body_of(alloc, given) {
        Ok(bytes) => bytes,
        Err(_) => return Err(StepFault::Memory(durable)),
    };
    match durable.step(alloc, Bytes::of(bytes)) {
        Ok((durable, Appended)) => Ok(durable),
        Err(fault) => Err(fault),
    }
}
