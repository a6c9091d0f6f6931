//! A machine that survives a stop.
ghost use Rattle.std.specs.Prelude.{◌≡◌, ◌⊎◌, ◌^◌, ◌<◌, ◌≤◌, true, false, List, Some, [], ◌∷◌, ◌++◌, length, IfOk};
ghost use Rattle.std.specs.Prelude.{IfErr};
ghost use Rattle.sat_durable.specs.Causes.{Rose};
ghost use Rattle.sat_durable.specs.Disk.{DiskState, LeftOnly, Rests};
ghost use Rattle.sat_durable.specs.Drills.{StepsTold};
ghost use Rattle.sat_durable.specs.Machine.{Meaning, Keeps, Recovers};
ghost use Rattle.sat_durable.specs.Settled.{IsSettled};
ghost use Rattle.sat_durable.specs.Journal.{record_of};

use crate::adding::{add, recorded};
use crate::{Disk, Machine, MemoryDisk};
use std::alloc::{AllocError, Global};

/// A machine each of whose answered inputs is on a disk.
#[derive(Drop)]
pub struct Durable<D: Disk, M: Machine> {
    pub(crate) disk: D,
    pub(crate) machine: M,
    // how many bytes the records are: the place of the closed byte
    pub(crate) size: u64,
    ghost settled: { IsSettled (D.state disk) size },
}

/// Why a step gave no answer.
#[derive(Drop)]
pub enum StepFault<D: Disk, M: Machine> {
    /// The disk failed. What it holds is to be recovered.
    Disk(D),
    /// Out of memory: all is as before.
    Memory(Durable<D, M>),
}

/// Why a machine wasn't created or recovered. The disk is handed back.
#[derive(Drop)]
pub enum DurableFault<D: Disk> {
    /// The disk failed.
    Disk(D),
    /// What it holds isn't a journal of inputs that fit, from this byte on.
    Torn(D, u64),
    /// Out of memory: what the disk holds is as before.
    Memory(D),
}

impl<D: Disk, M: Machine> Durable<D, M> {
    ghost use Rattle.sat_durable.specs.Durables.{disk_of, machine_of, size_of};
    ghost use Rattle.sat_durable.specs.Step.{disk_after, MatchFault, MatchStep};

    /// How many bytes its records are.
    pub fn size(&self) -> u64
        ensures { result ≡ size_of self.now }
    {
        self.size
    }

    /// The machine.
    pub fn machine(&self) -> &M
        ensures { result.now ≡ machine_of self.now }
    {
        &self.machine
    }

    /// The disk.
    pub fn disk(&self) -> &D
        ensures { result.now ≡ disk_of self.now }
    {
        &self.disk
    }

    /// The disk alone, as after a stop between two calls.
    pub fn into_disk(self) -> D
        ensures { result ≡ disk_of self }
    {
        let Durable {
            disk,
            machine: _,
            size: _,
        } = self;
        disk
    }

    /// Takes an input that fits, puts it on the disk, and answers it. After `Disk` what the disk holds is to be
    /// recovered; after `Memory` all is as before.
    pub fn step(
        self,
        alloc: Global,
        input: M::Input,
    ) -> Result<(Durable<D, M>, M::Output), StepFault<D, M>>
        requires size { size_of self ≤ 2 ^ 40 }
        requires fits { M.meaning.fits (machine_of self) input ≡ true }

        // The answer is the machine's, and from then on the input is on the disk.
        ensures output { IfOk result (λ done. done.1 ≡ M.meaning.output (machine_of self) input) }
        ensures answered { IfOk result (λ done. (fresh : M) (inputs : List M.Input)
            → Keeps M.meaning fresh (D.state (disk_of self)) (machine_of self) inputs
            → Keeps M.meaning fresh (D.state (disk_of done.0)) (machine_of done.0) (inputs ++ input ∷ [])) }

        // A stop at any moment leaves a journal of the inputs from before, and of this one or not.
        ensures any_moment { (fresh : M) (inputs : List M.Input)
            → Keeps M.meaning fresh (D.state (disk_of self)) (machine_of self) inputs
            → LeftOnly (D.state (disk_of self)) (D.state (disk_after result))
            (λ c. Recovers M.meaning fresh c inputs ⊎ Recovers M.meaning fresh c (inputs ++ input ∷ [])) }

        // Why it gave no answer.
        ensures faults { IfErr result (λ fault. MatchFault fault
            (λ disk. Rose (D.state (disk_of self)).faults (D.state disk).faults)
            (λ durable. (machine_of durable ≡ machine_of self) × (size_of durable ≡ size_of self)
            × Rests (D.state (disk_of self)) (D.state (disk_of durable)))) }

        // Where it is known which call fails, so is whether the input is there.
        ensures told { (fresh : M) (inputs : List M.Input)
            → Keeps M.meaning fresh (D.state (disk_of self)) (machine_of self) inputs
            → MatchStep result
            (λ done. StepsTold (D.state (disk_of done.0)) true (λ c. Recovers M.meaning fresh c (inputs ++ input ∷ []))
            (λ c. Recovers M.meaning fresh c inputs) (D.state (disk_of self)).told)
            (λ disk. StepsTold (D.state disk) false (λ c. Recovers M.meaning fresh c (inputs ++ input ∷ []))
            (λ c. Recovers M.meaning fresh c inputs) (D.state (disk_of self)).told)
            (λ durable. (D.state (disk_of durable)).told ≡ (D.state (disk_of self)).told) }
    {
        let record = match record_for(alloc, &self.machine, &input) {
            Ok(record) => record,
            Err(_) => return Err(StepFault::Memory(self)),
        };
        let Durable {
            mut disk,
            mut machine,
            size,
        } = self;
        let end = size + record.len() as u64;
        if let Err(_) = disk.room(end) {
            return Err(StepFault::Memory(Durable {
                disk,
                machine,
                size,
            }));
        }
        let output = match machine.step(input) {
            Ok(output) => output,
            Err(_) => {
                return Err(StepFault::Memory(Durable {
                    disk,
                    machine,
                    size,
                }));
            }
        };
        if let Err(_) = add(&mut disk, size, &record) {
            return Err(StepFault::Disk(disk));
        }
        let durable = Durable {
            disk,
            machine,
            size: end - 1,
        };
        Ok((durable, output))
    }
}

impl<M: Machine> Durable<MemoryDisk, M> {
    ghost use Rattle.sat_durable.specs.Durables.{disk_of, machine_of, size_of};
    ghost use Rattle.sat_durable.specs.Memory.{memory_state, memory_synced, memory_armed, memory_keeps};
    ghost use Rattle.sat_durable.specs.Told.{told as told_of};

    /// Arms the disk, as `MemoryDisk::arm` does. Nothing else changes.
    pub fn arm(&mut self, calls: u64, keep: bool)
        ensures armed { memory_armed (disk_of self.new) ≡ Some calls }
        ensures keeps { memory_keeps (disk_of self.new) ≡ keep }
        ensures rests { Rests (memory_state (disk_of self.old)) (memory_state (disk_of self.new)) }
        ensures machine { machine_of self.new ≡ machine_of self.old }
        ensures size { size_of self.new ≡ size_of self.old }
        ensures told { (memory_state (disk_of self.new)).told
            ≡ told_of (Some calls) keep (memory_synced (disk_of self.old)) }
    {
        self.disk.arm(calls, keep);
    }
}

// The record of an input, and a byte that says that no record follows.
fn record_for<M: Machine>(
    alloc: Global,
    machine: &M,
    input: &M::Input,
) -> Result<Vec<u8>, AllocError>
    requires { M.meaning.fits machine.now input.now ≡ true }
    ensures recorded { IfOk result (λ all. all.items ≡ record_of (M.meaning.body input.now) ++ 0 ∷ []) }
    ensures again { IfOk result (λ _. M.meaning.input_of (M.meaning.body input.now) ≡ Some input.now) }
    ensures short { IfOk result (λ _. length (M.meaning.body input.now) < 2 ^ 32) }
{
    let body = machine.encode(alloc, input)?;
    recorded(alloc, &body)
}
