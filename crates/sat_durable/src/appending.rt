//! A journal that grows in place, for a machine that is kept beside it.
ghost use Rattle.std.specs.Prelude.{◌≡◌, ◌⊎◌, ◌+◌, ◌^◌, ◌<◌, ◌≤◌, true, false, [], ◌∷◌, ◌++◌, length, drop, OnOk};
ghost use Rattle.std.specs.Prelude.{IsErrOf};
ghost use Rattle.sat_durable.specs.Causes.{Rose};
ghost use Rattle.sat_durable.specs.Disk.{DiskState, IsSynced, LeftOnly, Rests};
ghost use Rattle.sat_durable.specs.Drills.{StepsTold};
ghost use Rattle.sat_durable.specs.Journal.{reading, record_of, with_last};
ghost use Rattle.sat_durable.specs.Settled.{IsSettled};

use crate::adding::add;
use crate::{Disk, Durable, Machine, MemoryDisk};
use std::alloc::AllocError;

/// A journal on a disk. Its machine is kept by whom it belongs to, who steps it, and answers once the input's body is
/// here.
#[derive(Drop)]
pub struct Journal<D: Disk> {
    disk: D,
    // how many bytes the records are: the place of the closed byte
    size: u64,
    // whether the disk holds such a journal for sure: not once it has failed
    whole: bool,
    ghost settled: { whole ≡ true → IsSettled (D.state disk) size },
}

/// Why a body wasn't appended.
#[derive(Clone, Copy, Debug, PartialEq, Eq)]
pub enum AppendFault {
    /// The disk failed. What it holds is to be recovered, and nothing more can be appended before that.
    Disk,
    /// Out of memory: the journal is as before.
    Memory,
}

// Makes five bytes and a body behind them the record of that body, and puts a byte behind it that says that no record
// follows.
fn close(buffer: &mut Vec<u8>) -> Result<(), AllocError>
    requires head { 5 ≤ length buffer.old.items }
    requires short { length buffer.old.items < 2 ^ 32 + 5 }
    ensures { OnOk result (buffer.new.items ≡ record_of (drop 5 buffer.old.items) ++ 0 ∷ []) }
{
    let length = (buffer.len() - 5) as u32;
    buffer.push(0)?;
    buffer[0] = 1;
    buffer[1..5].copy_from_slice(&length.to_be_bytes());
    Ok(())
}

impl<D: Disk> Journal<D> {
    ghost use Rattle.sat_durable.specs.Journals.{is_whole, journal_disk, journal_size};

    /// A disk of which it isn't known that it holds a journal. It takes no body.
    pub fn unread(disk: D) -> Journal<D>
        ensures disk { journal_disk result ≡ disk }
        ensures whole { is_whole result ≡ false }
    {
        Journal {
            disk,
            size: 0,
            whole: false,
        }
    }

    /// How many bytes its records are.
    pub fn size(&self) -> u64
        ensures { result ≡ journal_size self.now }
    {
        self.size
    }

    /// Whether its disk has not failed, so that it takes a body more.
    pub fn whole(&self) -> bool
        ensures { result ≡ is_whole self.now }
    {
        self.whole
    }

    /// The disk.
    pub fn disk(&self) -> &D
        ensures { result.now ≡ journal_disk self.now }
    {
        &self.disk
    }

    /// The disk alone, as after a stop between two calls.
    pub fn into_disk(self) -> D
        ensures { result ≡ journal_disk self }
    {
        let Journal {
            disk,
            size: _,
            whole: _,
        } = self;
        disk
    }

    /// Puts a body behind those that are there, and on the disk. It is given behind five bytes, whatever these are, in
    /// which its record begins: so nothing is copied, and the same buffer can serve for each body. What the buffer
    /// holds afterwards isn't said.
    pub fn append(&mut self, buffer: &mut Vec<u8>) -> Result<(), AppendFault>
        requires whole { is_whole self.old ≡ true }
        requires size { journal_size self.old ≤ 2 ^ 40 }
        requires head { 5 ≤ length buffer.old.items }
        requires short { length buffer.old.items < 2 ^ 32 + 5 }

        // The journal has the body, and from then on the disk has it.
        ensures added { OnOk result (reading (D.state (journal_disk self.new)).content
            ≡ with_last (reading (D.state (journal_disk self.old)).content) (drop 5 buffer.old.items)) }
        ensures synced { OnOk result (IsSynced (D.state (journal_disk self.new))) }
        ensures whole { OnOk result (is_whole self.new ≡ true) }

        // A stop at any moment leaves the journal as it was, or with this body.
        ensures any_moment { LeftOnly (D.state (journal_disk self.old)) (D.state (journal_disk self.new))
            (λ c. (reading c ≡ reading (D.state (journal_disk self.old)).content)
            ⊎ (reading c ≡ with_last (reading (D.state (journal_disk self.old)).content) (drop 5 buffer.old.items))) }

        // Why it was not appended.
        ensures failed { IsErrOf result AppendFault.Disk
            → Rose (D.state (journal_disk self.old)).faults (D.state (journal_disk self.new)).faults }
        ensures rests { IsErrOf result AppendFault.Memory → (is_whole self.new ≡ true)
            × (journal_size self.new ≡ journal_size self.old)
            × Rests (D.state (journal_disk self.old)) (D.state (journal_disk self.new)) }

        // Where it is known which call fails, so is whether the body is there.
        ensures told { OnOk result (StepsTold (D.state (journal_disk self.new)) true
            (λ c. reading c ≡ with_last (reading (D.state (journal_disk self.old)).content) (drop 5 buffer.old.items))
            (λ c. reading c ≡ reading (D.state (journal_disk self.old)).content)
            (D.state (journal_disk self.old)).told) }
        ensures cut { IsErrOf result AppendFault.Disk → StepsTold (D.state (journal_disk self.new)) false
            (λ c. reading c ≡ with_last (reading (D.state (journal_disk self.old)).content) (drop 5 buffer.old.items))
            (λ c. reading c ≡ reading (D.state (journal_disk self.old)).content)
            (D.state (journal_disk self.old)).told }
        ensures tells { IsErrOf result AppendFault.Memory
            → (D.state (journal_disk self.new)).told ≡ (D.state (journal_disk self.old)).told }
    {
        if let Err(_) = close(buffer) {
            return Err(AppendFault::Memory);
        }
        let end = self.size + buffer.len() as u64;
        if let Err(_) = self.disk.room(end) {
            return Err(AppendFault::Memory);
        }
        if let Err(_) = add(&mut self.disk, self.size, buffer) {
            self.whole = false;
            return Err(AppendFault::Disk);
        }
        self.size = end - 1;
        Ok(())
    }
}

impl Journal<MemoryDisk> {
    ghost use Rattle.sat_durable.specs.Journals.{is_whole, journal_disk, journal_size};
    ghost use Rattle.sat_durable.specs.Memory.{memory_state, memory_synced, memory_armed, memory_keeps};
    ghost use Rattle.sat_durable.specs.Told.{told as told_of};

    /// Arms the disk, as `MemoryDisk::arm` does. Nothing else changes.
    pub fn arm(&mut self, calls: u64, keep: bool)
        ensures armed { memory_armed (journal_disk self.new) ≡ Some calls }
        ensures keeps { memory_keeps (journal_disk self.new) ≡ keep }
        ensures rests { Rests (memory_state (journal_disk self.old)) (memory_state (journal_disk self.new)) }
        ensures whole { is_whole self.new ≡ is_whole self.old }
        ensures size { journal_size self.new ≡ journal_size self.old }
        ensures told { (memory_state (journal_disk self.new)).told
            ≡ told_of (Some calls) keep (memory_synced (journal_disk self.old)) }
    {
        self.disk.arm(calls, keep);
    }
}

impl<D: Disk, M: Machine> Durable<D, M> {
    ghost use Rattle.sat_durable.specs.Durables.{disk_of, machine_of, size_of};
    ghost use Rattle.sat_durable.specs.Journals.{is_whole, journal_disk, journal_size};

    /// The journal and the machine, apart.
    pub fn into_parts(self) -> (Journal<D>, M)
        ensures disk { journal_disk result.0 ≡ disk_of self }
        ensures machine { result.1 ≡ machine_of self }
        ensures size { journal_size result.0 ≡ size_of self }
        ensures whole { is_whole result.0 ≡ true }
    {
        let Durable {
            disk,
            machine,
            size,
        } = self;
        let journal = Journal {
            disk,
            size,
            whole: true,
        };
        (journal, machine)
    }
}
