//! The journal of what a site was handed, beside the site in the world.
ghost use Rattle.std.specs.Prelude.{◌≡◌, ◌<◌, List, [], ◌∷◌, length, None, IfOk, OnOk, if◌then◌else◌};
ghost use Rattle.sat_durable.specs.Drills.{IsCalm};
ghost use Rattle.sat_durable.specs.Journals.{is_whole};
ghost use Rattle.sat_durable.specs.Machine.{Recovers};
ghost use Rattle.sat_durable.specs.Memory.{memory_keeps, memory_state, memory_synced};
ghost use Rattle.sat_durable.specs.Told.{told as told_of};
ghost use Rattle.sat_site.specs.declared.input.SiteInput.{SiteInput as InputSeen};
ghost use Rattle.sat_lasting.specs.Sites.{fresh_kept, site_meaning};
ghost use Rattle.sat_lasting.specs.Slots.{Arms, IsFew, SlotFits, SlotKeeps, StepsKept, StepsSlot, TakesNext, is_there};
ghost use Rattle.sat_lasting.specs.Slots.{slot_disk};

use crate::KeptSite;
use crate::cut::Cut;
use crate::kept_site::put_body;
use sat_act::Deployment;
use sat_durable::{AppendFault, Journal, MemoryDisk, create, recover};
use sat_site::SiteInput;
use std::alloc::{AllocError, Global};

/// The most bytes of records behind which one more is written. Two copies of so many are in no memory.
const MOST_BYTES: u64 = 1 << 40;

/// The journal of a site's inputs. Where memory was missing to make the site again it isn't whole.
#[derive(Drop)]
pub(crate) struct Slot {
    journal: Journal<MemoryDisk>,
}

impl Slot {
    /// A site at which nothing has happened, with a disk that has no record.
    pub(crate) fn new(alloc: Global, d: &Deployment, site: u16) -> Result<Slot, AllocError>
        requires { site < d.now.sites }
        ensures { IfOk result (λ slot. SlotKeeps d.now site [] slot) }
    {
        let fresh = KeptSite::new(alloc, d, site)?;
        let disk = MemoryDisk::new(alloc);
        match create(disk, fresh) {
            Ok(durable) => {
                let (journal, _) = durable.into_parts();
                Ok(Slot { journal })
            }
            Err(_) => Err(AllocError),
        }
    }

    /// The disk.
    pub(crate) fn disk(&self) -> &MemoryDisk
        ensures { result.now ≡ slot_disk self.now }
    {
        self.journal.disk()
    }

    // Takes the disk out, as it is after a crash.
    fn crashed(&mut self, alloc: Global) -> MemoryDisk
        ensures left { (memory_state (slot_disk self.old)).may_leave (memory_state result).content }
        ensures content { (memory_state result).content ≡ (if memory_keeps (slot_disk self.old)
            then (memory_state (slot_disk self.old)).content else memory_synced (slot_disk self.old)) }
        ensures told { (memory_state result).told
            ≡ told_of None (memory_keeps (slot_disk self.old)) (memory_state result).content }
    {
        let away = Journal::unread(MemoryDisk::new(alloc));
        let journal = std::mem::replace(&mut self.journal, away);
        journal.into_disk().crash()
    }

    /// Stops the site between two acts and makes it again from its disk, and tells from how many inputs.
    pub(crate) fn stop(
        &mut self,
        alloc: Global,
        d: &Deployment,
        site: u16,
    ) -> Result<u64, AllocError>
        requires { site < d.now.sites }
        ensures { IfOk result (λ count. (inputs : List InputSeen) → SlotKeeps d.now site inputs self.old
            → SlotKeeps d.now site inputs self.new × (count ≡ length inputs)) }
    {
        let disk = self.crashed(alloc);
        let (slot, count) = made_again(alloc, d, site, disk)?;
        *self = slot;
        Ok(count)
    }

    /// Puts an input into the journal, which is cut off where a cut falls into it, and tells whether the input is
    /// there. Where it was cut off the site is made again. The buffer is for the input's record.
    pub(crate) fn step(
        &mut self,
        alloc: Global,
        d: &Deployment,
        site: u16,
        input: &SiteInput,
        cut: Option<Cut>,
        buffer: &mut Vec<u8>,
    ) -> Result<bool, AllocError>
        requires site { site < d.now.sites }
        requires fits { SlotFits input.now self.old }
        requires few { IsFew cut }
        ensures { IfOk result (λ there. (inputs : List InputSeen) → TakesNext d.now site inputs input.now
            → SlotKeeps d.now site inputs self.old → StepsSlot d.now site inputs input.now cut there self.new) }
    {
        self.arm(cut);
        if self.take(input, buffer)? {
            return Ok(true);
        }
        let disk = self.crashed(alloc);
        let (slot, _) = made_again(alloc, d, site, disk)?;
        *self = slot;
        Ok(is_left(cut))
    }

    // Arms the disk, where a cut waits.
    fn arm(&mut self, cut: Option<Cut>)
        ensures whole { is_whole self.new.journal ≡ is_whole self.old.journal }
        ensures waits { Arms cut (memory_state (slot_disk self.old)) (memory_state (slot_disk self.new)) }
    {
        if let Some(cut) = cut {
            self.journal.arm(cut.calls, cut.keep);
        }
    }

    // Appends an input, and tells whether the disk did all of its calls, and did not fail where it was armed.
    fn take(&mut self, input: &SiteInput, buffer: &mut Vec<u8>) -> Result<bool, AllocError>
        requires { SlotFits input.now self.old }
        ensures { IfOk result (λ done. StepsKept self.old input.now done self.new) }
    {
        if self.journal.size() > MOST_BYTES {
            return Err(AllocError);
        }
        begin(buffer)?;
        put_body(input, buffer)?;
        match self.journal.append(buffer) {
            Ok(()) => Ok(true),
            Err(AppendFault::Disk) => Ok(false),
            Err(AppendFault::Memory) => Err(AllocError),
        }
    }
}

// Empties a buffer but for the five bytes in which a record begins.
fn begin(buffer: &mut Vec<u8>) -> Result<(), AllocError>
    ensures { OnOk result (buffer.new.items ≡ 0 ∷ 0 ∷ 0 ∷ 0 ∷ 0 ∷ []) }
{
    buffer.clear();
    buffer.extend_from_slice(&[0, 0, 0, 0, 0])
}

// Whether an input is there afterwards, by the cut that fell into it.
fn is_left(cut: Option<Cut>) -> bool
    ensures { result ≡ is_there cut }
{
    match cut {
        None => true,
        Some(cut) => cut.keeps_input(),
    }
}

// The site of a disk that crashed, and from how many inputs it was made. A disk that will not fail is no fault of a
// recovery, and a journal of inputs that fit is torn nowhere: so it fails for want of memory alone.
fn made_again(
    alloc: Global,
    d: &Deployment,
    site: u16,
    disk: MemoryDisk,
) -> Result<(Slot, u64), AllocError>
    requires { site < d.now.sites }
    ensures keeps { IfOk result (λ made. (inputs : List InputSeen)
        → Recovers site_meaning (fresh_kept d.now site) (memory_state disk).content inputs → IsCalm (memory_state disk)
        → SlotKeeps d.now site inputs made.0) }
    ensures count { IfOk result (λ made. (inputs : List InputSeen)
        → Recovers site_meaning (fresh_kept d.now site) (memory_state disk).content inputs → made.1 ≡ length inputs) }
{
    let fresh = KeptSite::new(alloc, d, site)?;
    match recover(alloc, disk, fresh) {
        Ok(made) => {
            let (journal, _) = made.durable.into_parts();
            Ok((Slot { journal }, made.inputs))
        }
        Err(_) => Err(AllocError),
    }
}
