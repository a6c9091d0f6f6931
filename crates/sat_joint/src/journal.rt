//! Journals of nodes, and their merge: each act once, at its home.
ghost use Rattle.std.specs.Prelude.{◌≡◌, ◌++◌, [], ◌∷◌, map, OnOk, OnErr, IfOk};
ghost use Rattle.sat_stitch.specs.Stitch.{ranked, all_ranked, ordered, stitched};
ghost use Rattle.sat_joint.specs.Journals.{home_entries, home_journal, IsOneJointRun};
ghost use Rattle.sat_joint.specs.Seen.{seen};

use sat_act::{Entries, Entry};
use sat_stitch::Ranked;
use std::alloc::{AllocError, Global};
use std::marker::Model;

/// Entries under their Lamport numbers (Lamport, 1978), the oldest first, each with whether the node is the act's home.
#[derive(Drop)]
pub struct KeptEntries {
    items: Vec<(u64, Entry, bool)>,
}

impl Model for KeptEntries {
    ghost use Rattle.std.specs.Prelude.{ℕ, Bool, List};
    ghost use Rattle.sat_act.specs.declared.entry.Entry.{Entry};

    ghost Value = { List (ℕ × Entry × Bool) };

    ghost view = { λ a. a.items.items };
}

impl KeptEntries {
    /// An empty list. It takes no memory.
    pub fn new(alloc: Global) -> Self
        ensures { result ≡ [] }
    {
        KeptEntries {
            items: Vec::new(alloc),
        }
    }

    /// Adds an entry at the end. For want of memory the list is as before.
    pub fn push(&mut self, lamport: u64, entry: Entry, home: bool) -> Result<(), AllocError>
        ensures ok { OnOk result (self.new ≡ self.old ++ (lamport, entry, home) ∷ []) }
        ensures err { OnErr result (self.new ≡ self.old) }
    {
        self.items.push((lamport, entry, home))?;
        Ok(())
    }

    /// The entries in order, each with its number and whether the node is its home.
    pub fn as_slice(&self) -> &[(u64, Entry, bool)]
        ensures { result.now ≡ self.now }
    {
        self.items.as_slice()
    }
}

/// What one node or session kept. The place decides where numbers are equal.
#[derive(Drop)]
pub struct Journal {
    pub place: u32,
    pub kept: KeptEntries,
}

fn add_rank(
    list: &mut Vec<Ranked<Entry>>,
    place: u32,
    noted: &(u64, Entry, bool),
) -> Result<(), AllocError>
    ensures { OnOk result (list.new.items ≡ list.old.items ++ ranked place (home_entries (noted.now ∷ []))) }
{
    if noted.2 {
        let item = noted.1.copy()?;
        list.push(Ranked {
            number: noted.0,
            place,
            item,
        })?;
    }
    Ok(())
}

fn add_ranks(list: &mut Vec<Ranked<Entry>>, journal: &Journal) -> Result<(), AllocError>
    ensures { OnOk result (list.new.items ≡ list.old.items
        ++ ranked journal.now.place (home_entries journal.now.kept)) }
{
    for noted in journal.kept.as_slice() {
        add_rank(list, journal.place, noted)?;
    }
    Ok(())
}

fn all_ranks(alloc: Global, journals: &[Journal]) -> Result<Vec<Ranked<Entry>>, AllocError>
    ensures { IfOk result (λ list. list.items ≡ all_ranked (map home_journal (map seen journals.now))) }
{
    let mut list = Vec::new(alloc);
    for journal in journals {
        add_ranks(&mut list, journal)?;
    }
    Ok(list)
}

/// All entries of these journals that are at their homes: by Lamport number, then by the journal's place, then as
/// the journal has them.
pub fn stitch(alloc: Global, journals: &[Journal]) -> Result<Entries, AllocError>
    ensures order { IfOk result (λ all. all ≡ stitched (map home_journal (map seen journals.now))) }
    ensures run { IfOk result (λ all. IsOneJointRun (map seen journals.now) all) }
{
    let mut list = all_ranks(alloc, journals)?;
    list.sort_by_key(|ranked| (ranked.number, ranked.place))?;
    let mut all = Entries::new(alloc);
    for ranked in list {
        all.push(ranked.item)?;
    }
    Ok(all)
}
