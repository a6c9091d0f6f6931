//! How much of each lane of each gear was gathered.
ghost use Rattle.std.specs.Prelude.{◌≡◌, [], length, map, replicate, IfOk, OnOk, OnErr};
ghost use Rattle.sat_gear.specs.Gear.{drained_of};
ghost use Rattle.sat_sink.specs.Sink.{after_gather, IsDrain};
ghost use Rattle.sat_hub.specs.Changes.{counts_of};

use sat_bulk::Drained;
use sat_gear::Gear;
use sat_sink::LabelSink;
use std::alloc::{AllocError, Global};
use std::marker::Model;

/// Of one gear by site how many payloads were made for it. Contracts see the list of these.
#[derive(Drop)]
pub struct Row {
    counts: Vec<u64>,
}

impl Model for Row {
    ghost use Rattle.std.specs.Prelude.{ℕ, List};

    ghost Value = { List ℕ };

    ghost view = { λ a. a.counts.items };
}

impl Row {
    /// Nothing was counted. It takes no memory.
    pub fn new(alloc: Global) -> Row
        ensures { result ≡ [] }
    {
        Row {
            counts: Vec::new(alloc),
        }
    }

    /// The counts, the sites ascending.
    pub fn as_slice(&self) -> &[u64]
        ensures { result.now ≡ self.now }
    {
        self.counts.as_slice()
    }

    /// Counts what a gear made.
    pub fn fill(&mut self, gear: &Gear) -> Result<(), AllocError>
        ensures { OnOk result (self.new ≡ counts_of (drained_of gear.now)) }
    {
        gear.count_into(&mut self.counts)
    }

    /// Takes the counts that a gear gave.
    pub fn take(&mut self, given: &Drained) -> Result<(), AllocError>
        ensures { OnOk result (self.new ≡ counts_of given.now) }
    {
        self.counts.clear();
        self.counts.extend_from_slice(given.counts.as_slice())
    }
}

// So many rows in which nothing was counted.
fn fresh_rows(alloc: Global, gears: u16) -> Result<Vec<Row>, AllocError>
    ensures { IfOk result (λ rows. rows.items ≡ replicate gears []) }
{
    let mut rows = Vec::with_capacity(alloc, gears as usize)?;
    'gears: for _ in 0..gears {
        rows.push(Row::new(alloc))?;
    }
    Ok(rows)
}

// Counts what each gear made.
fn count_all(rows: &mut [Row], gears: &[Gear]) -> Result<(), AllocError>
    requires { length rows.old ≡ length gears.now }
    ensures size { length rows.new ≡ length rows.old }
    ensures ok { OnOk result (rows.new ≡ map counts_of (map drained_of gears.now)) }
{
    for (place, gear) in gears.iter().enumerate() {
        rows[place].fill(gear)?;
    }
    Ok(())
}

// Takes the counts that each gear gave.
fn take_all(rows: &mut [Row], drained: &[Drained]) -> Result<(), AllocError>
    requires { length rows.old ≡ length drained.now }
    ensures size { length rows.new ≡ length rows.old }
    ensures ok { OnOk result (rows.new ≡ map counts_of drained.now) }
{
    for (place, given) in drained.iter().enumerate() {
        rows[place].take(given)?;
    }
    Ok(())
}

/// By gear how much of its lanes was gathered. Contracts see the list of these lists.
#[derive(Drop)]
pub struct Tally {
    rows: Vec<Row>,
    // Room for the next count, so that none has to be taken for it.
    spare: Vec<Row>,
}

impl Model for Tally {
    ghost use Rattle.std.specs.Prelude.{◌≡◌, ℕ, List, length};

    ghost Value = { List (List ℕ) };

    ghost view = { λ a. a.rows.items };

    ghost invariant = { λ a. length a.spare.items ≡ length a.rows.items };
}

impl Tally {
    /// Of so many gears nothing was counted.
    pub fn new(alloc: Global, gears: u16) -> Result<Tally, AllocError>
        ensures { IfOk result (λ tally. tally ≡ replicate gears []) }
    {
        let rows = fresh_rows(alloc, gears)?;
        let spare = fresh_rows(alloc, gears)?;
        Ok(Tally { rows, spare })
    }

    /// The counts of each gear.
    pub fn rows(&self) -> &[Row]
        ensures { result.now ≡ self.now }
    {
        self.rows.as_slice()
    }

    /// Takes what gears gave: their counts, and into a sink their labels and their promises. All memory is taken before
    /// anything changes.
    pub fn gather(&mut self, sink: &mut LabelSink, drained: &[Drained]) -> Result<(), AllocError>
        requires rows { length self.old ≡ length drained.now }
        requires drain { IsDrain sink.old drained.now }
        ensures counts { OnOk result (self.new ≡ map counts_of drained.now) }
        ensures sink { OnOk result (sink.new ≡ after_gather sink.old drained.now) }
        ensures err { OnErr result (self.new ≡ self.old) }
        ensures err_sink { OnErr result (sink.new ≡ sink.old) }
    {
        take_all(&mut self.spare, drained)?;
        sink.gather(drained)?;
        std::mem::swap(&mut self.rows, &mut self.spare);
        Ok(())
    }

    /// Counts what each gear made, and takes their new labels and their promises into a sink. All memory is taken
    /// before anything changes. The gears stay as they are.
    pub fn gather_from(&mut self, sink: &mut LabelSink, gears: &[Gear]) -> Result<(), AllocError>
        requires rows { length self.old ≡ length gears.now }
        requires drain { IsDrain sink.old (map drained_of gears.now) }
        ensures counts { OnOk result (self.new ≡ map counts_of (map drained_of gears.now)) }
        ensures sink { OnOk result (sink.new ≡ after_gather sink.old (map drained_of gears.now)) }
        ensures err { OnErr result (self.new ≡ self.old) }
        ensures err_sink { OnErr result (sink.new ≡ sink.old) }
    {
        count_all(&mut self.spare, gears)?;
        sink.gather_from(gears)?;
        std::mem::swap(&mut self.rows, &mut self.spare);
        Ok(())
    }
}
