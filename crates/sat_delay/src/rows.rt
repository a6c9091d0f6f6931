//! Matrices of numbers, row by row.
ghost use Rattle.std.specs.Prelude.{◌≡◌, ◌<◌, ◌++◌, [], ◌∷◌, length, OnOk};
ghost use Rattle.std.specs.List.{slice_index_or};
ghost use Rattle.sat_delay.specs.Table.{entry};

use sat_label::Counts;
use std::alloc::{AllocError, Global};
use std::marker::Model;

/// The rows of a matrix. Contracts see the list of its rows.
#[derive(Drop)]
pub struct Rows {
    rows: Vec<Counts>,
}

impl Model for Rows {
    ghost use Rattle.std.specs.Prelude.{List, ℕ};

    ghost Value = { List (List ℕ) };

    ghost view = { λ a. a.rows.items };
}

impl Rows {
    /// No rows. It takes no memory.
    pub fn new(alloc: Global) -> Rows
        ensures { result ≡ [] }
    {
        Rows {
            rows: Vec::new(alloc),
        }
    }

    /// Adds a row at the end.
    pub fn push(&mut self, row: Counts) -> Result<(), AllocError>
        ensures { OnOk result (self.new ≡ self.old ++ row ∷ []) }
    {
        self.rows.push(row)?;
        Ok(())
    }

    /// The number in a row and a column.
    pub fn entry(&self, row: u16, column: u16) -> u64
        requires row { row < length self.now }
        requires column { column < length (slice_index_or self.now row []) }
        ensures { result ≡ entry self.now row column }
    {
        self.rows[row as usize].as_slice()[column as usize]
    }
}
