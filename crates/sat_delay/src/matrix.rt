//! Matrices of whole numbers in JSON.
ghost use Rattle.std.specs.Prelude.{option_map, IfOk};
ghost use Rattle.sat_delay.specs.Table.{IsMatrix};
ghost use Rattle.serde_json.specs.View.{view};
ghost use Rattle.sat_delay.specs.Reading.{gathered, cell_at, row_of, row_at, matrix_of, keyed, Gives};

use crate::number::{item_at, key_name, number_at};
use crate::rows::Rows;
use crate::{DelayFault, Place};
use sat_label::Counts;
use serde_json::Value;
use std::alloc::Global;

/// What a matrix has to be: the number of its key, its rows and columns, and the greatest number in it.
#[derive(Clone, Copy)]
pub struct Form {
    pub key: u8,
    pub rows: u16,
    pub columns: u16,
    pub most: u64,
}

#[tactic(auto, unfolding(crate::specs::Reading::cell_at))]
fn cell_at(form: &Form, row: u16, cells: Option<&Value>, column: u16) -> Result<u64, DelayFault>
    ensures { Gives result (cell_at form.now row (option_map (λ v. view v.now) cells.entry) column) }
{
    let key = form.key;
    let place = Place { key, row, column };
    let number = number_at(place, form.most, item_at(cells, column))?;
    Ok(number)
}

// The cells of a row.
#[tactic(auto, using(crate::proofs::Gathered::gathered_start, crate::proofs::Gathered::gathered_more, crate::proofs::Gathered::gathered_stops))]
fn cells_of(
    alloc: Global,
    form: &Form,
    row: u16,
    cells: Option<&Value>,
) -> Result<Counts, DelayFault>
    ensures { Gives result (gathered (cell_at form.now row (option_map (λ v. view v.now) cells.entry))
        form.now.columns) }
{
    let mut numbers = Counts::new(alloc);
    for column in 0..form.columns {
        let number = cell_at(form, row, cells, column)?;
        numbers.push(number)?;
    }
    Ok(numbers)
}

#[tactic(auto, unfolding(crate::specs::Reading::row_of))]
fn row_of(alloc: Global, form: &Form, row: u16, cells: Option<&Value>) -> Result<Counts, DelayFault>
    ensures { Gives result (row_of form.now row (option_map (λ v. view v.now) cells.entry)) }
{
    let numbers = cells_of(alloc, form, row, cells)?;
    let (key, column) = (form.key, form.columns);
    if item_at(cells, column).is_some() {
        return Err(DelayFault::BadShape(Place { key, row, column }));
    }
    Ok(numbers)
}

#[tactic(auto, unfolding(crate::specs::Reading::row_at))]
fn row_at(alloc: Global, form: &Form, rows: Option<&Value>, row: u16) -> Result<Counts, DelayFault>
    ensures { Gives result (row_at form.now (option_map (λ v. view v.now) rows.entry) row) }
{
    let numbers = row_of(alloc, form, row, item_at(rows, row))?;
    Ok(numbers)
}

// The rows of a matrix.
#[tactic(auto, using(crate::proofs::Gathered::gathered_start, crate::proofs::Gathered::gathered_more, crate::proofs::Gathered::gathered_stops))]
fn rows_of(alloc: Global, form: &Form, rows: Option<&Value>) -> Result<Rows, DelayFault>
    ensures { Gives result (gathered (row_at form.now (option_map (λ v. view v.now) rows.entry)) form.now.rows) }
{
    let mut lists = Rows::new(alloc);
    for row in 0..form.rows {
        let numbers = row_at(alloc, form, rows, row)?;
        lists.push(numbers)?;
    }
    Ok(lists)
}

#[tactic(auto, unfolding(crate::specs::Reading::matrix_of))]
fn matrix_of(alloc: Global, form: &Form, rows: Option<&Value>) -> Result<Rows, DelayFault>
    ensures { Gives result (matrix_of form.now (option_map (λ v. view v.now) rows.entry)) }
{
    let lists = rows_of(alloc, form, rows)?;
    let (key, row) = (form.key, form.rows);
    if item_at(rows, row).is_some() {
        let column = 0;
        return Err(DelayFault::BadShape(Place { key, row, column }));
    }
    Ok(lists)
}

/// The matrix of a key.
#[tactic(auto, unfolding(crate::specs::Reading::keyed))]
pub fn keyed(alloc: Global, form: &Form, input: &Value) -> Result<Rows, DelayFault>
    ensures said { Gives result (keyed form.now (view input.now)) }
    ensures shape { IfOk result (λ rows. IsMatrix rows form.now.rows form.now.columns form.now.most) }
{
    let lists = matrix_of(alloc, form, input.get(key_name(form.key)))?;
    Ok(lists)
}
