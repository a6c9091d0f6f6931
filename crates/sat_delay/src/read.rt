//! Reading a table of delays.
ghost use Rattle.std.specs.Prelude.{◌≡◌, ◌≢◌, length, IfOk, IfErr, Ok, Err, Option, Some, None};
ghost use Rattle.std.specs.declared.result.Result.{Result};
ghost use Rattle.serde_json.specs.View.{view};
ghost use Rattle.sat_delay.specs.Reading.{json_of, table_of, reading, Gives};

use crate::DelayFault;
use crate::delays::Delays;
use crate::matrix::{Form, keyed};
use crate::number::size_of;
use serde_json::Value;
use std::alloc::Global;

/// The most bytes that a text of delays may have.
pub const MOST_BYTES: usize = 1_048_576;

/// The most sites of a table. A deployment may have more.
pub const MOST_TABLE_SITES: u16 = 16;

// The greatest numbers of places, milliseconds and weights.
const MOST_PLACES: u16 = 32;

const MOST_MILLISECONDS: u64 = 100_000;

const MOST_WEIGHT: u64 = 1_000_000;

/// What `serde_json` reads from bytes.
#[tactic(auto, unfolding(crate::specs::Reading::json_of))]
pub fn json_of(alloc: Global, bytes: &[u8]) -> Result<Value, DelayFault>
    ensures ok { IfOk result (λ value. json_of bytes.now ≡ Some (view value)) }
    ensures err { IfErr result (λ fault. fault ≢ DelayFault.Memory
        → (json_of bytes.now ≡ None) × (fault ≡ DelayFault.NotJson)) }
{
    match Value::from_slice(alloc, bytes) {
        Ok(value) => Ok(value),
        Err(error) => {
            if error.is_memory() {
                Err(DelayFault::Memory)
            } else {
                Err(DelayFault::NotJson)
            }
        }
    }
}

/// The table that a value says, or its first fault.
#[tactic(auto, unfolding(crate::specs::Reading::table_of))]
pub fn table_of(alloc: Global, input: &Value) -> Result<Delays, DelayFault>
    ensures { Gives result (table_of (view input.now)) }
{
    let sites = size_of(0, MOST_TABLE_SITES, input)?;
    let places = size_of(1, MOST_PLACES, input)?;
    let most = MOST_MILLISECONDS;
    let reach = keyed(
        alloc,
        &Form {
            key: 2,
            rows: sites,
            columns: places,
            most,
        },
        input,
    )?;
    let between = keyed(
        alloc,
        &Form {
            key: 3,
            rows: places,
            columns: places,
            most,
        },
        input,
    )?;
    let optimal = keyed(
        alloc,
        &Form {
            key: 4,
            rows: sites,
            columns: sites,
            most,
        },
        input,
    )?;
    let most = MOST_WEIGHT;
    let weight = keyed(
        alloc,
        &Form {
            key: 5,
            rows: sites,
            columns: sites,
            most,
        },
        input,
    )?;
    Ok(Delays::new(sites, places, reach, between, optimal, weight))
}

/// Reads a table of delays from JSON of at most [`MOST_BYTES`] bytes: an object with the keys `sites` and `places`,
/// whole numbers, and `reach`, `between`, `optimal` and `weight`, lists of rows of whole numbers; other keys are
/// ignored, and of equal keys the last counts. `Err` is the first fault, in the order of these keys, then of rows, then
/// of columns, or `Memory`.
#[tactic(auto, unfolding(crate::specs::Reading::reading))]
pub fn read_delays(alloc: Global, bytes: &[u8]) -> Result<Delays, DelayFault>
    ensures ok { IfOk result (λ d. reading bytes.now ≡ Ok d) }
    ensures err { IfErr result (λ fault. fault ≢ DelayFault.Memory → reading bytes.now ≡ Err fault) }
{
    if bytes.len() > MOST_BYTES {
        return Err(DelayFault::TooLong);
    }
    let value = json_of(alloc, bytes)?;
    let delays = table_of(alloc, &value)?;
    Ok(delays)
}
