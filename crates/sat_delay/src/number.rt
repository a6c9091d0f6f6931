//! The whole numbers and the list members of JSON values.
ghost use Rattle.std.specs.Prelude.{◌≡◌, ◌<◌, ◌≤◌, option_map, option_and_then, IfOk};
ghost use Rattle.serde_json.specs.View.{view};
ghost use Rattle.serde_json.specs.Find.{get};
ghost use Rattle.sat_delay.specs.Reading.{number_at, item_at, key_name, size_of, place_at, some_of, Gives};

use crate::{DelayFault, Place};
use serde_json::Value;

/// The name of a key.
#[tactic(auto, unfolding(crate::specs::Reading::key_name))]
pub fn key_name(key: u8) -> &'static str
    ensures { result.now ≡ key_name key }
{
    match key {
        0 => "sites",
        1 => "places",
        2 => "reach",
        3 => "between",
        4 => "optimal",
        5 => "weight",
        6 => "parents",
        7 => "seats",
        _ => "",
    }
}

/// A member of a list, none of anything else.
pub fn item_at(value: Option<&Value>, place: u16) -> Option<&Value>
    ensures { option_map (λ v. view v.now) result ≡ item_at place (option_map (λ v. view v.now) value.entry) }
{
    match value {
        None => None,
        Some(list) => list.get(place as usize),
    }
}

/// The whole number that a value has at a place.
#[tactic(auto, unfolding(crate::specs::Reading::number_at))]
pub fn number_at(place: Place, most: u64, value: Option<&Value>) -> Result<u64, DelayFault>
    ensures said { Gives result (number_at place most (option_map (λ v. view v.now) value.entry)) }
    ensures within { IfOk result (λ n. n ≤ most) }
{
    let Some(found) = value else {
        return Err(DelayFault::BadShape(place));
    };
    let Some(number) = found.as_u64() else {
        return Err(DelayFault::BadShape(place));
    };
    if number <= most {
        Ok(number)
    } else {
        Err(DelayFault::TooBig(place))
    }
}

/// The number of sites or of places.
#[tactic(auto, unfolding(crate::specs::Reading::size_of))]
pub fn size_of(key: u8, most: u16, input: &Value) -> Result<u16, DelayFault>
    ensures said { Gives result (size_of key most (view input.now)) }
    ensures some { IfOk result (λ n. 0 < n) }
    ensures few { IfOk result (λ n. n ≤ most) }
{
    let place = Place {
        key,
        row: 0,
        column: 0,
    };
    let number = number_at(place, u64::from(most), input.get(key_name(key)))?;
    if number == 0 {
        return Err(DelayFault::BadShape(place));
    }
    Ok(number as u16)
}
