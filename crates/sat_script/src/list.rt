//! Lists of sites, and lists of numbers.
ghost use Rattle.std.specs.Prelude.{◌≡◌, ◌≤◌, ◌<◌, ◌∷◌, true, false, nat_lt, IfOk, MatchOption, map, All};
ghost use Rattle.std.specs.List.{list_all};
ghost use Rattle.sat_script.specs.Words.{is_number, value_of, is_rising, set_of, are_below, parts_of};

use crate::number::{is_less, number_below};
use sat_label::SiteSet;
use std::alloc::{AllocError, Global};

/// The words between the commas of a list.
pub fn parts_of(alloc: Global, list: &[u8]) -> Result<Vec<&[u8]>, AllocError>
    ensures { IfOk result (λ parts. map (λ part. part.now) parts.items ≡ parts_of list.now) }
{
    list.split(|byte| *byte == b',').collect(alloc)
}

// Whether each number is above the one before it, of a first one and the others.
fn rise(first: &[u8], others: &[&[u8]]) -> bool
    requires first { is_number first.now ≡ true }
    requires others { list_all is_number (map (λ number. number.now) others.now) ≡ true }
    ensures { result ≡ is_rising (value_of first.now ∷ map value_of (map (λ number. number.now) others.now)) }
{
    let Some((second, others)) = others.split_first() else {
        return true;
    };
    is_less(first, second) && rise(second, others)
}

/// Whether each number is above the one before it.
pub fn is_rising(numbers: &[&[u8]]) -> bool
    requires { list_all is_number (map (λ number. number.now) numbers.now) ≡ true }
    ensures { result ≡ is_rising (map value_of (map (λ number. number.now) numbers.now)) }
{
    match numbers.split_first() {
        Some((first, others)) => rise(first, others),
        None => true,
    }
}

/// The numbers that words stand for, where all are below a limit.
pub fn numbers_below(
    alloc: Global,
    limit: u16,
    words: &[&[u8]],
) -> Result<Option<Vec<u16>>, AllocError>
    requires { list_all is_number (map (λ word. word.now) words.now) ≡ true }
    ensures { IfOk result (λ found. MatchOption found
        (are_below limit (map (λ word. word.now) words.now) ≡ false)
        (λ numbers. (are_below limit (map (λ word. word.now) words.now) ≡ true)
        × (numbers.items ≡ map value_of (map (λ word. word.now) words.now)))) }
{
    let mut numbers = Vec::new(alloc);
    for word in words {
        match number_below(limit, word) {
            Some(number) => numbers.push(number)?,
            None => return Ok(None),
        }
    }
    Ok(Some(numbers))
}

/// The set of some sites.
pub fn set_of(sites: &[u16]) -> SiteSet
    requires { list_all (λ site. nat_lt site 64) sites.now ≡ true }
    ensures { result ≡ record { bits = set_of sites.now } }
{
    let mut set = SiteSet::none();
    for site in sites {
        set = set.with(*site);
    }
    set
}
