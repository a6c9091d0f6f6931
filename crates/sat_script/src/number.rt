//! Numbers in digits, of any length.
ghost use Rattle.std.specs.Prelude.{◌≡◌, ◌-◌, ◌^◌, ◌<◌, ◌≤◌, min, Some, None, IfSome, true, nat_lt, ◌||◌, ◌&&◌, ◌==◌};
ghost use Rattle.std.specs.Prelude.{length, slice_index, if◌then◌else◌};
ghost use Rattle.std.specs.Char.{is_ascii_digit};
ghost use Rattle.std.specs.Str.{all_ascii_digits};
ghost use Rattle.sat_script.specs.Words.{is_number, value_of, number_below, number_to, number_up_to};

// The digits of the greatest u64.
const GREATEST: &[u8] = b"18446744073709551615";

// Whether a word is empty, or more than a digit and begins with `0`.
fn begins_badly(word: &[u8]) -> bool
    ensures { result ≡ (length word.now == 0 || (nat_lt 1 (length word.now) && slice_index word.now 0 == 48)) }
{
    word.is_empty() || (word.len() > 1 && word[0] == b'0')
}

fn all_digits(word: &[u8]) -> bool
    ensures { result ≡ all_ascii_digits word.now }
{
    for byte in word {
        if !byte.is_ascii_digit() {
            return false;
        }
    }
    true
}

// The number that digits stand for, or the greatest u64 where it is greater.
#[inline(never)]
fn digits(word: &[u8]) -> Option<u64>
    ensures { result ≡ (if all_ascii_digits word.now then Some (min (value_of word.now) (2 ^ 64 - 1)) else None) }
{
    let mut value = 0u64;
    for byte in word {
        if !byte.is_ascii_digit() {
            return None;
        }
        value = value
            .saturating_mul(10)
            .saturating_add(u64::from(*byte - b'0'));
    }
    Some(value)
}

// The number of a digit.
#[inline(always)]
fn digit_of(byte: u8) -> Option<u64>
    ensures { result ≡ (if is_ascii_digit byte then Some (byte - 48) else None) }
{
    if byte.is_ascii_digit() {
        Some(u64::from(byte - b'0'))
    } else {
        None
    }
}

// The number that a word stands for, or the greatest u64 where it is greater. Most words are one digit.
#[inline(always)]
#[tactic(auto, using(crate::proofs::Numbers::one_digit))]
fn number_of(word: &[u8]) -> Option<u64>
    ensures { result ≡ (if is_number word.now then Some (min (value_of word.now) (2 ^ 64 - 1)) else None) }
{
    if word.len() == 1 {
        return digit_of(word[0]);
    }
    if begins_badly(word) {
        return None;
    }
    digits(word)
}

/// Whether a word is a number of any length: `0`, or digits that don't begin with `0`.
pub fn is_number(word: &[u8]) -> bool
    ensures { result ≡ is_number word.now }
{
    !begins_badly(word) && all_digits(word)
}

/// Whether a number is below another, both of any length: the shorter one is, and of two as long the one that is first
/// by its bytes.
pub fn is_less(a: &[u8], b: &[u8]) -> bool
    requires a { is_number a.now ≡ true }
    requires b { is_number b.now ≡ true }
    ensures { result ≡ nat_lt (value_of a.now) (value_of b.now) }
{
    if a.len() == b.len() {
        a.cmp(b).is_lt()
    } else {
        a.len() < b.len()
    }
}

/// The number that a word stands for, where it is below a limit.
#[tactic(auto, unfolding(crate::specs::Words::number_below))]
#[inline(always)]
pub fn number_below(limit: u16, word: &[u8]) -> Option<u16>
    ensures number { result ≡ number_below limit word.now }
    ensures inside { IfSome result (λ n. n < limit) }
{
    let number = number_of(word)?;
    if number < u64::from(limit) {
        Some(number as u16)
    } else {
        None
    }
}

/// The number that a word stands for, where it is from 1 to a limit.
#[tactic(auto, unfolding(crate::specs::Words::number_to))]
pub fn number_to(limit: u16, word: &[u8]) -> Option<u16>
    ensures number { result ≡ number_to limit word.now }
    ensures inside { IfSome result (λ n. (1 ≤ n) × (n ≤ limit)) }
{
    let number = number_of(word)?;
    if 0 < number && number <= u64::from(limit) {
        Some(number as u16)
    } else {
        None
    }
}

/// The number that a word stands for, where it is at most a limit.
#[tactic(auto, unfolding(crate::specs::Words::number_up_to))]
pub fn number_up_to(limit: u64, word: &[u8]) -> Option<u64>
    ensures number { result ≡ number_up_to limit word.now }
    ensures inside { IfSome result (λ n. n ≤ limit) }
{
    let number = number_of(word)?;
    if number > limit || is_less(GREATEST, word) {
        None
    } else {
        Some(number)
    }
}
