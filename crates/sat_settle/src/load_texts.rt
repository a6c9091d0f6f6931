//! A letter and a number, as the names and the values of a large script.
ghost use Rattle.std.specs.Prelude.{◌≡◌, ◌++◌, ◌∷◌, codes, IfOk};
ghost use Rattle.std.specs.Fmt.{decimal};
ghost use Rattle.sat_settle.specs.LoadDraft.{drawn_value};

use itoa::write_digits;
use sat_label::{Name, Value};
use std::alloc::{AllocError, Global};

// A letter and the digits of the greatest `u32`.
const MOST_BYTES: usize = 11;

// Writes a letter and the digits of a number so that they end where the text does.
fn lettered(letter: u8, number: u32, text: &mut [u8; MOST_BYTES]) -> &[u8]
    ensures { result.now ≡ letter ∷ decimal number }
{
    let start = write_digits(u64::from(number), text, MOST_BYTES) - 1;
    text[start] = letter;
    &text[start..]
}

/// The name of an item: `x` and its number.
#[tactic(auto, using(crate::proofs::LoadTexts::item_name))]
pub fn item_name(alloc: Global, item: u16) -> Result<Name, AllocError>
    ensures { IfOk result (λ name. name ≡ codes "x" ++ decimal item) }
{
    let mut text = [0; MOST_BYTES];
    let text = lettered(b'x', u32::from(item), &mut text);
    match Name::of(alloc, text)? {
        Some(name) => Ok(name),
        None => unreachable!(),
    }
}

/// The name of a client: `c` and its number.
#[tactic(auto, using(crate::proofs::LoadTexts::client_name))]
pub fn client_name(alloc: Global, client: u16) -> Result<Name, AllocError>
    ensures { IfOk result (λ name. name ≡ codes "c" ++ decimal client) }
{
    let mut text = [0; MOST_BYTES];
    let text = lettered(b'c', u32::from(client), &mut text);
    match Name::of(alloc, text)? {
        Some(name) => Ok(name),
        None => unreachable!(),
    }
}

/// The value of the write of a number: `v` and this number.
#[tactic(auto, using(crate::proofs::LoadTexts::value_text))]
pub fn drawn_value(alloc: Global, number: u32) -> Result<Value, AllocError>
    ensures { IfOk result (λ value. value ≡ drawn_value number) }
{
    let mut text = [0; MOST_BYTES];
    let text = lettered(b'v', number, &mut text);
    match Value::of(alloc, text)? {
        Some(value) => Ok(value),
        None => unreachable!(),
    }
}
