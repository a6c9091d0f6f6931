//! Values with no byte before or behind them.
ghost use Rattle.std.specs.Prelude.{◌≡◌, ◌-◌, ◌≤◌, ◌++◌, true, length, Ok, IfOk, IfErr, OnOk, OnErr};
ghost use Rattle.sat_wire.specs.Wholes.{whole, IsWant, Refuses};

use crate::Wire;
use crate::fault::{Cause, DecodeFault, ReadFault, Stop, Wrong};
use std::alloc::{AllocError, Global};

/// Puts a value's bytes behind others. It takes the room for all of them first; for want of it all is as before.
pub fn encode<T: Wire>(value: &T, out: &mut Vec<u8>) -> Result<(), AllocError>
    requires { T.allows value.now ≡ true }
    ensures ok { OnOk result (out.new.items ≡ out.old.items ++ T.code.spell value.now) }
    ensures err { OnErr result (out.new.items ≡ out.old.items) }
{
    let size = value.size();
    out.reserve(size)?;
    value.write(out);
    Ok(())
}

// Of so many bytes, by the place from the front.
fn placed(stop: Stop, bytes: usize) -> Wrong
    requires { stop.left ≤ bytes }
    ensures cause { result.cause ≡ stop.cause }
    ensures place { result.place ≡ bytes - stop.left }
{
    Wrong {
        cause: stop.cause,
        place: bytes - stop.left,
    }
}

// What all of the bytes spell.
fn exactly<T: Wire>(alloc: Global, bytes: &[u8]) -> Result<T, DecodeFault>
    ensures ok { IfOk result (λ value. whole T.code bytes.now ≡ Ok value) }
    ensures err { IfErr result (λ fault. Refuses fault (whole T.code bytes.now)) }
{
    match T::read(alloc, bytes) {
        Ok((value, rest)) => {
            if rest.is_empty() {
                Ok(value)
            } else {
                Err(DecodeFault::Wrong(placed(
                    Stop {
                        cause: Cause::Long,
                        left: rest.len(),
                    },
                    bytes.len(),
                )))
            }
        }
        Err(ReadFault::Memory) => Err(DecodeFault::Memory),
        Err(ReadFault::Stop(stop)) => Err(DecodeFault::Wrong(placed(stop, bytes.len()))),
    }
}

/// The value that all of some bytes spell, which is one at the most. All other bytes are refused.
pub fn decode<T: Wire>(alloc: Global, bytes: &[u8]) -> Result<T, DecodeFault>
    ensures ok { IfOk result (λ value. whole T.code bytes.now ≡ Ok value) }
    ensures err { IfErr result (λ fault. Refuses fault (whole T.code bytes.now)) }
    ensures spelled { IfOk result (λ value. bytes.now ≡ T.code.spell value) }
    ensures fits { IfOk result (λ value. T.code.fits value ≡ true) }
    ensures found { (value : T) → T.code.fits value ≡ true → bytes.now ≡ T.code.spell value
        → IfOk result (λ read. read ≡ value) }
    ensures refused { (value : T) → T.code.fits value ≡ true → bytes.now ≡ T.code.spell value → IfErr result IsWant }
{
    exactly(alloc, bytes)
}
