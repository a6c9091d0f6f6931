//! Options: a byte 0, or a byte 1 and the value.
ghost use Rattle.std.specs.Prelude.{◌≡◌, ◌+◌, ◌≤◌, ◌++◌, true, length, vec_capacity, Ok, IfOk, IfErr};
ghost use Rattle.sat_wire.specs.Code.{allowed_if, fits_if, optional, read_if, spelled_if, StopsAt};
ghost use Rattle.sat_wire.specs.Bounds.{small3};
ghost use Rattle.sat_wire.specs.Exact.{exact16, exact_optional};

use crate::Wire;
use crate::fault::{Cause, ReadFault, Stop};
use std::alloc::Global;

/// Whether a value that may be there has a spelling.
pub fn option_is_allowed<T: Wire>(value: &Option<T>) -> bool
    ensures { result ≡ allowed_if T.allows value.now }
{
    match value {
        None => true,
        Some(value) => value.is_allowed(),
    }
}

/// How many bytes a value that may be there is written in.
pub fn option_size<T: Wire>(value: &Option<T>) -> usize
    requires { allowed_if T.allows value.now ≡ true }
    ensures size { result ≡ length (spelled_if T.code value.now) }
    ensures fits { fits_if T.code value.now ≡ true }
    ensures most { result ≤ 1 + T.code.most }
{
    match value {
        None => 1,
        Some(value) => 1 + value.size(),
    }
}

/// Puts the bytes of a value that may be there behind others, for which there is room.
pub fn write_option<T: Wire>(value: &Option<T>, out: &mut Vec<u8>)
    requires fits { fits_if T.code value.now ≡ true }
    requires room { length out.old.items + length (spelled_if T.code value.now) ≤ vec_capacity out.old }
    ensures items { out.new.items ≡ out.old.items ++ spelled_if T.code value.now }
    ensures capacity { vec_capacity out.old ≤ vec_capacity out.new }
{
    match value {
        None => out.push_reserved(0),
        Some(value) => {
            out.push_reserved(1);
            value.write(out)
        }
    }
}

/// The value that may be there at the front of bytes, and the bytes behind it.
pub fn read_option<T: Wire>(alloc: Global, bytes: &[u8]) -> Result<(Option<T>, &[u8]), ReadFault>
    ensures ok { IfOk result (λ found. read_if T.code bytes.now ≡ Ok (found.0, found.1.now)) }
    ensures err { IfErr result (λ fault. StopsAt fault (read_if T.code bytes.now)) }
{
    let Some((flag, rest)) = bytes.split_first() else {
        return Err(ReadFault::Stop(Stop {
            cause: Cause::Short,
            left: 0,
        }));
    };
    match *flag {
        0 => Ok((None, rest)),
        1 => {
            let (value, rest) = T::read(alloc, rest)?;
            Ok((Some(value), rest))
        }
        _ => Err(ReadFault::Stop(Stop {
            cause: Cause::Flag,
            left: bytes.len(),
        })),
    }
}

impl Wire for Option<u16> {
    ghost use Rattle.sat_wire.specs.Code.{number16};

    ghost code = { optional number16 };

    ghost allows = { λ o. true };

    ghost exact = { exact_optional number16 exact16 };

    ghost small = { small3 };

    fn is_allowed(&self) -> bool {
        true
    }

    fn size(&self) -> usize {
        option_size(self)
    }

    fn write(&self, out: &mut Vec<u8>) {
        write_option(self, out)
    }

    fn read(alloc: Global, bytes: &[u8]) -> Result<(Option<u16>, &[u8]), ReadFault> {
        read_option(alloc, bytes)
    }
}
