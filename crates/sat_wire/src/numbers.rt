//! Numbers, the highest byte first.
ghost use Rattle.std.specs.Prelude.{◌≡◌, ◌+◌, ◌≤◌, ◌<◌, ◌++◌, true, length, vec_capacity, Ok, IfOk, IfErr};
ghost use Rattle.sat_wire.specs.Code.{byte, number16, number64};
ghost use Rattle.sat_wire.specs.Bounds.{small1, small2, small8};
ghost use Rattle.sat_wire.specs.Exact.{exact_byte, exact16, exact64};

use crate::Wire;
use crate::fault::{Cause, ReadFault, Stop};
use std::alloc::Global;

// Puts bytes behind others, for which there is room.
pub fn put(out: &mut Vec<u8>, bytes: &[u8])
    requires { length out.old.items + length bytes.now ≤ vec_capacity out.old }
    ensures items { out.new.items ≡ out.old.items ++ bytes.now }
    ensures capacity { vec_capacity out.old ≤ vec_capacity out.new }
{
    if out.extend_from_slice(bytes).is_err() {
        unreachable!();
    }
}

impl Wire for u8 {
    ghost code = { byte };

    ghost allows = { λ n. true };

    ghost exact = { exact_byte };

    ghost small = { small1 };

    fn is_allowed(&self) -> bool {
        true
    }

    fn size(&self) -> usize {
        let _number = *self;
        1
    }

    fn write(&self, out: &mut Vec<u8>) {
        out.push_reserved(*self);
    }

    fn read(_alloc: Global, bytes: &[u8]) -> Result<(u8, &[u8]), ReadFault> {
        match bytes {
            [] => Err(ReadFault::Stop(Stop {
                cause: Cause::Short,
                left: 0,
            })),
            [first, rest @ ..] => Ok((*first, rest)),
        }
    }
}

impl Wire for u16 {
    ghost code = { number16 };

    ghost allows = { λ n. true };

    ghost exact = { exact16 };

    ghost small = { small2 };

    fn is_allowed(&self) -> bool {
        true
    }

    fn size(&self) -> usize {
        let _number = *self;
        2
    }

    fn write(&self, out: &mut Vec<u8>) {
        put(out, &self.to_be_bytes());
    }

    fn read(_alloc: Global, bytes: &[u8]) -> Result<(u16, &[u8]), ReadFault> {
        if bytes.len() < 2 {
            return Err(ReadFault::Stop(Stop {
                cause: Cause::Short,
                left: 0,
            }));
        }
        let (head, rest) = bytes.split_at(2);
        Ok((u16::from_be_bytes([head[0], head[1]]), rest))
    }
}

impl Wire for u64 {
    ghost code = { number64 };

    ghost allows = { λ n. true };

    ghost exact = { exact64 };

    ghost small = { small8 };

    fn is_allowed(&self) -> bool {
        true
    }

    fn size(&self) -> usize {
        let _number = *self;
        8
    }

    fn write(&self, out: &mut Vec<u8>) {
        put(out, &self.to_be_bytes());
    }

    fn read(_alloc: Global, bytes: &[u8]) -> Result<(u64, &[u8]), ReadFault> {
        if bytes.len() < 8 {
            return Err(ReadFault::Stop(Stop {
                cause: Cause::Short,
                left: 0,
            }));
        }
        let (head, rest) = bytes.split_at(8);
        let number = u64::from_be_bytes([
            head[0], head[1], head[2], head[3], head[4], head[5], head[6], head[7],
        ]);
        Ok((number, rest))
    }
}
