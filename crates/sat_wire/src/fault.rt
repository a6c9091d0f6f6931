//! What bytes that spell no value are refused with.
ghost use Rattle.sat_wire.specs.declared.fault.ReadFault.TheVariants as read_fault;
ghost use Rattle.std.specs.Prelude.{◌≡◌};

use std::alloc::{AllocError, AllocFailed};

/// Why bytes spell no value.
#[derive(Clone, Copy, Debug, PartialEq, Eq)]
pub enum Cause {
    /// They end before the value does.
    Short,
    /// The byte of an option is neither 0 nor 1.
    Flag,
    /// The byte of a kind is none from 0 to 3.
    Kind,
    /// Items are not 1 to 4 strictly ascending numbers.
    Items,
    /// Bytes are no value of an item.
    Value,
    /// The first byte is the number of no input.
    Form,
    /// More bytes stand behind the value.
    Long,
}

/// What stopped a reading: why, and how many bytes were left from the byte on at which they stop to be a spelling.
#[derive(Clone, Copy, Debug, PartialEq, Eq)]
pub struct Stop {
    pub cause: Cause,
    pub left: usize,
}

/// Why no value was read from the front of bytes.
#[derive(Clone, Copy, Debug, PartialEq, Eq)]
pub enum ReadFault {
    /// There is no memory for it.
    Memory,
    /// None stands there.
    Stop(Stop),
}

impl From<AllocError> for ReadFault {
    ghost from_gives = { λ _ fault. fault ≡ read_fault.Memory };

    fn from(_fault: AllocError) -> ReadFault {
        ReadFault::Memory
    }
}

impl<T: Drop> From<AllocFailed<T>> for ReadFault {
    ghost from_gives = { λ _ fault. fault ≡ read_fault.Memory };

    fn from(_fault: AllocFailed<T>) -> ReadFault {
        ReadFault::Memory
    }
}

/// Bytes that are refused: why, and the place, from 0, of the byte at which they stop to be a spelling. Where they end
/// too early that is behind the last of them; where a value is none of its kind it is the first byte of that value.
#[derive(Clone, Copy, Debug, PartialEq, Eq)]
pub struct Wrong {
    pub cause: Cause,
    pub place: usize,
}

/// Why bytes were not read as a value.
#[derive(Clone, Copy, Debug, PartialEq, Eq)]
pub enum DecodeFault {
    /// There is no memory for it.
    Memory,
    /// They spell none.
    Wrong(Wrong),
}
