//! Why a text is no table of delays.
ghost use Rattle.std.specs.Prelude.{◌≡◌};
ghost use Rattle.sat_delay.specs.declared.fault.DelayFault.TheVariants.{Memory};

use std::alloc::AllocError;
use thiserror::Error;

/// A place in a text of delays.
#[derive(Clone, Copy, Debug, PartialEq, Eq)]
pub struct Place {
    /// 0 for `sites`, 1 `places`, 2 `reach`, 3 `between`, 4 `optimal`, 5 `weight`, and in a text that has a tree too 6
    /// `parents` and 7 `seats`.
    pub key: u8,
    /// The row, from 0; 0 for `sites` and `places`.
    pub row: u16,
    /// The column, from 0; 0 for `sites`, `places`, `parents`, `seats` and a row that is missing or one too many.
    pub column: u16,
}

/// Why a text is no table of delays.
#[derive(Clone, Copy, Debug, PartialEq, Eq, Drop, Error)]
pub enum DelayFault {
    /// It has more bytes than [`MOST_BYTES`](crate::MOST_BYTES).
    #[error("the text is too long")]
    TooLong,
    /// It is no JSON.
    #[error("the text is no JSON")]
    NotJson,
    /// Here something is missing, is one too many, or is no whole number, or a number of sites or places is 0.
    #[error("bad shape")]
    BadShape(Place),
    /// The number here is above its bound.
    #[error("too big a number")]
    TooBig(Place),
    /// There was no memory for the table.
    #[error("out of memory")]
    Memory,
}

impl From<AllocError> for DelayFault {
    ghost from_gives = { λ _ fault. fault ≡ Memory };

    fn from(_error: AllocError) -> DelayFault {
        DelayFault::Memory
    }
}
