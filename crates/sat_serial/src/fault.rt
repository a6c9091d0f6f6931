//! Why a serializer did not do what it was told.
ghost use Rattle.std.specs.Prelude.{◌≡◌};
ghost use Rattle.sat_serial.specs.declared.fault.HandleFault.TheVariants.{Memory};

use std::alloc::AllocError;

/// Why a label was not handled.
#[derive(Clone, Copy, Debug, PartialEq, Eq, Drop)]
pub enum HandleFault {
    /// The serializer was killed.
    Dead,
    /// There was no memory for the copies.
    Memory,
}

impl From<AllocError> for HandleFault {
    ghost from_gives = { λ _ fault. fault ≡ Memory };

    fn from(_error: AllocError) -> HandleFault {
        HandleFault::Memory
    }
}

/// Why a serializer was not killed.
#[derive(Clone, Copy, Debug, PartialEq, Eq, Drop)]
pub enum KillFault {
    /// It was killed before.
    Already,
}
