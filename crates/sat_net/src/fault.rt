//! Why a label did not hop.

use std::alloc::AllocError;

/// Why a label was not handed on.
#[derive(Clone, Copy, Debug, PartialEq, Eq, Drop)]
pub enum HopFault {
    /// The serializer was killed.
    Dead,
    /// There was no memory for the copies.
    Memory,
}

impl From<AllocError> for HopFault {
    ghost use Rattle.std.specs.Prelude.{◌≡◌};
    ghost use Rattle.sat_net.specs.declared.fault.HopFault.TheVariants.{Memory};

    ghost from_gives = { λ _ fault. fault ≡ Memory };

    fn from(_error: AllocError) -> HopFault {
        HopFault::Memory
    }
}
