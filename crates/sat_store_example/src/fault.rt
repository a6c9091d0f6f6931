//! Why a replica or a relay did not do what it was told. Nothing has changed then.
ghost use Rattle.std.specs.Prelude.{◌≡◌};
ghost use Rattle.sat_store_example.specs.declared.fault.ReplicaFault.TheVariants.{Memory};

use std::alloc::AllocError;

/// Why a replica did not do what it was told.
#[derive(Clone, Copy, Debug, PartialEq, Eq, Drop)]
pub enum ReplicaFault {
    /// The client has no seat here, or, for an attach, it has one.
    Seat,
    /// The message or the call names a site, a gear, an item or a timestamp that the deployment does not have.
    Unfit,
    /// There was no memory.
    Memory,
}

/// Why a relay did not hand a label on.
#[derive(Clone, Copy, Debug, PartialEq, Eq, Drop)]
pub enum RelayFault {
    /// The label is none of the deployment, comes from no neighbour, or has no target on this side of the link.
    Unfit,
    /// The relay was killed.
    Dead,
    /// There was no memory.
    Memory,
}

impl From<AllocError> for ReplicaFault {
    ghost from_gives = { λ _ fault. fault ≡ Memory };

    fn from(_error: AllocError) -> ReplicaFault {
        ReplicaFault::Memory
    }
}
