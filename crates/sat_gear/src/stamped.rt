//! What a gear answers to a write.
ghost use Rattle.std.specs.Prelude.{◌≡◌};
ghost use Rattle.sat_gear.specs.declared.stamped.GearFault.TheVariants.{Memory};

use sat_label::{Counts, Label};
use std::alloc::AllocError;

/// The label of an update, and the number of its payload in the lane of each target, the targets ascending.
#[derive(Drop)]
pub struct Stamped {
    pub label: Label,
    pub numbers: Counts,
}

/// Why a gear stamped nothing.
#[derive(Clone, Copy, Debug, PartialEq, Eq, Drop)]
pub enum GearFault {
    /// No timestamp is left: the gear's promise or the client's point has the last one.
    Spent,
    /// There was no memory for it.
    Memory,
}

impl From<AllocError> for GearFault {
    ghost from_gives = { λ _ fault. fault ≡ Memory };

    fn from(_error: AllocError) -> GearFault {
        GearFault::Memory
    }
}
