//! Why lists of parents and seats are no tree.
ghost use Rattle.std.specs.Prelude.{◌≡◌};
ghost use Rattle.sat_tree.specs.declared.fault.TreeFault.TheVariants.{Memory};

use std::alloc::AllocError;
use thiserror::Error;

/// Why a tree was not made.
#[derive(Clone, Copy, Debug, PartialEq, Eq, Drop, Error)]
pub enum TreeFault {
    /// This many serializers: none, or more than 15.
    #[error("a tree has 1 to 15 serializers, and not {0}")]
    TooMany(usize),
    /// The first place that makes it no tree: a serializer whose parent is wrong, or, counted on from the last
    /// serializer,
    /// a site whose seat is none of them.
    #[error("no tree at place {0}")]
    NotATree(u16),
    /// There was no memory for it.
    #[error("out of memory")]
    Memory,
}

impl From<AllocError> for TreeFault {
    ghost from_gives = { λ _ fault. fault ≡ Memory };

    fn from(_error: AllocError) -> TreeFault {
        TreeFault::Memory
    }
}
