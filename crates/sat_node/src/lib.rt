//! Nodes that keep journals, and link ends that lie under their locks.
#![tactic(auto)]

ghost use Rattle.sat_node.specs.Laws.{TakenCame, LabelsInOrder, PutsAreNumbered};

mod held;
mod ins;
mod joint;
mod kept;
mod node;
mod opened;
mod outs;

pub use held::{Held, Locked};
pub use ins::In;
pub use joint::{Part, reserve_all, take_all, take_both, take_rest};
pub use kept::{Body, CallFault, Envelope, Kept, Made};
pub use node::{Machine, Node};
pub use opened::{agree_all, agree_two, agree_within};
pub use outs::{Names, Out};

/// Of what entries took from a link and of what entries put there, as `agree_two` tells: each thing that was taken was
/// put, in this order, and under a smaller number; of a link of labels alone the k-th taken is the k-th put; and each
/// payload and each beat that was put is the one of its number among those of its sort that the entries put there
/// before.
pub fn link_laws()
    ensures came { TakenCame }
    ensures labels { LabelsInOrder }
    ensures numbers { PutsAreNumbered }
{}
