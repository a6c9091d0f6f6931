//! Nodes that are lent to a session.
use sat_node::{CallFault, Held, Machine, Names, Node};

/// A node that is lent to a session, with what its owner keeps beside it: the ends of its links, or what a host keeps
/// of messages.
pub trait Lent<M: Machine> {
    ghost use Rattle.std.specs.Prelude.{◌≡◌, true, IfOk};
    ghost use Rattle.sat_node.specs.Links.{IsLocal};
    ghost use Rattle.sat_node.specs.Meanings.{replay};
    ghost use Rattle.sat_node.specs.Seen.{NodeSeen, Takes};

    /// The node.
    ghost node_of: { Self → NodeSeen M M.Input M.Answer };

    /// What its owner keeps beside it.
    ghost Beside: { Type 0 };

    ghost beside: { Self → Beside };

    /// The node: its name, its machine and its journal.
    fn node(&self) -> &Node<M>
        ensures node { result.now ≡ node_of self.now };

    /// Takes an input that takes nothing from a link, as `Node::take` does.
    fn act(&mut self, heard: u64, input: M::Input, copy: M::Input) -> Result<M::Answer, CallFault>
        requires fits { M.takes_in (node_of self.old).machine input ≡ true }
        requires copy { copy ≡ input }
        requires local { IsLocal M.meaning (node_of self.old) input }
        ensures takes { Takes heard input (M.may_fail (node_of self.old).machine input) result (node_of self.old)
            (node_of self.new) }
        ensures answer { IfOk result (λ a. M.meaning.answers (node_of self.old).name
            (replay M.meaning (node_of self.old).name (node_of self.old).entries) input a) }
        ensures beside { beside self.new ≡ beside self.old };
}

impl<M: Machine, N: Names> Lent<M> for Held<M, N> {
    ghost use Rattle.std.specs.Prelude.{List};
    ghost use Rattle.sat_node.specs.Puts.{OutSeen};
    ghost use Rattle.sat_node.specs.Links.{InSeen};

    ghost node_of = { λ h. h.node };

    ghost Beside = { List OutSeen × List InSeen };

    ghost beside = { λ h. (h.outs, h.ins) };

    fn node(&self) -> &Node<M> {
        Held::node(self)
    }

    fn act(&mut self, heard: u64, input: M::Input, copy: M::Input) -> Result<M::Answer, CallFault> {
        Held::act(self, heard, input, copy)
    }
}
