//! What carries messages between processes.
ghost use Rattle.std.specs.Prelude.{◌≡◌, ℕ, [], ◌∷◌, OnErr};
ghost use Rattle.sat_handed.specs.Transports.{Gives, Grows, posted};

/// The transport gave nothing, because it failed.
#[derive(Clone, Copy, Debug, PartialEq, Eq)]
pub struct NoLetter;

/// What carries letters, each over a link of this node, to the node at the other end and from it: a socket for each
/// link, or one for all. Links are numbered as the node's are. It may lose, delay, double and reorder letters, and give
/// what nobody sent it: what a process takes of a letter is said by the process's own calls, and that it was sent is
/// the one thing that a store asks of its transports. What it was handed and what it gave is known only where it tells
/// it, as one in memory does.
pub trait Transport: Drop {
    ghost use Rattle.std.specs.Prelude.{List};
    ghost use Rattle.std.specs.declared.option.Option.{Option};
    ghost use Rattle.sat_handed.specs.Transports.{Posted};

    /// All that was handed to it, the oldest first, where it tells it.
    ghost sent: { Self → Option (List Posted) };

    /// All that it gave, the oldest first, where it tells it.
    ghost came: { Self → Option (List Posted) };

    /// Is handed a letter for the node at the other end of a link. False where it says that it did not take it; true
    /// says nothing of the letter.
    fn send(&mut self, link: u16, bytes: &[u8]) -> bool
        ensures sent { Grows (sent self.old) (sent self.new) (posted link bytes.now ∷ []) }
        ensures came { Grows (came self.old) (came self.new) [] };

    /// Puts the next letter that came, whole, in place of what a vector holds, and answers its link. `None` where there
    /// is none now. It need not wait for one. After an error the vector may hold anything.
    fn receive(&mut self, into: &mut Vec<u8>) -> Result<Option<u16>, NoLetter>
        ensures sent { Grows (sent self.old) (sent self.new) [] }
        ensures came { Gives result into.new.items (came self.old) (came self.new) };
}
