//! What a session does at a node, whatever its machine is.
ghost use Rattle.std.specs.Prelude.{◌≡◌, ◌≤◌, max, IfOk};
ghost use Rattle.sat_label.specs.Order.{name_eq};
ghost use Rattle.sat_node.specs.Meanings.{replay};
ghost use Rattle.sat_session.specs.Calls.{AtNode, AtNodeAbove};
ghost use Rattle.sat_session.specs.Replies.{Asks};

use crate::answers::keep;
use crate::{Lent, Reply, Session};
use sat_act::{Act, Answer};
use sat_label::NodeName;
use sat_machines::Laid;
use sat_node::{CallFault, Machine, Part};

/// Whether it is the node of this name.
pub fn is_at<M: Machine, H: Lent<M>>(held: &H, place: NodeName) -> bool
    ensures { result ≡ name_eq (H.node_of held.now).name place }
{
    held.node().name().is_same(&place)
}

impl<N: Laid> Session<N> {
    /// Takes an act to the node at which it stands, and notes what is answered, under one above its own number and the
    /// node's. A spare copy of the answer is asked for where that holds a list. Where the node's machine does not take
    /// the input, the answer is `Memory`, as for want of memory; `Worn`, with the greatest u64, comes only where the
    /// session's number or the node's is that. After an error all is as before.
    pub fn at_node<M: Machine, R: Reply<M>, H: Lent<M>>(
        &mut self,
        held: &mut H,
        own: Part<M::Input>,
        act: Act,
        spare: Option<Answer>,
    ) -> Result<Answer, CallFault>
        requires asks { Asks N.deployment M.meaning R.answer_of self.old (H.node_of held.old) own.input act spare }
        requires copy { own.copy ≡ own.input }
        ensures done { AtNode act own.input R.answer_of result (H.node_of held.old) (H.node_of held.new) self.old
            self.new }
        ensures beside { H.beside held.new ≡ H.beside held.old }
    {
        let said = self.lamport;
        self.at_node_above::<M, R, H>(held, said, own, act, spare)
    }

    /// The same under one above the node's number and one that is said, which is no less than the session's: that of an
    /// act of several nodes is above the numbers of all of them.
    pub fn at_node_above<M: Machine, R: Reply<M>, H: Lent<M>>(
        &mut self,
        held: &mut H,
        said: u64,
        own: Part<M::Input>,
        act: Act,
        spare: Option<Answer>,
    ) -> Result<Answer, CallFault>
        requires asks { Asks N.deployment M.meaning R.answer_of self.old (H.node_of held.old) own.input act spare }
        requires copy { own.copy ≡ own.input }
        requires said { self.old.lamport ≤ said }
        ensures done { AtNodeAbove (max (H.node_of held.old).number said) act own.input R.answer_of result
            (H.node_of held.old) (H.node_of held.new) self.old self.new }
        ensures answer { IfOk result (λ r. (given : M.Answer) × (R.answer_of given ≡ r) × M.meaning.answers
            (H.node_of held.old).name (replay M.meaning (H.node_of held.old).name (H.node_of held.old).entries)
            own.input given) }
        ensures beside { H.beside held.new ≡ H.beside held.old }
    {
        if !held.node().machine().fits(&own.input) {
            return Err(CallFault::Memory);
        }
        if self.noted.reserve(1).is_err() {
            return Err(CallFault::Memory);
        }
        let name = held.node().name();
        let Part { input, copy } = own;
        match held.act(said, input, copy) {
            Ok(given) => {
                let answer = R::answer(given);
                let lamport = held.node().lamport();
                keep(
                    &mut self.noted,
                    &mut self.client,
                    lamport,
                    Some(name),
                    act,
                    &answer,
                    spare,
                );
                self.lamport = lamport;
                Ok(answer)
            }
            Err(fault) => Err(fault),
        }
    }
}
