//! What the operator does at serializers.
ghost use Rattle.std.specs.Prelude.{◌≡◌, length};
ghost use Rattle.sat_machines.specs.declared.serial_act.SerialAct.TheVariants as given;
ghost use Rattle.sat_session.specs.Calls.{AtNode, of_serial};

use crate::answers::keep;
use crate::nodes::is_at;
use crate::{Lent, Session};
use sat_act::{Act, Answer};
use sat_label::NodeName;
use sat_machines::{Laid, SerialAct, SerialAnswer, SerialNode};
use sat_node::CallFault;

impl<N: Laid> Session<N> {
    /// The operator kills a serializer of an epoch's tree. Where this is another node, the answer is `Memory`, as for
    /// want of memory;
    /// `Worn`, with the greatest u64, comes only where the session's number or the node's is that. After an error all
    /// is as before.
    pub fn kill<H: Lent<SerialNode<N>>>(
        &mut self,
        held: &mut H,
        epoch: u16,
        serializer: u16,
    ) -> Result<Answer, CallFault>
        requires { self.old.number ≡ length N.deployment.clients }
        ensures done { AtNode (Act.Kill epoch serializer) given.Kill of_serial result (H.node_of held.old)
            (H.node_of held.new) self.old self.new }
        ensures beside { H.beside held.new ≡ H.beside held.old }
    {
        let name = NodeName::Serializer {
            epoch,
            number: serializer,
        };
        if !is_at(held, name) {
            return Err(CallFault::Memory);
        }
        if self.noted.reserve(1).is_err() {
            return Err(CallFault::Memory);
        }
        match held.act(self.lamport, SerialAct::Kill, SerialAct::Kill) {
            Ok(given) => {
                let SerialAnswer { answer, ends: _ } = given;
                let lamport = held.node().lamport();
                let act = Act::Kill { epoch, serializer };
                keep(
                    &mut self.noted,
                    &mut self.client,
                    lamport,
                    Some(name),
                    act,
                    &answer,
                    None,
                );
                self.lamport = lamport;
                Ok(answer)
            }
            Err(fault) => Err(fault),
        }
    }
}
