//! What sessions do at hubs.
ghost use Rattle.std.specs.Prelude.{◌≡◌, ◌<◌, length, None, Some, OnOk};
ghost use Rattle.sat_label.specs.declared.node.NodeName.{NodeName as Name};
ghost use Rattle.sat_parts.specs.declared.hub_input.HubInput.TheVariants as given;
ghost use Rattle.sat_parts.specs.Hubs.{hub_meaning};
ghost use Rattle.sat_session.specs.Calls.{AtNode};
ghost use Rattle.sat_session.specs.Replies.{Asks};
ghost use Rattle.sat_parts_session.specs.Asked.{hub_asked, of_hub};

use crate::reply::OfHub;
use sat_act::{Act, Answer};
use sat_label::NodeName;
use sat_machines::Laid;
use sat_node::{CallFault, Part};
use sat_parts::{HubAct, HubInput, HubNode};
use sat_session::{Lent, Session, is_at};

// Takes an act to the hub at which it stands.
fn at_hub<N: Laid, H: Lent<HubNode<N>>>(
    session: &mut Session<N>,
    held: &mut H,
    input: HubAct<N>,
    act: Act,
) -> Result<Answer, CallFault>
    requires { Asks N.deployment (hub_meaning N.deployment) of_hub session.old (H.node_of held.old) input act None }
    ensures done { AtNode act input of_hub result (H.node_of held.old) (H.node_of held.new) session.old session.new }
    ensures beside { H.beside held.new ≡ H.beside held.old }
{
    let Ok(copy) = input.copy() else {
        return Err(CallFault::Memory);
    };
    session.at_node::<HubNode<N>, OfHub, H>(held, Part { input, copy }, act, None)
}

/// Asks the hub of a site for a seat. Where the client has one, or this is another node, the answer is `Memory`, as for
/// want of memory; `Worn`, with the greatest u64, comes only where the session's number or the node's is that. After an
/// error all is as before.
pub fn attach<N: Laid, H: Lent<HubNode<N>>>(
    session: &mut Session<N>,
    held: &mut H,
    site: u16,
) -> Result<Answer, CallFault>
    requires client { session.old.number < length N.deployment.clients }
    requires site { site < N.deployment.sites }
    ensures place { OnOk result ((H.node_of held.old).name ≡ Name.Site site) }
    ensures unseated { OnOk result (session.old.client.seat ≡ None) }
    ensures done { AtNode (Act.Attach session.old.number site)
        (hub_asked (Some session.old.number) (given.Attach session.old.client.carried)) of_hub result
        (H.node_of held.old) (H.node_of held.new) session.old session.new }
    ensures beside { H.beside held.new ≡ H.beside held.old }
{
    let client = session.number();
    if session.client().seat.is_some() {
        return Err(CallFault::Memory);
    }
    if !is_at::<HubNode<N>, H>(held, NodeName::Site(site)) {
        return Err(CallFault::Memory);
    }
    let carried = session.client().carried;
    let input = HubAct::of_client(client, HubInput::Attach { carried });
    at_hub(session, held, input, Act::Attach { client, site })
}

/// The operator closes the emission epoch of a site, at its hub. Where this is another node, the answer is `Memory`;
/// errors come as in `attach`.
pub fn close<N: Laid, H: Lent<HubNode<N>>>(
    session: &mut Session<N>,
    held: &mut H,
    site: u16,
) -> Result<Answer, CallFault>
    requires { session.old.number ≡ length N.deployment.clients }
    ensures place { OnOk result ((H.node_of held.old).name ≡ Name.Site site) }
    ensures done { AtNode (Act.Close site) (hub_asked None given.Close) of_hub result (H.node_of held.old)
        (H.node_of held.new) session.old session.new }
    ensures beside { H.beside held.new ≡ H.beside held.old }
{
    if !is_at::<HubNode<N>, H>(held, NodeName::Site(site)) {
        return Err(CallFault::Memory);
    }
    let input = HubAct::of_hub(HubInput::Close);
    at_hub(session, held, input, Act::Close { site })
}

/// The operator makes a site go by timestamp order, at its hub. Where this is another node, the answer is `Memory`;
/// errors come as in `attach`.
pub fn fall<N: Laid, H: Lent<HubNode<N>>>(
    session: &mut Session<N>,
    held: &mut H,
    site: u16,
) -> Result<Answer, CallFault>
    requires { session.old.number ≡ length N.deployment.clients }
    ensures place { OnOk result ((H.node_of held.old).name ≡ Name.Site site) }
    ensures done { AtNode (Act.Fall site) (hub_asked None given.Fall) of_hub result (H.node_of held.old)
        (H.node_of held.new) session.old session.new }
    ensures beside { H.beside held.new ≡ H.beside held.old }
{
    if !is_at::<HubNode<N>, H>(held, NodeName::Site(site)) {
        return Err(CallFault::Memory);
    }
    let input = HubAct::of_hub(HubInput::Fall);
    at_hub(session, held, input, Act::Fall { site })
}
