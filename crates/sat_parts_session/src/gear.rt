//! What sessions do at one gear.
ghost use Rattle.std.specs.Prelude.{◌≡◌, ◌<◌, [], ◌∷◌, true, length, Some, None, IfOk, IfSome, OnOk};
ghost use Rattle.sat_label.specs.declared.items.Items.TheVariants.{One};
ghost use Rattle.sat_label.specs.declared.node.NodeName.{NodeName as Name};
ghost use Rattle.sat_act.specs.Answers.{gear_of};
ghost use Rattle.sat_node.specs.Meanings.{replay};
ghost use Rattle.sat_parts.specs.declared.gear_input.GearInput.TheVariants as given;
ghost use Rattle.sat_parts.specs.Gears.{gear_meaning};
ghost use Rattle.sat_session.specs.Calls.{AtNode};
ghost use Rattle.sat_session.specs.Replies.{Asks, Looked};
ghost use Rattle.sat_parts_session.specs.Asked.{AtSeat, as_site, gear_asked, of_gear};

use crate::reply::OfGear;
use sat_act::{Act, Answer};
use sat_hub::is_here;
use sat_label::{Items, NodeName, Value};
use sat_machines::Laid;
use sat_node::{CallFault, Part};
use sat_parts::{GearAct, GearInput, GearNode};
use sat_session::{Lent, Session, is_at, one_value, read_of};
use std::alloc::AllocError;

/// How many gears each site has.
pub(crate) fn gears<N: Laid, H: Lent<GearNode<N>>>(held: &H) -> u16
    ensures count { result ≡ N.deployment.gears }
    ensures some { 0 < result }
{
    let machine = held.node().machine();
    // This brings what is true of a gear into the proof; nothing else is wanted of it.
    let _ = machine.gear().promise();
    machine.shape().gears
}

/// The client's seat, if this is the gear of this number there.
pub(crate) fn seated<N: Laid, H: Lent<GearNode<N>>>(
    session: &Session<N>,
    held: &H,
    gear: u16,
) -> Option<u16>
    ensures { IfSome result (λ i. (session.now.client.seat ≡ Some i)
        × ((H.node_of held.now).name ≡ Name.Gear i gear)) }
{
    let seat = session.client().seat?;
    if !is_at::<GearNode<N>, H>(held, NodeName::Gear { site: seat, gear }) {
        return None;
    }
    Some(seat)
}

// Whether this is the gear of this number at the client's seat.
fn is_seated<N: Laid, H: Lent<GearNode<N>>>(session: &Session<N>, held: &H, gear: u16) -> bool
    ensures { result ≡ true → AtSeat session.now.client.seat gear (H.node_of held.now).name }
{
    match seated(session, held, gear) {
        Some(_) => true,
        None => false,
    }
}

// What a read would answer at the gear of the item, where that is a value. Its point is one of the deployment; else the
// answer is want of memory.
fn look<N: Laid, H: Lent<GearNode<N>>>(
    held: &H,
    site: u16,
    gear: u16,
    item: u16,
) -> Result<Option<Answer>, AllocError>
    requires item { item < length N.deployment.items }
    requires gear { gear ≡ gear_of N.deployment item }
    requires name { (H.node_of held.now).name ≡ Name.Gear site gear }
    ensures { IfOk result (λ spare. Looked N.deployment site (as_site N.deployment site
        (replay (gear_meaning N.deployment) (H.node_of held.now).name (H.node_of held.now).entries)) item spare) }
{
    let machine = held.node().machine();
    let shape = machine.shape();
    if !is_here(shape, item) {
        return Ok(None);
    }
    let Some(version) = machine.gear().read(item) else {
        return Ok(None);
    };
    let spare = read_of(version, shape.sites)?;
    Ok(Some(spare))
}

// Takes an act to the gear at which it stands.
fn at_gear<N: Laid, H: Lent<GearNode<N>>>(
    session: &mut Session<N>,
    held: &mut H,
    input: GearAct<N>,
    act: Act,
    spare: Option<Answer>,
) -> Result<Answer, CallFault>
    requires { Asks N.deployment (gear_meaning N.deployment) of_gear session.old (H.node_of held.old) input act spare }
    ensures done { AtNode act input of_gear result (H.node_of held.old) (H.node_of held.new) session.old session.new }
    ensures beside { H.beside held.new ≡ H.beside held.old }
{
    let Ok(copy) = input.copy() else {
        return Err(CallFault::Memory);
    };
    session.at_node::<GearNode<N>, OfGear, H>(held, Part { input, copy }, act, spare)
}

/// Writes an item at its gear at the client's seat. Where this is another node, the answer is `Memory`, as for want of
/// memory; `Worn`, with the greatest u64, comes only where the session's number or the node's is that. After an error
/// all is as before.
pub fn write<N: Laid, H: Lent<GearNode<N>>>(
    session: &mut Session<N>,
    held: &mut H,
    item: u16,
    value: &Value,
) -> Result<Answer, CallFault>
    requires client { session.old.number < length N.deployment.clients }
    requires item { item < length N.deployment.items }
    ensures place { OnOk result (AtSeat session.old.client.seat (gear_of N.deployment item)
        (H.node_of held.old).name) }
    ensures done { AtNode (Act.Write session.old.number item value.now)
        (gear_asked (Some session.old.number) (given.Write session.old.client.carried (One item) (value.now ∷ [])))
        of_gear result (H.node_of held.old) (H.node_of held.new) session.old session.new }
    ensures beside { H.beside held.new ≡ H.beside held.old }
{
    let client = session.number();
    let gear = item % gears(&*held);
    if !is_seated(&*session, &*held, gear) {
        return Err(CallFault::Memory);
    }
    let Ok(values) = one_value(session.allocator(), value) else {
        return Err(CallFault::Memory);
    };
    let Ok(value) = value.copy() else {
        return Err(CallFault::Memory);
    };
    let carried = session.client().carried;
    let items = Items::One(item);
    let input = GearAct::of_client(
        client,
        GearInput::Write {
            carried,
            items,
            values,
        },
    );
    let act = Act::Write {
        client,
        item,
        value,
    };
    at_gear(session, held, input, act, None)
}

/// Reads an item at its gear at the client's seat. Errors come as in `write`.
pub fn read<N: Laid, H: Lent<GearNode<N>>>(
    session: &mut Session<N>,
    held: &mut H,
    item: u16,
) -> Result<Answer, CallFault>
    requires client { session.old.number < length N.deployment.clients }
    requires item { item < length N.deployment.items }
    ensures place { OnOk result (AtSeat session.old.client.seat (gear_of N.deployment item)
        (H.node_of held.old).name) }
    ensures done { AtNode (Act.Read session.old.number item)
        (gear_asked (Some session.old.number) (given.Read session.old.client.carried item)) of_gear result
        (H.node_of held.old) (H.node_of held.new) session.old session.new }
    ensures beside { H.beside held.new ≡ H.beside held.old }
{
    let client = session.number();
    let gear = item % gears(&*held);
    let Some(seat) = seated(&*session, &*held, gear) else {
        return Err(CallFault::Memory);
    };
    let Ok(spare) = look(&*held, seat, gear, item) else {
        return Err(CallFault::Memory);
    };
    let carried = session.client().carried;
    let input = GearAct::of_client(client, GearInput::Read { carried, item });
    at_gear(session, held, input, Act::Read { client, item }, spare)
}

/// Gives up the client's seat at its site, at gear 0, to go to another one. Errors come as in `write`.
pub fn move_to<N: Laid, H: Lent<GearNode<N>>>(
    session: &mut Session<N>,
    held: &mut H,
    site: u16,
) -> Result<Answer, CallFault>
    requires client { session.old.number < length N.deployment.clients }
    requires site { site < N.deployment.sites }
    ensures place { OnOk result (AtSeat session.old.client.seat 0 (H.node_of held.old).name) }
    ensures done { AtNode (Act.Move session.old.number site)
        (gear_asked (Some session.old.number) (given.Move session.old.client.carried site)) of_gear result
        (H.node_of held.old) (H.node_of held.new) session.old session.new }
    ensures beside { H.beside held.new ≡ H.beside held.old }
{
    let client = session.number();
    if !is_seated(&*session, &*held, 0) {
        return Err(CallFault::Memory);
    }
    let carried = session.client().carried;
    let input = GearAct::of_client(client, GearInput::Move { carried, to: site });
    at_gear(session, held, input, Act::Move { client, site }, None)
}
