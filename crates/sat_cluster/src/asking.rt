//! What a session asks of nodes that are lent to it, and what it answers alone.
ghost use Rattle.std.specs.Prelude.{◌≡◌, ◌<◌, length, map, Some, None};
ghost use Rattle.sat_label.specs.declared.node.NodeName.TheVariants.{Gear as AtGear, Serializer as AtSerializer};
ghost use Rattle.sat_label.specs.declared.node.NodeName.TheVariants.{Site as AtSite};
ghost use Rattle.sat_act.specs.Answers.{InRange, gear_of};
ghost use Rattle.sat_model.specs.Reply.{gear_for};
ghost use Rattle.sat_stitch.specs.Places.{Client as OfClient, session_of};
ghost use Rattle.sat_node.specs.Meanings.{Runs};
ghost use Rattle.sat_machines.specs.Serials.{serial_meaning};
ghost use Rattle.sat_parts.specs.Gears.{gear_meaning};
ghost use Rattle.sat_parts.specs.Hubs.{hub_meaning};
ghost use Rattle.sat_session.specs.Calls.{IsGroup};
ghost use Rattle.sat_cluster.specs.Doing.{Did, node_of};

use sat_act::{Act, Answer};
use sat_label::{Items, Value, Values};
use sat_machines::{Laid, SerialNode};
use sat_node::{CallFault, Held, Names};
use sat_parts::{GearNode, HubNode};
use sat_parts_pump::Watched;
use sat_parts_session::{attach, close, fall, move_to, read, write, writes};
use sat_session::Session;
use std::sync::MutexGuard;

// ---- without a node

/// An act of a client that touches no node.
#[tactic(auto, using(crate::proofs::Doing::alone_places, crate::proofs::Doing::did_alone))]
pub(crate) fn alone<N: Laid>(session: &mut Session<N>, act: Act) -> Result<Answer, CallFault>
    requires own { session_of act ≡ Some (OfClient session.old.number) }
    requires client { session.old.number < length N.deployment.clients }
    requires range { InRange N.deployment act }
    requires nowhere { node_of N.deployment act session.old.client.seat ≡ None }
    ensures { Did N.deployment act result session.old session.new }
{
    session.alone(act)
}

/// A write of a client without a seat. That the session has no number left comes before want of memory for the value.
#[tactic(auto, using(crate::proofs::Doing::did_worn, crate::proofs::Doing::did_stop, crate::proofs::Doing::as_write))]
pub(crate) fn write_alone<N: Laid>(
    session: &mut Session<N>,
    item: u16,
    value: &Value,
) -> Result<Answer, CallFault>
    requires client { session.old.number < length N.deployment.clients }
    requires seat { session.old.client.seat ≡ None }
    ensures { Did N.deployment (Act.Write session.old.number item value.now) result session.old session.new }
{
    if session.lamport() == u64::MAX {
        return Err(CallFault::Worn(u64::MAX));
    }
    let Ok(copy) = value.copy() else {
        return Err(CallFault::Memory);
    };
    let client = session.number();
    alone(
        session,
        Act::Write {
            client,
            item,
            value: copy,
        },
    )
}

/// A write of several items by a client without a seat. That the session has no number left comes before want of memory
/// for the values.
#[tactic(auto, using(crate::proofs::Doing::did_worn, crate::proofs::Doing::did_stop, crate::proofs::Doing::as_writes))]
pub(crate) fn writes_alone<N: Laid>(
    session: &mut Session<N>,
    items: Items,
    values: &Values,
) -> Result<Answer, CallFault>
    requires client { session.old.number < length N.deployment.clients }
    requires group { IsGroup N.deployment items values.now }
    requires seat { session.old.client.seat ≡ None }
    ensures { Did N.deployment (Act.Writes session.old.number items values.now) result session.old session.new }
{
    if session.lamport() == u64::MAX {
        return Err(CallFault::Worn(u64::MAX));
    }
    let Ok(copy) = values.copy() else {
        return Err(CallFault::Memory);
    };
    let client = session.number();
    alone(
        session,
        Act::Writes {
            client,
            items,
            values: copy,
        },
    )
}

// ---- at nodes

// What is known of a gear's journal.
fn gear_runs<N: Laid + Names>(held: &Held<GearNode<N>, N>)
    ensures { Runs (gear_meaning N.deployment) held.now.node.name held.now.node.entries }
{
    let _ = held.node().journal();
}

// What is known of a hub's journal.
fn hub_runs<N: Laid + Names>(held: &Held<HubNode<N>, N>)
    ensures { Runs (hub_meaning N.deployment) held.now.node.name held.now.node.entries }
{
    let _ = held.node().journal();
}

// What is known of a serializer's journal.
fn serial_runs<N: Laid + Names>(held: &Held<SerialNode<N>, N>)
    ensures { Runs (serial_meaning N.deployment) held.now.node.name held.now.node.entries }
{
    let _ = held.node().journal();
}

/// A write at the item's gear of the client's site.
pub(crate) fn write_at<N: Laid + Names>(
    session: &mut Session<N>,
    held: &mut Held<GearNode<N>, N>,
    site: u16,
    item: u16,
    value: &Value,
) -> Result<Answer, CallFault>
    requires client { session.old.number < length N.deployment.clients }
    requires item { item < length N.deployment.items }
    requires seat { session.old.client.seat ≡ Some site }
    requires name { held.old.node.name ≡ AtGear site (gear_of N.deployment item) }
    ensures { Did N.deployment (Act.Write session.old.number item value.now) result session.old session.new }
{
    let result = write(session, held, item, value);
    gear_runs(held);
    result
}

/// A write of several items at their gears of the client's site: that of the least item, and the others.
pub(crate) fn writes_at<N: Laid + Names>(
    session: &mut Session<N>,
    home: &mut Held<GearNode<N>, N>,
    others: &mut Vec<MutexGuard<'_, Held<GearNode<N>, N>>>,
    site: u16,
    items: Items,
    values: &Values,
) -> Result<Answer, CallFault>
    requires client { session.old.number < length N.deployment.clients }
    requires group { IsGroup N.deployment items values.now }
    requires seat { session.old.client.seat ≡ Some site }
    requires name { home.old.node.name ≡ AtGear site (gear_for N.deployment items) }
    ensures { Did N.deployment (Act.Writes session.old.number items values.now) result session.old session.new }
{
    let result = writes(session, home, others, items, values);
    gear_runs(home);
    result
}

/// A read at the item's gear of the client's site.
pub(crate) fn read_at<N: Laid + Names>(
    session: &mut Session<N>,
    held: &mut Held<GearNode<N>, N>,
    site: u16,
    item: u16,
) -> Result<Answer, CallFault>
    requires client { session.old.number < length N.deployment.clients }
    requires item { item < length N.deployment.items }
    requires seat { session.old.client.seat ≡ Some site }
    requires name { held.old.node.name ≡ AtGear site (gear_of N.deployment item) }
    ensures { Did N.deployment (Act.Read session.old.number item) result session.old session.new }
{
    let result = read(session, held, item);
    gear_runs(held);
    result
}

/// A move from the client's site to another one, at gear 0.
pub(crate) fn move_at<N: Laid + Names>(
    session: &mut Session<N>,
    held: &mut Held<GearNode<N>, N>,
    site: u16,
    to: u16,
) -> Result<Answer, CallFault>
    requires client { session.old.number < length N.deployment.clients }
    requires to { to < N.deployment.sites }
    requires seat { session.old.client.seat ≡ Some site }
    requires name { held.old.node.name ≡ AtGear site 0 }
    ensures { Did N.deployment (Act.Move session.old.number to) result session.old session.new }
{
    let result = move_to(session, held, to);
    gear_runs(held);
    result
}

/// An attach of a client without a seat.
pub(crate) fn attach_at<N: Laid + Names>(
    session: &mut Session<N>,
    watched: &mut Watched<N>,
    site: u16,
) -> Result<Answer, CallFault>
    requires client { session.old.number < length N.deployment.clients }
    requires site { site < N.deployment.sites }
    requires seat { session.old.client.seat ≡ None }
    requires name { watched.old.node.name ≡ AtSite site }
    ensures { Did N.deployment (Act.Attach session.old.number site) result session.old session.new }
{
    let held = &mut watched.held;
    let result = attach(session, held, site);
    hub_runs(held);
    result
}

/// The operator's close.
pub(crate) fn close_at<N: Laid + Names>(
    session: &mut Session<N>,
    watched: &mut Watched<N>,
    site: u16,
) -> Result<Answer, CallFault>
    requires operator { session.old.number ≡ length N.deployment.clients }
    requires name { watched.old.node.name ≡ AtSite site }
    ensures { Did N.deployment (Act.Close site) result session.old session.new }
{
    let held = &mut watched.held;
    let result = close(session, held, site);
    hub_runs(held);
    result
}

/// The operator's fall.
pub(crate) fn fall_at<N: Laid + Names>(
    session: &mut Session<N>,
    watched: &mut Watched<N>,
    site: u16,
) -> Result<Answer, CallFault>
    requires operator { session.old.number ≡ length N.deployment.clients }
    requires name { watched.old.node.name ≡ AtSite site }
    ensures { Did N.deployment (Act.Fall site) result session.old session.new }
{
    let held = &mut watched.held;
    let result = fall(session, held, site);
    hub_runs(held);
    result
}

/// The operator's kill.
pub(crate) fn kill_at<N: Laid + Names>(
    session: &mut Session<N>,
    held: &mut Held<SerialNode<N>, N>,
    epoch: u16,
    serializer: u16,
) -> Result<Answer, CallFault>
    requires operator { session.old.number ≡ length N.deployment.clients }
    requires name { held.old.node.name ≡ AtSerializer epoch serializer }
    ensures { Did N.deployment (Act.Kill epoch serializer) result session.old session.new }
{
    let result = session.kill(held, epoch, serializer);
    serial_runs(held);
    result
}
