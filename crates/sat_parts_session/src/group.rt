//! What sessions do at several gears: a write of several items under one label.
ghost use Rattle.std.specs.Prelude.{ℕ, ◌≡◌, ◌+◌, ◌<◌, ◌≤◌, max, nat_le, false, Some, None, length, map, IfOk, OnErr};
ghost use Rattle.sat_label.specs.declared.label.Kind.TheVariants.{Update};
ghost use Rattle.sat_label.specs.declared.limits.TheConstants as limits;
ghost use Rattle.sat_label.specs.Order.{point_at};
ghost use Rattle.sat_node.specs.Links.{Each};
ghost use Rattle.sat_node.specs.Seen.{last_number};
ghost use Rattle.sat_node.specs.Together.{AllSame, lent, top_of};
ghost use Rattle.sat_opened.specs.Opened.{name_in};
ghost use Rattle.sat_parts.specs.declared.gear_input.GearInput.TheVariants as given;
ghost use Rattle.sat_parts.specs.Gears.{gear_meaning};
ghost use Rattle.sat_session.specs.Calls.{AtNodeAbove, IsGroup};
ghost use Rattle.sat_session.specs.Sessions.{IsSession};
ghost use Rattle.sat_parts_session.specs.Asked.{gear_asked, of_gear};
ghost use Rattle.sat_parts_session.specs.Groups.{AreGears, KeepBeside, shown_under};
ghost use Rattle.sat_parts_session.specs.Steps.{AreParts, KeepIf, ShowItsLabel, is_wrote};

use crate::beside::{prepared, seat_of};
use crate::reply::OfGear;
use sat_act::{Act, Answer};
use sat_bulk::Payload;
use sat_label::{Carried, Items, Kind, Label, Point, TS_END, Values};
use sat_machines::Laid;
use sat_node::{CallFault, Held, Names, Part, reserve_all, take_rest};
use sat_parts::{GearAct, GearInput, GearNode, ShownBy};
use sat_session::Session;
use std::alloc::{AllocError, Global};
use std::cmp::max;
use std::sync::MutexGuard;

// ---- the parts of the act

// The label that a gear's next update of these items gets, by its promise and by what the client saw: a gear does not
// stamp where no timestamp is left.
fn next_label(promise: u64, seen: u64, site: u16, gear: u16, items: Items) -> Label
    ensures { nat_le limits.TS_END (max promise seen) ≡ false → result
        ≡ record { point = point_at (max promise seen + 1) site gear; kind = Update items } }
{
    let base = max(promise, seen);
    let ts = if base < TS_END { base + 1 } else { base };
    Label {
        point: Point { ts, site, gear },
        kind: Kind::Update(items),
    }
}

// What a gear is handed that shows its part of a client's write.
fn show_of<N: Laid>(
    alloc: Global,
    client: u16,
    label: Label,
    values: &Values,
) -> Result<GearAct<N>, AllocError>
    requires { client < length N.deployment.clients }
    ensures { IfOk result (λ act. act ≡ shown_under client values.now label) }
{
    let payload = Payload::new(alloc, label, values.as_slice())?;
    Ok(GearAct::of_client(
        client,
        GearInput::Show {
            by: ShownBy::Write,
            payload,
        },
    ))
}

// What the home is handed, with a copy.
fn write_of<N: Laid>(
    client: u16,
    carried: Carried,
    items: Items,
    values: &Values,
) -> Result<Part<GearAct<N>>, AllocError>
    requires { client < length N.deployment.clients }
    ensures { IfOk result (λ p. (p.input ≡ gear_asked (Some client) (given.Write carried items values.now))
        × (p.copy ≡ p.input)) }
{
    let values = values.copy()?;
    let input = GearAct::of_client(
        client,
        GearInput::Write {
            carried,
            items,
            values,
        },
    );
    let copy = input.copy()?;
    Ok(Part { input, copy })
}

// The act.
fn act_of(client: u16, items: Items, values: &Values) -> Result<Act, AllocError>
    ensures { IfOk result (λ act. act ≡ Act.Writes client items values.now) }
{
    let values = values.copy()?;
    Ok(Act::Writes {
        client,
        items,
        values,
    })
}

// ---- its steps

// Whether the home wrote.
fn is_wrote(given: &Result<Answer, CallFault>) -> bool
    ensures { result ≡ is_wrote given.now }
{
    match given {
        Ok(answer) => match answer {
            Answer::Wrote(_) => true,
            _ => false,
        },
        Err(_) => false,
    }
}

// Each gear beside the home takes its part where that wrote.
#[tactic(auto, using(sat_node::proofs::Lent::all_same))]
fn show_beside<N: Laid + Names>(
    others: &mut Vec<MutexGuard<'_, Held<GearNode<N>, N>>>,
    last: u64,
    is_done: bool,
    parts: Vec<Part<GearAct<N>>>,
)
    requires room { Each (lent others.old.items) (λ _ h. 0 < h.node.room) }
    requires number { Each (lent others.old.items) (λ _ h. h.node.number ≤ last) }
    requires parts { AreParts N.deployment (lent others.old.items) parts.items }
    requires last { last < last_number }
    ensures { KeepIf N.deployment is_done (last + 1) parts.items (lent others.old.items) (lent others.new.items) }
{
    if is_done {
        take_rest(others, last, parts);
    }
}

// What a write of several items needs: what the home is handed, the act, and the parts of the gears beside it.
#[derive(Drop)]
struct Ready<N: Laid> {
    own: Part<GearAct<N>>,
    act: Act,
    parts: Vec<Part<GearAct<N>>>,
}

// All of it, for the gears of the items at the client's seat. The label that the parts show is read off the home, whose
// lock is held: it is the one that the home stamps, if it writes.
fn get_ready<N: Laid + Names>(
    session: &Session<N>,
    home: &Held<GearNode<N>, N>,
    others: &[MutexGuard<'_, Held<GearNode<N>, N>>],
    items: Items,
    values: &Values,
) -> Result<Ready<N>, AllocError>
    requires client { session.now.number < length N.deployment.clients }
    ensures session { IfOk result (λ _. IsSession N.deployment session.now) }
    ensures nodes { IfOk result (λ _. (i : ℕ) × AreGears N.deployment session.now.client.seat items i home.now.node.name
        (map name_in (lent others.now))) }
    ensures own { IfOk result (λ r. r.own.input
        ≡ gear_asked (Some session.now.number) (given.Write session.now.client.carried items values.now)) }
    ensures copy { IfOk result (λ r. r.own.copy ≡ r.own.input) }
    ensures act { IfOk result (λ r. r.act ≡ Act.Writes session.now.number items values.now) }
    ensures parts { IfOk result (λ r. AreParts N.deployment (lent others.now) r.parts.items) }
    ensures label { IfOk result (λ r. ShowItsLabel N.deployment home.now.node r.own.input session.now.number values.now
        r.parts.items) }
{
    let Some(seat) = seat_of(session, home, others, &items) else {
        return Err(AllocError);
    };
    let alloc = session.allocator();
    let client = session.number();
    let carried = session.client().carried;
    let machine = home.node().machine();
    let label = next_label(
        machine.gear().promise(),
        carried.point.ts,
        seat,
        machine.number(),
        items,
    );
    let shown = show_of::<N>(alloc, client, label, values)?;
    let parts = prepared(alloc, others, &shown)?;
    let own = write_of::<N>(client, carried, items, values)?;
    let act = act_of(client, items, values)?;
    Ok(Ready { own, act, parts })
}

// The act, under one above this number, once there is room for it at all gears.
fn write_above<N: Laid + Names>(
    session: &mut Session<N>,
    home: &mut Held<GearNode<N>, N>,
    others: &mut Vec<MutexGuard<'_, Held<GearNode<N>, N>>>,
    last: u64,
    items: Items,
    values: &Values,
) -> Result<Answer, CallFault>
    requires client { session.old.number < length N.deployment.clients }
    requires group { IsGroup N.deployment items values.now }
    requires said { session.old.lamport ≤ last }
    requires home { home.old.node.number ≤ last }
    requires number { Each (lent others.old.items) (λ _ h. h.node.number ≤ last) }
    requires room { Each (lent others.old.items) (λ _ h. 0 < h.node.room) }
    requires last { last < last_number }
    ensures nodes { IfOk result (λ _. (i : ℕ) × AreGears N.deployment session.old.client.seat items i home.old.node.name
        (map name_in (lent others.old.items))) }
    ensures done { AtNodeAbove last (Act.Writes session.old.number items values.now)
        (gear_asked (Some session.old.number) (given.Write session.old.client.carried items values.now)) of_gear result
        home.old.node home.new.node session.old session.new }
    ensures ends { (home.new.outs ≡ home.old.outs) × (home.new.ins ≡ home.old.ins) }
    ensures beside { IfOk result (λ r. KeepBeside N.deployment (last + 1) session.old.number values.now r
        (lent others.old.items) (lent others.new.items)) }
    ensures err { OnErr result (AllSame (lent others.old.items) (lent others.new.items)) }
{
    let Ok(made) = get_ready(&*session, &*home, others.as_slice(), items, values) else {
        return Err(CallFault::Memory);
    };
    let Ready { own, act, parts } = made;
    let result = session.at_node_above::<GearNode<N>, OfGear, Held<GearNode<N>, N>>(
        home, last, own, act, None,
    );
    show_beside(others, last, is_wrote(&result), parts);
    result
}

/// Writes several items under one label at their gears at the client's seat: the least item's gear, which is the home
/// and answers, and the others, ascending, all lent. Where the home writes, all keep an entry under one number, one
/// above the greatest of the session's and of those of all these gears (Lamport, 1978): the home the write, each other
/// gear its part, with the values under the label that was stamped. Where it refuses, it alone keeps an entry. Where
/// these are not the gears, the answer is `Memory`, as for want of memory; `Worn`, with the greatest u64, comes only
/// where that greatest number is it. After an error all is as before.
pub fn writes<N: Laid + Names>(
    session: &mut Session<N>,
    home: &mut Held<GearNode<N>, N>,
    others: &mut Vec<MutexGuard<'_, Held<GearNode<N>, N>>>,
    items: Items,
    values: &Values,
) -> Result<Answer, CallFault>
    requires client { session.old.number < length N.deployment.clients }
    requires group { IsGroup N.deployment items values.now }
    ensures nodes { IfOk result (λ _. (i : ℕ) × AreGears N.deployment session.old.client.seat items i home.old.node.name
        (map name_in (lent others.old.items))) }
    ensures done { AtNodeAbove (top_of session.old.lamport None home.old (lent others.old.items))
        (Act.Writes session.old.number items values.now)
        (gear_asked (Some session.old.number) (given.Write session.old.client.carried items values.now)) of_gear result
        home.old.node home.new.node session.old session.new }
    ensures ends { (home.new.outs ≡ home.old.outs) × (home.new.ins ≡ home.old.ins) }
    ensures beside { IfOk result (λ r. KeepBeside N.deployment
        (top_of session.old.lamport None home.old (lent others.old.items) + 1) session.old.number values.now r
        (lent others.old.items) (lent others.new.items)) }
    ensures err { OnErr result (AllSame (lent others.old.items) (lent others.new.items)) }
{
    let said = session.lamport();
    let last = match reserve_all(home, others, said, None) {
        Ok(last) => last,
        Err(fault) => return Err(fault),
    };
    write_above(session, home, others, last, items, values)
}
