//! A hub and its gears as machines, each handed what the others give: a write of two items of two gears goes from one
//! site to another.
ghost use Rattle.std.specs.Prelude.{◌≡◌, ◌<◌, true, false, length, IfOk};
ghost use Rattle.sat_parts.specs.Acts.{is_gear_clients, is_hub_clients};

use sat_act::{Answer, ClientLine, Deployment, Item, Plan};
use sat_bulk::{Drained, Payload};
use sat_label::{Carried, Items, Label, Name, NodeName, Point, SiteSet, Value, Values};
use sat_machines::Laid;
use sat_node::{Machine, Made};
use sat_parts::{
    Drains, GearAct, GearInput, GearNode, HubAct, HubAnswer, HubInput, HubNode, ShownBy,
};
use sat_tree::Tree;
use std::alloc::{AllocError, Global};
use std::marker::Brand;
use std::test::Fail;

fn name(alloc: Global, text: &[u8]) -> Result<Name, AllocError> {
    Name::of(alloc, text)?.ok_or(AllocError)
}

// Two sites of two gears, an item of each gear at both, and a client.
fn deployment(alloc: Global) -> Result<Deployment, AllocError>
    ensures { IfOk result (λ d. (d.sites ≡ 2) × (d.gears ≡ 2) × (length d.clients ≡ 1)) }
{
    let mut items = Vec::new(alloc);
    items.push(Item {
        name: name(alloc, b"x")?,
        replicas: SiteSet { bits: 3 },
    })?;
    items.push(Item {
        name: name(alloc, b"y")?,
        replicas: SiteSet { bits: 3 },
    })?;
    let mut clients = Vec::new(alloc);
    clients.push(ClientLine {
        name: name(alloc, b"a")?,
        site: 0,
    })?;
    let Ok(tree) = Tree::new(alloc, &[None], &[0, 0]) else {
        return Err(AllocError);
    };
    let mut plans = Vec::new(alloc);
    plans.push(Plan::Tree(tree))?;
    let Ok(d) = Deployment::new(alloc, 2, 2, 2, items, clients, plans) else {
        return Err(AllocError);
    };
    Ok(d)
}

// An answer as a number for its kind, and a timestamp or, of a gather, how many labels it has.
fn told(answer: &Answer) -> (u8, u64) {
    match answer {
        Answer::Wrote(label) => (1, label.point.ts),
        Answer::Ticked(ts) => (2, *ts),
        Answer::Gathered { labels, .. } => (3, *labels),
        Answer::Emitted(label) => (4, label.point.ts),
        Answer::Brought(label) => (5, label.point.ts),
        Answer::Shown(label) => (6, label.point.ts),
        Answer::ReadSome { label, .. } => (7, label.point.ts),
        _ => (0, 0),
    }
}

// A machine takes an input that fits.
fn done<M: Machine>(node: &mut M, input: M::Input) -> Result<M::Answer, AllocError> {
    if !node.fits(&input) {
        return Err(AllocError);
    }
    let (answer, _) = node.step(input)?;
    Ok(answer)
}

fn at_hub<N: Laid>(
    hub: &mut HubNode<N>,
    input: HubInput,
    log: &mut Vec<(u8, u64)>,
) -> Result<HubAnswer, AllocError>
    requires { is_hub_clients input ≡ false }
{
    let given = done(hub, HubAct::of_hub(input))?;
    log.push(told(&given.answer))?;
    Ok(given)
}

fn at_gear<N: Laid>(
    gear: &mut GearNode<N>,
    input: GearInput,
    log: &mut Vec<(u8, u64)>,
) -> Result<(), AllocError>
    requires { is_gear_clients input ≡ false }
{
    let given = done(gear, GearAct::of_gear(input))?;
    log.push(told(&given.answer))?;
    Ok(())
}

fn for_client<N: Laid>(
    gear: &mut GearNode<N>,
    input: GearInput,
    log: &mut Vec<(u8, u64)>,
) -> Result<(), AllocError>
    requires client { 0 < length N.deployment.clients }
    requires input { is_gear_clients input ≡ true }
{
    let given = done(gear, GearAct::of_client(0, input))?;
    log.push(told(&given.answer))?;
    Ok(())
}

const NOBODY: Carried = Carried {
    point: Point {
        ts: 0,
        site: 0,
        gear: 0,
    },
    moving: None,
};

fn read<N: Laid>(
    gear: &mut GearNode<N>,
    item: u16,
    log: &mut Vec<(u8, u64)>,
) -> Result<(), AllocError>
    requires { 0 < length N.deployment.clients }
{
    for_client(
        gear,
        GearInput::Read {
            carried: NOBODY,
            item,
        },
        log,
    )
}

fn two_values(alloc: Global) -> Result<Values, AllocError> {
    let mut values = Vec::new(alloc);
    values.push(Value::of(alloc, b"1")?.ok_or(AllocError)?)?;
    values.push(Value::of(alloc, b"2")?.ok_or(AllocError)?)?;
    Ok(Values::many(values))
}

// A client writes both items at the first gear: the payload that this puts on its lane to the other site.
fn write<N: Laid>(
    alloc: Global,
    gear: &mut GearNode<N>,
    log: &mut Vec<(u8, u64)>,
) -> Result<Payload, AllocError>
    requires { 0 < length N.deployment.clients }
{
    let values = two_values(alloc)?;
    let input = GearInput::Write {
        carried: NOBODY,
        items: Items::Two(0, 1),
        values,
    };
    let act = GearAct::<N>::of_client(0, input);
    let again = act.copy()?;
    let given = done(gear, act)?;
    log.push(told(&given.answer))?;
    let name = NodeName::Gear { site: 0, gear: 0 };
    match GearNode::put(alloc, name, 0, &again, &given)? {
        Some(Made::Payload { payload, .. }) => Ok(payload),
        _ => Err(AllocError),
    }
}

fn drain<N: Laid>(
    gear: &mut GearNode<N>,
    labels: u64,
    log: &mut Vec<(u8, u64)>,
) -> Result<Drained, AllocError> {
    let drained = gear.gear().undrained()?;
    let input = GearInput::Drain {
        drained: drained.copy()?,
        labels,
        stable: 1,
    };
    at_gear(gear, input, log)?;
    Ok(drained)
}

// What site 0 does: the other gear shows its part of the write and promises its timestamp, the hub gathers what both
// give, and sends the label.
fn leave<N: Laid>(
    alloc: Global,
    d: &Deployment,
    log: &mut Vec<(u8, u64)>,
) -> Result<(Label, Payload), AllocError>
    requires deployment { N.deployment ≡ d.now }
    requires sites { d.now.sites ≡ 2 }
    requires gears { d.now.gears ≡ 2 }
    requires client { 0 < length d.now.clients }
{
    let mut hub = HubNode::<N>::new(alloc, d, 0)?;
    let mut first = GearNode::<N>::new(alloc, d, 0, 0)?;
    let mut second = GearNode::<N>::new(alloc, d, 0, 1)?;
    let payload = write(alloc, &mut first, log)?;
    let by = ShownBy::Write;
    let part = payload.copy()?;
    for_client(&mut second, GearInput::Show { by, payload: part }, log)?;
    at_gear(&mut second, GearInput::Tick { ts: 1 }, log)?;
    let mut members = Vec::new(alloc);
    members.push(drain(&mut first, 1, log)?)?;
    members.push(drain(&mut second, 1, log)?)?;
    let drained = Drains::of(members);
    at_hub(&mut hub, HubInput::Gather { drained }, log)?;
    let given = at_hub(&mut hub, HubInput::Emit, log)?;
    let label = given.sent.ok_or(AllocError)?;
    Ok((label, payload))
}

// A gear of site 1 shows a payload that its hub gave it, and is read.
fn show<N: Laid>(
    gear: &mut GearNode<N>,
    item: u16,
    payload: Payload,
    log: &mut Vec<(u8, u64)>,
) -> Result<(), AllocError>
    requires { 0 < length N.deployment.clients }
{
    let by = ShownBy::Turn;
    at_gear(gear, GearInput::Show { by, payload }, log)?;
    read(gear, item, log)
}

fn show_first<N: Laid>(
    alloc: Global,
    d: &Deployment,
    payload: &Payload,
    log: &mut Vec<(u8, u64)>,
) -> Result<(), AllocError>
    requires deployment { N.deployment ≡ d.now }
    requires sites { d.now.sites ≡ 2 }
    requires gears { d.now.gears ≡ 2 }
    requires client { 0 < length d.now.clients }
{
    let part = payload.copy()?;
    let mut gear = GearNode::<N>::new(alloc, d, 1, 0)?;
    show(&mut gear, 0, part, log)
}

fn show_second<N: Laid>(
    alloc: Global,
    d: &Deployment,
    payload: &Payload,
    log: &mut Vec<(u8, u64)>,
) -> Result<(), AllocError>
    requires deployment { N.deployment ≡ d.now }
    requires sites { d.now.sites ≡ 2 }
    requires gears { d.now.gears ≡ 2 }
    requires client { 0 < length d.now.clients }
{
    let part = payload.copy()?;
    let mut gear = GearNode::<N>::new(alloc, d, 1, 1)?;
    show(&mut gear, 1, part, log)
}

fn bring<N: Laid>(
    hub: &mut HubNode<N>,
    payload: Payload,
    log: &mut Vec<(u8, u64)>,
) -> Result<(), AllocError> {
    let bulk = HubInput::Bulk {
        from: 0,
        gear: 0,
        number: 0,
        payload,
    };
    at_hub(hub, bulk, log)?;
    Ok(())
}

fn shown(given: HubAnswer) -> Result<Payload, AllocError> {
    let HubAnswer {
        answer: _,
        link: _,
        sent: _,
        beat: _,
        show,
    } = given;
    match show {
        Some(payload) => Ok(payload),
        None => Err(AllocError),
    }
}

// The hub of site 1 takes the payload, and then the label: what it gives to its gears.
fn turn<N: Laid>(
    hub: &mut HubNode<N>,
    label: Label,
    payload: Payload,
    log: &mut Vec<(u8, u64)>,
) -> Result<Payload, AllocError> {
    bring(hub, payload, log)?;
    let front = Some(label);
    let given = at_hub(hub, HubInput::Turn { front }, log)?;
    shown(given)
}

// What site 1 does: the payload comes, then the label, and both gears show what the hub gives them.
fn come<N: Laid>(
    alloc: Global,
    d: &Deployment,
    label: Label,
    payload: Payload,
    log: &mut Vec<(u8, u64)>,
) -> Result<(), AllocError>
    requires deployment { N.deployment ≡ d.now }
    requires sites { d.now.sites ≡ 2 }
    requires gears { d.now.gears ≡ 2 }
    requires client { 0 < length d.now.clients }
{
    let mut hub = HubNode::<N>::new(alloc, d, 1)?;
    let part = turn(&mut hub, label, payload, log)?;
    show_first::<N>(alloc, d, &part, log)?;
    show_second::<N>(alloc, d, &part, log)
}

fn way<N: Laid>(alloc: Global, d: &Deployment) -> Result<Vec<(u8, u64)>, AllocError>
    requires deployment { N.deployment ≡ d.now }
    requires sites { d.now.sites ≡ 2 }
    requires gears { d.now.gears ≡ 2 }
    requires client { 0 < length d.now.clients }
{
    let mut log = Vec::new(alloc);
    let (label, payload) = leave::<N>(alloc, d, &mut log)?;
    come::<N>(alloc, d, label, payload, &mut log)?;
    Ok(log)
}

#[test]
fn a_write_goes_through_hubs_and_gears(rt: HostRuntime) -> Result<(), Fail> {
    let alloc = rt.alloc();
    let d = deployment(alloc)?;
    let log = way::<Brand>(alloc, &d)?;
    let want = [
        (1, 1),
        (1, 1),
        (2, 1),
        (3, 1),
        (3, 1),
        (3, 1),
        (4, 1),
        (5, 1),
        (6, 1),
        (6, 1),
        (7, 1),
        (6, 1),
        (7, 1),
    ];
    assert_eq!(rt; log.as_slice(), want.as_slice());
    Ok(())
}
