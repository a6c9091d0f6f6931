//! The end of a run of one site of one gear, in each way.
ghost use Rattle.std.specs.Prelude.{◌≡◌, length};

use sat_act::{Deployment, Plan};
use sat_bulk::Drained;
use sat_finish::{Ended, FinishFault, Opened};
use sat_machines::Laid;
use sat_node::{Held, Names};
use sat_parts::{Drains, GearAct, GearInput, GearNode, HubAct, HubInput, HubNode, part_inputs};
use sat_parts_session::close;
use sat_parts_wires::{AllNodes, Wires};
use sat_session::Session;
use std::alloc::{AllocError, Global};
use std::marker::Brand;
use std::test::Fail;

/// What is done in a run in which the operator closed site 0: how many sessions were given, whether the operator's came
/// back, and who kept its part of a gather, the gear with so many labels in the hub's answer.
#[derive(Clone, Copy)]
struct Way {
    given: u64,
    comes: bool,
    hub: bool,
    gear: bool,
    labels: u64,
}

// The operator's session, or none.
fn back<N: Laid>(
    alloc: Global,
    operator: Session<N>,
    comes: bool,
) -> Result<Vec<Session<N>>, AllocError> {
    let mut sessions = Vec::new(alloc);
    if !comes {
        return Ok(sessions);
    }
    sessions.push(operator)?;
    Ok(sessions)
}

// A hub keeps a gather of what one gear gives, whatever that gear keeps of it.
fn gathers<N: Laid + Names>(
    alloc: Global,
    hub: &mut Held<HubNode<N>, N>,
    given: Drained,
) -> Result<(), AllocError> {
    // This brings its law into the proof; it does nothing when it runs.
    part_inputs();
    let mut members = Vec::new(alloc);
    members.push(given)?;
    let drained = Drains::of(members);
    let input = HubAct::of_hub(HubInput::Gather { drained });
    let copy = input.copy()?;
    if !hub.fits(&input) {
        return Err(AllocError);
    }
    match hub.act(1, input, copy) {
        Ok(_) => Ok(()),
        Err(_) => Err(AllocError),
    }
}

// A gear keeps its part of a gather, whatever the hub keeps of it.
fn drains<N: Laid + Names>(
    gear: &mut Held<GearNode<N>, N>,
    drained: Drained,
    labels: u64,
) -> Result<(), AllocError> {
    // This brings its law into the proof; it does nothing when it runs.
    part_inputs();
    let stable = 0;
    let input = GearAct::of_gear(GearInput::Drain {
        drained,
        labels,
        stable,
    });
    let copy = input.copy()?;
    if !gear.fits(&input) {
        return Err(AllocError);
    }
    match gear.act(1, input, copy) {
        Ok(_) => Ok(()),
        Err(_) => Err(AllocError),
    }
}

// Each of the two keeps its part, or does not.
fn act<N: Laid + Names>(
    alloc: Global,
    hub: &mut Held<HubNode<N>, N>,
    gear: &mut Held<GearNode<N>, N>,
    way: Way,
) -> Result<(), AllocError> {
    let given = gear.node().machine().gear().undrained()?;
    let again = given.copy()?;
    if way.hub {
        gathers(alloc, hub, given)?;
    }
    if way.gear {
        drains(gear, again, way.labels)?;
    }
    Ok(())
}

// How a run ended, as a number, with the length of its journal, or with who kept a part of an act that is not the
// other's: 1 the home, 2 another node, 3 both.
fn told<N: Laid + Names>(end: &Result<Ended, FinishFault<N>>) -> (u8, usize) {
    match end {
        Ok(ended) => (0, ended.journal.as_slice().len()),
        Err(FinishFault::SessionsOut { .. }) => (1, 0),
        Err(FinishFault::Differ { .. }) => (2, 0),
        Err(FinishFault::Memory { .. }) => (3, 0),
        Err(
            FinishFault::Apart {
                lamport: _,
                home,
                other,
            },
        ) => match (home, other) {
            (Some(_), Some(_)) => (4, 3),
            (None, Some(_)) => (4, 2),
            (Some(_), None) => (4, 1),
            (None, None) => (4, 0),
        },
    }
}

// The hub and the gear, after the operator closed the site and they did what is asked.
fn done<N: Laid + Names>(
    alloc: Global,
    d: &Deployment,
    wires: Wires,
    operator: &mut Session<N>,
    way: Way,
) -> Result<AllNodes<N>, AllocError>
    requires deployment { N.deployment ≡ d.now }
    requires made { wires.deployment ≡ d.now }
    requires wires { N.wires ≡ wires.wires }
    requires operator { operator.old.number ≡ length N.deployment.clients }
{
    let mut nodes = AllNodes::<N>::new(alloc, d, wires)?;
    let Some(mut hub) = nodes.hubs.pop() else {
        return Err(AllocError);
    };
    let Some(mut gear) = nodes.gears.pop() else {
        return Err(AllocError);
    };
    let _ = close(operator, &mut hub, 0);
    act(alloc, &mut hub, &mut gear, way)?;
    nodes.hubs.push(hub)?;
    nodes.gears.push(gear)?;
    Ok(nodes)
}

// How a run ends.
fn end<N: Laid + Names>(
    alloc: Global,
    d: &Deployment,
    wires: Wires,
    way: Way,
) -> Result<(u8, usize), AllocError>
    requires deployment { N.deployment ≡ d.now }
    requires made { wires.deployment ≡ d.now }
    requires wires { N.wires ≡ wires.wires }
{
    let copy = d.copy()?;
    let mut operator = Session::<N>::of_operator(alloc, d);
    let AllNodes {
        hubs,
        gears,
        serials,
    } = done(alloc, d, wires, &mut operator, way)?;
    let sessions = back(alloc, operator, way.comes)?;
    let opened = Opened::new(copy, hubs, gears, serials, way.given);
    let ended = opened.finish(alloc, sessions);
    Ok(told(&ended))
}

// A session that stays away, or that was not given; then a gather that both nodes kept, or one of them, or with other
// answers.
const WAYS: &[Way] = &[
    Way {
        given: 1,
        comes: true,
        hub: false,
        gear: false,
        labels: 0,
    },
    Way {
        given: 1,
        comes: false,
        hub: false,
        gear: false,
        labels: 0,
    },
    Way {
        given: 0,
        comes: false,
        hub: false,
        gear: false,
        labels: 0,
    },
    Way {
        given: 1,
        comes: true,
        hub: true,
        gear: true,
        labels: 0,
    },
    Way {
        given: 1,
        comes: true,
        hub: true,
        gear: false,
        labels: 0,
    },
    Way {
        given: 1,
        comes: true,
        hub: false,
        gear: true,
        labels: 0,
    },
    Way {
        given: 1,
        comes: true,
        hub: true,
        gear: true,
        labels: 5,
    },
];

#[test]
fn a_run_ends(rt: HostRuntime) -> Result<(), Fail> {
    let alloc = rt.alloc();
    let mut plans = Vec::new(alloc);
    plans.push(Plan::Stamp)?;
    let d = Deployment::new(alloc, 1, 1, 1, Vec::new(alloc), Vec::new(alloc), plans)?;
    let mut ends = Vec::new(alloc);
    for way in WAYS {
        let wires = Wires::new(alloc, &d, 3)?;
        ends.push(end::<Brand>(alloc, &d, wires, *way)?)?;
    }
    let wanted = [(0, 1), (1, 0), (2, 0), (0, 2), (4, 1), (4, 2), (4, 3)];
    assert_eq!(rt; ends.as_slice(), wanted.as_slice());
    Ok(())
}
