//! The marked places in the journals of a site's nodes.
ghost use Rattle.std.specs.Prelude.{IfOk};
ghost use Rattle.sat_label.specs.declared.node.NodeName.TheVariants as named;
ghost use Rattle.sat_opened.specs.Opened.{entries_at};
ghost use Rattle.sat_finish.specs.Marks.{HandedMarks, HubMarks, WrittenMarks};
ghost use Rattle.sat_finish.specs.Walking.{AreGearMarks, AreMarks, HasNames};

use crate::marks::{handed_marks, hub_marks, written_marks};
use crate::nodes::{gear_at, hub_at};
use sat_act::Deployment;
use sat_machines::Laid;
use sat_node::{Held, Names};
use sat_parts::{GearNode, HubNode};
use std::alloc::{AllocError, Global};

/// The places of the entries that may tell of parts: of the hub of a site, and of each of its gears as a home.
#[derive(Drop)]
pub(crate) struct Marks {
    pub(crate) hub: Vec<usize>,
    pub(crate) gears: Vec<Vec<usize>>,
}

fn marks_hub<N: Laid, W: Names>(
    alloc: Global,
    d: &Deployment,
    hubs: &[Held<HubNode<N>, W>],
    gears: &[Held<GearNode<N>, W>],
    site: u16,
) -> Result<Vec<usize>, AllocError>
    requires { HasNames d.now hubs.now gears.now }
    ensures { IfOk result (λ marks. HubMarks (entries_at (named.Site site) hubs.now) marks.items) }
{
    let _ = gears.len();
    let held = hub_at(hubs, site)?;
    let node = held.node();
    let marks = hub_marks(alloc, node.journal())?;
    Ok(marks)
}

fn marks_written<N: Laid, W: Names>(
    alloc: Global,
    d: &Deployment,
    hubs: &[Held<HubNode<N>, W>],
    gears: &[Held<GearNode<N>, W>],
    site: u16,
    gear: u16,
) -> Result<Vec<usize>, AllocError>
    requires { HasNames d.now hubs.now gears.now }
    ensures { IfOk result (λ marks. WrittenMarks (entries_at (named.Gear site gear) gears.now) marks.items) }
{
    let _ = hubs.len();
    let held = gear_at(gears, d.gears(), site, gear)?;
    let node = held.node();
    let marks = written_marks(alloc, node.journal())?;
    Ok(marks)
}

/// The places of the parts that a gear kept of other gears' writes.
pub(crate) fn marks_handed<N: Laid, W: Names>(
    alloc: Global,
    d: &Deployment,
    hubs: &[Held<HubNode<N>, W>],
    gears: &[Held<GearNode<N>, W>],
    site: u16,
    gear: u16,
) -> Result<Vec<usize>, AllocError>
    requires { HasNames d.now hubs.now gears.now }
    ensures { IfOk result (λ marks. HandedMarks (entries_at (named.Gear site gear) gears.now) marks.items) }
{
    let _ = hubs.len();
    let held = gear_at(gears, d.gears(), site, gear)?;
    let node = held.node();
    let marks = handed_marks(alloc, node.journal())?;
    Ok(marks)
}

fn marks_gears<N: Laid, W: Names>(
    alloc: Global,
    d: &Deployment,
    hubs: &[Held<HubNode<N>, W>],
    gears: &[Held<GearNode<N>, W>],
    site: u16,
) -> Result<Vec<Vec<usize>>, AllocError>
    requires { HasNames d.now hubs.now gears.now }
    ensures { IfOk result (λ list. AreGearMarks gears.now site list.items) }
{
    let mut list = Vec::new(alloc);
    for gear in 0..d.gears() {
        list.push(marks_written(alloc, d, hubs, gears, site, gear)?)?;
    }
    Ok(list)
}

/// Those of a site.
pub(crate) fn marks_at<N: Laid, W: Names>(
    alloc: Global,
    d: &Deployment,
    hubs: &[Held<HubNode<N>, W>],
    gears: &[Held<GearNode<N>, W>],
    site: u16,
) -> Result<Marks, AllocError>
    requires { HasNames d.now hubs.now gears.now }
    ensures { IfOk result (λ marks. AreMarks hubs.now gears.now site marks) }
{
    let hub = marks_hub(alloc, d, hubs, gears, site)?;
    let gears = marks_gears(alloc, d, hubs, gears, site)?;
    Ok(Marks { hub, gears })
}
