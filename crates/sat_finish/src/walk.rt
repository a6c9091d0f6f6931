//! Where the home of an act and one of its gears are apart: the parts of all pairs of a gear and a home at its site are
//! walked from the front.
ghost use Rattle.std.specs.Prelude.{◌≡◌, ◌<◌, [], Some, None, option_map, slice_get, IfOk};
ghost use Rattle.std.specs.List.{flat_map};
ghost use Rattle.sat_label.specs.declared.node.NodeName.TheVariants as named;
ghost use Rattle.sat_apart.specs.Lists.{Rising, member_at};
ghost use Rattle.sat_opened.specs.Opened.{entries_at};
ghost use Rattle.sat_finish.specs.Marks.{HandedMarks, HubMarks, WrittenMarks};
ghost use Rattle.sat_finish.specs.Parts.{hub_part, kept_part, part_number, written_part};
ghost use Rattle.sat_finish.specs.Partings.{joint_at};
ghost use Rattle.sat_finish.specs.Walking.{AreMarks, HasNames, IsStray, IsWalked, IsWalkedAll, IsWalkedAt, IsWalkedFar};
ghost use Rattle.sat_finish.specs.Walking.{IsWalkedGear, IsWalkedGears, IsWalkedSite};

use crate::gear_parts::{handed_parts, kept_parts, stray, written_parts};
use crate::hub_parts::hub_parts;
use crate::joint::Joint;
use crate::nodes::{gear_at, hub_at};
use crate::part::Part;
use crate::site_marks::{Marks, marks_at, marks_handed};
use sat_act::Deployment;
use sat_apart::first_apart;
use sat_label::NodeName;
use sat_machines::Laid;
use sat_node::{Held, Names};
use sat_parts::{GearNode, HubNode};
use std::alloc::{AllocError, Global};

/// What the home of an act and one of its gears kept of it under one number, which is not the same.
#[derive(Drop)]
pub(crate) struct Parting {
    pub(crate) lamport: u64,
    pub(crate) home: Option<Joint>,
    pub(crate) other: Option<Joint>,
}

// ---- two lists of parts

// The part at a place, as a node's.
fn joint_of(at: NodeName, list: &[Part], place: Option<usize>) -> Result<Option<Joint>, AllocError>
    ensures { IfOk result (λ j. j ≡ option_map (joint_at at) (member_at list.now place)) }
{
    match place {
        None => Ok(None),
        Some(place) => joint_in(at, list, place),
    }
}

fn joint_in(at: NodeName, list: &[Part], place: usize) -> Result<Option<Joint>, AllocError>
    ensures { IfOk result (λ j. j ≡ option_map (joint_at at) (slice_get list.now place)) }
{
    match list.get(place) {
        None => Ok(None),
        Some(part) => {
            let joint = part.joint(at)?;
            Ok(Some(joint))
        }
    }
}

// Of the parts of a home and those of a gear, the first that are not the same.
fn walked(
    home: NodeName,
    gear: NodeName,
    left: &[Part],
    right: &[Part],
) -> Result<Option<Parting>, AllocError>
    requires left { Rising part_number left.now }
    requires right { Rising part_number right.now }
    ensures { IfOk result (λ o. IsWalked home gear left.now right.now o) }
{
    match first_apart(left, right) {
        None => Ok(None),
        Some(apart) => {
            let first = joint_of(home, left, apart.left)?;
            let second = joint_of(gear, right, apart.right)?;
            Ok(Some(Parting {
                lamport: apart.number,
                home: first,
                other: second,
            }))
        }
    }
}

// ---- one gear and one home

// A gear and the hub of its site.
fn of_hub<N: Laid, W: Names>(
    alloc: Global,
    d: &Deployment,
    site: u16,
    number: u16,
    hub: &Held<HubNode<N>, W>,
    gear: &Held<GearNode<N>, W>,
    marks: &[usize],
) -> Result<Option<Parting>, AllocError>
    requires { HubMarks hub.now.node.entries marks.now }
    ensures { IfOk result (λ o. IsWalked (named.Site site) (named.Gear site number)
        (flat_map (hub_part d.now site number) hub.now.node.entries)
        (flat_map (kept_part site number None) gear.now.node.entries) o) }
{
    let home = hub.node();
    let node = gear.node();
    let _ = home.lamport();
    let _ = node.lamport();
    let left = hub_parts(alloc, d, site, number, home.journal(), marks)?;
    let right = kept_parts(alloc, site, None, node.journal())?;
    walked(
        NodeName::Site(site),
        NodeName::Gear { site, gear: number },
        left.as_slice(),
        right.as_slice(),
    )
}

// A gear and another one of its site.
fn of_gear<N: Laid, W: Names>(
    alloc: Global,
    d: &Deployment,
    site: u16,
    number: u16,
    other: u16,
    home: &Held<GearNode<N>, W>,
    gear: &Held<GearNode<N>, W>,
    written: &[usize],
    handed: &[usize],
) -> Result<Option<Parting>, AllocError>
    requires written { WrittenMarks home.now.node.entries written.now }
    requires handed { HandedMarks gear.now.node.entries handed.now }
    ensures { IfOk result (λ o. IsWalked (named.Gear site other) (named.Gear site number)
        (flat_map (written_part d.now site other number) home.now.node.entries)
        (flat_map (kept_part site number (Some other)) gear.now.node.entries) o) }
{
    let first = home.node();
    let node = gear.node();
    let _ = first.lamport();
    let _ = node.lamport();
    let left = written_parts(alloc, d, site, other, number, first.journal(), written)?;
    let right = handed_parts(alloc, site, other, node.journal(), handed)?;
    walked(
        NodeName::Gear { site, gear: other },
        NodeName::Gear { site, gear: number },
        left.as_slice(),
        right.as_slice(),
    )
}

// A gear, and a home that there is not. It kept nothing.
fn of_none<N: Laid, W: Names>(
    alloc: Global,
    site: u16,
    number: u16,
    other: u16,
    gear: &Held<GearNode<N>, W>,
) -> Result<Option<Parting>, AllocError>
    ensures { IfOk result (λ o. IsWalked (named.Gear site other) (named.Gear site number) []
        (flat_map (kept_part site number (Some other)) gear.now.node.entries) o) }
{
    let node = gear.node();
    let _ = node.lamport();
    let right = kept_parts(alloc, site, Some(other), node.journal())?;
    walked(
        NodeName::Gear { site, gear: other },
        NodeName::Gear { site, gear: number },
        &[],
        right.as_slice(),
    )
}

// A gear, and all homes that there are not: the gears from this number on.
#[tactic(auto, using(crate::proofs::Walks::strays_end))]
fn of_strays<N: Laid, W: Names>(
    alloc: Global,
    site: u16,
    number: u16,
    count: u16,
    gear: &Held<GearNode<N>, W>,
) -> Result<Option<Parting>, AllocError>
    ensures { IfOk result (λ o. IsStray count site number gear.now.node.entries o) }
{
    let node = gear.node();
    let Some(other) = stray(count, node.journal()) else {
        return Ok(None);
    };
    of_none(alloc, site, number, other, gear)
}

// ---- all of them

// A gear and its hub.
fn at_hub<N: Laid, W: Names>(
    alloc: Global,
    d: &Deployment,
    hubs: &[Held<HubNode<N>, W>],
    gears: &[Held<GearNode<N>, W>],
    site: u16,
    gear: u16,
    marks: &Marks,
) -> Result<Option<Parting>, AllocError>
    requires names { HasNames d.now hubs.now gears.now }
    requires marks { AreMarks hubs.now gears.now site marks.now }
    ensures { IfOk result (λ o. IsWalkedAt d.now hubs.now gears.now site gear None o) }
{
    let hub = hub_at(hubs, site)?;
    let own = gear_at(gears, d.gears(), site, gear)?;
    of_hub(alloc, d, site, gear, hub, own, marks.hub.as_slice())
}

// A gear and another one of its site.
fn at_gear<N: Laid, W: Names>(
    alloc: Global,
    d: &Deployment,
    hubs: &[Held<HubNode<N>, W>],
    gears: &[Held<GearNode<N>, W>],
    site: u16,
    gear: u16,
    home: u16,
    marks: &Marks,
    handed: &[usize],
) -> Result<Option<Parting>, AllocError>
    requires names { HasNames d.now hubs.now gears.now }
    requires marks { AreMarks hubs.now gears.now site marks.now }
    requires handed { HandedMarks (entries_at (named.Gear site gear) gears.now) handed.now }
    ensures { IfOk result (λ o. IsWalkedAt d.now hubs.now gears.now site gear (Some home) o) }
{
    let _ = hubs.len();
    let other = gear_at(gears, d.gears(), site, home)?;
    let own = gear_at(gears, d.gears(), site, gear)?;
    let Some(written) = marks.gears.get(usize::from(home)) else {
        return Err(AllocError);
    };
    of_gear(
        alloc,
        d,
        site,
        gear,
        home,
        other,
        own,
        written.as_slice(),
        handed,
    )
}

// A gear and all gears of its site, itself among them.
fn at_gears<N: Laid, W: Names>(
    alloc: Global,
    d: &Deployment,
    hubs: &[Held<HubNode<N>, W>],
    gears: &[Held<GearNode<N>, W>],
    site: u16,
    gear: u16,
    marks: &Marks,
) -> Result<Option<Parting>, AllocError>
    requires names { HasNames d.now hubs.now gears.now }
    requires marks { AreMarks hubs.now gears.now site marks.now }
    ensures { IfOk result (λ o. IsWalkedGears d.now hubs.now gears.now d.now.gears site gear o) }
{
    let _ = hubs.len();
    let handed = marks_handed(alloc, d, hubs, gears, site, gear)?;
    for home in 0..d.gears() {
        let found = at_gear(
            alloc,
            d,
            hubs,
            gears,
            site,
            gear,
            home,
            marks,
            handed.as_slice(),
        )?;
        if let Some(parting) = found {
            return Ok(Some(parting));
        }
    }
    Ok(None)
}

// A gear and the homes that there are not.
fn at_none<N: Laid, W: Names>(
    alloc: Global,
    d: &Deployment,
    hubs: &[Held<HubNode<N>, W>],
    gears: &[Held<GearNode<N>, W>],
    site: u16,
    gear: u16,
) -> Result<Option<Parting>, AllocError>
    requires { HasNames d.now hubs.now gears.now }
    ensures { IfOk result (λ o. IsWalkedFar d.now hubs.now gears.now site gear o) }
{
    let _ = hubs.len();
    let own = gear_at(gears, d.gears(), site, gear)?;
    of_strays(alloc, site, gear, d.gears(), own)
}

// A gear and all homes.
fn at_homes<N: Laid, W: Names>(
    alloc: Global,
    d: &Deployment,
    hubs: &[Held<HubNode<N>, W>],
    gears: &[Held<GearNode<N>, W>],
    site: u16,
    gear: u16,
    marks: &Marks,
) -> Result<Option<Parting>, AllocError>
    requires names { HasNames d.now hubs.now gears.now }
    requires marks { AreMarks hubs.now gears.now site marks.now }
    ensures { IfOk result (λ o. IsWalkedGear d.now hubs.now gears.now site gear o) }
{
    let found = at_hub(alloc, d, hubs, gears, site, gear, marks)?;
    if let Some(parting) = found {
        return Ok(Some(parting));
    }
    let found = at_gears(alloc, d, hubs, gears, site, gear, marks)?;
    if let Some(parting) = found {
        return Ok(Some(parting));
    }
    at_none(alloc, d, hubs, gears, site, gear)
}

// All gears of a site.
fn at_site<N: Laid, W: Names>(
    alloc: Global,
    d: &Deployment,
    hubs: &[Held<HubNode<N>, W>],
    gears: &[Held<GearNode<N>, W>],
    site: u16,
) -> Result<Option<Parting>, AllocError>
    requires names { HasNames d.now hubs.now gears.now }
    requires site { site < d.now.sites }
    ensures { IfOk result (λ o. IsWalkedSite d.now hubs.now gears.now site o) }
{
    let marks = marks_at(alloc, d, hubs, gears, site)?;
    for gear in 0..d.gears() {
        let found = at_homes(alloc, d, hubs, gears, site, gear, &marks)?;
        if let Some(parting) = found {
            return Ok(Some(parting));
        }
    }
    Ok(None)
}

/// Nothing where each gear of a deployment and each home at its site kept the same parts, and else where two are apart.
pub(crate) fn walk<N: Laid, W: Names>(
    alloc: Global,
    d: &Deployment,
    hubs: &[Held<HubNode<N>, W>],
    gears: &[Held<GearNode<N>, W>],
) -> Result<Option<Parting>, AllocError>
    requires { HasNames d.now hubs.now gears.now }
    ensures { IfOk result (λ o. IsWalkedAll d.now hubs.now gears.now o) }
{
    for site in 0..d.sites() {
        let found = at_site(alloc, d, hubs, gears, site)?;
        if let Some(parting) = found {
            return Ok(Some(parting));
        }
    }
    Ok(None)
}
