//! All nodes of a deployment, at which nothing happened.
ghost use Rattle.std.specs.Prelude.{◌≡◌, ◌<◌, ◌+◌, ◌^◌, ◌++◌, length, map, IfOk, OnOk};
ghost use Rattle.sat_label.specs.declared.node.NodeName.TheVariants.{Gear as AtGear, Site as AtSite};
ghost use Rattle.sat_label.specs.Words.{below};
ghost use Rattle.sat_machines.specs.Layout.{all_links};
ghost use Rattle.sat_node.specs.Links.{Each, in_places, out_places};
ghost use Rattle.sat_opened.specs.Opened.{name_in, serial_names};
ghost use Rattle.sat_parts.specs.Layout.{all_lanes, gear_names, part_ins, part_outs, site_gears};
ghost use Rattle.sat_wires.specs.Wires.{AllNew, IsFreshIn, IsFreshOut, IsNew};

use crate::lane::Lane;
use crate::layout::{gear_lanes, lanes_to};
use crate::places::places;
use crate::wires::{Apart, Wires};
use sat_act::Deployment;
use sat_label::NodeName;
use sat_machines::{Laid, SerialNode};
use sat_node::{Held, In, Names, Node, Out};
use sat_parts::{GearNode, HubNode};
use sat_wires::{Ends, Ways, make_serials, site_ways};
use std::alloc::{AllocError, Global};

/// Every hub and every gear of the sites of a deployment, and every serializer of its trees, with their link ends.
#[derive(Drop)]
pub struct AllNodes<N: Laid + Names> {
    pub hubs: Vec<Held<HubNode<N>, N>>,
    pub gears: Vec<Held<GearNode<N>, N>>,
    pub serials: Vec<Held<SerialNode<N>, N>>,
}

// The sending ends of a hub.
#[tactic(auto, using(crate::proofs::Found::hub_outs))]
fn hub_outs<N: Names>(
    alloc: Global,
    d: &Deployment,
    ways: &Ways,
    ends: &mut Ends<N>,
    site: u16,
) -> Result<Vec<Out<N>>, AllocError>
    requires links { ways.now ≡ all_links d.now }
    ensures places { IfOk result (λ outs. out_places outs.items ≡ part_outs d.now (AtSite site)) }
    ensures fresh { IfOk result (λ outs. Each outs.items (λ _ o. IsFreshOut o)) }
{
    let own = site_ways(alloc, d, site)?;
    let outs = ends.outs(alloc, ways, &own)?;
    Ok(outs)
}

// The receiving ends of a hub: those of the links back, and then those of the lanes to its site.
fn hub_ins<N: Names>(
    alloc: Global,
    d: &Deployment,
    ways: &Ways,
    lanes: &[Lane],
    ends: &mut Ends<N>,
    site: u16,
) -> Result<Vec<In<N>>, AllocError>
    requires links { ways.now ≡ all_links d.now }
    requires lanes { lanes.now ≡ all_lanes d.now }
    requires room { length ways.now + length lanes.now < 2 ^ 64 }
    ensures places { IfOk result (λ ins. in_places ins.items ≡ part_ins d.now (AtSite site)) }
    ensures fresh { IfOk result (λ ins. Each ins.items (λ _ i. IsFreshIn i)) }
{
    let own = site_ways(alloc, d, site)?;
    let mut ins = ends.ins(alloc, ways, &own)?;
    let coming = lanes_to(alloc, d, site)?;
    let places = places(alloc, ways.len(), lanes, coming.as_slice())?;
    ends.add_ins(&mut ins, places.as_slice())?;
    Ok(ins)
}

// The sending ends of a gear: those of its lanes.
fn gear_outs<N: Names>(
    alloc: Global,
    d: &Deployment,
    first: usize,
    lanes: &[Lane],
    ends: &mut Ends<N>,
    site: u16,
    gear: u16,
) -> Result<Vec<Out<N>>, AllocError>
    requires first { first ≡ length (all_links d.now) }
    requires lanes { lanes.now ≡ all_lanes d.now }
    requires room { first + length lanes.now < 2 ^ 64 }
    ensures places { IfOk result (λ outs. out_places outs.items ≡ part_outs d.now (AtGear site gear)) }
    ensures fresh { IfOk result (λ outs. Each outs.items (λ _ o. IsFreshOut o)) }
{
    let own = gear_lanes(alloc, d, site, gear)?;
    let places = places(alloc, first, lanes, own.as_slice())?;
    let outs = ends.outs_at(alloc, places.as_slice())?;
    Ok(outs)
}

// A hub.
fn make_hub<N: Laid + Names>(
    alloc: Global,
    d: &Deployment,
    ways: &Ways,
    lanes: &[Lane],
    ends: &mut Ends<N>,
    site: u16,
) -> Result<Held<HubNode<N>, N>, AllocError>
    requires deployment { N.deployment ≡ d.now }
    requires links { ways.now ≡ all_links d.now }
    requires lanes { lanes.now ≡ all_lanes d.now }
    requires room { length ways.now + length lanes.now < 2 ^ 64 }
    requires site { site < d.now.sites }
    ensures name { IfOk result (λ held. name_in held ≡ AtSite site) }
    ensures fresh { IfOk result (λ held. IsNew held) }
{
    let outs = hub_outs(alloc, d, ways, ends, site)?;
    let ins = hub_ins(alloc, d, ways, lanes, ends, site)?;
    let machine = HubNode::new(alloc, d, site)?;
    let node = Node::new(alloc, NodeName::Site(site), machine);
    Ok(Held::new(node, outs, ins))
}

// All hubs, in order.
#[tactic(auto, using(sat_wires::proofs::Names::none_new))]
fn make_hubs<N: Laid + Names>(
    alloc: Global,
    d: &Deployment,
    ways: &Ways,
    lanes: &[Lane],
    ends: &mut Ends<N>,
) -> Result<Vec<Held<HubNode<N>, N>>, AllocError>
    requires deployment { N.deployment ≡ d.now }
    requires links { ways.now ≡ all_links d.now }
    requires lanes { lanes.now ≡ all_lanes d.now }
    requires room { length ways.now + length lanes.now < 2 ^ 64 }
    ensures names { IfOk result (λ hubs. map name_in hubs.items ≡ map AtSite (below d.now.sites)) }
    ensures fresh { IfOk result (λ hubs. AllNew hubs.items) }
{
    let mut hubs = Vec::new(alloc);
    for site in 0..d.sites() {
        let held = make_hub(alloc, d, ways, lanes, ends, site)?;
        hubs.push(held)?;
    }
    Ok(hubs)
}

// A gear.
fn make_gear<N: Laid + Names>(
    alloc: Global,
    d: &Deployment,
    first: usize,
    lanes: &[Lane],
    ends: &mut Ends<N>,
    site: u16,
    gear: u16,
) -> Result<Held<GearNode<N>, N>, AllocError>
    requires deployment { N.deployment ≡ d.now }
    requires first { first ≡ length (all_links d.now) }
    requires lanes { lanes.now ≡ all_lanes d.now }
    requires room { first + length lanes.now < 2 ^ 64 }
    requires site { site < d.now.sites }
    requires gear { gear < d.now.gears }
    ensures name { IfOk result (λ held. name_in held ≡ AtGear site gear) }
    ensures fresh { IfOk result (λ held. IsNew held) }
{
    let outs = gear_outs(alloc, d, first, lanes, ends, site, gear)?;
    let ins = Vec::new(alloc);
    let machine = GearNode::new(alloc, d, site, gear)?;
    let node = Node::new(alloc, NodeName::Gear { site, gear }, machine);
    Ok(Held::new(node, outs, ins))
}

// All gears of a site, behind those that there are.
#[tactic(auto, using(sat_wires::proofs::Names::serials_start))]
fn add_gears<N: Laid + Names>(
    gears: &mut Vec<Held<GearNode<N>, N>>,
    alloc: Global,
    d: &Deployment,
    first: usize,
    lanes: &[Lane],
    ends: &mut Ends<N>,
    site: u16,
) -> Result<(), AllocError>
    requires deployment { N.deployment ≡ d.now }
    requires first { first ≡ length (all_links d.now) }
    requires lanes { lanes.now ≡ all_lanes d.now }
    requires room { first + length lanes.now < 2 ^ 64 }
    requires site { site < d.now.sites }
    requires fresh { AllNew gears.old.items }
    ensures names { OnOk result
        (map name_in gears.new.items ≡ map name_in gears.old.items ++ site_gears d.now.gears site) }
    ensures fresh { OnOk result (AllNew gears.new.items) }
{
    for gear in 0..d.gears() {
        let held = make_gear(alloc, d, first, lanes, ends, site, gear)?;
        gears.push(held)?;
    }
    Ok(())
}

// All gears, site by site.
#[tactic(auto, using(sat_wires::proofs::Names::none_new))]
fn make_gears<N: Laid + Names>(
    alloc: Global,
    d: &Deployment,
    first: usize,
    lanes: &[Lane],
    ends: &mut Ends<N>,
) -> Result<Vec<Held<GearNode<N>, N>>, AllocError>
    requires deployment { N.deployment ≡ d.now }
    requires first { first ≡ length (all_links d.now) }
    requires lanes { lanes.now ≡ all_lanes d.now }
    requires room { first + length lanes.now < 2 ^ 64 }
    ensures names { IfOk result (λ gears. map name_in gears.items ≡ gear_names d.now) }
    ensures fresh { IfOk result (λ gears. AllNew gears.items) }
{
    let mut gears = Vec::new(alloc);
    for site in 0..d.sites() {
        add_gears(&mut gears, alloc, d, first, lanes, ends, site)?;
    }
    Ok(gears)
}

impl<N: Laid + Names> AllNodes<N> {
    /// Makes all nodes of N's deployment with the ends of its links: the hub of each site, each gear of it, site by
    /// site, and each serializer, once and in order, at which nothing happened. It asks that the links were made for
    /// that deployment, and that N's list of wires is theirs.
    pub fn new(alloc: Global, d: &Deployment, wires: Wires) -> Result<AllNodes<N>, AllocError>
        requires deployment { N.deployment ≡ d.now }
        requires made { wires.deployment ≡ d.now }
        requires wires { N.wires ≡ wires.wires }
        ensures hubs { IfOk result (λ all. map name_in all.hubs.items ≡ map AtSite (below d.now.sites)) }
        ensures gears { IfOk result (λ all. map name_in all.gears.items ≡ gear_names d.now) }
        ensures serials { IfOk result (λ all. map name_in all.serials.items ≡ serial_names d.now) }
        ensures fresh { IfOk result
            (λ all. AllNew all.hubs.items × AllNew all.gears.items × AllNew all.serials.items) }
    {
        let Apart {
            ways,
            lanes,
            ins,
            outs,
        } = wires.apart();
        // This brings into the proof that the links have numbers.
        let _ = ins.len();
        let mut ends = Ends::<N>::new(alloc, ins, outs)?;
        let hubs = make_hubs(alloc, d, &ways, lanes.as_slice(), &mut ends)?;
        let gears = make_gears(alloc, d, ways.len(), lanes.as_slice(), &mut ends)?;
        let serials = make_serials(alloc, d, &ways, &mut ends)?;
        Ok(AllNodes {
            hubs,
            gears,
            serials,
        })
    }
}
