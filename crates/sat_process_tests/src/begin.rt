//! Processes on disks of their own: how each begins, and begins again.
ghost use Rattle.std.specs.Prelude.{◌≡◌, [], option_copied, IfOk};
ghost use Rattle.sat_act.specs.Parts.{tree_of};
ghost use Rattle.sat_durable.specs.Memory.{memory_state};

use crate::net::Net;
use sat_act::{Deployment, Plan};
use sat_durable::MemoryDisk;
use sat_host::{Host, serializer_host, site_host};
use sat_machines::{Laid, SerialNode, SiteNode};
use sat_process::{Hosted, Process, ProcessFault, create, recover};
use sat_tree::Tree;
use std::alloc::Global;
use std::test::Fail;

pub(crate) type AtNode<M> = Process<MemoryDisk, Net, M>;

// What a call leaves of a process: the process, or its disk where that failed.
pub(crate) type Left<M> = Result<AtNode<M>, MemoryDisk>;

// What became of letters: messages that were taken, came early, came again and did not fit, and bytes that are none;
// and how often a process began again behind a disk that failed.
#[derive(Clone, Copy, Debug, PartialEq, Eq)]
pub(crate) struct Tally {
    pub(crate) taken: u32,
    pub(crate) early: u32,
    pub(crate) again: u32,
    pub(crate) unfit: u32,
    pub(crate) unread: u32,
    pub(crate) begun: u32,
}

// All processes; each is out of its place while it is called.
#[derive(Drop)]
pub(crate) struct Store<N: Laid> {
    pub(crate) sites: Vec<Option<AtNode<SiteNode<N>>>>,
    pub(crate) serials: Vec<Option<AtNode<SerialNode<N>>>>,
    pub(crate) tally: Tally,
}

// ---- places

// Takes a process out of its place.
pub(crate) fn take_out<M: Hosted>(
    places: &mut Vec<Option<AtNode<M>>>,
    place: usize,
) -> Result<AtNode<M>, Fail> {
    let Some(slot) = places.get_mut(place) else {
        return Err(Fail::from("no such node"));
    };
    match slot.take() {
        Some(process) => Ok(process),
        None => Err(Fail::from("stopped")),
    }
}

// Puts a process into its place.
pub(crate) fn put_in<M: Hosted>(
    places: &mut Vec<Option<AtNode<M>>>,
    place: usize,
    process: AtNode<M>,
) -> Result<(), Fail> {
    let Some(slot) = places.get_mut(place) else {
        return Err(Fail::from("no such node"));
    };
    *slot = Some(process);
    Ok(())
}

// ---- hosts at which nothing happened

fn fresh_site<N: Laid>(
    alloc: Global,
    d: &Deployment,
    site: usize,
) -> Result<Host<SiteNode<N>>, Fail>
    requires { N.deployment ≡ d.now }
    ensures { IfOk result (λ host. host.node.entries ≡ []) }
{
    let Ok(site) = u16::try_from(site) else {
        return Err(Fail::from("no such site"));
    };
    if site >= d.sites() {
        return Err(Fail::from("no such site"));
    }
    let host = site_host::<N>(alloc, d, site)?;
    Ok(host)
}

// The tree of the first epoch.
#[tactic(auto, unfolding(sat_act::specs::Parts::tree_of))]
fn first_tree(d: &Deployment) -> Option<&Tree>
    ensures { option_copied result ≡ tree_of d.now 1 }
{
    match d.plans().get(0) {
        Some(Plan::Tree(tree)) => Some(tree),
        Some(Plan::Stamp) => None,
        None => None,
    }
}

fn fresh_serializer<N: Laid>(
    alloc: Global,
    d: &Deployment,
    number: usize,
) -> Result<Host<SerialNode<N>>, Fail>
    requires { N.deployment ≡ d.now }
    ensures { IfOk result (λ host. host.node.entries ≡ []) }
{
    let Some(tree) = first_tree(d) else {
        return Err(Fail::from("no tree"));
    };
    let Ok(number) = u16::try_from(number) else {
        return Err(Fail::from("no such serializer"));
    };
    if number >= tree.serializers() {
        return Err(Fail::from("no such serializer"));
    }
    let host = serializer_host::<N>(alloc, d, 1, tree, number)?;
    Ok(host)
}

// ---- beginning

// An empty disk. That of site 1 fails in the middle: so many writes and syncs pass, and a stop then keeps what was not
// synced.
fn disk_of_site(alloc: Global, site: usize) -> MemoryDisk
    ensures { (memory_state result).content ≡ [] }
{
    let mut disk = MemoryDisk::new(alloc);
    if site != 1 {
        return disk;
    }
    disk.arm(27, true);
    disk
}

fn begun<M: Hosted>(
    answer: Result<AtNode<M>, ProcessFault<MemoryDisk, Net>>,
) -> Result<AtNode<M>, Fail> {
    match answer {
        Ok(process) => Ok(process),
        Err(_) => Err(Fail::from("not begun")),
    }
}

fn new_site<N: Laid>(
    alloc: Global,
    d: &Deployment,
    site: usize,
) -> Result<AtNode<SiteNode<N>>, Fail>
    requires { N.deployment ≡ d.now }
{
    let host = fresh_site::<N>(alloc, d, site)?;
    let disk = disk_of_site(alloc, site);
    begun(create(alloc, disk, Net::new(alloc), host, d))
}

fn new_serializer<N: Laid>(
    alloc: Global,
    d: &Deployment,
    number: usize,
) -> Result<AtNode<SerialNode<N>>, Fail>
    requires { N.deployment ≡ d.now }
{
    let host = fresh_serializer::<N>(alloc, d, number)?;
    let disk = MemoryDisk::new(alloc);
    begun(create(alloc, disk, Net::new(alloc), host, d))
}

fn new_sites<N: Laid>(
    alloc: Global,
    d: &Deployment,
) -> Result<Vec<Option<AtNode<SiteNode<N>>>>, Fail>
    requires { N.deployment ≡ d.now }
{
    let mut sites = Vec::new(alloc);
    for site in 0..3usize {
        let process = new_site::<N>(alloc, d, site)?;
        sites.push(Some(process))?;
    }
    Ok(sites)
}

fn new_serializers<N: Laid>(
    alloc: Global,
    d: &Deployment,
) -> Result<Vec<Option<AtNode<SerialNode<N>>>>, Fail>
    requires { N.deployment ≡ d.now }
{
    let mut serials = Vec::new(alloc);
    for number in 0..2usize {
        let process = new_serializer::<N>(alloc, d, number)?;
        serials.push(Some(process))?;
    }
    Ok(serials)
}

pub(crate) fn new_store<N: Laid>(alloc: Global, d: &Deployment) -> Result<Store<N>, Fail>
    requires { N.deployment ≡ d.now }
{
    let sites = new_sites::<N>(alloc, d)?;
    let serials = new_serializers::<N>(alloc, d)?;
    Ok(Store {
        sites,
        serials,
        tally: Tally {
            taken: 0,
            early: 0,
            again: 0,
            unfit: 0,
            unread: 0,
            begun: 0,
        },
    })
}

// ---- beginning again

// A site, from what a stop leaves on its disk.
pub(crate) fn site_again<N: Laid>(
    alloc: Global,
    d: &Deployment,
    site: usize,
    disk: MemoryDisk,
) -> Result<AtNode<SiteNode<N>>, Fail>
    requires { N.deployment ≡ d.now }
{
    let host = fresh_site::<N>(alloc, d, site)?;
    begun(recover(alloc, disk.crash(), Net::new(alloc), host, d))
}

// A serializer, from what a stop leaves on its disk.
pub(crate) fn serializer_again<N: Laid>(
    alloc: Global,
    d: &Deployment,
    number: usize,
    disk: MemoryDisk,
) -> Result<AtNode<SerialNode<N>>, Fail>
    requires { N.deployment ≡ d.now }
{
    let host = fresh_serializer::<N>(alloc, d, number)?;
    begun(recover(alloc, disk.crash(), Net::new(alloc), host, d))
}

// A site, which begins again where its disk failed.
pub(crate) fn site_left<N: Laid>(
    alloc: Global,
    d: &Deployment,
    site: usize,
    left: Left<SiteNode<N>>,
    tally: &mut Tally,
) -> Result<AtNode<SiteNode<N>>, Fail>
    requires { N.deployment ≡ d.now }
{
    match left {
        Ok(process) => Ok(process),
        Err(disk) => {
            tally.begun = tally.begun.wrapping_add(1);
            site_again(alloc, d, site, disk)
        }
    }
}

// A serializer, which begins again where its disk failed.
pub(crate) fn serializer_left<N: Laid>(
    alloc: Global,
    d: &Deployment,
    number: usize,
    left: Left<SerialNode<N>>,
    tally: &mut Tally,
) -> Result<AtNode<SerialNode<N>>, Fail>
    requires { N.deployment ≡ d.now }
{
    match left {
        Ok(process) => Ok(process),
        Err(disk) => {
            tally.begun = tally.begun.wrapping_add(1);
            serializer_again(alloc, d, number, disk)
        }
    }
}

// ---- stops

fn stop_site<N: Laid>(
    alloc: Global,
    store: &mut Store<N>,
    d: &Deployment,
    site: usize,
) -> Result<(), Fail>
    requires { N.deployment ≡ d.now }
{
    let process = take_out(&mut store.sites, site)?;
    let (disk, _) = process.end();
    let process = site_again(alloc, d, site, disk)?;
    put_in(&mut store.sites, site, process)
}

fn stop_serializer<N: Laid>(
    alloc: Global,
    store: &mut Store<N>,
    d: &Deployment,
    number: usize,
) -> Result<(), Fail>
    requires { N.deployment ≡ d.now }
{
    let process = take_out(&mut store.serials, number)?;
    let (disk, _) = process.end();
    let process = serializer_again(alloc, d, number, disk)?;
    put_in(&mut store.serials, number, process)
}

// Stops all processes between two calls, and begins them again.
pub(crate) fn stop_all<N: Laid>(
    alloc: Global,
    store: &mut Store<N>,
    d: &Deployment,
) -> Result<(), Fail>
    requires { N.deployment ≡ d.now }
{
    for site in 0..3usize {
        stop_site(alloc, store, d, site)?;
    }
    for number in 0..2usize {
        stop_serializer(alloc, store, d, number)?;
    }
    Ok(())
}
