//! What two stores share, one of hosts and one of processes: a deployment of three sites and two serializers, the ways
//! between them, and whether `run` prints what they did.
ghost use Rattle.std.specs.Prelude.{◌≡◌, length, IfOk};

use sat_act::{ClientLine, Deployment, Entry, Item, Plan};
use sat_label::{Name, SiteSet};
use sat_outside::CleanSink;
use sat_report::write_line;
use sat_script::write_script;
use sat_top::still_in_memory;
use sat_tree::Tree;
use std::alloc::Global;
use std::test::Fail;

pub(crate) const PHOTO: u16 = 0;

pub(crate) const ALBUM: u16 = 1;

// ---- the deployment

fn name(alloc: Global, text: &[u8]) -> Result<Name, Fail> {
    let name = Name::of(alloc, text)?.ok_or("no name")?;
    Ok(name)
}

// The photo is kept at the sites 0 and 1, the album at 1 and 2.
fn items(alloc: Global) -> Result<Vec<Item>, Fail>
    ensures { IfOk result (λ items. length items.items ≡ 2) }
{
    let mut items = Vec::new(alloc);
    items.push(Item {
        name: name(alloc, b"photo")?,
        replicas: SiteSet { bits: 3 },
    })?;
    items.push(Item {
        name: name(alloc, b"album")?,
        replicas: SiteSet { bits: 6 },
    })?;
    Ok(items)
}

// A client at each site.
fn clients(alloc: Global) -> Result<Vec<ClientLine>, Fail>
    ensures { IfOk result (λ clients. length clients.items ≡ 3) }
{
    let mut clients = Vec::new(alloc);
    clients.push(ClientLine {
        name: name(alloc, b"ann")?,
        site: 0,
    })?;
    clients.push(ClientLine {
        name: name(alloc, b"bob")?,
        site: 1,
    })?;
    clients.push(ClientLine {
        name: name(alloc, b"cid")?,
        site: 2,
    })?;
    Ok(clients)
}

// The sites 0 and 1 sit at serializer 0, and site 2 at serializer 1 below it.
pub(crate) fn deployment(alloc: Global) -> Result<Deployment, Fail>
    ensures clients { IfOk result (λ d. length d.clients ≡ 3) }
    ensures items { IfOk result (λ d. length d.items ≡ 2) }
{
    let tree = Tree::new(alloc, &[None, Some(0)], &[0, 0, 1])?;
    let mut plans = Vec::new(alloc);
    plans.push(Plan::Tree(tree))?;
    let items = items(alloc)?;
    let clients = clients(alloc)?;
    let deployment = Deployment::new(alloc, 1, 3, 1, items, clients, plans)?;
    Ok(deployment)
}

// ---- the ways

// The link of the tree at each site, behind those of the other sites.
pub(crate) const TREE: usize = 2;

// The ways from one node to another: the node, its link, the other node, and the number that the link has there. The
// nodes 0 to 2 are the sites, 3 and 4 the serializers. At a site come first the other sites in order and then its tree;
// at a serializer its sites and then its serializers.
pub(crate) const WAYS: [(usize, usize, usize, usize); 14] = [
    (0, 0, 1, 0),
    (0, 1, 2, 0),
    (1, 0, 0, 0),
    (1, 1, 2, 1),
    (2, 0, 0, 1),
    (2, 1, 1, 1),
    (0, 2, 3, 0),
    (1, 2, 3, 1),
    (2, 2, 4, 0),
    (3, 0, 0, 2),
    (3, 1, 1, 2),
    (3, 2, 4, 1),
    (4, 0, 2, 2),
    (4, 1, 3, 2),
];

// ---- `run`

// What `run` prints of a script.
fn ran(alloc: Global, script: Vec<u8>) -> Result<CleanSink, Fail> {
    let mut words = Vec::new(alloc);
    words.push(String::from_str(alloc, "run")?)?;
    let (_, sink) = still_in_memory(alloc, words.as_slice(), script, 4096, 65_536)?;
    Ok(sink)
}

// Whether `run` answers the acts of the nodes as these did.
pub(crate) fn is_run(alloc: Global, d: &Deployment, all: &[Entry]) -> Result<bool, Fail> {
    let mut acts = Vec::new(alloc);
    let mut report = Vec::new(alloc);
    let mut number = 0u64;
    for entry in all {
        number = number.wrapping_add(1);
        acts.push(entry.act.copy()?)?;
        write_line(d, number, &entry.act, &entry.answer, &mut report)?;
    }
    report.extend_from_slice(b"holdings\n")?;
    let mut script = Vec::new(alloc);
    write_script(d, acts.as_slice(), &mut script)?;
    let sink = ran(alloc, script)?;
    Ok(sink.held().starts_with(report.as_slice()))
}
