//! Three sites and two serializers, each a process on a disk, and letters between them as bytes, of which many are
//! lost, doubled and out of order. One disk fails in the middle, and processes are stopped between two calls; each
//! begins again with what its disk holds. In the end all journals, merged, are a script, of which `run` prints what the
//! nodes answered.
ghost use Rattle.std.specs.Prelude.{◌≡◌};

use crate::asks::{kill, reads, send_all, write};
use crate::begin::{AtNode, Store, Tally, new_store, stop_all};
use crate::letters::{carry, post};
use crate::shared::{ALBUM, PHOTO, TREE, deployment, is_run};
use sat_act::{Deployment, Entries};
use sat_client::Client;
use sat_machines::{Laid, SerialNode, SiteNode};
use sat_opened::{serial_entries, site_entries};
use sat_stitch::{Journal, stitch};
use std::alloc::Global;
use std::marker::Brand;
use std::test::Fail;

// Some rounds, each in another order.
fn rounds<N: Laid>(alloc: Global, store: &mut Store<N>, d: &Deployment) -> Result<(), Fail>
    requires { N.deployment ≡ d.now }
{
    for stride in [1usize, 2, 5, 7, 3, 11, 1, 13, 4, 1, 17, 2, 1, 3] {
        send_all(alloc, store, d)?;
        let post = post(alloc, store)?;
        carry(alloc, store, d, post.as_slice(), stride)?;
    }
    Ok(())
}

// ---- the journals, merged

fn add_sites<N: Laid>(
    alloc: Global,
    sites: &[Option<AtNode<SiteNode<N>>>],
    journals: &mut Vec<Journal>,
) -> Result<(), Fail> {
    let mut place = 0u32;
    for slot in sites {
        let Some(process) = slot else {
            return Err(Fail::from("stopped"));
        };
        let kept = site_entries(alloc, process.node())?;
        journals.push(Journal { place, kept })?;
        place = place.wrapping_add(1);
    }
    Ok(())
}

fn add_serializers<N: Laid>(
    alloc: Global,
    serials: &[Option<AtNode<SerialNode<N>>>],
    journals: &mut Vec<Journal>,
) -> Result<(), Fail> {
    let mut place = 3u32;
    for slot in serials {
        let Some(process) = slot else {
            return Err(Fail::from("stopped"));
        };
        let kept = serial_entries(alloc, process.node())?;
        journals.push(Journal { place, kept })?;
        place = place.wrapping_add(1);
    }
    Ok(())
}

// All that the processes did, in one order.
fn merged<N: Laid>(alloc: Global, store: &Store<N>) -> Result<Entries, Fail> {
    let mut journals = Vec::new(alloc);
    add_sites(alloc, store.sites.as_slice(), &mut journals)?;
    add_serializers(alloc, store.serials.as_slice(), &mut journals)?;
    let all = stitch(alloc, journals.as_slice())?;
    Ok(all)
}

// How many labels each node took: the sites and then the serializers, which take nothing else.
fn labels<N: Laid>(alloc: Global, store: &Store<N>) -> Result<Vec<u64>, Fail> {
    let mut counts = Vec::new(alloc);
    for slot in &store.sites {
        let Some(process) = slot else {
            return Err(Fail::from("stopped"));
        };
        counts.push(process.host().wanted(TREE))?;
    }
    for slot in &store.serials {
        let Some(process) = slot else {
            return Err(Fail::from("stopped"));
        };
        counts.push(process.host().slips().len() as u64)?;
    }
    Ok(counts)
}

// ---- the run

// What became of all of it: what the clients read, whether the kill stopped the serializer, how many labels each node
// took, what became of all letters, and all that the processes did.
#[derive(Drop)]
struct Story {
    read: [bool; 2],
    killed: bool,
    labels: Vec<u64>,
    tally: Tally,
    all: Entries,
}

// Three versions of the photo are written at site 0. Whether the last is read at site 1.
fn share_photo<N: Laid>(
    alloc: Global,
    store: &mut Store<N>,
    d: &Deployment,
    bob: &mut Client,
) -> Result<bool, Fail>
    requires { N.deployment ≡ d.now }
{
    let mut ann = Client::new(0);
    write(alloc, store, d, &mut ann, 0, PHOTO, b"sea")?;
    write(alloc, store, d, &mut ann, 0, PHOTO, b"beach")?;
    write(alloc, store, d, &mut ann, 0, PHOTO, b"dunes")?;
    rounds(alloc, store, d)?;
    reads(alloc, store, d, bob, 1, PHOTO, b"dunes")
}

// The album is written at site 1. Whether it is read at site 2.
fn share_album<N: Laid>(
    alloc: Global,
    store: &mut Store<N>,
    d: &Deployment,
    bob: &mut Client,
) -> Result<bool, Fail>
    requires { N.deployment ≡ d.now }
{
    let mut cid = Client::new(2);
    write(alloc, store, d, bob, 1, ALBUM, b"dunes.jpg")?;
    rounds(alloc, store, d)?;
    reads(alloc, store, d, &mut cid, 2, ALBUM, b"dunes.jpg")
}

// The photo goes from site 0 to site 1 in three versions, and the album from there to site 2. All processes are stopped
// between the two, and the last serializer is killed in the end.
fn tell<N: Laid>(alloc: Global, store: &mut Store<N>, d: &Deployment) -> Result<Story, Fail>
    requires { N.deployment ≡ d.now }
{
    let mut bob = Client::new(1);
    let photo = share_photo(alloc, store, d, &mut bob)?;
    stop_all(alloc, store, d)?;
    let album = share_album(alloc, store, d, &mut bob)?;
    let killed = kill(alloc, store, 1)?;
    let labels = labels(alloc, store)?;
    let all = merged(alloc, store)?;
    Ok(Story {
        read: [photo, album],
        killed,
        labels,
        tally: store.tally,
        all,
    })
}

// The processes are lent, and let go whatever came of it.
fn run<N: Laid>(alloc: Global, d: &Deployment) -> Result<Story, Fail>
    requires { N.deployment ≡ d.now }
{
    let mut store = new_store::<N>(alloc, d)?;
    tell(alloc, &mut store, d)
}

// Three photos go to site 1 and one album to site 2: each label is taken once, by the serializer 0, the album's by the
// serializer 1 too, and then by its site. The disk of site 1 fails once, and site 1 begins again.
#[test]
fn a_store_of_processes_is_one_run(rt: HostRuntime) -> Result<(), Fail> {
    let alloc = rt.alloc();
    let d = deployment(alloc)?;
    let story = run::<Brand>(alloc, &d)?;
    assert_eq!(rt; story.read, [true; 2]);
    assert!(rt; story.killed);
    assert_eq!(rt; story.labels.as_slice(), [0u64, 3, 1, 4, 1].as_slice());
    assert!(rt; story.tally.taken > 0);
    assert!(rt; story.tally.early > 0);
    assert!(rt; story.tally.again > 0);
    assert!(rt; story.tally.unread > 0);
    assert_eq!(rt; story.tally.unfit, 0);
    assert_eq!(rt; story.tally.begun, 1);
    assert!(rt; is_run(alloc, &d, story.all.as_slice())?);
    Ok(())
}
