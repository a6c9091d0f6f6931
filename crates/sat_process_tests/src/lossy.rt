//! Three sites and two serializers, each a host, and sessions at them. What carries the hosts' messages is a list that
//! is gone through in an order of its own: some are passed over, some are handed twice, and all are asked for again. In
//! the end all journals, merged, are a script, of which `run` prints what the hosts answered.
ghost use Rattle.std.specs.Prelude.{◌≡◌, ◌<◌, false, length};
ghost use Rattle.sat_machines.specs.Acts.{is_clients};

use crate::shared::{ALBUM, PHOTO, TREE, WAYS, deployment, is_run};
use sat_act::{Answer, Deployment, Entries, Refusal};
use sat_host::{
    Host, Hosts, Received, act_at_site, kill_at_serializer, receive_at_serializer, receive_at_site,
};
use sat_label::Value;
use sat_machines::{Laid, SerialNode, SiteAct, SiteNode};
use sat_message::Message;
use sat_node::{CallFault, Machine};
use sat_opened::{serial_entries, site_entries};
use sat_session::Session;
use sat_site::SiteInput;
use sat_stitch::{Journal, stitch};
use std::alloc::{AllocError, Global};
use std::marker::Brand;
use std::test::Fail;

// ---- the transport

// A way from one node to another, with the number of its link at each.
#[derive(Clone, Copy)]
struct Way {
    from: usize,
    out: usize,
    to: usize,
    into: usize,
}

#[derive(Drop)]
struct Posted {
    to: usize,
    link: usize,
    message: Message,
}

// All that a host ever put on a link, once more.
fn post_all<M: Machine>(
    host: &mut Host<M>,
    way: Way,
    post: &mut Vec<Posted>,
) -> Result<(), AllocError> {
    host.rewind(way.out);
    for _ in 0..64usize {
        let Some(message) = host.next_message(way.out)? else {
            return Ok(());
        };
        post.push(Posted {
            to: way.to,
            link: way.into,
            message,
        })?;
    }
    Ok(())
}

fn post_from<N: Laid>(
    hosts: &mut Hosts<N>,
    way: Way,
    post: &mut Vec<Posted>,
) -> Result<(), AllocError> {
    let sites = hosts.sites.len();
    if way.from < sites {
        return post_all(&mut hosts.sites[way.from], way, post);
    }
    let number = way.from - sites;
    if number < hosts.serials.len() {
        return post_all(&mut hosts.serials[number], way, post);
    }
    Ok(())
}

fn post<N: Laid>(alloc: Global, hosts: &mut Hosts<N>) -> Result<Vec<Posted>, AllocError> {
    let mut post = Vec::new(alloc);
    for (from, out, to, into) in WAYS {
        let way = Way {
            from,
            out,
            to,
            into,
        };
        post_from(hosts, way, &mut post)?;
    }
    Ok(post)
}

fn hand<N: Laid>(
    hosts: &mut Hosts<N>,
    d: &Deployment,
    posted: &Posted,
) -> Result<Received, CallFault>
    requires { N.deployment ≡ d.now }
{
    let sites = hosts.sites.len();
    if posted.to < sites {
        return receive_at_site(&mut hosts.sites[posted.to], d, posted.link, &posted.message);
    }
    let number = posted.to - sites;
    if number < hosts.serials.len() {
        return receive_at_serializer(&mut hosts.serials[number], posted.link, &posted.message);
    }
    Ok(Received::Unfit)
}

// How many messages were taken, came early, came again, and did not fit.
#[derive(Clone, Copy, Debug, PartialEq, Eq)]
struct Tally {
    taken: u32,
    early: u32,
    again: u32,
    unfit: u32,
}

fn count(tally: &mut Tally, received: Received) {
    match received {
        Received::Taken => tally.taken = tally.taken.wrapping_add(1),
        Received::Early => tally.early = tally.early.wrapping_add(1),
        Received::Again => tally.again = tally.again.wrapping_add(1),
        Received::Unfit => tally.unfit = tally.unfit.wrapping_add(1),
    }
}

// Hands on what there is, from the last to the first by strides: every third is lost, every fifth comes twice.
fn carry<N: Laid>(
    hosts: &mut Hosts<N>,
    d: &Deployment,
    post: &[Posted],
    stride: usize,
    tally: &mut Tally,
) -> Result<(), CallFault>
    requires { N.deployment ≡ d.now }
{
    let many = post.len();
    if many == 0 {
        return Ok(());
    }
    for step in 0..many {
        let place = step.wrapping_add(1).wrapping_mul(stride) % many;
        let Some(posted) = post.get(many.wrapping_sub(1).wrapping_sub(place)) else {
            continue;
        };
        if step.wrapping_add(stride) % 3 == 0 {
            continue;
        }
        count(tally, hand(hosts, d, posted)?);
        if step % 5 == 0 {
            count(tally, hand(hosts, d, posted)?);
        }
    }
    Ok(())
}

// ---- the sites

// A site does something by itself.
fn act<N: Laid>(host: &mut Host<SiteNode<N>>, input: SiteInput) -> Result<(), CallFault>
    requires { is_clients input ≡ false }
{
    act_at_site(host, 0, SiteAct::of_site(input))?;
    Ok(())
}

// A site gathers, and sends all that it can.
fn send<N: Laid>(host: &mut Host<SiteNode<N>>) -> Result<(), CallFault> {
    act(host, SiteInput::Gather)?;
    for _ in 0..8usize {
        if !host.node().machine().site().can(&SiteInput::Emit) {
            return Ok(());
        }
        act(host, SiteInput::Emit)?;
    }
    Ok(())
}

fn send_all<N: Laid>(sites: &mut Vec<Host<SiteNode<N>>>) -> Result<(), CallFault> {
    for site in 0..sites.len() {
        if site < sites.len() {
            send(&mut sites[site])?;
        }
    }
    Ok(())
}

// Some rounds, each in another order.
fn rounds<N: Laid>(
    alloc: Global,
    hosts: &mut Hosts<N>,
    d: &Deployment,
    tally: &mut Tally,
) -> Result<(), Fail>
    requires { N.deployment ≡ d.now }
{
    for stride in [1usize, 2, 5, 7, 3, 11, 1, 13, 4, 1, 17, 2, 1, 3] {
        send_all(&mut hosts.sites)?;
        let post = post(alloc, hosts)?;
        carry(hosts, d, post.as_slice(), stride, tally)?;
    }
    Ok(())
}

// ---- the clients

// A client writes at its site.
fn write<N: Laid>(
    alloc: Global,
    sites: &mut Vec<Host<SiteNode<N>>>,
    site: usize,
    client: &mut Session<N>,
    item: u16,
    text: &[u8],
) -> Result<(), Fail>
    requires client { client.old.number < length N.deployment.clients }
    requires item { item < length N.deployment.items }
    ensures { client.new.number ≡ client.old.number }
{
    if site >= sites.len() {
        return Err(Fail::from("no such site"));
    }
    let value = Value::of(alloc, text)?.ok_or("no value")?;
    match client.write(&mut sites[site], item, &value)? {
        Answer::Wrote(_) => Ok(()),
        _ => Err(Fail::from("refused")),
    }
}

// Whether a client that reads at its site is answered this text.
fn reads<N: Laid>(
    sites: &mut Vec<Host<SiteNode<N>>>,
    site: usize,
    client: &mut Session<N>,
    item: u16,
    text: &[u8],
) -> Result<bool, Fail>
    requires client { client.old.number < length N.deployment.clients }
    requires item { item < length N.deployment.items }
    ensures { client.new.number ≡ client.old.number }
{
    if site >= sites.len() {
        return Err(Fail::from("no such site"));
    }
    match client.read(&mut sites[site], item)? {
        Answer::ReadSome { label: _, value } => Ok(value.bytes() == text),
        _ => Ok(false),
    }
}

// ---- the journals, merged

// All that the hosts did, in one order.
fn merged<N: Laid>(alloc: Global, hosts: &Hosts<N>) -> Result<Entries, AllocError> {
    let mut journals = Vec::new(alloc);
    let mut place = 0u32;
    for host in &hosts.sites {
        let kept = site_entries(alloc, host.node())?;
        journals.push(Journal { place, kept })?;
        place = place.wrapping_add(1);
    }
    for host in &hosts.serials {
        let kept = serial_entries(alloc, host.node())?;
        journals.push(Journal { place, kept })?;
        place = place.wrapping_add(1);
    }
    stitch(alloc, journals.as_slice())
}

// ---- the run

// How many labels each node took: the sites and then the serializers, which take nothing else.
fn labels<N: Laid>(alloc: Global, hosts: &Hosts<N>) -> Result<Vec<u64>, AllocError> {
    let mut counts = Vec::new(alloc);
    for host in &hosts.sites {
        counts.push(host.wanted(TREE))?;
    }
    for host in &hosts.serials {
        counts.push(host.slips().len() as u64)?;
    }
    Ok(counts)
}

// Whether the operator kills the last serializer once: it then is dead, and another kill is refused.
fn kills<N: Laid>(
    serials: &mut Vec<Host<SerialNode<N>>>,
    operator: &mut Session<N>,
) -> Result<bool, Fail>
    requires { operator.old.number ≡ length N.deployment.clients }
{
    let Some(host) = serials.last_mut() else {
        return Err(Fail::from("no serializer"));
    };
    let first = operator.kill(host, 1, 1)?;
    let dead = host.node().machine().is_dead();
    let second = kill_at_serializer(host, operator.lamport())?.answer;
    Ok(first == Answer::Killed && dead && second == Answer::Refused(Refusal::Already))
}

// The photo goes from site 0 to site 1 in three versions, and the album from there to site 2. Whether each client read
// what came.
fn share<N: Laid>(
    alloc: Global,
    hosts: &mut Hosts<N>,
    d: &Deployment,
    tally: &mut Tally,
) -> Result<[bool; 2], Fail>
    requires deployment { N.deployment ≡ d.now }
    requires clients { length N.deployment.clients ≡ 3 }
    requires items { length N.deployment.items ≡ 2 }
{
    let mut ann = Session::<N>::of_client(alloc, d, 0);
    let mut bob = Session::<N>::of_client(alloc, d, 1);
    let mut cid = Session::<N>::of_client(alloc, d, 2);
    write(alloc, &mut hosts.sites, 0, &mut ann, PHOTO, b"sea")?;
    write(alloc, &mut hosts.sites, 0, &mut ann, PHOTO, b"beach")?;
    write(alloc, &mut hosts.sites, 0, &mut ann, PHOTO, b"dunes")?;
    rounds(alloc, hosts, d, tally)?;
    let photo = reads(&mut hosts.sites, 1, &mut bob, PHOTO, b"dunes")?;
    write(alloc, &mut hosts.sites, 1, &mut bob, ALBUM, b"dunes.jpg")?;
    rounds(alloc, hosts, d, tally)?;
    let album = reads(&mut hosts.sites, 2, &mut cid, ALBUM, b"dunes.jpg")?;
    Ok([photo, album])
}

// What became of all of it: what the clients read, whether the kill stopped the serializer, how many labels each node
// took, what became of all messages, and all that the hosts did.
#[derive(Drop)]
struct Story {
    read: [bool; 2],
    killed: bool,
    labels: Vec<u64>,
    tally: Tally,
    all: Entries,
}

fn tell<N: Laid>(alloc: Global, hosts: &mut Hosts<N>, d: &Deployment) -> Result<Story, Fail>
    requires deployment { N.deployment ≡ d.now }
    requires clients { length N.deployment.clients ≡ 3 }
    requires items { length N.deployment.items ≡ 2 }
{
    let mut tally = Tally {
        taken: 0,
        early: 0,
        again: 0,
        unfit: 0,
    };
    let read = share(alloc, hosts, d, &mut tally)?;
    let mut operator = Session::<N>::of_operator(alloc, d);
    let killed = kills(&mut hosts.serials, &mut operator)?;
    let all = merged(alloc, hosts)?;
    let labels = labels(alloc, hosts)?;
    Ok(Story {
        read,
        killed,
        labels,
        tally,
        all,
    })
}

// The hosts are lent, and let go whatever came of it.
fn run<N: Laid>(alloc: Global, d: &Deployment) -> Result<Story, Fail>
    requires deployment { N.deployment ≡ d.now }
    requires clients { length N.deployment.clients ≡ 3 }
    requires items { length N.deployment.items ≡ 2 }
{
    let mut hosts = Hosts::<N>::new(alloc, d)?;
    let story = tell(alloc, &mut hosts, d);
    hosts.let_go();
    story
}

// Three photos go to site 1 and one album to site 2: each label is taken once, by the serializer 0, the album's by the
// serializer 1 too, and then by its site. A payload that comes again is taken again, and the site says so.
#[test]
fn what_is_lost_doubled_and_out_of_order_comes_at_last(rt: HostRuntime) -> Result<(), Fail> {
    let alloc = rt.alloc();
    let d = deployment(alloc)?;
    let story = run::<Brand>(alloc, &d)?;
    assert_eq!(rt; story.read, [true; 2]);
    assert!(rt; story.killed);
    assert_eq!(rt; story.labels.as_slice(), [0u64, 3, 1, 4, 1].as_slice());
    assert!(rt; story.tally.taken > 0);
    assert!(rt; story.tally.early > 0);
    assert!(rt; story.tally.again > 0);
    assert_eq!(rt; story.tally.unfit, 0);
    assert!(rt; is_run(alloc, &d, story.all.as_slice())?);
    Ok(())
}
