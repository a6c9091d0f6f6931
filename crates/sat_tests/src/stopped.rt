//! The example store on disks. Each site keeps what it is handed on a disk of its own before it answers, and what the
//! processes say to one another crosses as bytes: payloads in any order and more than once. The disk of a site fails in
//! the middle of a client's move, its process is stopped, and it is made again from what the disk holds.
use crate::stores::{
    Line, crossed, deployment, first_tree, fresh_relays, line_of, say, say_answer, second_tree,
};
use sat_act::{Answer, Deployment};
use sat_bodies::{body_of, decode, is_allowed};
use sat_client::Client;
use sat_durable::{Durable, MemoryDisk, StepFault, create, recover};
use sat_label::{Carried, Items, Label, NodeId, Value, Values};
use sat_lasting::KeptSite;
use sat_site::{SiteInput, SiteOutput};
use sat_store_example::{Relay, may_hand, payload_of};
use std::alloc::Global;
use std::test::Fail;

pub(crate) type OnDisk = Durable<MemoryDisk, KeptSite>;

// All processes, a client, and the payloads on their way. Site 0 alone sends labels, and its relay notes the last that
// it took.
#[derive(Drop)]
struct Lasting {
    deployment: Deployment,
    sites: Vec<Option<OnDisk>>,
    relays: Vec<Relay>,
    heard: Option<Label>,
    client: Client,
    net: Vec<Vec<u8>>,
}

// A site on an empty disk.
pub(crate) fn started(alloc: Global, d: &Deployment, site: u16) -> Result<OnDisk, Fail> {
    if site >= d.sites() {
        return Err(Fail::from("no such site"));
    }
    let fresh = KeptSite::new(alloc, d, site)?;
    match create(MemoryDisk::new(alloc), fresh) {
        Ok(kept) => Ok(kept),
        Err(_) => Err(Fail::from("not created")),
    }
}

// A site made again from what a crash left on its disk, and how many inputs it has.
fn again(
    alloc: Global,
    d: &Deployment,
    site: u16,
    disk: MemoryDisk,
) -> Result<(OnDisk, u64), Fail> {
    if site >= d.sites() {
        return Err(Fail::from("no such site"));
    }
    let fresh = KeptSite::new(alloc, d, site)?;
    match recover(alloc, disk.crash(), fresh) {
        Ok(made) => Ok((made.durable, made.inputs)),
        Err(_) => Err(Fail::from("not recovered")),
    }
}

fn fresh_store(alloc: Global) -> Result<Lasting, Fail> {
    let first = first_tree(alloc)?;
    let second = second_tree(alloc)?;
    let relays = fresh_relays(alloc, &first, &second)?;
    let deployment = deployment(alloc, &first, &second)?;
    let mut sites = Vec::new(alloc);
    for site in 0..3u16 {
        let kept = started(alloc, &deployment, site)?;
        sites.push(Some(kept))?;
    }
    Ok(Lasting {
        deployment,
        sites,
        relays,
        heard: None,
        client: Client::new(0),
        net: Vec::new(alloc),
    })
}

// ---- a site and its disk

// Hands a site what fits it: the site and its answer, or the disk where that failed.
pub(crate) fn stepped(
    alloc: Global,
    kept: OnDisk,
    given: SiteInput,
) -> Result<Result<(OnDisk, SiteOutput), MemoryDisk>, Fail> {
    if !may_hand(&kept, &given) {
        return Err(Fail::from("unfit"));
    }
    match kept.step(alloc, given) {
        Ok(done) => Ok(Ok(done)),
        Err(StepFault::Disk(disk)) => Ok(Err(disk)),
        Err(StepFault::Memory(_)) => Err(Fail::from("memory")),
    }
}

// Hands a site something: its answer; or, where its disk failed, how many inputs it has as it is made again.
fn step(
    alloc: Global,
    store: &mut Lasting,
    at: u16,
    given: SiteInput,
) -> Result<Result<Answer, u64>, Fail> {
    let slot = store.sites.get_mut(usize::from(at)).ok_or("no such site")?;
    let kept = slot.take().ok_or("stopped")?;
    match stepped(alloc, kept, given)? {
        Ok((kept, output)) => {
            *slot = Some(kept);
            Ok(Ok(output.answer))
        }
        Err(disk) => {
            let (kept, inputs) = again(alloc, &store.deployment, at, disk)?;
            *slot = Some(kept);
            Ok(Err(inputs))
        }
    }
}

// Stops a site between two calls, and makes it again: how many inputs it has.
fn stop(alloc: Global, store: &mut Lasting, at: u16) -> Result<u64, Fail> {
    let slot = store.sites.get_mut(usize::from(at)).ok_or("no such site")?;
    let kept = slot.take().ok_or("stopped")?;
    let (kept, inputs) = again(alloc, &store.deployment, at, kept.into_disk())?;
    *slot = Some(kept);
    Ok(inputs)
}

// The next write to a site's disk fails.
fn tear(store: &mut Lasting, at: u16) -> Result<(), Fail> {
    match store.sites.get_mut(usize::from(at)) {
        Some(Some(kept)) => {
            kept.arm(0, false);
            Ok(())
        }
        _ => Err(Fail::from("stopped")),
    }
}

fn running(store: &Lasting, at: u16) -> Result<&OnDisk, Fail> {
    match store.sites.get(usize::from(at)) {
        Some(Some(kept)) => Ok(kept),
        _ => Err(Fail::from("stopped")),
    }
}

// ---- what crosses

fn frame_of(alloc: Global, given: &SiteInput) -> Result<Vec<u8>, Fail> {
    if !is_allowed(given) {
        return Err(Fail::from("not allowed"));
    }
    let frame = body_of(alloc, given)?;
    Ok(frame)
}

fn of_frame(alloc: Global, frame: &[u8]) -> Result<SiteInput, Fail> {
    match decode(alloc, frame) {
        Ok(given) => Ok(given),
        Err(_) => Err(Fail::from("not read")),
    }
}

// Whether the relay took a label, which a site that was stopped tells it of again.
fn is_heard(heard: &Option<Label>, label: &Label) -> bool {
    match heard {
        Some(last) => last.is_same(label),
        None => false,
    }
}

fn hand_up(
    alloc: Global,
    store: &mut Lasting,
    from: u16,
    to: u16,
    label: &Label,
) -> Result<(), Fail> {
    let label = crossed(alloc, label)?;
    if is_heard(&store.heard, &label) {
        return Ok(());
    }
    let relay = store
        .relays
        .get_mut(usize::from(to))
        .ok_or("no such relay")?;
    relay
        .accept(NodeId::Site(from), label)
        .map_err(|_| "not accepted")?;
    store.heard = Some(label);
    Ok(())
}

// A label goes up: it leaves the sink only once the relay has it.
fn up(alloc: Global, store: &mut Lasting, from: u16, to: u16) -> Result<Result<Answer, u64>, Fail> {
    let label = running(store, from)?
        .machine()
        .site()
        .sends(&SiteInput::Emit);
    if let Some(label) = label {
        hand_up(alloc, store, from, to, &label)?;
    }
    step(alloc, store, from, SiteInput::Emit)
}

fn is_taken(came: &Result<Answer, u64>) -> bool {
    matches!(came, Ok(Answer::Shown(_)) | Ok(Answer::Took(_)))
}

// A label goes down: it leaves the relay only once the turn with it is on the site's disk.
fn down(
    alloc: Global,
    store: &mut Lasting,
    from: u16,
    to: u16,
) -> Result<Result<Answer, u64>, Fail> {
    let relay = store.relays.get(usize::from(from)).ok_or("no such relay")?;
    let offer = relay.offer(NodeId::Site(to)).ok_or("an empty link")?;
    let front = Some(offer.label());
    let frame = frame_of(alloc, &SiteInput::Turn { front })?;
    let given = of_frame(alloc, frame.as_slice())?;
    let came = step(alloc, store, to, given)?;
    if is_taken(&came) {
        let relay = store
            .relays
            .get_mut(usize::from(from))
            .ok_or("no such relay")?;
        relay.taken(offer);
    }
    Ok(came)
}

// A payload is put on its way, where it stays.
fn post(alloc: Global, store: &mut Lasting, from: u16, to: u16, number: u64) -> Result<(), Fail> {
    let site = running(store, from)?.machine().site();
    let payload = payload_of(site, 0, to, number).ok_or("no payload")?.copy()?;
    let frame = frame_of(
        alloc,
        &SiteInput::Bulk {
            from,
            gear: 0,
            number,
            payload,
        },
    )?;
    store.net.push(frame)?;
    Ok(())
}

// A payload that is on its way comes. A client's act may not come so.
fn take(
    alloc: Global,
    store: &mut Lasting,
    at: u16,
    place: u16,
) -> Result<Result<Answer, u64>, Fail> {
    let frame = store
        .net
        .get(usize::from(place))
        .ok_or("nothing on its way")?;
    let given = of_frame(alloc, frame.as_slice())?;
    if !matches!(given, SiteInput::Bulk { .. }) {
        return Err(Fail::from("no payload"));
    }
    step(alloc, store, at, given)
}

// ---- lines

fn given_of(alloc: Global, client: &Client, line: &Line<'_>) -> Result<SiteInput, Fail> {
    let carried = client.carried;
    match line.verb {
        "write" => {
            let value = Value::of(alloc, line.text.as_bytes())?.ok_or("no value")?;
            Ok(SiteInput::Write {
                carried,
                items: Items::One(line.b),
                values: Values::one(alloc, value)?,
            })
        }
        "read" => Ok(SiteInput::Read {
            carried,
            item: line.b,
        }),
        "move" => Ok(SiteInput::Move {
            carried,
            to: line.b,
        }),
        "attach" => Ok(SiteInput::Attach { carried }),
        "gather" => Ok(SiteInput::Gather),
        _ => Err(Fail::from("no such line")),
    }
}

// What an answer makes of the client.
fn note(client: &mut Client, line: &Line<'_>, answer: &Answer) {
    match answer {
        Answer::Wrote(label) => client.observe(label.point),
        Answer::ReadSome { label, .. } => client.observe(label.point),
        Answer::Moved(label) => {
            client.carried = Carried {
                point: label.point,
                moving: Some(line.b),
            };
            client.seat = None;
        }
        Answer::Attached => client.joined(line.a),
        _ => {}
    }
}

fn call(alloc: Global, store: &mut Lasting, line: &Line<'_>) -> Result<Result<Answer, u64>, Fail> {
    let given = given_of(alloc, &store.client, line)?;
    let came = step(alloc, store, line.a, given)?;
    if let Ok(answer) = &came {
        note(&mut store.client, line, answer);
    }
    Ok(came)
}

fn act(alloc: Global, store: &mut Lasting, line: &Line<'_>) -> Result<Result<Answer, u64>, Fail> {
    match line.verb {
        "stop" => {
            let inputs = stop(alloc, store, line.a)?;
            Ok(Err(inputs))
        }
        "up" => up(alloc, store, line.a, line.b),
        "down" => down(alloc, store, line.a, line.b),
        "take" => take(alloc, store, line.a, line.b),
        _ => call(alloc, store, line),
    }
}

// Does a line, and appends what came of it.
fn go(alloc: Global, store: &mut Lasting, text: &str, out: &mut Vec<u8>) -> Result<(), Fail> {
    let line = line_of(text);
    if line.verb == "tear" {
        tear(store, line.a)?;
        return say(out, b"torn");
    }
    if line.verb == "post" {
        post(alloc, store, line.a, line.b, u64::from(line.c))?;
        return say(out, b"posted");
    }
    match act(alloc, store, &line)? {
        Ok(answer) => say_answer(out, &answer),
        Err(inputs) => {
            say(out, b"made again with ")?;
            say(out, &[b'0' + (inputs % 10) as u8])
        }
    }
}

// The disk of site 0 fails as the client leaves, so the move is not answered, and is asked for again; the process is
// stopped behind the move, and its disk fails once more as a label that the relay has leaves. The photos come in the
// wrong order, one of them twice, and site 1 is stopped before it takes the label of the move.
const SITES_STOP: &str = "write 0 0 beach -> wrote 1.0.0
write 0 0 dunes -> wrote 2.0.0
tear 0 -> torn
move 0 1 -> made again with 2
move 0 1 -> moved 3.0.0
stop 0 -> made again with 3
gather 0 -> gathered
up 0 0 -> emitted 1.0.0
tear 0 -> torn
up 0 0 -> made again with 5
up 0 0 -> emitted 2.0.0
up 0 0 -> emitted 3.0.0
post 0 1 0 -> posted
post 0 1 1 -> posted
take 1 1 -> brought 2.0.0
take 1 0 -> brought 1.0.0
take 1 1 -> again
down 0 1 -> shown 1.0.0
down 0 1 -> shown 2.0.0
attach 1 -> refused NotYet
stop 1 -> made again with 6
down 0 1 -> took 3.0.0
attach 1 -> attached
read 1 0 -> dunes";

#[test]
fn sites_are_stopped_in_the_middle_of_a_move(rt: HostRuntime) -> Result<(), Fail> {
    let alloc = rt.alloc();
    let mut store = fresh_store(alloc)?;
    for line in SITES_STOP.lines() {
        let (done, wanted) = line.split_once(" -> ").ok_or("no arrow")?;
        let mut said = Vec::new(alloc);
        go(alloc, &mut store, done, &mut said)?;
        assert_eq!(rt; said.as_slice(), wanted.as_bytes(), "{done}");
    }
    Ok(())
}
