//! The example store, with three sites, as its builder would run it: each process holds a replica or a relay, and the
//! code below carries their messages, as bytes, line by line: left what is done, right what came of it. Labels stay in
//! order on each link; payloads are late.
ghost use Rattle.std.specs.Prelude.{◌≡◌, length, IfOk};

use sat_act::{Answer, ClientLine, Deployment, Item, Plan, Refusal};
use sat_client::Client;
use sat_label::{Label, Name, NodeId, SiteSet, Value, write_point};
use sat_sites::Interest;
use sat_store_example::{Duty, Relay, Replica, Sending};
use sat_tree::Tree;
use sat_wire::{Wire, decode, encode};
use std::alloc::Global;
use std::test::Fail;

// The photo, item 0, is kept at the sites 0 and 1, the album, item 1, at 1 and 2.
const PHOTO_AT: SiteSet = SiteSet { bits: 3 };

const ALBUM_AT: SiteSet = SiteSet { bits: 6 };

fn item(alloc: Global, name: &[u8], replicas: SiteSet) -> Result<Item, Fail> {
    let name = Name::of(alloc, name)?.ok_or("no name")?;
    Ok(Item { name, replicas })
}

fn items(alloc: Global) -> Result<Vec<Item>, Fail> {
    let mut items = Vec::new(alloc);
    items.push(item(alloc, b"photo", PHOTO_AT)?)?;
    items.push(item(alloc, b"album", ALBUM_AT)?)?;
    Ok(items)
}

// Every process knows the deployment: three sites of one gear, and a tree for each of two epochs. No client is named:
// those of a store come and go.
pub(crate) fn deployment(alloc: Global, first: &Tree, second: &Tree) -> Result<Deployment, Fail>
    ensures { IfOk result (λ d. d.sites ≡ 3) }
{
    let items = items(alloc)?;
    let mut plans = Vec::new(alloc);
    plans.push(Plan::Tree(first.copy()?))?;
    plans.push(Plan::Tree(second.copy()?))?;
    let clients: Vec<ClientLine> = Vec::new(alloc);
    let deployment = Deployment::new(alloc, 1, 3, 1, items, clients, plans)?;
    Ok(deployment)
}

// At first the sites 0 and 1 hang on a root, and site 2 on a leaf below it.
pub(crate) fn first_tree(alloc: Global) -> Result<Tree, Fail>
    ensures parents { IfOk result (λ tree. length tree.parents ≡ 2) }
    ensures seats { IfOk result (λ tree. length tree.seats ≡ 3) }
{
    let tree = Tree::new(alloc, &[None, Some(0)], &[0, 0, 1])?;
    Ok(tree)
}

// Then all hang on one.
pub(crate) fn second_tree(alloc: Global) -> Result<Tree, Fail>
    ensures parents { IfOk result (λ tree. length tree.parents ≡ 1) }
    ensures seats { IfOk result (λ tree. length tree.seats ≡ 3) }
{
    let tree = Tree::new(alloc, &[None], &[0, 0, 0])?;
    Ok(tree)
}

fn interest(alloc: Global) -> Result<Interest, Fail>
    ensures { IfOk result (λ interest. interest.sites ≡ 3) }
{
    let interest = Interest::new(alloc, 3, &[PHOTO_AT, ALBUM_AT])?;
    Ok(interest)
}

// The processes of the sites, by number.
fn fresh_sites(alloc: Global, d: &Deployment) -> Result<Vec<Replica>, Fail>
    requires { d.now.sites ≡ 3 }
{
    let mut sites = Vec::new(alloc);
    sites.push(Replica::new(alloc, d, 0)?)?;
    sites.push(Replica::new(alloc, d, 1)?)?;
    sites.push(Replica::new(alloc, d, 2)?)?;
    Ok(sites)
}

// The processes of the serializers: 0 and 1 of the first tree, and 2 of the second.
pub(crate) fn fresh_relays(alloc: Global, first: &Tree, second: &Tree) -> Result<Vec<Relay>, Fail>
    requires first_parents { length first.now.parents ≡ 2 }
    requires first_seats { length first.now.seats ≡ 3 }
    requires second_parents { length second.now.parents ≡ 1 }
    requires second_seats { length second.now.seats ≡ 3 }
{
    let interest = interest(alloc)?;
    let mut relays = Vec::new(alloc);
    relays.push(Relay::new(alloc, first, &interest, 0)?)?;
    relays.push(Relay::new(alloc, first, &interest, 1)?)?;
    relays.push(Relay::new(alloc, second, &interest, 0)?)?;
    Ok(relays)
}

// All processes, and a client.
#[derive(Drop)]
struct Store {
    sites: Vec<Replica>,
    relays: Vec<Relay>,
    client: Client,
}

fn fresh_store(alloc: Global) -> Result<Store, Fail> {
    let first = first_tree(alloc)?;
    let second = second_tree(alloc)?;
    let d = deployment(alloc, &first, &second)?;
    let relays = fresh_relays(alloc, &first, &second)?;
    let sites = fresh_sites(alloc, &d)?;
    let client = Client::new(0);
    Ok(Store {
        sites,
        relays,
        client,
    })
}

// ---- what came of it

pub(crate) fn say(out: &mut Vec<u8>, text: &[u8]) -> Result<(), Fail> {
    out.extend_from_slice(text)?;
    Ok(())
}

fn say_label(out: &mut Vec<u8>, text: &[u8], label: &Label) -> Result<(), Fail> {
    out.extend_from_slice(text)?;
    write_point(&label.point, out)?;
    Ok(())
}

fn say_refusal(out: &mut Vec<u8>, refusal: &Refusal) -> Result<(), Fail> {
    match refusal {
        Refusal::NotYet => say(out, b"refused NotYet"),
        Refusal::Empty => say(out, b"refused Empty"),
        Refusal::NoPayload(label) => say_label(out, b"refused NoPayload ", label),
        _ => say(out, b"refused"),
    }
}

// What an answer says of a label, and whether it says of one.
fn say_known(out: &mut Vec<u8>, answer: &Answer) -> Result<bool, Fail> {
    match answer {
        Answer::Wrote(label) => say_label(out, b"wrote ", label)?,
        Answer::Moved(label) => say_label(out, b"moved ", label)?,
        Answer::Emitted(label) => say_label(out, b"emitted ", label)?,
        Answer::Brought(label) => say_label(out, b"brought ", label)?,
        Answer::Shown(label) => say_label(out, b"shown ", label)?,
        Answer::Took(label) => say_label(out, b"took ", label)?,
        _ => return Ok(false),
    }
    Ok(true)
}

pub(crate) fn say_answer(out: &mut Vec<u8>, answer: &Answer) -> Result<(), Fail> {
    if say_known(out, answer)? {
        return Ok(());
    }
    match answer {
        Answer::ReadSome { value, .. } => say(out, value.bytes()),
        Answer::Gathered { .. } => say(out, b"gathered"),
        Answer::Closed { .. } => say(out, b"closed"),
        Answer::Taken => say(out, b"taken"),
        Answer::Again => say(out, b"again"),
        Answer::Fallen => say(out, b"fallen"),
        Answer::View(_) => say(out, b"view"),
        Answer::Attached => say(out, b"attached"),
        Answer::Refused(refusal) => say_refusal(out, refusal),
        _ => say(out, b"other"),
    }
}

fn say_whether(out: &mut Vec<u8>, went: bool) -> Result<(), Fail> {
    if went {
        say(out, b"went")
    } else {
        say(out, b"stays")
    }
}

// ---- the builder's own code: it carries labels, payloads and beats

fn site(store: &mut Store, number: u16) -> Result<&mut Replica, Fail> {
    let replica = store
        .sites
        .get_mut(usize::from(number))
        .ok_or("no such site")?;
    Ok(replica)
}

fn relay(store: &mut Store, number: u16) -> Result<&mut Relay, Fail> {
    let relay = store
        .relays
        .get_mut(usize::from(number))
        .ok_or("no such relay")?;
    Ok(relay)
}

// What comes out at the other end, of a value that is carried as its bytes.
pub(crate) fn crossed<T: Wire>(alloc: Global, value: &T) -> Result<T, Fail> {
    if !value.is_allowed() {
        return Err(Fail::from("not allowed"));
    }
    let mut bytes = Vec::new(alloc);
    encode(value, &mut bytes)?;
    match decode::<T>(alloc, bytes.as_slice()) {
        Ok(value) => Ok(value),
        Err(_) => Err(Fail::from("not read")),
    }
}

// A label goes up from a site. Where the relay does not have it, it stays on its link.
fn up(alloc: Global, store: &mut Store, from: u16, epoch: u16, to: u16) -> Result<bool, Fail> {
    let offer = site(store, from)?.offer(epoch).ok_or("an empty link")?;
    let label = crossed(alloc, &offer.label())?;
    match relay(store, to)?.accept(NodeId::Site(from), label) {
        Ok(_) => Ok(site(store, from)?.taken(offer)),
        Err(_) => Ok(false),
    }
}

// A label goes from one relay of the first tree to the other.
fn pass(alloc: Global, store: &mut Store, from: u16, to: u16) -> Result<bool, Fail> {
    let offer = relay(store, from)?
        .offer(NodeId::Serializer(to))
        .ok_or("an empty link")?;
    let label = crossed(alloc, &offer.label())?;
    match relay(store, to)?.accept(NodeId::Serializer(from), label) {
        Ok(_) => Ok(relay(store, from)?.taken(offer)),
        Err(_) => Ok(false),
    }
}

// A label goes down to a site.
fn down(alloc: Global, store: &mut Store, from: u16, epoch: u16, to: u16) -> Result<bool, Fail> {
    let offer = relay(store, from)?
        .offer(NodeId::Site(to))
        .ok_or("an empty link")?;
    let label = crossed(alloc, &offer.label())?;
    match site(store, to)?.arrive(epoch, label) {
        Ok(()) => Ok(relay(store, from)?.taken(offer)),
        Err(_) => Ok(false),
    }
}

// A site asks another one for the next payload that it lacks.
fn bring(alloc: Global, store: &mut Store, from: u16, to: u16) -> Result<Answer, Fail> {
    let number = site(store, to)?.wanted(from, 0).ok_or("no such lane")?;
    let made = site(store, from)?
        .payload(0, to, number)
        .ok_or("no payload")?;
    let payload = crossed(alloc, made)?;
    hand(
        store,
        to,
        Duty::Bulk {
            from,
            gear: 0,
            number,
            payload,
        },
    )
}

// A site tells another one how far it is.
fn tell(alloc: Global, store: &mut Store, from: u16, to: u16) -> Result<Answer, Fail> {
    let made = site(store, from)?
        .hand(Duty::Beat { to })
        .map_err(|_| "no beat")?;
    let Answer::Beat(number) = made.answer else {
        return Ok(made.answer);
    };
    let beat = crossed(alloc, &made.beat.ok_or("no beat")?)?;
    hand(store, to, Duty::BeatIn { from, number, beat })
}

fn hand(store: &mut Store, at: u16, duty: Duty) -> Result<Answer, Fail> {
    let out = site(store, at)?.hand(duty).map_err(|_| "not taken")?;
    Ok(out.answer)
}

fn send(store: &mut Store, at: u16, sending: Sending) -> Result<Answer, Fail> {
    let answer = site(store, at)?.send(sending)?;
    Ok(answer)
}

fn show(store: &mut Store, at: u16) -> Result<Answer, Fail> {
    let answer = site(store, at)?.show().map_err(|_| "not shown")?;
    Ok(answer)
}

// ---- the client's calls

fn write(
    alloc: Global,
    store: &mut Store,
    at: u16,
    item: u16,
    text: &[u8],
) -> Result<Answer, Fail> {
    let value = Value::of(alloc, text)?.ok_or("no value")?;
    let replica = store.sites.get_mut(usize::from(at)).ok_or("no such site")?;
    let answer = replica
        .write(&mut store.client, item, value)
        .map_err(|_| "not written")?;
    Ok(answer)
}

fn read(store: &mut Store, at: u16, item: u16) -> Result<Answer, Fail> {
    let replica = store.sites.get_mut(usize::from(at)).ok_or("no such site")?;
    let answer = replica
        .read(&mut store.client, item)
        .map_err(|_| "not read")?;
    Ok(answer)
}

fn migrate(store: &mut Store, at: u16, to: u16) -> Result<Answer, Fail> {
    let replica = store.sites.get_mut(usize::from(at)).ok_or("no such site")?;
    let answer = replica
        .migrate(&mut store.client, to)
        .map_err(|_| "not moved")?;
    Ok(answer)
}

fn attach(store: &mut Store, at: u16) -> Result<Answer, Fail> {
    let replica = store.sites.get_mut(usize::from(at)).ok_or("no such site")?;
    let answer = replica.attach(&mut store.client).map_err(|_| "not asked")?;
    Ok(answer)
}

// ---- lines

// The words of a line: what is done, up to three numbers, and a text.
#[derive(Clone, Copy, Debug, Drop)]
pub(crate) struct Line<'a> {
    pub(crate) verb: &'a str,
    pub(crate) a: u16,
    pub(crate) b: u16,
    pub(crate) c: u16,
    pub(crate) text: &'a str,
}

// A number of one digit, 9 where it is none.
fn digit(word: &str) -> u16 {
    match word.as_bytes() {
        [byte] => u16::from(byte.saturating_sub(b'0')),
        _ => 9,
    }
}

pub(crate) fn line_of(text: &str) -> Line<'_> {
    let mut words = text.split(' ');
    let verb = words.next().unwrap_or("");
    let first = words.next().unwrap_or("");
    let second = words.next().unwrap_or("");
    let third = words.next().unwrap_or("");
    Line {
        verb,
        a: digit(first),
        b: digit(second),
        c: digit(third),
        text: third,
    }
}

fn is_carried(verb: &str) -> bool {
    matches!(verb, "up" | "pass" | "down")
}

fn carry(alloc: Global, store: &mut Store, line: &Line<'_>) -> Result<bool, Fail> {
    match line.verb {
        "up" => up(alloc, store, line.a, line.b, line.c),
        "pass" => pass(alloc, store, line.a, line.b),
        _ => down(alloc, store, line.a, line.b, line.c),
    }
}

fn is_called(verb: &str) -> bool {
    matches!(verb, "write" | "read" | "move" | "attach")
}

fn call(alloc: Global, store: &mut Store, line: &Line<'_>) -> Result<Answer, Fail> {
    match line.verb {
        "write" => write(alloc, store, line.a, line.b, line.text.as_bytes()),
        "read" => read(store, line.a, line.b),
        "move" => migrate(store, line.a, line.b),
        _ => attach(store, line.a),
    }
}

fn act(alloc: Global, store: &mut Store, line: &Line<'_>) -> Result<Answer, Fail> {
    match line.verb {
        "gather" => hand(store, line.a, Duty::Gather),
        "emit" => send(store, line.a, Sending::Emit),
        "close" => send(store, line.a, Sending::Close),
        "bring" => bring(alloc, store, line.a, line.b),
        "tell" => tell(alloc, store, line.a, line.b),
        "turn" => show(store, line.a),
        "stamp" => hand(store, line.a, Duty::Stamp),
        "fall" => hand(store, line.a, Duty::Fall),
        "advance" => hand(store, line.a, Duty::Advance),
        _ => Err("no such line".into()),
    }
}

// Does a line, and appends what came of it.
fn go(alloc: Global, store: &mut Store, text: &str, out: &mut Vec<u8>) -> Result<(), Fail> {
    let line = line_of(text);
    if line.verb == "kill" {
        relay(store, line.a)?.kill();
        return say(out, b"dead");
    }
    if is_carried(line.verb) {
        let went = carry(alloc, store, &line)?;
        return say_whether(out, went);
    }
    let answer = if is_called(line.verb) {
        call(alloc, store, &line)?
    } else {
        act(alloc, store, &line)?
    };
    say_answer(out, &answer)
}

// ---- the stories

// A client writes a photo at site 0 and leaves for site 1, which lets it in only once the photo is there. There it
// writes into the album, which comes after all that it saw, and goes to site 2, two relays away.
const A_CLIENT_MOVES: &str = "write 0 0 beach -> wrote 1.0.0
move 0 1 -> moved 2.0.0
attach 1 -> refused NotYet
gather 0 -> gathered
emit 0 -> emitted 1.0.0
emit 0 -> emitted 2.0.0
up 0 1 0 -> went
up 0 1 0 -> went
down 0 1 1 -> went
down 0 1 1 -> went
turn 1 -> refused NoPayload 1.0.0
attach 1 -> refused NotYet
bring 0 1 -> brought 1.0.0
turn 1 -> shown 1.0.0
turn 1 -> took 2.0.0
attach 1 -> attached
read 1 0 -> beach
write 1 1 beach.jpg -> wrote 3.1.0
gather 1 -> gathered
emit 1 -> emitted 3.1.0
up 1 1 0 -> went
pass 0 1 -> went
down 1 1 2 -> went
bring 1 2 -> brought 3.1.0
turn 2 -> shown 3.1.0";

// Site 0 closes the first epoch between two photos, and the second one goes by the second tree, which is quicker: its
// label waits at site 1, on a link of its own, until all of the first tree was taken.
const A_TREE_IS_SWITCHED: &str = "write 0 0 beach -> wrote 1.0.0
gather 0 -> gathered
emit 0 -> emitted 1.0.0
close 0 -> closed
write 0 0 dunes -> wrote 2.0.0
gather 0 -> gathered
emit 0 -> emitted 2.0.0
close 1 -> closed
close 2 -> closed
up 0 2 2 -> went
down 2 2 1 -> went
turn 1 -> refused Empty
up 0 1 0 -> went
up 0 1 0 -> went
up 2 1 1 -> went
pass 1 0 -> went
down 0 1 1 -> went
down 0 1 1 -> went
down 0 1 1 -> went
bring 0 1 -> brought 1.0.0
advance 1 -> refused NotYet
turn 1 -> shown 1.0.0
turn 1 -> took 1.0.65535
turn 1 -> took 0.2.65535
turn 1 -> refused Empty
advance 1 -> view
turn 1 -> refused NoPayload 2.0.0
bring 0 1 -> brought 2.0.0
turn 1 -> shown 2.0.0";

// The root dies before it has the photo's label, which stays on the link from site 0 for good. All close the epoch;
// site 1 falls, hears from the others how far they are, and goes on by timestamps to the end of the epoch. The second
// one has a tree that lives.
const A_RELAY_DIES: &str = "write 0 0 beach -> wrote 1.0.0
gather 0 -> gathered
emit 0 -> emitted 1.0.0
kill 0 -> dead
up 0 1 0 -> stays
up 0 1 0 -> stays
close 0 -> closed
close 1 -> closed
close 2 -> closed
fall 1 -> fallen
bring 0 1 -> brought 1.0.0
tell 0 1 -> taken
stamp 1 -> refused NotYet
tell 2 1 -> taken
stamp 1 -> shown 1.0.0
advance 1 -> view
write 0 0 dunes -> wrote 2.0.0
gather 0 -> gathered
emit 0 -> emitted 2.0.0
up 0 2 2 -> went
down 2 2 1 -> went
bring 0 1 -> brought 2.0.0
turn 1 -> shown 2.0.0";

#[test]
fn each_story_goes_as_it_is_told(rt: HostRuntime) -> Result<(), Fail> {
    let alloc = rt.alloc();
    for story in [A_CLIENT_MOVES, A_TREE_IS_SWITCHED, A_RELAY_DIES] {
        let mut store = fresh_store(alloc)?;
        for line in story.lines() {
            let (done, wanted) = line.split_once(" -> ").ok_or("no arrow")?;
            let mut said = Vec::new(alloc);
            go(alloc, &mut store, done, &mut said)?;
            assert_eq!(rt; said.as_slice(), wanted.as_bytes(), "{done}");
        }
    }
    Ok(())
}
