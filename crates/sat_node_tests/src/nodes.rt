//! Nodes on one thread and on two, with a machine that puts and takes what it is told.
ghost use Rattle.std.specs.Prelude.{◌≡◌, ◌<◌, [], ◌∷◌, IfOk, Some, None, slice_get, length};
ghost use Rattle.sat_label.specs.declared.node.NodeName.TheVariants.{Site};
ghost use Rattle.sat_node.specs.declared.joint.Part.{Part as PartOf};

use sat_beat::Beat;
use sat_bulk::Payload;
use sat_label::{Counts, Kind, Label, NodeName, Point, Points, Value};
use sat_link::{LinkIn, LinkOut, link};
use sat_node::{
    Body, CallFault, Envelope, Held, In, Locked, Machine, Made, Names, Node, Out, Part, agree_all,
    agree_two, agree_within, take_all, take_both,
};
use std::alloc::{AllocError, Global};
use std::marker::Brand;
use std::sync::{Mutex, MutexGuard, Wait};
use std::test::*;
use std::thread;
use std::thread::Threads;

/// Counts its steps, which a u64 may not hold.
#[derive(Drop)]
struct Depot {
    count: u64,
}

/// What to put on the link, and what is taken from it.
#[derive(Drop)]
struct Errand {
    put: Option<Made>,
    take: Option<Body>,
}

fn copy_made(made: &Option<Made>) -> Result<Option<Made>, AllocError>
    ensures { IfOk result (λ copy. copy ≡ made.now) }
{
    match made {
        Some(Made::Label(label)) => Ok(Some(Made::Label(*label))),
        Some(Made::Payload { gear, payload }) => {
            let payload = payload.copy()?;
            Ok(Some(Made::Payload {
                gear: *gear,
                payload,
            }))
        }
        Some(Made::Beat(beat)) => Ok(Some(Made::Beat(beat.copy()?))),
        None => Ok(None),
    }
}

fn copy_body(body: &Option<Body>) -> Result<Option<Body>, AllocError>
    ensures { IfOk result (λ copy. copy ≡ body.now) }
{
    match body {
        Some(body) => Ok(Some(body.copy()?)),
        None => Ok(None),
    }
}

impl Errand {
    fn copy(&self) -> Result<Errand, AllocError>
        ensures { IfOk result (λ errand. errand ≡ self.now) }
    {
        let put = copy_made(&self.put)?;
        let take = copy_body(&self.take)?;
        Ok(Errand { put, take })
    }
}

impl Machine for Depot {
    type Input = Errand;

    type Answer = u64;

    ghost use Rattle.std.specs.Prelude.{◌≡◌, ◌+◌, ◌%◌, ◌^◌, ◌==◌, if◌then◌else◌, ℕ, true, false, None, [], ◌∷◌};
    ghost use Rattle.sat_label.specs.declared.node.NodeName.TheVariants.{Site, Serializer, Gear};

    ghost State = { ℕ };

    ghost meaning = { record {
      fresh = λ _. 0;
      fits = λ _ s i. Unit {0};
      answers = λ _ s i a. a ≡ s % 2 ^ 64;
      after = λ _ s i a. s + 1;
      puts = λ _ k i a. if k == 0 then i.put else None;
      takes = λ _ k i a. if k == 0 then i.take else None;
      stands = λ i a. true;
      outs = λ name. elim name [ Site i ↦ if i == 0 then 0 ∷ [] else [] | Serializer e z ↦ [] | Gear i g ↦ [] ];
      ins = λ name. elim name [ Site i ↦ if i == 0 then [] else 0 ∷ [] | Serializer e z ↦ [] | Gear i g ↦ [] ];
    } };

    ghost stands_for = { λ _ x s. x.count ≡ s % 2 ^ 64 };

    ghost takes_in = { λ x i. true };

    ghost may_fail = { λ x i. false };

    fn fits(&self, _input: &Errand) -> bool {
        true
    }

    fn step(&mut self, _input: Errand) -> Result<(u64, u64), AllocError> {
        let old = self.count;
        self.count = old.wrapping_add(1);
        Ok((old, old))
    }

    fn put(
        _alloc: Global,
        _name: NodeName,
        link: usize,
        input: &Errand,
        _given: &u64,
    ) -> Result<Option<Made>, AllocError> {
        if link != 0 {
            return Ok(None);
        }
        copy_made(&input.put)
    }
}

fn new_node(alloc: Global, site: u16) -> Node<Depot>
    ensures { (result.name ≡ Site site) × (result.entries ≡ []) }
{
    Node::new(alloc, NodeName::Site(site), Depot { count: 0 })
}

// The node that sends, with one link.
fn sender<N: Names>(alloc: Global, link: LinkIn<Envelope>) -> Result<Held<Depot, N>, AllocError>
    requires { (link.sent ≡ []) × (slice_get N.wires 0 ≡ Some link.wire) }
{
    let mut outs = Vec::new(alloc);
    outs.push(Out::new(alloc, 0, link))?;
    Ok(Held::new(new_node(alloc, 0), outs, Vec::new(alloc)))
}

// The node that receives, with one link.
fn receiver<N: Names>(alloc: Global, link: LinkOut<Envelope>) -> Result<Held<Depot, N>, AllocError>
    requires { (link.received ≡ []) × (slice_get N.wires 0 ≡ Some link.wire) }
{
    let mut ins = Vec::new(alloc);
    ins.push(In::new(0, link))?;
    Ok(Held::new(new_node(alloc, 1), Vec::new(alloc), ins))
}

// Keeps an entry that puts this.
fn put<N: Names>(
    held: &mut Held<Depot, N>,
    heard: u64,
    made: Option<Made>,
) -> Result<u64, CallFault> {
    let input = Errand {
        put: made,
        take: None,
    };
    let copy = input.copy()?;
    held.act(heard, input, copy)?;
    Ok(held.node().lamport())
}

// Keeps an entry that takes the front, if there is one. A label's time, 100 and a payload's number, or 200 and a
// beat's; 0 where nothing came.
fn take<N: Names>(rt: &impl Wait, held: &mut Held<Depot, N>) -> Result<u64, CallFault> {
    if held.ins().len() == 0 {
        return Ok(0);
    }
    held.pull(rt, 0);
    let Some(front) = held.front(0) else {
        return Ok(0);
    };
    let body = front.body.copy()?;
    let word = match &front.body {
        Body::Label(label) => label.point.ts,
        Body::Payload {
            gear: _,
            number,
            payload: _,
        } => 100 + *number % 100,
        Body::Beat { number, beat: _ } => 200 + *number % 100,
    };
    let input = Errand {
        put: None,
        take: Some(body),
    };
    let copy = input.copy()?;
    held.handle(0, input, copy)?;
    Ok(word)
}

// Sends what there is room for. How many entries the end went through.
fn send<N: Names>(rt: &impl Wait, held: &mut Held<Depot, N>) -> Result<usize, AllocError> {
    if held.outs().len() == 0 {
        return Ok(0);
    }
    held.flush(rt, 0)?;
    match held.outs().get(0) {
        Some(end) => Ok(end.next()),
        None => Ok(0),
    }
}

// What a call answers: the number, or 1 and the number that is worn, or 2 for want of memory.
fn told(answer: Result<u64, CallFault>) -> (u64, u64) {
    match answer {
        Ok(number) => (0, number),
        Err(CallFault::Worn(number)) => (1, number),
        Err(CallFault::Memory) => (2, 0),
    }
}

fn take_quiet(node: &mut Node<Depot>, heard: u64) -> Result<u64, CallFault> {
    let input = Errand {
        put: None,
        take: None,
    };
    let copy = input.copy()?;
    node.take(heard, input, copy)?;
    Ok(node.lamport())
}

#[test]
fn numbers(rt: HostRuntime) -> Result<(), Fail> {
    let worn = 18446744073709551615;
    let mut node = new_node(rt.alloc(), 3);
    assert_eq!(rt; told(node.reserve(5)), (0, 6));
    assert_eq!(rt; told(take_quiet(&mut node, worn - 1)), (0, worn));
    assert_eq!(rt; told(take_quiet(&mut node, 7)), (1, worn));
    assert_eq!(rt; told(node.reserve(0)), (1, worn));
    assert_eq!(rt; node.machine().count, 1);
    assert_eq!(rt; node.name() == NodeName::Site(3), true);
    let numbers: [u64; 1] = [worn];
    for (kept, number) in node.journal().iter().zip(numbers) {
        assert_eq!(rt; kept.lamport, number);
    }
    assert_eq!(rt; node.journal().len(), 1);
    Ok(())
}

// The label of a pulse at this time.
fn pulse(ts: u64) -> Label {
    Label {
        point: Point {
            ts,
            site: 1,
            gear: 0,
        },
        kind: Kind::Pulse,
    }
}

fn send_labels<N: Names>(rt: &impl Wait, shared: &Mutex<Held<Depot, N>>, count: u64) -> bool {
    for ts in 0..count {
        if put(&mut shared.lock(rt), 0, Some(Made::Label(pulse(ts + 1)))).is_err() {
            return false;
        }
    }
    for _ in rt.forever() {
        match send(rt, &mut shared.lock(rt)) {
            Ok(100) => break,
            Ok(_) => thread::yield_now(),
            Err(_) => return false,
        }
    }
    true
}

fn take_labels<N: Names>(rt: &impl Wait, shared: &Mutex<Held<Depot, N>>, count: u64) -> bool {
    let mut taken = 0;
    for _ in rt.forever() {
        if taken >= count {
            break;
        }
        match take(rt, &mut shared.lock(rt)) {
            Ok(0) => thread::yield_now(),
            Ok(ts) if ts == taken + 1 => taken += 1,
            _ => return false,
        }
    }
    true
}

// Two nodes with one link between them, each in a thread, are taken out of their locks and compared. The receiver's
// number.
fn two_nodes<N: Names + Send + Sync, R: Threads + Wait + Sync>(
    rt: &R,
    alloc: Global,
    input: LinkIn<Envelope>,
    output: LinkOut<Envelope>,
) -> Result<Option<u64>, AllocError>
    requires wires { (input.wire ≡ output.wire) × (N.wires ≡ input.wire ∷ []) }
    requires fresh { (input.sent ≡ []) × (output.received ≡ []) }
{
    let first = Mutex::new(sender::<N>(alloc, input)?);
    let second = Mutex::new(receiver::<N>(alloc, output)?);
    let from = &first;
    let to = &second;
    let (sent, taken) = thread::join(
        rt,
        move || send_labels(rt, from, 100),
        move || take_labels(rt, to, 100),
    );
    let mut first = first.into_inner();
    let mut second = second.into_inner();
    agree_two(&mut first, &mut second);
    Ok((sent && taken).then_some(second.node().lamport()))
}

#[test]
fn labels_through_two_threads(rt: HostRuntime) -> Result<(), Fail> {
    let (input, output) = link::<Envelope>(rt.alloc(), 3)?;
    let number = two_nodes::<Brand, _>(&rt, rt.alloc(), input, output)?;
    assert_eq!(rt; number, Some(101));
    Ok(())
}

// A payload of gear 0, and a beat.
fn payload(alloc: Global) -> Result<Made, AllocError> {
    let Some(value) = Value::of(alloc, b"v")? else {
        return Err(AllocError);
    };
    let label = pulse(1);
    let payload = Payload::new(alloc, label, &[value])?;
    Ok(Made::Payload { gear: 0, payload })
}

fn beat(alloc: Global) -> Made {
    Made::Beat(Beat {
        cut: Point::mark(7, 0),
        closes: Points::new(alloc),
        counts: Counts::new(alloc),
    })
}

fn note<T: Drop>(found: &mut Vec<T>, member: T) -> Result<(), AllocError> {
    found.push(member)?;
    Ok(())
}

// What waits behind a link of one place comes, one after the other: what the sender has sent, what came, and the
// receiver's number.
fn one_by_one<N: Names>(
    rt: &impl Wait,
    alloc: Global,
    first: &mut Held<Depot, N>,
    second: &mut Held<Depot, N>,
) -> Result<Vec<u64>, CallFault> {
    let mut found = Vec::new(alloc);
    for _ in 0..6usize {
        let sent = send(rt, first)?;
        note(&mut found, sent as u64)?;
        let word = take(rt, second)?;
        note(&mut found, word)?;
        note(&mut found, second.node().lamport())?;
    }
    Ok(found)
}

fn all_kinds<N: Names>(
    rt: &impl Wait,
    alloc: Global,
    input: LinkIn<Envelope>,
    output: LinkOut<Envelope>,
) -> Result<Vec<u64>, CallFault>
    requires wires { (input.wire ≡ output.wire) × (N.wires ≡ input.wire ∷ []) }
    requires fresh { (input.sent ≡ []) × (output.received ≡ []) }
{
    let mut first = sender::<N>(alloc, input)?;
    let mut second = receiver::<N>(alloc, output)?;
    put(&mut first, 4, Some(Made::Label(pulse(9))))?;
    put(&mut first, 0, Some(payload(alloc)?))?;
    put(&mut first, 0, None)?;
    put(&mut first, 0, Some(beat(alloc)))?;
    put(&mut first, 0, Some(payload(alloc)?))?;
    let found = one_by_one(rt, alloc, &mut first, &mut second)?;
    opened(alloc, first, second)?;
    Ok(found)
}

// Opened nodes agree, in every way in which they are paired.
fn opened<N: Names>(
    alloc: Global,
    first: Held<Depot, N>,
    second: Held<Depot, N>,
) -> Result<(), AllocError> {
    let mut senders = Vec::new(alloc);
    senders.push(first)?;
    let mut receivers = Vec::new(alloc);
    receivers.push(second)?;
    agree_all(&mut senders, &mut receivers);
    agree_within(&mut senders);
    Ok(())
}

#[test]
fn an_outbox_that_waits(rt: HostRuntime) -> Result<(), Fail> {
    let (input, output) = link::<Envelope>(rt.alloc(), 1)?;
    let Ok(found) = all_kinds::<Brand>(&rt, rt.alloc(), input, output) else {
        return Err(Fail::from("no memory"));
    };
    let rows = [
        1, 9, 6, 3, 100, 7, 4, 200, 9, 5, 101, 10, 5, 0, 10, 5, 0, 10,
    ];
    assert_eq!(rt; found.as_slice(), rows.as_slice());
    Ok(())
}

// The greatest number is worn at either node, and what can't be taken stays in front. A payload may be passed over, a
// label not.
fn worn_at_last<N: Names>(
    rt: &impl Wait,
    alloc: Global,
    input: LinkIn<Envelope>,
    output: LinkOut<Envelope>,
) -> Result<Vec<(u64, u64)>, CallFault>
    requires wires { (input.wire ≡ output.wire) × (N.wires ≡ input.wire ∷ []) }
    requires fresh { (input.sent ≡ []) × (output.received ≡ []) }
{
    let mut found = Vec::new(alloc);
    let mut first = sender::<N>(alloc, input)?;
    let mut second = receiver::<N>(alloc, output)?;
    put(&mut first, 0, Some(payload(alloc)?))?;
    note(
        &mut found,
        told(put(
            &mut first,
            18446744073709551614,
            Some(Made::Label(pulse(9))),
        )),
    )?;
    note(&mut found, told(put(&mut first, 0, None)))?;
    send(rt, &mut first)?;
    note(&mut found, (passed(rt, &mut second), 0))?;
    note(&mut found, (passed(rt, &mut second), 0))?;
    note(&mut found, told(take(rt, &mut second)))?;
    note(&mut found, told(take(rt, &mut second)))?;
    note(
        &mut found,
        (
            second.node().lamport(),
            second.node().journal().len() as u64,
        ),
    )?;
    Ok(found)
}

// 1 where the next was passed over.
fn passed<N: Names>(rt: &impl Wait, held: &mut Held<Depot, N>) -> u64 {
    if held.ins().len() == 0 {
        return 0;
    }
    held.pull(rt, 0);
    u64::from(held.pass_over(0))
}

#[test]
fn worn(rt: HostRuntime) -> Result<(), Fail> {
    let (input, output) = link::<Envelope>(rt.alloc(), 3)?;
    let Ok(found) = worn_at_last::<Brand>(&rt, rt.alloc(), input, output) else {
        return Err(Fail::from("no memory"));
    };
    let last = 18446744073709551615;
    let rows = [
        (0, last),
        (1, last),
        (1, 0),
        (0, 0),
        (1, last),
        (1, last),
        (0, 0),
    ];
    assert_eq!(rt; found.as_slice(), rows.as_slice());
    Ok(())
}

// Neither puts nor takes.
fn idle() -> Part<Errand>
    ensures { (result.copy ≡ result.input) × (result.input.take ≡ None) }
{
    Part {
        input: Errand {
            put: None,
            take: None,
        },
        copy: Errand {
            put: None,
            take: None,
        },
    }
}

// A node's lock, taken.
fn locked<'a, N: Names>(
    rt: &impl Wait,
    alloc: Global,
    node: &'a Locked<Depot, N>,
) -> Result<Vec<MutexGuard<'a, Held<Depot, N>>>, AllocError>
    ensures { IfOk result (λ guards. length guards.items ≡ 1) }
{
    let mut guards = Vec::new(alloc);
    guards.push(node.lock(rt))?;
    Ok(guards)
}

// One part, which is idle.
fn idle_parts(alloc: Global) -> Result<Vec<Part<Errand>>, AllocError>
    ensures { IfOk result (λ parts. (p : PartOf Errand) × (parts.items ≡ p ∷ []) × (p.copy ≡ p.input)
        × (p.input.take ≡ None)) }
{
    let mut parts = Vec::new(alloc);
    parts.push(idle())?;
    Ok(parts)
}

// An act of a home and of one node under its lock.
fn listed<N: Names>(
    rt: &impl Wait,
    alloc: Global,
    home: &mut Held<Depot, N>,
    other: &Locked<Depot, N>,
    heard: u64,
) -> Result<u64, CallFault> {
    let parts = idle_parts(alloc)?;
    let mut others = locked(rt, alloc, other)?;
    take_all(home, &mut others, heard, None, idle(), parts)
}

// Acts of two nodes, and their numbers after each: the second had number 7, then they heard 3 and then 20.
fn together<N: Names>(
    rt: &impl Wait,
    alloc: Global,
    input: LinkIn<Envelope>,
    output: LinkOut<Envelope>,
) -> Result<Vec<u64>, CallFault>
    requires wires { (input.wire ≡ output.wire) × (N.wires ≡ input.wire ∷ []) }
    requires fresh { (input.sent ≡ []) × (output.received ≡ []) }
{
    let mut found = Vec::new(alloc);
    let mut home = sender::<N>(alloc, input)?;
    let mut other = receiver::<N>(alloc, output)?;
    put(&mut other, 6, None)?;
    let answer = take_both(&mut home, &mut other, 3, None, idle(), idle())?;
    note(&mut found, answer)?;
    note(&mut found, home.node().lamport())?;
    note(&mut found, other.node().lamport())?;
    let other = Mutex::new(other);
    let answer = listed(rt, alloc, &mut home, &other, 20)?;
    note(&mut found, answer)?;
    note(&mut found, home.node().lamport())?;
    note(&mut found, other.into_inner().node().lamport())?;
    Ok(found)
}

#[test]
fn one_number_at_all_nodes(rt: HostRuntime) -> Result<(), Fail> {
    let (input, output) = link::<Envelope>(rt.alloc(), 3)?;
    let Ok(found) = together::<Brand>(&rt, rt.alloc(), input, output) else {
        return Err(Fail::from("no memory"));
    };
    let rows = [0, 8, 8, 1, 21, 21];
    assert_eq!(rt; found.as_slice(), rows.as_slice());
    Ok(())
}
