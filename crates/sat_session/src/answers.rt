//! Answers: what they make of a session's client, and copies of them.
ghost use Rattle.std.specs.Prelude.{◌≡◌, ◌<◌, ◌≤◌, ◌++◌, [], ◌∷◌, true, vec_len, vec_capacity, IfOk, OnOk};
ghost use Rattle.sat_act.specs.declared.answer.Answer.TheVariants as ans;
ghost use Rattle.sat_machines.specs.Plain.{is_plain};
ghost use Rattle.sat_session.specs.Calls.{note, told};
ghost use Rattle.sat_session.specs.Replies.{MayMove, HasSpare, own_answer, leave_answer};

use crate::Noted;
use sat_act::{Act, Answer, Entry, Refusal};
use sat_client::Client;
use sat_label::{NodeName, Point, TS_END, Version};
use sat_machines::copy_plain;
use std::alloc::AllocError;

// What a granted attach makes of a client.
fn join(client: &mut Client, act: &Act)
    ensures { client.new ≡ told act.now ans.Attached client.old }
{
    match act {
        Act::Attach { client: _, site } => client.joined(*site),
        _ => {}
    }
}

// Tells a client the answer to its act.
fn tell(client: &mut Client, act: &Act, answer: &Answer)
    requires { MayMove answer.now client.old }
    ensures { client.new ≡ told act.now answer.now client.old }
{
    match answer {
        Answer::Wrote(label) => client.observe(label.point),
        Answer::ReadSome { label, .. } => client.observe(label.point),
        Answer::Moved(label) => client.moved(*label),
        Answer::Left(_) => client.left(),
        Answer::Attached => join(client, act),
        _ => {}
    }
}

fn leave_answer(point: Point, seat: Option<u16>) -> Answer
    ensures { result ≡ leave_answer point seat }
{
    match seat {
        None => Answer::Refused(Refusal::NoSession),
        Some(_) => Answer::Left(point),
    }
}

/// What a session answers to an act that touches no node.
pub(crate) fn own_answer(client: &Client, act: &Act) -> Answer
    ensures { result ≡ own_answer client.now act.now }
{
    match act {
        Act::Leave { client: _ } => leave_answer(client.carried.point, client.seat),
        Act::Attach { client: _, site: _ } => Answer::Refused(Refusal::Joined),
        _ => Answer::Refused(Refusal::NoSession),
    }
}

/// What a read of a version answers, where its point is one of a deployment of so many sites; else want of memory.
pub fn read_of(version: &Version, sites: u16) -> Result<Answer, AllocError>
    ensures answer { IfOk result (λ r. r ≡ ans.ReadSome version.now.label version.now.value) }
    ensures time { OnOk result (version.now.label.point.ts ≤ TS_END) }
    ensures site { OnOk result (version.now.label.point.site < sites) }
{
    let label = version.label();
    if label.point.ts > TS_END {
        return Err(AllocError);
    }
    if label.point.site >= sites {
        return Err(AllocError);
    }
    let value = version.value().copy()?;
    Ok(Answer::ReadSome { label, value })
}

// Whether an answer holds no list.
fn is_plain(answer: &Answer) -> bool
    ensures { result ≡ is_plain answer.now }
{
    match answer {
        Answer::ReadSome { label: _, value: _ } => false,
        Answer::Hopped { label: _, to: _ } => false,
        _ => true,
    }
}

// The same answer again, which is the spare one where it holds a list. It takes no memory.
fn again(answer: &Answer, spare: Option<Answer>) -> Answer
    requires { HasSpare answer.now spare }
    ensures { result ≡ answer.now }
{
    if is_plain(answer) {
        return copy_plain(answer);
    }
    spare.unwrap()
}

/// Notes an act with its answer under a number, and tells the client of it. It takes no memory.
pub(crate) fn keep(
    noted: &mut Vec<Noted>,
    client: &mut Client,
    lamport: u64,
    at: Option<NodeName>,
    act: Act,
    answer: &Answer,
    spare: Option<Answer>,
)
    requires room { vec_len noted.old < vec_capacity noted.old }
    requires spare { HasSpare answer.now spare }
    requires moves { MayMove answer.now client.old }
    ensures noted { noted.new.items ≡ noted.old.items ++ note lamport at client.old.carried act answer.now ∷ [] }
    ensures client { client.new ≡ told act answer.now client.old }
{
    let carried = client.carried;
    let copy = again(answer, spare);
    tell(client, &act, answer);
    let entry = Entry {
        act,
        answer: copy,
        inner: false,
    };
    noted.push_reserved(Noted {
        lamport,
        at,
        carried,
        entry,
    });
}
