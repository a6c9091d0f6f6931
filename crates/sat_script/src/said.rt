//! What the words of an act's line say, and the act that they make.
ghost use Rattle.std.specs.Prelude.{◌≡◌, ◌≤◌, ◌+◌, ◌*◌, ◌++◌, ◌∷◌, Ok, IfOk, IsTrue, length, map};
ghost use Rattle.std.specs.List.{list_all};
ghost use Rattle.sat_label.specs.Grouped.{list_of};
ghost use Rattle.sat_label.specs.Text.{is_value};
ghost use Rattle.sat_script.specs.Causes.{given};
ghost use Rattle.sat_script.specs.Lines.{Gives};
ghost use Rattle.sat_script.specs.Said.{said_of};
ghost use Rattle.sat_script.specs.declared.fault.Cause.TheVariants.{OutOfRange};
ghost use Rattle.sat_script.specs.declared.form.Form.TheVariants as form;
ghost use Rattle.sat_script.specs.Table.{place, place_at, num_at, bytes_at, node_at, act_of, form_of, args_of};
ghost use Rattle.sat_script.specs.Table.{group_form, group_of, pairs};

use crate::Cause;
use crate::form::Form;
use arrayvec::ArrayVec;
use sat_act::Act;
use sat_label::{Items, NodeId, Value, Values};
use std::alloc::{AllocError, Global};

/// What a word says.
#[derive(Clone, Copy, Drop)]
pub enum Said<'a> {
    /// A place in a list: of a site, a client, an epoch and so on.
    Place(u16),
    Number(u64),
    Bytes(&'a [u8]),
    Node(NodeId),
}

impl Default for Said<'_> {
    fn default() -> Self {
        Said::Place(0)
    }
}

/// What the words after the first say.
pub type Args<'a> = ArrayVec<Said<'a>, 9>;

#[inline(always)]
fn place_at(said: &[Said], k: usize) -> u16
    ensures { result ≡ place_at (map said_of said.now) k }
{
    match said.get(k) {
        Some(Said::Place(place)) => *place,
        _ => 0,
    }
}

#[inline(always)]
fn num_at(said: &[Said], k: usize) -> u64
    ensures { result ≡ num_at (map said_of said.now) k }
{
    match said.get(k) {
        Some(Said::Number(number)) => *number,
        _ => 0,
    }
}

#[inline(always)]
fn bytes_at<'a>(said: &[Said<'a>], k: usize) -> &'a [u8]
    ensures { result.now ≡ bytes_at (map said_of said.now) k }
{
    match said.get(k) {
        Some(Said::Bytes(bytes)) => *bytes,
        _ => b"".as_slice(),
    }
}

#[inline(always)]
fn node_at(said: &[Said], k: usize) -> NodeId
    ensures { result ≡ node_at (map said_of said.now) k }
{
    match said.get(k) {
        Some(Said::Node(node)) => *node,
        _ => NodeId::Site(0),
    }
}

// The act of a write, whose value takes memory.
fn write_of(alloc: Global, said: &[Said]) -> Result<Act, Cause>
    ensures { Gives result (given OutOfRange (act_of form.Write (map said_of said.now)) Ok) }
{
    match Value::of(alloc, bytes_at(said, 2)) {
        Ok(Some(value)) => Ok(Act::Write {
            client: place_at(said, 0),
            item: place_at(said, 1),
            value,
        }),
        Ok(None) => Err(Cause::OutOfRange),
        Err(_) => Err(Cause::Memory),
    }
}

// Adds the values that words are, as long as they are values. Whether each is one.
#[tactic(auto, using(std::proofs::lemmas::List::append_assoc))]
fn add_values(alloc: Global, values: &mut Vec<Value>, texts: &[&[u8]]) -> Result<bool, AllocError>
    ensures test { IfOk result (λ each. each ≡ list_all is_value (map (λ text. text.now) texts.now)) }
    ensures values { IfOk result (λ each. IsTrue each → values.new.items ≡ values.old.items
        ++ map (λ text. text.now) texts.now) }
{
    let Some((text, texts)) = texts.split_first() else {
        return Ok(true);
    };
    let Some(value) = Value::of(alloc, text)? else {
        return Ok(false);
    };
    values.push(value)?;
    add_values(alloc, values, texts)
}

// The act that writes some items under one label. Its values take memory.
fn group_of(alloc: Global, client: u16, items: Items, texts: &[&[u8]]) -> Result<Act, Cause>
    ensures { Gives result (given OutOfRange (group_of client items (map (λ text. text.now) texts.now)) Ok) }
{
    let mut values = Vec::new(alloc);
    match add_values(alloc, &mut values, texts) {
        Ok(true) => Ok(Act::Writes {
            client,
            items,
            values: Values::many(values),
        }),
        Ok(false) => Err(Cause::OutOfRange),
        Err(_) => Err(Cause::Memory),
    }
}

// The same of words that say the client and two items with their values. Kept out of its caller, as lines of groups are
// rare.
#[inline(never)]
fn writes_two(alloc: Global, said: &[Said]) -> Result<Act, Cause>
    ensures { Gives result (given OutOfRange (act_of form.WritesTwo (map said_of said.now)) Ok) }
{
    let items = Items::Two(place_at(said, 1), place_at(said, 3));
    let texts = [bytes_at(said, 2), bytes_at(said, 4)];
    group_of(alloc, place_at(said, 0), items, &texts)
}

// Three items.
#[inline(never)]
fn writes_three(alloc: Global, said: &[Said]) -> Result<Act, Cause>
    ensures { Gives result (given OutOfRange (act_of form.WritesThree (map said_of said.now)) Ok) }
{
    let items = Items::Three(place_at(said, 1), place_at(said, 3), place_at(said, 5));
    let texts = [bytes_at(said, 2), bytes_at(said, 4), bytes_at(said, 6)];
    group_of(alloc, place_at(said, 0), items, &texts)
}

// Four items.
#[inline(never)]
fn writes_four(alloc: Global, said: &[Said]) -> Result<Act, Cause>
    ensures { Gives result (given OutOfRange (act_of form.WritesFour (map said_of said.now)) Ok) }
{
    let items = Items::Four(
        place_at(said, 1),
        place_at(said, 3),
        place_at(said, 5),
        place_at(said, 7),
    );
    let texts = [
        bytes_at(said, 2),
        bytes_at(said, 4),
        bytes_at(said, 6),
        bytes_at(said, 8),
    ];
    group_of(alloc, place_at(said, 0), items, &texts)
}

/// The act of a form that such words say.
#[inline(always)]
pub fn act_of(alloc: Global, form: Form, said: &[Said]) -> Result<Act, Cause>
    ensures { Gives result (given OutOfRange (act_of form (map said_of said.now)) Ok) }
{
    let first = place_at(said, 0);
    let act = match form {
        Form::Tick => Act::Tick {
            site: first,
            gear: place_at(said, 1),
            ts: num_at(said, 2),
        },
        Form::Clock => Act::Clock,
        Form::Write => return write_of(alloc, said),
        Form::WritesTwo => return writes_two(alloc, said),
        Form::WritesThree => return writes_three(alloc, said),
        Form::WritesFour => return writes_four(alloc, said),
        Form::Read => Act::Read {
            client: first,
            item: place_at(said, 1),
        },
        Form::Move => Act::Move {
            client: first,
            site: place_at(said, 1),
        },
        Form::Leave => Act::Leave { client: first },
        Form::Attach => Act::Attach {
            client: first,
            site: place_at(said, 1),
        },
        Form::Gather => Act::Gather { site: first },
        Form::Emit => Act::Emit { site: first },
        Form::Pulse => Act::Pulse { site: first },
        Form::Hop => Act::Hop {
            epoch: first,
            from: node_at(said, 1),
            to: place_at(said, 2),
        },
        Form::Turn => Act::Turn { site: first },
        Form::Bulk => Act::Bulk {
            from: first,
            gear: place_at(said, 1),
            to: place_at(said, 2),
            number: None,
        },
        Form::NumberedBulk => Act::Bulk {
            from: first,
            gear: place_at(said, 1),
            to: place_at(said, 2),
            number: Some(num_at(said, 3)),
        },
        Form::Beat => Act::Beat {
            from: first,
            to: place_at(said, 1),
        },
        Form::BeatIn => Act::BeatIn {
            from: first,
            to: place_at(said, 1),
            number: num_at(said, 2),
        },
        Form::Stamp => Act::Stamp { site: first },
        Form::Close => Act::Close { site: first },
        Form::Fall => Act::Fall { site: first },
        Form::Advance => Act::Advance { site: first },
        Form::Kill => Act::Kill {
            epoch: first,
            serializer: place_at(said, 1),
        },
        Form::Settle => Act::Settle,
        _ => return Err(Cause::OutOfRange),
    };
    Ok(act)
}

// What words say, as a list.
fn args<'a>(said: &[Said<'a>]) -> Args<'a>
    requires { length said.now ≤ 9 }
    ensures { result.items ≡ said.now }
{
    let mut args = ArrayVec::new();
    match args.try_extend_from_slice(said) {
        Ok(()) => args,
        Err(_) => unreachable!(),
    }
}

// Adds what the words of items and values say, by turns, as far as there are both.
fn add_pairs<'a>(args: &mut Args<'a>, items: &[u16], values: &'a [Value])
    requires { length args.old.items + 2 * length items.now ≤ 9 }
    ensures { map said_of args.new.items ≡ map said_of args.old.items ++ pairs items.now values.now }
{
    let Some((item, items)) = items.split_first() else {
        return;
    };
    let Some((value, values)) = values.split_first() else {
        return;
    };
    args.push(Said::Place(*item));
    args.push(Said::Bytes(value.bytes()));
    add_pairs(args, items, values);
}

// What the words of an act say that writes some items under one label.
fn group_args<'a>(client: u16, items: &[u16], values: &'a [Value]) -> Args<'a>
    requires { length items.now ≤ 4 }
    ensures { map said_of result.items ≡ place client ∷ pairs items.now values.now }
{
    let mut args = args(&[Said::Place(client)]);
    add_pairs(&mut args, items, values);
    args
}

// The form of such an act, and what its words say.
#[inline(never)]
fn group_parts<'a>(client: u16, items: &Items, values: &'a [Value]) -> (Form, Args<'a>)
    ensures form { result.0 ≡ group_form items.now }
    ensures args { map said_of result.1.items ≡ place client ∷ pairs (list_of items.now) values.now }
{
    match *items {
        Items::One(a) => (Form::WritesTwo, group_args(client, &[a], values)),
        Items::Two(a, b) => (Form::WritesTwo, group_args(client, &[a, b], values)),
        Items::Three(a, b, c) => (Form::WritesThree, group_args(client, &[a, b, c], values)),
        Items::Four(a, b, c, d) => (Form::WritesFour, group_args(client, &[a, b, c, d], values)),
    }
}

/// The form of an act, and what the words after its first say.
pub fn parts_of(act: &Act) -> (Form, Args)
    ensures form { result.0 ≡ form_of act.now }
    ensures args { map said_of result.1.items ≡ args_of act.now }
{
    match act {
        Act::Tick { site, gear, ts } => (
            Form::Tick,
            args(&[Said::Place(*site), Said::Place(*gear), Said::Number(*ts)]),
        ),
        Act::Clock => (Form::Clock, args(&[])),
        Act::Write {
            client,
            item,
            value,
        } => (
            Form::Write,
            args(&[
                Said::Place(*client),
                Said::Place(*item),
                Said::Bytes(value.bytes()),
            ]),
        ),
        Act::Writes {
            client,
            items,
            values,
        } => group_parts(*client, items, values.as_slice()),
        Act::Read { client, item } => (
            Form::Read,
            args(&[Said::Place(*client), Said::Place(*item)]),
        ),
        Act::Move { client, site } => (
            Form::Move,
            args(&[Said::Place(*client), Said::Place(*site)]),
        ),
        Act::Leave { client } => (Form::Leave, args(&[Said::Place(*client)])),
        Act::Attach { client, site } => {
            (
                Form::Attach,
                args(&[Said::Place(*client), Said::Place(*site)]),
            )
        }
        Act::Gather { site } => (Form::Gather, args(&[Said::Place(*site)])),
        Act::Emit { site } => (Form::Emit, args(&[Said::Place(*site)])),
        Act::Pulse { site } => (Form::Pulse, args(&[Said::Place(*site)])),
        Act::Hop { epoch, from, to } => (
            Form::Hop,
            args(&[Said::Place(*epoch), Said::Node(*from), Said::Place(*to)]),
        ),
        Act::Turn { site } => (Form::Turn, args(&[Said::Place(*site)])),
        Act::Bulk {
            from,
            gear,
            to,
            number: None,
        } => (
            Form::Bulk,
            args(&[Said::Place(*from), Said::Place(*gear), Said::Place(*to)]),
        ),
        Act::Bulk {
            from,
            gear,
            to,
            number: Some(number),
        } => (
            Form::NumberedBulk,
            args(&[
                Said::Place(*from),
                Said::Place(*gear),
                Said::Place(*to),
                Said::Number(*number),
            ]),
        ),
        Act::Beat { from, to } => (Form::Beat, args(&[Said::Place(*from), Said::Place(*to)])),
        Act::BeatIn { from, to, number } => (
            Form::BeatIn,
            args(&[Said::Place(*from), Said::Place(*to), Said::Number(*number)]),
        ),
        Act::Stamp { site } => (Form::Stamp, args(&[Said::Place(*site)])),
        Act::Close { site } => (Form::Close, args(&[Said::Place(*site)])),
        Act::Fall { site } => (Form::Fall, args(&[Said::Place(*site)])),
        Act::Advance { site } => (Form::Advance, args(&[Said::Place(*site)])),
        Act::Kill { epoch, serializer } => {
            (
                Form::Kill,
                args(&[Said::Place(*epoch), Said::Place(*serializer)]),
            )
        }
        Act::Settle => (Form::Settle, args(&[])),
    }
}
