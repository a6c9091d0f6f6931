//! What is asked of sites, by themselves and by clients, and of a serializer by the operator.
ghost use Rattle.std.specs.Prelude.{◌≡◌};

use crate::begin::{AtNode, Left, Store, put_in, site_left, take_out};
use sat_act::{Answer, Deployment};
use sat_client::Client;
use sat_label::{Items, Value, Values};
use sat_machines::{Laid, SerialNode, SiteNode};
use sat_node::Machine;
use sat_process::{Asked, Became, Ended};
use sat_site::SiteInput;
use std::alloc::Global;
use std::test::Fail;

// Asks something of a process, which takes it.
fn asked<N: Laid>(
    alloc: Global,
    process: AtNode<SiteNode<N>>,
    by: Option<u16>,
    input: SiteInput,
) -> Result<Left<SiteNode<N>>, Fail> {
    match process.act(alloc, 0, Asked::Site { by, input }) {
        Ok((process, Became::Taken)) => Ok(Ok(process)),
        Ok(_) => Err(Fail::from("not taken")),
        Err(Ended::Disk(disk, _)) => Ok(Err(disk)),
        Err(Ended::Memory(_, _)) => Err(Fail::from("memory")),
    }
}

// What a process answered last; `Again` where its disk failed.
fn answered<N: Laid>(left: &Left<SiteNode<N>>) -> Result<Answer, Fail> {
    let Ok(process) = left else {
        return Ok(Answer::Again);
    };
    match process.node().journal().last() {
        Some(kept) => Ok(kept.answer.answer.copy()?),
        None => Err(Fail::from("no entry")),
    }
}

// Asks something of a site, which takes it: its answer.
fn ask<N: Laid>(
    alloc: Global,
    store: &mut Store<N>,
    d: &Deployment,
    site: usize,
    by: Option<u16>,
    input: SiteInput,
) -> Result<Answer, Fail>
    requires { N.deployment ≡ d.now }
{
    let process = take_out(&mut store.sites, site)?;
    let left = asked(alloc, process, by, input)?;
    let answer = answered(&left)?;
    let process = site_left(alloc, d, site, left, &mut store.tally)?;
    put_in(&mut store.sites, site, process)?;
    Ok(answer)
}

// ---- what a site does by itself

// Whether a site has a label to send.
fn can_emit<N: Laid>(store: &Store<N>, site: usize) -> bool {
    match store.sites.get(site) {
        Some(Some(process)) => process.node().machine().site().can(&SiteInput::Emit),
        _ => false,
    }
}

// A site gathers, and sends all that it can.
fn send<N: Laid>(
    alloc: Global,
    store: &mut Store<N>,
    d: &Deployment,
    site: usize,
) -> Result<(), Fail>
    requires { N.deployment ≡ d.now }
{
    ask(alloc, store, d, site, None, SiteInput::Gather)?;
    for _ in 0..8usize {
        if !can_emit(store, site) {
            return Ok(());
        }
        ask(alloc, store, d, site, None, SiteInput::Emit)?;
    }
    Ok(())
}

pub(crate) fn send_all<N: Laid>(
    alloc: Global,
    store: &mut Store<N>,
    d: &Deployment,
) -> Result<(), Fail>
    requires { N.deployment ≡ d.now }
{
    for site in 0..3usize {
        send(alloc, store, d, site)?;
    }
    Ok(())
}

// ---- what a client does at its site

// A client of this number writes at the site of this number.
pub(crate) fn write<N: Laid>(
    alloc: Global,
    store: &mut Store<N>,
    d: &Deployment,
    client: &mut Client,
    number: u16,
    item: u16,
    text: &[u8],
) -> Result<(), Fail>
    requires { N.deployment ≡ d.now }
{
    let value = Value::of(alloc, text)?.ok_or("no value")?;
    let input = SiteInput::Write {
        carried: client.carried,
        items: Items::One(item),
        values: Values::one(alloc, value)?,
    };
    match ask(alloc, store, d, usize::from(number), Some(number), input)? {
        Answer::Wrote(label) => {
            client.observe(label.point);
            Ok(())
        }
        _ => Err(Fail::from("refused")),
    }
}

// Whether a client of this number that reads at the site of this number is answered this text.
pub(crate) fn reads<N: Laid>(
    alloc: Global,
    store: &mut Store<N>,
    d: &Deployment,
    client: &mut Client,
    number: u16,
    item: u16,
    text: &[u8],
) -> Result<bool, Fail>
    requires { N.deployment ≡ d.now }
{
    let input = SiteInput::Read {
        carried: client.carried,
        item,
    };
    match ask(alloc, store, d, usize::from(number), Some(number), input)? {
        Answer::ReadSome { label, value } => {
            client.observe(label.point);
            Ok(value.bytes() == text)
        }
        _ => Ok(false),
    }
}

// ---- what the operator does

// A serializer takes that it stops for good.
fn killed<N: Laid>(
    alloc: Global,
    process: AtNode<SerialNode<N>>,
) -> Result<AtNode<SerialNode<N>>, Fail> {
    match process.act(alloc, 0, Asked::Kill) {
        Ok((process, Became::Taken)) => Ok(process),
        Ok(_) => Err(Fail::from("not taken")),
        Err(_) => Err(Fail::from("ended")),
    }
}

// Whether a serializer that is killed is dead.
pub(crate) fn kill<N: Laid>(
    alloc: Global,
    store: &mut Store<N>,
    number: usize,
) -> Result<bool, Fail> {
    let process = take_out(&mut store.serials, number)?;
    let process = killed(alloc, process)?;
    let dead = process.node().machine().is_dead();
    put_in(&mut store.serials, number, process)?;
    Ok(dead)
}
