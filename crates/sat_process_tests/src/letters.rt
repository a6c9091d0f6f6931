//! Letters between processes, of which many are lost, doubled and out of order.
ghost use Rattle.std.specs.Prelude.{◌≡◌};

use crate::begin::{AtNode, Left, Store, Tally, put_in, serializer_left, site_left, take_out};
use crate::net::{Letter, Net, copied};
use crate::shared::WAYS;
use sat_act::Deployment;
use sat_machines::Laid;
use sat_process::{Became, Ended, Heard, Hosted};
use std::alloc::{AllocError, Global};
use std::test::Fail;

// A letter on its way to a node, with the number of its link there.
#[derive(Drop)]
pub(crate) struct Posted {
    to: usize,
    link: u16,
    bytes: Vec<u8>,
}

// ---- what goes out

// Where a letter goes that a node says on one of its links: the other node, and the number of the link there.
fn way_of(from: usize, link: usize) -> Option<(usize, u16)> {
    for (start, out, to, into) in WAYS {
        if start == from && out == link {
            return match u16::try_from(into) {
                Ok(into) => Some((to, into)),
                Err(_) => None,
            };
        }
    }
    None
}

// A letter, on its way to the other end of its link.
fn post_letter(from: usize, letter: Letter, post: &mut Vec<Posted>) -> Result<(), Fail> {
    let Letter { link, bytes } = letter;
    let Some((to, link)) = way_of(from, usize::from(link)) else {
        return Err(Fail::from("no such way"));
    };
    post.push(Posted { to, link, bytes })?;
    Ok(())
}

fn post_letters(from: usize, letters: Vec<Letter>, post: &mut Vec<Posted>) -> Result<(), Fail> {
    for letter in letters {
        post_letter(from, letter, post)?;
    }
    Ok(())
}

// A process says all that it ever said, once more.
fn say_all<M: Hosted>(process: &mut AtNode<M>) -> Result<(), AllocError> {
    for link in 0..process.links() {
        process.again(link);
        process.speak_all(link, 64)?;
    }
    Ok(())
}

// A process, and the letters in which it said all once more.
fn said<M: Hosted>(
    alloc: Global,
    process: AtNode<M>,
) -> Result<(AtNode<M>, Vec<Letter>), AllocError> {
    let mut process = process;
    say_all(&mut process)?;
    let (process, net) = process.over(Net::new(alloc));
    Ok((process, net.letters()))
}

fn post_from<M: Hosted>(
    alloc: Global,
    places: &mut Vec<Option<AtNode<M>>>,
    place: usize,
    from: usize,
    post: &mut Vec<Posted>,
) -> Result<(), Fail> {
    let process = take_out(places, place)?;
    let (process, letters) = said(alloc, process)?;
    put_in(places, place, process)?;
    post_letters(from, letters, post)
}

// All that was ever said: by the sites, and then by the serializers.
pub(crate) fn post<N: Laid>(alloc: Global, store: &mut Store<N>) -> Result<Vec<Posted>, Fail> {
    let mut post = Vec::new(alloc);
    for site in 0..3usize {
        post_from(alloc, &mut store.sites, site, site, &mut post)?;
    }
    for number in 0..2usize {
        post_from(alloc, &mut store.serials, number, number + 3, &mut post)?;
    }
    Ok(post)
}

// ---- what comes

fn count(tally: &mut Tally, heard: Heard) {
    match heard {
        Heard::Message(_, Became::Taken) => tally.taken = tally.taken.wrapping_add(1),
        Heard::Message(_, Became::Early) => tally.early = tally.early.wrapping_add(1),
        Heard::Message(_, Became::Again) => tally.again = tally.again.wrapping_add(1),
        Heard::Unread(_, _) => tally.unread = tally.unread.wrapping_add(1),
        _ => tally.unfit = tally.unfit.wrapping_add(1),
    }
}

// One turn of the loop of a process, with the letter that waits for it. What it says then is lost.
fn turn<M: Hosted>(alloc: Global, process: AtNode<M>, tally: &mut Tally) -> Result<Left<M>, Fail> {
    match process.turn(alloc, 64) {
        Ok((process, turned)) => {
            count(tally, turned.heard);
            if !turned.said {
                return Err(Fail::from("memory"));
            }
            Ok(Ok(process))
        }
        Err(Ended::Disk(disk, _)) => Ok(Err(disk)),
        Err(Ended::Memory(_, _)) => Err(Fail::from("memory")),
    }
}

// Gives a process a letter, in one turn of its loop.
fn hear<M: Hosted>(
    alloc: Global,
    process: AtNode<M>,
    posted: &Posted,
    tally: &mut Tally,
) -> Result<Left<M>, Fail> {
    let bytes = copied(alloc, posted.bytes.as_slice())?;
    let letter = Letter {
        link: posted.link,
        bytes,
    };
    let (process, _) = process.over(Net::with(alloc, letter));
    turn(alloc, process, tally)
}

fn hear_at_site<N: Laid>(
    alloc: Global,
    store: &mut Store<N>,
    d: &Deployment,
    site: usize,
    posted: &Posted,
) -> Result<(), Fail>
    requires { N.deployment ≡ d.now }
{
    let process = take_out(&mut store.sites, site)?;
    let left = hear(alloc, process, posted, &mut store.tally)?;
    let process = site_left(alloc, d, site, left, &mut store.tally)?;
    put_in(&mut store.sites, site, process)
}

fn hear_at_serializer<N: Laid>(
    alloc: Global,
    store: &mut Store<N>,
    d: &Deployment,
    number: usize,
    posted: &Posted,
) -> Result<(), Fail>
    requires { N.deployment ≡ d.now }
{
    let process = take_out(&mut store.serials, number)?;
    let left = hear(alloc, process, posted, &mut store.tally)?;
    let process = serializer_left(alloc, d, number, left, &mut store.tally)?;
    put_in(&mut store.serials, number, process)
}

fn give<N: Laid>(
    alloc: Global,
    store: &mut Store<N>,
    d: &Deployment,
    posted: &Posted,
) -> Result<(), Fail>
    requires { N.deployment ≡ d.now }
{
    if posted.to < 3 {
        return hear_at_site(alloc, store, d, posted.to, posted);
    }
    hear_at_serializer(alloc, store, d, posted.to - 3, posted)
}

// A letter without its last byte.
fn cut_short(alloc: Global, posted: &Posted) -> Result<Posted, AllocError> {
    let bytes = posted.bytes.as_slice();
    let most = bytes.len().saturating_sub(1);
    Ok(Posted {
        to: posted.to,
        link: posted.link,
        bytes: copied(alloc, &bytes[..most])?,
    })
}

// Gives a letter: every fifth comes twice, and every seventh once more without its last byte.
fn give_often<N: Laid>(
    alloc: Global,
    store: &mut Store<N>,
    d: &Deployment,
    posted: &Posted,
    step: usize,
) -> Result<(), Fail>
    requires { N.deployment ≡ d.now }
{
    give(alloc, store, d, posted)?;
    if step % 5 == 0 {
        give(alloc, store, d, posted)?;
    }
    if step % 7 == 0 {
        let cut = cut_short(alloc, posted)?;
        give(alloc, store, d, &cut)?;
    }
    Ok(())
}

// Hands on what there is, from the last to the first by strides: every third is lost.
pub(crate) fn carry<N: Laid>(
    alloc: Global,
    store: &mut Store<N>,
    d: &Deployment,
    post: &[Posted],
    stride: usize,
) -> Result<(), Fail>
    requires { N.deployment ≡ d.now }
{
    let many = post.len();
    if many == 0 {
        return Ok(());
    }
    for step in 0..many {
        let place = step.wrapping_add(1).wrapping_mul(stride) % many;
        let Some(posted) = post.get(many.wrapping_sub(1).wrapping_sub(place)) else {
            continue;
        };
        if step.wrapping_add(stride) % 3 == 0 {
            continue;
        }
        give_often(alloc, store, d, posted, step)?;
    }
    Ok(())
}
