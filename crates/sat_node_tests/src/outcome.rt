//! Each text on its happy path.
use sat_act::{Act, Answer, ClientLine, Deployment, Entry, Item, Plan};
use sat_finish::{Given, Joint};
use sat_label::{Carried, Name, NodeName, Point, SiteSet};
use sat_outcome::{write_apart, write_differ, write_undone, write_unsettled};
use sat_session::Noted;
use sat_tree::Tree;
use std::alloc::{AllocError, Global};
use std::test::Fail;

fn name(alloc: Global, text: &[u8]) -> Result<Name, Fail> {
    Ok(Name::of(alloc, text)?.ok_or("no name")?)
}

// One site, one item, one client, and two epochs with a tree of one serializer.
fn deployment(alloc: Global) -> Result<Deployment, Fail> {
    let mut items = Vec::new(alloc);
    items.push(Item {
        name: name(alloc, b"x")?,
        replicas: SiteSet { bits: 1 },
    })?;
    let mut clients = Vec::new(alloc);
    clients.push(ClientLine {
        name: name(alloc, b"a")?,
        site: 0,
    })?;
    let mut plans = Vec::new(alloc);
    plans.push(Plan::Tree(Tree::new(alloc, &[None], &[0])?))?;
    plans.push(Plan::Tree(Tree::new(alloc, &[None], &[0])?))?;
    Ok(Deployment::new(alloc, 1, 1, 1, items, clients, plans)?)
}

fn note(at: Option<NodeName>, act: Act, answer: Answer) -> Noted {
    Noted {
        lamport: 7,
        at,
        carried: Carried {
            point: Point {
                ts: 5,
                site: 0,
                gear: 0,
            },
            moving: None,
        },
        entry: Entry {
            act,
            answer,
            inner: false,
        },
    }
}

// A gather at site 0, as a node kept it.
fn gathered(at: NodeName, labels: u64) -> Joint {
    Joint {
        at,
        entry: Entry {
            act: Act::Gather { site: 0 },
            answer: Answer::Gathered { labels, stable: 4 },
            inner: false,
        },
        given: Given::Nothing,
    }
}

#[test]
fn two_parts_of_an_act_are_told(rt: HostRuntime) -> Result<(), Fail> {
    let alloc = rt.alloc();
    let d = deployment(alloc)?;
    let mut out = Vec::new(alloc);
    let home = Some(gathered(NodeName::Site(0), 1));
    let other = Some(gathered(NodeName::Gear { site: 0, gear: 0 }, 2));
    write_apart(&d, 9, &home, &other, &mut out)?;
    write_apart(&d, 10, &None, &other, &mut out)?;
    let want =
        b"apart\n9 0 gather 0 -> gathered 1 stable 4\n9 1 gather 0 -> gathered 2 stable 4\napart\nnone\n10 1 gather 0 -> gathered 2 stable 4\n";
    assert_eq!(rt; out.as_slice(), want.as_slice());
    Ok(())
}

#[test]
fn each_text_says_what_is_missing(rt: HostRuntime) -> Result<(), Fail> {
    let alloc = rt.alloc();
    let d = deployment(alloc)?;
    let mut out = Vec::new(alloc);
    let read = note(
        Some(NodeName::Site(0)),
        Act::Read { client: 0, item: 0 },
        Answer::ReadNone,
    );
    let at_gear = note(
        Some(NodeName::Gear { site: 0, gear: 0 }),
        Act::Read { client: 0, item: 0 },
        Answer::ReadNone,
    );
    let killed = note(
        Some(NodeName::Serializer {
            epoch: 2,
            number: 0,
        }),
        Act::Kill {
            epoch: 2,
            serializer: 0,
        },
        Answer::Killed,
    );
    write_differ(&d, &Some(read), &Some(at_gear), &mut out)?;
    write_differ(&d, &None, &Some(killed), &mut out)?;
    write_undone(&d, &Act::Leave { client: 0 }, &mut out)?;
    write_unsettled(2, 31, &mut out)?;
    let want =
        b"differ\n7 0 5.0.0 - read a x -> read none\n7 1 5.0.0 - read a x -> read none\ndiffer\nnone\n7 3 5.0.0 - kill 2 z0 -> killed\nundone\nleave a\nundone\nsettled 2 31\n";
    assert_eq!(rt; out.as_slice(), want.as_slice());
    Ok(())
}
