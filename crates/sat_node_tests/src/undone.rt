//! What is lacking, on its happy path.
use sat_act::{Act, Answer, Entry, Refusal};
use sat_undone::{MOST_TRIES, undone};
use std::alloc::Global;
use std::test::Fail;

fn entry(act: Act, answer: Answer) -> Entry {
    Entry {
        act,
        answer,
        inner: false,
    }
}

// Attach 0 of client 0 that had to wait, so often.
fn tries(alloc: Global, count: u64) -> Result<Vec<Entry>, Fail> {
    let mut list = Vec::new(alloc);
    for _ in 0..count {
        list.push(entry(
            Act::Attach { client: 0, site: 1 },
            Answer::Refused(Refusal::NotYet),
        ))?;
    }
    Ok(list)
}

#[test]
fn an_attach_is_tried_until_it_is_given_up(rt: HostRuntime) -> Result<(), Fail> {
    let alloc = rt.alloc();
    let acts = [
        Act::Attach { client: 0, site: 1 },
        Act::Leave { client: 0 },
        Act::Fall { site: 1 },
    ];
    let mut entries = tries(alloc, MOST_TRIES - 1)?;
    assert!(rt; undone(alloc, 1, &entries, &acts)? == Some(&acts[0]));
    entries.push(entry(acts[0].copy()?, Answer::Attached))?;
    assert!(rt; undone(alloc, 1, &entries, &acts)? == Some(&acts[1]));
    let entries = tries(alloc, MOST_TRIES)?;
    assert!(rt; undone(alloc, 1, &entries, &acts)? == Some(&acts[2]));
    Ok(())
}
