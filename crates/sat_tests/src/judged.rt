//! Histories through the program, each with the verdict that was worked out by hand.
use sat_outside::CleanSink;
use sat_top::still_in_memory;
use std::alloc::Global;
use std::test::Fail;

const ROOM: usize = 4096;

const HEADER: &str =
    "saturn 2\nsites 3\ngears 1\nitem p 0,2\nitem q 1,2\nitem r 0,1\nclient a 0\nclient b 1\nclient c 2\nplan stamp\nbegin\n";

const YES: &str = "causal yes\nonce yes\nfresh yes\n";

const HISTORIES: &[(&str, u8, &str)] = &[
    ("", 0, YES),
    // Site 2 shows q before p, which its writer had written at another site; and in the right order.
    (
        "write a p P -> wrote 1.0.0\nleave a -> left 1.0.0\nattach a 1 -> attached\nwrite a q Q -> wrote 2.1.0\nstamp 2 -> shown q 2.1.0\nstamp 2 -> shown p 1.0.0\n",
        7,
        "causal no 5 1 2\nonce yes\nfresh yes\n",
    ),
    (
        "write a p P -> wrote 1.0.0\nleave a -> left 1.0.0\nattach a 1 -> attached\nwrite a q Q -> wrote 2.1.0\nstamp 2 -> shown p 1.0.0\nstamp 2 -> shown q 2.1.0\n",
        0,
        YES,
    ),
    // The cause comes by way of an update that site 2 does not keep and another client read.
    (
        "write a p P -> wrote 1.0.0\nwrite a r R -> wrote 2.0.0\nstamp 1 -> shown r 2.0.0\nread b r -> read 2.0.0 R\nwrite b q Q -> wrote 3.1.0\nstamp 2 -> shown q 3.1.0\n",
        7,
        "causal no 6 1 2\nonce yes\nfresh yes\n",
    ),
    // By way of the point of a move.
    (
        "write a p P -> wrote 1.0.0\nmove a 1 -> moved 2.0.0\nread b r -> read 2.0.0 R\nwrite b q Q -> wrote 3.1.0\nturn 2 -> shown q 3.1.0\n",
        7,
        "causal no 5 1 2\nonce yes\nfresh yes\n",
    ),
    // What was read is written later.
    (
        "read c p -> read 5.0.0 P\nwrite c q Q -> wrote 6.2.0\nwrite a p P -> wrote 5.0.0\n",
        7,
        "causal no 2 3 2\nonce yes\nfresh yes\n",
    ),
    // Shown twice, shown though nobody made it, shown at a site that keeps none of its items.
    (
        "write a p P -> wrote 1.0.0\nstamp 2 -> shown p 1.0.0\nstamp 2 -> shown p 1.0.0\n",
        7,
        "causal yes\nonce no 3\nfresh yes\n",
    ),
    (
        "stamp 2 -> shown p 1.0.0\n",
        7,
        "causal yes\nonce no 1\nfresh yes\n",
    ),
    (
        "write a r R -> wrote 1.0.0\nstamp 2 -> shown r 1.0.0\n",
        7,
        "causal yes\nonce no 2\nfresh yes\n",
    ),
    // A group whose parts are shown one after the other.
    (
        "writes a p P q Q -> wrote 1.0.0\nstamp 2 -> shown p,q 1.0.0\n",
        0,
        YES,
    ),
    (
        "writes a p P q Q -> wrote 1.0.0\nstamp 2 -> shown p 1.0.0\nstamp 2 -> shown q 1.0.0\n",
        7,
        "causal yes\nonce no 3\nfresh yes\n",
    ),
    // A stale read: by the writer, by a client that moved, and of nothing behind a read of something.
    (
        "write a p P -> wrote 1.0.0\nread a p -> read none\n",
        7,
        "causal yes\nonce yes\nfresh no 2 1\n",
    ),
    (
        "write a r old -> wrote 1.0.0\nwrite a r new -> wrote 2.0.0\nleave a -> left 2.0.0\nattach a 1 -> attached\nstamp 1 -> shown r 1.0.0\nread a r -> read 1.0.0 old\n",
        7,
        "causal yes\nonce yes\nfresh no 6 2\n",
    ),
    (
        "write a r R -> wrote 1.0.0\nread b r -> read 1.0.0 R\nread b r -> read none\n",
        7,
        "causal yes\nonce yes\nfresh no 3 1\n",
    ),
    // A value may be an arrow, and what is not read may be any text.
    (
        "write a p -> -> wrote 1.0.0\ngather 0 -> any  thing\n",
        0,
        YES,
    ),
    // Lines at fault.
    ("read a p -> read\n", 1, "line 12: BadAnswer\n"),
    ("write a p P\n", 1, "line 12: BadAnswer\n"),
    ("gather 0 -> shown p 1.0.0\n", 1, "line 12: BadAnswer\n"),
    ("write a p P -> wrote 1.3.0\n", 1, "line 12: BadAnswer\n"),
    (
        "write a p P -> wrote 1.0.0\nmove a 1 -> moved 1.0.0\n",
        1,
        "line 13: SamePoint\n",
    ),
    ("settle -> settled 0 7\n", 1, "line 12: BadAct\n"),
    ("write d p P -> wrote 1.0.0\n", 1, "line 12: UnknownName\n"),
];

// The status of a history and its verdict.
fn judged(alloc: Global, entries: &str) -> Result<(u8, CleanSink), Fail> {
    let mut words = Vec::new(alloc);
    words.push(String::from_str(alloc, "audit")?)?;
    let mut text = HEADER.as_bytes().to_vec(alloc)?;
    text.extend_from_slice(entries.as_bytes())?;
    text.extend_from_slice(b"end\n")?;
    let (status, sink) = still_in_memory(alloc, words.as_slice(), text, 7, ROOM)?;
    Ok((status, sink))
}

#[test]
fn histories_have_their_verdicts(rt: HostRuntime) -> Result<(), Fail> {
    let alloc = rt.alloc();
    for (entries, wanted, verdict) in HISTORIES {
        let (status, sink) = judged(alloc, entries)?;
        assert_eq!(rt; status, *wanted);
        assert_eq!(rt; sink.held(), verdict.as_bytes());
    }
    Ok(())
}
