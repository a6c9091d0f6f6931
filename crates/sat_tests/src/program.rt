//! The program over sources and sinks in memory.
use crate::rows::{ANSWERS, HEADER, REPORTS, SUMMARIES, UNDERWAY};
use sat_label::{NodeId, Point, write_point};
use sat_outside::{CleanSink, CleanSource, FreeGate, MemorySink, MemorySource, Source};
use sat_runs::answer_acts;
use sat_script::write_script;
use sat_settle::load;
use sat_stream::{read_script, sound_readings};
use sat_top::{saturn, still, still_in_memory};
use sat_tree::Tree;
use sat_world::World;
use std::alloc::Global;
use std::test::Fail;

pub(crate) const ACTS: &str =
    "write a x hello\ngather 0\nemit 0\nhop 1 s0 z0\nbulk 0 0 1\nturn 1\nread b x\nend\n";

pub(crate) const REPORT: &str =
    "1 wrote 1.0.0\n2 gathered 1 stable 1\n3 emitted update 1.0.0\n4 hopped update 1.0.0 to s1\n5 brought x 1.0.0\n6 shown x 1.0.0\n7 read 1.0.0 hello\nholdings\nsite 0 view 1 emission 1 tree waiting 0\nitem x 1.0.0 hello\nsite 1 view 1 emission 1 tree waiting 0\nitem x 1.0.0 hello\ndone\n";

pub(crate) const ROOM: usize = 4096;

// The words of a line.
pub(crate) fn words(alloc: Global, line: &str) -> Result<Vec<String>, Fail> {
    let mut words = Vec::new(alloc);
    for word in line.split_whitespace() {
        words.push(String::from_str(alloc, word)?)?;
    }
    Ok(words)
}

// A script with the header and these lines.
pub(crate) fn script(alloc: Global, lines: &str) -> Result<Vec<u8>, Fail> {
    let mut text = HEADER.as_bytes().to_vec(alloc)?;
    text.extend_from_slice(lines.as_bytes())?;
    Ok(text)
}

#[test]
fn any_pieces_give_the_report(rt: HostRuntime) -> Result<(), Fail> {
    let alloc = rt.alloc();
    let words = words(alloc, "run")?;
    for piece in [1usize, 7, 4096] {
        let mut source = CleanSource::new(script(alloc, ACTS)?, piece);
        let mut sink = CleanSink::with_room(alloc, piece, ROOM)?;
        let status = saturn(&rt, words.as_slice(), &mut source, &mut sink, &FreeGate);
        assert_eq!(rt; status, 0);
        assert_eq!(rt; sink.held(), REPORT.as_bytes());
    }
    Ok(())
}

#[test]
fn other_words_are_refused(rt: HostRuntime) -> Result<(), Fail> {
    let alloc = rt.alloc();
    for line in [
        "run x",
        "",
        "load",
        "load 7",
        "load 7 1",
        "load 7 199001",
        "load 07 2",
        "load 7 02",
        "load 18446744073709551616 2",
        "load 7 2 3",
        "run 7 2",
        "chain",
        "chain 0",
        "chain 6",
        "chain 02",
        "chain 2 3",
        "durable 2",
        "durables",
    ] {
        let words = words(alloc, line)?;
        let (status, sink) = still_in_memory(
            alloc,
            words.as_slice(),
            script(alloc, ACTS)?,
            7,
            ROOM,
        )?;
        assert_eq!(rt; status, 2);
        assert_eq!(rt; sink.held(), b"words refused\n".as_slice());
    }
    Ok(())
}

// The status and the output of a command over a text that comes in pieces of seven bytes.
fn ended(alloc: Global, line: &str, text: Vec<u8>) -> Result<(u8, CleanSink), Fail> {
    let words = words(alloc, line)?;
    let (status, sink) = still_in_memory(alloc, words.as_slice(), text, 7, ROOM)?;
    Ok((status, sink))
}

// The status and the report of a script in two parts.
fn run(alloc: Global, front: &str, rest: &str) -> Result<(u8, CleanSink), Fail> {
    let mut text = front.as_bytes().to_vec(alloc)?;
    text.extend_from_slice(rest.as_bytes())?;
    ended(alloc, "run", text)
}

#[test]
fn scripts_have_their_answers(rt: HostRuntime) -> Result<(), Fail> {
    let alloc = rt.alloc();
    for (header, acts, answers) in ANSWERS {
        let (status, sink) = run(alloc, header, acts)?;
        assert_eq!(rt; status, 0);
        assert!(rt; sink.held().starts_with(answers.as_bytes()));
    }
    Ok(())
}

#[test]
fn scripts_have_their_reports(rt: HostRuntime) -> Result<(), Fail> {
    let alloc = rt.alloc();
    for (front, rest, report) in REPORTS {
        let (status, sink) = run(alloc, front, rest)?;
        let refused = !report.as_bytes().ends_with(b"done\n");
        assert_eq!(rt; status, u8::from(refused));
        assert_eq!(rt; sink.held(), report.as_bytes());
    }
    Ok(())
}

#[test]
fn a_run_is_drawn(rt: HostRuntime) -> Result<(), Fail> {
    let alloc = rt.alloc();
    let words = words(alloc, "draw")?;
    let text = script(alloc, ACTS)?;
    let (status, sink) = still_in_memory(alloc, words.as_slice(), text, 7, 65_536)?;
    assert_eq!(rt; status, 0);
    assert!(rt; sink.held().starts_with(b"<svg "));
    assert!(rt; sink.held().ends_with(b">read b x</text>\n</svg>\n"));
    let (status, sink) = ended(alloc, "draw", script(alloc, "gath\nend\n")?)?;
    assert_eq!(rt; status, 1);
    assert_eq!(rt; sink.held(), b"line 9: BadAct\n".as_slice());
    Ok(())
}

#[test]
fn large_scripts_have_their_summaries(rt: HostRuntime) -> Result<(), Fail> {
    let alloc = rt.alloc();
    for (line, summary) in SUMMARIES {
        let (status, sink) = ended(alloc, line, script(alloc, ACTS)?)?;
        assert_eq!(rt; status, 0);
        assert_eq!(rt; sink.held(), summary.as_bytes());
    }
    Ok(())
}

// How much is under way after these lines.
fn underway_after(alloc: Global, lines: &str) -> Result<u64, Fail> {
    // Brings this law into the proof; it does nothing when it runs.
    sound_readings();
    let text = script(alloc, lines)?;
    let Ok(script) = read_script(alloc, text.as_slice(), false) else {
        return Err("the script is refused".into());
    };
    let mut world = World::new(alloc, script.deployment)?;
    let mut answers = Vec::new(alloc);
    answer_acts(&mut world, 0, script.acts.as_slice(), &mut answers)?;
    Ok(world.underway())
}

#[test]
fn what_is_under_way_is_counted(rt: HostRuntime) -> Result<(), Fail> {
    let alloc = rt.alloc();
    for (lines, wanted) in UNDERWAY {
        assert_eq!(rt; underway_after(alloc, lines)?, *wanted);
    }
    Ok(())
}

#[test]
fn delays_give_a_tree(rt: HostRuntime) -> Result<(), Fail> {
    let alloc = rt.alloc();
    for (text, want) in [
        (
            "{\"sites\":2,\"places\":1,\"reach\":[[3],[4]],\"between\":[[0]],\"optimal\":[[0,10],[7,0]],\"weight\":[[0,2],[1,0]]}",
            "plan tree - / 0 0\nplace z0 0\ndelay z0 s1 3\nmismatch 0\n",
        ),
        // Sites 0 and 1 are near place 0, and site 2 is near place 2. One serializer at place 0 costs 36, at place 1
        // 108 and at place 2 148. A second one at place 2 takes site 2, and leaves the ways from site 2, each 5
        // milliseconds short: 10. A third one takes no site. A delay of 5 before site 0 or before site 1 brings one way
        // nearer and another as far off; on the edge from z1 to z0 it mends both.
        (
            "{\"sites\":3,\"places\":3,\"reach\":[[1,5,30],[2,6,30],[30,40,1]],\"between\":[[0,5,20],[5,0,25],[15,25,0]],\"optimal\":[[0,3,22],[3,0,23],[22,23,0]],\"weight\":[[0,1,1],[1,0,1],[1,1,0]]}",
            "plan tree - 0 / 0 0 1\nplace z0 0\nplace z1 2\ndelay z1 z0 5\nmismatch 0\n",
        ),
        // The same, but site 1 is to hear of site 2 after 26 milliseconds, and that weighs 2. So the first edge whose
        // delay lowers the mismatch is the one before site 1: 8 milliseconds, at the cost of 8 for what it hears of
        // site 0. Then none of the other edges is better with a delay, though 8 on the edge from z1 to z0 alone would
        // have left 3.
        (
            "{\"sites\":3,\"places\":3,\"reach\":[[1,5,30],[2,6,30],[30,40,1]],\"between\":[[0,5,20],[5,0,25],[15,25,0]],\"optimal\":[[0,3,22],[3,0,23],[22,26,0]],\"weight\":[[0,1,1],[1,0,1],[1,2,0]]}",
            "plan tree - 0 / 0 0 1\nplace z0 0\nplace z1 2\ndelay z0 s1 8\nmismatch 13\n",
        ),
    ] {
        let (status, sink) = ended(alloc, "plan", text.as_bytes().to_vec(alloc)?)?;
        assert_eq!(rt; status, 0);
        assert_eq!(rt; sink.held(), want.as_bytes());
    }
    Ok(())
}

#[test]
fn the_program_tells_of_itself(rt: HostRuntime) -> Result<(), Fail> {
    let alloc = rt.alloc();
    let (status, sink) = ended(alloc, "--version", Vec::new(alloc))?;
    assert_eq!(rt; status, 0);
    assert_eq!(rt; sink.held(), b"saturn 0.1.0\n".as_slice());
    let (status, sink) = ended(alloc, "--help", Vec::new(alloc))?;
    assert_eq!(rt; status, 0);
    assert!(rt; sink.held().starts_with(b"saturn: causal order"));
    Ok(())
}

#[test]
fn a_sink_that_is_full_holds_a_front(rt: HostRuntime) -> Result<(), Fail> {
    let alloc = rt.alloc();
    let words = words(alloc, "run")?;
    let mut source = CleanSource::new(script(alloc, ACTS)?, 10);
    let mut sink = MemorySink::new(alloc, 10, Vec::new(alloc), 14)?;
    assert_eq!(rt; still(alloc, words.as_slice(), &mut source, &mut sink), 4);
    assert_eq!(rt; sink.held(), b"1 wrote 1.0.0\n".as_slice());
    Ok(())
}

// What comes behind a bad line is not read: the read that would fail is still to come.
#[test]
fn a_bad_line_ends_the_reading(rt: HostRuntime) -> Result<(), Fail> {
    let alloc = rt.alloc();
    let words = words(alloc, "run")?;
    let bad = script(alloc, "gath\nwrite a x v\nend\n")?;
    let mut source = MemorySource::new(bad, 10, vec![in alloc; 9u64]?);
    let mut sink = CleanSink::with_room(alloc, 4, ROOM)?;
    assert_eq!(rt; still(alloc, words.as_slice(), &mut source, &mut sink), 1);
    assert_eq!(rt; sink.held(), b"line 9: BadAct\n".as_slice());
    let mut buffer = [0u8; 10];
    assert!(rt; source.read(&mut buffer).is_err());
    Ok(())
}

// Five thousand writes of the longest value: a script of 1.3 million bytes, and the length of its report by hand.
#[test]
fn long_scripts_have_long_reports(rt: HostRuntime) -> Result<(), Fail> {
    let alloc = rt.alloc();
    let words = words(alloc, "run")?;
    let mut text = HEADER.as_bytes().to_vec(alloc)?;
    for _ in 0..5000 {
        text.extend_from_slice(b"write a x ")?;
        text.extend_from_slice(&[b'~'; 256])?;
        text.push(b'\n')?;
    }
    text.extend_from_slice(b"end\n")?;
    let (status, sink) = still_in_memory(alloc, words.as_slice(), text, 4096, 200_000)?;
    assert_eq!(rt; status, 0);
    assert_eq!(rt; sink.held().len(), 98165);
    assert!(rt; sink.held().starts_with(b"1 wrote 1.0.0\n2 wrote 2.0.0\n"));
    assert!(rt;
        sink.held().ends_with(b"~\nsite 1 view 1 emission 1 tree waiting 0\nitem x none\ndone\n")
    );
    Ok(())
}

// Of a large script of 40 acts, as another program wrote it from a description of the format: the first lines, some in
// the middle with the place where they begin, and the last lines.
const LOAD_FIRST: &str =
    "saturn 1\nsites 5\ngears 4\nitem x0 0,1\nitem x1 0,1,2\nitem x2 0,2,3\nitem x3 0,3,4\nitem x4 0,4\nitem x5 0,1\nitem x6 1,2\nitem x7 1,2,3\nitem x8 1,3,4\n";

const LOAD_MIDDLE: &str =
    "item x197 2,3,4\nitem x198 3,4\nitem x199 0,4\nclient c0 0\nclient c1 1\nclient c2 2\n";

const LOAD_MIDDLE_AT: usize = 2911;

const LOAD_LAST: &str =
    "client c38 3\nclient c39 4\nplan tree - 0 0 / 0 1 1 2 2\nplan tree - 0 / 0 0 1 1 1\nbegin\nturn 1\nwrite c33 x145 v2\nread c24 x164\nhop 1 s1 z1\nwrite c0 x149 v5\nwrite c5 x99 v6\nbulk 1 0 3\ntick 3 1 8\nwrite c0 x145 v9\nattach c32 2\nbulk 0 3 2\nread c9 x107\nmove c32 0\ngather 3\nwrite c20 x144 v15\nwrite c24 x146 v16\npulse 2\nturn 2\nbulk 4 3 0\nwrite c26 x3 v20\nclose 0\nclose 1\nclose 2\nclose 3\nclose 4\nturn 3\nread c20 x155\nemit 0\nread c32 x138\nemit 3\ntick 3 0 26\nbulk 3 1 1\ntick 2 3 28\nwrite c32 x177 v29\nturn 3\nread c39 x179\nbulk 1 1 4\nemit 3\nread c36 x125\nturn 1\ntick 0 0 36\nread c11 x155\nemit 4\ngather 1\nread c28 x0\nsettle\nend\n";

const LOAD_BYTES: usize = 4054;

#[test]
fn a_small_load_is_spelled(rt: HostRuntime) -> Result<(), Fail> {
    let alloc = rt.alloc();
    let script = load(alloc, 7, 40)?;
    let mut text = Vec::new(alloc);
    write_script(&script.deployment, script.acts.as_slice(), &mut text)?;
    let text = text.as_slice();
    assert_eq!(rt; text.len(), LOAD_BYTES);
    assert!(rt; text.starts_with(LOAD_FIRST.as_bytes()));
    assert!(rt; text[LOAD_MIDDLE_AT..].starts_with(LOAD_MIDDLE.as_bytes()));
    assert!(rt; text.ends_with(LOAD_LAST.as_bytes()));
    Ok(())
}

// The calls of the lowest crates that no command makes: the text of a point, and the way between two sites of a tree.
#[test]
fn points_and_paths(rt: HostRuntime) -> Result<(), Fail> {
    let alloc = rt.alloc();
    let mut text = Vec::new(alloc);
    write_point(&Point::mark(4611686018427387904, 3), &mut text)?;
    assert_eq!(rt; text.as_slice(), b"4611686018427387904.3.65535".as_slice());
    let tree = Tree::new(alloc, &[None, Some(0), Some(0)], &[0, 1, 1, 2, 2])?;
    let across = [
        NodeId::Site(2),
        NodeId::Serializer(1),
        NodeId::Serializer(0),
        NodeId::Serializer(2),
        NodeId::Site(4),
    ];
    if tree.sites() != 5 {
        return Err("a tree of other sites".into());
    }
    assert_eq!(rt; tree.path(2, 4)?.as_slice(), across.as_slice());
    Ok(())
}
