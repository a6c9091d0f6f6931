//! Sites that survive a stop, through the program: each script with its output, worked out by hand.
use crate::rows::{HEADER, STAMPS, TWO_TREES};
use sat_outside::CleanSink;
use sat_top::still_in_memory;
use std::alloc::Global;
use std::fmt::Write;
use std::test::Fail;

const ROOM: usize = 4096;

const AT_SITE_0: &str =
    "holdings\nsite 0 view 1 emission 1 tree waiting 0\nitem x 1.0.0 v\nsite 1 view 1 emission 1 tree waiting 0\nitem x none\ndone\n";

const NOWHERE: &str =
    "holdings\nsite 0 view 1 emission 1 tree waiting 0\nitem x none\nsite 1 view 1 emission 1 tree waiting 0\nitem x none\ndone\n";

// The acts, the status, their answers, and what stands behind these.
const SCRIPTS: &[(&str, u8, &str, &str)] = &[
    // A cut that loses the input, one that keeps it, and a stop.
    (
        "write a x v\ncut 0 2 0\ngather 0\ngather 0\ncut 0 3 1\nemit 0\nhop 1 s0 z0\nstop 0\nend\n",
        0,
        "1 wrote 1.0.0\n2 armed\n3 stopped without\n4 gathered 1 stable 1\n5 armed\n6 stopped emitted update 1.0.0\n7 hopped update 1.0.0 to s1\n8 recovered 3\n",
        AT_SITE_0,
    ),
    // A write that is lost was never seen.
    (
        "cut 0 0 1\nwrite a x v\nread a x\nstop 0\nend\n",
        0,
        "1 armed\n2 stopped without\n3 read none\n4 recovered 1\n",
        NOWHERE,
    ),
    // Of the eight ways to cut an input off only one keeps it.
    (
        "cut 0 0 0\ntick 0 0 1\ncut 0 0 1\ntick 0 0 2\ncut 0 1 0\ntick 0 0 3\ncut 0 1 1\ntick 0 0 4\ncut 0 2 0\ntick 0 0 5\ncut 0 2 1\ntick 0 0 6\ncut 0 3 0\ntick 0 0 7\ncut 0 3 1\ntick 0 0 8\nstop 0\nend\n",
        0,
        "1 armed\n2 stopped without\n3 armed\n4 stopped without\n5 armed\n6 stopped without\n7 armed\n8 stopped without\n9 armed\n10 stopped without\n11 armed\n12 stopped without\n13 armed\n14 stopped without\n15 armed\n16 stopped ticked 8\n17 recovered 1\n",
        NOWHERE,
    ),
    // An act that is refused at its site is an input too: a cut falls into it.
    (
        "cut 0 3 1\nemit 0\nstop 0\ncut 0 3 0\nemit 0\nstop 0\nend\n",
        0,
        "1 armed\n2 stopped refused Idle\n3 recovered 1\n4 armed\n5 stopped without\n6 recovered 1\n",
        NOWHERE,
    ),
    // A second cut takes the place of the first, and a stop takes a cut away.
    (
        "cut 0 3 1\ncut 0 0 0\ntick 0 0 1\ncut 0 0 0\ncut 0 3 1\ntick 0 0 2\ncut 0 0 0\nstop 0\ntick 0 0 3\nend\n",
        0,
        "1 armed\n2 armed\n3 stopped without\n4 armed\n5 armed\n6 stopped ticked 2\n7 armed\n8 recovered 1\n9 ticked 3\n",
        NOWHERE,
    ),
    // A cut waits for its own site, and stops of another leave it.
    (
        "cut 1 0 0\ntick 0 0 1\nstop 0\ncut 0 3 1\nbeat 0 1\nturn 1\nbeatin 0 1 0\nstop 1\nstop 0\nend\n",
        0,
        "1 armed\n2 ticked 1\n3 recovered 1\n4 armed\n5 stopped beat 0\n6 stopped without\n7 taken\n8 recovered 1\n9 recovered 2\n",
        NOWHERE,
    ),
    // What reaches no site uses no cut up: acts of serializers, clients without a seat and with one, no such payload
    // and no such beat.
    (
        "cut 0 0 0\ncut 1 0 0\nleave a\nwrite a x v\nread a x\nmove a 1\nattach b 0\nhop 1 s0 z0\nbulk 0 0 1\nbulk 0 0 1 5\nbeatin 0 1 0\nkill 1 z0\nhop 1 s0 z0\nattach a 0\nadvance 1\nstop 0\nstop 1\nend\n",
        0,
        "1 armed\n2 armed\n3 left 0.0.0\n4 refused NoSession\n5 refused NoSession\n6 refused NoSession\n7 refused Joined\n8 refused Empty\n9 refused NoSuch\n10 refused NoSuch\n11 refused NoSuch\n12 killed\n13 refused Dead\n14 stopped without\n15 stopped without\n16 recovered 0\n17 recovered 0\n",
        NOWHERE,
    ),
    // A client that was not attached tries again, and a move whose answer came after the stop is a move.
    (
        "leave a\ncut 0 1 1\nattach a 0\nattach a 0\ncut 0 3 1\nwrite a x v\nread a x\ncut 0 3 1\nmove a 1\nread a x\nstop 0\nend\n",
        0,
        "1 left 0.0.0\n2 armed\n3 stopped without\n4 attached\n5 armed\n6 stopped wrote 1.0.0\n7 read 1.0.0 v\n8 armed\n9 stopped moved 2.0.0\n10 refused NoSession\n11 recovered 4\n",
        AT_SITE_0,
    ),
    // What takes part in several sites at once is none of its acts; numbers out of their ranges; lines of other forms.
    ("clock\nend\n", 1, "line 9: BadAct\n", ""),
    ("settle\nend\n", 1, "line 9: BadAct\n", ""),
    ("stop\nend\n", 1, "line 9: BadAct\n", ""),
    ("stop 0 0\nend\n", 1, "line 9: BadAct\n", ""),
    ("stop x\nend\n", 1, "line 9: BadAct\n", ""),
    ("cut 0 0\nend\n", 1, "line 9: BadAct\n", ""),
    ("cut 0 0 0 0\nend\n", 1, "line 9: BadAct\n", ""),
    ("cut 0 00 0\nend\n", 1, "line 9: BadAct\n", ""),
    ("stop 2\nend\n", 1, "line 9: OutOfRange\n", ""),
    ("cut 2 0 0\nend\n", 1, "line 9: OutOfRange\n", ""),
    ("cut 0 4 0\nend\n", 1, "line 9: OutOfRange\n", ""),
    ("cut 0 0 2\nend\n", 1, "line 9: OutOfRange\n", ""),
    (
        "cut 0 18446744073709551616 0\nend\n",
        1,
        "line 9: OutOfRange\n",
        "",
    ),
    ("stop 0\n", 1, "1 recovered 0\nline 10: NoEnd\n", ""),
    ("end\nend\n", 1, "line 10: AfterEnd\n", ""),
];

// The ways to cut an act off that lose it: how many calls of the disk pass, and whether what wasn't synced stays.
const LOSING: &[&str] = &["0 0", "0 1", "1 0", "1 1", "2 0", "2 1", "3 0"];

// Each input of a site: the header, the acts before, the site, the act that hands it over, its answer, and how many
// inputs the site then has.
const INPUTS: &[(&str, &str, &str, &str, &str, u64)] = &[
    (HEADER, "", "0", "tick 0 0 8", "ticked 8", 1),
    (HEADER, "", "0", "write a x v", "wrote 1.0.0", 1),
    (HEADER, "write a x v\n", "0", "read a x", "read 1.0.0 v", 2),
    (HEADER, "write a x v\n", "0", "move a 1", "moved 2.0.0", 2),
    (HEADER, "leave a\n", "0", "attach a 0", "attached", 1),
    (
        HEADER,
        "write a x v\n",
        "0",
        "gather 0",
        "gathered 1 stable 1",
        2,
    ),
    (
        HEADER,
        "write a x v\ngather 0\n",
        "0",
        "emit 0",
        "emitted update 1.0.0",
        3,
    ),
    (
        HEADER,
        "tick 0 0 8\ngather 0\n",
        "0",
        "pulse 0",
        "pulsed 8.0.65534",
        3,
    ),
    (
        HEADER,
        "write a x v\ngather 0\nemit 0\nhop 1 s0 z0\nbulk 0 0 1\n",
        "1",
        "turn 1",
        "shown x 1.0.0",
        2,
    ),
    (
        HEADER,
        "write a x v\n",
        "1",
        "bulk 0 0 1",
        "brought x 1.0.0",
        1,
    ),
    (HEADER, "", "0", "beat 0 1", "beat 0", 1),
    (HEADER, "beat 0 1\n", "1", "beatin 0 1 0", "taken", 1),
    (
        STAMPS,
        "write a x v\ngather 0\nemit 0\nbulk 0 0 1\nbeat 0 1\nbeatin 0 1 0\n",
        "1",
        "stamp 1",
        "shown x 1.0.0",
        3,
    ),
    (TWO_TREES, "", "0", "close 0", "closed 1 0.0.65535", 1),
    (TWO_TREES, "close 1\n", "1", "fall 1", "fallen", 2),
    (
        TWO_TREES,
        "close 0\nclose 1\nhop 1 s0 z0\nturn 1\n",
        "1",
        "advance 1",
        "view 2",
        3,
    ),
];

// What `durable` says of a script, and its status.
fn lasted(alloc: Global, header: &str, lines: &str, room: usize) -> Result<(u8, CleanSink), Fail> {
    let mut words = Vec::new(alloc);
    words.push(String::from_str(alloc, "durable")?)?;
    let mut script = header.as_bytes().to_vec(alloc)?;
    script.extend_from_slice(lines.as_bytes())?;
    let (status, sink) = still_in_memory(alloc, words.as_slice(), script, 7, room)?;
    Ok((status, sink))
}

#[test]
fn sites_that_stop_have_their_answers(rt: HostRuntime) -> Result<(), Fail> {
    let alloc = rt.alloc();
    for (lines, wanted, answers, ending) in SCRIPTS {
        let (status, sink) = lasted(alloc, HEADER, lines, ROOM)?;
        let mut output = answers.as_bytes().to_vec(alloc)?;
        output.extend_from_slice(ending.as_bytes())?;
        assert_eq!(rt; status, *wanted);
        assert_eq!(rt; sink.held(), output.as_slice());
    }
    Ok(())
}

// The lines in which an act at a site is cut off in each way, the last of which keeps it, and then the site stops.
fn cut_off(alloc: Global, before: &str, site: &str, act: &str) -> Result<String, Fail> {
    let mut lines = String::from_str(alloc, before)?;
    for losing in LOSING {
        write!(lines, "cut {site} {losing}\n{act}\n")?;
    }
    write!(lines, "cut {site} 3 1\n{act}\nstop {site}\nend\n")?;
    Ok(lines)
}

// What these lines are answered, behind so many.
fn cut_answers(alloc: Global, before: u64, answer: &str, inputs: u64) -> Result<String, Fail> {
    let mut answers = String::new(alloc);
    let mut number = before;
    for _ in LOSING {
        let cut = number.saturating_add(1);
        number = number.saturating_add(2);
        write!(answers, "{cut} armed\n{number} stopped without\n")?;
    }
    let cut = number.saturating_add(1);
    let kept = number.saturating_add(2);
    let stop = number.saturating_add(3);
    write!(
        answers,
        "{cut} armed\n{kept} stopped {answer}\n{stop} recovered {inputs}\n"
    )?;
    Ok(answers)
}

#[test]
fn each_input_is_cut_off_in_each_way(rt: HostRuntime) -> Result<(), Fail> {
    let alloc = rt.alloc();
    for (header, before, site, act, answer, inputs) in INPUTS {
        let lines = cut_off(alloc, before, site, act)?;
        let answers = cut_answers(alloc, before.lines().count() as u64, answer, *inputs)?;
        let (status, sink) = lasted(alloc, header, lines.as_str(), ROOM)?;
        let said = str::from_utf8(sink.held()).unwrap_or("no text");
        assert_eq!(rt; status, 0, "{act}");
        assert!(rt; said.contains(answers.as_str()), "{act}: {said}");
    }
    Ok(())
}

// A site that has ten thousand inputs is made again from all of them, and once more behind one that is cut off.
const LONG_ENDING: &str =
    "\n10001 recovered 10000\n10002 armed\n10003 stopped without\n10004 recovered 10000\nholdings\nsite 0 view 1 emission 1 tree waiting 0\nitem x none\nsite 1 view 1 emission 1 tree waiting 0\nitem x none\ndone\n";

#[test]
fn a_long_journal_is_read_again(rt: HostRuntime) -> Result<(), Fail> {
    let alloc = rt.alloc();
    let mut lines = String::new(alloc);
    for _ in 0..10_000u32 {
        lines.push_str("gather 0\n")?;
    }
    lines.push_str("stop 0\ncut 0 2 1\ngather 0\nstop 0\nend\n")?;
    let (status, sink) = lasted(alloc, HEADER, lines.as_str(), 1_048_576)?;
    assert_eq!(rt; status, 0);
    assert!(rt; sink.held().ends_with(LONG_ENDING.as_bytes()));
    Ok(())
}
