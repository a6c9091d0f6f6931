//! Nodes on threads, through the program. What is expected holds of every schedule.
use sat_label::NodeName;
use sat_live::live_over;
use sat_outside::{CleanSink, CleanSource, FreeGate, Gate};
use sat_stream::{Script, read_script};
use sat_top::{saturn, still_in_memory};
use std::alloc::Global;
use std::sync::Wait;
use std::sync::atomic::{AtomicU64, Ordering};
use std::test::Fail;
use std::thread;
use std::thread::Threads;
use std::time::Clock;

// How often a hold looks before it runs out.
const MOST_TURNS: u64 = 100_000_000;

const ROOM: usize = 65_536;

const THREE_SITES: &str =
    "saturn 1\nsites 3\ngears 1\nitem x 0,2\nitem y 1,2\nclient a 0\nclient b 1\nplan tree - / 0 0 0\nbegin\nwrite a x X\nwrite b y Y1\nwrite b y Y2\nend\n";

const TWO_GEARS: &str =
    "saturn 1\nsites 2\ngears 2\nitem x 0,1\nclient a 0\nplan tree - / 0 0\nbegin\nwrite a x 1\nwrite a x 2\nend\n";

// What each of its two sites holds in the end.
const BOTH_HOLD: &[(&str, &str)] = &[
    ("site 0 view 1 emission 1 tree", " waiting 0"),
    ("item x ", " 2"),
    ("site 1 view 1 emission 1 tree", " waiting 0"),
    ("item x ", " 2"),
    ("done", ""),
];

// What each site holds in the end: how a line begins, and how it ends.
const HOLDINGS: &[(&str, &str)] = &[
    ("site 0 view 1 emission 1 tree", " waiting 0"),
    ("item x ", " X"),
    ("site 1 view 1 emission 1 tree", " waiting 0"),
    ("item y ", " Y2"),
    ("site 2 view 1 emission 1 tree", " waiting 0"),
    ("item x ", " X"),
    ("item y ", " Y2"),
    ("done", ""),
];

// Holds a client after its first answer until a node is inside its lock, and that node there until the client has its
// second answer. So a run on one thread, or under one lock round the node and all that the client asks, makes a hold
// run out.
#[derive(Drop)]
struct Holds {
    client: u16,
    node: NodeName,
    inside: AtomicU64,
    answers: AtomicU64,
    ran_out: AtomicU64,
}

impl Holds {
    fn of(client: u16, node: NodeName) -> Holds {
        Holds {
            client,
            node,
            inside: AtomicU64::new(0),
            answers: AtomicU64::new(0),
            ran_out: AtomicU64::new(0),
        }
    }

    fn until(&self, word: &AtomicU64, least: u64) {
        for _ in 0..MOST_TURNS {
            if word.load(Ordering::SeqCst) >= least {
                return;
            }
            thread::yield_now();
        }
        self.ran_out.store(1, Ordering::SeqCst);
    }
}

impl Gate for Holds {
    fn inside(&self, node: NodeName) {
        if node.is_same(&self.node) {
            self.inside.store(1, Ordering::SeqCst);
            self.until(&self.answers, 2);
        }
    }

    fn answered(&self, client: u16, count: u64) {
        if client == self.client {
            self.answers.store(count, Ordering::SeqCst);
            if count == 1 {
                self.until(&self.inside, 1);
            }
        }
    }
}

fn word(alloc: Global, text: &str) -> Result<Vec<String>, Fail> {
    let mut words = Vec::new(alloc);
    words.push(String::from_str(alloc, text)?)?;
    Ok(words)
}

// The status and the output of a script at nodes on threads.
fn lived<R: AllocGlobal + Threads + Wait + Clock + Sync, G: Gate>(
    rt: &R,
    text: &str,
    gate: &G,
) -> Result<(u8, CleanSink), Fail> {
    let alloc = rt.alloc();
    let words = word(alloc, "live")?;
    let mut source = CleanSource::new(text.as_bytes().to_vec(alloc)?, 7);
    let mut sink = CleanSink::with_room(alloc, 7, ROOM)?;
    let status = saturn(rt, words.as_slice(), &mut source, &mut sink, gate);
    Ok((status, sink))
}

// What `run` prints of a script.
fn ran(alloc: Global, script: &str) -> Result<CleanSink, Fail> {
    let words = word(alloc, "run")?;
    let mut text = script.as_bytes().to_vec(alloc)?;
    text.extend_from_slice(b"\nend\n")?;
    let (status, sink) = still_in_memory(alloc, words.as_slice(), text, 7, ROOM)?;
    if status != 0 {
        return Err("the history is no script".into());
    }
    Ok(sink)
}

// The report behind the script of a history. `run` prints the same of that script.
fn report_of<'a>(alloc: Global, output: &'a [u8]) -> Result<&'a str, Fail> {
    let Ok(text) = str::from_utf8(output) else {
        return Err("the output is no text".into());
    };
    let Some((script, report)) = text.split_once("\nend\n") else {
        return Err("there is no script".into());
    };
    let again = ran(alloc, script)?;
    if again.held() != report.as_bytes() {
        return Err("run prints another report".into());
    }
    Ok(report)
}

fn lines_hold(report: &str, wanted: &[(&str, &str)]) -> bool {
    let Some((_, holdings)) = report.split_once("holdings\n") else {
        return false;
    };
    let mut lines = holdings.lines();
    for (front, end) in wanted {
        match lines.next() {
            Some(line) => {
                if !line.starts_with(*front) || !line.ends_with(*end) {
                    return false;
                }
            }
            None => return false,
        }
    }
    lines.next().is_none()
}

// The holdings of a script at nodes on threads, in which this client and this node are held.
fn held<R: AllocGlobal + Threads + Wait + Clock + Sync>(
    rt: &R,
    script: &str,
    holds: &Holds,
    wanted: &[(&str, &str)],
) -> Result<bool, Fail> {
    let (status, sink) = lived(rt, script, holds)?;
    if status != 0 || holds.ran_out.load(Ordering::SeqCst) != 0 {
        return Ok(false);
    }
    let report = report_of(rt.alloc(), sink.held())?;
    Ok(lines_hold(report, wanted))
}

#[test]
fn clients_and_nodes_go_side_by_side(rt: HostRuntime) -> Result<(), Fail> {
    let serializer = NodeName::Serializer {
        epoch: 1,
        number: 0,
    };
    assert!(rt; held(&rt, THREE_SITES, &Holds::of(1, serializer), HOLDINGS)?);
    Ok(())
}

// Client a writes at a gear of site 0 while that site's hub is held in a gather.
#[test]
fn a_client_writes_while_its_hub_gathers(rt: HostRuntime) -> Result<(), Fail> {
    assert!(rt; held(&rt, TWO_GEARS, &Holds::of(0, NodeName::Site(0)), BOTH_HOLD)?);
    Ok(())
}

// Scripts, and what stands in their reports, in this order under every schedule: whether the update is emitted before
// the close or after it is the schedule's.
const WHOLE: &[(&str, &[&str])] = &[
    (
        "saturn 1\nsites 2\ngears 1\nitem x 0,1\nclient a 0\nplan tree - / 0 0\nplan tree - / 0 0\nbegin\nclose 0\nend\n",
        &[" closed 1 "],
    ),
    (
        "saturn 1\nsites 2\ngears 1\nitem x 0,1\nclient a 0\nplan tree - / 0 0\nplan tree - / 0 0\nbegin\nwrite a x v\nclose 0\nend\n",
        &[" emitted update "],
    ),
    (
        "saturn 1\nsites 2\ngears 1\nitem x 0,1\nclient a 0\nclient b 1\nplan tree - / 0 0\nbegin\nmove a 1\nattach a 1\nread a x\nend\n",
        &[" attached\n", " read none\n"],
    ),
    // A write of several items of two gears, which the other site shows at once, and one of items of one gear.
    (
        "saturn 2\nsites 2\ngears 2\nitem w 0,1\nitem x 0,1\nitem y 0,1\nclient a 0\nplan tree - / 0 0\nbegin\nwrites a w 1 x 2\nwrites a w 3 y 4\nread a x\nread a y\nend\n",
        &[
            " shown w,x ",
            " shown w,y ",
            "item w ",
            " 3\n",
            "item w ",
            " 3\n",
        ],
    ),
    // Two clients write, while the operator switches from one tree to another, kills the first one and has both sites
    // fall.
    (
        "saturn 1\nsites 2\ngears 1\nitem x 0,1\nclient a 0\nclient b 1\nplan tree - / 0 0\nplan tree - / 0 0\nbegin\nclose 0\nclose 1\nkill 1 z0\nfall 0\nfall 1\nwrite a x v\nwrite b x w\nwrite a x v\nwrite b x w\nwrite a x v\nwrite b x w\nwrite a x v\nwrite b x w\nwrite a x v\nwrite b x w\nwrite a x v\nwrite b x w\nwrite a x v\nwrite b x w\nwrite a x v\nwrite b x w\nwrite a x v\nwrite b x w\nwrite a x v\nwrite b x w\nwrite a x v\nwrite b x w\nwrite a x v\nwrite b x w\nwrite a x v\nwrite b x w\nwrite a x v\nwrite b x w\nwrite a x v\nwrite b x w\nwrite a x v\nwrite b x w\nwrite a x v\nwrite b x w\nwrite a x v\nwrite b x w\nwrite a x v\nwrite b x w\nwrite a x v\nwrite b x w\nend\n",
        &[" closed 1 ", " closed 1 ", " killed\n"],
    ),
];

#[test]
fn scripts_are_done_whole(rt: HostRuntime) -> Result<(), Fail> {
    for (script, parts) in WHOLE {
        let (status, sink) = lived(&rt, script, &FreeGate)?;
        assert_eq!(rt; status, 0);
        let report = report_of(rt.alloc(), sink.held())?;
        let mut rest = report;
        for part in *parts {
            let Some((_, behind)) = rest.split_once(*part) else {
                return Err("an answer is missing".into());
            };
            rest = behind;
        }
    }
    Ok(())
}

// Links on which one message stands: what comes behind it waits at its sender.
#[test]
fn full_links_come_to_an_end(rt: HostRuntime) -> Result<(), Fail> {
    let alloc = rt.alloc();
    let Ok(script) = read_script(alloc, THREE_SITES.as_bytes(), true) else {
        return Err("the script is no script".into());
    };
    let Script { deployment, acts } = script;
    let told = live_over(&rt, alloc, deployment, acts.as_slice(), &FreeGate, 1)?;
    assert_eq!(rt; told.status, 0);
    let report = report_of(alloc, told.text.as_slice())?;
    assert!(rt; lines_hold(report, HOLDINGS));
    Ok(())
}

#[test]
fn a_bad_line_is_told_alone(rt: HostRuntime) -> Result<(), Fail> {
    let (status, sink) = lived(
        &rt,
        "saturn 1\nsites 2\ngears 1\nplan stamp\nbegin\ngather 0\nend\n",
        &FreeGate,
    )?;
    assert_eq!(rt; status, 1);
    assert_eq!(rt; sink.held(), b"line 6: NotLive\n".as_slice());
    Ok(())
}
