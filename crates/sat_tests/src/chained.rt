//! Serializers as chains of replicas, through the program: each script with its output, worked out by hand.
use crate::rows::HEADER;
use sat_outside::CleanSink;
use sat_top::still_in_memory;
use std::alloc::Global;
use std::test::Fail;

const ROOM: usize = 4096;

// One update from site 0, at the first link.
const SENT: &str = "write a x v\ngather 0\nemit 0\n";

const WAS_SENT: &str = "1 wrote 1.0.0\n2 gathered 1 stable 1\n3 emitted update 1.0.0\n";

const AT_SITE_0: &str =
    "holdings\nsite 0 view 1 emission 1 tree waiting 0\nitem x 1.0.0 v\nsite 1 view 1 emission 1 tree waiting 0\nitem x none\ndone\n";

const AT_BOTH: &str =
    "holdings\nsite 0 view 1 emission 1 tree waiting 0\nitem x 1.0.0 v\nsite 1 view 1 emission 1 tree waiting 0\nitem x 1.0.0 v\ndone\n";

// How many replicas each serializer has, the lines behind those of the update, the status, their answers, and what
// stands behind these.
const AFTER_AN_UPDATE: &[(&str, &str, u8, &str, &str)] = &[
    // A head that crashes is followed by the next replica, which takes the label in anew; the last one is the
    // serializer's end.
    (
        "2",
        "enter 1 s0 z0\napply 1 z0\ncrash 1 z0 0\nenter 1 s0 z0\napply 1 z0\ncrash 1 z0 1\nenter 1 s0 z0\nturn 1\nend\n",
        0,
        "4 entered update 1.0.0\n5 refused Empty\n6 crashed\n7 entered update 1.0.0\n8 hopped update 1.0.0 to s1\n9 crashed\n10 refused Dead\n11 refused NoPayload 1.0.0\n",
        AT_SITE_0,
    ),
    // A tail that crashes after it let a label take effect: the new one does not do that again.
    (
        "2",
        "enter 1 s0 z0\npass 1 z0 0\npass 1 z0 0\npass 1 z0 1\napply 1 z0\ncrash 1 z0 1\napply 1 z0\npass 1 z0 1\nend\n",
        0,
        "4 entered update 1.0.0\n5 passed update 1.0.0\n6 refused Empty\n7 refused Last\n8 hopped update 1.0.0 to s1\n9 crashed\n10 refused Empty\n11 refused Crashed\n",
        AT_SITE_0,
    ),
    // One replica is what a hop was: in, and out.
    (
        "1",
        "pass 1 z0 0\nenter 1 s0 z0\nenter 1 s0 z0\napply 1 z0\napply 1 z0\nbulk 0 0 1\nturn 1\nend\n",
        0,
        "4 refused Last\n5 entered update 1.0.0\n6 refused Empty\n7 hopped update 1.0.0 to s1\n8 refused Empty\n9 brought x 1.0.0\n10 shown x 1.0.0\n",
        AT_BOTH,
    ),
    // The middle one of three crashes with a label that the tail has not: the head hands it on to the tail.
    (
        "3",
        "enter 1 s0 z0\npass 1 z0 0\ncrash 1 z0 1\npass 1 z0 0\npass 1 z0 0\ncrash 1 z0 0\napply 1 z0\npass 1 z0 2\nenter 1 s0 z0\nend\n",
        0,
        "4 entered update 1.0.0\n5 passed update 1.0.0\n6 crashed\n7 passed update 1.0.0\n8 refused Empty\n9 crashed\n10 hopped update 1.0.0 to s1\n11 refused Last\n12 refused Empty\n",
        AT_SITE_0,
    ),
    // Five replicas: whichever crashes, the next living one goes on with what stands before it.
    (
        "5",
        "enter 1 s0 z0\npass 1 z0 0\npass 1 z0 1\ncrash 1 z0 2\npass 1 z0 1\npass 1 z0 3\ncrash 1 z0 0\ncrash 1 z0 3\napply 1 z0\ncrash 1 z0 4\napply 1 z0\npass 1 z0 1\ncrash 1 z0 1\napply 1 z0\nend\n",
        0,
        "4 entered update 1.0.0\n5 passed update 1.0.0\n6 passed update 1.0.0\n7 crashed\n8 passed update 1.0.0\n9 passed update 1.0.0\n10 crashed\n11 crashed\n12 hopped update 1.0.0 to s1\n13 crashed\n14 refused Empty\n15 refused Last\n16 crashed\n17 refused Dead\n",
        AT_SITE_0,
    ),
    // Each refusal of a chain of which nothing lives.
    (
        "2",
        "crash 1 z0 0\ncrash 1 z0 0\npass 1 z0 0\ncrash 1 z0 1\nenter 1 s0 z0\npass 1 z0 0\napply 1 z0\ncrash 1 z0 1\nend\n",
        0,
        "4 crashed\n5 refused Crashed\n6 refused Crashed\n7 crashed\n8 refused Dead\n9 refused Dead\n10 refused Dead\n11 refused Crashed\n",
        AT_SITE_0,
    ),
    // What serializers do in other scripts, a settle, replicas that there are not, and nodes that are no neighbours.
    ("2", "hop 1 s0 z0\nend\n", 1, "line 12: BadAct\n", ""),
    ("2", "kill 1 z0\nend\n", 1, "line 12: BadAct\n", ""),
    ("2", "settle\nend\n", 1, "line 12: BadAct\n", ""),
    ("2", "enter 1 s0\nend\n", 1, "line 12: BadAct\n", ""),
    ("2", "pass 1 z0 2\nend\n", 1, "line 12: OutOfRange\n", ""),
    ("5", "crash 1 z0 5\nend\n", 1, "line 12: OutOfRange\n", ""),
    (
        "2",
        "crash 1 z0 18446744073709551616\nend\n",
        1,
        "line 12: OutOfRange\n",
        "",
    ),
    ("2", "apply 2 z0\nend\n", 1, "line 12: OutOfRange\n", ""),
    ("2", "apply 1 z1\nend\n", 1, "line 12: OutOfRange\n", ""),
    (
        "2",
        "apply 1 z0\n",
        1,
        "4 refused Empty\nline 13: NoEnd\n",
        "",
    ),
    ("2", "end\nend\n", 1, "line 13: AfterEnd\n", ""),
];

// A tree of serializers 0 and 1, with sites 0 and 1 at the first and site 2 at the second.
const TWO_SERIALIZERS: &str =
    "saturn 1\nsites 3\ngears 1\nitem x 0,1,2\nclient a 0\nclient b 1\nplan tree - 0 / 0 0 1\nbegin\n";

// A tree of serializers 1 and 2 on serializer 0, with site 0 at the one and sites 1 and 2 at the other.
const THREE_SERIALIZERS: &str =
    "saturn 1\nsites 3\ngears 1\nitem x 0,1,2\nclient a 0\nclient b 1\nplan tree - 0 0 / 1 2 2\nbegin\n";

// A path of as many serializers as a tree may have.
const LONGEST_PATH: &str =
    "saturn 1\nsites 2\ngears 1\nitem x 0,1\nplan tree - 0 1 2 3 4 5 6 7 8 9 10 11 12 13 / 0 14\nbegin\n";

// Headers, replicas and acts with whole outputs.
const SCRIPTS: &[(&str, &str, &str, &str)] = &[
    // Labels of two neighbours: a new tail tells by what stands on its outgoing links, and by what was taken from them,
    // that it has to go on with the second.
    (
        HEADER,
        "2",
        "write a x v\nwrite b x w\ngather 0\ngather 1\nemit 0\nemit 1\nenter 1 s0 z0\nenter 1 s1 z0\npass 1 z0 0\npass 1 z0 0\napply 1 z0\nbulk 0 0 1\nturn 1\ncrash 1 z0 1\napply 1 z0\napply 1 z0\nend\n",
        "1 wrote 1.0.0\n2 wrote 1.1.0\n3 gathered 1 stable 1\n4 gathered 1 stable 1\n5 emitted update 1.0.0\n6 emitted update 1.1.0\n7 entered update 1.0.0\n8 entered update 1.1.0\n9 passed update 1.0.0\n10 passed update 1.1.0\n11 hopped update 1.0.0 to s1\n12 brought x 1.0.0\n13 shown x 1.0.0\n14 crashed\n15 hopped update 1.1.0 to s0\n16 refused Empty\nholdings\nsite 0 view 1 emission 1 tree waiting 0\nitem x 1.0.0 v\nsite 1 view 1 emission 1 tree waiting 0\nitem x 1.1.0 w\ndone\n",
    ),
    // A head that crashes takes its order with it: the next one takes the labels in in another.
    (
        HEADER,
        "2",
        "write a x v\nwrite b x w\ngather 0\ngather 1\nemit 0\nemit 1\nenter 1 s0 z0\nenter 1 s1 z0\ncrash 1 z0 0\nenter 1 s1 z0\nenter 1 s0 z0\napply 1 z0\napply 1 z0\nend\n",
        "1 wrote 1.0.0\n2 wrote 1.1.0\n3 gathered 1 stable 1\n4 gathered 1 stable 1\n5 emitted update 1.0.0\n6 emitted update 1.1.0\n7 entered update 1.0.0\n8 entered update 1.1.0\n9 crashed\n10 entered update 1.1.0\n11 entered update 1.0.0\n12 hopped update 1.1.0 to s0\n13 hopped update 1.0.0 to s1\nholdings\nsite 0 view 1 emission 1 tree waiting 0\nitem x 1.0.0 v\nsite 1 view 1 emission 1 tree waiting 0\nitem x 1.1.0 w\ndone\n",
    ),
    // One serializer's last replica crashes while a label waits at it: beyond it nothing comes, and the other
    // serializer lives on.
    (
        TWO_SERIALIZERS,
        "2",
        "write a x v\ngather 0\nemit 0\nenter 1 s0 z0\npass 1 z0 0\napply 1 z0\nenter 1 z0 z1\ncrash 1 z1 1\ncrash 1 z1 0\napply 1 z1\nwrite a x w\ngather 0\nemit 0\nenter 1 s0 z0\ncrash 1 z0 1\napply 1 z0\nenter 1 z0 z1\nbulk 0 0 1\nbulk 0 0 1\nturn 1\nturn 1\nturn 2\nend\n",
        "1 wrote 1.0.0\n2 gathered 1 stable 1\n3 emitted update 1.0.0\n4 entered update 1.0.0\n5 passed update 1.0.0\n6 hopped update 1.0.0 to s1,z1\n7 entered update 1.0.0\n8 crashed\n9 crashed\n10 refused Dead\n11 wrote 2.0.0\n12 gathered 1 stable 2\n13 emitted update 2.0.0\n14 entered update 2.0.0\n15 crashed\n16 hopped update 2.0.0 to s1,z1\n17 refused Dead\n18 brought x 1.0.0\n19 brought x 2.0.0\n20 shown x 1.0.0\n21 shown x 2.0.0\n22 refused Empty\nholdings\nsite 0 view 1 emission 1 tree waiting 0\nitem x 2.0.0 w\nsite 1 view 1 emission 1 tree waiting 0\nitem x 2.0.0 w\nsite 2 view 1 emission 1 tree waiting 0\nitem x none\ndone\n",
    ),
    // On its way through three serializers a label outlives the middle replica of the first, the head of the second,
    // and then that one's tail; of the third all replicas crash.
    (
        THREE_SERIALIZERS,
        "3",
        "write a x v\ngather 0\nemit 0\nenter 1 s0 z1\npass 1 z1 0\ncrash 1 z1 1\npass 1 z1 0\napply 1 z1\nenter 1 z1 z0\ncrash 1 z0 0\nenter 1 z1 z0\npass 1 z0 1\napply 1 z0\ncrash 1 z0 2\napply 1 z0\nenter 1 z0 z2\ncrash 1 z2 0\ncrash 1 z2 1\ncrash 1 z2 2\napply 1 z2\nenter 1 z0 z2\nwrite a x w\ngather 0\nemit 0\nenter 1 s0 z1\npass 1 z1 0\napply 1 z1\nenter 1 z1 z0\napply 1 z0\nend\n",
        "1 wrote 1.0.0\n2 gathered 1 stable 1\n3 emitted update 1.0.0\n4 entered update 1.0.0\n5 passed update 1.0.0\n6 crashed\n7 passed update 1.0.0\n8 hopped update 1.0.0 to z0\n9 entered update 1.0.0\n10 crashed\n11 entered update 1.0.0\n12 passed update 1.0.0\n13 hopped update 1.0.0 to z2\n14 crashed\n15 refused Empty\n16 entered update 1.0.0\n17 crashed\n18 crashed\n19 crashed\n20 refused Dead\n21 refused Dead\n22 wrote 2.0.0\n23 gathered 1 stable 2\n24 emitted update 2.0.0\n25 entered update 2.0.0\n26 passed update 2.0.0\n27 hopped update 2.0.0 to z0\n28 entered update 2.0.0\n29 hopped update 2.0.0 to z2\nholdings\nsite 0 view 1 emission 1 tree waiting 0\nitem x 2.0.0 w\nsite 1 view 1 emission 1 tree waiting 0\nitem x none\nsite 2 view 1 emission 1 tree waiting 0\nitem x none\ndone\n",
    ),
    // The last serializer and the last replica that there may be.
    (
        LONGEST_PATH,
        "5",
        "crash 1 z14 4\nenter 1 z13 z14\npass 1 z14 3\nenter 1 s1 z14\nend\n",
        "1 crashed\n2 refused Empty\n3 refused Last\n4 refused Empty\nholdings\nsite 0 view 1 emission 1 tree waiting 0\nitem x none\nsite 1 view 1 emission 1 tree waiting 0\nitem x none\ndone\n",
    ),
];

// What `chain` says of a script, and its status.
fn chained(
    alloc: Global,
    replicas: &str,
    header: &str,
    lines: &str,
    more: &str,
) -> Result<(u8, CleanSink), Fail> {
    let mut words = Vec::new(alloc);
    words.push(String::from_str(alloc, "chain")?)?;
    words.push(String::from_str(alloc, replicas)?)?;
    let mut script = header.as_bytes().to_vec(alloc)?;
    script.extend_from_slice(lines.as_bytes())?;
    script.extend_from_slice(more.as_bytes())?;
    let (status, sink) = still_in_memory(alloc, words.as_slice(), script, 7, ROOM)?;
    Ok((status, sink))
}

#[test]
fn chains_have_their_answers(rt: HostRuntime) -> Result<(), Fail> {
    let alloc = rt.alloc();
    for (replicas, lines, wanted, answers, ending) in AFTER_AN_UPDATE {
        let (status, sink) = chained(alloc, replicas, HEADER, SENT, lines)?;
        let mut output = WAS_SENT.as_bytes().to_vec(alloc)?;
        output.extend_from_slice(answers.as_bytes())?;
        output.extend_from_slice(ending.as_bytes())?;
        assert_eq!(rt; status, *wanted);
        assert_eq!(rt; sink.held(), output.as_slice());
    }
    for (header, replicas, lines, output) in SCRIPTS {
        let (status, sink) = chained(alloc, replicas, header, lines, "")?;
        assert_eq!(rt; status, 0);
        assert_eq!(rt; sink.held(), output.as_bytes());
    }
    Ok(())
}
