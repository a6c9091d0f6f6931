//! What is read of texts, at once and in pieces, and at the limits. What is expected was worked out by hand from the
//! table of causes.
use sat_act::{Act, Answer, Deployment, Entry};
use sat_label::{Items, Kind, Label, Point};
use sat_report::write_answer;
use sat_script::{Cause, Line, Reader, ScriptFault, write_script};
use sat_stream::{Reading, Script, ScriptReader, read_script};
use std::alloc::{AllocError, Global};
use std::test::Fail;

const HEADER: &str =
    "saturn 1\nsites 2\ngears 1\nitem x 0,1\nclient a 0\nclient b 1\nplan tree - / 0 0\nbegin\n";

const PLAIN: &str =
    "saturn 1\nsites 2\ngears 1\nitem x 0,1\nclient a 0\nclient b 1\nplan tree - / 0 0\nbegin\nwrite a x hello\ngather 0\nemit 0\nhop 1 s0 z0\nbulk 0 0 1\nturn 1\nread b x\nend\n";

const WIDE: &str =
    "saturn 1\nsites 16\ngears 8\nitem p 0,2,15\nitem q-1.z 1\nitem r 0,1,2,3,4,5,6,7,8,9,10,11,12,13,14,15\nclient C 2\nclient d_ 15\nplan tree - 0 0 2 / 0 0 1 1 2 2 3 3 0 0 1 1 2 2 3 3\nplan stamp\nplan tree - / 0 0 0 0 0 0 0 0 0 0 0 0 0 0 0 0\nbegin\ntick 15 7 4611686018427387904\nclock\nwrite C q-1.z ->\nread d_ p\ngather 15\nemit 0\nhop 1 s15 z3\nhop 1 z3 z2\nturn 9\nbulk 15 7 0\nbulk 0 0 15 18446744073709551615\nmove C 15\nleave d_\nattach d_ 0\npulse 9\nbeat 0 15\nbeatin 15 0 18446744073709551615\nstamp 3\nclose 4\nfall 5\nadvance 15\nhop 3 s15 z0\nkill 1 z3\nkill 3 z0\nsettle\nend\n";

const SECOND_FORMAT: &str =
    "saturn 2\nsites 2\ngears 1\nitem x 0,1\nclient a 0\nclient b 1\nplan tree - / 0 0\nbegin\n";

const WIDEST: &str =
    "saturn 2\nsites 64\ngears 8\nitem p 0,16,63\nitem q 0,1,2,3,4,5,6,7,8,9,10,11,12,13,14,15,16,17,18,19,20,21,22,23,24,25,26,27,28,29,30,31,32,33,34,35,36,37,38,39,40,41,42,43,44,45,46,47,48,49,50,51,52,53,54,55,56,57,58,59,60,61,62,63\nclient a 63\nplan tree - 0 1 2 3 4 5 6 7 8 9 10 11 12 13 / 0 1 2 3 4 5 6 7 8 9 10 11 12 13 14 14 14 14 14 14 14 14 14 14 14 14 14 14 14 14 14 14 14 14 14 14 14 14 14 14 14 14 14 14 14 14 14 14 14 14 14 14 14 14 14 14 14 14 14 14 14 14 14 14\nbegin\nwrite a q v\nhop 1 s63 z14\nhop 1 z14 z13\nturn 63\nbulk 63 7 62\nbeat 16 63\nkill 1 z14\nend\n";

const GROUPS: &str =
    "saturn 2\nsites 2\ngears 1\nitem x 0,1\nitem y 0,1\nitem z 0\nitem t 1\nclient a 0\nplan tree - / 0 0\nbegin\nwrites a x 1 y 2\nwrites a x one t four\nwrites a x 1 z 3 t 4\nwrites a x 1 y 2 z 3 t 4\nwrite a t 5\nend\n";

// A text that begins with the header of format 1 above.
fn under_header(alloc: Global, lines: &str) -> Result<Vec<u8>, AllocError> {
    let mut text = HEADER.as_bytes().to_vec(alloc)?;
    text.extend_from_slice(lines.as_bytes())?;
    Ok(text)
}

// The fault of a text.
fn fault_of(alloc: Global, text: &[u8], live: bool) -> Option<ScriptFault> {
    match read_script(alloc, text, live) {
        Ok(_) => None,
        Err(fault) => Some(fault),
    }
}

// The fault of a text, which comes the same whatever the size of its pieces.
fn fault_in_pieces(alloc: Global, text: &[u8], size: usize) -> Option<ScriptFault> {
    let mut reader = ScriptReader::new(alloc, false);
    for piece in text.chunks(size.max(1)) {
        if let Err(fault) = reader.feed(piece) {
            return Some(fault);
        }
    }
    let Reading { fault, .. } = reader.finish();
    fault
}

// The text that a script is written as, where it is read.
fn written(alloc: Global, text: &[u8], live: bool) -> Result<Option<Vec<u8>>, AllocError> {
    match read_script(alloc, text, live) {
        Ok(Script { deployment, acts }) => {
            let mut out = Vec::new(alloc);
            write_script(&deployment, acts.as_slice(), &mut out)?;
            Ok(Some(out))
        }
        Err(_) => Ok(None),
    }
}

#[test]
fn good_texts_are_written_back(rt: HostRuntime) -> Result<(), Fail> {
    let alloc = rt.alloc();
    for text in [
        PLAIN,
        WIDE,
        WIDEST,
        GROUPS,
        "saturn 1\nsites 1\ngears 1\nplan tree - / 0\nbegin\nend\n",
    ] {
        let out = written(alloc, text.as_bytes(), false)?;
        assert!(rt;
            matches!(&out, Some(out) if out.as_slice() == text.as_bytes()),
            "of {text}"
        );
    }
    let live =
        "saturn 1\nsites 8\ngears 2\nitem x 7\nclient a 0\nplan tree - / 0 0 0 0 0 0 0 0\nplan stamp\nbegin\nwrite a x v\nread a x\nmove a 7\nleave a\nattach a 0\nclose 0\nfall 7\nkill 1 z0\nend\n";
    for text in [live, GROUPS] {
        let out = written(alloc, text.as_bytes(), true)?;
        assert!(rt;
            matches!(&out, Some(out) if out.as_slice() == text.as_bytes()),
            "on threads, of {text}"
        );
    }
    Ok(())
}

#[test]
fn faults_are_told_at_once_and_in_pieces(rt: HostRuntime) -> Result<(), Fail> {
    let alloc = rt.alloc();
    for (lines, line, cause) in [
        ("end\nx", 10, Cause::AfterEnd),
        ("gather 0\nclo", 10, Cause::NoEnd),
        ("gather 0\r\n", 9, Cause::NotText),
        ("write a  x v\n", 9, Cause::BadAct),
        ("settle\nsettle 0\n", 10, Cause::BadAct),
        ("write d x v\n", 9, Cause::UnknownName),
        ("hop 1 s2 z0\n", 9, Cause::OutOfRange),
        ("hop 1 z0 z0\n", 9, Cause::NoEdge),
        ("writes a x v x w\n", 9, Cause::BadAct),
    ] {
        let text = under_header(alloc, lines)?;
        let want = at(line, cause);
        assert_eq!(rt; fault_of(alloc, &text, false), want, "of {lines}");
        assert_eq!(rt;
            fault_in_pieces(alloc, &text, 5),
            want,
            "in pieces of {lines}"
        );
    }
    Ok(())
}

#[test]
fn nodes_on_threads_have_their_own_limits(rt: HostRuntime) -> Result<(), Fail> {
    let alloc = rt.alloc();
    for (text, line, cause) in [
        ("saturn 1\nsites 9\n", 2, Cause::OutOfRange),
        ("saturn 2\nsites 9\n", 2, Cause::OutOfRange),
        (
            "saturn 2\nsites 2\ngears 1\nitem x 0,1\nitem y 0,1\nitem z 0\nitem t 1\nclient a 0\nplan tree - / 0 0\nbegin\nwrites a x 1 y 2 z 3\nwrites a y 2 x 1\n",
            12,
            Cause::BadGroup,
        ),
        (
            "saturn 2\nsites 2\ngears 1\nitem x 0,1\nitem y 0,1\nitem z 0\nitem t 1\nclient a 0\nplan tree - / 0 0\nbegin\nwrites a x 1 y 2 z 3 t 4 x 5\n",
            11,
            Cause::BadAct,
        ),
        (
            "saturn 1\nsites 2\ngears 1\nitem x 0,1\nclient a 0\nclient b 1\nplan tree - / 0 0\nbegin\ngather 0\n",
            9,
            Cause::NotLive,
        ),
        (
            "saturn 1\nsites 2\ngears 1\nitem x 0,1\nclient a 0\nclient b 1\nplan tree - / 0 0\nbegin\ntick 9 9 9\n",
            9,
            Cause::NotLive,
        ),
        (
            "saturn 1\nsites 2\ngears 1\nitem x 0,1\nclient a 0\nclient b 1\nplan tree - / 0 0\nbegin\nsettle\n",
            9,
            Cause::NotLive,
        ),
        (
            "saturn 1\nsites 2\ngears 1\nclient a 0\nclient b 0\nclient c 0\nclient d 0\nclient e 0\nclient f 0\nclient g 0\nclient h 0\nclient i 0\nclient j 0\nclient k 0\nclient l 0\nclient m 0\nclient n 0\nclient o 0\nclient p 0\nclient a 9\n",
            20,
            Cause::TooMany,
        ),
    ] {
        assert_eq!(rt;
            fault_of(alloc, text.as_bytes(), true),
            Some(ScriptFault { line, cause }),
            "of {text}"
        );
    }
    Ok(())
}

#[test]
fn a_cut_script_ends_too_early(rt: HostRuntime) -> Result<(), Fail> {
    let alloc = rt.alloc();
    let text = PLAIN.as_bytes();
    let mut line = 1u64;
    for at in 0..text.len() {
        let want = Some(ScriptFault {
            line,
            cause: Cause::NoEnd,
        });
        assert_eq!(rt; fault_of(alloc, &text[..at], false), want, "cut at {at}");
        if text[at] == b'\n' {
            line = line.wrapping_add(1);
        }
    }
    Ok(())
}

// A script of so many acts, each of this line, behind a header.
fn many_acts(alloc: Global, header: &str, line: &str, count: u32) -> Result<Vec<u8>, AllocError> {
    let mut text = header.as_bytes().to_vec(alloc)?;
    for _ in 0..count {
        text.extend_from_slice(line.as_bytes())?;
    }
    text.extend_from_slice(b"end\n")?;
    Ok(text)
}

// A header of so many items or clients with names of their own behind its first lines, and then further lines.
fn many_names(
    alloc: Global,
    front: &str,
    word: &str,
    count: u32,
    last: &str,
) -> Result<Vec<u8>, AllocError> {
    let mut text = front.as_bytes().to_vec(alloc)?;
    for number in 0..count {
        text.extend_from_slice(word.as_bytes())?;
        let digits = number.to_string(alloc)?;
        text.extend_from_slice(digits.as_bytes())?;
        text.extend_from_slice(b" 0\n")?;
    }
    text.extend_from_slice(last.as_bytes())?;
    Ok(text)
}

// A script of so many plans.
fn many_plans(alloc: Global, count: u32) -> Result<Vec<u8>, AllocError> {
    let mut text = b"saturn 1\nsites 2\ngears 1\n".as_slice().to_vec(alloc)?;
    for _ in 0..count {
        text.extend_from_slice(b"plan stamp\n")?;
    }
    text.extend_from_slice(b"begin\nend\n")?;
    Ok(text)
}

// A text of one long line.
fn long_line(alloc: Global, length: usize, last: &[u8]) -> Result<Vec<u8>, AllocError> {
    let mut text = Vec::new(alloc);
    for _ in 0..length {
        text.push(b'a')?;
    }
    text.extend_from_slice(last)?;
    Ok(text)
}

// A script that writes one value of this length.
fn long_value(alloc: Global, client: &str, length: usize) -> Result<Vec<u8>, AllocError> {
    let mut text = under_header(alloc, "write ")?;
    text.extend_from_slice(client.as_bytes())?;
    text.extend_from_slice(b" x ")?;
    for _ in 0..length {
        text.push(b'v')?;
    }
    text.extend_from_slice(b"\nend\n")?;
    Ok(text)
}

fn at(line: u64, cause: Cause) -> Option<ScriptFault> {
    Some(ScriptFault { line, cause })
}

// The limits of each format, and those of nodes on threads, which go by no format.
#[test]
fn limits_of_acts_are_exact(rt: HostRuntime) -> Result<(), Fail> {
    let alloc = rt.alloc();
    for (live, header, line, count, want) in [
        (false, HEADER, "gather 0\n", 200000, None),
        (
            false,
            HEADER,
            "gather 0\n",
            200001,
            at(200009, Cause::TooMany),
        ),
        (false, HEADER, "settle\n", 64, None),
        (false, HEADER, "settle\n", 65, at(73, Cause::TooMany)),
        (false, SECOND_FORMAT, "gather 0\n", 30000, None),
        (
            false,
            SECOND_FORMAT,
            "gather 0\n",
            30001,
            at(30009, Cause::TooMany),
        ),
        (false, SECOND_FORMAT, "settle\n", 64, None),
        (false, SECOND_FORMAT, "settle\n", 65, at(73, Cause::TooMany)),
        (true, SECOND_FORMAT, "read a x\n", 4000, None),
        (
            true,
            SECOND_FORMAT,
            "read a x\n",
            4001,
            at(4009, Cause::TooMany),
        ),
    ] {
        assert_eq!(rt;
            fault_of(alloc, &many_acts(alloc, header, line, count)?, live),
            want,
            "{count} lines {line} behind {header}"
        );
    }
    Ok(())
}

// Items go by the format, also for nodes on threads. TooMany comes before all else that is wrong with a line.
#[test]
fn limits_of_names_are_exact(rt: HostRuntime) -> Result<(), Fail> {
    let alloc = rt.alloc();
    let good = "plan tree - / 0 0\nbegin\nend\n";
    let first = "saturn 1\nsites 2\ngears 1\n";
    let second = "saturn 2\nsites 2\ngears 1\n";
    for (live, front, word, count, last, want) in [
        (false, first, "item x", 4096, good, None),
        (false, first, "item x", 4097, "", at(4100, Cause::TooMany)),
        (false, second, "item x", 65535, good, None),
        (
            false,
            second,
            "item x",
            65536,
            "",
            at(65539, Cause::TooMany),
        ),
        (true, second, "item x", 4097, good, None),
        (false, first, "client x", 1024, good, None),
        (
            false,
            first,
            "client x",
            1024,
            "client x0 9\n",
            at(1028, Cause::TooMany),
        ),
        (
            false,
            second,
            "client x",
            1024,
            "client x0 9\n",
            at(1028, Cause::TooMany),
        ),
    ] {
        assert_eq!(rt;
            fault_of(alloc, &many_names(alloc, front, word, count, last)?, live),
            want,
            "{count} lines {word} behind {front}"
        );
    }
    Ok(())
}

#[test]
fn limits_are_exact(rt: HostRuntime) -> Result<(), Fail> {
    let alloc = rt.alloc();
    assert_eq!(rt; fault_of(alloc, &many_plans(alloc, 16)?, false), None);
    assert_eq!(rt;
        fault_of(alloc, &many_plans(alloc, 17)?, false),
        at(20, Cause::TooMany)
    );
    assert_eq!(rt;
        fault_of(alloc, &long_line(alloc, 4096, b"\n")?, false),
        at(1, Cause::BadHeader)
    );
    assert_eq!(rt;
        fault_of(alloc, &long_line(alloc, 4097, b"\n")?, false),
        at(1, Cause::LongLine)
    );
    assert_eq!(rt;
        fault_of(alloc, &long_line(alloc, 4096, b"")?, false),
        at(1, Cause::NoEnd)
    );
    assert_eq!(rt;
        fault_of(alloc, &long_line(alloc, 4097, b"")?, false),
        at(1, Cause::LongLine)
    );
    assert_eq!(rt;
        fault_of(alloc, &long_line(alloc, 4097, b"\t\n")?, false),
        at(1, Cause::LongLine)
    );
    assert_eq!(rt; fault_of(alloc, &long_value(alloc, "a", 256)?, false), None);
    assert_eq!(rt;
        fault_of(alloc, &long_value(alloc, "a", 257)?, false),
        at(9, Cause::OutOfRange)
    );
    assert_eq!(rt;
        fault_of(alloc, &long_value(alloc, "d", 257)?, false),
        at(9, Cause::UnknownName)
    );
    Ok(())
}

#[test]
fn lines_are_told(rt: HostRuntime) -> Result<(), Fail> {
    let alloc = rt.alloc();
    let mut reader = Reader::new(alloc, false);
    for line in [
        "saturn 1",
        "sites 2",
        "gears 1",
        "item x 0,1",
        "client a 0",
        "client b 1",
        "plan tree - / 0 0",
    ] {
        assert!(rt;
            matches!(reader.line(line.as_bytes()), Ok(Line::Header)),
            "at {line}"
        );
    }
    assert!(rt; matches!(reader.line(b"begin".as_slice()), Ok(Line::Begin)));
    assert!(rt;
        matches!(
            reader.line(b"turn 0".as_slice()),
            Ok(Line::Act(Act::Turn { site: 0 }))
        )
    );
    assert!(rt; !reader.has_ended());
    assert!(rt; matches!(reader.line(b"end".as_slice()), Ok(Line::End)));
    assert!(rt; reader.has_ended());
    assert_eq!(rt; reader.close(b"".as_slice()), Ok(()));
    assert_eq!(rt; reader.fault(), None);
    let fault = ScriptFault {
        line: 11,
        cause: Cause::AfterEnd,
    };
    assert!(rt; matches!(reader.line(b"end".as_slice()), Err(first) if first == fault));
    assert_eq!(rt; reader.close(b"".as_slice()), Err(fault));
    assert!(rt; matches!(reader.line(b"turn 0".as_slice()), Err(again) if again == fault));
    assert_eq!(rt; reader.fault(), Some(fault));
    Ok(())
}

#[test]
fn an_entry_is_printed(rt: HostRuntime) -> Result<(), Fail> {
    let alloc = rt.alloc();
    let Ok(script) = read_script(alloc, PLAIN.as_bytes(), false) else {
        return Err("the plain path is refused".into());
    };
    let entry = Entry {
        act: Act::Clock,
        answer: Answer::Clocked(7),
        inner: false,
    };
    let mut line = Vec::new(alloc);
    write_answer(&script.deployment, 3, &entry, &mut line)?;
    assert_eq!(rt; line.as_slice(), b"3 clocked 7\n".as_slice());
    Ok(())
}

// The line of an act that shows an update of some items.
fn shown_by(alloc: Global, d: &Deployment, act: Act, items: Items) -> Result<Vec<u8>, AllocError> {
    let point = Point {
        ts: 1,
        site: 2,
        gear: 0,
    };
    let kind = Kind::Update(items);
    let entry = Entry {
        act,
        answer: Answer::Shown(Label { point, kind }),
        inner: false,
    };
    let mut line = Vec::new(alloc);
    write_answer(d, 8, &entry, &mut line)?;
    Ok(line)
}

#[test]
fn items_that_the_site_keeps_are_named(rt: HostRuntime) -> Result<(), Fail> {
    let alloc = rt.alloc();
    let Ok(script) = read_script(alloc, WIDE.as_bytes(), false) else {
        return Err("the wide script is refused".into());
    };
    let d = &script.deployment;
    let items = Items::Three(0, 1, 2);
    let line = shown_by(alloc, d, Act::Turn { site: 15 }, items)?;
    assert_eq!(rt; line.as_slice(), b"8 shown p,r 1.2.0\n".as_slice());
    let line = shown_by(alloc, d, Act::Stamp { site: 1 }, items)?;
    assert_eq!(rt; line.as_slice(), b"8 shown q-1.z,r 1.2.0\n".as_slice());
    let line = shown_by(alloc, d, Act::Turn { site: 3 }, items)?;
    assert_eq!(rt; line.as_slice(), b"8 shown r 1.2.0\n".as_slice());
    Ok(())
}
