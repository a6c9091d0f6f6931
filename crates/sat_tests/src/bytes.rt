//! Values and the inputs of sites in bytes, against bytes that were laid out by hand.
use sat_beat::Beat;
use sat_bodies::{decode as read_input, encode as write_input, is_allowed};
use sat_bulk::Payload;
use sat_label::{Carried, Counts, Items, Kind, Label, Point, Points, Value, Values};
use sat_site::SiteInput;
use sat_wire::{Cause, DecodeFault, Wire, decode, encode};
use std::alloc::Global;
use std::test::Fail;

fn point(ts: u64, site: u16, gear: u16) -> Point {
    Point { ts, site, gear }
}

fn label(kind: Kind) -> Label {
    Label {
        point: point(9, 1, 0),
        kind,
    }
}

fn carried(moving: Option<u16>) -> Carried {
    Carried {
        point: point(3, 2, 1),
        moving,
    }
}

fn value(alloc: Global, bytes: &[u8]) -> Result<Value, Fail> {
    let value = Value::of(alloc, bytes)?.ok_or("no value")?;
    Ok(value)
}

fn two_values(alloc: Global) -> Result<Values, Fail> {
    let mut values = Vec::new(alloc);
    values.push(value(alloc, b"a")?)?;
    values.push(value(alloc, b"bc")?)?;
    Ok(Values::many(values))
}

// Of two items the site keeps the second alone.
fn payload(alloc: Global) -> Result<Payload, Fail> {
    let parts = [None, Some(value(alloc, b"v")?)];
    let label = label(Kind::Update(Items::Two(0, 3)));
    let payload = Payload::of_parts(alloc, label, &parts)?;
    Ok(payload)
}

fn points(alloc: Global) -> Result<Points, Fail> {
    let mut points = Points::new(alloc);
    points.push(point(2, 2, 0))?;
    Ok(points)
}

fn counts(alloc: Global) -> Result<Counts, Fail> {
    let mut counts = Counts::new(alloc);
    counts.push(5)?;
    counts.push(6)?;
    Ok(counts)
}

fn beat(alloc: Global) -> Result<Beat, Fail> {
    Ok(Beat {
        cut: point(4, 2, 0),
        closes: points(alloc)?,
        counts: counts(alloc)?,
    })
}

// The sixteen inputs by number, and four turns more.
fn given(alloc: Global, number: u16) -> Result<SiteInput, Fail> {
    match number {
        0 => Ok(SiteInput::Tick { gear: 1, ts: 258 }),
        1 => Ok(SiteInput::Write {
            carried: carried(Some(5)),
            items: Items::Two(1, 256),
            values: two_values(alloc)?,
        }),
        2 => Ok(SiteInput::Read {
            carried: carried(None),
            item: 7,
        }),
        3 => Ok(SiteInput::Move {
            carried: carried(None),
            to: 4,
        }),
        4 => Ok(SiteInput::Attach {
            carried: carried(Some(65535)),
        }),
        5 => Ok(SiteInput::Gather),
        6 => Ok(SiteInput::Emit),
        7 => Ok(SiteInput::Pulse),
        8 => Ok(SiteInput::Turn {
            front: Some(label(Kind::Close(2))),
        }),
        9 => Ok(SiteInput::Bulk {
            from: 1,
            gear: 0,
            number: 2,
            payload: payload(alloc)?,
        }),
        10 => Ok(SiteInput::Beat { to: 3 }),
        11 => Ok(SiteInput::BeatIn {
            from: 2,
            number: 1,
            beat: beat(alloc)?,
        }),
        12 => Ok(SiteInput::Stamp),
        13 => Ok(SiteInput::Close),
        14 => Ok(SiteInput::Fall),
        15 => Ok(SiteInput::Advance),
        16 => Ok(SiteInput::Turn { front: None }),
        17 => Ok(SiteInput::Turn {
            front: Some(label(Kind::Update(Items::Three(1, 2, 515)))),
        }),
        18 => Ok(SiteInput::Turn {
            front: Some(label(Kind::Move(1))),
        }),
        _ => Ok(SiteInput::Turn {
            front: Some(label(Kind::Pulse)),
        }),
    }
}

// Their bodies: the input's number in a byte, and its fields in order. Numbers have two or eight bytes, the highest
// first; a point is its timestamp, site and gear; a label its point, the byte of its kind from 0 to 3, and the kind's
// number or its items; an option is 0, or 1 and the value; items, values and parts have their count in a byte, other
// lists in two, and a value its length in two.
fn body(number: u16) -> &'static [u8] {
    match number {
        0 => &[0, 0, 1, 0, 0, 0, 0, 0, 0, 1, 2],
        1 => &[
            1, 0, 0, 0, 0, 0, 0, 0, 3, 0, 2, 0, 1, 1, 0, 5, 2, 0, 1, 1, 0, 2, 0, 1, 97, 0, 2, 98,
            99,
        ],
        2 => &[2, 0, 0, 0, 0, 0, 0, 0, 3, 0, 2, 0, 1, 0, 0, 7],
        3 => &[3, 0, 0, 0, 0, 0, 0, 0, 3, 0, 2, 0, 1, 0, 0, 4],
        4 => &[4, 0, 0, 0, 0, 0, 0, 0, 3, 0, 2, 0, 1, 1, 255, 255],
        5 => &[5],
        6 => &[6],
        7 => &[7],
        8 => &[8, 1, 0, 0, 0, 0, 0, 0, 0, 9, 0, 1, 0, 0, 3, 0, 2],
        9 => &[
            9, 0, 1, 0, 0, 0, 0, 0, 0, 0, 0, 0, 2, 0, 0, 0, 0, 0, 0, 0, 9, 0, 1, 0, 0, 0, 2, 0, 0,
            0, 3, 2, 0, 1, 0, 1, 118,
        ],
        10 => &[10, 0, 3],
        11 => &[
            11, 0, 2, 0, 0, 0, 0, 0, 0, 0, 1, 0, 0, 0, 0, 0, 0, 0, 4, 0, 2, 0, 0, 0, 1, 0, 0, 0, 0,
            0, 0, 0, 2, 0, 2, 0, 0, 0, 2, 0, 0, 0, 0, 0, 0, 0, 5, 0, 0, 0, 0, 0, 0, 0, 6,
        ],
        12 => &[12],
        13 => &[13],
        14 => &[14],
        15 => &[15],
        16 => &[8, 0],
        17 => &[
            8, 1, 0, 0, 0, 0, 0, 0, 0, 9, 0, 1, 0, 0, 0, 3, 0, 1, 0, 2, 2, 3,
        ],
        18 => &[8, 1, 0, 0, 0, 0, 0, 0, 0, 9, 0, 1, 0, 0, 1, 0, 1],
        _ => &[8, 1, 0, 0, 0, 0, 0, 0, 0, 9, 0, 1, 0, 0, 2],
    }
}

// The body of an input behind a byte 200.
fn written(alloc: Global, input: &SiteInput) -> Result<Vec<u8>, Fail> {
    let mut out = Vec::new(alloc);
    out.push(200)?;
    if !is_allowed(input) {
        return Err(Fail::from("not allowed"));
    }
    write_input(input, &mut out)?;
    Ok(out)
}

// That these bytes are read as an input which is written so.
fn read_again(alloc: Global, bytes: &[u8]) -> Result<Vec<u8>, Fail> {
    match read_input(alloc, bytes) {
        Ok(input) => written(alloc, &input),
        Err(_) => Err(Fail::from("not read")),
    }
}

// Why bytes are the body of no input, and at which place.
fn refused(alloc: Global, bytes: &[u8]) -> Result<(Cause, usize), Fail> {
    match read_input(alloc, bytes) {
        Err(DecodeFault::Wrong(wrong)) => Ok((wrong.cause, wrong.place)),
        _ => Err(Fail::from("not refused")),
    }
}

// These bytes behind one, and before another.
fn framed(alloc: Global, before: u8, bytes: &[u8]) -> Result<Vec<u8>, Fail> {
    let mut all = Vec::new(alloc);
    all.push(before)?;
    all.extend_from_slice(bytes)?;
    Ok(all)
}

fn followed(alloc: Global, bytes: &[u8]) -> Result<Vec<u8>, Fail> {
    let mut all = Vec::new(alloc);
    all.extend_from_slice(bytes)?;
    all.push(0)?;
    Ok(all)
}

#[test]
fn inputs_are_spelled(rt: HostRuntime) -> Result<(), Fail> {
    let alloc = rt.alloc();
    for number in 0..20u16 {
        let bytes = body(number);
        let wanted = framed(alloc, 200, bytes)?;
        let input = given(alloc, number)?;
        assert_eq!(rt; written(alloc, &input)?.as_slice(), wanted.as_slice());
        assert_eq!(rt; read_again(alloc, bytes)?.as_slice(), wanted.as_slice());
    }
    Ok(())
}

#[test]
fn parts_of_a_body_are_refused(rt: HostRuntime) -> Result<(), Fail> {
    let alloc = rt.alloc();
    for number in 0..20u16 {
        let bytes = body(number);
        for end in 0..bytes.len() {
            assert_eq!(rt; refused(alloc, &bytes[..end])?, (Cause::Short, end));
        }
        let longer = followed(alloc, bytes)?;
        assert_eq!(rt; refused(alloc, &longer)?, (Cause::Long, bytes.len()));
    }
    Ok(())
}

#[test]
fn other_bytes_are_refused(rt: HostRuntime) -> Result<(), Fail> {
    let alloc = rt.alloc();
    assert_eq!(rt; refused(alloc, &[16])?, (Cause::Form, 0));
    assert_eq!(rt; refused(alloc, &[8, 2])?, (Cause::Flag, 1));
    let kind = [8, 1, 0, 0, 0, 0, 0, 0, 0, 9, 0, 1, 0, 0, 4];
    assert_eq!(rt; refused(alloc, &kind)?, (Cause::Kind, 14));
    let items = [8, 1, 0, 0, 0, 0, 0, 0, 0, 9, 0, 1, 0, 0, 0, 2, 0, 1, 0, 1];
    assert_eq!(rt; refused(alloc, &items)?, (Cause::Items, 15));
    let space = [
        1, 0, 0, 0, 0, 0, 0, 0, 3, 0, 2, 0, 1, 0, 1, 0, 1, 1, 0, 1, 32,
    ];
    assert_eq!(rt; refused(alloc, &space)?, (Cause::Value, 18));
    Ok(())
}

// A value of the most bytes that one has.
fn long_value(alloc: Global) -> Result<Value, Fail> {
    value(alloc, &[126; 256])
}

fn greatest_carried() -> Carried {
    Carried {
        point: greatest_point(),
        moving: Some(65_535),
    }
}

fn greatest_point() -> Point {
    point(18_446_744_073_709_551_615, 65_535, 65_535)
}

fn greatest_items() -> Items {
    Items::Four(65_532, 65_533, 65_534, 65_535)
}

fn greatest_label() -> Label {
    Label {
        point: greatest_point(),
        kind: Kind::Update(greatest_items()),
    }
}

fn many_values(alloc: Global) -> Result<Values, Fail> {
    let mut values = Vec::new(alloc);
    for _ in 0..255u16 {
        values.push(long_value(alloc)?)?;
    }
    Ok(Values::many(values))
}

fn many_parts(alloc: Global) -> Result<Payload, Fail> {
    let mut parts = Vec::new(alloc);
    for _ in 0..255u16 {
        parts.push(Some(long_value(alloc)?))?;
    }
    let payload = Payload::of_parts(alloc, greatest_label(), parts.as_slice())?;
    Ok(payload)
}

fn long_beat(alloc: Global) -> Result<Beat, Fail> {
    let mut closes = Points::new(alloc);
    let mut counts = Counts::new(alloc);
    for _ in 0..65_535u32 {
        closes.push(greatest_point())?;
        counts.push(18_446_744_073_709_551_615)?;
    }
    Ok(Beat {
        cut: greatest_point(),
        closes,
        counts,
    })
}

// The sixteen inputs by number, each with the greatest numbers and the longest lists that have a spelling.
fn greatest(alloc: Global, number: u16) -> Result<SiteInput, Fail> {
    match number {
        0 => Ok(SiteInput::Tick {
            gear: 65_535,
            ts: 18_446_744_073_709_551_615,
        }),
        1 => Ok(SiteInput::Write {
            carried: greatest_carried(),
            items: greatest_items(),
            values: many_values(alloc)?,
        }),
        2 => Ok(SiteInput::Read {
            carried: greatest_carried(),
            item: 65_535,
        }),
        3 => Ok(SiteInput::Move {
            carried: greatest_carried(),
            to: 65_535,
        }),
        4 => Ok(SiteInput::Attach {
            carried: greatest_carried(),
        }),
        8 => Ok(SiteInput::Turn {
            front: Some(greatest_label()),
        }),
        9 => Ok(SiteInput::Bulk {
            from: 65_535,
            gear: 65_535,
            number: 18_446_744_073_709_551_615,
            payload: many_parts(alloc)?,
        }),
        10 => Ok(SiteInput::Beat { to: 65_535 }),
        11 => Ok(SiteInput::BeatIn {
            from: 65_535,
            number: 18_446_744_073_709_551_615,
            beat: long_beat(alloc)?,
        }),
        _ => given(alloc, number),
    }
}

// How long their bodies are. A point has 12 bytes, what a client carries 15, four items 9, a label of four items 22, a
// value of 256 bytes 258, and as a part 259.
fn greatest_size(number: u16) -> usize {
    match number {
        0 => 1 + 2 + 8,
        1 => 1 + 15 + 9 + 1 + 255 * 258,
        2 | 3 => 1 + 15 + 2,
        4 => 1 + 15,
        8 => 1 + 1 + 22,
        9 => 1 + 2 + 2 + 8 + 22 + 1 + 255 * 259,
        10 => 1 + 2,
        11 => 1 + 2 + 8 + 12 + 2 + 65_535 * 12 + 2 + 65_535 * 8,
        _ => 1,
    }
}

#[test]
fn the_greatest_inputs_are_spelled(rt: HostRuntime) -> Result<(), Fail> {
    let alloc = rt.alloc();
    for number in 0..16u16 {
        let input = greatest(alloc, number)?;
        let bytes = written(alloc, &input)?;
        let (_, body) = bytes.split_first().ok_or("nothing")?;
        assert_eq!(rt; body.len(), greatest_size(number));
        assert!(rt; read_again(alloc, body)?.as_slice() == bytes.as_slice());
    }
    Ok(())
}

// One member more has no spelling.
#[test]
fn longer_lists_are_not_allowed(rt: HostRuntime) -> Result<(), Fail> {
    let alloc = rt.alloc();
    let mut beat = long_beat(alloc)?;
    beat.counts.push(0)?;
    assert!(rt;
        !is_allowed(&SiteInput::BeatIn {
            from: 0,
            number: 0,
            beat
        })
    );
    Ok(())
}

// Whether a value is written as these bytes, and what is read of them is written so again.
fn rounds<T: Wire>(alloc: Global, value: &T, bytes: &[u8]) -> Result<bool, Fail> {
    if !value.is_allowed() {
        return Err(Fail::from("not allowed"));
    }
    let mut out = Vec::new(alloc);
    encode(value, &mut out)?;
    let Ok(read) = decode::<T>(alloc, bytes) else {
        return Err(Fail::from("not read"));
    };
    if !read.is_allowed() {
        return Err(Fail::from("not allowed again"));
    }
    let mut again = Vec::new(alloc);
    encode(&read, &mut again)?;
    Ok(out.as_slice() == bytes && again.as_slice() == bytes)
}

#[test]
fn values_are_spelled(rt: HostRuntime) -> Result<(), Fail> {
    let alloc = rt.alloc();
    assert!(rt; rounds(alloc, &7u8, &[7])?);
    assert!(rt; rounds(alloc, &515u16, &[2, 3])?);
    assert!(rt; rounds(alloc, &258u64, &[0, 0, 0, 0, 0, 0, 1, 2])?);
    assert!(rt; rounds(alloc, &Some(515u16), &[1, 2, 3])?);
    assert!(rt; rounds(alloc, &None::<u16>, &[0])?);
    let at = point(9, 1, 2);
    assert!(rt; rounds(alloc, &at, &[0, 0, 0, 0, 0, 0, 0, 9, 0, 1, 0, 2])?);
    assert!(rt; rounds(alloc, &Items::Two(1, 515), &[2, 0, 1, 2, 3])?);
    assert!(rt; rounds(alloc, &Kind::Close(3), &[3, 0, 3])?);
    let pulse = [0, 0, 0, 0, 0, 0, 0, 9, 0, 1, 0, 0, 2];
    assert!(rt; rounds(alloc, &label(Kind::Pulse), &pulse)?);
    assert!(rt; rounds(alloc, &None::<Label>, &[0])?);
    assert!(rt; rounds(alloc, &two_values(alloc)?, &[2, 0, 1, 97, 0, 2, 98, 99])?);
    let moving = [0, 0, 0, 0, 0, 0, 0, 3, 0, 2, 0, 1, 1, 0, 5];
    assert!(rt; rounds(alloc, &carried(Some(5)), &moving)?);
    let one_point = [0, 1, 0, 0, 0, 0, 0, 0, 0, 2, 0, 2, 0, 0];
    assert!(rt; rounds(alloc, &points(alloc)?, &one_point)?);
    let two_counts = [0, 2, 0, 0, 0, 0, 0, 0, 0, 5, 0, 0, 0, 0, 0, 0, 0, 6];
    assert!(rt; rounds(alloc, &counts(alloc)?, &two_counts)?);
    let two_parts = [
        0, 0, 0, 0, 0, 0, 0, 9, 0, 1, 0, 0, 0, 2, 0, 0, 0, 3, 2, 0, 1, 0, 1, 118,
    ];
    assert!(rt; rounds(alloc, &payload(alloc)?, &two_parts)?);
    let one_close = [
        0, 0, 0, 0, 0, 0, 0, 4, 0, 2, 0, 0, 0, 1, 0, 0, 0, 0, 0, 0, 0, 2, 0, 2, 0, 0, 0, 2, 0, 0,
        0, 0, 0, 0, 0, 5, 0, 0, 0, 0, 0, 0, 0, 6,
    ];
    assert!(rt; rounds(alloc, &beat(alloc)?, &one_close)?);
    Ok(())
}
