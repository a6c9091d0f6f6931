//! What a disk holds, byte by byte: journals that are cut short or spoiled at each place, and whatever stands behind
//! the byte that closes one.
use crate::stopped::{OnDisk, started, stepped};
use crate::stores::{deployment, first_tree, second_tree};
use sat_act::Deployment;
use sat_durable::{Disk, DurableFault, MemoryDisk, recover};
use sat_label::{Carried, Point};
use sat_lasting::KeptSite;
use sat_site::SiteInput;
use std::alloc::Global;
use std::test::Fail;

// The records of a tick, a gather and a read, each a byte 1, the body's length in four bytes and the body; and the byte
// that closes the journal.
const JOURNAL: [u8; 44] = [
    1, 0, 0, 0, 11, 0, 0, 0, 0, 0, 0, 0, 0, 0, 0, 5, 1, 0, 0, 0, 1, 5, 1, 0, 0, 0, 16, 2, 0, 0, 0,
    0, 0, 0, 0, 0, 0, 0, 0, 0, 0, 0, 0, 0,
];

// The same with one gather more.
const LONGER: [u8; 50] = [
    1, 0, 0, 0, 11, 0, 0, 0, 0, 0, 0, 0, 0, 0, 0, 5, 1, 0, 0, 0, 1, 5, 1, 0, 0, 0, 16, 2, 0, 0, 0,
    0, 0, 0, 0, 0, 0, 0, 0, 0, 0, 0, 0, 1, 0, 0, 0, 1, 5, 0,
];

// Where the record begins that a front of so many bytes cuts short, or the byte that it has no more.
fn torn_at(end: usize) -> u64 {
    match end {
        0..16 => 0,
        16..22 => 16,
        22..43 => 22,
        _ => 43,
    }
}

// One byte of the journal in the place of another: where it is torn then, or how many inputs it has.
const SPOILED: &[(usize, u8, Result<u64, u64>)] = &[
    // Another byte than 1 closes it.
    (0, 0, Ok(0)),
    (16, 2, Ok(1)),
    (22, 255, Ok(2)),
    (43, 7, Ok(3)),
    // A record begins, and there is no more.
    (43, 1, Err(43)),
    // A body that is longer than all that follows, one that ends too late, and one that ends too early.
    (1, 1, Err(0)),
    (20, 2, Err(16)),
    (26, 15, Err(22)),
    // No input has this number, and this gear, this item and this site are none of the deployment's.
    (5, 16, Err(0)),
    (7, 1, Err(0)),
    (42, 2, Err(22)),
    (36, 3, Err(22)),
    // Another timestamp is another tick.
    (15, 6, Ok(3)),
];

fn inputs() -> [SiteInput; 3] {
    let nothing = Carried {
        point: Point {
            ts: 0,
            site: 0,
            gear: 0,
        },
        moving: None,
    };
    [
        SiteInput::Tick { gear: 0, ts: 5 },
        SiteInput::Gather,
        SiteInput::Read {
            carried: nothing,
            item: 0,
        },
    ]
}

fn any_deployment(alloc: Global) -> Result<Deployment, Fail> {
    let first = first_tree(alloc)?;
    let second = second_tree(alloc)?;
    deployment(alloc, &first, &second)
}

// Site 0 as it is made again from these bytes, and how many inputs it has; or where they are torn.
fn made(alloc: Global, d: &Deployment, bytes: &[u8]) -> Result<Result<(OnDisk, u64), u64>, Fail> {
    let mut disk = MemoryDisk::new(alloc);
    disk.room(bytes.len() as u64)?;
    disk.write(0, bytes)?;
    if d.sites() == 0 {
        return Err(Fail::from("no site"));
    }
    let fresh = KeptSite::new(alloc, d, 0)?;
    match recover(alloc, disk, fresh) {
        Ok(made) => Ok(Ok((made.durable, made.inputs))),
        Err(DurableFault::Torn(_, at)) => Ok(Err(at)),
        Err(_) => Err(Fail::from("not recovered")),
    }
}

// How many inputs these bytes have, or where they are torn.
fn counted(alloc: Global, d: &Deployment, bytes: &[u8]) -> Result<Result<u64, u64>, Fail> {
    match made(alloc, d, bytes)? {
        Ok((_, inputs)) => Ok(Ok(inputs)),
        Err(at) => Ok(Err(at)),
    }
}

// All that a site's disk holds.
fn held(alloc: Global, kept: OnDisk) -> Result<Vec<u8>, Fail> {
    let mut disk = kept.into_disk();
    let mut bytes = vec![in alloc; 0; disk.len() as usize]?;
    disk.read(0, &mut bytes)?;
    Ok(bytes)
}

fn after(alloc: Global, kept: OnDisk, input: SiteInput) -> Result<OnDisk, Fail> {
    match stepped(alloc, kept, input)? {
        Ok((kept, _)) => Ok(kept),
        Err(_) => Err(Fail::from("a disk failed")),
    }
}

#[test]
fn a_journal_is_laid_out_so(rt: HostRuntime) -> Result<(), Fail> {
    let alloc = rt.alloc();
    let d = any_deployment(alloc)?;
    let mut kept = started(alloc, &d, 0)?;
    for input in inputs() {
        kept = after(alloc, kept, input)?;
    }
    assert_eq!(rt; held(alloc, kept)?.as_slice(), JOURNAL.as_slice());
    Ok(())
}

#[test]
fn each_front_of_a_journal_is_torn(rt: HostRuntime) -> Result<(), Fail> {
    let alloc = rt.alloc();
    let d = any_deployment(alloc)?;
    for end in 0..JOURNAL.len() {
        assert_eq!(rt;
            counted(alloc, &d, &JOURNAL[..end])?,
            Err(torn_at(end)),
            "{end}"
        );
    }
    assert_eq!(rt; counted(alloc, &d, &JOURNAL)?, Ok(3));
    Ok(())
}

#[test]
fn a_spoiled_journal_says_where(rt: HostRuntime) -> Result<(), Fail> {
    let alloc = rt.alloc();
    let d = any_deployment(alloc)?;
    for (place, byte, wanted) in SPOILED {
        let mut bytes = JOURNAL;
        if let Some(spoiled) = bytes.get_mut(*place) {
            *spoiled = *byte;
        }
        assert_eq!(rt; counted(alloc, &d, &bytes)?, *wanted, "{place} {byte}");
    }
    Ok(())
}

// Whatever stands behind the closed byte is none of the journal, and a step writes over it.
#[test]
fn garbage_behind_a_journal_is_passed_over(rt: HostRuntime) -> Result<(), Fail> {
    let alloc = rt.alloc();
    let d = any_deployment(alloc)?;
    for byte in 0..=255u8 {
        let mut bytes = JOURNAL.as_slice().to_vec(alloc)?;
        for _ in 0..100u16 {
            bytes.push(byte)?;
        }
        let Ok((kept, inputs)) = made(alloc, &d, bytes.as_slice())? else {
            return Err(Fail::from("torn"));
        };
        assert_eq!(rt; inputs, 3);
        let kept = after(alloc, kept, SiteInput::Gather)?;
        let held = held(alloc, kept)?;
        assert_eq!(rt; held.len(), 144);
        assert!(rt; held.as_slice().starts_with(LONGER.as_slice()));
        assert_eq!(rt; counted(alloc, &d, held.as_slice())?, Ok(4));
    }
    Ok(())
}
