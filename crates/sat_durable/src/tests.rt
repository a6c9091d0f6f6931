//! A machine that adds up, on a disk that is cut at each of a step's device calls.
ghost use Rattle.sat_durable.specs.Adding.{one_byte, only_one};
ghost use Rattle.std.specs.Prelude.{◌+◌, [], ◌∷◌, nat_lt};

use crate::{
    AppendFault, Disk, Durable, DurableFault, Journal, Machine, MemoryDisk, StepFault, create,
    recover,
};
use std::alloc::{AllocError, Global};
use std::test::Fail;

#[derive(Drop)]
struct Adder {
    total: u8,
}

impl Machine for Adder {
    type Input = u8;

    type Output = u8;

    ghost meaning = { record {
      body = λ input. input ∷ [];
      input_of = one_byte;
      fits = λ adder input. nat_lt (adder.total + input) 256;
      after = λ adder input. record { total = adder.total + input };
      output = λ adder input. adder.total + input;
    } };

    ghost exact = { only_one };

    fn fits(&self, input: &u8) -> bool {
        self.total.checked_add(*input).is_some()
    }

    fn step(&mut self, input: u8) -> Result<u8, AllocError> {
        self.total += input;
        Ok(self.total)
    }

    fn encode(&self, alloc: Global, input: &u8) -> Result<Vec<u8>, AllocError> {
        let mut body = Vec::new(alloc);
        body.push(*input)?;
        Ok(body)
    }

    fn decode(_alloc: Global, body: &[u8]) -> Result<Option<u8>, AllocError> {
        let Some((first, rest)) = body.split_first() else {
            return Ok(None);
        };
        match rest.split_first() {
            None => Ok(Some(*first)),
            Some(_) => Ok(None),
        }
    }
}

type Site = Durable<MemoryDisk, Adder>;

fn started(alloc: Global) -> Result<Site, Fail> {
    match create(MemoryDisk::new(alloc), Adder { total: 0 }) {
        Ok(site) => Ok(site),
        Err(_) => Err(Fail::from("not created")),
    }
}

// A step of an input that fits: the site and its answer, or the disk where it failed.
fn stepped(alloc: Global, site: Site, input: u8) -> Result<Result<(Site, u8), MemoryDisk>, Fail> {
    if site.size() > 1 << 40 || !site.machine().fits(&input) {
        return Err(Fail::from("doesn't fit"));
    }
    match site.step(alloc, input) {
        Ok(done) => Ok(Ok(done)),
        Err(StepFault::Disk(disk)) => Ok(Err(disk)),
        Err(StepFault::Memory(_)) => Err(Fail::from("memory")),
    }
}

// How many inputs a disk has, and their sum.
fn recovered(alloc: Global, disk: MemoryDisk) -> Result<(u64, u8), Fail> {
    match recover(alloc, disk, Adder { total: 0 }) {
        Ok(made) => Ok((made.inputs, made.durable.machine().total)),
        Err(_) => Err(Fail::from("not recovered")),
    }
}

// What is left of the inputs 3 and 4, where the second is cut.
fn cut(alloc: Global, calls: u64, keep: bool) -> Result<(u64, u8), Fail> {
    let Ok((mut site, _)) = stepped(alloc, started(alloc)?, 3)? else {
        return Err(Fail::from("cut at once"));
    };
    site.arm(calls, keep);
    match stepped(alloc, site, 4)? {
        Ok((site, _)) => recovered(alloc, site.into_disk().crash()),
        Err(disk) => recovered(alloc, disk.crash()),
    }
}

// Appends a body of one byte, and tells whether the disk did all of its calls.
fn appended(alloc: Global, journal: &mut Journal<MemoryDisk>, byte: u8) -> Result<bool, Fail> {
    if journal.size() > 1 << 40 || !journal.whole() {
        return Err(Fail::from("takes no more"));
    }
    let mut buffer = Vec::new(alloc);
    buffer.extend_from_slice(&[7, 7, 7, 7, 7, byte])?;
    match journal.append(&mut buffer) {
        Ok(()) => Ok(true),
        Err(AppendFault::Disk) => Ok(false),
        Err(AppendFault::Memory) => Err(Fail::from("memory")),
    }
}

// What is left of the bodies of 3 and 4, where the second is cut.
fn cut_in_place(alloc: Global, calls: u64, keep: bool) -> Result<(u64, u8), Fail> {
    let (mut journal, _) = started(alloc)?.into_parts();
    if !appended(alloc, &mut journal, 3)? {
        return Err(Fail::from("cut at once"));
    }
    journal.arm(calls, keep);
    appended(alloc, &mut journal, 4)?;
    recovered(alloc, journal.into_disk().crash())
}

#[test]
fn cuts_keep_the_last_input_only_when_all_is_written(rt: HostRuntime) -> Result<(), Fail> {
    let alloc = rt.alloc();
    for calls in 0..4u64 {
        assert_eq!(rt; cut(alloc, calls, false)?, (1, 3));
        let kept = if calls == 3 { (2, 7) } else { (1, 3) };
        assert_eq!(rt; cut(alloc, calls, true)?, kept);
        assert_eq!(rt; cut_in_place(alloc, calls, false)?, (1, 3));
        assert_eq!(rt; cut_in_place(alloc, calls, true)?, kept);
    }
    assert_eq!(rt; cut(alloc, 4, false)?, (2, 7));
    assert_eq!(rt; cut_in_place(alloc, 4, false)?, (2, 7));
    Ok(())
}

#[test]
fn a_disk_that_failed_is_recovered_with_no_crash(rt: HostRuntime) -> Result<(), Fail> {
    let alloc = rt.alloc();
    let mut site = started(alloc)?;
    site.arm(3, false);
    let Err(disk) = stepped(alloc, site, 5)? else {
        return Err(Fail::from("not cut"));
    };
    assert_eq!(rt; recovered(alloc, disk)?, (1, 5));
    Ok(())
}

// Where a disk that holds these bytes is torn.
fn torn(alloc: Global, bytes: &[u8]) -> Result<u64, Fail> {
    let mut disk = MemoryDisk::new(alloc);
    let end = bytes.len() as u64;
    disk.room(end)?;
    disk.write(0, bytes)?;
    match recover(alloc, disk, Adder { total: 0 }) {
        Err(DurableFault::Torn(_, at)) => Ok(at),
        _ => Err(Fail::from("not torn")),
    }
}

#[test]
fn torn_journals_say_where(rt: HostRuntime) -> Result<(), Fail> {
    let alloc = rt.alloc();
    assert_eq!(rt; torn(alloc, &[])?, 0);
    assert_eq!(rt; torn(alloc, &[1])?, 0);
    assert_eq!(rt; torn(alloc, &[1, 0, 0, 0, 1, 9])?, 6);
    assert_eq!(rt; torn(alloc, &[1, 0, 0, 0, 1, 9, 1, 0, 0])?, 6);
    assert_eq!(rt; torn(alloc, &[1, 0, 0, 0, 2, 9, 9, 0])?, 0);
    assert_eq!(rt;
        torn(alloc, &[1, 0, 0, 0, 1, 200, 1, 0, 0, 0, 1, 200, 0])?,
        6
    );
    Ok(())
}
