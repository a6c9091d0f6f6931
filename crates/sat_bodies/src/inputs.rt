//! The inputs of a site.
ghost use Rattle.std.specs.Prelude.{◌≡◌, ◌+◌, ◌≤◌, ◌++◌, true, length, vec_capacity, Ok, IfOk, IfErr};
ghost use Rattle.sat_wire.specs.Code.{made, StopsAt};
ghost use Rattle.sat_bodies.specs.Bodies.{beat_code, beat_in_of, bulk_code, bulk_of, client_code, input, input_allows};
ghost use Rattle.sat_bodies.specs.Bodies.{input_fits, move_of, read_of, tick_code, tick_of, write_code, write_of};

use sat_beat::Beat;
use sat_bulk::Payload;
use sat_label::{Carried, Items, Label, Values};
use sat_site::SiteInput;
use sat_wire::{Cause, ReadFault, Stop, Wire};
use std::alloc::Global;

/// Whether an input has a body: its items ascend, and its lists are within the counts of a spelling. It takes no
/// memory.
pub fn is_allowed(input: &SiteInput) -> bool
    ensures { result ≡ input_allows input.now }
{
    match input {
        SiteInput::Write { items, values, .. } => items.is_allowed() && values.is_allowed(),
        SiteInput::Turn { front } => front.is_allowed(),
        SiteInput::Bulk { payload, .. } => payload.is_allowed(),
        SiteInput::BeatIn { beat, .. } => beat.is_allowed(),
        _ => true,
    }
}

/// How many bytes its body has. It takes no memory.
pub fn size(given: &SiteInput) -> usize
    requires { input_allows given.now ≡ true }
    ensures size { result ≡ length (input.spell given.now) }
    ensures fits { input_fits given.now ≡ true }
    ensures most { result ≤ 1310727 }
{
    match given {
        SiteInput::Tick { gear, ts } => 1 + gear.size() + ts.size(),
        SiteInput::Write {
            carried,
            items,
            values,
        } => 1 + carried.size() + items.size() + values.size(),
        SiteInput::Read { carried, item } => 1 + carried.size() + item.size(),
        SiteInput::Move { carried, to } => 1 + carried.size() + to.size(),
        SiteInput::Attach { carried } => 1 + carried.size(),
        SiteInput::Gather => 1,
        SiteInput::Emit => 1,
        SiteInput::Pulse => 1,
        SiteInput::Turn { front } => 1 + front.size(),
        SiteInput::Bulk {
            from,
            gear,
            number,
            payload,
        } => 1 + from.size() + gear.size() + number.size() + payload.size(),
        SiteInput::Beat { to } => 1 + to.size(),
        SiteInput::BeatIn { from, number, beat } => {
            1 + from.size() + number.size() + beat.size()
        }
        SiteInput::Stamp => 1,
        SiteInput::Close => 1,
        SiteInput::Fall => 1,
        SiteInput::Advance => 1,
    }
}

/// Puts its body behind other bytes, for which there is room. It takes no memory.
pub fn write(given: &SiteInput, out: &mut Vec<u8>)
    requires fits { input_fits given.now ≡ true }
    requires room { length out.old.items + length (input.spell given.now) ≤ vec_capacity out.old }
    ensures items { out.new.items ≡ out.old.items ++ input.spell given.now }
    ensures capacity { vec_capacity out.old ≤ vec_capacity out.new }
{
    match given {
        SiteInput::Tick { gear, ts } => {
            out.push_reserved(0);
            gear.write(out);
            ts.write(out)
        }
        SiteInput::Write {
            carried,
            items,
            values,
        } => {
            out.push_reserved(1);
            carried.write(out);
            items.write(out);
            values.write(out)
        }
        SiteInput::Read { carried, item } => {
            out.push_reserved(2);
            carried.write(out);
            item.write(out)
        }
        SiteInput::Move { carried, to } => {
            out.push_reserved(3);
            carried.write(out);
            to.write(out)
        }
        SiteInput::Attach { carried } => {
            out.push_reserved(4);
            carried.write(out)
        }
        SiteInput::Gather => out.push_reserved(5),
        SiteInput::Emit => out.push_reserved(6),
        SiteInput::Pulse => out.push_reserved(7),
        SiteInput::Turn { front } => {
            out.push_reserved(8);
            front.write(out)
        }
        SiteInput::Bulk {
            from,
            gear,
            number,
            payload,
        } => {
            out.push_reserved(9);
            from.write(out);
            gear.write(out);
            number.write(out);
            payload.write(out)
        }
        SiteInput::Beat { to } => {
            out.push_reserved(10);
            to.write(out)
        }
        SiteInput::BeatIn { from, number, beat } => {
            out.push_reserved(11);
            from.write(out);
            number.write(out);
            beat.write(out)
        }
        SiteInput::Stamp => out.push_reserved(12),
        SiteInput::Close => out.push_reserved(13),
        SiteInput::Fall => out.push_reserved(14),
        SiteInput::Advance => out.push_reserved(15),
    }
}

fn read_tick(alloc: Global, bytes: &[u8]) -> Result<(SiteInput, &[u8]), ReadFault>
    ensures ok { IfOk result (λ found. made tick_of (tick_code.read bytes.now) ≡ Ok (found.0, found.1.now)) }
    ensures err { IfErr result (λ fault. StopsAt fault (made tick_of (tick_code.read bytes.now))) }
{
    let (gear, rest) = u16::read(alloc, bytes)?;
    let (ts, rest) = u64::read(alloc, rest)?;
    Ok((SiteInput::Tick { gear, ts }, rest))
}

fn read_write(alloc: Global, bytes: &[u8]) -> Result<(SiteInput, &[u8]), ReadFault>
    ensures ok { IfOk result (λ found. made write_of (write_code.read bytes.now) ≡ Ok (found.0, found.1.now)) }
    ensures err { IfErr result (λ fault. StopsAt fault (made write_of (write_code.read bytes.now))) }
{
    let (carried, rest) = Carried::read(alloc, bytes)?;
    let (items, rest) = Items::read(alloc, rest)?;
    let (values, rest) = Values::read(alloc, rest)?;
    Ok((
        SiteInput::Write {
            carried,
            items,
            values,
        },
        rest,
    ))
}

fn read_read(alloc: Global, bytes: &[u8]) -> Result<(SiteInput, &[u8]), ReadFault>
    ensures ok { IfOk result (λ found. made read_of (client_code.read bytes.now) ≡ Ok (found.0, found.1.now)) }
    ensures err { IfErr result (λ fault. StopsAt fault (made read_of (client_code.read bytes.now))) }
{
    let (carried, rest) = Carried::read(alloc, bytes)?;
    let (item, rest) = u16::read(alloc, rest)?;
    Ok((SiteInput::Read { carried, item }, rest))
}

fn read_move(alloc: Global, bytes: &[u8]) -> Result<(SiteInput, &[u8]), ReadFault>
    ensures ok { IfOk result (λ found. made move_of (client_code.read bytes.now) ≡ Ok (found.0, found.1.now)) }
    ensures err { IfErr result (λ fault. StopsAt fault (made move_of (client_code.read bytes.now))) }
{
    let (carried, rest) = Carried::read(alloc, bytes)?;
    let (to, rest) = u16::read(alloc, rest)?;
    Ok((SiteInput::Move { carried, to }, rest))
}

fn read_bulk(alloc: Global, bytes: &[u8]) -> Result<(SiteInput, &[u8]), ReadFault>
    ensures ok { IfOk result (λ found. made bulk_of (bulk_code.read bytes.now) ≡ Ok (found.0, found.1.now)) }
    ensures err { IfErr result (λ fault. StopsAt fault (made bulk_of (bulk_code.read bytes.now))) }
{
    let (from, rest) = u16::read(alloc, bytes)?;
    let (gear, rest) = u16::read(alloc, rest)?;
    let (number, rest) = u64::read(alloc, rest)?;
    let (payload, rest) = Payload::read(alloc, rest)?;
    Ok((
        SiteInput::Bulk {
            from,
            gear,
            number,
            payload,
        },
        rest,
    ))
}

fn read_beat_in(alloc: Global, bytes: &[u8]) -> Result<(SiteInput, &[u8]), ReadFault>
    ensures ok { IfOk result (λ found. made beat_in_of (beat_code.read bytes.now) ≡ Ok (found.0, found.1.now)) }
    ensures err { IfErr result (λ fault. StopsAt fault (made beat_in_of (beat_code.read bytes.now))) }
{
    let (from, rest) = u16::read(alloc, bytes)?;
    let (number, rest) = u64::read(alloc, rest)?;
    let (beat, rest) = Beat::read(alloc, rest)?;
    Ok((SiteInput::BeatIn { from, number, beat }, rest))
}

/// The input at the front of bytes, and the bytes behind it.
pub fn read(alloc: Global, bytes: &[u8]) -> Result<(SiteInput, &[u8]), ReadFault>
    ensures ok { IfOk result (λ found. input.read bytes.now ≡ Ok (found.0, found.1.now)) }
    ensures err { IfErr result (λ fault. StopsAt fault (input.read bytes.now)) }
{
    let (number, rest) = u8::read(alloc, bytes)?;
    match number {
        0 => read_tick(alloc, rest),
        1 => read_write(alloc, rest),
        2 => read_read(alloc, rest),
        3 => read_move(alloc, rest),
        4 => {
            let (carried, rest) = Carried::read(alloc, rest)?;
            Ok((SiteInput::Attach { carried }, rest))
        }
        5 => Ok((SiteInput::Gather, rest)),
        6 => Ok((SiteInput::Emit, rest)),
        7 => Ok((SiteInput::Pulse, rest)),
        8 => {
            let (front, rest) = Option::<Label>::read(alloc, rest)?;
            Ok((SiteInput::Turn { front }, rest))
        }
        9 => read_bulk(alloc, rest),
        10 => {
            let (to, rest) = u16::read(alloc, rest)?;
            Ok((SiteInput::Beat { to }, rest))
        }
        11 => read_beat_in(alloc, rest),
        12 => Ok((SiteInput::Stamp, rest)),
        13 => Ok((SiteInput::Close, rest)),
        14 => Ok((SiteInput::Fall, rest)),
        15 => Ok((SiteInput::Advance, rest)),
        _ => Err(ReadFault::Stop(Stop {
            cause: Cause::Form,
            left: bytes.len(),
        })),
    }
}
