//! What a message carries.
ghost use Rattle.std.specs.Prelude.{◌≡◌, ◌+◌, ◌≤◌, ◌++◌, true, length, vec_capacity, Ok, IfOk, IfErr};
ghost use Rattle.sat_wire.specs.Code.{made, StopsAt};
ghost use Rattle.sat_letter.specs.Letters.{body_allows, body_code, body_fits, bulk_code, bulk_of, told_code, told_of};

use sat_beat::Beat;
use sat_bulk::Payload;
use sat_label::Label;
use sat_node::Body;
use sat_wire::{Cause, ReadFault, Stop, Wire};
use std::alloc::Global;

/// Whether it has a spelling. It takes no memory.
pub(crate) fn is_allowed(body: &Body) -> bool
    ensures { result ≡ body_allows body.now }
{
    match body {
        Body::Label(label) => label.is_allowed(),
        Body::Payload { payload, .. } => payload.is_allowed(),
        Body::Beat { beat, .. } => beat.is_allowed(),
    }
}

/// How many bytes it is written in. It takes no memory.
pub(crate) fn size(body: &Body) -> usize
    requires { body_allows body.now ≡ true }
    ensures size { result ≡ length (body_code.spell body.now) }
    ensures fits { body_fits body.now ≡ true }
    ensures most { result ≤ 1310727 }
{
    match body {
        Body::Label(label) => 1 + label.size(),
        Body::Payload {
            gear,
            number,
            payload,
        } => 1 + gear.size() + number.size() + payload.size(),
        Body::Beat { number, beat } => 1 + number.size() + beat.size(),
    }
}

// Puts a payload's gear, its number and its bytes behind others, for which there is room.
fn write_bulk(gear: u16, number: u64, payload: &Payload, out: &mut Vec<u8>)
    requires fits { bulk_code.fits (gear, (number, payload.now)) ≡ true }
    requires room { length out.old.items + length (bulk_code.spell (gear, (number, payload.now)))
        ≤ vec_capacity out.old }
    ensures items { out.new.items ≡ out.old.items ++ bulk_code.spell (gear, (number, payload.now)) }
    ensures capacity { vec_capacity out.old ≤ vec_capacity out.new }
{
    gear.write(out);
    number.write(out);
    payload.write(out)
}

/// Puts its bytes behind others, for which there is room. It takes no memory.
pub(crate) fn write(body: &Body, out: &mut Vec<u8>)
    requires fits { body_fits body.now ≡ true }
    requires room { length out.old.items + length (body_code.spell body.now) ≤ vec_capacity out.old }
    ensures items { out.new.items ≡ out.old.items ++ body_code.spell body.now }
    ensures capacity { vec_capacity out.old ≤ vec_capacity out.new }
{
    match body {
        Body::Label(label) => {
            out.push_reserved(0);
            label.write(out)
        }
        Body::Payload {
            gear,
            number,
            payload,
        } => {
            out.push_reserved(1);
            write_bulk(*gear, *number, payload, out)
        }
        Body::Beat { number, beat } => {
            out.push_reserved(2);
            number.write(out);
            beat.write(out)
        }
    }
}

fn read_bulk(alloc: Global, bytes: &[u8]) -> Result<(Body, &[u8]), ReadFault>
    ensures ok { IfOk result (λ found. made bulk_of (bulk_code.read bytes.now) ≡ Ok (found.0, found.1.now)) }
    ensures err { IfErr result (λ fault. StopsAt fault (made bulk_of (bulk_code.read bytes.now))) }
{
    let (gear, rest) = u16::read(alloc, bytes)?;
    let (number, rest) = u64::read(alloc, rest)?;
    let (payload, rest) = Payload::read(alloc, rest)?;
    Ok((
        Body::Payload {
            gear,
            number,
            payload,
        },
        rest,
    ))
}

fn read_told(alloc: Global, bytes: &[u8]) -> Result<(Body, &[u8]), ReadFault>
    ensures ok { IfOk result (λ found. made told_of (told_code.read bytes.now) ≡ Ok (found.0, found.1.now)) }
    ensures err { IfErr result (λ fault. StopsAt fault (made told_of (told_code.read bytes.now))) }
{
    let (number, rest) = u64::read(alloc, bytes)?;
    let (beat, rest) = Beat::read(alloc, rest)?;
    Ok((Body::Beat { number, beat }, rest))
}

/// The body at the front of bytes, and the bytes behind it.
pub(crate) fn read(alloc: Global, bytes: &[u8]) -> Result<(Body, &[u8]), ReadFault>
    ensures ok { IfOk result (λ found. body_code.read bytes.now ≡ Ok (found.0, found.1.now)) }
    ensures err { IfErr result (λ fault. StopsAt fault (body_code.read bytes.now)) }
{
    let (number, rest) = u8::read(alloc, bytes)?;
    match number {
        0 => {
            let (label, rest) = Label::read(alloc, rest)?;
            Ok((Body::Label(label), rest))
        }
        1 => read_bulk(alloc, rest),
        2 => read_told(alloc, rest),
        _ => Err(ReadFault::Stop(Stop {
            cause: Cause::Form,
            left: bytes.len(),
        })),
    }
}
