//! The values of an update, and payloads.
ghost use Rattle.std.specs.Prelude.{◌≡◌, ◌+◌, ◌≤◌, ◌<◌, ◌++◌, true, None, nat_lt, get_or, length, vec_capacity};
ghost use Rattle.std.specs.List.{flat_map};
ghost use Rattle.sat_wire.specs.Code.{all_fit};
ghost use Rattle.sat_wire.specs.Labels.{exact_values, values};
ghost use Rattle.sat_wire.specs.Payloads.{exact_payload, part, payload, payload_allows, small_payload, small_values};

use crate::Wire;
use crate::fault::ReadFault;
use crate::lists::{members_size, read_members, write_members};
use sat_bulk::Payload;
use sat_label::{Label, Value, Values};
use std::alloc::Global;

impl Wire for Values {
    ghost code = { values };

    ghost allows = { λ list. nat_lt (length list) 256 };

    ghost exact = { exact_values };

    ghost small = { small_values };

    fn is_allowed(&self) -> bool {
        self.as_slice().len() < 256
    }

    fn size(&self) -> usize {
        1 + members_size(self.as_slice())
    }

    fn write(&self, out: &mut Vec<u8>) {
        let members = self.as_slice();
        out.push_reserved(members.len() as u8);
        write_members(members, out);
    }

    fn read(alloc: Global, bytes: &[u8]) -> Result<(Values, &[u8]), ReadFault> {
        let (count, rest) = u8::read(alloc, bytes)?;
        let (members, rest) = read_members::<Value>(alloc, count as u16, rest)?;
        Ok((Values::many(members), rest))
    }
}

// How many bytes the part of this place is written in.
fn part_size(payload: &Payload, place: usize) -> usize
    requires { place < length payload.now.values }
    ensures size { result ≡ length (part.spell (get_or payload.now.values place None)) }
    ensures fits { part.fits (get_or payload.now.values place None) ≡ true }
    ensures small { result ≤ 259 }
{
    match payload.value(place) {
        None => 1,
        Some(value) => 1 + value.size(),
    }
}

// How many bytes the parts are written in.
#[tactic(auto, using(crate::proofs::Parts::size_more, crate::proofs::Parts::fit_more, crate::proofs::Parts::size_all, crate::proofs::Parts::fit_all))]
fn parts_size(payload: &Payload) -> usize
    requires { length payload.now.values < 256 }
    ensures size { result ≡ length (flat_map part.spell payload.now.values) }
    ensures fits { all_fit part payload.now.values ≡ true }
    ensures small { result ≤ 66045 }
{
    let mut size = 0;
    'parts: for place in 0..payload.len() {
        size += part_size(payload, place);
    }
    size
}

// Puts the bytes of the part of this place behind others, for which there is room.
fn write_part(payload: &Payload, place: usize, out: &mut Vec<u8>)
    requires inside { place < length payload.now.values }
    requires fits { part.fits (get_or payload.now.values place None) ≡ true }
    requires room { length out.old.items + length (part.spell (get_or payload.now.values place None))
        ≤ vec_capacity out.old }
    ensures items { out.new.items ≡ out.old.items ++ part.spell (get_or payload.now.values place None) }
    ensures capacity { vec_capacity out.old ≤ vec_capacity out.new }
{
    match payload.value(place) {
        None => out.push_reserved(0),
        Some(value) => {
            out.push_reserved(1);
            value.write(out)
        }
    }
}

// Puts the bytes of the parts behind others, for which there is room.
#[tactic(auto, using(crate::proofs::Parts::part_fits, crate::proofs::Parts::part_room, crate::proofs::Parts::written_more, crate::proofs::Parts::rest_fits, crate::proofs::Parts::room_more, crate::proofs::Parts::written_all))]
fn write_parts(payload: &Payload, out: &mut Vec<u8>)
    requires fits { all_fit part payload.now.values ≡ true }
    requires room { length out.old.items + length (flat_map part.spell payload.now.values) ≤ vec_capacity out.old }
    ensures items { out.new.items ≡ out.old.items ++ flat_map part.spell payload.now.values }
    ensures capacity { vec_capacity out.old ≤ vec_capacity out.new }
{
    'parts: for place in 0..payload.len() {
        write_part(payload, place, out);
    }
}

impl Wire for Payload {
    ghost code = { payload };

    ghost allows = { payload_allows };

    ghost exact = { exact_payload };

    ghost small = { small_payload };

    fn is_allowed(&self) -> bool {
        self.label().is_allowed() && self.len() < 256
    }

    fn size(&self) -> usize {
        self.label().size() + 1 + parts_size(self)
    }

    fn write(&self, out: &mut Vec<u8>) {
        self.label().write(out);
        out.push_reserved(self.len() as u8);
        write_parts(self, out);
    }

    fn read(alloc: Global, bytes: &[u8]) -> Result<(Payload, &[u8]), ReadFault> {
        let (label, rest) = Label::read(alloc, bytes)?;
        let (count, rest) = u8::read(alloc, rest)?;
        let (parts, rest) = read_members::<Option<Value>>(alloc, count as u16, rest)?;
        let payload = Payload::of_parts(alloc, label, parts.as_slice())?;
        Ok((payload, rest))
    }
}
