//! Beats, and the lists in them.
ghost use Rattle.std.specs.Prelude.{◌≡◌, ◌+◌, ◌≤◌, ◌++◌, true, nat_lt, length};
ghost use Rattle.sat_wire.specs.Payloads.{beat, beat_allows, counts, exact_beat, exact_counts, exact_points, points};
ghost use Rattle.sat_wire.specs.Payloads.{small_beat, small_counts, small_points};

use crate::Wire;
use crate::fault::ReadFault;
use crate::lists::{members_size, read_list, write_members};
use sat_beat::Beat;
use sat_label::{Counts, Point, Points};
use std::alloc::Global;

impl Wire for Points {
    ghost code = { points };

    ghost allows = { λ list. nat_lt (length list) 65536 };

    ghost exact = { exact_points };

    ghost small = { small_points };

    fn is_allowed(&self) -> bool {
        self.as_slice().len() < 65_536
    }

    fn size(&self) -> usize {
        2 + members_size(self.as_slice())
    }

    fn write(&self, out: &mut Vec<u8>) {
        let members = self.as_slice();
        (members.len() as u16).write(out);
        write_members(members, out);
    }

    fn read(alloc: Global, bytes: &[u8]) -> Result<(Points, &[u8]), ReadFault> {
        let (count, rest) = u16::read(alloc, bytes)?;
        read_list(alloc, count, rest)
    }
}

impl Wire for Counts {
    ghost code = { counts };

    ghost allows = { λ list. nat_lt (length list) 65536 };

    ghost exact = { exact_counts };

    ghost small = { small_counts };

    fn is_allowed(&self) -> bool {
        self.as_slice().len() < 65_536
    }

    fn size(&self) -> usize {
        2 + members_size(self.as_slice())
    }

    fn write(&self, out: &mut Vec<u8>) {
        let members = self.as_slice();
        (members.len() as u16).write(out);
        write_members(members, out);
    }

    fn read(alloc: Global, bytes: &[u8]) -> Result<(Counts, &[u8]), ReadFault> {
        let (count, rest) = u16::read(alloc, bytes)?;
        read_list(alloc, count, rest)
    }
}

impl Wire for Beat {
    ghost code = { beat };

    ghost allows = { beat_allows };

    ghost exact = { exact_beat };

    ghost small = { small_beat };

    fn is_allowed(&self) -> bool {
        self.closes.is_allowed() && self.counts.is_allowed()
    }

    fn size(&self) -> usize {
        self.cut.size() + self.closes.size() + self.counts.size()
    }

    fn write(&self, out: &mut Vec<u8>) {
        self.cut.write(out);
        self.closes.write(out);
        self.counts.write(out);
    }

    fn read(alloc: Global, bytes: &[u8]) -> Result<(Beat, &[u8]), ReadFault> {
        let (cut, rest) = Point::read(alloc, bytes)?;
        let (closes, rest) = Points::read(alloc, rest)?;
        let (counts, rest) = Counts::read(alloc, rest)?;
        Ok((
            Beat {
                cut,
                closes,
                counts,
            },
            rest,
        ))
    }
}
