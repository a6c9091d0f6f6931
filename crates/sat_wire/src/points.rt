//! Points, and what a client carries.
ghost use Rattle.std.specs.Prelude.{◌≡◌, ◌+◌, ◌≤◌, ◌++◌, true};
ghost use Rattle.sat_wire.specs.Bounds.{small12, small15};
ghost use Rattle.sat_wire.specs.Labels.{carried, exact_carried, exact_point, point};

use crate::Wire;
use crate::fault::ReadFault;
use sat_label::{Carried, Point};
use std::alloc::Global;

impl Wire for Point {
    ghost code = { point };

    ghost allows = { λ p. true };

    ghost exact = { exact_point };

    ghost small = { small12 };

    fn is_allowed(&self) -> bool {
        true
    }

    fn size(&self) -> usize {
        self.ts.size() + self.site.size() + self.gear.size()
    }

    fn write(&self, out: &mut Vec<u8>) {
        self.ts.write(out);
        self.site.write(out);
        self.gear.write(out);
    }

    fn read(alloc: Global, bytes: &[u8]) -> Result<(Point, &[u8]), ReadFault> {
        let (ts, rest) = u64::read(alloc, bytes)?;
        let (site, rest) = u16::read(alloc, rest)?;
        let (gear, rest) = u16::read(alloc, rest)?;
        Ok((Point { ts, site, gear }, rest))
    }
}

impl Wire for Carried {
    ghost code = { carried };

    ghost allows = { λ c. true };

    ghost exact = { exact_carried };

    ghost small = { small15 };

    fn is_allowed(&self) -> bool {
        true
    }

    fn size(&self) -> usize {
        self.point.size() + self.moving.size()
    }

    fn write(&self, out: &mut Vec<u8>) {
        self.point.write(out);
        self.moving.write(out);
    }

    fn read(alloc: Global, bytes: &[u8]) -> Result<(Carried, &[u8]), ReadFault> {
        let (point, rest) = Point::read(alloc, bytes)?;
        let (moving, rest) = Option::<u16>::read(alloc, rest)?;
        Ok((Carried { point, moving }, rest))
    }
}
