//! Items and labels.
ghost use Rattle.std.specs.Prelude.{◌≡◌, ◌+◌, ◌≤◌, ◌++◌, true, length, vec_capacity, Ok, IfOk, IfErr};
ghost use Rattle.sat_label.specs.declared.items.Items.TheVariants as items_of;
ghost use Rattle.sat_wire.specs.Bounds.{small9, small10, small22, small23};
ghost use Rattle.sat_wire.specs.Code.{allowed_if, made, number16, optional, StopsAt};
ghost use Rattle.sat_wire.specs.Exact.{exact_optional};
ghost use Rattle.sat_wire.specs.Labels.{ascend, exact_items, exact_kind, exact_label, four, four_of, items};
ghost use Rattle.sat_wire.specs.Labels.{kind_allows, label, label_allows, label_kind, numbers, numbers_fit, three};
ghost use Rattle.sat_wire.specs.Labels.{three_of, two, two_of};

use crate::Wire;
use crate::fault::{Cause, ReadFault, Stop};
use crate::options::{option_is_allowed, option_size, read_option, write_option};
use sat_label::{Items, Kind, Label, Point};
use std::alloc::Global;

fn read_two(alloc: Global, bytes: &[u8]) -> Result<(Items, &[u8]), ReadFault>
    ensures ok { IfOk result (λ found. made two_of (two.read bytes.now) ≡ Ok (found.0, found.1.now)) }
    ensures err { IfErr result (λ fault. StopsAt fault (made two_of (two.read bytes.now))) }
{
    let (a, rest) = u16::read(alloc, bytes)?;
    let (b, rest) = u16::read(alloc, rest)?;
    Ok((Items::Two(a, b), rest))
}

fn read_three(alloc: Global, bytes: &[u8]) -> Result<(Items, &[u8]), ReadFault>
    ensures ok { IfOk result (λ found. made three_of (three.read bytes.now) ≡ Ok (found.0, found.1.now)) }
    ensures err { IfErr result (λ fault. StopsAt fault (made three_of (three.read bytes.now))) }
{
    let (a, rest) = u16::read(alloc, bytes)?;
    let (b, rest) = u16::read(alloc, rest)?;
    let (c, rest) = u16::read(alloc, rest)?;
    Ok((Items::Three(a, b, c), rest))
}

fn read_four(alloc: Global, bytes: &[u8]) -> Result<(Items, &[u8]), ReadFault>
    ensures ok { IfOk result (λ found. made four_of (four.read bytes.now) ≡ Ok (found.0, found.1.now)) }
    ensures err { IfErr result (λ fault. StopsAt fault (made four_of (four.read bytes.now))) }
{
    let (a, rest) = u16::read(alloc, bytes)?;
    let (b, rest) = u16::read(alloc, rest)?;
    let (c, rest) = u16::read(alloc, rest)?;
    let (d, rest) = u16::read(alloc, rest)?;
    Ok((Items::Four(a, b, c, d), rest))
}

// One to four numbers behind their count.
fn read_numbers(alloc: Global, bytes: &[u8]) -> Result<(Items, &[u8]), ReadFault>
    ensures ok { IfOk result (λ found. numbers.read bytes.now ≡ Ok (found.0, found.1.now)) }
    ensures err { IfErr result (λ fault. StopsAt fault (numbers.read bytes.now)) }
{
    let (count, rest) = u8::read(alloc, bytes)?;
    match count {
        1 => {
            let (a, rest) = u16::read(alloc, rest)?;
            Ok((Items::One(a), rest))
        }
        2 => read_two(alloc, rest),
        3 => read_three(alloc, rest),
        4 => read_four(alloc, rest),
        _ => Err(ReadFault::Stop(Stop {
            cause: Cause::Items,
            left: bytes.len(),
        })),
    }
}

impl Wire for Items {
    ghost code = { items };

    ghost allows = { ascend };

    ghost exact = { exact_items };

    ghost small = { small9 };

    fn is_allowed(&self) -> bool {
        self.ascend()
    }

    fn size(&self) -> usize {
        match *self {
            Items::One(a) => 1 + a.size(),
            Items::Two(a, b) => 1 + a.size() + b.size(),
            Items::Three(a, b, c) => 1 + a.size() + b.size() + c.size(),
            Items::Four(a, b, c, d) => 1 + a.size() + b.size() + c.size() + d.size(),
        }
    }

    fn write(&self, out: &mut Vec<u8>) {
        match *self {
            Items::One(a) => {
                out.push_reserved(1);
                a.write(out)
            }
            Items::Two(a, b) => {
                out.push_reserved(2);
                a.write(out);
                b.write(out)
            }
            Items::Three(a, b, c) => {
                out.push_reserved(3);
                a.write(out);
                b.write(out);
                c.write(out)
            }
            Items::Four(a, b, c, d) => {
                out.push_reserved(4);
                a.write(out);
                b.write(out);
                c.write(out);
                d.write(out)
            }
        }
    }

    fn read(alloc: Global, bytes: &[u8]) -> Result<(Items, &[u8]), ReadFault> {
        let (items, rest) = read_numbers(alloc, bytes)?;
        if items.ascend() {
            Ok((items, rest))
        } else {
            Err(ReadFault::Stop(Stop {
                cause: Cause::Items,
                left: bytes.len(),
            }))
        }
    }
}

impl Wire for Kind {
    ghost code = { label_kind };

    ghost allows = { kind_allows };

    ghost exact = { exact_kind };

    ghost small = { small10 };

    fn is_allowed(&self) -> bool {
        match self {
            Kind::Update(items) => items.is_allowed(),
            _ => true,
        }
    }

    fn size(&self) -> usize {
        match self {
            Kind::Update(items) => 1 + items.size(),
            Kind::Move(site) => 1 + site.size(),
            Kind::Pulse => 1,
            Kind::Close(epoch) => 1 + epoch.size(),
        }
    }

    fn write(&self, out: &mut Vec<u8>) {
        match self {
            Kind::Update(items) => {
                out.push_reserved(0);
                items.write(out)
            }
            Kind::Move(site) => {
                out.push_reserved(1);
                site.write(out)
            }
            Kind::Pulse => out.push_reserved(2),
            Kind::Close(epoch) => {
                out.push_reserved(3);
                epoch.write(out)
            }
        }
    }

    fn read(alloc: Global, bytes: &[u8]) -> Result<(Kind, &[u8]), ReadFault> {
        let (number, rest) = u8::read(alloc, bytes)?;
        match number {
            0 => {
                let (items, rest) = Items::read(alloc, rest)?;
                Ok((Kind::Update(items), rest))
            }
            1 => {
                let (site, rest) = u16::read(alloc, rest)?;
                Ok((Kind::Move(site), rest))
            }
            2 => Ok((Kind::Pulse, rest)),
            3 => {
                let (epoch, rest) = u16::read(alloc, rest)?;
                Ok((Kind::Close(epoch), rest))
            }
            _ => Err(ReadFault::Stop(Stop {
                cause: Cause::Kind,
                left: bytes.len(),
            })),
        }
    }
}

impl Wire for Label {
    ghost code = { label };

    ghost allows = { label_allows };

    ghost exact = { exact_label };

    ghost small = { small22 };

    fn is_allowed(&self) -> bool {
        self.kind.is_allowed()
    }

    fn size(&self) -> usize {
        self.point.size() + self.kind.size()
    }

    fn write(&self, out: &mut Vec<u8>) {
        self.point.write(out);
        self.kind.write(out);
    }

    fn read(alloc: Global, bytes: &[u8]) -> Result<(Label, &[u8]), ReadFault> {
        let (point, rest) = Point::read(alloc, bytes)?;
        let (kind, rest) = Kind::read(alloc, rest)?;
        Ok((Label { point, kind }, rest))
    }
}

impl Wire for Option<Label> {
    ghost code = { optional label };

    ghost allows = { allowed_if label_allows };

    ghost exact = { exact_optional label exact_label };

    ghost small = { small23 };

    fn is_allowed(&self) -> bool {
        option_is_allowed(self)
    }

    fn size(&self) -> usize {
        option_size(self)
    }

    fn write(&self, out: &mut Vec<u8>) {
        write_option(self, out)
    }

    fn read(alloc: Global, bytes: &[u8]) -> Result<(Option<Label>, &[u8]), ReadFault> {
        read_option(alloc, bytes)
    }
}
