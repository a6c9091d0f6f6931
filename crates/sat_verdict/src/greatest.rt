//! The greatest point of each item that a reader's past is known to have.
ghost use Rattle.std.specs.Prelude.{◌≡◌, ◌≤◌, ◌<◌, ◌-◌, ◌==◌, ◌&&◌, not, ℕ, Some, true, length, get_or, IsTrue, IfOk};
ghost use Rattle.sat_label.specs.Grouped.{list_of};
ghost use Rattle.sat_label.specs.Words.{has};
ghost use Rattle.sat_label.specs.declared.point.Point as points;
ghost use Rattle.sat_verdict.specs.Greatest.{greatest_of, is_reached, Absorbs, AreNoted, Rises};

use crate::Tale;
use sat_label::{Items, Point};
use std::alloc::{AllocError, Global};

/// So many numbers of items there are.
const ITEMS: usize = 65_536;

/// The greatest point of an item that is known to be in one reader's past.
#[derive(Clone, Copy)]
pub struct Noted {
    /// The reader.
    pub reader: u16,
    /// The point.
    pub point: Point,
}

/// For each item what was noted last. Contracts see, by item, the greatest point of a reader.
pub fn none_noted(alloc: Global) -> Result<Vec<Noted>, AllocError>
    ensures { IfOk result (λ noted. length noted.items ≡ 65536) }
{
    let none = Noted {
        reader: u16::MAX,
        point: Point::zero(),
    };
    let noted: Vec<Noted> = vec![in alloc; none; ITEMS]?;
    Ok(noted)
}

/// The greatest point of an item that was noted for a reader.
pub fn greatest_of(noted: &[Noted], reader: u16, item: u16) -> Option<Point>
    requires { length noted.now ≡ 65536 }
    ensures { result ≡ greatest_of noted.now reader item }
{
    let last = noted[item as usize];
    if last.reader == reader {
        Some(last.point)
    } else {
        None
    }
}

/// Notes a point of an item for a reader, if it is above the one that was noted.
fn note(noted: &mut Vec<Noted>, reader: u16, item: u16, point: &Point)
    requires size { length noted.old.items ≡ 65536 }
    ensures size { length noted.new.items ≡ 65536 }
    ensures rises { Rises reader noted.old.items noted.new.items }
    ensures noted { is_reached noted.new.items reader item point.now ≡ true }
{
    let place = item as usize;
    let last = noted.as_slice()[place];
    if last.reader == reader && !last.point.is_below(point) {
        return;
    }
    noted[place] = Noted {
        reader,
        point: *point,
    };
}

/// Notes a point of some items for a reader.
fn note_items(noted: &mut Vec<Noted>, reader: u16, items: &Items, point: &Point)
    requires size { length noted.old.items ≡ 65536 }
    ensures size { length noted.new.items ≡ 65536 }
    ensures rises { Rises reader noted.old.items noted.new.items }
    ensures noted { AreNoted noted.new.items reader (list_of items.now) point.now }
{
    match *items {
        Items::One(a) => note(noted, reader, a, point),
        Items::Two(a, b) => {
            note(noted, reader, b, point);
            note(noted, reader, a, point);
        }
        Items::Three(a, b, c) => {
            note(noted, reader, c, point);
            note(noted, reader, b, point);
            note(noted, reader, a, point);
        }
        Items::Four(a, b, c, d) => {
            note(noted, reader, d, point);
            note(noted, reader, c, point);
            note(noted, reader, b, point);
            note(noted, reader, a, point);
        }
    }
}

/// Notes for a reader the point that an entry wrote or read, under each of its items: those of its maker, the entry
/// with this number.
pub fn absorb(noted: &mut Vec<Noted>, tales: &[Tale], reader: u16, tale: &Tale, number: u16)
    requires size { length noted.old.items ≡ 65536 }
    ensures size { length noted.new.items ≡ 65536 }
    ensures rises { Rises reader noted.old.items noted.new.items }
    ensures absorbs { Absorbs tales.now noted.new.items reader number tale.now }
{
    if number == 0 {
        return;
    }
    let Some(point) = tale.added() else { return };
    if let Some(Tale::Wrote { items, .. }) = tales.get(number as usize - 1) {
        note_items(noted, reader, items, &point);
    }
}
