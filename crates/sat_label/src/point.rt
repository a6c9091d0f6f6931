//! Points: where and when a label was made.
ghost use Rattle.std.specs.Prelude.{◌≡◌, ℕ, ◌+◌, ◌++◌, OnOk, OnErr};
ghost use Rattle.sat_label.specs.Order.{greater_point, mark, point_eq, point_lt, zero_point};
ghost use Rattle.sat_label.specs.Text.{point_text, AppendsFront};

use crate::limits::MARK_GEAR;
use std::alloc::AllocError;

/// A point, ordered by timestamp, then site, then gear. The order is Saturn's total order of labels,
/// by timestamp and then source.
#[derive(Clone, Copy, Debug, PartialEq, Eq, PartialOrd, Ord)]
pub struct Point {
    /// The timestamp, at most [`TS_END`](crate::TS_END).
    pub ts: u64,
    /// The site at which it was made.
    pub site: u16,
    /// The gear of that site; 65534 is a pulse's, 65535 a mark's.
    pub gear: u16,
}

impl Point {
    /// The least point, which no label has.
    pub fn zero() -> Point
        ensures { result ≡ zero_point }
    {
        Point {
            ts: 0,
            site: 0,
            gear: 0,
        }
    }

    /// The highest point of a site at a timestamp.
    pub fn mark(ts: u64, site: u16) -> Point
        ensures { result ≡ mark ts site }
    {
        Point {
            ts,
            site,
            gear: MARK_GEAR,
        }
    }

    /// Whether this point comes before another.
    pub fn is_below(&self, other: &Point) -> bool
        ensures { result ≡ point_lt self.now other.now }
    {
        self < other
    }

    /// Whether the two are one point.
    pub fn is_same(&self, other: &Point) -> bool
        ensures { result ≡ point_eq self.now other.now }
    {
        self == other
    }

    /// The greater of two points.
    pub fn greater(self, other: Point) -> Point
        ensures { result ≡ greater_point self other }
    {
        if self < other { other } else { self }
    }
}

/// Appends the text of a point, `ts.site.gear`. For want of memory a front of it may stand there.
pub fn write_point(p: &Point, out: &mut Vec<u8>) -> Result<(), AllocError>
    ensures ok { OnOk result (out.new.items ≡ out.old.items ++ point_text p.now) }
    ensures err { OnErr result (AppendsFront out.old.items out.new.items (point_text p.now)) }
{
    let alloc = *out.allocator();
    let (ts, site, gear) = (p.ts, p.site, p.gear);
    let text = format!(in alloc; "{ts}.{site}.{gear}")?;
    out.extend_from_slice(text.as_bytes())?;
    Ok(())
}
