//! A walk of two lists from the front.
ghost use Rattle.std.specs.Prelude.{ℕ, ◌≡◌, ◌↔◌, None, IfSome, length, min};
ghost use Rattle.sat_apart.specs.Lists.{IsApart, Rising, ends_apart, members_apart, under};

use std::cmp::min;

/// A value that stands under a number.
pub trait Numbered {
    ghost use Rattle.std.specs.Prelude.{◌≡◌, ◌↔◌, ℕ, true};

    /// The number under which it stands.
    ghost place: { Self → ℕ };

    /// The number under which it stands.
    fn number(&self) -> u64
        ensures { result ≡ place self.now };

    /// Whether it is the same as another.
    fn is_same(&self, other: &Self) -> bool
        ensures { (result ≡ true) ↔ (self.now ≡ other.now) };
}

/// The least number under which two lists do not have the same, and at which place each has it, None where it has none.
#[derive(Clone, Copy, Debug, PartialEq, Eq)]
pub struct Apart {
    pub number: u64,
    pub left: Option<usize>,
    pub right: Option<usize>,
}

// How many members the shorter list has.
fn shorter<T: Numbered>(left: &[T], right: &[T]) -> usize
    ensures { result ≡ min (length left.now) (length right.now) }
{
    min(left.len(), right.len())
}

// Of two members at this place that are not the same, the one of the lesser number, or both.
fn at_members<T: Numbered>(left: &T, right: &T, place: usize) -> Apart
    ensures { result ≡ members_apart (T.place left.now) (T.place right.now) place }
{
    let first = left.number();
    let second = right.number();
    if first < second {
        return Apart {
            number: first,
            left: Some(place),
            right: None,
        };
    }
    if second < first {
        return Apart {
            number: second,
            left: None,
            right: Some(place),
        };
    }
    Apart {
        number: first,
        left: Some(place),
        right: Some(place),
    }
}

// Of two lists that are the same up to the end of one of them, what stands first behind that.
fn at_end<T: Numbered>(left: &[T], right: &[T], place: usize) -> Option<Apart>
    ensures { result ≡ ends_apart T.place left.now right.now place }
{
    if let Some(member) = left.get(place) {
        return Some(Apart {
            number: member.number(),
            left: Some(place),
            right: None,
        });
    }
    let member = right.get(place)?;
    Some(Apart {
        number: member.number(),
        left: None,
        right: Some(place),
    })
}

/// The least number under which two lists do not have the same, None exactly where they are one list. The time is
/// linear.
pub fn first_apart<T: Numbered>(left: &[T], right: &[T]) -> Option<Apart>
    requires left { Rising T.place left.now }
    requires right { Rising T.place right.now }
    ensures none { (result ≡ None) ↔ (left.now ≡ right.now) }
    ensures apart { IfSome result (λ a. IsApart T.place left.now right.now a) }
    ensures numbers { (left.now ≡ right.now) ↔ ((n : ℕ) → under T.place n left.now ≡ under T.place n right.now) }
{
    let shared = shorter(left, right);
    for place in 0..shared {
        if !left[place].is_same(&right[place]) {
            return Some(at_members(&left[place], &right[place], place));
        }
    }
    at_end(left, right, shared)
}
