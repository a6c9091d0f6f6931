//! The items of an update.
ghost use Rattle.std.specs.Prelude.{◌≡◌, ◌∷◌, length, false, IfSome, IsNone, ◌↔◌, ◌==◌};
ghost use Rattle.std.specs.Ordering.{nat_cmp};
ghost use Rattle.std.specs.Cmp.Lexicographic.{slice_cmp};
ghost use Rattle.sat_label.specs.Grouped.{are_items, ascends_from, least_item, list_of, list_of_some};
ghost use Rattle.sat_label.specs.Words.{has};

use crate::limits::MOST_WRITTEN;
use std::cmp::Ordering;

/// The items that one update writes: 1 to 4 numbers, which [`Items::of`] makes sure ascend strictly. Items come in the
/// order of the lists of their numbers: by the first that differs, and the front of a list before the whole.
#[derive(Clone, Copy, Debug)]
pub enum Items {
    /// One item.
    One(u16),
    /// Two items.
    Two(u16, u16),
    /// Three items.
    Three(u16, u16, u16),
    /// Four items.
    Four(u16, u16, u16, u16),
}

// Whether each number is above the one before it, the first above this one.
fn ascends_from(last: u16, items: &[u16]) -> bool
    ensures { result ≡ ascends_from last items.now }
{
    match items.split_first() {
        None => true,
        Some((next, rest)) => last < *next && ascends_from(*next, rest),
    }
}

/// Whether these numbers are the items of an update: 1 to 4, strictly ascending.
pub fn are_items(items: &[u16]) -> bool
    ensures { result ≡ are_items items.now }
{
    match items.split_first() {
        None => false,
        Some((first, rest)) => items.len() <= MOST_WRITTEN && ascends_from(*first, rest),
    }
}

impl Items {
    /// These items, None where they are not 1 to 4 strictly ascending numbers.
    pub fn of(items: &[u16]) -> Option<Items>
        ensures none { IsNone result ↔ (are_items items.now ≡ false) }
        ensures some { IfSome result (λ a. list_of a ≡ items.now) }
    {
        if !are_items(items) {
            return None;
        }
        match items.len() {
            1 => Some(Items::One(items[0])),
            2 => Some(Items::Two(items[0], items[1])),
            3 => Some(Items::Three(items[0], items[1], items[2])),
            _ => Some(Items::Four(items[0], items[1], items[2], items[3])),
        }
    }

    /// How many there are.
    pub fn len(&self) -> usize
        ensures { result ≡ length (list_of self.now) }
    {
        match *self {
            Items::One(_) => 1,
            Items::Two(_, _) => 2,
            Items::Three(_, _, _) => 3,
            Items::Four(_, _, _, _) => 4,
        }
    }

    /// Whether they ascend strictly, as those of [`Items::of`] do.
    pub fn ascend(&self) -> bool
        ensures { result ≡ are_items (list_of self.now) }
    {
        match *self {
            Items::One(_) => true,
            Items::Two(a, b) => a < b,
            Items::Three(a, b, c) => a < b && b < c,
            Items::Four(a, b, c, d) => a < b && b < c && c < d,
        }
    }

    /// Whether an item is one of them.
    pub fn has(&self, item: u16) -> bool
        ensures { result ≡ has ◌==◌ (list_of self.now) item }
    {
        match *self {
            Items::One(a) => a == item,
            Items::Two(a, b) => a == item || b == item,
            Items::Three(a, b, c) => a == item || b == item || c == item,
            Items::Four(a, b, c, d) => a == item || b == item || c == item || d == item,
        }
    }

    /// The first of them, which is the least.
    pub fn least(&self) -> u16
        ensures { result ≡ least_item (list_of self.now) }
    {
        match *self {
            Items::One(a) => a,
            Items::Two(a, _) => a,
            Items::Three(a, _, _) => a,
            Items::Four(a, _, _, _) => a,
        }
    }
}

impl PartialEq for Items {
    ghost use Rattle.std.specs.Prelude.{nat_eq};
    ghost use Rattle.std.specs.Cmp.{partial_equiv_from_equiv};
    ghost use Rattle.std.specs.Cmp.Lexicographic.{pointwise, on_texts_equal};

    ghost eq = { λ a b. pointwise nat_eq (list_of a) (list_of b) };

    ghost laws = { partial_equiv_from_equiv (on_texts_equal list_of) };

    fn eq(&self, other: &Items) -> bool {
        match (*self, *other) {
            (Items::One(a), Items::One(x)) => a == x,
            (Items::Two(a, b), Items::Two(x, y)) => a == x && b == y,
            (Items::Three(a, b, c), Items::Three(x, y, z)) => a == x && b == y && c == z,
            (Items::Four(a, b, c, d), Items::Four(x, y, z, w)) => {
                a == x && b == y && c == z && d == w
            }
            _ => false,
        }
    }
}

impl Eq for Items {
    ghost use Rattle.std.specs.Cmp.Lexicographic.{on_texts_equal};

    ghost laws = { on_texts_equal list_of };
}

// The items behind the first, none where there is one alone.
fn behind(items: &Items) -> Option<Items>
    ensures { list_of items.now ≡ least_item (list_of items.now) ∷ list_of_some result }
{
    match *items {
        Items::One(_) => None,
        Items::Two(_, b) => Some(Items::One(b)),
        Items::Three(_, b, c) => Some(Items::Two(b, c)),
        Items::Four(_, b, c, d) => Some(Items::Three(b, c, d)),
    }
}

// By the first number that differs, and the front of a list before the whole.
fn compare(items: &Items, others: &Items) -> Ordering
    ensures { result ≡ slice_cmp nat_cmp (list_of items.now) (list_of others.now) }
{
    let rest = match (behind(items), behind(others)) {
        (None, None) => Ordering::Equal,
        (None, Some(_)) => Ordering::Less,
        (Some(_), None) => Ordering::Greater,
        (Some(items), Some(others)) => compare(&items, &others),
    };
    items.least().cmp(&others.least()).then(rest)
}

impl PartialOrd for Items {
    ghost use Rattle.std.specs.Prelude.{Some};
    ghost use Rattle.std.specs.Cmp.{on_po};
    ghost use Rattle.std.specs.Cmp.Lexicographic.{texts_po};

    ghost partial_cmp = { λ a b. Some (slice_cmp nat_cmp (list_of a) (list_of b)) };

    ghost laws = { on_po list_of texts_po };

    fn partial_cmp(&self, other: &Items) -> Option<Ordering> {
        Some(compare(self, other))
    }
}

impl Ord for Items {
    ghost use Rattle.std.specs.Prelude.{refl};
    ghost use Rattle.std.specs.Cmp.Lexicographic.{on_texts, texts_ties};

    ghost cmp = { λ a b. slice_cmp nat_cmp (list_of a) (list_of b) };

    ghost total = { on_texts list_of };

    ghost matches_partial_cmp = { λ a b. refl };

    ghost matches_eq = { λ a b. texts_ties (list_of a) (list_of b) };

    fn cmp(&self, other: &Items) -> Ordering {
        compare(self, other)
    }
}
