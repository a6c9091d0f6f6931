//! Which numbers of a lane were taken.
ghost use Rattle.std.specs.Prelude.{◌≡◌, ◌≤◌, ◌⊎◌, ◌-◌, ◌<◌, ◌+◌, ◌^◌, ◌==◌, ◌||◌, ◌++◌, false, true, ℕ, [], ◌∷◌};
ghost use Rattle.std.specs.Prelude.{length, set, replicate, slice_get, if◌then◌else◌, nat_lt, IfOk, OnOk, OnErr};
ghost use Rattle.sat_label.specs.Words.{has};
ghost use Rattle.sat_bulk.specs.Windows.{after_take, has_number, marked, placed, settled, passed, starts_at, IsWindow};
ghost use Rattle.sat_bulk.specs.Windows.{RisesFrom};

use std::alloc::{AllocError, Global};
use std::collections::{BTreeSet, VecDeque};
use std::marker::Model;

/// What became of a number, or a payload, that came.
#[derive(Clone, Copy, Debug, PartialEq, Eq)]
pub enum Take {
    /// It came for the first time.
    New,
    /// It was taken before.
    Again,
}

// So far above the front a number has a mark of its own, a byte. One further above is kept in a set.
const MOST_MARKS: u64 = 262_144;

/// The numbers of a lane that were taken, in any order: the front, below which all were, and those above it. A number
/// costs memory only until the front has come to it: a byte for each number up to the greatest that has a mark, and the
/// place in a set of one that lies further above.
#[derive(Drop)]
pub struct Window {
    front: u64,
    // of the numbers behind the front, one after another, whether each was taken
    marks: VecDeque<bool>,
    // those that were taken behind these
    far: BTreeSet<u64>,
}

impl Model for Window {
    ghost use Rattle.sat_bulk.specs.Windows.{AreApart, Numbers, told_by};

    ghost Value = { Numbers };

    ghost view = { λ a. told_by a.front a.marks.items a.far.keys };

    ghost invariant = { λ a. AreApart a.front a.marks.items a.far.keys };
}

// ---- the front moves on

// Whether a number is the least of a set.
fn starts_at(numbers: &BTreeSet<u64>, number: u64) -> bool
    ensures { result ≡ starts_at numbers.now.keys number }
{
    match numbers.first() {
        None => false,
        Some(first) => *first == number,
    }
}

// Takes the numbers that follow one another from the front on out of a set, and answers the front behind them.
#[tactic(auto, using(crate::proofs::Windows::settled_more, crate::proofs::Windows::settled_stops, crate::proofs::Windows::rises_more))]
fn pass(above: &mut BTreeSet<u64>, first: u64) -> u64
    requires { RisesFrom first above.old.keys }
    ensures { record { front = result; above = above.new.keys } ≡ settled first above.old.keys }
{
    let mut front = first;
    while starts_at(above, front) {
        let _ = above.pop_first();
        front += 1;
    }
    front
}

// Takes marks of numbers that were taken out, from the front on, with the one behind them, and answers the front then.
#[tactic(auto, using(crate::proofs::Marks::passed_none, crate::proofs::Marks::passed_more, crate::proofs::Marks::passed_hole))]
fn pass_marks(marks: &mut VecDeque<bool>, first: u64) -> u64
    requires { RisesFrom first (marked first marks.old.items) }
    ensures { (result, marks.new.items) ≡ passed first marks.old.items }
{
    let mut front = first;
    while let Some(mark) = marks.pop_front() {
        if !mark {
            return front;
        }
        front += 1;
    }
    front
}

// ---- a number above the front

// Whether a number is less than all of a set.
#[tactic(auto, using(crate::proofs::Marks::before_none, crate::proofs::Marks::before_first))]
fn is_before(number: u64, far: &BTreeSet<u64>) -> bool
    ensures { result ≡ true → (low : ℕ) → RisesFrom low far.now.keys → RisesFrom (number + 1) far.now.keys }
{
    match far.first() {
        None => true,
        Some(first) => number < *first,
    }
}

// Lays marks up to that of a number that was taken, so far behind the first one. For want of memory some were laid that
// tell no number.
fn lay(marks: &mut VecDeque<bool>, offset: usize) -> Result<(), AllocError>
    requires { length marks.old.items ≤ offset }
    ensures ok { OnOk result (marks.new.items
        ≡ marks.old.items ++ replicate (offset - length marks.old.items) false ++ true ∷ []) }
    ensures err { OnErr result ((marks.new.items ≡ marks.old.items)
        ⊎ (marks.new.items ≡ marks.old.items ++ replicate (offset - length marks.old.items) false)) }
{
    marks.resize(offset, false)?;
    if marks.push_back(true).is_err() {
        return Err(AllocError);
    }
    Ok(())
}

impl Window {
    /// A window of which no number was taken. It takes no memory.
    pub fn new(alloc: Global) -> Window
        ensures { result ≡ record { front = 0; above = [] } }
    {
        Window {
            front: 0,
            marks: VecDeque::new(alloc),
            far: BTreeSet::new(alloc),
        }
    }

    /// The least number that was not taken.
    pub fn front(&self) -> u64
        ensures front { result ≡ self.now.front }
        ensures limits { IsWindow self.now }
    {
        self.front
    }

    /// Whether a number was taken.
    #[tactic(auto, using(crate::proofs::Marks::has_low))]
    pub fn has(&self, number: u64) -> bool
        ensures { result ≡ has_number self.now number }
    {
        if number <= self.front {
            return number < self.front;
        }
        self.has_above(number)
    }

    // The same of a number above the front.
    #[tactic(auto, using(crate::proofs::Marks::has_mark, crate::proofs::Marks::has_far))]
    fn has_above(&self, number: u64) -> bool
        requires { self.now.front < number }
        ensures { result ≡ has_number self.now number }
    {
        let offset = number - self.front - 1;
        if offset < self.marks.len() as u64 {
            return self.marks[offset as usize];
        }
        self.far.contains(&number)
    }

    /// Takes a number below 2^64 - 1. At the front it takes no memory; for want of it all is as before.
    #[tactic(auto, using(crate::proofs::Windows::take_again, crate::proofs::Windows::take_has))]
    pub fn take(&mut self, number: u64) -> Result<Take, AllocError>
        requires { number + 1 < 2 ^ 64 }
        ensures answer { IfOk result (λ took. took ≡ (if has_number self.old number then Take.Again else Take.New)) }
        ensures new { OnOk result (self.new ≡ after_take self.old number) }
        ensures numbers { OnOk result ((k : ℕ) → has_number self.new k ≡ (has_number self.old k || (k == number))) }
        ensures err { OnErr result (self.new ≡ self.old) }
    {
        if self.has(number) {
            return Ok(Take::Again);
        }
        self.take_new(number)?;
        Ok(Take::New)
    }

    /// Takes a number below 2^64 - 1 that was not taken. At the front it takes no memory; for want of it all is as
    /// before.
    #[tactic(auto, using(crate::proofs::Windows::take_front, crate::proofs::Windows::take_above, crate::proofs::Windows::take_has))]
    pub fn take_new(&mut self, number: u64) -> Result<(), AllocError>
        requires small { number + 1 < 2 ^ 64 }
        requires new { has_number self.old number ≡ false }
        ensures new { OnOk result (self.new ≡ after_take self.old number) }
        ensures numbers { OnOk result ((k : ℕ) → has_number self.new k ≡ (has_number self.old k || (k == number))) }
        ensures err { OnErr result (self.new ≡ self.old) }
    {
        if number == self.front {
            self.advance();
            return Ok(());
        }
        self.mark(number)
    }

    /// Takes the number at the front. It takes no memory.
    #[tactic(auto, using(crate::proofs::Marks::advanced, crate::proofs::Marks::rises_front))]
    pub fn advance(&mut self)
        requires { self.old.front + 1 < 2 ^ 64 }
        ensures { self.new ≡ settled (self.old.front + 1) self.old.above }
    {
        let front = pass_marks(&mut self.marks, self.front + 1);
        self.front = pass(&mut self.far, front);
    }

    // Takes a number above the front that was not taken.
    #[tactic(auto, using(crate::proofs::Marks::mark_new, crate::proofs::Marks::mark_placed, crate::proofs::Marks::far_placed, crate::proofs::Marks::laid_placed, crate::proofs::Marks::pad_placed))]
    fn mark(&mut self, number: u64) -> Result<(), AllocError>
        requires small { number + 1 < 2 ^ 64 }
        requires above { self.old.front < number }
        requires new { has ◌==◌ self.old.above number ≡ false }
        ensures ok { OnOk result (self.new ≡ record { front = self.old.front; above = placed self.old.above number }) }
        ensures err { OnErr result (self.new ≡ self.old) }
    {
        let offset = number - self.front - 1;
        if offset < self.marks.len() as u64 {
            self.marks[offset as usize] = true;
            return Ok(());
        }
        if offset < MOST_MARKS && is_before(number, &self.far) {
            return lay(&mut self.marks, offset as usize);
        }
        self.far.insert(number)?;
        Ok(())
    }
}
