//! What stands before an answer.
ghost use Rattle.std.specs.Prelude.{◌≡◌, ◌≤◌, Some, None, drop, length, is_some};
ghost use Rattle.sat_report.specs.Frames.{digits_of, next_front};

use itoa::write_digits;
use std::marker::Model;

/// The most digits of a number.
pub(crate) const NUMBER_DIGITS: usize = 20;

/// The number of a line, or nothing. Contracts see the number. Its digits are kept, since the next number mostly has
/// all but the last of them.
#[derive(Drop)]
pub struct LineFront {
    number: Option<u64>,
    digits: [u8; NUMBER_DIGITS],
    start: usize,
}

impl Model for LineFront {
    ghost use Rattle.std.specs.Prelude.{◌≡◌, ◌≤◌, Option, ℕ, drop};
    ghost use Rattle.sat_report.specs.Frames.{digits_of};

    ghost Value = { Option ℕ };

    ghost view = { λ f. f.number };

    ghost invariant = { λ f. (f.start ≤ 20) × (drop f.start f.digits ≡ digits_of f.number) };
}

impl LineFront {
    /// Of an answer that stands by itself.
    #[tactic(auto, unfolding(crate::specs::Frames::digits_of))]
    pub(crate) fn nothing() -> LineFront
        ensures { result ≡ None }
    {
        LineFront {
            number: None,
            digits: [0; NUMBER_DIGITS],
            start: NUMBER_DIGITS,
        }
    }

    /// Of the line with this number.
    #[tactic(auto, unfolding(crate::specs::Frames::digits_of))]
    pub fn of(number: u64) -> LineFront
        ensures { result ≡ Some number }
    {
        let mut digits = [0; NUMBER_DIGITS];
        let start = write_digits(number, &mut digits, NUMBER_DIGITS);
        LineFront {
            number: Some(number),
            digits,
            start,
        }
    }

    /// Goes on to the next line. Nothing stays nothing, and so does the greatest number.
    pub fn advance(&mut self)
        ensures { self.new ≡ next_front self.old }
    {
        let Some(number) = self.number else {
            return;
        };
        if number == u64::MAX {
            return;
        }
        let last = self.digits[NUMBER_DIGITS - 1];
        if last < b'9' {
            self.digits[NUMBER_DIGITS - 1] = last + 1;
            self.number = Some(number + 1);
        } else {
            *self = LineFront::of(number + 1);
        }
    }

    pub(crate) fn is_number(&self) -> bool
        ensures { result ≡ is_some self.now }
    {
        self.number.is_some()
    }

    /// Its digits behind so many bytes.
    pub(crate) fn parts(&self) -> (&[u8; NUMBER_DIGITS], usize)
        ensures long { length result.0.now ≡ 20 }
        ensures start { result.1 ≤ 20 }
        ensures digits { drop result.1 result.0.now ≡ digits_of self.now }
    {
        (&self.digits, self.start)
    }
}
