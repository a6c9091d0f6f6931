//! The least of some numbers.
ghost use Rattle.std.specs.Prelude.{◌≡◌, nat_lt, if◌then◌else◌};

/// A number and what it costs.
#[derive(Clone, Copy)]
pub struct Best {
    pub number: u16,
    pub cost: u64,
}

impl Best {
    /// The better of this and a later one: the later one only where it costs less.
    pub fn or(self, number: u16, cost: u64) -> Best
        ensures { result ≡ (if nat_lt cost self.cost then record { number = number; cost = cost } else self) }
    {
        if cost < self.cost {
            Best { number, cost }
        } else {
            self
        }
    }
}
