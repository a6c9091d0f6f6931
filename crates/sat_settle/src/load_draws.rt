//! The generator that a large script is drawn from.
ghost use Rattle.std.specs.Prelude.{◌≡◌, ◌<◌};
ghost use Rattle.sat_settle.specs.LoadDraws.{next_state, number_of};

use std::marker::Model;

/// A linear congruential generator modulo 2^64 (Knuth's constants for MMIX), of whose states the upper 31 bits are
/// used. Contracts see its state.
#[derive(Drop)]
pub struct Draws {
    state: u64,
}

impl Model for Draws {
    ghost use Rattle.std.specs.Prelude.{ℕ};

    ghost Value = { ℕ };

    ghost view = { λ a. a.state };
}

impl Draws {
    /// The generator in this state.
    pub fn new(seed: u64) -> Draws
        ensures { result ≡ seed }
    {
        Draws { state: seed }
    }

    /// Goes on to the next state, and answers the number below `count` that it gives.
    #[tactic(auto, using(crate::proofs::LoadDraws::wrapped), unfolding(crate::specs::LoadDraws::next_state, crate::specs::LoadDraws::number_of))]
    pub fn draw(&mut self, count: u16) -> u16
        requires { 0 < count }
        ensures state { self.new ≡ next_state self.old }
        ensures number { result ≡ number_of (next_state self.old) count }
        ensures below { result < count }
    {
        self.state = self
            .state
            .wrapping_mul(6_364_136_223_846_793_005)
            .wrapping_add(1_442_695_040_888_963_407);
        ((self.state >> 33) % u64::from(count)) as u16
    }
}
