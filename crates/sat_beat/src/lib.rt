//! Beats: what a site tells another of how far it has come.
#![tactic(auto)]

ghost use Rattle.std.specs.Prelude.{◌≡◌, IfOk};

mod beats;
mod taken;

pub use beats::{BeatTake, Beats};
use sat_label::{Counts, Point, Points};
use std::alloc::AllocError;

/// A site's cut, its close cuts so far (of the epochs 1, 2 and so on), and for each of its gears the number of payloads
/// that it made for the beat's target by its last gather.
#[derive(Drop)]
pub struct Beat {
    pub cut: Point,
    pub closes: Points,
    pub counts: Counts,
}

impl Beat {
    /// The same beat again.
    pub fn copy(&self) -> Result<Beat, AllocError>
        ensures { IfOk result (λ beat. beat ≡ self.now) }
    {
        let closes = self.closes.copy()?;
        let counts = self.counts.copy()?;
        Ok(Beat {
            cut: self.cut,
            closes,
            counts,
        })
    }
}
