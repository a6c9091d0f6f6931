//! Bulk data: payloads, and what a gather drains from a gear.
#![tactic(auto)]

ghost use Rattle.std.specs.Prelude.{◌≡◌, IfOk};

mod payload;
mod window;

pub use payload::{Parts, Payload};
use sat_label::{Counts, Labels};
use std::alloc::AllocError;
pub use window::{Take, Window};

/// What a gather takes from a gear: its new labels, its promise, and for each site the number of payloads made for it
/// so far.
#[derive(Drop)]
pub struct Drained {
    pub labels: Labels,
    pub promise: u64,
    pub counts: Counts,
}

impl Drained {
    /// The same again.
    pub fn copy(&self) -> Result<Drained, AllocError>
        ensures { IfOk result (λ drained. drained ≡ self.now) }
    {
        let labels = self.labels.copy()?;
        let counts = self.counts.copy()?;
        Ok(Drained {
            labels,
            promise: self.promise,
            counts,
        })
    }
}
