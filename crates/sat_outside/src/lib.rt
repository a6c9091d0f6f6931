//! The world outside: where bytes come from and go to, and what tells that it failed.
#![tactic(auto)]

mod clean;
mod endless;
mod gate;
mod memory;
mod standard;
mod traits;

pub use clean::{CleanSink, CleanSource};
pub use endless::LoopSource;
pub use gate::{FreeGate, Gate};
pub use memory::{MemorySink, MemorySource};
pub use standard::{StdSink, StdSource};
pub use traits::{Failed, Sink, Source};
