//! What the passes of a site do whose hub and gears have each a lock of its own, part by part. Nothing here takes a
//! lock: each function is lent what it changes. Gears keep up with what came, a hub gathers what its gears made, sends
//! and hears, and hub and gears show what can be shown.
#![tactic(auto)]

mod collecting;
mod coming;
mod keeping;
mod known;
mod lending;
mod showing;
mod talking;
mod watched;

pub use collecting::{gather, is_due};
pub use coming::{Next, pull_next};
pub use keeping::{promise_of, tick};
pub use lending::{Lent, lends};
pub use showing::show;
pub use talking::{hear, send};
pub use watched::Watched;
