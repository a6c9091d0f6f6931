//! Settle on a world: everything that can still move moves, until nothing does. And a large script made from two
//! numbers.
#![tactic(auto)]

mod acts;
mod bulks;
mod keeping;
mod load_acts;
mod load_draft;
mod load_draws;
mod load_header;
mod load_rows;
mod load_script;
mod load_texts;
mod opening;
mod settling;
mod trying;

pub use keeping::{MOST_KEPT, settle_keeping};
pub use load_acts::LoadActs;
pub use load_draft::Draft;
pub use load_header::deployment;
pub use load_script::{MOST_LOADED, load};
pub use load_texts::drawn_value;
pub use settling::settle;
