//! The hub of a site: what its gears share. It has the label sink, the epochs and the remote proxy (Bravo, Rodrigues
//! and Van Roy, EuroSys 2017), and no gear: it is handed what gears gave, and answers what they are to show.
#![tactic(auto)]

mod beats;
mod fitting;
mod hub;
mod shape;
mod tally;

pub use fitting::{
    are_given, is_carried, is_given, is_here, is_move, is_other, is_own, is_read, is_tick,
    is_write, keeps_all,
};
pub use hub::Hub;
pub use shape::shape_of;
