//! Hubs, gears and serializers out of their locks, and the sessions that came back: one journal of a run, or where they
//! are not one.
#![tactic(auto)]

mod acts;
mod fault;
mod find;
mod finish;
mod gear_parts;
mod hub_parts;
mod joint;
mod marks;
mod nodes;
mod opened;
mod part;
mod same;
mod shown;
mod site_marks;
mod walk;

pub use fault::{Ended, FinishFault};
pub use joint::{Given, Joint};
pub use opened::Opened;
