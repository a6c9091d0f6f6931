//! Sessions: what a client or the operator does at running nodes, and what was noted of it.
#![tactic(auto)]

mod answers;
mod lent;
mod nodes;
mod noted;
mod reply;
mod serial;
mod session;
mod site;

ghost use Rattle.sat_session.specs.Sessions.{SessionsFit};

pub use answers::read_of;
pub use lent::Lent;
pub use nodes::is_at;
pub use noted::Noted;
pub use reply::Reply;
pub use session::Session;
pub use site::one_value;

/// What sessions kept fits the journals of nodes that noted the same, whatever links those have; so they make one run.
pub fn sessions()
    ensures fit { SessionsFit }
{}
