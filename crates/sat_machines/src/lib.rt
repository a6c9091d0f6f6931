//! Sites and serializers as machines of running nodes.
#![tactic(auto)]

mod kept_sites;
mod laid;
mod parts;
mod serial_act;
mod serial_node;
mod site_act;
mod site_answer;
mod site_node;

pub use kept_sites::kept_by_one;
pub use laid::Laid;
pub use parts::links;
pub use serial_act::{SerialAct, SerialAnswer};
pub use serial_node::SerialNode;
pub use site_act::SiteAct;
pub use site_answer::SiteAnswer;
pub use site_node::{SiteNode, beat_for, copy_plain, has_peer, is_peer, payload_for};
