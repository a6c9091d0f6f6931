//! Nodes over a transport of the builder's, which may lose, delay, double and reorder what it carries.
#![tactic(auto)]

mod acting;
mod host;
mod making;
mod received;
mod serial;
mod site;

pub use acting::{act_at_site, kill_at_serializer};
pub use host::Host;
pub use making::{Hosts, hosts_keep, serializer_host, site_host};
pub use received::Received;
pub use serial::receive_at_serializer;
pub use site::receive_at_site;
