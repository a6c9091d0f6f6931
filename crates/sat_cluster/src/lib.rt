//! The running nodes of a deployment: a lock for each hub, each gear and each serializer, the sessions that were given,
//! what these do at the nodes, the nodes' passes, and the end.
#![tactic(auto)]

mod asking;
mod calls;
mod cluster;
mod fault;
mod groups;
mod locks;
mod passing;
mod room;

pub use cluster::Cluster;
pub use fault::SessionFault;
