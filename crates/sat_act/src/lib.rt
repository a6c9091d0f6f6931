//! Deployments, acts, answers and entries, and the definitions of histories.
#![tactic(auto)]

mod act;
mod answer;
mod checks;
mod deployment;
mod entry;
mod fault;

pub use act::{Act, Acts};
pub use answer::{Answer, Refusal};
pub use deployment::{ClientLine, Deployment, Item, Plan};
pub use entry::{Entries, Entry};
pub use fault::DeploymentFault;
