//! A process of a site or of a serializer, as a loop over a transport and a disk of the builder's.
#![tactic(auto)]

mod hosted;
mod letters;
mod outcomes;
mod process;
mod serial;
mod site;
mod speaking;
mod starting;
mod storing;

pub use hosted::{Became, Hosted};
pub use outcomes::{Asked, Ended, Heard, Turned};
pub use process::Process;
pub use starting::{ProcessFault, create, recover};
pub use storing::processes_keep;
