//! The epochs of one site: the one that it views, the one that it emits in, and which sites' closes it heard.
#![tactic(auto)]

mod views;

pub use views::{AdvanceFault, CloseFault, FallFault, Views};
