//! A machine that survives a stop: its inputs are journalled on a disk before they are answered.
#![tactic(auto)]

mod adding;
mod appending;
mod creation;
mod disk;
mod durable;
mod laws;
mod machine;
mod memory;
mod past;
mod recovery;
mod replay;
#[cfg(test)]
mod tests;

pub use appending::{AppendFault, Journal};
pub use creation::create;
pub use disk::{Disk, Failed};
pub use durable::{Durable, DurableFault, StepFault};
pub use laws::journal_is_exact;
pub use machine::Machine;
pub use memory::MemoryDisk;
pub use past::Past;
pub use recovery::{Recovered, recover};
