//! Tests of whole paths: scripts and tables through the program, and what it reads and writes, as texts. A crate that
//! has tests is proved twice, so these stand in one of their own.
#![tactic(auto)]

#[cfg(test)]
mod broken;
#[cfg(test)]
mod bytes;
#[cfg(test)]
mod chained;
#[cfg(test)]
mod drawings;
#[cfg(test)]
mod gears;
#[cfg(test)]
mod judged;
#[cfg(test)]
mod lasting;
#[cfg(test)]
mod living;
#[cfg(test)]
mod outside;
#[cfg(test)]
mod parts;
#[cfg(test)]
mod program;
#[cfg(test)]
mod rows;
#[cfg(test)]
mod sinks;
#[cfg(test)]
mod stopped;
#[cfg(test)]
mod stores;
#[cfg(test)]
mod tables;
#[cfg(test)]
mod texts;
#[cfg(test)]
mod torn;
