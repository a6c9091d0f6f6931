//! Tests of stores of hosts and of processes, over transports that lose, double and reorder. A crate that has tests is
//! proved twice, so these stand in one of their own.
#![tactic(auto)]

#[cfg(test)]
mod asks;
#[cfg(test)]
mod begin;
#[cfg(test)]
mod letters;
#[cfg(test)]
mod lossy;
#[cfg(test)]
mod net;
#[cfg(test)]
mod shared;
#[cfg(test)]
mod story;
