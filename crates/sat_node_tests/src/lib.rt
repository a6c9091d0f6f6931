//! Tests of running nodes: clusters, how they end, and what is told of histories that are not whole. A crate that has
//! tests is proved twice, so these stand in one of their own.
#![tactic(auto)]

#[cfg(test)]
mod apart;
#[cfg(test)]
mod cluster;
#[cfg(test)]
mod finish;
#[cfg(test)]
mod links;
#[cfg(test)]
mod nodes;
#[cfg(test)]
mod outcome;
#[cfg(test)]
mod parts;
#[cfg(test)]
mod undone;
