//! A client: one label that it carries from site to site, and its seat.
#![tactic(auto)]

mod client;

pub use client::Client;
