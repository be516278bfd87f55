//! The connections of browsers and scrapes: heads come in, and one answer goes out of each.
#![tactic(auto)]

mod client;

pub use client::{Stage, WebClient};
