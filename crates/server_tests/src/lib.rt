//! Tests of the server, over the public calls of share_control and share_server.
#![tactic(auto)]

pub mod failing;
#[cfg(test)]
mod tests;
