//! Tests of the parts of a link, over the public calls of the crates below share_core and of share_ingress, with a
//! reader that the last one reads from.
#![tactic(auto)]

pub mod readers;
#[cfg(test)]
mod tests;
