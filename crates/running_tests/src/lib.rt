//! Tests of a running link, over the public calls of share_locked.
#![tactic(auto)]

mod tariffs;
#[cfg(test)]
mod tests;

pub use tariffs::ByByte;
