//! Tests of links, their journals, scripts, reports and bills, over the public calls of these crates.
#![tactic(auto)]

#[cfg(test)]
mod tests;
