//! Tests of what a gateway reports of itself, over the public calls of share_messages, share_status, share_web and
//! share_metrics.
#![tactic(auto)]

#[cfg(test)]
mod tests;
