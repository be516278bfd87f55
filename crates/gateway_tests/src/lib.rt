//! Tests of a gateway's core, over the public calls of share_gateway, share_book, share_transit, share_orders and
//! share_lives.
#![tactic(auto)]

#[cfg(test)]
mod tests;
