//! The currency ledger: currencies, the tickets that are denominated in them, and what the tickets fund.
//!
//! A contract sees a `Ledger` as a `Graph` of share_model. Each command changes it as `Changes` says, or is refused by
//! the table there and changes nothing. `tickets` gives the tickets of a flow of the graph as it is. The weight and the
//! value of each currency are kept, and its rank, which is above those of the currencies that back it. A change goes up
//! through the weights and down through the values, in one pass over the places each, rank by rank. No path is ever
//! walked: there can be 16^9 of them from `base` to a flow.
#![tactic(auto)]

mod activity;
mod bounds;
mod cache;
mod chains;
mod funding_tickets;
mod funds;
mod holders;
mod laws;
mod ledger;
mod ranks;
mod recomputing;
mod routes;
mod stale;
mod tables;
mod tickets;
mod valuation;

pub use ledger::Ledger;
