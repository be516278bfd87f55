//! The journal of a link: each of its events with the reply and its source. A recorder keeps a link and its journal
//! together.
#![tactic(auto)]

mod audit;
mod entry;
mod journal;
mod laws;
mod recorder;

pub use entry::{Entry, Source};
pub use journal::Journal;
pub use laws::{arrivals_are_numbered, audits_replay, recorders_are_one_fold, shares_of_recorders};
pub use recorder::Recorder;
pub use share_model::Fault;
