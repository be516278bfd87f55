//! A link that is served over sockets: its threads, and its run from the first connection to the report.
#![tactic(auto)]

mod refused;
mod serve;
mod threads;

pub use serve::serve_on;
pub use share_served::{AuditFile, Keep, Plan, Reason, RunFault, ServeFault, Sockets, found_at};
