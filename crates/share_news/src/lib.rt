//! The lines that a gateway prints as things happen, and why it did not begin or go on.
#![tactic(auto)]

mod faults;
mod news;

pub use faults::{NotRun, PortName};
pub use news::News;
