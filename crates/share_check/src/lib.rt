//! Whether the plan of a gateway's settings is sound: its opening is made on an engine that is then dropped.
#![tactic(auto)]

mod check;

pub use check::{Unsound, check_plan};
