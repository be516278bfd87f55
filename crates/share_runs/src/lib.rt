//! Runs of scripts, with the line of the bytes at the end, and strict runs, which end at the first refused line.
#![tactic(auto)]

mod lines;
mod runs;
mod strict;

pub use lines::LineReader;
pub use runs::{run, run_strictly};
pub use strict::StrictWriter;
