//! Tests of a running link beside its contracts.

mod allocator;
mod assertions;
mod cases;
mod made;
mod memory;
mod pacing;
mod session;
mod stage;
mod writing;
