//! Tests of a server beside its contracts.

mod assertions;
mod audit;
mod control;
mod faults;
mod made;
mod servers;
mod stopping;
