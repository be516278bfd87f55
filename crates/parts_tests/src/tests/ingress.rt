//! share_ingress: readers, the queue and workers in use, as worked examples, and what no contract says.

mod made;
mod memory;
mod queueing;
mod reading;
mod working;
