//! Types of the ingress side that definitions and code share.
use share_base::{Name, Parcel};
use std::collections::LinkedList;

/// The end of a reader of records.
#[derive(Clone, Copy, Debug, PartialEq, Eq)]
pub enum Ended {
    /// The input ended after a whole record, or was empty.
    End,
    /// The input ended inside a record.
    Cut,
    /// A field is out of its range.
    BadRecord,
    /// A read failed.
    Fault,
    /// Memory was refused.
    NoMemory,
    /// One more read was needed, and none was left.
    Bound,
}

/// A record that a worker queued. Each worker counts its own from 1.
#[derive(Drop)]
pub struct Offer {
    pub worker: u64,
    pub n: u64,
    pub name: Name,
    pub parcel: Parcel,
}

/// The view that an end of the queue, or its intake, has of the queue. It is for contracts only: no value of it is
/// made.
#[derive(Drop)]
pub struct QueueView {
    /// It is the intake, the only one that pops.
    pub gets: bool,
    /// It is the end of a worker, the only one that pushes that worker's offers.
    pub sends: bool,
    pub worker: u64,
    /// The items that this end pushed.
    pub pushed: LinkedList<Offer>,
    /// The items that the intake popped.
    pub popped: LinkedList<Offer>,
    /// The items in the queue just after the last pop.
    pub ahead: LinkedList<Offer>,
    /// The number of ends made.
    pub made: u64,
    /// The workers whose ends were joined to the intake.
    pub closed: LinkedList<u64>,
}
