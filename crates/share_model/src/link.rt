//! The state of a link beside its funding, its queue and its buffers, and its readings.

use share_base::{FlowNo, Name};

/// The books of an open flow: the number of its tariff on the shelf, from 1, its account, and whether it is held.
#[derive(Clone, Copy, Debug)]
pub struct Book {
    pub flow: FlowNo,
    pub tariff: u64,
    pub account: u64,
    pub held: bool,
}

/// A frame in part: the flow whose head packet it carries, and the number of its bytes that are out.
#[derive(Clone, Copy, Debug)]
pub struct Part {
    pub flow: FlowNo,
    pub out: u32,
}

/// The counts of a link in its life.
#[derive(Clone, Copy, Debug)]
pub struct Counts {
    /// Events, refused commands and arrivals among them.
    pub events: u64,
    /// Packets that were accepted.
    pub accepted: u64,
    /// Packets whose frames are whole.
    pub written: u64,
    /// Packets that waited in the buffers of flows when these were closed.
    pub dropped: u64,
    /// Bytes that were written, those of a frame in part or torn among them.
    pub sent: u64,
    /// The accounts of the flows that were closed, as they were then.
    pub past: u64,
}

/// Whether a frame is out in part.
#[derive(Clone, Copy, Debug, PartialEq, Eq)]
pub enum LinkState {
    /// No frame is in part.
    Free,
    /// Some bytes of a frame are out, and the others follow before any other frame.
    InPart,
    /// The writer failed, and the link is broken for good.
    Torn,
}

/// The counts of a link and its contents at this moment.
#[derive(Clone, Copy, Debug, PartialEq, Eq)]
pub struct Totals {
    /// Units that were charged.
    pub clock: u64,
    /// Packets that were accepted: those written, the torn one, and those that wait or were dropped.
    pub accepted: u64,
    /// Packets whose frames are whole.
    pub written: u64,
    /// 1 if the writer failed on a packet, and 0 otherwise.
    pub torn: u64,
    /// Packets in buffers, a torn one not counted.
    pub waiting: u64,
    /// Packets that waited in the buffers of flows when these were closed.
    pub dropped: u64,
    /// Bytes that were written, those of a frame in part or torn among them.
    pub bytes: u64,
    /// The accounts of the flows that were closed, as they were then.
    pub past: u64,
    /// The tickets of the flows that compete.
    pub tickets: u64,
    /// The global pass at the last update.
    pub pass: u128,
    pub link: LinkState,
}

/// An open flow, and the number of packets that wait in its buffer, a torn one not counted.
#[derive(Clone, Copy, Debug)]
pub struct Row {
    pub flow: FlowNo,
    pub name: Name,
    pub waiting: u32,
}

/// The backlog of an open flow: the packets that its buffer holds, a torn one included, and the most that it holds.
#[derive(Clone, Copy, Debug, PartialEq, Eq)]
pub struct Backlog {
    pub packets: u32,
    pub limit: u32,
}

/// Whether an open flow takes part in the race for the link.
#[derive(Clone, Copy, Debug, PartialEq, Eq)]
pub enum Standing {
    /// It competes.
    In,
    /// It has no packet or no tickets.
    Out,
    /// It is held.
    Held,
}

/// The line of an open flow in a report.
#[derive(Clone, Copy, Debug)]
pub struct FlowLine {
    pub flow: FlowNo,
    pub name: Name,
    /// The tickets at this moment: 0 while it is idle or held.
    pub tickets: u32,
    /// The packets in its buffer, a torn one not counted.
    pub waiting: u32,
    pub account: u64,
    pub standing: Standing,
    /// Its pass while it competes, its remain otherwise, which is 0 before it first competes.
    pub place: i128,
}
