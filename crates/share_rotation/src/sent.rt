//! The traffic of each flow since the start.

use share_base::FlowNo;
use std::alloc::{AllocError, Global};

/// The greatest flow number.
const FLOWS: usize = 1024;

/// The frames of a flow that were scheduled since the start.
#[derive(Clone, Copy, Debug, PartialEq, Eq)]
pub struct Sent {
    pub packets: u64,
    pub bytes: u64,
}

/// The traffic of each flow, over all books.
#[derive(Drop)]
pub(crate) struct SentCounts {
    flows: Vec<Sent>,
}

const NOTHING: Sent = Sent {
    packets: 0,
    bytes: 0,
};

impl SentCounts {
    /// Nothing was sent.
    pub(crate) fn new(alloc: Global) -> Result<SentCounts, AllocError> {
        Ok(SentCounts {
            flows: vec![in alloc; NOTHING; FLOWS]?,
        })
    }

    /// A frame of a flow was scheduled, with that many bytes.
    pub(crate) fn add(&mut self, flow: FlowNo, bytes: u32) {
        if let Some(sent) = self.flows.get_mut(place_of(flow)) {
            sent.packets = sent.packets.saturating_add(1);
            sent.bytes = sent.bytes.saturating_add(u64::from(bytes));
        }
    }

    /// The traffic of a flow.
    pub(crate) fn of(&self, flow: FlowNo) -> Sent {
        self.flows.get(place_of(flow)).copied().unwrap_or(NOTHING)
    }
}

// The index of a flow's counts: flows are numbered from 1.
fn place_of(flow: FlowNo) -> usize {
    flow.0.saturating_sub(1) as usize
}
