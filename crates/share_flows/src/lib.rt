//! The buffers of the open flows: a ring of packets for each. All its memory is taken when the flow is opened.
#![tactic(auto)]

mod buffers;
mod ring;

pub use buffers::{BufferHandle, Buffers};
pub use ring::MAX_LIMIT;
