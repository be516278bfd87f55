//! The engine of a link: commands, arrivals and turns, one event a call.
#![tactic(auto)]

mod books;
mod engine;
mod fields;
mod laws;
mod link;
mod next_write;
mod payload_buffers;

pub use engine::Engine;
pub use laws::{idle_links_are_done, shares_of_calls, tickets_are_shares};
pub use payload_buffers::PayloadBuffers;
pub use share_base::Turn;
use share_base::{HEADER_ROOM, MAX_PAYLOAD};
pub use share_model::{Row, Totals};

/// The most flows that are open at once.
pub const MAX_FLOWS: usize = 64;

/// The longest frame of any version, in bytes.
const MAX_FRAME: usize = HEADER_ROOM + MAX_PAYLOAD;

/// The longest life, in events.
pub const MAX_LIFE: u64 = 1 << 24;
