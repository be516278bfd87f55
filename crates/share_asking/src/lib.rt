//! Control lines as their sender sees them: how they are sent, and which replies they get.
#![tactic(auto)]

mod batch;
mod reply;
mod talk;

pub use batch::{AHEAD, batch_len};
pub use reply::{goes_on, is_end, is_refusal};
pub use talk::{AskFault, ask};
