//! The words that every layer of stridelink speaks: names, numbers, commands, replies, refusals, and
//! the payloads of packets. Plain types, each small enough to be read at a glance.
#![tactic(auto)]

mod command;
mod naming;
mod number;
mod parcel;
mod refusal;
mod version;

pub use command::{Command, Event, Outcome, Reply, Turn};
pub use naming::{MAX_NAME, Name};
pub use number::{FlowNo, TicketNo};
pub use parcel::{Body, MAX_IN_PLACE, Parcel, ZeroFrame};
pub use refusal::Refusal;
pub use version::{HEADER_ROOM, MAX_PAYLOAD, Version};
