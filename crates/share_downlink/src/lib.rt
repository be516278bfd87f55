//! The far end of a gateway: the frames of another gateway come in, and each packet is given to what takes it.
#![tactic(auto)]

mod connection;
mod counts;
mod datagrams;
mod deliver;
mod downlink;
mod incoming;

pub use connection::{ClosedConnection, ClosedWhy};
pub use counts::Counts;
pub use datagrams::{Datagrams, Tally, takes_address};
pub use deliver::Deliver;
pub use downlink::{Downlink, MAX_WAITING};
