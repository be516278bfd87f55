//! The connections of a server, and the uplink: which are open, how they are ended, and what each gives after that.
#![tactic(auto)]

mod connections;
mod reason;
mod uplink;

pub use connections::{ConnectionReader, Connections, Kind, Listening, end_at_eof};
pub use reason::Reason;
pub use uplink::{Uplink, UplinkSocket};
