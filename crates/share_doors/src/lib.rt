//! The doors of tenants: the connections and the packet ports on which each tenant's packets come in, and go out.
#![tactic(auto)]

mod buffered;
mod connections;
mod deliveries;
mod door;
mod outgoing;
mod packet_port;
mod packet_reader;
mod sender;

pub use door::{Door, Filled, MAX_SENDERS};
pub use packet_port::{ClosedPort, PacketPort, PortEnd};
pub use sender::{Came, ClosedSender, ClosedWhy, Sender};
