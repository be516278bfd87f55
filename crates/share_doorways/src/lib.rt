//! The ports of all tenants: how they are opened, what comes by them, and what becomes of them when the file is read
//! anew.
#![tactic(auto)]

mod acceptor;
mod doorways;
mod keeping;
mod opening;
mod ports;
mod sources;

pub use acceptor::Acceptor;
pub use doorways::Doorways;
pub use opening::{not_opened, open_doors, open_port, token_of};
pub use ports::{PortAddress, address_of_control, listen, remove_file};
pub use sources::{Source, Sources};
