//! The settings of a gateway: its uplink, books, control, ports, downlink, web listener, tariffs and plan. No file is
//! read here.
#![tactic(auto)]

mod port;
mod section;
mod settings;
mod text;

pub use port::{Listener, Peer, Port, TenantPorts};
pub use section::{BookText, Books, Control, Downlink, Uplink, Web};
pub use settings::Settings;
pub use text::Text;
