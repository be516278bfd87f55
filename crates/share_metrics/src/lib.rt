//! The metrics of a gateway: the text of its status for a scrape.
#![tactic(auto)]

mod family;
mod text;

pub use family::{GatewayFamily, TenantFamily};
pub use text::metrics_text;
