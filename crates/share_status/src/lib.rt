//! The status of a gateway, and its text: one line of JSON.
#![tactic(auto)]

mod json_text;
mod status;
mod text;

pub use status::{
    DiskStatus, DownlinkState, DownlinkStatus, Status, TenantStatus, UplinkState, UplinkStatus,
};
pub use text::status_text;
