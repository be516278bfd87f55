//! The file of a gateway: from a text to settings, or to the fault that it has.
#![tactic(auto)]

mod endpoint;
mod entry;
mod fault;
mod file;
mod key;
mod reading;
mod section;
mod tariff;
mod tenant;

pub use fault::{ConfigFault, Reason};
pub use file::read_settings;
pub use key::{Key, Location};
