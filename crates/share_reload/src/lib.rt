//! The changes that a file that is read again may make while a gateway runs. No file is read and no socket is
//! opened here.
#![tactic(auto)]

mod clash;
mod fault;
mod holds;
mod origin;
mod roster;
mod roster_laws;
mod section;

pub use clash::{Clash, Numbered};
pub use fault::{ReloadFault, reload_fault};
pub use holds::{ControlHold, ControlHolds};
pub use origin::{PortOrigin, port_origin};
pub use roster::{NotAdmitted, Roster};
pub use roster_laws::names_keep_their_numbers;
pub use section::{Section, changed_section};
