//! The parts of a served link before and after its threads: its set-up, its places, its faults, the file of its
//! audit, and its closing. Beside these, the work at one ingress connection.
#![tactic(auto)]

mod audit_file;
mod faults;
mod ingress;
mod setup;
mod shutdown;
mod slots;

pub use audit_file::{AuditFile, Keep, found_at, has_file};
pub use faults::{FoundFaults, Reasons, RunFault, ServeFault};
pub use ingress::{why_text, work};
pub use setup::{Listeners, NewLink, Plan, Setup, Sockets, set_up};
pub use share_connections::Reason;
pub use shutdown::{StoppedLink, close};
pub use slots::{
    BrandedEnd, EmptySlots, Slot, filled, make_slots, take_clerks, take_ends, with_clerks,
};
