//! A running link: the state behind its lock, its clerks, the worker that serves it, and its settling.
#![tactic(auto)]

mod backlogs;
mod clerk;
mod laws;
mod link;
mod locked;
mod pace;
mod paced;
mod running;
mod threads;

pub use clerk::{Clerk, Receipt};
pub use laws::shares_of_locked_calls;
pub use link::LinkBrand;
pub use locked::{Admit, Locked, Settled, Unsettled, WhyUnsettled, settle};
pub use pace::Pace;
pub use paced::{Attendant, run_paced_link};
pub use running::{LinkEnd, Port, Stop, run_link};
pub use threads::serve_while;
