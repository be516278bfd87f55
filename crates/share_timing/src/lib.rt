//! The parts of a gateway that know of time: a rate that is kept, the pauses between dials, and the limit of messages
//! printed. The caller reads the clock.
#![tactic(auto)]

mod allowance;
mod limiter;
mod redial;

pub use allowance::{Allowance, DEBT, SAVED, rates_are_kept};
pub use limiter::{Limiter, Printing};
pub use redial::Redial;
