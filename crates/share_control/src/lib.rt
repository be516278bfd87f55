//! The service of a control connection: its lines are answered one after the other.
#![tactic(auto)]

mod attending;
mod requests;

pub use attending::{Attended, How, attend};
pub use requests::Request;
