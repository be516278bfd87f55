//! The dynamic stride queue: which flow of a link is served next, in proportion to the tickets of those that compete.
#![tactic(auto)]

mod cached_stride;
mod client;
mod heap;
mod index;
mod laws;
mod moves;
mod queue;
mod seating;
mod table;

pub use laws::{
    levelling_levels, moves_commute, moves_in_any_order, next_is_unique, removal_commutes,
    runs_stay_close, shares_stay_close,
};
pub use queue::Queue;
pub use share_model::{GlobalPart, Position};
