//! The pure core of a gateway: plans, the outbox, and records and frames that come in pieces.
#![tactic(auto)]

mod byte_queue;
mod frames;
mod opened;
mod openings;
mod outbox;
mod plan;
mod plan_laws;
mod records;
mod tickets;

pub use frames::{FRAMES_ROOM, FrameCut, Frames, streams_are_cut_into_frames};
pub use opened::{MIN_EVENTS, NotOpened, open_engine};
pub use openings::{OpeningCommands, PlanCommand, opening};
pub use outbox::{OUTBOX, Outbox, outboxes_give_frames_in_order};
pub use plan::{
    Currency, Entry, Grant, MAX_FLOW_NUMBER, MAX_FUNDING_COMMANDS, Plan, PlanFault, Tenant,
};
pub use plan_laws::opened_links_hold_their_plans;
pub use records::{Cut, RECORDS_ROOM, Records, streams_are_cut_into_records};
pub use share_frame::Field;
