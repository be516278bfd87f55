//! The report of a link: its totals and its open flows, in columns.
#![tactic(auto)]

mod engine;
mod laws;
mod lines;
mod text;

pub use engine::report;
pub use laws::{
    flows_fit_their_columns, idle_flows_show_no_tickets, lines_fill_their_columns,
    new_flows_show_no_place,
};
pub use share_model::Fault;
