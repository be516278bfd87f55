//! The definitions that the layers of stridelink are proved against, in `specs/`, with their laws beside them. The
//! crate has the plain types that these definitions and the code share. It has the traits of readers and writers that
//! report what they gave and took.
#![tactic(auto)]

pub mod allocator;
mod counts;
mod funding;
mod ingress;
mod laws;
mod line;
mod link;
mod output;
mod patient;
mod rates;
mod reader;
mod scripted;
mod scripted_reader;
mod stride;
mod tape;
mod writer;

pub use funding::{Holder, OpenFlow, Ticket};
pub use ingress::{Ended, Offer, QueueView};
pub use laws::{
    accounts_are_bills, answers_tell_lacks, bounds_of_runs, bytes_tell_packets, events_add_bytes,
    events_are_counted, events_keep_sound, numbers_rise, packets_are_kept,
    packets_are_sent_as_accepted, runs_are_level, runs_are_one_fold, scripts_are_runs,
    shares_are_within_of_runs, shares_of_calls, shares_of_runs, tickets_are_uncapped_of_runs,
};
pub use line::{HolderKind, Line};
pub use link::{Backlog, Book, Counts, FlowLine, LinkState, Part, Row, Standing, Totals};
pub use output::{Fault, put};
pub use patient::PatientWriter;
pub use rates::{Rate, Rates};
pub use reader::{Got, PlainReader, TellingReader};
pub use scripted::Scripted;
pub use scripted_reader::ScriptedReader;
pub use stride::{Client, GlobalPart, Position};
pub use tape::Tape;
pub use writer::{Answer, PlainWriter, TellingWriter};
