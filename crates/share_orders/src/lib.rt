//! The orders of control lines: how they are spelled, what they do to a book, and what they are answered.
#![tactic(auto)]

mod obeying;
mod orders;
mod replies;

pub use obeying::{Duty, Obeyed, obey, obey_line};
pub use orders::{Order, read_order};
pub use replies::{MAX_REPLIES, Replies, book_text, fault_text, reply_text, report_text};
