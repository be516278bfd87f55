//! The lines of scripts and of their answers: read from bytes, and spelled.
#![tactic(auto)]

mod hex;
mod laws;
mod lengths;
mod payload;
mod reading;
mod replies;
mod spelled;
mod spelling;
mod text;
mod words;
mod writing;

pub use hex::{print_bytes, spell};
pub use laws::written_lines_are_read;
pub use lengths::{Length, read_length};
pub use reading::{MAX_LINE, read_line, read_packet, read_turn};
pub use replies::{MAX_ANSWER, push_line};
pub use spelled::{
    MAX_SEND_LINE, MAX_SHORT_LINE, spelled_command, spelled_length, spelled_send, spelled_turn,
};
pub use text::{MAX_DIGITS, ShortText, Text};
pub use words::Words;
pub use writing::{write_event, write_line, write_reply, write_turn};
