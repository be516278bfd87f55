//! Scripts: their lines, read from bytes, and whole scripts, run on a link from a reader to a writer. Connections:
//! their lines, as they come.
#![tactic(auto)]

mod answers;
mod carry;
mod chunk;
mod laws;
mod lines;
mod script;
mod spool;

pub use laws::lines_given_are_of_the_text;
pub use lines::{Incoming, IncomingLines};
pub use script::{ScriptFault, run_script};
pub use share_model::{Fault, Line, Tape};
pub use share_text::{
    Length, MAX_SEND_LINE, MAX_SHORT_LINE, ShortText, print_bytes, read_length, read_line, spell,
    spelled_command, spelled_length, spelled_send, spelled_turn, write_event, write_line,
    write_reply, write_turn, written_lines_are_read,
};
