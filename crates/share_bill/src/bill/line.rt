//! Why a line is not the next one of a book.

use share_base::Refusal;
use std::fmt;
use std::fmt::{Display, Formatter};

/// Why a line is not the next one of a book.
#[derive(Clone, Copy, Debug, PartialEq, Eq)]
pub enum Wrong {
    /// The first line is neither `audit 2` nor `lengths 2`.
    First,
    /// It has more than 20480 bytes.
    Long,
    /// It is not a line that can be read, or a number or a payload is out of its range.
    Unread(Refusal),
    /// It stands in no book, though it can be read: `torn`, `report` and `audit`.
    Foreign,
    /// The lines before it are as many as the longest life has events.
    Spent,
    /// The packet is refused, for this reason.
    Untaken(Refusal),
    /// Nothing is to be sent.
    Idle,
    /// The frame that is sent has this many bytes.
    Sent(u32),
}

/// Why a line was not taken.
#[derive(Clone, Copy, Debug, PartialEq, Eq)]
pub enum LineFault {
    /// Memory was refused.
    NoMemory,
    /// The line is not the next one of a book.
    Wrong(Wrong),
}

// The number and the name of a refusal, as a script is answered.
fn refusal_text(refusal: Refusal) -> &'static str {
    match refusal {
        Refusal::NoFlow => "no tenant has this name",
        Refusal::BufferFull => "the buffer of the tenant is full",
        Refusal::Range => "a number or a length is out of its range",
        _ => "it cannot be read",
    }
}

impl Display for Wrong {
    fn fmt<W: fmt::Write>(&self, f: &mut Formatter<W>) -> fmt::Result {
        match self {
            Wrong::First => f.write_str("the first line is neither 'audit 2' nor 'lengths 2'"),
            Wrong::Long => f.write_str("the line has more than 20480 bytes"),
            Wrong::Unread(refusal) => f.write_str(refusal_text(*refusal)),
            Wrong::Foreign => f.write_str("the line stands in no book"),
            Wrong::Spent => f.write_str("a book has 16777216 events at most"),
            Wrong::Untaken(refusal) => f.write_str(refusal_text(*refusal)),
            Wrong::Idle => f.write_str("nothing is to be sent"),
            Wrong::Sent(count) => write!(f, "the frame that is sent has {count} bytes"),
        }
    }
}
