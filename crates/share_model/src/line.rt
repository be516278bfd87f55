//! The lines of a script.

use share_base::{Body, Command, Name, Version};

/// Whether a ticket is to fund a currency or a flow: the word after its number.
#[derive(Clone, Copy, Debug, PartialEq, Eq)]
pub enum HolderKind {
    Currency,
    Flow,
}

/// A line of a script.
#[derive(Drop)]
pub enum Line {
    /// A change of the funding or of the flows.
    Change(Command),
    /// A packet of this payload for the flow of this name.
    Send { flow: Name, body: Body },
    /// A turn of the link, which offers the writer at most this many bytes.
    Turn(u64),
    /// The writer is declared failed.
    Torn,
    /// The report of the link is asked for.
    Report,
    /// The script is of this version, as the audit of a link is. It may only be the first line.
    Audit(Version),
}
