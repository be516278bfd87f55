//! The packets that a link refused, by the ingress connection that brought them.

use share_base::{Outcome, Refusal, Reply};
use share_journal::{Entry, Source};
use std::fmt;

/// The most ingress connections that a server accepts.
const CONNECTIONS: usize = 8;

/// The refused packets of a connection.
#[derive(Clone, Copy, Debug)]
struct Count {
    // The number of refusals, and the number printed.
    refused: u64,
    logged: u64,
    // Why the last one was refused.
    last: Refusal,
}

/// The refused packets of all connections, by the entries of the link's journal that were counted.
#[derive(Drop)]
pub struct RefusedPackets {
    counted: usize,
    counts: [Count; CONNECTIONS],
}

/// The line about a connection's refused packets.
#[derive(Clone, Copy, Debug)]
pub struct RefusedLine {
    number: usize,
    refused: u64,
    last: Refusal,
}

impl fmt::Display for RefusedLine {
    fn fmt<W: fmt::Write>(&self, f: &mut fmt::Formatter<W>) -> fmt::Result {
        let (number, refused, last) = (self.number, self.refused, self.last.name());
        write!(
            f,
            "ingress {number}: {refused} packets refused, the last as {last}"
        )
    }
}

// The connection, counted from 1, that brought a refused packet, and the reason.
fn refusal_in(entry: &Entry) -> Option<(u64, Refusal)> {
    match (&entry.source, &entry.reply) {
        (Source::Worker(worker), Outcome::Replied(Reply::Refused(refusal))) => {
            Some((*worker, *refusal))
        }
        _ => None,
    }
}

impl RefusedPackets {
    /// None, and no entry was counted.
    pub fn new() -> RefusedPackets {
        let none = Count {
            refused: 0,
            logged: 0,
            last: Refusal::NoMemory,
        };
        RefusedPackets {
            counted: 0,
            counts: [none; CONNECTIONS],
        }
    }

    /// Counts those of the entries that were not counted yet.
    pub fn count(&mut self, entries: &[Entry]) {
        for entry in entries.iter().skip(self.counted) {
            if let Some((worker, refusal)) = refusal_in(entry) {
                self.add(worker, refusal);
            }
        }
        self.counted = entries.len();
    }

    fn add(&mut self, worker: u64, refusal: Refusal) {
        let at = (worker as usize).wrapping_sub(1);
        if let Some(count) = self.counts.get_mut(at) {
            count.refused = count.refused.saturating_add(1);
            count.last = refusal;
        }
    }

    /// The line about the connection at this place, if one is due. It is due after the first refused packet, and each
    /// time that there are twice as many. So a flood of them makes few lines. At the end all that are left are printed.
    pub fn line(&mut self, at: usize, is_end: bool) -> Option<RefusedLine> {
        let count = self.counts.get_mut(at)?;
        let is_due = count.refused >= count.logged.saturating_mul(2) || is_end;
        if count.refused == count.logged || !is_due {
            return None;
        }
        count.logged = count.refused;
        Some(RefusedLine {
            number: at.saturating_add(1),
            refused: count.refused,
            last: count.last,
        })
    }
}
