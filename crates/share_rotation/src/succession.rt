//! Why a book is being closed.

use crate::moments::is_past;
use share_catalog::Closing;
use std::time::{Duration, Instant};

/// The seconds after which a close is tried again for which there was no memory.
const RETRY_SECONDS: u64 = 1;

/// Why the open book is being closed, if it is.
#[derive(Clone, Copy, Debug)]
pub(crate) struct Succession {
    why: Option<Closing>,
    // When the close is tried again, if it failed.
    retry: Option<Instant>,
}

impl Succession {
    /// The open book is not being closed.
    pub(crate) fn none() -> Succession {
        Succession {
            why: None,
            retry: None,
        }
    }

    /// Whether the open book is being closed.
    pub(crate) fn is_begun(&self) -> bool {
        self.why.is_some()
    }

    /// Why the open book is being closed for another one.
    pub(crate) fn why_next(&self) -> Option<Closing> {
        match self.why {
            None | Some(Closing::End) => None,
            why => why,
        }
    }

    /// Has the open book closed. A close at the end replaces any other.
    pub(crate) fn begin(&mut self, why: Closing) {
        if self.why.is_none() || why == Closing::End {
            self.why = Some(why);
        }
    }

    /// Whether a close that failed is not to be tried before some time has passed.
    pub(crate) fn is_waiting(&self, now: Instant) -> bool {
        self.retry.is_some() && !is_past(self.retry, now)
    }

    /// The close failed at this moment.
    pub(crate) fn fail(&mut self, now: Instant) {
        self.retry = now.checked_add(Duration::from_secs(RETRY_SECONDS));
    }

    /// The time at which a close that failed is tried again.
    pub(crate) fn retry(&self) -> Option<Instant> {
        self.retry
    }
}
