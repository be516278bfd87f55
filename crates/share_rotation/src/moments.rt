//! Moments: those at which books are opened, and those at which something is to be done.

use share_catalog::Time;
use share_disk::time_of;
use std::io;
use std::io::{Error, ErrorKind};
use std::time::{Clock, Duration, Instant, SystemTime};

/// The second in which this is called.
pub(crate) fn time_now(clock: &impl Clock) -> io::Result<Time> {
    match time_of(SystemTime::now(clock)?) {
        Some(time) => Ok(time),
        None => Err(Error::from(ErrorKind::InvalidData)),
    }
}

/// The end of a period that begins at a moment.
pub(crate) fn end_of_period(period: Option<Duration>, now: Instant) -> Option<Instant> {
    now.checked_add(period?)
}

/// Whether a moment has come, if there is one.
pub(crate) fn is_past(at: Option<Instant>, now: Instant) -> bool {
    match at {
        None => false,
        Some(at) => at.saturating_duration_since(now).is_zero(),
    }
}

/// The earlier of two moments, of which either may be missing.
pub(crate) fn earlier(time: Option<Instant>, other: Option<Instant>) -> Option<Instant> {
    match (time, other) {
        (Some(time), Some(other)) => Some(time.min(other)),
        (Some(time), None) => Some(time),
        (None, other) => other,
    }
}
