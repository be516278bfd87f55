//! The rate of the uplink.

use share_timing::Allowance;
use std::time::Instant;

/// The longest frame.
pub(crate) const LONGEST_FRAME: u32 = 9017;

const NANOSECONDS: u64 = 1_000_000_000;

/// The rate of the uplink, if it has one, and until when its time was counted.
#[derive(Drop)]
pub(crate) struct Pace {
    allowance: Option<Allowance>,
    counted: Instant,
}

impl Pace {
    /// A rate in bytes a second, whose time is counted from this moment on. A rate of 0 is no bound.
    pub(crate) fn new(rate: Option<u64>, now: Instant) -> Pace {
        Pace {
            allowance: allowance_of(rate),
            counted: now,
        }
    }

    /// Adds the time that has passed.
    pub(crate) fn credit(&mut self, now: Instant) {
        let passed = now.saturating_duration_since(self.counted);
        self.counted = now;
        if let Some(allowance) = &mut self.allowance {
            let seconds = passed.as_secs().saturating_mul(NANOSECONDS);
            allowance.pass(seconds.saturating_add(u64::from(passed.subsec_nanos())));
        }
    }

    /// Whether the rate lets a frame go.
    pub(crate) fn is_allowed(&self) -> bool {
        match &self.allowance {
            None => true,
            Some(allowance) => allowance.is_left(),
        }
    }

    /// Takes a frame of this many bytes away.
    pub(crate) fn spend(&mut self, count: u32) {
        if let Some(allowance) = &mut self.allowance {
            if allowance.is_left() {
                allowance.spend(count.min(LONGEST_FRAME));
            }
        }
    }
}

fn allowance_of(rate: Option<u64>) -> Option<Allowance> {
    let rate = rate?;
    if rate < 1 {
        return None;
    }
    Some(Allowance::new(rate))
}
