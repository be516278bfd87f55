//! The rate of an uplink.
ghost use Rattle.std.specs.Prelude.{◌≡◌, ◌≤◌, ◌<◌, ◌+◌, ◌*◌, ◌^◌, ℕ, true};
ghost use Rattle.share_timing.specs.Allowance.{AllowanceView, full_allowance, after_time, after_bytes, is_left, Keeps};

use std::marker::Model;

/// The number of bytes that may be sent beyond the allowance: those of the longest frame.
pub const DEBT: u128 = 9017;

/// The nanoseconds for which an allowance is saved up.
pub const SAVED: u128 = 20_000_000;

/// Billionths of a byte in a byte.
const BILLION: u128 = 1_000_000_000;

/// The allowance of an uplink whose rate is limited. A frame is sent while any of it is left, so a frame may be sent
/// beyond it, and later ones wait for that. It grows with time, and at most 20 milliseconds of it are saved up.
#[derive(Drop)]
pub struct Allowance {
    // Bytes a second.
    rate: u64,
    // Billionths of a byte that may be sent, and the longest frame.
    room: u128,
}

impl Model for Allowance {
    ghost use Rattle.share_timing.specs.Allowance.{AllowanceView, IsAllowance};

    ghost Value = { AllowanceView };

    ghost view = { λ a. record { rate = a.rate; room = a.room } };

    ghost invariant = { λ a. IsAllowance (record { rate = a.rate; room = a.room }) };
}

impl Allowance {
    /// The allowance of a rate in bytes a second, with all that is saved up.
    pub fn new(rate: u64) -> Allowance
        requires { 1 ≤ rate }
        ensures { result ≡ full_allowance rate }
    {
        Allowance {
            rate,
            room: most(rate),
        }
    }

    /// Some time has passed.
    pub fn pass(&mut self, nanoseconds: u64)
        ensures { self.new ≡ after_time nanoseconds self.old }
    {
        let grown = u128::from(self.rate) * u128::from(nanoseconds);
        self.room = self.room.saturating_add(grown).min(most(self.rate));
    }

    /// Whether any of it is left, so that a frame may be sent.
    pub fn is_left(&self) -> bool
        ensures { result ≡ is_left self.now }
    {
        self.room > DEBT * BILLION
    }

    /// A frame of this many bytes was sent.
    pub fn spend(&mut self, count: u32)
        requires left { is_left self.old ≡ true }
        requires few { count ≤ 9017 }
        ensures { self.new ≡ after_bytes count self.old }
    {
        self.room -= u128::from(count) * BILLION;
    }
}

// The most of a room.
fn most(rate: u64) -> u128
    requires { 1 ≤ rate }
    ensures { result ≡ 9017 * 1000000000 + rate * 20000000 }
{
    DEBT * BILLION + u128::from(rate) * SAVED
}

/// Laws of each allowance from the beginning on. The bytes that were sent are at most a sum of three terms. They are
/// the bytes of the time that passed, of the 20 milliseconds that are saved up, and of one frame of the longest kind.
pub fn rates_are_kept()
    ensures { (rate bytes nanoseconds : ℕ) (a : AllowanceView) → Keeps rate bytes nanoseconds a
        → bytes * 1000000000 ≤ rate * (nanoseconds + 20000000) + 9017 * 1000000000 }
{}
