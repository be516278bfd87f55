//! The pauses between dials.
ghost use Rattle.std.specs.Prelude.{◌≡◌};
ghost use Rattle.share_timing.specs.Redial.{first_pause, next_pause, pause_after};

use std::marker::Model;

/// The first pause, in milliseconds.
const FIRST: u64 = 100;

/// The longest pause, in milliseconds, and the time that a connection stands before the first pause comes again.
const LONGEST: u64 = 5000;

/// The pause before an uplink is dialled again. It is 0.1 seconds, then twice as long each time, up to 5 seconds. It is
/// 0.1 seconds again once a connection stood for 5 seconds. A contract sees the pause that comes next, in milliseconds.
#[derive(Debug, Drop)]
pub struct Redial {
    pause: u64,
}

impl Model for Redial {
    ghost use Rattle.std.specs.Prelude.{ℕ, ◌≤◌};

    ghost Value = { ℕ };

    ghost view = { λ r. r.pause };

    ghost invariant = { λ r. r.pause ≤ 5000 };
}

impl Redial {
    /// Nothing was dialled yet.
    pub fn new() -> Redial
        ensures { result ≡ first_pause }
    {
        Redial { pause: FIRST }
    }

    /// A dial failed or a connection was lost. Returns the milliseconds after which it is dialled again.
    pub fn pause(&mut self) -> u64
        ensures pause { result ≡ self.old }
        ensures next { self.new ≡ next_pause self.old }
    {
        let pause = self.pause;
        self.pause = (2 * pause).min(LONGEST);
        pause
    }

    /// A connection stood for that many milliseconds.
    pub fn stood(&mut self, milliseconds: u64)
        ensures { self.new ≡ pause_after milliseconds self.old }
    {
        if milliseconds >= LONGEST {
            self.pause = FIRST;
        }
    }
}
