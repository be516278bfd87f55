//! The limit of the messages of a kind that are printed.
ghost use Rattle.std.specs.Prelude.{◌≡◌};
ghost use Rattle.share_timing.specs.Limiter.{new_limiter, printing_of, after_message, after_second};

use std::marker::Model;

/// The number of messages of a kind printed in a second.
const MOST: u32 = 10;

/// The outcome of a message.
#[derive(Clone, Copy, Debug, PartialEq, Eq)]
pub enum Printing {
    /// It is printed.
    Print,
    /// It is left out, and counted.
    LeaveOut,
}

/// The messages of one kind: at most ten are printed in a second, and the others are counted.
#[derive(Debug, Drop)]
pub struct Limiter {
    second: u64,
    printed: u32,
    left_out: u64,
}

impl Model for Limiter {
    ghost use Rattle.std.specs.Prelude.{◌≤◌};
    ghost use Rattle.share_timing.specs.Limiter.{LimiterView};

    ghost Value = { LimiterView };

    ghost view = { λ l. record { second = l.second; printed = l.printed; left_out = l.left_out } };

    ghost invariant = { λ l. l.printed ≤ 10 };
}

impl Limiter {
    /// No message came yet.
    pub fn new() -> Limiter
        ensures { result ≡ new_limiter }
    {
        Limiter {
            second: 0,
            printed: 0,
            left_out: 0,
        }
    }

    /// Begins a second, if it is another one. Returns the number of messages left out before it.
    pub fn begin(&mut self, second: u64) -> u64
        ensures left_out { result ≡ (after_second second self.old).0 }
        ensures after { self.new ≡ (after_second second self.old).1 }
    {
        if second == self.second {
            return 0;
        }
        let left_out = self.left_out;
        self.second = second;
        self.printed = 0;
        self.left_out = 0;
        left_out
    }

    /// A message comes, in the second that was begun last.
    pub fn message(&mut self) -> Printing
        ensures printing { result ≡ printing_of self.old }
        ensures after { self.new ≡ after_message self.old }
    {
        if self.printed < MOST {
            self.printed += 1;
            Printing::Print
        } else {
            self.left_out = self.left_out.saturating_add(1);
            Printing::LeaveOut
        }
    }
}
