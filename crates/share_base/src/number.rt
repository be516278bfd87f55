//! The numbers of flows and tickets. Each counts from 1, and none is ever used again.
ghost use Rattle.std.specs.Prelude.{◌≡◌};

use std::marker::Model;

/// The number of a flow, open or closed. A contract sees it as a plain number.
#[derive(Clone, Copy, Debug, PartialEq, Eq, PartialOrd, Ord, Hash)]
pub struct FlowNo(pub u32);

impl Model for FlowNo {
    ghost use Rattle.std.specs.Prelude.{ℕ};

    ghost Value = { ℕ };

    ghost view = { λ flow. flow.0 };

    ghost inverse = { λ n. record { 0 = n } };
}

impl FlowNo {
    /// The number itself.
    pub fn number(self) -> u32
        ensures { result ≡ self }
    {
        self.0
    }
}

/// The number of a ticket. A contract sees it as a plain number.
#[derive(Clone, Copy, Debug, PartialEq, Eq, PartialOrd, Ord, Hash)]
pub struct TicketNo(pub u32);

impl Model for TicketNo {
    ghost use Rattle.std.specs.Prelude.{ℕ};

    ghost Value = { ℕ };

    ghost view = { λ ticket. ticket.0 };

    ghost inverse = { λ n. record { 0 = n } };
}

impl TicketNo {
    /// The number itself.
    pub fn number(self) -> u32
        ensures { result ≡ self }
    {
        self.0
    }
}
