//! The last stride, which is given again without a division.
ghost use Rattle.std.specs.Prelude.{◌≡◌};
ghost use Rattle.share_model.specs.stride.Moves.{stride_of};

use crate::client;
use std::marker::Model;

/// Tickets and their stride: the last division, which is mostly asked for again. A contract sees nothing of them.
#[derive(Drop)]
pub(crate) struct CachedStride {
    tickets: u64,
    stride: u64,
}

impl Model for CachedStride {
    ghost use Rattle.std.specs.Prelude.{◌≡◌};
    ghost use Rattle.share_model.specs.stride.Moves.{stride_of};

    ghost Value = { Unit {0} };

    ghost view = { λ _. tt };

    ghost invariant = { λ cached. cached.stride ≡ stride_of cached.tickets };
}

impl CachedStride {
    /// The stride of no tickets.
    pub(crate) fn new() -> CachedStride
        ensures { result ≡ tt }
    {
        CachedStride {
            tickets: 0,
            stride: 0,
        }
    }

    /// The stride of these tickets; 0 if there are none.
    pub(crate) fn of(&mut self, tickets: u64) -> u64
        ensures { result ≡ stride_of tickets }
    {
        if tickets != self.tickets {
            self.stride = client::stride_of(tickets);
            self.tickets = tickets;
        }
        self.stride
    }
}
