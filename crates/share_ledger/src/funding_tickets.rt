//! The tickets that fund one holder, with room for sixteen.
ghost use Rattle.std.specs.Prelude.{◌≡◌, ◌+◌, ◌<◌, ◌≤◌, ◌++◌, ◌∷◌, [], ℕ, length, sum_by, position, true};
ghost use Rattle.std.specs.Prelude.{◌^◌, ◌%◌};
ghost use Rattle.std.specs.List.{list_any};
ghost use Rattle.share_model.specs.lists.Each.{Each};
ghost use Rattle.share_ledger.specs.declared.funding_tickets.FundingTicket.{FundingTicket};
ghost use Rattle.share_ledger.specs.Arrays.{flags_of};
ghost use Rattle.share_ledger.specs.FundingTickets.{is_like, ComesFrom, IsFundingTicketWithin, funding_tickets_at};

use crate::tables::{MAX_FUNDING, PLACES};
use std::marker::Model;

/// A ticket that funds a holder: the place of its denomination among the currencies, and its amount.
#[derive(Clone, Copy, Debug)]
pub(crate) struct FundingTicket {
    pub(crate) from: u32,
    pub(crate) amount: u32,
}

/// The filler of room without a funding ticket.
const NO_FUNDING_TICKET: FundingTicket = FundingTicket { from: 0, amount: 0 };

/// The bit of a place. Places are counted modulo 64, so two of them may share a bit.
pub(crate) fn bit_of(place: usize) -> u64
    ensures { result ≡ 2 ^ (place % 64) }
{
    1 << (place % 64)
}

/// The funding tickets of one holder, in no order, and the bits of the places that they come from.
#[derive(Drop)]
pub(crate) struct FundingTickets {
    room: [FundingTicket; MAX_FUNDING],
    count: usize,
    sources: u64,
}

impl Model for FundingTickets {
    ghost use Rattle.std.specs.Prelude.{◌≤◌, List, take};
    ghost use Rattle.share_model.specs.lists.Each.{Each};
    ghost use Rattle.share_ledger.specs.declared.funding_tickets.FundingTicket.{FundingTicket};
    ghost use Rattle.share_ledger.specs.FundingTickets.{ComesFrom};

    ghost Value = { List FundingTicket };

    ghost view = { λ s. take s.count s.room };

    ghost invariant = { λ s. (s.count ≤ 16) × Each (ComesFrom s.sources) (take s.count s.room) };
}

impl FundingTickets {
    pub(crate) fn new() -> FundingTickets
        ensures { result ≡ [] }
    {
        FundingTickets {
            room: [NO_FUNDING_TICKET; MAX_FUNDING],
            count: 0,
            sources: 0,
        }
    }

    pub(crate) fn funding_tickets(&self) -> &[FundingTicket]
        ensures value { result.now ≡ self.now }
        ensures few { length self.now ≤ 16 }
    {
        &self.room[..self.count]
    }

    pub(crate) fn count(&self) -> usize
        ensures { result ≡ length self.now }
    {
        self.funding_tickets().len()
    }

    pub(crate) fn clear(&mut self)
        ensures { self.new ≡ [] }
    {
        self.count = 0;
        self.sources = 0;
    }

    pub(crate) fn add(&mut self, funding_ticket: FundingTicket)
        requires { length self.old < 16 }
        ensures { self.new ≡ self.old ++ funding_ticket ∷ [] }
    {
        self.room[self.count] = funding_ticket;
        self.count += 1;
        self.sources |= bit_of(funding_ticket.from as usize);
    }

    fn place_of(&self, funding_ticket: FundingTicket) -> Option<usize>
        ensures { result ≡ position (is_like funding_ticket) self.now }
    {
        self.funding_tickets().iter().position(|other| funding_ticket.from == other.from
            && funding_ticket.amount == other.amount)
    }

    /// Takes out one funding ticket of this denomination and amount.
    pub(crate) fn remove(&mut self, funding_ticket: FundingTicket)
        requires { list_any (is_like funding_ticket) self.old ≡ true }
        ensures { (F : FundingTicket → ℕ) → sum_by F self.new + F funding_ticket ≡ sum_by F self.old }
    {
        let Some(place) = self.place_of(funding_ticket) else {
            return;
        };
        self.count -= 1;
        self.room[place] = self.room[self.count];
        self.sources = sources_of(&self.room[..self.count]);
    }

    /// The bits of the places that the funding tickets come from.
    pub(crate) fn sources(&self) -> u64
        ensures { Each (ComesFrom result) self.now }
    {
        self.sources
    }
}

/// The funding tickets of the holder at a place.
pub(crate) fn funding_tickets_at(holders: &[FundingTickets], place: usize) -> &[FundingTicket]
    requires places { length holders.now ≡ 65 }
    requires place { place < 65 }
    ensures value { result.now ≡ funding_tickets_at holders.now place }
    ensures few { length result.now ≤ 16 }
{
    let holder = &holders[place];
    holder.funding_tickets()
}

// The bits of the places that some funding tickets come from.
fn sources_of(funding_tickets: &[FundingTicket]) -> u64
    ensures { Each (ComesFrom result) funding_tickets.now }
{
    let mut sources = 0;
    for funding_ticket in funding_tickets {
        sources |= bit_of(funding_ticket.from as usize);
    }
    sources
}

/// Whether one of some funding tickets comes from a flagged place.
pub(crate) fn come_from(funding_tickets: &[FundingTicket], flags: &[bool; PLACES]) -> bool
    requires { Each IsFundingTicketWithin funding_tickets.now }
    ensures { result ≡ list_any (λ s. flags_of flags.now s.from) funding_tickets.now }
{
    for funding_ticket in funding_tickets {
        if flags[funding_ticket.from as usize] {
            return true;
        }
    }
    false
}
