//! Whether all funding tickets are before a place, and whether all flows from a place on are idle.
ghost use Rattle.std.specs.Prelude.{◌≡◌, ◌<◌, length, true, nat_lt};
ghost use Rattle.std.specs.List.{list_all};
ghost use Rattle.share_ledger.specs.Bounds.{AreBefore, AreIdle};
ghost use Rattle.share_ledger.specs.Arrays.{flags_of};

use crate::funding_tickets::{FundingTicket, FundingTickets};
use crate::tables::PLACES;

fn come_before(funding_tickets: &[FundingTicket], place: usize) -> bool
    ensures { result ≡ list_all (λ s. nat_lt s.from place) funding_tickets.now }
{
    funding_tickets
        .iter()
        .all(|funding_ticket| (funding_ticket.from as usize) < place)
}

/// Whether no currency from a place on has a funding ticket, and no funding ticket comes from there.
pub(crate) fn are_before(
    backing: &[FundingTickets],
    funding: &[FundingTickets],
    place: usize,
) -> bool
    requires backing { length backing.now ≡ 65 }
    requires funding { length funding.now ≡ 65 }
    ensures { result ≡ true → AreBefore backing.now funding.now place }
{
    for holder in 0..PLACES {
        let currency = &backing[holder];
        let flow = &funding[holder];
        let empty = holder < place || currency.count() == 0;
        if !empty
            || !come_before(currency.funding_tickets(), place)
            || !come_before(flow.funding_tickets(), place)
        {
            return false;
        }
    }
    true
}

/// Whether no flow from a place on is active or has a funding ticket.
pub(crate) fn are_idle(funding: &[FundingTickets], active: &[bool; PLACES], place: usize) -> bool
    requires { length funding.now ≡ 65 }
    ensures { result ≡ true → AreIdle funding.now (flags_of active.now) place }
{
    for flow in place..PLACES {
        let holder = &funding[flow];
        if active[flow] || holder.count() != 0 {
            return false;
        }
    }
    true
}
