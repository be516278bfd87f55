//! The currencies that a currency backs, by however many steps.
ghost use Rattle.std.specs.Prelude.{◌<◌, ◌≡◌, ◌||◌, ℕ, length, nat_eq};
ghost use Rattle.std.specs.List.{list_any};
ghost use Rattle.share_model.specs.lists.Each.{Each};
ghost use Rattle.share_ledger.specs.Arrays.{flags_of, numbers_of};
ghost use Rattle.share_ledger.specs.Chains.{AreBacked};
ghost use Rattle.share_ledger.specs.Ranks.{AreOrdered};
ghost use Rattle.share_ledger.specs.FundingTickets.{IsFundingTicketWithin, funding_tickets_at};

use crate::funding_tickets::{FundingTickets, come_from, funding_tickets_at};
use crate::tables::PLACES;

// Whether a place is `first`, or has a funding ticket from a flagged place.
fn is_backed(backing: &[FundingTickets], flags: &[bool; PLACES], first: usize, place: usize) -> bool
    requires within { (p : ℕ) → p < 65 → Each IsFundingTicketWithin (funding_tickets_at backing.now p) }
    requires places { length backing.now ≡ 65 }
    requires place { place < 65 }
    ensures { result ≡ (nat_eq place first
        || list_any (λ s. flags_of flags.now s.from) (funding_tickets_at backing.now place)) }
{
    place == first || come_from(funding_tickets_at(backing, place), flags)
}

/// Flags the currency at the place `first` and all that it backs, by however many steps.
pub(crate) fn backed_by(
    backing: &[FundingTickets],
    order: &[u8; PLACES],
    first: usize,
) -> [bool; PLACES]
    requires within { (p : ℕ) → p < 65 → Each IsFundingTicketWithin (funding_tickets_at backing.now p) }
    requires places { length backing.now ≡ 65 }
    requires ordered { AreOrdered backing.now (numbers_of order.now) }
    ensures { AreBacked backing.now first (flags_of result) }
{
    let mut flags = [false; PLACES];
    for i in 1..PLACES {
        let place = order[i] as usize;
        flags[place] = is_backed(backing, &flags, first, place);
    }
    flags
}
