//! The number of tickets that fund a holder, and whether one more would make a cycle or a chain that is too long. The
//! kept funding tickets show it.
ghost use Rattle.std.specs.Prelude.{◌≡◌, ◌≤◌, length, true, false, bytes_eq, [], ◌∷◌, is_some};
ghost use Rattle.share_base.specs.Refusal.{first_refusal};
ghost use Rattle.share_base.specs.declared.refusal.Refusal as Refusal;
ghost use Rattle.share_model.specs.declared.funding.Holder.TheVariants.{Currency};
ghost use Rattle.share_model.specs.funding.Graph.{base, backing, funding, chain_within, is_deep};
ghost use Rattle.share_model.specs.funding.Changes.{is_currency, ticket_of, has_found_holder, found_denomination};
ghost use Rattle.share_model.specs.funding.Changes.{with_holder};
ghost use Rattle.share_model.specs.funding.WellFormed.{times_open};
ghost use Rattle.share_ledger.specs.Ranks.{AreBacking};
ghost use Rattle.share_ledger.specs.FundingTickets.{AreTicketed, funds_of};

use super::Tables;
use crate::funding_tickets::funding_tickets_at;
use crate::valuation::Valuation;
use share_base::{FlowNo, Name, Refusal};

impl Tables {
    /// The number of tickets that fund a currency.
    pub(super) fn count_backing(&self, name: Name, valuation: &Valuation) -> usize
        requires known { is_currency self.now name ≡ true }
        requires ticketed { AreBacking self.now valuation.now }
        ensures { result ≡ length (backing self.now.tickets name) }
    {
        self.is_well_formed();
        funding_tickets_at(&valuation.backing, self.place_of(name)).len()
    }

    /// The number of tickets that fund an open flow.
    pub(super) fn count_funding(&self, flow: FlowNo, valuation: &Valuation) -> usize
        requires open { 1 ≤ times_open flow self.now.flows }
        requires ticketed { AreTicketed (funds_of self.now) valuation.now.funding.items }
        ensures { result ≡ length (funding self.now.tickets flow) }
    {
        self.is_well_formed();
        let Some(place) = self.place_of_flow(flow) else {
            unreachable!();
        };
        funding_tickets_at(&valuation.funding, place).len()
    }

    /// `Cycle` or `Deep`, if the currency cannot be funded by this ticket for one of these reasons.
    pub(super) fn chain_refusal(
        &self,
        number: u64,
        currency: Name,
        valuation: &Valuation,
    ) -> Option<Refusal>
        requires known { is_currency self.now currency ≡ true }
        requires made { bytes_eq currency base ≡ false }
        requires free { has_found_holder (ticket_of self.now number) ≡ false }
        requires ticketed { AreBacking self.now valuation.now }
        ensures { is_some (ticket_of self.now number) ≡ true
            → result ≡ first_refusal (
            (chain_within self.now.tickets 8 currency (found_denomination (ticket_of self.now number)), Refusal.Cycle)
            ∷ (is_deep (with_holder number (Currency currency) self.now.tickets), Refusal.Deep)
            ∷ []) }
    {
        self.is_well_formed();
        let Some(ticket) = self.ticket(number) else {
            return None;
        };
        let from = self.place_of(ticket.denomination);
        let to = self.place_of(currency);
        if valuation.has_ranks(from, to) {
            return None;
        }
        if valuation.backs(to, from) {
            return Some(Refusal::Cycle);
        }
        Some(Refusal::Deep)
    }
}
