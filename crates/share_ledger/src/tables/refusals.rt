//! When each command is refused, memory aside.
ghost use Rattle.std.specs.Prelude.{◌≡◌, Some};
ghost use Rattle.share_model.specs.funding.Changes.{uses, make_currency_refusal};
ghost use Rattle.share_model.specs.funding.Changes.{remove_currency_refusal, make_ticket_refusal};
ghost use Rattle.share_model.specs.funding.Changes.{remove_ticket_refusal, fund_currency_refusal, fund_flow_refusal};
ghost use Rattle.share_model.specs.funding.Changes.{unfund_refusal, add_flow_refusal, amend_refusal};
ghost use Rattle.share_model.specs.funding.Changes.{is_amount, ticket_of, has_found_holder};
ghost use Rattle.std.specs.List.{list_any};
ghost use Rattle.share_ledger.specs.Ranks.{AreBacking};
ghost use Rattle.share_ledger.specs.FundingTickets.{AreTicketed, funds_of};

use super::{MAX_AMOUNT, MAX_CURRENCIES, MAX_FLOWS, MAX_FUNDING, MAX_TICKETS, Tables, is_base};
use crate::holders;
use crate::valuation::Valuation;
use share_base::{Name, Refusal};
use share_model::Ticket;

impl Tables {
    pub(crate) fn make_currency_refusal(&self, name: Name) -> Option<Refusal>
        ensures { result ≡ make_currency_refusal self.now name }
    {
        if self.is_currency(name) {
            return Some(Refusal::Taken);
        }
        if self.currencies.len() >= MAX_CURRENCIES {
            return Some(Refusal::TableFull);
        }
        None
    }

    // Whether some ticket is denominated in the currency, or funds it.
    fn is_used(&self, name: Name) -> bool
        ensures { result ≡ list_any (uses name) self.now.tickets }
    {
        self.tickets.iter().any(|ticket| uses(ticket, name))
    }

    pub(crate) fn remove_currency_refusal(&self, name: Name) -> Option<Refusal>
        ensures { result ≡ remove_currency_refusal self.now name }
    {
        if !self.is_currency(name) {
            return Some(Refusal::NoCurrency);
        }
        if is_base(name) {
            return Some(Refusal::Base);
        }
        if self.is_used(name) {
            return Some(Refusal::InUse);
        }
        None
    }

    pub(crate) fn make_ticket_refusal(&self, amount: u64, currency: Name) -> Option<Refusal>
        ensures { result ≡ make_ticket_refusal self.now amount currency }
    {
        if !is_amount(amount) {
            return Some(Refusal::Range);
        }
        if !self.is_currency(currency) {
            return Some(Refusal::NoCurrency);
        }
        if self.tickets.len() >= MAX_TICKETS {
            return Some(Refusal::TableFull);
        }
        None
    }

    pub(crate) fn remove_ticket_refusal(&self, number: u64) -> Option<Refusal>
        ensures { result ≡ remove_ticket_refusal self.now number }
    {
        match self.ticket(number) {
            None => Some(Refusal::NoTicket),
            Some(ticket) => {
                if holders::has_holder(&ticket.holder) {
                    return Some(Refusal::Funding);
                }
                None
            }
        }
    }

    /// Whether the ticket of a number has a holder.
    pub(crate) fn has_holder(&self, number: u64) -> bool
        ensures { result ≡ has_found_holder (ticket_of self.now number) }
    {
        match self.ticket(number) {
            None => false,
            Some(ticket) => holders::has_holder(&ticket.holder),
        }
    }

    pub(crate) fn amend_refusal(&self, number: u64, amount: u64) -> Option<Refusal>
        ensures { result ≡ amend_refusal self.now number amount }
    {
        match self.ticket(number) {
            _ if !is_amount(amount) => Some(Refusal::Range),
            None => Some(Refusal::NoTicket),
            Some(_) => None,
        }
    }

    /// `valuation` has the funding tickets and the ranks of the currencies.
    pub(crate) fn fund_currency_refusal(
        &self,
        number: u64,
        currency: Name,
        valuation: &Valuation,
    ) -> Option<Refusal>
        requires { AreBacking self.now valuation.now }
        ensures { result ≡ fund_currency_refusal self.now number currency }
    {
        let Some(ticket) = self.ticket(number) else {
            return Some(Refusal::NoTicket);
        };
        if !self.is_currency(currency) {
            return Some(Refusal::NoCurrency);
        }
        if is_base(currency) {
            return Some(Refusal::Base);
        }
        if holders::has_holder(&ticket.holder) {
            return Some(Refusal::Funding);
        }
        if self.count_backing(currency, valuation) >= MAX_FUNDING {
            return Some(Refusal::Crowded);
        }
        self.chain_refusal(number, currency, valuation)
    }

    /// `valuation` has the funding tickets of the flows.
    pub(crate) fn fund_flow_refusal(
        &self,
        number: u64,
        flow: Name,
        valuation: &Valuation,
    ) -> Option<Refusal>
        requires { AreTicketed (funds_of self.now) valuation.now.funding.items }
        ensures { result ≡ fund_flow_refusal self.now number flow }
    {
        let Some(ticket) = self.ticket(number) else {
            return Some(Refusal::NoTicket);
        };
        let Some(open) = self.flow_named(flow) else {
            return Some(Refusal::NoFlow);
        };
        if holders::has_holder(&ticket.holder) {
            return Some(Refusal::Funding);
        }
        if self.count_funding(open.number, valuation) >= MAX_FUNDING {
            return Some(Refusal::Crowded);
        }
        None
    }

    pub(crate) fn unfund_refusal(&self, number: u64) -> Option<Refusal>
        ensures { result ≡ unfund_refusal self.now number }
    {
        match self.ticket(number) {
            None => Some(Refusal::NoTicket),
            Some(ticket) => {
                if !holders::has_holder(&ticket.holder) {
                    return Some(Refusal::Unfunded);
                }
                None
            }
        }
    }

    pub(crate) fn add_flow_refusal(&self, name: Name) -> Option<Refusal>
        ensures { result ≡ add_flow_refusal self.now name }
    {
        if self.flow_named(name).is_some() {
            return Some(Refusal::Taken);
        }
        if self.flows.len() >= MAX_FLOWS {
            return Some(Refusal::TableFull);
        }
        None
    }
}

// Whether a ticket may have this amount.
fn is_amount(amount: u64) -> bool
    ensures { result ≡ is_amount amount }
{
    1 <= amount && amount <= MAX_AMOUNT
}

// Whether a ticket is denominated in the currency, or funds it.
fn uses(ticket: &Ticket, name: Name) -> bool
    ensures { result ≡ uses name ticket.now }
{
    if name == ticket.denomination {
        return true;
    }
    holders::is_currency(&ticket.holder, name)
}
