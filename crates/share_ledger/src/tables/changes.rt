//! The commands: each changes the graph as its rule says, or is refused with nothing changed.
ghost use Rattle.std.specs.Prelude.{◌≡◌, ◌-◌, ◌^◌, ◌<◌, map, nat_eq, position, Some, None, IfOk, IfErr, IfSome};
ghost use Rattle.share_base.specs.Refusal.{IsRefused};
ghost use Rattle.share_model.specs.funding.Changes.{with_holder, make_currency_refusal, make_currency};
ghost use Rattle.share_model.specs.funding.Changes.{remove_currency_refusal, remove_currency, make_ticket_refusal};
ghost use Rattle.share_model.specs.funding.Changes.{make_ticket, remove_ticket_refusal, remove_ticket};
ghost use Rattle.share_model.specs.funding.Changes.{amend_refusal, amend};
ghost use Rattle.share_model.specs.funding.Changes.{fund_currency_refusal, fund_currency, fund_flow_refusal, fund_flow};
ghost use Rattle.share_model.specs.funding.Changes.{unfund, add_flow_refusal, add_flow, release_from};
ghost use Rattle.share_model.specs.funding.Changes.{remove_flow, set_active};
ghost use Rattle.share_model.specs.declared.funding.OpenFlow.{OpenFlow};
ghost use Rattle.share_model.specs.funding.WellFormed.{IsWellFormed};
ghost use Rattle.share_ledger.specs.Ranks.{AreBacking};
ghost use Rattle.share_ledger.specs.FundingTickets.{AreTicketed, funds_of};

use super::Tables;
use crate::holders;
use crate::valuation::Valuation;
use share_base::{FlowNo, Name, Refusal, TicketNo};
use share_model::{Holder, OpenFlow, Ticket};

impl Tables {
    pub(crate) fn make_currency(&mut self, name: Name) -> Result<(), Refusal>
        ensures done { IfOk result
            (λ _. (make_currency_refusal self.old name ≡ None) × (self.new ≡ make_currency self.old name)) }
        ensures refused { IfErr result
            (λ e. IsRefused (make_currency_refusal self.old name) e × (self.new ≡ self.old)) }
    {
        self.is_well_formed();
        if let Some(refusal) = self.make_currency_refusal(name) {
            return Err(refusal);
        }
        self.currencies.insert(name)?;
        Ok(())
    }

    pub(crate) fn remove_currency(&mut self, name: Name) -> Result<(), Refusal>
        ensures done { IfOk result
            (λ _. (remove_currency_refusal self.old name ≡ None) × (self.new ≡ remove_currency self.old name)) }
        ensures refused { IfErr result
            (λ e. (remove_currency_refusal self.old name ≡ Some e) × (self.new ≡ self.old)) }
    {
        self.is_well_formed();
        if let Some(refusal) = self.remove_currency_refusal(name) {
            return Err(refusal);
        }
        self.currencies.shift_remove(&name);
        Ok(())
    }

    pub(crate) fn make_ticket(&mut self, amount: u64, currency: Name) -> Result<TicketNo, Refusal>
        requires { self.old.next_ticket < 2 ^ 32 - 1 }
        ensures done { IfOk result
            (λ n. (make_ticket_refusal self.old amount currency ≡ None) × (n ≡ self.old.next_ticket)
            × (self.new ≡ make_ticket self.old amount currency)) }
        ensures refused { IfErr result
            (λ e. IsRefused (make_ticket_refusal self.old amount currency) e × (self.new ≡ self.old)) }
    {
        self.is_well_formed();
        if let Some(refusal) = self.make_ticket_refusal(amount, currency) {
            return Err(refusal);
        }
        let number = TicketNo(self.next_ticket);
        let ticket = Ticket {
            number,
            amount: amount as u32,
            denomination: currency,
            holder: Holder::Nobody,
        };
        self.tickets.push(ticket)?;
        self.next_ticket += 1;
        Ok(number)
    }

    pub(crate) fn remove_ticket(&mut self, number: u64) -> Result<(), Refusal>
        ensures done { IfOk result
            (λ _. (remove_ticket_refusal self.old number ≡ None) × (self.new ≡ remove_ticket self.old number)) }
        ensures refused { IfErr result
            (λ e. (remove_ticket_refusal self.old number ≡ Some e) × (self.new ≡ self.old)) }
    {
        self.is_well_formed();
        if let Some(refusal) = self.remove_ticket_refusal(number) {
            return Err(refusal);
        }
        if let Some(place) = self.place_of_ticket(number) {
            self.tickets.remove(place);
        }
        Ok(())
    }

    /// Gives the first ticket of this number this amount.
    pub(crate) fn amend(&mut self, number: u64, amount: u32)
        requires { amend_refusal self.old number amount ≡ None }
        ensures { self.new ≡ amend self.old number amount }
    {
        if let Some(place) = self.place_of_ticket(number) {
            self.tickets[place].amount = amount;
        }
    }

    // Gives the first ticket of this number this holder.
    fn give(&mut self, number: u64, holder: &Holder)
        requires { IsWellFormed
            (record self.old { tickets = with_holder number holder.now self.old.tickets }) }
        ensures { self.new
            ≡ record self.old { tickets = with_holder number holder.now self.old.tickets } }
    {
        if let Some(place) = self.place_of_ticket(number) {
            self.tickets[place].holder = *holder;
        }
    }

    /// `valuation` has the funding tickets and the ranks of the currencies.
    pub(crate) fn fund_currency(
        &mut self,
        ticket: u64,
        currency: Name,
        valuation: &Valuation,
    ) -> Result<(), Refusal>
        requires { AreBacking self.old valuation.now }
        ensures done { IfOk result
            (λ _. (fund_currency_refusal self.old ticket currency ≡ None)
            × (self.new ≡ fund_currency self.old ticket currency)) }
        ensures refused { IfErr result
            (λ e. (fund_currency_refusal self.old ticket currency ≡ Some e) × (self.new ≡ self.old)) }
    {
        self.is_well_formed();
        if let Some(refusal) = self.fund_currency_refusal(ticket, currency, valuation) {
            return Err(refusal);
        }
        self.give(ticket, &Holder::Currency(currency));
        Ok(())
    }

    /// `valuation` has the funding tickets of the flows.
    pub(crate) fn fund_flow(
        &mut self,
        ticket: u64,
        flow: Name,
        valuation: &Valuation,
    ) -> Result<(), Refusal>
        requires { AreTicketed (funds_of self.old) valuation.now.funding.items }
        ensures done { IfOk result
            (λ _. (fund_flow_refusal self.old ticket flow ≡ None) × (self.new ≡ fund_flow self.old ticket flow)) }
        ensures refused { IfErr result
            (λ e. (fund_flow_refusal self.old ticket flow ≡ Some e) × (self.new ≡ self.old)) }
    {
        self.is_well_formed();
        if let Some(refusal) = self.fund_flow_refusal(ticket, flow, valuation) {
            return Err(refusal);
        }
        if let Some(open) = self.flow_named(flow) {
            self.give(ticket, &Holder::Flow(open.number));
        }
        Ok(())
    }

    pub(crate) fn unfund(&mut self, ticket: u64)
        ensures { self.new ≡ unfund self.old ticket }
    {
        self.is_well_formed();
        self.give(ticket, &Holder::Nobody);
    }

    pub(crate) fn add_flow(&mut self, name: Name) -> Result<FlowNo, Refusal>
        requires { self.old.next_flow < 2 ^ 32 - 1 }
        ensures done { IfOk result
            (λ n. (add_flow_refusal self.old name ≡ None) × (n ≡ self.old.next_flow)
            × (self.new ≡ add_flow self.old name)) }
        ensures refused { IfErr result
            (λ e. IsRefused (add_flow_refusal self.old name) e × (self.new ≡ self.old)) }
    {
        self.is_well_formed();
        if let Some(refusal) = self.add_flow_refusal(name) {
            return Err(refusal);
        }
        let number = FlowNo(self.next_flow);
        let open = OpenFlow {
            number,
            active: false,
        };
        self.flows.insert(name, open)?;
        self.next_flow += 1;
        Ok(number)
    }

    pub(crate) fn remove_flow(&mut self, flow: FlowNo)
        ensures { self.new ≡ remove_flow self.old flow }
    {
        self.is_well_formed();
        let place = self.place_of_flow(flow);
        release(&mut self.tickets, flow);
        if let Some(place) = place {
            self.flows.shift_remove_index(place);
        }
    }

    /// Makes a flow active or idle, and gives its place if that is a change.
    pub(crate) fn set_active(&mut self, flow: FlowNo, active: bool) -> Option<usize>
        ensures change { self.new ≡ set_active self.old flow active }
        ensures still { result ≡ None → self.new ≡ self.old }
        ensures place { IfSome result (λ place. position (λ (o : OpenFlow). nat_eq flow o.number)
            (map (λ e. e.1) self.old.flows) ≡ Some place) }
    {
        self.is_well_formed();
        if let Some(place) = self.place_of_flow(flow) {
            if let Some(open) = self.flows.get_index_mut(place) {
                let news = open.active != active;
                open.active = active;
                return news.then_some(place);
            }
        }
        None
    }
}

// The ticket, without its holder if that is this flow.
fn release_from(ticket: Ticket, flow: FlowNo) -> Ticket
    ensures { result ≡ release_from flow ticket }
{
    if holders::is_flow(&ticket.holder, flow) {
        return Ticket {
            holder: Holder::Nobody,
            ..ticket
        };
    }
    ticket
}

// Takes the tickets that fund a flow from it.
fn release(tickets: &mut [Ticket], flow: FlowNo)
    ensures { tickets.new ≡ map (release_from flow) tickets.old }
{
    for ticket in tickets.iter_mut() {
        *ticket = release_from(*ticket, flow);
    }
}
