//! The ledger: the tables, and what is kept beside them.
ghost use Rattle.std.specs.Prelude.{◌≡◌, ◌<◌, ◌-◌, ◌^◌, length, map, slice_get, option_map, Some, None, IfOk, IfErr};
ghost use Rattle.share_base.specs.declared.refusal.Refusal as Refusal;
ghost use Rattle.share_base.specs.Refusal.{IsRefused};
ghost use Rattle.share_model.specs.funding.Graph.{empty_graph, tickets};
ghost use Rattle.share_model.specs.funding.Changes.{flow_named, make_currency_refusal, make_currency};
ghost use Rattle.share_model.specs.funding.Changes.{remove_currency_refusal, remove_currency, make_ticket_refusal};
ghost use Rattle.share_model.specs.funding.Changes.{make_ticket, remove_ticket_refusal, remove_ticket};
ghost use Rattle.share_model.specs.funding.Changes.{fund_currency_refusal, fund_currency, fund_flow_refusal, fund_flow};
ghost use Rattle.share_model.specs.funding.Changes.{unfund_refusal, unfund, add_flow_refusal, add_flow, remove_flow};
ghost use Rattle.share_model.specs.funding.Changes.{set_active, amend_refusal, amend};

use crate::cache::Cache;
use crate::tables::Tables;
use share_base::{FlowNo, Name, Refusal, TicketNo};
use share_model::OpenFlow;
use std::alloc::Global;
use std::marker::Model;

/// The currency ledger. A contract sees it as its graph of currencies, tickets and flows.
///
/// A refused call changes nothing and takes no number. If several refusals apply, it answers the first that its text
/// names. Only `new`, `make_currency`, `make_ticket` and `add_flow` take memory. Numbers count from 1, tickets and
/// flows apart, and are never used again. Amounts are in units of the ticket's currency, worths in units of `base`.
pub struct Ledger {
    tables: Tables,
    cache: Cache,
}

impl Drop for Ledger {
    fn drop(self) {
        let Ledger { tables, cache } = self;
        drop(tables);
        drop(cache);
    }
}

impl Model for Ledger {
    ghost use Rattle.share_model.specs.funding.Graph.{Graph};
    ghost use Rattle.share_ledger.specs.Cache.{IsCurrent};

    ghost Value = { Graph };

    ghost view = { λ l. l.tables };

    ghost invariant = { λ l.
        IsCurrent l.cache.valuation l.cache.tickets_of_all.value l.tables };
}

impl Ledger {
    /// An empty ledger, whose numbers count from 1. `NoMemory` if the memory for its cache was refused.
    pub fn new(alloc: Global) -> Result<Ledger, Refusal>
        ensures made { IfOk result (λ ledger. ledger ≡ empty_graph) }
        ensures refused { IfErr result (λ e. e ≡ Refusal.NoMemory) }
    {
        let mut cache = Cache::new(alloc)?;
        let tables = Tables::new(alloc);
        cache.renew(&tables);
        Ok(Ledger { tables, cache })
    }

    /// Makes a currency. `Taken` if there is one of this name, `TableFull` if there are 64 besides `base`, `NoMemory`
    /// if memory was refused.
    pub fn make_currency(&mut self, name: Name) -> Result<(), Refusal>
        ensures done { IfOk result
            (λ _. (make_currency_refusal self.old name ≡ None) × (self.new ≡ make_currency self.old name)) }
        ensures refused { IfErr result
            (λ e. IsRefused (make_currency_refusal self.old name) e × (self.new ≡ self.old)) }
    {
        self.tables.is_well_formed();
        self.tables.make_currency(name)
    }

    /// Removes a currency. `NoCurrency` if none has this name, `Base` if it is `base`, `InUse` if a ticket is
    /// denominated in it or funds it.
    pub fn remove_currency(&mut self, name: Name) -> Result<(), Refusal>
        ensures done { IfOk result
            (λ _. (remove_currency_refusal self.old name ≡ None) × (self.new ≡ remove_currency self.old name)) }
        ensures refused { IfErr result
            (λ e. (remove_currency_refusal self.old name ≡ Some e) × (self.new ≡ self.old)) }
    {
        self.tables.is_well_formed();
        let place = self.tables.place_made(name);
        self.tables.remove_currency(name)?;
        if let Some(place) = place {
            if self.cache.is_before(place) {
                return Ok(());
            }
        }
        self.cache.renew(&self.tables);
        Ok(())
    }

    /// Issues a ticket of 1 to 2^20 units of a currency, without a holder, and gives its number. `Range` if the amount
    /// is out of range, `NoCurrency` if none has this name, `TableFull` if there are 1024 tickets, `NoMemory` if memory
    /// was refused.
    pub fn make_ticket(&mut self, amount: u64, currency: Name) -> Result<TicketNo, Refusal>
        requires { self.old.next_ticket < 2 ^ 32 - 1 }
        ensures done { IfOk result
            (λ n. (make_ticket_refusal self.old amount currency ≡ None) × (n ≡ self.old.next_ticket)
            × (self.new ≡ make_ticket self.old amount currency)) }
        ensures refused { IfErr result
            (λ e. IsRefused (make_ticket_refusal self.old amount currency) e × (self.new ≡ self.old)) }
    {
        self.tables.make_ticket(amount, currency)
    }

    /// Removes a ticket. `NoTicket` if none has this number, `Funding` if it has a holder.
    pub fn remove_ticket(&mut self, ticket: u64) -> Result<(), Refusal>
        ensures done { IfOk result
            (λ _. (remove_ticket_refusal self.old ticket ≡ None) × (self.new ≡ remove_ticket self.old ticket)) }
        ensures refused { IfErr result
            (λ e. (remove_ticket_refusal self.old ticket ≡ Some e) × (self.new ≡ self.old)) }
    {
        self.tables.remove_ticket(ticket)
    }

    /// Changes the amount of a ticket to 1 to 2^20 units, whatever the ticket funds. `Range` if the amount is out of
    /// range, `NoTicket` if none has this number.
    pub fn amend(&mut self, ticket: u64, amount: u64) -> Result<(), Refusal>
        ensures done { IfOk result
            (λ _. (amend_refusal self.old ticket amount ≡ None) × (self.new ≡ amend self.old ticket amount)) }
        ensures refused { IfErr result
            (λ e. (amend_refusal self.old ticket amount ≡ Some e) × (self.new ≡ self.old)) }
    {
        self.tables.is_well_formed();
        if let Some(refusal) = self.tables.amend_refusal(ticket, amount) {
            return Err(refusal);
        }
        let amount = amount as u32;
        if !self.tables.has_holder(ticket) {
            self.tables.amend(ticket, amount);
            return Ok(());
        }
        let (route, backing) = self.tables.route_of(ticket);
        self.tables.amend(ticket, amount);
        self.cache.amend(&self.tables, &route, amount, backing);
        Ok(())
    }

    /// Makes a ticket fund a currency. `NoTicket` if none has this number, `NoCurrency` if none has this name, `Base`
    /// if it is `base`, `Funding` if the ticket has a holder. Then comes `Crowded` if 16 tickets fund the currency.
    /// Then comes `Cycle` if the currency is the ticket's denomination or backs it, by however many steps. Last is
    /// `Deep` if nine currencies besides `base` would be in a chain.
    pub fn fund_currency(&mut self, ticket: u64, currency: Name) -> Result<(), Refusal>
        ensures done { IfOk result
            (λ _. (fund_currency_refusal self.old ticket currency ≡ None)
            × (self.new ≡ fund_currency self.old ticket currency)) }
        ensures refused { IfErr result
            (λ e. (fund_currency_refusal self.old ticket currency ≡ Some e) × (self.new ≡ self.old)) }
    {
        self.tables.is_well_formed();
        self.tables
            .fund_currency(ticket, currency, &self.cache.valuation)?;
        let (route, backing) = self.tables.route_of(ticket);
        self.cache.give(&self.tables, &route, backing);
        Ok(())
    }

    /// Makes a ticket fund a flow. `NoTicket` if none has this number, `NoFlow` if no open flow has this name,
    /// `Funding` if the ticket has a holder. Last is `Crowded` if 16 tickets fund the flow.
    pub fn fund_flow(&mut self, ticket: u64, flow: Name) -> Result<(), Refusal>
        ensures done { IfOk result
            (λ _. (fund_flow_refusal self.old ticket flow ≡ None) × (self.new ≡ fund_flow self.old ticket flow)) }
        ensures refused { IfErr result
            (λ e. (fund_flow_refusal self.old ticket flow ≡ Some e) × (self.new ≡ self.old)) }
    {
        self.tables.is_well_formed();
        self.tables.fund_flow(ticket, flow, &self.cache.valuation)?;
        let (route, backing) = self.tables.route_of(ticket);
        self.cache.give(&self.tables, &route, backing);
        Ok(())
    }

    /// Takes a ticket from its holder. `NoTicket` if none has this number, `Unfunded` if it has no holder.
    pub fn unfund(&mut self, ticket: u64) -> Result<(), Refusal>
        ensures done { IfOk result
            (λ _. (unfund_refusal self.old ticket ≡ None) × (self.new ≡ unfund self.old ticket)) }
        ensures refused { IfErr result
            (λ e. (unfund_refusal self.old ticket ≡ Some e) × (self.new ≡ self.old)) }
    {
        self.tables.is_well_formed();
        if let Some(refusal) = self.tables.unfund_refusal(ticket) {
            return Err(refusal);
        }
        let (route, backing) = self.tables.route_of(ticket);
        self.tables.unfund(ticket);
        self.cache.take(&self.tables, &route, backing);
        Ok(())
    }

    /// Opens a flow, which is not active yet, and gives its number. `Taken` if an open flow has this name, `TableFull`
    /// if 64 are open, `NoMemory` if memory was refused.
    pub fn add_flow(&mut self, name: Name) -> Result<FlowNo, Refusal>
        requires { self.old.next_flow < 2 ^ 32 - 1 }
        ensures done { IfOk result
            (λ n. (add_flow_refusal self.old name ≡ None) × (n ≡ self.old.next_flow)
            × (self.new ≡ add_flow self.old name)) }
        ensures refused { IfErr result
            (λ e. IsRefused (add_flow_refusal self.old name) e × (self.new ≡ self.old)) }
    {
        self.tables.is_well_formed();
        let count = self.tables.flow_count();
        let flow = self.tables.add_flow(name)?;
        self.cache.append_none(count);
        Ok(flow)
    }

    /// Closes the flow of this number, if it is open. Its tickets lose their holder.
    pub fn remove_flow(&mut self, flow: FlowNo)
        ensures { self.new ≡ remove_flow self.old flow }
    {
        self.tables.is_well_formed();
        let place = self.tables.place_of_flow(flow);
        self.tables.remove_flow(flow);
        if let Some(place) = place {
            if self.cache.is_idle(place) {
                return;
            }
        }
        self.cache.renew(&self.tables);
    }

    /// Makes the flow of this number active or idle, if it is open.
    pub fn set_active(&mut self, flow: FlowNo, active: bool)
        ensures { self.new ≡ set_active self.old flow active }
    {
        self.tables.is_well_formed();
        if let Some(place) = self.tables.set_active(flow, active) {
            self.cache.set_active(&self.tables, place, active);
        }
    }

    /// The number of the open flow of this name.
    pub fn flow(&self, name: Name) -> Option<FlowNo>
        ensures { result ≡ option_map (λ f. f.number) (flow_named self.now name) }
    {
        self.tables.flow(name)
    }

    /// Why no flow can be opened under this name, memory aside: `Taken` if an open flow has it, `TableFull` if 64 are
    /// open.
    pub fn add_flow_refusal(&self, name: Name) -> Option<Refusal>
        ensures { result ≡ add_flow_refusal self.now name }
    {
        self.tables.add_flow_refusal(name)
    }

    /// The number of open flows, at most 64.
    pub fn flow_count(&self) -> usize
        ensures { result ≡ length self.now.flows }
    {
        self.tables.flow_count()
    }

    /// The open flow at a place, and its name. Places count from 0 in the order of opening. `None` if fewer flows are
    /// open.
    pub fn flow_at(&self, place: usize) -> Option<(Name, OpenFlow)>
        ensures { result ≡ slice_get self.now.flows place }
    {
        self.tables.flow_at(place)
    }

    /// The number that the next ticket gets.
    pub fn next_ticket(&self) -> u32
        ensures { result ≡ self.now.next_ticket }
    {
        self.tables.next_ticket()
    }

    /// The number that the next flow gets.
    pub fn next_flow(&self) -> u32
        ensures { result ≡ self.now.next_flow }
    {
        self.tables.next_flow()
    }

    /// The tickets of a flow, in units of `base`: what the tickets that fund it are worth together, at most 2^20. They
    /// are 0 if it is idle or not open.
    pub fn tickets(&self, flow: FlowNo) -> u32
        ensures { result ≡ tickets self.now flow }
    {
        match self.tables.place_of_flow(flow) {
            Some(place) => self.tickets_at(place),
            None => 0,
        }
    }

    /// The tickets of the open flow at a place, as `tickets` gives them by its number.
    pub fn tickets_at(&self, place: usize) -> u32
        requires { place < length self.now.flows }
        ensures { option_map (λ e. tickets self.now e.1.number) (slice_get self.now.flows place) ≡ Some result }
    {
        self.tables.is_well_formed();
        self.cache.tickets_of_all[place]
    }

    /// The tickets of all open flows, as `tickets` gives them by their numbers, in the order of opening.
    pub fn ticket_counts(&self) -> &[u32]
        ensures { result.now ≡ map (λ e. tickets self.now e.1.number) self.now.flows }
    {
        self.tables.is_well_formed();
        &self.cache.tickets_of_all[..self.tables.flow_count()]
    }

    pub(crate) fn tables(&self) -> &Tables
        ensures { result.now ≡ self.now }
    {
        &self.tables
    }
}
