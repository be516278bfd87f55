//! The tables of the ledger, and what is looked up in them.
ghost use Rattle.std.specs.Prelude.{◌≡◌, length, bytes_eq, nat_eq, map, position, option_map};
ghost use Rattle.std.specs.Prelude.{option_copied, slice_get, Some, MatchOption, IsTrue, ◌-◌, ◌≤◌, ◌<◌, IfSome};
ghost use Rattle.share_model.specs.funding.Graph.{base, empty_graph};
ghost use Rattle.share_model.specs.funding.Changes.{ticket_of, is_currency, flow_named, is_numbered};
ghost use Rattle.share_model.specs.funding.WellFormed.{IsWellFormed, names_of, times};
ghost use Rattle.share_ledger.specs.Places.{place};
ghost use Rattle.share_model.specs.declared.funding.OpenFlow.{OpenFlow};

mod changes;
mod counts;
mod refusals;
mod routes;

use crate::tickets;
use indexmap::{IndexMap, IndexSet};
use share_base::{FlowNo, Name};
use share_model::{OpenFlow, Ticket};
use std::alloc::Global;
use std::marker::Model;

/// The most currencies besides `base`.
pub(crate) const MAX_CURRENCIES: usize = 64;

/// The places of currencies: that of `base`, and 64 more.
pub(crate) const PLACES: usize = 65;

/// The most tickets at once.
pub(crate) const MAX_TICKETS: usize = 1024;

/// The most open flows.
pub(crate) const MAX_FLOWS: usize = 64;

/// The most tickets that fund one currency or one flow.
pub(crate) const MAX_FUNDING: usize = 16;

/// The greatest amount of a ticket.
pub(crate) const MAX_AMOUNT: u64 = 1 << 20;

/// The currencies besides `base`, the tickets, the open flows, and the next numbers. A contract sees them as their
/// graph.
#[derive(Drop)]
pub(crate) struct Tables {
    currencies: IndexSet<Name>,
    tickets: Vec<Ticket>,
    flows: IndexMap<Name, OpenFlow>,
    next_ticket: u32,
    next_flow: u32,
}

impl Model for Tables {
    ghost use Rattle.share_model.specs.funding.Graph.{Graph};
    ghost use Rattle.share_model.specs.funding.WellFormed.{IsWellFormed};

    ghost Value = { Graph };

    ghost view = { λ t. record {
      currencies = t.currencies.keys;
      tickets = t.tickets.items;
      next_ticket = t.next_ticket;
      flows = t.flows.entries;
      next_flow = t.next_flow;
    } };

    ghost invariant = { λ t. IsWellFormed (record {
      currencies = t.currencies.keys;
      tickets = t.tickets.items;
      next_ticket = t.next_ticket;
      flows = t.flows.entries;
      next_flow = t.next_flow;
    }) };
}

/// Whether a name is `base`, the currency that always exists.
pub(crate) fn is_base(name: Name) -> bool
    ensures { result ≡ bytes_eq name base }
{
    name.as_bytes() == b"base".as_slice()
}

impl Tables {
    /// Empty tables, whose numbers count from 1.
    pub(crate) fn new(alloc: Global) -> Tables
        ensures { result ≡ empty_graph }
    {
        Tables {
            currencies: IndexSet::new(alloc),
            tickets: Vec::new(alloc),
            flows: IndexMap::new(alloc),
            next_ticket: 1,
            next_flow: 1,
        }
    }

    /// A law: the graph is well formed.
    pub(crate) fn is_well_formed(&self)
        ensures { IsWellFormed self.now }
    {
        let _ = &self.next_ticket;
    }

    /// The number that the next ticket gets.
    pub(crate) fn next_ticket(&self) -> u32
        ensures { result ≡ self.now.next_ticket }
    {
        self.next_ticket
    }

    /// The number that the next flow gets.
    pub(crate) fn next_flow(&self) -> u32
        ensures { result ≡ self.now.next_flow }
    {
        self.next_flow
    }

    fn is_currency(&self, name: Name) -> bool
        ensures { result ≡ is_currency self.now name }
    {
        is_base(name) || self.currencies.contains(&name)
    }

    fn ticket(&self, number: u64) -> Option<&Ticket>
        ensures { option_copied result ≡ ticket_of self.now number }
    {
        match self.place_of_ticket(number) {
            None => None,
            Some(place) => Some(&self.tickets[place]),
        }
    }

    fn place_of_ticket(&self, number: u64) -> Option<usize>
        ensures { result ≡ position (is_numbered number) self.now.tickets }
    {
        tickets::place_of(&self.tickets, number)
    }

    fn flow_named(&self, name: Name) -> Option<OpenFlow>
        ensures { result ≡ flow_named self.now name }
    {
        self.flows.get(&name).copied()
    }

    /// The place of a currency: 0 for `base`, then the order in which they were made.
    fn place_of(&self, name: Name) -> usize
        requires { 1 ≤ times name (names_of self.now) }
        ensures value { result ≡ place (names_of self.now) name }
        ensures within { result < 65 }
    {
        self.is_well_formed();
        if is_base(name) {
            return 0;
        }
        let Some(place) = self.currencies.get_index_of(&name) else {
            unreachable!();
        };
        place + 1
    }

    /// The place of a currency that was made, if there is one of this name.
    pub(crate) fn place_made(&self, name: Name) -> Option<usize>
        ensures { IfSome result (λ p. p ≡ place (names_of self.now) name) }
    {
        if is_base(name) {
            return None;
        }
        match self.currencies.get_index_of(&name) {
            Some(place) => Some(place + 1),
            None => None,
        }
    }

    /// The number of the open flow of this name.
    pub(crate) fn flow(&self, name: Name) -> Option<FlowNo>
        ensures { result ≡ option_map (λ f. f.number) (flow_named self.now name) }
    {
        match self.flow_named(name) {
            Some(flow) => Some(flow.number),
            None => None,
        }
    }

    /// The number of open flows.
    pub(crate) fn flow_count(&self) -> usize
        ensures { result ≡ length self.now.flows }
    {
        self.flows.len()
    }

    /// The open flow at a place in the order of opening, with its name.
    pub(crate) fn flow_at(&self, place: usize) -> Option<(Name, OpenFlow)>
        ensures { result ≡ slice_get self.now.flows place }
    {
        match self.flows.get_index(place) {
            Some((name, open)) => Some((*name, *open)),
            None => None,
        }
    }

    /// The place of an open flow in the order of opening.
    pub(crate) fn place_of_flow(&self, flow: FlowNo) -> Option<usize>
        ensures { result
            ≡ position (λ (o : OpenFlow). nat_eq flow o.number) (map (λ e. e.1) self.now.flows) }
    {
        let place = self.flows_past_first(flow);
        if self.is_flow_at(flow, place) {
            return Some(place);
        }
        self.flows.values().position(|open| flow == open.number)
    }

    // The distance of the flow's number past that of the first flow. That is its place if no flow between them was
    // closed.
    fn flows_past_first(&self, flow: FlowNo) -> usize
        ensures { MatchOption (slice_get self.now.flows 0) (result ≡ 0) (λ first. result ≡ flow - first.1.number) }
    {
        match self.flow_at(0) {
            None => 0,
            Some((_, first)) => flow.number().saturating_sub(first.number.number()) as usize,
        }
    }

    // Whether the open flow of a number is at a place.
    fn is_flow_at(&self, flow: FlowNo, place: usize) -> bool
        ensures { IsTrue result
            → position (λ (o : OpenFlow). nat_eq flow o.number) (map (λ e. e.1) self.now.flows) ≡ Some place }
    {
        self.is_well_formed();
        match self.flow_at(place) {
            None => false,
            Some((_, open)) => flow == open.number,
        }
    }
}
