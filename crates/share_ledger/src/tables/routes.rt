//! The routes of the tickets that have a holder.
ghost use Rattle.std.specs.Prelude.{◌≡◌, ◌≤◌, ◌<◌, length, take, slice_get, option_map, Some, true};
ghost use Rattle.share_model.specs.funding.WellFormed.{names_of, times, IsHolderKnown};
ghost use Rattle.share_ledger.specs.Routes.{holder_place, is_kind, route_of, routes_of, IsRouteWithin};
ghost use Rattle.share_ledger.specs.Routes.{IsRouted};
ghost use Rattle.share_model.specs.funding.Changes.{ticket_of, has_found_holder};

use super::{MAX_TICKETS, Tables};
use crate::holders;
use crate::routes::Route;
use share_model::{Holder, Ticket};

impl Tables {
    // The place of a holder, among the currencies or among the flows.
    fn holder_place(&self, holder: &Holder) -> usize
        requires { IsHolderKnown self.now holder.now }
        ensures { result ≡ holder_place self.now holder.now }
    {
        match holder {
            Holder::Nobody => 0,
            Holder::Currency(name) => self.place_of(*name),
            Holder::Flow(flow) => match self.place_of_flow(*flow) {
                Some(place) => place,
                None => unreachable!(),
            },
        }
    }

    fn route(&self, ticket: &Ticket) -> Route
        requires denomination { 1 ≤ times ticket.now.denomination (names_of self.now) }
        requires holder { IsHolderKnown self.now ticket.now.holder }
        ensures { result ≡ route_of self.now ticket.now }
    {
        Route {
            from: self.place_of(ticket.denomination),
            to: self.holder_place(&ticket.holder),
            amount: ticket.amount,
        }
    }

    /// The route of a ticket that has a holder, and whether it backs a currency.
    pub(crate) fn route_of(&self, number: u64) -> (Route, bool)
        requires { has_found_holder (ticket_of self.now number) ≡ true }
        ensures within { IsRouteWithin result.0 }
        ensures routed { IsRouted self.now number result.0 result.1 }
    {
        self.is_well_formed();
        let Some(ticket) = self.ticket(number) else {
            unreachable!();
        };
        (self.route(ticket), holders::is_kind(&ticket.holder, true))
    }

    /// Lists the routes of the tickets that back currencies, or of those that fund flows, and returns their number.
    pub(crate) fn list_routes(&self, backing: bool, routes: &mut [Route; MAX_TICKETS]) -> usize
        ensures listed { take result routes.new ≡ routes_of self.now backing self.now.tickets }
        ensures few { result ≤ 1024 }
    {
        self.is_well_formed();
        let mut count = 0;
        for i in 0..self.tickets.len() {
            let ticket = &self.tickets[i];
            if holders::is_kind(&ticket.holder, backing) {
                routes[count] = self.route(ticket);
                count += 1;
            }
        }
        count
    }

    pub(crate) fn is_active_at(&self, place: usize) -> bool
        requires { place < length self.now.flows }
        ensures { option_map (λ e. e.1.active) (slice_get self.now.flows place) ≡ Some result }
    {
        match self.flow_at(place) {
            Some((_, open)) => open.active,
            None => false,
        }
    }
}
