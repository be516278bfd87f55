//! The values that are kept beside the tables: the valuation of funding tickets, weights and values by place, and the
//! tickets of each open flow.
ghost use Rattle.std.specs.Prelude.{◌≡◌, ℕ, ◌<◌, ◌≤◌, ◌+◌, ◌^◌, ◌++◌, ◌∷◌, [], take, length, true, false, nat_eq};
ghost use Rattle.std.specs.Prelude.{slice_index_or, IfOk};
ghost use Rattle.std.specs.Prelude.{if◌then◌else◌};
ghost use Rattle.share_ledger.specs.Bounds.{AreBefore, AreIdle};
ghost use Rattle.share_ledger.specs.Valuations.{activity_of, ComesToFund, CeasesToFund, GetsAmount, HasInputs, IsReady};
ghost use Rattle.share_ledger.specs.Arrays.{flags_of};
ghost use Rattle.share_ledger.specs.Routes.{IsRouteWithin, routes_of};
ghost use Rattle.share_ledger.specs.FundingTickets.{backs_of, funds_of};
ghost use Rattle.share_ledger.specs.Cache.{IsCurrent};
ghost use Rattle.share_ledger.specs.Stale.{WasCurrent};

use crate::bounds;
use crate::funding_tickets::FundingTickets;
use crate::routes::Route;
use crate::tables::{MAX_FLOWS, MAX_TICKETS, Tables};
use crate::valuation::{self, Valuation};
use std::alloc::{AllocError, Global};
use std::marker::Model;

/// The filler of room without a route.
const NO_ROUTE: Route = Route {
    from: 0,
    to: 0,
    amount: 0,
};

/// Routes, with room for those of all tickets.
#[derive(Drop)]
pub(crate) struct Listed {
    room: Box<[Route; MAX_TICKETS]>,
    count: usize,
}

impl Model for Listed {
    ghost use Rattle.std.specs.Prelude.{◌≤◌, List, take};
    ghost use Rattle.share_ledger.specs.declared.routes.Route.{Route};

    ghost Value = { List Route };

    ghost view = { λ l. take l.count l.room.value };

    ghost invariant = { λ l. l.count ≤ 1024 };
}

impl Listed {
    pub(crate) fn new(alloc: Global) -> Result<Listed, AllocError>
        ensures { IfOk result (λ listed. listed ≡ []) }
    {
        Ok(Listed {
            room: Box::new(alloc, [NO_ROUTE; MAX_TICKETS])?,
            count: 0,
        })
    }

    pub(crate) fn routes(&self) -> &[Route]
        ensures { result.now ≡ self.now }
    {
        &self.room[..self.count]
    }

    /// Lists the routes of the tickets that back currencies, or of those that fund flows.
    pub(crate) fn list(&mut self, tables: &Tables, backing: bool)
        ensures { self.new ≡ routes_of tables.now backing tables.now.tickets }
    {
        self.count = tables.list_routes(backing, &mut self.room);
    }
}

/// The valuation, the tickets of each open flow by its place, and room for routes, which are listed if all is computed
/// from scratch.
#[derive(Drop)]
pub(crate) struct Cache {
    pub(crate) valuation: Valuation,
    pub(crate) tickets_of_all: Box<[u32; MAX_FLOWS]>,
    backing: Listed,
    funding: Listed,
}

impl Cache {
    /// The cache of empty tables.
    pub(crate) fn new(alloc: Global) -> Result<Cache, AllocError>
        ensures { IfOk result (λ cache. (length cache.valuation.backing.items ≡ 65)
            × (length cache.valuation.funding.items ≡ 65)) }
    {
        Ok(Cache {
            valuation: Valuation::new(alloc)?,
            tickets_of_all: Box::new(alloc, [0; MAX_FLOWS])?,
            backing: Listed::new(alloc)?,
            funding: Listed::new(alloc)?,
        })
    }

    /// Whether no currency from a place on is backed, backs another, or funds a flow.
    pub(crate) fn is_before(&self, place: usize) -> bool
        requires places { (length self.now.valuation.backing.items ≡ 65)
            × (length self.now.valuation.funding.items ≡ 65) }
        ensures { result ≡ true → AreBefore self.now.valuation.backing.items self.now.valuation.funding.items place }
    {
        bounds::are_before(&self.valuation.backing, &self.valuation.funding, place)
    }

    /// Whether no flow from a place on is active or has a funding ticket.
    pub(crate) fn is_idle(&self, place: usize) -> bool
        requires { length self.now.valuation.funding.items ≡ 65 }
        ensures idle { result ≡ true
            → AreIdle self.now.valuation.funding.items (flags_of self.now.valuation.active.value) place }
        ensures long { length self.now.tickets_of_all.value ≡ 64 }
    {
        have_places(&self.tickets_of_all);
        bounds::are_idle(&self.valuation.funding, &self.valuation.active, place)
    }

    // Computes what follows from the funding tickets and the activity.
    fn recompute(&mut self, tables: &Tables)
        requires { HasInputs self.old.valuation (backs_of tables.now) (funds_of tables.now) (activity_of tables.now) }
        ensures { IsCurrent self.new.valuation self.new.tickets_of_all.value tables.now }
    {
        tables.is_well_formed();
        self.valuation.recompute(tables, &mut self.tickets_of_all);
    }

    // Computes what follows if at most the funding tickets of one currency, and the funding tickets or the activity of
    // one flow have changed.
    fn recompute_changed(&mut self, tables: &Tables, currency: usize, flow: usize)
        requires begun { HasInputs self.old.valuation (backs_of tables.now) (funds_of tables.now)
            (activity_of tables.now) }
        requires was { WasCurrent self.old.valuation self.old.tickets_of_all.value currency flow }
        requires place { currency < 65 }
        ensures { IsCurrent self.new.valuation self.new.tickets_of_all.value tables.now }
    {
        tables.is_well_formed();
        self.valuation
            .recompute_changed(tables, currency, flow, &mut self.tickets_of_all);
    }

    /// Computes all from scratch.
    pub(crate) fn renew(&mut self, tables: &Tables)
        requires places { (length self.old.valuation.backing.items ≡ 65)
            × (length self.old.valuation.funding.items ≡ 65) }
        ensures { IsCurrent self.new.valuation self.new.tickets_of_all.value tables.now }
    {
        self.backing.list(tables, true);
        self.funding.list(tables, false);
        self.valuation
            .begin(tables, self.backing.routes(), self.funding.routes());
        self.recompute(tables);
    }

    /// Follows a flow that became active or idle.
    pub(crate) fn set_active(&mut self, tables: &Tables, place: usize, active: bool)
        requires place { place < 64 }
        requires ready { IsReady self.old.valuation self.old.tickets_of_all.value (backs_of tables.now)
            (funds_of tables.now) (flags_of self.old.valuation.active.value) }
        requires turned { (k : ℕ) → activity_of tables.now k
            ≡ (if nat_eq place k then active else flags_of self.old.valuation.active.value k) }
        ensures { IsCurrent self.new.valuation self.new.tickets_of_all.value tables.now }
    {
        tables.is_well_formed();
        have_places(&self.tickets_of_all);
        if self.valuation.active[place] == active {
            return;
        }
        if self.valuation.is_funded_by_base(place) {
            self.valuation.set_active(tables, place, active);
            self.valuation.share(place, &mut self.tickets_of_all);
            return;
        }
        self.valuation.set_active(tables, place, active);
        self.recompute_changed(tables, 0, place);
    }

    // Computes what follows if at most the funding tickets of the holder of a route have changed.
    fn follow(&mut self, tables: &Tables, route: &Route, backing: bool)
        requires place { route.now.to < 65 }
        requires begun { HasInputs self.old.valuation (backs_of tables.now) (funds_of tables.now)
            (activity_of tables.now) }
        requires was { WasCurrent self.old.valuation self.old.tickets_of_all.value (if backing then route.now.to else 0)
            (if backing then 64 else route.now.to) }
        ensures { IsCurrent self.new.valuation self.new.tickets_of_all.value tables.now }
    {
        if backing {
            self.recompute_changed(tables, route.to, MAX_FLOWS);
            return;
        }
        self.recompute_changed(tables, 0, route.to);
    }

    /// Follows a ticket that began to back a currency or to fund a flow.
    pub(crate) fn give(&mut self, tables: &Tables, route: &Route, backing: bool)
        requires within { IsRouteWithin route.now }
        requires begun { ComesToFund self.old.valuation tables.now route.now backing }
        requires was { WasCurrent self.old.valuation self.old.tickets_of_all.value 0 64 }
        ensures { IsCurrent self.new.valuation self.new.tickets_of_all.value tables.now }
    {
        self.valuation.give(tables, route, backing);
        self.follow(tables, route, backing);
    }

    /// Follows a ticket that ceased to back a currency or to fund a flow.
    pub(crate) fn take(&mut self, tables: &Tables, route: &Route, backing: bool)
        requires within { IsRouteWithin route.now }
        requires begun { CeasesToFund self.old.valuation tables.now route.now backing }
        requires was { WasCurrent self.old.valuation self.old.tickets_of_all.value 0 64 }
        ensures { IsCurrent self.new.valuation self.new.tickets_of_all.value tables.now }
    {
        self.valuation.take(tables, route, backing);
        self.follow(tables, route, backing);
    }

    /// Follows a ticket that backs a currency or funds a flow and got another amount.
    pub(crate) fn amend(&mut self, tables: &Tables, route: &Route, amount: u32, backing: bool)
        requires within { IsRouteWithin route.now }
        requires small { amount ≤ 2 ^ 20 }
        requires begun { GetsAmount self.old.valuation tables.now route.now amount backing }
        requires was { WasCurrent self.old.valuation self.old.tickets_of_all.value 0 64 }
        ensures { IsCurrent self.new.valuation self.new.tickets_of_all.value tables.now }
    {
        self.valuation.amend(tables, route, amount, backing);
        self.follow(tables, route, backing);
    }

    /// Sets the tickets of the flow just opened, at place `count`, to 0.
    pub(crate) fn append_none(&mut self, count: usize)
        requires { count < 64 }
        ensures left { self.new.valuation ≡ self.old.valuation }
        ensures tickets_of_all { (k : ℕ) → slice_index_or self.new.tickets_of_all.value k 0
            ≡ (if nat_eq count k then 0 else slice_index_or self.old.tickets_of_all.value k 0) }
        ensures first { take (count + 1) self.new.tickets_of_all.value ≡ take count self.old.tickets_of_all.value ++ 0
            ∷ [] }
    {
        append_none(&mut self.tickets_of_all, count);
    }
}

// A law: there is a place for the tickets of each flow that can be open.
fn have_places(tickets_of_all: &[u32; MAX_FLOWS])
    ensures { length tickets_of_all.now ≡ 64 }
{
    let _ = tickets_of_all;
}

fn append_none(tickets_of_all: &mut [u32; MAX_FLOWS], count: usize)
    requires { count < 64 }
    ensures tickets_of_all { (k : ℕ) → slice_index_or tickets_of_all.new k 0
        ≡ (if nat_eq count k then 0 else slice_index_or tickets_of_all.old k 0) }
    ensures first { take (count + 1) tickets_of_all.new ≡ take count tickets_of_all.old ++ 0 ∷ [] }
{
    tickets_of_all[count] = 0;
}
