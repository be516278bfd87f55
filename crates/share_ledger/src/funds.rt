//! The effects of commands on the valuation: a ticket begins or ceases to fund, or gets another amount.
ghost use Rattle.std.specs.Prelude.{◌≡◌, ◌<◌, ◌≤◌, ◌^◌, ℕ, Bool, length, true, false};
ghost use Rattle.std.specs.Prelude.{take, if◌then◌else◌};
ghost use Rattle.share_model.specs.lists.Each.{Each};
ghost use Rattle.share_ledger.specs.Chains.{AreBacked};
ghost use Rattle.share_ledger.specs.Ranks.{AreRanks, AreListed, IsRankedBelow, is_tall};
ghost use Rattle.share_ledger.specs.Arrays.{numbers_of};
ghost use Rattle.share_ledger.specs.Routes.{IsRouteWithin};
ghost use Rattle.share_ledger.specs.FundingTickets.{IsFundingTicketWithin, funding_tickets_at, backs_of, funds_of};
ghost use Rattle.share_ledger.specs.Valuations.{activity_of, ComesToFund, CeasesToFund, GetsAmount, HasInputs};
ghost use Rattle.share_ledger.specs.Stale.{IsLeft};

use crate::activity::{add_funding_ticket, amount_if, remove_funding_ticket};
use crate::ranks::Edge;
use crate::routes::Route;
use crate::tables::Tables;
use crate::valuation::{self, Valuation};
use crate::{chains, ranks};

impl Valuation {
    /// Whether all currencies have ranks if a ticket of the currency at `from` also backs that at `to`. If so, no chain
    /// is too long or leads back. Mostly the kept ranks show it.
    pub(crate) fn has_ranks(&self, from: usize, to: usize) -> bool
        requires within { (p : ℕ) → p < 65 → Each IsFundingTicketWithin (funding_tickets_at self.now.backing.items p) }
        requires places { length self.now.backing.items ≡ 65 }
        requires ranked { AreRanks self.now.backing.items (numbers_of self.now.ranks.value) }
        requires from_place { from < 65 }
        requires made { 0 < to }
        requires to_place { to < 65 }
        ensures below { result ≡ true → IsRankedBelow self.now.backing.items from to }
        ensures deep { result ≡ false
            → (p : ℕ) × ((0 < p) × ((p < 65) × (is_tall self.now.backing.items from to 8 p ≡ true))) }
    {
        if self.ranks[from] < self.ranks[to] {
            return true;
        }
        ranks::list(&self.backing, Edge { from, to }).is_some()
    }

    /// Whether the currency at `first` is that at `place` or backs it, by however many steps.
    pub(crate) fn backs(&self, first: usize, place: usize) -> bool
        requires within { (p : ℕ) → p < 65 → Each IsFundingTicketWithin (funding_tickets_at self.now.backing.items p) }
        requires places { length self.now.backing.items ≡ 65 }
        requires ranked { AreRanks self.now.backing.items (numbers_of self.now.ranks.value) }
        requires listed { AreListed (numbers_of self.now.ranks.value) (numbers_of self.now.order.value) }
        requires place { place < 65 }
        ensures { (flag : ℕ → Bool) × (AreBacked self.now.backing.items first flag × (result ≡ flag place)) }
    {
        let flags = chains::backed_by(&self.backing, &self.order, first);
        flags[place]
    }

    // Adds a ticket that backs a currency.
    fn add_backing(&mut self, tables: &Tables, route: &Route)
        requires within { IsRouteWithin route.now }
        requires begun { ComesToFund self.old tables.now route.now true }
        ensures begun { HasInputs self.new (backs_of tables.now) (funds_of tables.now) (activity_of tables.now) }
        ensures left { IsLeft self.old self.new route.now.to 64 }
    {
        tables.is_well_formed();
        add_funding_ticket(route, &mut self.backing);
        ranks::renew(
            tables,
            &self.backing,
            Edge {
                from: route.from,
                to: route.to,
            },
            &mut self.ranks,
            &mut self.order,
        );
        let amount = amount_if(self.awake[route.to], route.amount);
        valuation::add_one(&mut self.weights, route.from, amount);
    }

    // Adds a ticket that funds a flow.
    fn add_funding(&mut self, tables: &Tables, route: &Route)
        requires within { IsRouteWithin route.now }
        requires begun { ComesToFund self.old tables.now route.now false }
        ensures begun { HasInputs self.new (backs_of tables.now) (funds_of tables.now) (activity_of tables.now) }
        ensures left { IsLeft self.old self.new 0 route.now.to }
    {
        tables.is_well_formed();
        add_funding_ticket(route, &mut self.funding);
        let amount = amount_if(self.active[route.to], route.amount);
        valuation::add_one(&mut self.weights, route.from, amount);
    }

    // Takes out a ticket that backed a currency.
    fn take_backing(&mut self, tables: &Tables, route: &Route)
        requires within { IsRouteWithin route.now }
        requires begun { CeasesToFund self.old tables.now route.now true }
        ensures begun { HasInputs self.new (backs_of tables.now) (funds_of tables.now) (activity_of tables.now) }
        ensures left { IsLeft self.old self.new route.now.to 64 }
    {
        tables.is_well_formed();
        remove_funding_ticket(route, &mut self.backing);
        let amount = amount_if(self.awake[route.to], route.amount);
        valuation::subtract_one(&mut self.weights, route.from, amount);
    }

    // Takes out a ticket that funded a flow.
    fn take_funding(&mut self, tables: &Tables, route: &Route)
        requires within { IsRouteWithin route.now }
        requires begun { CeasesToFund self.old tables.now route.now false }
        ensures begun { HasInputs self.new (backs_of tables.now) (funds_of tables.now) (activity_of tables.now) }
        ensures left { IsLeft self.old self.new 0 route.now.to }
    {
        tables.is_well_formed();
        remove_funding_ticket(route, &mut self.funding);
        let amount = amount_if(self.active[route.to], route.amount);
        valuation::subtract_one(&mut self.weights, route.from, amount);
    }

    /// Adds a ticket that backs a currency or funds a flow.
    pub(crate) fn give(&mut self, tables: &Tables, route: &Route, backing: bool)
        requires within { IsRouteWithin route.now }
        requires begun { ComesToFund self.old tables.now route.now backing }
        ensures begun { HasInputs self.new (backs_of tables.now) (funds_of tables.now) (activity_of tables.now) }
        ensures left { IsLeft self.old self.new
            (if backing then route.now.to else 0) (if backing then 64 else route.now.to) }
    {
        if backing {
            self.add_backing(tables, route);
            return;
        }
        self.add_funding(tables, route);
    }

    /// Takes out a ticket that backed a currency or funded a flow.
    pub(crate) fn take(&mut self, tables: &Tables, route: &Route, backing: bool)
        requires within { IsRouteWithin route.now }
        requires begun { CeasesToFund self.old tables.now route.now backing }
        ensures begun { HasInputs self.new (backs_of tables.now) (funds_of tables.now) (activity_of tables.now) }
        ensures left { IsLeft self.old self.new
            (if backing then route.now.to else 0) (if backing then 64 else route.now.to) }
    {
        if backing {
            self.take_backing(tables, route);
            return;
        }
        self.take_funding(tables, route);
    }
    // Changes the amount of a ticket that backs a currency.
    fn amend_backing(&mut self, tables: &Tables, route: &Route, amount: u32)
        requires within { IsRouteWithin route.now }
        requires small { amount ≤ 2 ^ 20 }
        requires begun { GetsAmount self.old tables.now route.now amount true }
        ensures begun { HasInputs self.new (backs_of tables.now) (funds_of tables.now) (activity_of tables.now) }
        ensures left { IsLeft self.old self.new route.now.to 64 }
    {
        tables.is_well_formed();
        let amended = Route { amount, ..*route };
        remove_funding_ticket(route, &mut self.backing);
        add_funding_ticket(&amended, &mut self.backing);
        let before = amount_if(self.awake[route.to], route.amount);
        let after = amount_if(self.awake[route.to], amount);
        valuation::subtract_one(&mut self.weights, route.from, before);
        valuation::add_one(&mut self.weights, route.from, after);
    }

    // Changes the amount of a ticket that funds a flow.
    fn amend_funding(&mut self, tables: &Tables, route: &Route, amount: u32)
        requires within { IsRouteWithin route.now }
        requires small { amount ≤ 2 ^ 20 }
        requires begun { GetsAmount self.old tables.now route.now amount false }
        ensures begun { HasInputs self.new (backs_of tables.now) (funds_of tables.now) (activity_of tables.now) }
        ensures left { IsLeft self.old self.new 0 route.now.to }
    {
        tables.is_well_formed();
        let amended = Route { amount, ..*route };
        remove_funding_ticket(route, &mut self.funding);
        add_funding_ticket(&amended, &mut self.funding);
        let before = amount_if(self.active[route.to], route.amount);
        let after = amount_if(self.active[route.to], amount);
        valuation::subtract_one(&mut self.weights, route.from, before);
        valuation::add_one(&mut self.weights, route.from, after);
    }

    /// Changes the amount of a ticket that backs a currency or funds a flow. No rank changes.
    pub(crate) fn amend(&mut self, tables: &Tables, route: &Route, amount: u32, backing: bool)
        requires within { IsRouteWithin route.now }
        requires small { amount ≤ 2 ^ 20 }
        requires begun { GetsAmount self.old tables.now route.now amount backing }
        ensures begun { HasInputs self.new (backs_of tables.now) (funds_of tables.now) (activity_of tables.now) }
        ensures left { IsLeft self.old self.new
            (if backing then route.now.to else 0) (if backing then 64 else route.now.to) }
    {
        if backing {
            self.amend_backing(tables, route, amount);
            return;
        }
        self.amend_funding(tables, route, amount);
    }
}
