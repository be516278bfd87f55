//! Changes of the valuation: a flow becomes active or idle, a funding ticket comes or goes, or all is computed from
//! scratch.
ghost use Rattle.share_ledger.specs.declared.funding_tickets.FundingTicket.{FundingTicket};
ghost use Rattle.std.specs.Prelude.{◌≡◌, ℕ, sum_by, ◌+◌, ◌<◌, ◌++◌, ◌∷◌, [], length, true, false, not, nat_eq, IfOk};
ghost use Rattle.std.specs.Prelude.{◌^◌, min, slice_set, if◌then◌else◌};
ghost use Rattle.std.specs.Prelude.{◌≤◌};
ghost use Rattle.std.specs.List.{list_all, list_any};
ghost use Rattle.share_model.specs.lists.Each.{Each};
ghost use Rattle.share_ledger.specs.Arrays.{flags_of, numbers_of};
ghost use Rattle.share_ledger.specs.Routes.{IsRouteWithin};
ghost use Rattle.share_ledger.specs.FundingTickets.{funding_tickets_at, funding_ticket_of, is_like, AreTicketed};
ghost use Rattle.share_ledger.specs.FundingTickets.{AreCounted, backs_of, funds_of};
ghost use Rattle.share_ledger.specs.FundingTickets.{IsFundingTicketWithin, AreSmall, worth_at};
ghost use Rattle.share_ledger.specs.Valuations.{activity_of, HasInputs};

use crate::funding_tickets::{FundingTicket, FundingTickets, funding_tickets_at};
use crate::ranks;
use crate::routes::Route;
use crate::tables::{MAX_FLOWS, PLACES, Tables};
use crate::valuation::{self, Valuation};
use std::alloc::{AllocError, Global};

// The holders of all places, without funding tickets.
fn holders(alloc: Global) -> Result<Vec<FundingTickets>, AllocError>
    ensures { IfOk result (λ holders. length holders.items ≡ 65) }
{
    let mut holders = Vec::new(alloc);
    for _ in 0..PLACES {
        holders.push(FundingTickets::new())?;
    }
    Ok(holders)
}

// Takes all funding tickets away.
fn clear(holders: &mut Vec<FundingTickets>)
    ensures places { length holders.new.items ≡ length holders.old.items }
    ensures none { (p : ℕ) → funding_tickets_at holders.new.items p ≡ [] }
{
    for i in 0..holders.len() {
        let holder = &mut holders[i];
        holder.clear();
    }
}

// Gives the holder of a route its funding ticket.
pub(crate) fn add_funding_ticket(route: &Route, holders: &mut Vec<FundingTickets>)
    requires within { IsRouteWithin route.now }
    requires places { length holders.old.items ≡ 65 }
    requires room { length (funding_tickets_at holders.old.items route.now.to) < 16 }
    ensures places { length holders.new.items ≡ 65 }
    ensures ticketed { (k : ℕ) → funding_tickets_at holders.new.items k
        ≡ (if nat_eq route.now.to k then funding_tickets_at holders.old.items k ++ funding_ticket_of route.now ∷ []
        else funding_tickets_at holders.old.items k) }
{
    let holder = &mut holders[route.to];
    holder.add(FundingTicket {
        from: route.from as u32,
        amount: route.amount,
    });
}

// Takes the funding ticket of a route from its holder.
pub(crate) fn remove_funding_ticket(route: &Route, holders: &mut Vec<FundingTickets>)
    requires within { IsRouteWithin route.now }
    requires places { length holders.old.items ≡ 65 }
    requires has { list_any (is_like (funding_ticket_of route.now)) (funding_tickets_at holders.old.items route.now.to)
        ≡ true }
    ensures places { length holders.new.items ≡ 65 }
    ensures others { (k : ℕ) → nat_eq route.now.to k ≡ false
        → funding_tickets_at holders.new.items k ≡ funding_tickets_at holders.old.items k }
    ensures out { (F : FundingTicket → ℕ)
        → sum_by F (funding_tickets_at holders.new.items route.now.to) + F (funding_ticket_of route.now)
        ≡ sum_by F (funding_tickets_at holders.old.items route.now.to) }
{
    let holder = &mut holders[route.to];
    holder.remove(FundingTicket {
        from: route.from as u32,
        amount: route.amount,
    });
}

// The amount if `holds`, otherwise 0.
pub(crate) fn amount_if(holds: bool, amount: u32) -> u32
    ensures { result ≡ (if holds then amount else 0) }
{
    if holds {
        return amount;
    }
    0
}

// Gives the holders the funding tickets of these routes, and takes away all others.
fn fill(routes: &[Route], holders: &mut Vec<FundingTickets>)
    requires within { Each IsRouteWithin routes.now }
    requires places { length holders.old.items ≡ 65 }
    requires room { (p : ℕ) → p < 65 → sum_by (λ r. if nat_eq p r.to then 1 else 0) routes.now ≤ 16 }
    ensures ticketed { AreTicketed routes.now holders.new.items }
{
    clear(holders);
    for route in routes {
        add_funding_ticket(route, holders);
    }
}

fn clear_flags(flags: &mut [bool; PLACES])
    ensures { (k : ℕ) → flags_of flags.new k ≡ false }
{
    for place in 0..PLACES {
        flags[place] = false;
    }
}

fn empty_all(weights: &mut [u32; PLACES], values: &mut [u64; PLACES])
    ensures weights { (k : ℕ) → numbers_of weights.new k ≡ 0 }
    ensures values { (k : ℕ) → numbers_of values.new k ≡ 0 }
{
    for place in 0..PLACES {
        weights[place] = 0;
        values[place] = 0;
    }
}

// Wakes the active flows; none is awake before.
fn wake_all(
    tables: &Tables,
    funding: &[FundingTickets],
    awake: &[bool; PLACES],
    active: &mut [bool; PLACES],
    weights: &mut [u32; PLACES],
)
    requires ticketed { AreTicketed (funds_of tables.now) funding.now }
    requires idle { (k : ℕ) → flags_of active.old k ≡ false }
    requires counted { AreCounted (backs_of tables.now) (funds_of tables.now) (flags_of awake.now)
        (flags_of active.old) (numbers_of weights.old) }
    ensures counted { AreCounted (backs_of tables.now) (funds_of tables.now) (flags_of awake.now)
        (flags_of active.new) (numbers_of weights.new) }
    ensures active { (k : ℕ) → flags_of active.new k ≡ activity_of tables.now k }
{
    tables.is_well_formed();
    for place in 0..tables.flow_count() {
        if tables.is_active_at(place) {
            valuation::wake(tables, funding, awake, place, active, weights);
        }
    }
}

// Resets activity, weights and values, and then wakes each active flow.
fn rouse(
    tables: &Tables,
    funding: &[FundingTickets],
    active: &mut [bool; PLACES],
    awake: &mut [bool; PLACES],
    weights: &mut [u32; PLACES],
    values: &mut [u64; PLACES],
)
    requires ticketed { AreTicketed (funds_of tables.now) funding.now }
    ensures counted { AreCounted (backs_of tables.now) (funds_of tables.now) (flags_of awake.new)
        (flags_of active.new) (numbers_of weights.new) }
    ensures active { (k : ℕ) → flags_of active.new k ≡ activity_of tables.now k }
    ensures small { AreSmall (numbers_of values.new) }
{
    clear_flags(active);
    clear_flags(awake);
    empty_all(weights, values);
    wake_all(tables, funding, awake, active, weights);
}

impl Valuation {
    pub(crate) fn new(alloc: Global) -> Result<Valuation, AllocError>
        ensures { IfOk result (λ n. (length n.backing.items ≡ 65) × (length n.funding.items ≡ 65)) }
    {
        Ok(Valuation {
            backing: holders(alloc)?,
            funding: holders(alloc)?,
            active: Box::new(alloc, [false; PLACES])?,
            awake: Box::new(alloc, [false; PLACES])?,
            weights: Box::new(alloc, [0; PLACES])?,
            seen: Box::new(alloc, [0; PLACES])?,
            values: Box::new(alloc, [0; PLACES])?,
            ranks: Box::new(alloc, [0; PLACES])?,
            order: Box::new(alloc, [0; PLACES])?,
        })
    }

    /// Makes the flow at a place wake or rest.
    pub(crate) fn set_active(&mut self, tables: &Tables, place: usize, active: bool)
        requires place { place < 65 }
        requires begun { HasInputs self.old (backs_of tables.now) (funds_of tables.now)
            (flags_of self.old.active.value) }
        requires turns { flags_of self.old.active.value place ≡ not active }
        requires then { (k : ℕ) → activity_of tables.now k
            ≡ (if nat_eq place k then active else flags_of self.old.active.value k) }
        ensures begun { HasInputs self.new (backs_of tables.now) (funds_of tables.now) (activity_of tables.now) }
        ensures left { (self.new.backing ≡ self.old.backing) × (self.new.funding ≡ self.old.funding)
            × (self.new.awake ≡ self.old.awake) × (self.new.values ≡ self.old.values)
            × (self.new.seen ≡ self.old.seen) }
        ensures still { list_all (λ s. nat_eq s.from 0) (funding_tickets_at self.old.funding.items place) ≡ true
            → (k : ℕ) → 0 < k → k < 65
            → numbers_of self.new.weights.value k ≡ numbers_of self.old.weights.value k }
    {
        if active {
            valuation::wake(
                tables,
                &self.funding,
                &self.awake,
                place,
                &mut self.active,
                &mut self.weights,
            );
            return;
        }
        valuation::rest(
            tables,
            &self.funding,
            &self.awake,
            place,
            &mut self.active,
            &mut self.weights,
        );
    }

    /// Whether the tickets that fund the flow at a place are denominated in `base` alone.
    pub(crate) fn is_funded_by_base(&self, place: usize) -> bool
        requires place { place < 65 }
        requires places { length self.now.funding.items ≡ 65 }
        ensures { result ≡ list_all (λ s. nat_eq s.from 0) (funding_tickets_at self.now.funding.items place) }
    {
        valuation::are_of_base(funding_tickets_at(&self.funding, place))
    }

    /// Computes the tickets of the flow at a place.
    pub(crate) fn share(&self, place: usize, tickets_of_all: &mut [u32; MAX_FLOWS])
        requires place { place < 64 }
        requires within { (p : ℕ) → p < 65 → Each IsFundingTicketWithin (funding_tickets_at self.now.funding.items p) }
        requires places { length self.now.funding.items ≡ 65 }
        requires small { AreSmall (numbers_of self.now.values.value) }
        ensures set { tickets_of_all.new ≡ slice_set tickets_of_all.old place
            (min (worth_at self.now.funding.items (flags_of self.now.active.value)
            (numbers_of self.now.values.value) (numbers_of self.now.weights.value) place) (2 ^ 20)) }
        ensures long { (length tickets_of_all.old ≡ 64) × (length tickets_of_all.new ≡ 64) }
    {
        tickets_of_all[place] = valuation::share_at(
            &self.funding,
            &self.active,
            &self.weights,
            &self.values,
            place,
        );
    }

    /// Computes all funding tickets, the ranks and the activity from scratch.
    pub(crate) fn begin(&mut self, tables: &Tables, backs: &[Route], funds: &[Route])
        requires backs { backs.now ≡ backs_of tables.now }
        requires funds { funds.now ≡ funds_of tables.now }
        requires places { (length self.old.backing.items ≡ 65) × (length self.old.funding.items ≡ 65) }
        ensures { HasInputs self.new (backs_of tables.now) (funds_of tables.now) (activity_of tables.now) }
    {
        tables.is_well_formed();
        fill(backs, &mut self.backing);
        fill(funds, &mut self.funding);
        ranks::list_all(tables, &self.backing, &mut self.ranks, &mut self.order);
        rouse(
            tables,
            &self.funding,
            &mut self.active,
            &mut self.awake,
            &mut self.weights,
            &mut self.values,
        );
    }
}
