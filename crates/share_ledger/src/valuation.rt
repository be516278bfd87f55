//! The weights and values that the funding gives the currencies, and the tickets that it gives the flows. Amounts go
//! up, from a holder to what its funding tickets are denominated in, and values go down. Each funding ticket of a
//! currency comes from a place of a lower rank, so one pass over the places, rank by rank, computes either.
ghost use Rattle.std.specs.Prelude.{◌≡◌, ℕ, ◌+◌, ◌-◌, ◌*◌, ◌/◌, ◌^◌, ◌<◌, ◌≤◌, min, length, sum_by, true, false, not};
ghost use Rattle.std.specs.Prelude.{nat_eq, nat_lt, if◌then◌else◌};
ghost use Rattle.std.specs.List.{list_all};
ghost use Rattle.share_model.specs.lists.Each.{Each};
ghost use Rattle.share_ledger.specs.Arrays.{flags_of, numbers_of};
ghost use Rattle.share_ledger.specs.Ranks.{AreOrdered};
ghost use Rattle.share_ledger.specs.FundingTickets.{IsFundingTicketWithin, amount_from, funding_ticket_worth};
ghost use Rattle.share_ledger.specs.FundingTickets.{funding_tickets_at, AreTicketed};
ghost use Rattle.share_ledger.specs.FundingTickets.{AreCounted, AreAwake, AreValued, AreSmall, HaveValues, AreShared};
ghost use Rattle.share_ledger.specs.FundingTickets.{worth_at, backs_of, funds_of};

use crate::funding_tickets::{FundingTicket, FundingTickets, funding_tickets_at};
use crate::tables::{MAX_AMOUNT, MAX_FLOWS, PLACES, Tables};

/// The funding tickets of the currencies and of the flows by their places, the flows that are active and the currencies
/// that are awake. The weight of each place is there twice: as it is, and as it was when all was computed last. Each
/// currency has its value and its rank, and the places are listed rank by rank.
#[derive(Drop)]
pub(crate) struct Valuation {
    pub(crate) backing: Vec<FundingTickets>,
    pub(crate) funding: Vec<FundingTickets>,
    pub(crate) active: Box<[bool; PLACES]>,
    pub(crate) awake: Box<[bool; PLACES]>,
    pub(crate) weights: Box<[u32; PLACES]>,
    pub(crate) seen: Box<[u32; PLACES]>,
    pub(crate) values: Box<[u64; PLACES]>,
    pub(crate) ranks: Box<[u8; PLACES]>,
    pub(crate) order: Box<[u8; PLACES]>,
}

/// Adds the amounts of funding tickets to the weights of the places that they come from.
pub(crate) fn add_all(funding_tickets: &[FundingTicket], weights: &mut [u32; PLACES])
    requires within { Each IsFundingTicketWithin funding_tickets.now }
    requires few { length funding_tickets.now ≤ 16 }
    requires small { (p : ℕ) → p < 65 → numbers_of weights.old p ≤ 2 ^ 31 }
    ensures { (p : ℕ) → p < 65
        → numbers_of weights.new p ≡ numbers_of weights.old p + amount_from funding_tickets.now p }
{
    for funding_ticket in funding_tickets {
        weights[funding_ticket.from as usize] += funding_ticket.amount;
    }
}

/// Takes the amounts of funding tickets from the weights of the places that they come from.
pub(crate) fn subtract_all(funding_tickets: &[FundingTicket], weights: &mut [u32; PLACES])
    requires within { Each IsFundingTicketWithin funding_tickets.now }
    requires covered { (p : ℕ) → p < 65 → amount_from funding_tickets.now p ≤ numbers_of weights.old p }
    ensures { (p : ℕ) → p < 65
        → numbers_of weights.new p + amount_from funding_tickets.now p ≡ numbers_of weights.old p }
{
    for funding_ticket in funding_tickets {
        weights[funding_ticket.from as usize] -= funding_ticket.amount;
    }
}

/// Adds to the weight of a place.
pub(crate) fn add_one(weights: &mut [u32; PLACES], place: usize, amount: u32)
    requires place { place < 65 }
    requires amount { amount ≤ 2 ^ 20 }
    requires small { (p : ℕ) → p < 65 → numbers_of weights.old p ≤ 2 ^ 31 }
    ensures { (p : ℕ) → p < 65
        → numbers_of weights.new p ≡ numbers_of weights.old p + (if nat_eq p place then amount else 0) }
{
    weights[place] += amount;
}

/// Takes from the weight of a place.
pub(crate) fn subtract_one(weights: &mut [u32; PLACES], place: usize, amount: u32)
    requires place { place < 65 }
    requires covered { amount ≤ numbers_of weights.old place }
    ensures { (p : ℕ) → p < 65
        → numbers_of weights.new p + (if nat_eq p place then amount else 0) ≡ numbers_of weights.old p }
{
    weights[place] -= amount;
}

// The share of a value that an amount has of the whole; 0 if the whole is 0.
fn share(value: u64, amount: u32, whole: u64) -> u64
    requires value_small { value ≤ 9 * 2 ^ 30 }
    requires amount_small { amount ≤ 2 ^ 20 }
    ensures { result ≡ value * amount / whole }
{
    (value * u64::from(amount)).checked_div(whole).unwrap_or(0)
}

fn worth(funding_ticket: &FundingTicket, values: &[u64; PLACES], weights: &[u32; PLACES]) -> u64
    requires within { IsFundingTicketWithin funding_ticket.now }
    requires small { (p : ℕ) → p < 65 → numbers_of values.now p ≤ 9 * 2 ^ 30 }
    ensures value { result ≡ funding_ticket_worth (numbers_of values.now) (numbers_of weights.now) funding_ticket.now }
    ensures bound { result ≤ 9 * 2 ^ 50 }
{
    if funding_ticket.from == 0 {
        return u64::from(funding_ticket.amount);
    }
    let from = funding_ticket.from as usize;
    share(
        values[from],
        funding_ticket.amount,
        u64::from(weights[from]),
    )
}

/// The worth of these funding tickets together.
pub(crate) fn weigh(
    funding_tickets: &[FundingTicket],
    values: &[u64; PLACES],
    weights: &[u32; PLACES],
) -> u64
    requires within { Each IsFundingTicketWithin funding_tickets.now }
    requires few { length funding_tickets.now ≤ 16 }
    requires small { (p : ℕ) → p < 65 → numbers_of values.now p ≤ 9 * 2 ^ 30 }
    ensures { result
        ≡ sum_by (funding_ticket_worth (numbers_of values.now) (numbers_of weights.now)) funding_tickets.now }
{
    let mut sum = 0;
    for funding_ticket in funding_tickets {
        sum += worth(funding_ticket, values, weights);
    }
    sum
}

/// Whether these funding tickets come from `base` alone.
pub(crate) fn are_of_base(funding_tickets: &[FundingTicket]) -> bool
    ensures { result ≡ list_all (λ s. nat_eq s.from 0) funding_tickets.now }
{
    funding_tickets
        .iter()
        .all(|funding_ticket| funding_ticket.from == 0)
}

/// Makes a flow active, and adds the amounts of its funding tickets to the weights.
pub(crate) fn wake(
    tables: &Tables,
    funding: &[FundingTickets],
    awake: &[bool; PLACES],
    place: usize,
    active: &mut [bool; PLACES],
    weights: &mut [u32; PLACES],
)
    requires ticketed { AreTicketed (funds_of tables.now) funding.now }
    requires place { place < 65 }
    requires idle { flags_of active.old place ≡ false }
    requires counted { AreCounted (backs_of tables.now) (funds_of tables.now) (flags_of awake.now)
        (flags_of active.old) (numbers_of weights.old) }
    ensures counted { AreCounted (backs_of tables.now) (funds_of tables.now) (flags_of awake.now)
        (flags_of active.new) (numbers_of weights.new) }
    ensures turned { (k : ℕ) → flags_of active.new k ≡ (if nat_eq place k then true else flags_of active.old k) }
    ensures raised { (p : ℕ) → p < 65
        → numbers_of weights.new p ≡ numbers_of weights.old p + amount_from (funding_tickets_at funding.now place) p }
{
    tables.is_well_formed();
    active[place] = true;
    add_all(funding_tickets_at(funding, place), weights);
}

/// Makes a flow idle, and takes the amounts of its funding tickets from the weights.
pub(crate) fn rest(
    tables: &Tables,
    funding: &[FundingTickets],
    awake: &[bool; PLACES],
    place: usize,
    active: &mut [bool; PLACES],
    weights: &mut [u32; PLACES],
)
    requires ticketed { AreTicketed (funds_of tables.now) funding.now }
    requires place { place < 65 }
    requires active { flags_of active.old place ≡ true }
    requires counted { AreCounted (backs_of tables.now) (funds_of tables.now) (flags_of awake.now)
        (flags_of active.old) (numbers_of weights.old) }
    ensures counted { AreCounted (backs_of tables.now) (funds_of tables.now) (flags_of awake.now)
        (flags_of active.new) (numbers_of weights.new) }
    ensures turned { (k : ℕ) → flags_of active.new k ≡ (if nat_eq place k then false else flags_of active.old k) }
    ensures lowered { (p : ℕ) → p < 65
        → numbers_of weights.new p + amount_from (funding_tickets_at funding.now place) p ≡ numbers_of weights.old p }
{
    tables.is_well_formed();
    active[place] = false;
    subtract_all(funding_tickets_at(funding, place), weights);
}

// Makes a currency wake or rest.
fn flip(
    tables: &Tables,
    backing: &[FundingTickets],
    active: &[bool; PLACES],
    place: usize,
    awake: &mut [bool; PLACES],
    weights: &mut [u32; PLACES],
)
    requires ticketed { AreTicketed (backs_of tables.now) backing.now }
    requires place { place < 65 }
    requires counted { AreCounted (backs_of tables.now) (funds_of tables.now) (flags_of awake.old)
        (flags_of active.now) (numbers_of weights.old) }
    ensures counted { AreCounted (backs_of tables.now) (funds_of tables.now) (flags_of awake.new)
        (flags_of active.now) (numbers_of weights.new) }
    ensures turned { (k : ℕ) → flags_of awake.new k
        ≡ (if nat_eq place k then not (flags_of awake.old place) else flags_of awake.old k) }
    ensures left { (k : ℕ) → k < 65 → amount_from (funding_tickets_at backing.now place) k ≡ 0
        → numbers_of weights.new k ≡ numbers_of weights.old k }
{
    tables.is_well_formed();
    let funding_tickets = funding_tickets_at(backing, place);
    if awake[place] {
        awake[place] = false;
        subtract_all(funding_tickets, weights);
        return;
    }
    awake[place] = true;
    add_all(funding_tickets, weights);
}

// Makes a currency wake or rest if it is awake without a weight, or has a weight and is not awake.
fn recompute_place(
    tables: &Tables,
    backing: &[FundingTickets],
    active: &[bool; PLACES],
    place: usize,
    awake: &mut [bool; PLACES],
    weights: &mut [u32; PLACES],
)
    requires ticketed { AreTicketed (backs_of tables.now) backing.now }
    requires place { place < 65 }
    requires counted { AreCounted (backs_of tables.now) (funds_of tables.now) (flags_of awake.old)
        (flags_of active.now) (numbers_of weights.old) }
    ensures counted { AreCounted (backs_of tables.now) (funds_of tables.now) (flags_of awake.new)
        (flags_of active.now) (numbers_of weights.new) }
    ensures computed { amount_from (funding_tickets_at backing.now place) place ≡ 0
        → flags_of awake.new place ≡ nat_lt 0 (numbers_of weights.new place) }
    ensures others { (k : ℕ) → nat_eq place k ≡ false → flags_of awake.new k ≡ flags_of awake.old k }
    ensures left { (k : ℕ) → k < 65 → amount_from (funding_tickets_at backing.now place) k ≡ 0
        → numbers_of weights.new k ≡ numbers_of weights.old k }
{
    if awake[place] != (weights[place] > 0) {
        flip(tables, backing, active, place, awake, weights);
    }
}

// Whether exactly the currencies with a weight are awake.
fn are_computed(awake: &[bool; PLACES], weights: &[u32; PLACES]) -> bool
    ensures { result ≡ true → AreAwake (flags_of awake.now) (numbers_of weights.now) }
{
    let mut computed = true;
    for place in 1..PLACES {
        computed &= awake[place] == (weights[place] > 0);
    }
    computed
}

/// Whether the weights of all places but that of `base` are as they were.
pub(crate) fn are_same(weights: &[u32; PLACES], seen: &[u32; PLACES]) -> bool
    ensures { result ≡ true → (p : ℕ) → 0 < p → p < 65 → numbers_of weights.now p ≡ numbers_of seen.now p }
{
    let mut same = true;
    for place in 1..PLACES {
        same &= weights[place] == seen[place];
    }
    same
}

/// Wakes and rests the currencies, from the greatest rank to the least.
pub(crate) fn spread(
    tables: &Tables,
    backing: &[FundingTickets],
    active: &[bool; PLACES],
    order: &[u8; PLACES],
    awake: &mut [bool; PLACES],
    weights: &mut [u32; PLACES],
)
    requires ticketed { AreTicketed (backs_of tables.now) backing.now }
    requires ordered { AreOrdered backing.now (numbers_of order.now) }
    requires counted { AreCounted (backs_of tables.now) (funds_of tables.now) (flags_of awake.old)
        (flags_of active.now) (numbers_of weights.old) }
    ensures counted { AreCounted (backs_of tables.now) (funds_of tables.now) (flags_of awake.new)
        (flags_of active.now) (numbers_of weights.new) }
    ensures awake { AreAwake (flags_of awake.new) (numbers_of weights.new) }
{
    if are_computed(awake, weights) {
        return;
    }
    for i in 0..64_usize {
        recompute_place(
            tables,
            backing,
            active,
            order[64 - i] as usize,
            awake,
            weights,
        );
    }
}

pub(crate) fn value_at(
    holders: &[FundingTickets],
    awake: &[bool; PLACES],
    weights: &[u32; PLACES],
    values: &[u64; PLACES],
    place: usize,
) -> u64
    requires within { (p : ℕ) → p < 65 → Each IsFundingTicketWithin (funding_tickets_at holders.now p) }
    requires places { length holders.now ≡ 65 }
    requires small { AreSmall (numbers_of values.now) }
    requires place { place < 65 }
    ensures { result ≡ worth_at holders.now (flags_of awake.now) (numbers_of values.now)
        (numbers_of weights.now) place }
{
    if !awake[place] {
        return 0;
    }
    weigh(funding_tickets_at(holders, place), values, weights)
}

/// Computes the values of the currencies, from the least rank to the greatest.
pub(crate) fn revalue(
    backing: &[FundingTickets],
    awake: &[bool; PLACES],
    weights: &[u32; PLACES],
    order: &[u8; PLACES],
    values: &mut [u64; PLACES],
)
    requires within { (p : ℕ) → p < 65 → Each IsFundingTicketWithin (funding_tickets_at backing.now p) }
    requires places { length backing.now ≡ 65 }
    requires ordered { AreOrdered backing.now (numbers_of order.now) }
    requires small { AreSmall (numbers_of values.old) }
    requires values { HaveValues backing.now (flags_of awake.now) (numbers_of weights.now) }
    ensures small { AreSmall (numbers_of values.new) }
    ensures valued { AreValued backing.now (flags_of awake.now)
        (numbers_of values.new) (numbers_of weights.now) }
{
    for i in 1..PLACES {
        let place = order[i] as usize;
        values[place] = value_at(backing, awake, weights, values, place);
    }
}

/// The tickets of a flow: what its funding tickets are worth, at most 2^20.
pub(crate) fn share_at(
    funding: &[FundingTickets],
    active: &[bool; PLACES],
    weights: &[u32; PLACES],
    values: &[u64; PLACES],
    place: usize,
) -> u32
    requires within { (p : ℕ) → p < 65 → Each IsFundingTicketWithin (funding_tickets_at funding.now p) }
    requires places { length funding.now ≡ 65 }
    requires small { AreSmall (numbers_of values.now) }
    requires place { place < 65 }
    ensures { result ≡ min (worth_at funding.now (flags_of active.now) (numbers_of values.now)
        (numbers_of weights.now) place) (2 ^ 20) }
{
    value_at(funding, active, weights, values, place).min(MAX_AMOUNT) as u32
}

/// Computes the tickets of all flows.
pub(crate) fn reshare(
    funding: &[FundingTickets],
    active: &[bool; PLACES],
    weights: &[u32; PLACES],
    values: &[u64; PLACES],
    tickets_of_all: &mut [u32; MAX_FLOWS],
)
    requires within { (p : ℕ) → p < 65 → Each IsFundingTicketWithin (funding_tickets_at funding.now p) }
    requires places { length funding.now ≡ 65 }
    requires small { AreSmall (numbers_of values.now) }
    ensures { AreShared funding.now (flags_of active.now) (numbers_of values.now)
        (numbers_of weights.now) (numbers_of tickets_of_all.new) }
{
    for place in 0..MAX_FLOWS {
        tickets_of_all[place] = share_at(funding, active, weights, values, place);
    }
}
