//! Ranks of the currencies: each is above those that its funding tickets come from. If eight ranks are enough for all
//! of them, no nine are in a chain.
ghost use Rattle.std.specs.Prelude.{◌≡◌, ◌+◌, ◌<◌, ◌≤◌, ◌&&◌, ◌||◌, ℕ, List, length, true, false, not, nat_eq, nat_lt};
ghost use Rattle.std.specs.Prelude.{None, IfSome};
ghost use Rattle.std.specs.List.{list_all};
ghost use Rattle.share_model.specs.lists.Each.{Each};
ghost use Rattle.share_ledger.specs.declared.funding_tickets.FundingTicket.{FundingTicket};
ghost use Rattle.share_ledger.specs.declared.ranks.Edge.{Edge};
ghost use Rattle.share_ledger.specs.Arrays.{numbers_of};
ghost use Rattle.share_ledger.specs.FundingTickets.{IsFundingTicketWithin, funding_tickets_at, AreTicketed, backs_of};
ghost use Rattle.share_ledger.specs.Ranks.{AreRanks, AreListed, AreLongest, AreRankedTo, is_tall};

use crate::funding_tickets::{FundingTicket, FundingTickets, funding_tickets_at};
use crate::tables::{PLACES, Tables};

/// One more than the greatest rank. It marks a place that has no rank yet.
const NO_RANK: u8 = 9;

/// One more funding ticket, of the currency at one place for that at another. One of `base` for itself counts
/// for nothing.
#[derive(Clone, Copy, Debug)]
pub(crate) struct Edge {
    pub(crate) from: usize,
    pub(crate) to: usize,
}

/// The ranks that were given so far, and the places that have one, rank by rank.
#[derive(Clone, Copy, Debug)]
pub(crate) struct Ranking {
    pub(crate) ranks: [u8; PLACES],
    pub(crate) order: [u8; PLACES],
    count: usize,
}

// Whether all funding tickets come from places of ranks below this one.
fn are_below(funding_tickets: &[FundingTicket], ranks: &[u8; PLACES], rank: u8) -> bool
    requires { Each IsFundingTicketWithin funding_tickets.now }
    ensures { result ≡ list_all (λ s. nat_lt (numbers_of ranks.now s.from) rank) funding_tickets.now }
{
    for funding_ticket in funding_tickets {
        if ranks[funding_ticket.from as usize] >= rank {
            return false;
        }
    }
    true
}

// Whether a place has no rank yet and can have this one, since its funding tickets come from lower ranks.
fn is_due(backing: &[FundingTickets], edge: Edge, ranking: &Ranking, rank: u8, place: usize) -> bool
    requires within { (p : ℕ) → p < 65 → Each IsFundingTicketWithin (funding_tickets_at backing.now p) }
    requires places { length backing.now ≡ 65 }
    requires from_place { edge.from < 65 }
    requires place { place < 65 }
    ensures { result ≡ (nat_eq (numbers_of ranking.now.ranks place) 9
        && (not (nat_eq place edge.to) || nat_lt (numbers_of ranking.now.ranks edge.from) rank)
        && list_all (λ s. nat_lt (numbers_of ranking.now.ranks s.from) rank) (funding_tickets_at backing.now place)) }
{
    ranking.ranks[place] == NO_RANK
        && (place != edge.to || ranking.ranks[edge.from] < rank)
        && are_below(funding_tickets_at(backing, place), &ranking.ranks, rank)
}

// Gives a place this rank and lists it, if it is due.
fn rank_place(backing: &[FundingTickets], edge: Edge, ranking: &mut Ranking, rank: u8, place: usize)
    requires within { (p : ℕ) → p < 65 → Each IsFundingTicketWithin (funding_tickets_at backing.now p) }
    requires places { length backing.now ≡ 65 }
    requires from_place { edge.from < 65 }
    requires first { 1 ≤ rank }
    requires last { rank ≤ 8 }
    requires made { 0 < place }
    requires place { place < 65 }
    requires ranked { AreRankedTo backing.now edge ranking.old rank place }
    ensures { AreRankedTo backing.now edge ranking.new rank (place + 1) }
{
    if !is_due(backing, edge, ranking, rank, place) {
        return;
    }
    ranking.ranks[place] = rank;
    ranking.order[ranking.count] = place as u8;
    ranking.count += 1;
}

// Gives this rank to all places that are due.
fn rank_places(backing: &[FundingTickets], edge: Edge, ranking: &mut Ranking, rank: u8)
    requires within { (p : ℕ) → p < 65 → Each IsFundingTicketWithin (funding_tickets_at backing.now p) }
    requires places { length backing.now ≡ 65 }
    requires from_place { edge.from < 65 }
    requires first { 1 ≤ rank }
    requires last { rank ≤ 8 }
    requires ranked { AreRankedTo backing.now edge ranking.old rank 1 }
    ensures { AreRankedTo backing.now edge ranking.new rank 65 }
{
    for place in 1..PLACES {
        rank_place(backing, edge, ranking, rank, place);
    }
}

// The ranking before the first rank is given: only `base` is listed.
fn begin() -> Ranking
    ensures ranked { (ss : List (List FundingTicket)) (edge : Edge) → edge.to < 65 → AreRankedTo ss edge result 1 1 }
    ensures one { result.count ≡ 1 }
{
    let mut ranks = [NO_RANK; PLACES];
    ranks[0] = 0;
    Ranking {
        ranks,
        order: [0; PLACES],
        count: 1,
    }
}

/// The ranks of all places, if a ticket also funds along the edge, and the places rank by rank. A rank is the length of
/// the longest chain of currencies that ends at the place. `None` if nine would be in a chain.
pub(crate) fn list(backing: &[FundingTickets], edge: Edge) -> Option<Ranking>
    requires within { (p : ℕ) → p < 65 → Each IsFundingTicketWithin (funding_tickets_at backing.now p) }
    requires places { length backing.now ≡ 65 }
    requires from_place { edge.from < 65 }
    requires to_place { edge.to < 65 }
    ensures ranked { IfSome result (λ ranking. AreRanks backing.now (numbers_of ranking.ranks)) }
    ensures longest { IfSome result (λ ranking. AreLongest backing.now edge.from edge.to (numbers_of ranking.ranks)) }
    ensures more { IfSome result (λ ranking. 0 < edge.to
        → numbers_of ranking.ranks edge.from < numbers_of ranking.ranks edge.to) }
    ensures listed { IfSome result (λ ranking. AreListed (numbers_of ranking.ranks) (numbers_of ranking.order)) }
    ensures deep { result ≡ None
        → (p : ℕ) × ((0 < p) × ((p < 65) × (is_tall backing.now edge.from edge.to 8 p ≡ true))) }
{
    let mut ranking = begin();
    for rank in 1..NO_RANK {
        rank_places(backing, edge, &mut ranking, rank);
        if ranking.count == PLACES {
            return Some(ranking);
        }
    }
    None
}

/// The ranks of all currencies of a graph, and the places rank by rank.
pub(crate) fn list_all(
    tables: &Tables,
    backing: &[FundingTickets],
    ranks: &mut [u8; PLACES],
    order: &mut [u8; PLACES],
)
    requires { AreTicketed (backs_of tables.now) backing.now }
    ensures ranked { AreRanks backing.now (numbers_of ranks.new) }
    ensures listed { AreListed (numbers_of ranks.new) (numbers_of order.new) }
{
    tables.is_well_formed();
    let Some(ranking) = list(backing, Edge { from: 0, to: 0 }) else {
        unreachable!();
    };
    let given = ranking.ranks;
    let listed = ranking.order;
    *ranks = given;
    *order = listed;
}

/// The same, after a funding ticket was added. If it comes from a lower rank, the ranks stay as they are.
pub(crate) fn renew(
    tables: &Tables,
    backing: &[FundingTickets],
    edge: Edge,
    ranks: &mut [u8; PLACES],
    order: &mut [u8; PLACES],
)
    requires ticketed { AreTicketed (backs_of tables.now) backing.now }
    requires from_place { edge.from < 65 }
    requires to_place { edge.to < 65 }
    requires ranked { numbers_of ranks.old edge.from < numbers_of ranks.old edge.to
        → AreRanks backing.now (numbers_of ranks.old) }
    requires listed { AreListed (numbers_of ranks.old) (numbers_of order.old) }
    ensures ranked { AreRanks backing.now (numbers_of ranks.new) }
    ensures listed { AreListed (numbers_of ranks.new) (numbers_of order.new) }
{
    if ranks[edge.from] < ranks[edge.to] {
        return;
    }
    list_all(tables, backing, ranks, order);
}
