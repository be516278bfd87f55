//! The place of a ticket among the tickets, by its number.
ghost use Rattle.std.specs.Prelude.{◌≡◌, ◌-◌, MatchOption, IsTrue, None, Some, IfOk, IfErr};
ghost use Rattle.std.specs.Prelude.{position, length, slice_get};
ghost use Rattle.share_model.specs.funding.Changes.{is_numbered};
ghost use Rattle.share_ledger.specs.Numbers.{AreRising};

use share_model::Ticket;

/// The place of the ticket of a number, if it is there. Two places are tried before a search by halves: as far past the
/// first ticket as its number is, and as far before the last.
pub(crate) fn place_of(tickets: &[Ticket], number: u64) -> Option<usize>
    requires { AreRising tickets.now }
    ensures { result ≡ position (is_numbered number) tickets.now }
{
    let place = past_first(tickets, number);
    if stands_at(tickets, number, place) {
        return Some(place);
    }
    let place = before_last(tickets, number);
    if stands_at(tickets, number, place) {
        return Some(place);
    }
    match by_halves(tickets, number) {
        Ok(place) => Some(place),
        Err(_) => None,
    }
}

// Whether the ticket of a number is at a place.
fn stands_at(tickets: &[Ticket], number: u64, place: usize) -> bool
    requires { AreRising tickets.now }
    ensures { IsTrue result → position (is_numbered number) tickets.now ≡ Some place }
{
    place < tickets.len() && number == u64::from(tickets[place].number.number())
}

fn past_first(tickets: &[Ticket], number: u64) -> usize
    ensures { MatchOption (slice_get tickets.now 0) (result ≡ 0) (λ first. result ≡ number - first.number) }
{
    match tickets.first() {
        None => 0,
        Some(first) => number.saturating_sub(u64::from(first.number.number())) as usize,
    }
}

fn before_last(tickets: &[Ticket], number: u64) -> usize
    ensures { MatchOption (slice_get tickets.now (length tickets.now - 1)) (result ≡ 0)
        (λ last. result ≡ length tickets.now - 1 - (last.number - number)) }
{
    match tickets.last() {
        None => 0,
        Some(last) => {
            let before = u64::from(last.number.number()).saturating_sub(number) as usize;
            (tickets.len() - 1).saturating_sub(before)
        }
    }
}

fn by_halves(tickets: &[Ticket], number: u64) -> Result<usize, usize>
    requires { AreRising tickets.now }
    ensures found { IfOk result (λ place. position (is_numbered number) tickets.now ≡ Some place) }
    ensures absent { IfErr result (λ _. position (is_numbered number) tickets.now ≡ None) }
{
    tickets.binary_search_by_key(&number, |ticket| u64::from(ticket.number.number()))
}
