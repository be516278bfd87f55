//! Levelling: each open flow competes with as many tickets as it has.
ghost use Rattle.std.specs.Prelude.{◌≡◌, ◌<◌, ◌≤◌, ◌+◌, ◌^◌, true, length, set, slice_get, None, IsSome, IfSome};
ghost use Rattle.share_model.specs.funding.Changes.{set_active};
ghost use Rattle.std.specs.FinMap.{get};
ghost use Rattle.share_model.specs.link.Live.{tickets_of_all};
ghost use Rattle.share_model.specs.stride.Level.{level_one, level_all, CanLevel, IsLevel};
ghost use Rattle.share_core.specs.Found.{IfFound};
ghost use Rattle.share_core.specs.Levels.{AreTicketsOf, AreLevelAt, AreSameFrom};

use crate::MAX_FLOWS;
use share_base::FlowNo;
use share_ledger::Ledger;
use share_stride::Queue;

/// Levels the clients of the open flows, in order of opening: each takes the one move that its flow's tickets require,
/// or none. `levelled_with` has the tickets with which each was levelled last, so only flows whose tickets changed are
/// looked up. It takes no memory.
pub fn level(queue: &mut Queue, ledger: &Ledger, levelled_with: &mut [u32; MAX_FLOWS])
    requires can { CanLevel queue.old (tickets_of_all ledger.now) }
    requires levelled_with { AreLevelAt queue.old (tickets_of_all ledger.now) levelled_with.old }
    ensures queue { queue.new ≡ level_all queue.old (tickets_of_all ledger.now) }
    ensures levelled_with { AreTicketsOf levelled_with.new ledger.now }
{
    ledger.is_well_formed();
    let mut place = 0;
    while let Some(changed) = next_changed(levelled_with, ledger.ticket_counts(), place) {
        level_at(queue, ledger, levelled_with, changed);
        place = changed + 1;
    }
}

/// Levels the clients of the open flows, whatever they were levelled with. It takes no memory.
pub fn level_from_scratch(queue: &mut Queue, ledger: &Ledger, levelled_with: &mut [u32; MAX_FLOWS])
    requires { CanLevel queue.old (tickets_of_all ledger.now) }
    ensures queue { queue.new ≡ level_all queue.old (tickets_of_all ledger.now) }
    ensures levelled_with { AreTicketsOf levelled_with.new ledger.now }
{
    ledger.is_well_formed();
    for place in 0..ledger.flow_count() {
        level_at(queue, ledger, levelled_with, place);
    }
}

/// Makes a flow active or idle, and levels the clients of all. It takes no memory.
pub fn set_active(
    queue: &mut Queue,
    ledger: &mut Ledger,
    levelled_with: &mut [u32; MAX_FLOWS],
    flow: FlowNo,
    active: bool,
)
    requires level { IsLevel queue.old (tickets_of_all ledger.old) }
    requires levelled_with { AreTicketsOf levelled_with.old ledger.old }
    requires can { CanLevel queue.old (tickets_of_all (set_active ledger.old flow active)) }
    ensures ledger { ledger.new ≡ set_active ledger.old flow active }
    ensures queue { queue.new ≡ level_all queue.old (tickets_of_all ledger.new) }
    ensures levelled_with { AreTicketsOf levelled_with.new ledger.new }
{
    ledger.set_active(flow, active);
    level(queue, ledger, levelled_with);
}

/// The number of places compared at once.
const STEP: usize = 16;

// Whether no tickets of a stretch changed. All of them are compared, without a branch for each.
fn are_same(levelled_with: &[u32; MAX_FLOWS], tickets: &[u32], place: usize) -> bool
    requires inside { place + STEP ≤ length tickets.now }
    requires few { length tickets.now ≤ MAX_FLOWS }
    ensures { result ≡ true → AreSameFrom levelled_with.now tickets.now place (place + STEP) }
{
    let mut same = true;
    for i in 0..STEP {
        same &= levelled_with[place + i] == tickets[place + i];
    }
    same
}

// The first place, from one on, whose tickets changed. A whole stretch is passed at once if none did.
fn next_changed(levelled_with: &[u32; MAX_FLOWS], tickets: &[u32], from: usize) -> Option<usize>
    requires { length tickets.now ≤ MAX_FLOWS }
    ensures some { IfSome result (λ changed. (from ≤ changed) × (changed < length tickets.now)
        × AreSameFrom levelled_with.now tickets.now from changed) }
    ensures none { result ≡ None → AreSameFrom levelled_with.now tickets.now from (length tickets.now) }
{
    let mut place = from;
    while place < tickets.len() {
        let whole = place % STEP == 0 && tickets.len() - place >= STEP;
        if whole && are_same(levelled_with, tickets, place) {
            place += STEP;
        } else if levelled_with[place] == tickets[place] {
            place += 1;
        } else {
            return Some(place);
        }
    }
    None
}

// Levels the client of the open flow at a place.
fn level_at(queue: &mut Queue, ledger: &Ledger, levelled_with: &mut [u32; MAX_FLOWS], place: usize)
    requires place { place < length ledger.now.flows }
    requires few { length ledger.now.flows ≤ MAX_FLOWS }
    requires can { IfFound (slice_get (tickets_of_all ledger.now) place)
        (λ want. IsSome (get queue.old.clients want.0) × (want.1 ≤ 2 ^ 20)) }
    ensures queue { IfFound (slice_get (tickets_of_all ledger.now) place)
        (λ want. queue.new ≡ level_one queue.old want.0 want.1) }
    ensures levelled_with { IfFound (slice_get (tickets_of_all ledger.now) place)
        (λ want. levelled_with.new ≡ set levelled_with.old place want.1) }
{
    let tickets = ledger.tickets_at(place);
    levelled_with[place] = tickets;
    match ledger.flow_at(place) {
        None => unreachable!(),
        Some((_, flow)) => queue.level(flow.number, tickets),
    }
}
