//! Values that follow from a few changed weights: only the values and the tickets that rest on them are computed again.
ghost use Rattle.std.specs.Prelude.{◌≡◌, ◌<◌, ◌≤◌, ◌+◌, ◌^◌, ◌&&◌, ◌||◌, ℕ, Bool, None, length, min, nat_eq, not};
ghost use Rattle.std.specs.Prelude.{◌*◌, IfSome, if◌then◌else◌, true, false};
ghost use Rattle.std.specs.List.{list_any};
ghost use Rattle.share_model.specs.lists.Each.{Each};
ghost use Rattle.share_ledger.specs.Arrays.{flags_of, numbers_of};
ghost use Rattle.share_ledger.specs.Ranks.{AreOrdered};
ghost use Rattle.share_ledger.specs.FundingTickets.{IsFundingTicketWithin, funding_tickets_at, worth_at, AreSmall};
ghost use Rattle.share_ledger.specs.FundingTickets.{AreAwake, AreValued, HaveValues};
ghost use Rattle.share_ledger.specs.Stale.{is_stale, is_touched, WereValued, HaveBits, AreMoved};
ghost use Rattle.share_ledger.specs.Stale.{AreUntouched};

use crate::funding_tickets::{FundingTickets, bit_of, come_from};
use crate::tables::{MAX_FLOWS, PLACES};
use crate::valuation;

/// The places whose value or weight has changed: a flag for each, and the bits of those that are flagged.
#[derive(Clone, Copy, Debug)]
pub(crate) struct Moved {
    flags: [bool; PLACES],
    bits: u64,
}

// No place has moved.
fn none_moved() -> Moved
    ensures { HaveBits result }
{
    Moved {
        flags: [false; PLACES],
        bits: 0,
    }
}

// Flags a place if it moved.
fn flag(moved: &mut Moved, place: usize, flagged: bool)
    requires place { place < 65 }
    requires bits { HaveBits moved.old }
    ensures bits { HaveBits moved.new }
    ensures flags { (k : ℕ) → flags_of moved.new.flags k
        ≡ (if nat_eq place k then flagged else flags_of moved.old.flags k) }
{
    moved.flags[place] = flagged;
    if flagged {
        moved.bits |= bit_of(place);
    }
}

// Whether a funding ticket of a holder comes from a flagged place. Mostly none does, and then mostly no bit is the
// same.
fn touches(holder: &FundingTickets, moved: &Moved) -> bool
    requires within { Each IsFundingTicketWithin holder.now }
    requires bits { HaveBits moved.now }
    ensures { result ≡ list_any (λ s. flags_of moved.now.flags s.from) holder.now }
{
    holder.sources() & moved.bits != 0 && come_from(holder.funding_tickets(), &moved.flags)
}

// Whether the value of a currency may have changed: its funding tickets or its weight did, or what a funding ticket is
// worth.
fn is_stale(
    backing: &[FundingTickets],
    weights: &[u32; PLACES],
    seen: &[u32; PLACES],
    moved: &Moved,
    changed: usize,
    place: usize,
) -> bool
    requires within { (p : ℕ) → p < 65 → Each IsFundingTicketWithin (funding_tickets_at backing.now p) }
    requires bits { HaveBits moved.now }
    requires places { length backing.now ≡ 65 }
    requires place { place < 65 }
    ensures { result ≡ is_stale backing.now (flags_of moved.now.flags) (numbers_of weights.now)
        (numbers_of seen.now) changed place }
{
    let holder = &backing[place];
    changed == place || weights[place] != seen[place] || touches(holder, moved)
}

// Computes the value of a currency, and flags its place if value or weight has changed.
fn revalue_at(
    backing: &[FundingTickets],
    awake: &[bool; PLACES],
    weights: &[u32; PLACES],
    seen: &[u32; PLACES],
    place: usize,
    moved: &mut Moved,
    values: &mut [u64; PLACES],
)
    requires within { (p : ℕ) → p < 65 → Each IsFundingTicketWithin (funding_tickets_at backing.now p) }
    requires places { length backing.now ≡ 65 }
    requires place { place < 65 }
    requires small { AreSmall (numbers_of values.old) }
    requires bound { worth_at backing.now (flags_of awake.now) (numbers_of values.old) (numbers_of weights.now) place
        ≤ 9 * 2 ^ 30 }
    requires bits { HaveBits moved.old }
    ensures small { AreSmall (numbers_of values.new) }
    ensures bits { HaveBits moved.new }
    ensures values { (k : ℕ) → numbers_of values.new k
        ≡ (if nat_eq place k then worth_at backing.now (flags_of awake.now) (numbers_of values.old)
        (numbers_of weights.now) place else numbers_of values.old k) }
    ensures moved { (k : ℕ) → flags_of moved.new.flags k
        ≡ (if nat_eq place k then not (nat_eq (numbers_of weights.now place) (numbers_of seen.now place))
        || not (nat_eq (numbers_of values.new place) (numbers_of values.old place)) else flags_of moved.old.flags k) }
{
    let value = valuation::value_at(backing, awake, weights, values, place);
    flag(
        moved,
        place,
        weights[place] != seen[place] || value != values[place],
    );
    values[place] = value;
}

// The same, only if the value may have changed.
fn renew_at(
    backing: &[FundingTickets],
    awake: &[bool; PLACES],
    weights: &[u32; PLACES],
    seen: &[u32; PLACES],
    changed: usize,
    place: usize,
    moved: &mut Moved,
    values: &mut [u64; PLACES],
)
    requires within { (p : ℕ) → p < 65 → Each IsFundingTicketWithin (funding_tickets_at backing.now p) }
    requires places { length backing.now ≡ 65 }
    requires place { place < 65 }
    requires small { AreSmall (numbers_of values.old) }
    requires bound { worth_at backing.now (flags_of awake.now) (numbers_of values.old) (numbers_of weights.now) place
        ≤ 9 * 2 ^ 30 }
    requires bits { HaveBits moved.old }
    ensures small { AreSmall (numbers_of values.new) }
    ensures bits { HaveBits moved.new }
    ensures fresh { is_stale backing.now (flags_of moved.old.flags) (numbers_of weights.now) (numbers_of seen.now)
        changed place ≡ false → (moved.new ≡ moved.old) × (values.new ≡ values.old) }
    ensures values { is_stale backing.now (flags_of moved.old.flags) (numbers_of weights.now)
        (numbers_of seen.now) changed place ≡ true → (k : ℕ) → numbers_of values.new k
        ≡ (if nat_eq place k then worth_at backing.now (flags_of awake.now) (numbers_of values.old)
        (numbers_of weights.now) place else numbers_of values.old k) }
    ensures moved { is_stale backing.now (flags_of moved.old.flags) (numbers_of weights.now)
        (numbers_of seen.now) changed place ≡ true → (k : ℕ) → flags_of moved.new.flags k
        ≡ (if nat_eq place k then not (nat_eq (numbers_of weights.now place) (numbers_of seen.now place))
        || not (nat_eq (numbers_of values.new place) (numbers_of values.old place)) else flags_of moved.old.flags k) }
{
    if !is_stale(backing, weights, seen, moved, changed, place) {
        return;
    }
    revalue_at(backing, awake, weights, seen, place, moved, values);
}

/// Computes the values that may have changed, from the least rank to the greatest, and flags the places whose value or
/// weight has changed.
pub(crate) fn revalue(
    backing: &[FundingTickets],
    awake: &[bool; PLACES],
    weights: &[u32; PLACES],
    seen: &[u32; PLACES],
    order: &[u8; PLACES],
    changed: usize,
    values: &mut [u64; PLACES],
) -> Moved
    requires within { (p : ℕ) → p < 65 → Each IsFundingTicketWithin (funding_tickets_at backing.now p) }
    requires places { length backing.now ≡ 65 }
    requires ordered { AreOrdered backing.now (numbers_of order.now) }
    requires small { AreSmall (numbers_of values.old) }
    requires values { HaveValues backing.now (flags_of awake.now) (numbers_of weights.now) }
    requires awake { AreAwake (flags_of awake.now) (numbers_of weights.now) }
    requires were { WereValued backing.now (numbers_of values.old) (numbers_of seen.now) changed }
    ensures small { AreSmall (numbers_of values.new) }
    ensures valued { AreValued backing.now (flags_of awake.now) (numbers_of values.new) (numbers_of weights.now) }
    ensures bits { HaveBits result }
    ensures moved { AreMoved (flags_of result.flags) (numbers_of values.old) (numbers_of values.new)
        (numbers_of seen.now) (numbers_of weights.now) }
{
    let mut moved = none_moved();
    for i in 1..PLACES {
        let place = order[i] as usize;
        renew_at(
            backing, awake, weights, seen, changed, place, &mut moved, values,
        );
    }
    moved
}

/// The number of places looked at together.
const STEP: usize = 8;

// Whether no flow of a stretch of places has a funding ticket from a flagged place, or is the flow that changed.
fn are_untouched(funding: &[FundingTickets], moved: &Moved, changed: usize, from: usize) -> bool
    requires within { (p : ℕ) → p < 65 → Each IsFundingTicketWithin (funding_tickets_at funding.now p) }
    requires bits { HaveBits moved.now }
    requires places { length funding.now ≡ 65 }
    requires stretch { from + 8 ≤ 64 }
    ensures { (active : ℕ → Bool) → result ≡ true
        → AreUntouched funding.now active (flags_of moved.now.flags) changed from (from + 8) }
{
    let mut sources = 0;
    for i in 0..STEP {
        let holder = &funding[from + i];
        sources |= holder.sources();
    }
    sources & moved.bits == 0 && (changed < from || from + STEP <= changed)
}

// The first flow from a place on whose tickets may have changed. Stretches without one are passed as a whole.
fn next_touched(
    funding: &[FundingTickets],
    active: &[bool; PLACES],
    moved: &Moved,
    changed: usize,
    from: usize,
) -> Option<usize>
    requires within { (p : ℕ) → p < 65 → Each IsFundingTicketWithin (funding_tickets_at funding.now p) }
    requires bits { HaveBits moved.now }
    requires places { length funding.now ≡ 65 }
    ensures some { IfSome result (λ touched. (from ≤ touched) × (touched < 64)
        × AreUntouched funding.now (flags_of active.now) (flags_of moved.now.flags) changed from touched
        × (is_touched funding.now (flags_of active.now) (flags_of moved.now.flags) changed touched ≡ true)) }
    ensures none { result ≡ None
        → AreUntouched funding.now (flags_of active.now) (flags_of moved.now.flags) changed from 64 }
{
    let mut place = from;
    while place < MAX_FLOWS {
        let holder = &funding[place];
        if place % STEP == 0 && are_untouched(funding, moved, changed, place) {
            place += STEP;
        } else if changed == place || active[place] && touches(holder, moved) {
            return Some(place);
        } else {
            place += 1;
        }
    }
    None
}

/// Computes the tickets of the flow at a place, and of the active flows with a funding ticket from a flagged place.
pub(crate) fn reshare(
    funding: &[FundingTickets],
    active: &[bool; PLACES],
    weights: &[u32; PLACES],
    values: &[u64; PLACES],
    moved: &Moved,
    changed: usize,
    tickets_of_all: &mut [u32; MAX_FLOWS],
)
    requires within { (p : ℕ) → p < 65 → Each IsFundingTicketWithin (funding_tickets_at funding.now p) }
    requires places { length funding.now ≡ 65 }
    requires small { AreSmall (numbers_of values.now) }
    requires bits { HaveBits moved.now }
    ensures { (p : ℕ) → p < 64 → numbers_of tickets_of_all.new p
        ≡ (if nat_eq changed p || (flags_of active.now p
        && list_any (λ s. flags_of moved.now.flags s.from) (funding_tickets_at funding.now p))
        then min (worth_at funding.now (flags_of active.now) (numbers_of values.now) (numbers_of weights.now) p)
        (2 ^ 20)
        else numbers_of tickets_of_all.old p) }
{
    let mut place = 0;
    while let Some(stale) = next_touched(funding, active, moved, changed, place) {
        tickets_of_all[stale] = valuation::share_at(funding, active, weights, values, stale);
        place = stale + 1;
    }
}
