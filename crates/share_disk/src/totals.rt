//! The totals of a book's engine, as its row has them.
ghost use Rattle.std.specs.Prelude.{◌≡◌};
ghost use Rattle.share_model.specs.link.Totals.{totals};

use share_catalog::Totals;
use share_core::{Engine, MAX_FLOWS};
use share_model::Rates;

/// The figures of a book's events: the frames that were written whole, their bytes, the clock, and the sum of the
/// accounts.
pub fn book_totals<W, S: Rates>(engine: &Engine<W, S>) -> Totals
    ensures events { result.events ≡ engine.now.live.counts.events }
    ensures packets { result.packets ≡ (totals engine.now.live).written }
    ensures bytes { result.bytes ≡ (totals engine.now.live).bytes }
    ensures units { result.units ≡ (totals engine.now.live).clock }
{
    let totals = engine.totals();
    Totals {
        events: engine.events(),
        packets: totals.written,
        bytes: totals.bytes,
        units: totals.clock,
        amount: totals.past.saturating_add(open_accounts(engine)),
    }
}

// The sum of the accounts of the open flows.
fn open_accounts<W, S: Rates>(engine: &Engine<W, S>) -> u64 {
    let mut amount: u64 = 0;
    for place in 0..MAX_FLOWS as u32 {
        amount = amount.saturating_add(account_at(engine, place));
    }
    amount
}

// The account of the open flow at a place, and 0 if there is none.
fn account_at<W, S: Rates>(engine: &Engine<W, S>, place: u32) -> u64 {
    match engine.row(place) {
        None => 0,
        Some(row) => engine.account(row.flow).unwrap_or(0),
    }
}
