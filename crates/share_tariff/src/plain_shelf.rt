//! A shelf of tariffs by the plain rule, without boxes: it may cross to another thread.
ghost use Rattle.std.specs.Prelude.{◌≡◌, ◌≤◌, IfOk, IfErr, IfSome, true, false};
ghost use Rattle.share_base.specs.declared.refusal.Refusal.TheVariants.{Range};
ghost use Rattle.share_model.specs.link.Tariff.{is_rate, rate_at};
ghost use Rattle.std.specs.List.{list_all};
ghost use Rattle.share_tariff.specs.PlainRates.{is_plain_rate, are_plain_rates};
ghost use Rattle.share_tariff.specs.ShelfLength.{is_shelf_length};

use crate::plain::{account_after, units_by_division};
use crate::shelf::MAX_TARIFFS;
use crate::tariff::{MAX_CELL, MAX_OVERHEAD, MAX_PRICE};
use share_base::Refusal;
use share_model::{Rate, Rates};

/// One to eight tariffs, numbered from 1. A contract sees the numbers of each, in this order.
#[derive(Debug, Drop)]
pub struct PlainShelf {
    rates: Vec<Rate>,
    ghost in_range: { are_plain_rates rates.items ≡ true },
}

impl PlainShelf {
    ghost use Rattle.share_tariff.specs.PlainShelf.{plain_rates_of};

    /// The shelf of these tariffs. `Range` if there are not 1 to 8 of them, or one is out of its range. A cell is 1 to
    /// 2048, an overhead 0 to 1024, a price 0 to 65535. It takes no memory; what is refused is dropped.
    pub fn new(rates: Vec<Rate>) -> Result<PlainShelf, Refusal>
        ensures ok { IfOk result (λ s.
            (plain_rates_of s ≡ rates.items) × (are_plain_rates rates.items ≡ true)) }
        ensures refused { IfErr result (λ e. (e ≡ Range) × (are_plain_rates rates.items ≡ false)) }
    {
        if are_plain_rates(rates.as_slice()) {
            Ok(PlainShelf { rates })
        } else {
            Err(Refusal::Range)
        }
    }

    // The tariff of a number.
    fn get(&self, number: u64) -> Option<Rate>
        ensures rate { result ≡ rate_at (plain_rates_of self.now) number }
        ensures range { IfSome result (λ r. (is_rate r.cell r.overhead r.price ≡ true) × (r.price ≤ 65535)) }
    {
        if number < 1 || number > self.rates.len() as u64 {
            return None;
        }
        Some(self.rates[(number - 1) as usize])
    }
}

impl Rates for PlainShelf {
    ghost use Rattle.share_tariff.specs.PlainShelf.{plain_rates_of, plain_rates_in_range};

    ghost rates = { plain_rates_of };

    ghost in_range = { plain_rates_in_range };

    fn has(&self, number: u64) -> bool {
        self.get(number).is_some()
    }

    fn units(&self, number: u64, count: u32) -> u64 {
        match self.get(number) {
            None => unreachable!(),
            Some(rate) => units_by_division(rate.cell, rate.overhead, count),
        }
    }

    fn post(&self, number: u64, account: u64, units: u64) -> u64 {
        match self.get(number) {
            None => unreachable!(),
            Some(rate) => account_after(rate.price, account, units),
        }
    }
}

// Whether there are 1 to 8 tariffs, each in its range.
fn are_plain_rates(rates: &[Rate]) -> bool
    ensures { result ≡ are_plain_rates rates.now }
{
    is_shelf_length(rates.len()) && are_in_range(rates)
}

fn is_shelf_length(count: usize) -> bool
    ensures { result ≡ is_shelf_length count }
{
    1 <= count && count <= MAX_TARIFFS
}

fn are_in_range(rates: &[Rate]) -> bool
    ensures { result ≡ list_all is_plain_rate rates.now }
{
    rates.iter().all(|rate| is_plain_rate(rate))
}

fn is_plain_rate(rate: &Rate) -> bool
    ensures { result ≡ is_plain_rate rate.now }
{
    1 <= rate.cell
        && rate.cell <= MAX_CELL
        && rate.overhead <= MAX_OVERHEAD
        && rate.price <= MAX_PRICE
}
