//! The tariffs of a served link, without boxes. Threads share such a link, so its shelf must be one that may cross to
//! another thread. The toolchain does not show that of boxed closures in a type of another crate.
ghost use Rattle.std.specs.Prelude.{◌≡◌, ◌≤◌, true, IfSome};
ghost use Rattle.share_model.specs.link.Tariff.{rate_at, is_rate};
ghost use Rattle.share_asked.specs.Rates.{program_rates};

use share_model::{Rate, Rates};
use share_tariff::{account_after, units_by_division};

/// The program's tariffs, by the plain rule.
#[derive(Clone, Copy, Debug, Drop)]
pub struct PlainTariffs;

// The tariff of this number.
fn tariff(number: u64) -> Option<Rate>
    ensures rate { result ≡ rate_at program_rates number }
    ensures range { IfSome result (λ r. (is_rate r.cell r.overhead r.price ≡ true) × (r.price ≤ 65535)) }
{
    let (cell, overhead, price) = match number {
        1 => (1, 0, 1),
        2 => (48, 16, 2),
        3 => (1024, 0, 1),
        4 => (2048, 1024, 3),
        _ => return None,
    };
    Some(Rate {
        cell,
        overhead,
        price,
    })
}

impl Rates for PlainTariffs {
    ghost use Rattle.share_asked.specs.Rates.{program_rates};
    ghost use Rattle.share_asked.specs.Tariffs.{are_in_range};

    ghost rates = { λ _. program_rates };

    ghost in_range = { λ _. are_in_range };

    fn has(&self, number: u64) -> bool {
        tariff(number).is_some()
    }

    fn units(&self, number: u64, count: u32) -> u64 {
        match tariff(number) {
            None => unreachable!(),
            Some(rate) => units_by_division(rate.cell, rate.overhead, count),
        }
    }

    fn post(&self, number: u64, account: u64, units: u64) -> u64 {
        match tariff(number) {
            None => unreachable!(),
            Some(rate) => account_after(rate.price, account, units),
        }
    }
}
