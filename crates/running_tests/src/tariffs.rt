//! Tariffs without boxes. Threads share a link, so its shelf must be one that may cross to another thread. The
//! toolchain does not show that of boxed closures in a type of another crate.
ghost use Rattle.std.specs.Prelude.{◌≡◌, ◌≤◌, true, IfSome};
ghost use Rattle.share_model.specs.link.Tariff.{rate_at, is_rate};
ghost use Rattle.running_tests.specs.Tariffs.{byte_rates};

use share_model::{Rate, Rates};
use share_tariff::{account_after, units_by_division};

/// One tariff, by the byte.
#[derive(Clone, Copy)]
pub struct ByByte;

// The tariff of this number.
fn tariff(number: u64) -> Option<Rate>
    ensures rate { result ≡ rate_at byte_rates number }
    ensures range { IfSome result (λ r. (is_rate r.cell r.overhead r.price ≡ true) × (r.price ≤ 65535)) }
{
    match number {
        1 => Some(Rate {
            cell: 1,
            overhead: 0,
            price: 1,
        }),
        _ => None,
    }
}

impl Rates for ByByte {
    ghost use Rattle.running_tests.specs.Tariffs.{are_in_range, byte_rates};

    ghost rates = { λ _. byte_rates };

    ghost in_range = { λ _. are_in_range };

    fn has(&self, number: u64) -> bool {
        tariff(number).is_some()
    }

    fn units(&self, number: u64, count: u32) -> u64 {
        match tariff(number) {
            None => unreachable!(),
            Some(rate) => units_by_division(rate.cell, rate.overhead, count),
        }
    }

    fn post(&self, number: u64, account: u64, units: u64) -> u64 {
        match tariff(number) {
            None => unreachable!(),
            Some(rate) => account_after(rate.price, account, units),
        }
    }
}
