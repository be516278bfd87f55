//! Tariffs without boxes, which are dear to prove.
ghost use Rattle.std.specs.Prelude.{◌≡◌, ◌≤◌, true, IfSome};
ghost use Rattle.share_model.specs.link.Tariff.{rate_at, is_rate};
ghost use Rattle.gateway_tests.specs.Tariffs.{four_rates};

use share_model::{Rate, Rates};
use share_tariff::{account_after, units_by_division};

/// Four tariffs: by the byte, and by cells of 48, of 1024 and of 2048.
#[derive(Clone, Copy, Drop)]
pub struct Four;

// The tariff of this number.
fn tariff(number: u64) -> Option<Rate>
    ensures rate { result ≡ rate_at four_rates number }
    ensures range { IfSome result (λ r. (is_rate r.cell r.overhead r.price ≡ true) × (r.price ≤ 65535)) }
{
    let (cell, overhead, price) = match number {
        1 => (1, 0, 1),
        2 => (48, 16, 2),
        3 => (1024, 0, 1),
        4 => (2048, 1024, 3),
        _ => return None,
    };
    Some(Rate {
        cell,
        overhead,
        price,
    })
}

impl Rates for Four {
    ghost use Rattle.gateway_tests.specs.Tariffs.{are_in_range, four_rates};

    ghost rates = { λ _. four_rates };

    ghost in_range = { λ _. are_in_range };

    fn has(&self, number: u64) -> bool {
        tariff(number).is_some()
    }

    fn units(&self, number: u64, count: u32) -> u64 {
        match tariff(number) {
            None => unreachable!(),
            Some(rate) => units_by_division(rate.cell, rate.overhead, count),
        }
    }

    fn post(&self, number: u64, account: u64, units: u64) -> u64 {
        match tariff(number) {
            None => unreachable!(),
            Some(rate) => account_after(rate.price, account, units),
        }
    }
}
