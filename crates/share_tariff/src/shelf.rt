//! The shelf of a link's tariffs.
ghost use Rattle.std.specs.Prelude.{◌≡◌, ◌≤◌, IfOk, IfErr, vec_len, true, false};
ghost use Rattle.share_base.specs.declared.refusal.Refusal.TheVariants.{Range};
ghost use Rattle.share_tariff.specs.declared.shelf.TheConstants.{MAX_TARIFFS};

use crate::tariff::Tariff;
use share_base::Refusal;
use share_model::Rates;

/// The most tariffs on a shelf.
pub const MAX_TARIFFS: usize = 8;

/// One to eight tariffs, numbered from 1. A contract sees the numbers of each, in this order.
pub struct Shelf {
    tariffs: Vec<Tariff>,
    ghost some: { 1 ≤ vec_len tariffs },
    ghost few: { vec_len tariffs ≤ MAX_TARIFFS },
}

impl Drop for Shelf {
    fn drop(self) {
        let Shelf { tariffs } = self;
        drop(tariffs);
    }
}

impl Shelf {
    ghost use Rattle.std.specs.Prelude.{map, length, option_map, option_copied};
    ghost use Rattle.share_model.specs.link.Tariff.{rate_at};
    ghost use Rattle.share_tariff.specs.Shelf.{rate_in, rates_of, is_shelf_length};

    /// The shelf of these tariffs. `Range` if there are not 1 to 8 of them; then they are dropped. It takes no memory.
    pub fn new(tariffs: Vec<Tariff>) -> Result<Shelf, Refusal>
        ensures ok { IfOk result (λ s.
            (rates_of s ≡ map rate_in tariffs.items)
            × (is_shelf_length (length tariffs.items) ≡ true)) }
        ensures refused { IfErr result
            (λ e. (e ≡ Range) × (is_shelf_length (length tariffs.items) ≡ false)) }
    {
        if tariffs.is_empty() || tariffs.len() > MAX_TARIFFS {
            return Err(Refusal::Range);
        }
        Ok(Shelf { tariffs })
    }

    /// The tariff of a number, from 1. `None` if no tariff has it. It takes no memory.
    pub fn get(&self, number: u64) -> Option<&Tariff>
        ensures { option_map rate_in (option_copied result) ≡ rate_at (rates_of self.now) number }
    {
        if number < 1 || number > self.tariffs.len() as u64 {
            return None;
        }
        Some(&self.tariffs[(number - 1) as usize])
    }
}

impl Rates for Shelf {
    ghost use Rattle.share_tariff.specs.Shelf.{rates_of, rates_in_range};

    ghost rates = { rates_of };

    ghost in_range = { rates_in_range };

    fn has(&self, number: u64) -> bool {
        self.get(number).is_some()
    }

    fn units(&self, number: u64, count: u32) -> u64 {
        match self.get(number) {
            None => unreachable!(),
            Some(tariff) => tariff.units(count),
        }
    }

    fn post(&self, number: u64, account: u64, units: u64) -> u64 {
        match self.get(number) {
            None => unreachable!(),
            Some(tariff) => tariff.post(account, units),
        }
    }
}

/// A borrowed shelf charges and posts in the same way, so several links can share one.
impl Rates for &Shelf {
    ghost use Rattle.share_tariff.specs.Shelf.{rates_of, rates_in_range};

    ghost rates = { λ s. rates_of s.now };

    ghost in_range = { λ s. rates_in_range s.now };

    fn has(&self, number: u64) -> bool {
        Shelf::has(*self, number)
    }

    fn units(&self, number: u64, count: u32) -> u64 {
        Shelf::units(*self, number, count)
    }

    fn post(&self, number: u64, account: u64, units: u64) -> u64 {
        Shelf::post(*self, number, account, units)
    }
}
