//! Bills under tariffs that are not known before the program runs.

use share_billing::{Billing, NotShown, print_bill};
use share_model::{Rate, Rates};
use share_tariff::PlainShelf;
use std::alloc::Global;
use std::fs::Files;
use std::io::{Eprint, Print};

/// A shelf that the bills of several books share.
#[derive(Clone, Copy, Debug, Drop)]
struct SharedShelf<'a> {
    shelf: &'a PlainShelf,
}

impl<'a> Rates for SharedShelf<'a> {
    ghost use Rattle.share_tariff.specs.PlainShelf.{plain_rates_of, plain_rates_in_range};

    ghost rates = { λ s. plain_rates_of s.shelf.now };

    ghost in_range = { λ s. plain_rates_in_range s.shelf.now };

    fn has(&self, number: u64) -> bool {
        self.shelf.has(number)
    }

    fn units(&self, number: u64, count: u32) -> u64 {
        self.shelf.units(number, count)
    }

    fn post(&self, number: u64, account: u64, units: u64) -> u64 {
        self.shelf.post(number, account, units)
    }
}

/// Prints the bill of books under these tariffs, as `print_bill` does. Nothing is printed if they are no tariffs.
pub fn print_bill_by<R: Files + Print + Eprint>(
    rt: &R,
    alloc: Global,
    rates: Vec<Rate>,
    billing: &Billing<'_, '_>,
) -> Result<(), NotShown> {
    match PlainShelf::new(rates) {
        Ok(shelf) => {
            let printed = print_bill(rt, alloc, SharedShelf { shelf: &shelf }, billing);
            drop(shelf);
            printed
        }
        Err(_) => Err(NotShown::Book),
    }
}
