//! The tariffs of a book, as a link knows them.
ghost use Rattle.std.specs.Prelude.{◌≡◌, map, IfOk};
ghost use Rattle.share_disk.specs.Rates.{link_rate};

use share_catalog::BookTariff;
use share_model::Rate;
use std::alloc::{AllocError, Global};

/// The tariffs of a book, as a link knows them, in the same order.
pub fn rates_of(alloc: Global, tariffs: &[BookTariff]) -> Result<Vec<Rate>, AllocError>
    ensures { IfOk result (λ rates. rates.items ≡ map link_rate tariffs.now) }
{
    let mut rates = Vec::with_capacity(alloc, tariffs.len())?;
    for index in 0..tariffs.len() {
        rates.push(rate_of(&tariffs[index]))?;
    }
    Ok(rates)
}

fn rate_of(tariff: &BookTariff) -> Rate
    ensures { result ≡ link_rate tariff.now }
{
    Rate {
        cell: tariff.cell,
        overhead: tariff.overhead,
        price: tariff.price,
    }
}
