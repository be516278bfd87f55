//! The tariffs of a file.
ghost use Rattle.std.specs.Prelude.{◌≡◌, IfOk, IfErr, Ok, Err};
ghost use Rattle.toml.specs.View.{table_view, items_view};
ghost use Rattle.share_config.specs.Lists.{tariffs_of, default_tariffs, some_tariffs, rate};
ghost use Rattle.share_config.specs.declared.fault.ConfigFault.TheVariants.{NoMemory};

use crate::entry::{Entry, read_all};
use crate::fault::{ConfigFault, Reason};
use crate::key::{Key, Location};
use crate::reading::{array_in, at, check_keys, needed_number, table_in};
use share_model::Rate;
use std::alloc::Global;
use toml::{Table, Value};

/// The most tariffs of a file.
const MAX_TARIFFS: usize = 8;

impl Entry for Rate {
    ghost use Rattle.share_config.specs.Lists.{tariff_of};

    ghost said = { λ _ number value. tariff_of number value };

    fn read(
        alloc: Global,
        _location: Location,
        number: usize,
        value: &Value,
    ) -> Result<Rate, ConfigFault> {
        let table = table_in(value, Location::File, Key::Tariff)?;
        let location = Location::Tariff(number);
        check_keys(alloc, table, location)?;
        let cell = needed_number(table, location, Key::Cell, 1, 2048)?;
        let overhead = needed_number(table, location, Key::Overhead, 0, 1024)?;
        let price = needed_number(table, location, Key::Price, 0, 65535)?;
        Ok(Rate {
            cell,
            overhead,
            price,
        })
    }
}

/// The tariffs of a file, which gives them, or the four that a file without any has.
pub(crate) fn tariffs(alloc: Global, table: &Table) -> Result<Vec<Rate>, ConfigFault>
    ensures ok { IfOk result (λ rates. tariffs_of (table_view table.now) ≡ Ok rates.items) }
    ensures fault { IfErr result (λ e. ¬ (e ≡ NoMemory) → tariffs_of (table_view table.now) ≡ Err e) }
{
    match at(table, Key::Tariff) {
        None => default_tariffs(alloc),
        Some(value) => some_tariffs(alloc, array_in(value, Location::File, Key::Tariff)?),
    }
}

fn some_tariffs(alloc: Global, values: &[Value]) -> Result<Vec<Rate>, ConfigFault>
    ensures ok { IfOk result (λ rates. some_tariffs (items_view values.now) ≡ Ok rates.items) }
    ensures fault { IfErr result (λ e. ¬ (e ≡ NoMemory) → some_tariffs (items_view values.now) ≡ Err e) }
{
    if values.is_empty() {
        return default_tariffs(alloc);
    }
    if values.len() > MAX_TARIFFS {
        return Err(ConfigFault::wrong(
            Location::File,
            Key::Tariff,
            Reason::TooMany { most: MAX_TARIFFS },
        ));
    }
    read_all::<Rate>(alloc, Location::File, values)
}

// Cell, overhead and price of the tariffs of a file that gives none.
fn default_tariffs(alloc: Global) -> Result<Vec<Rate>, ConfigFault>
    ensures ok { IfOk result (λ rates. rates.items ≡ default_tariffs) }
    ensures fault { IfErr result (λ e. e ≡ NoMemory) }
{
    let rates = [
        rate(1, 0, 1),
        rate(48, 16, 2),
        rate(1024, 0, 1),
        rate(2048, 1024, 3),
    ];
    match Vec::from_slice(alloc, &rates) {
        Err(_) => Err(ConfigFault::NoMemory),
        Ok(rates) => Ok(rates),
    }
}

fn rate(cell: u64, overhead: u64, price: u64) -> Rate
    ensures { result ≡ rate cell overhead price }
{
    Rate {
        cell,
        overhead,
        price,
    }
}
