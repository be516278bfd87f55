//! The rule of a tariff as plain functions, for anyone who stores it in the closures of a tariff.
ghost use Rattle.std.specs.Prelude.{◌≡◌, ◌≤◌, ◌+◌, ◌*◌, ◌-◌, ◌^◌, ℕ, max, min, true};
ghost use Rattle.share_model.specs.link.Tariff.{is_rate, units_of};

use crate::tariff::{MAX_CELL, MAX_OVERHEAD, MAX_PRICE};

/// The units that `count` bytes are charged under a tariff of this cell and this overhead, by one division. They are
/// none for no byte, otherwise the overhead and whole cells. A number out of its range counts as the nearest one in it.
/// A cell is 1 to 2048 units, and an overhead at most 1024. It takes no memory.
pub fn units_by_division(cell: u64, overhead: u64, count: u32) -> u64
    ensures units { (price : ℕ) → is_rate cell overhead price ≡ true
        → result ≡ units_of (record { cell = cell; overhead = overhead; price = price }) count }
    ensures nearest { (price : ℕ) → result ≡ units_of (record {
      cell = max 1 (min cell MAX_CELL);
      overhead = min overhead MAX_OVERHEAD;
      price = price;
    }) count }
{
    if count == 0 {
        return 0;
    }
    let cell = cell.clamp(1, MAX_CELL);
    overhead.min(MAX_OVERHEAD) + cell * (u64::from(count - 1) / cell + 1)
}

/// An account after `units` units were charged: it grows by the price for each of them, up to the greatest number. It
/// takes no memory.
pub fn account_after(price: u64, account: u64, units: u64) -> u64
    ensures account { price ≤ MAX_PRICE → account ≤ 2 ^ 62 → units ≤ 2 ^ 17 → result ≡ account + price * units }
    ensures greatest { result ≡ min (account + price * units) (2 ^ 64 - 1) }
{
    account.saturating_add(price.saturating_mul(units))
}

/// Makes a shelf of tariffs whose closures follow the plain rule. It takes an allocator and the numbers of each tariff:
/// `shelf!(alloc, (1, 0, 1), (48, 16, 2))`. The boxes are made in the body that calls it. If memory for one is refused,
/// that body returns the error (`?`). A tariff out of range, or more than 8 of them, cannot be proved at the call.
#[macro_export]
macro_rules! shelf {
    ($alloc:expr, $(($cell:expr, $overhead:expr, $price:expr)),+ $(,)?) => {{
        let alloc = $alloc;
        let tariffs = [$({
            let charge: $crate::ChargeFn = Box::new(alloc, |count: u32| -> u64 {
                $crate::units_by_division($cell, $overhead, count)
            })?;
            let book: $crate::BookFn = Box::new(alloc, |account: u64, units: u64| -> u64 {
                $crate::account_after($price, account, units)
            })?;
            let Ok(tariff) = $crate::Tariff::new($cell, $overhead, $price, charge, book) else {
                unreachable!()
            };
            tariff
        }),+];
        let Ok(shelf) = $crate::Shelf::new(Vec::from_array(alloc, tariffs)?) else {
            unreachable!()
        };
        shelf
    }};
}
