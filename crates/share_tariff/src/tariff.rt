//! A tariff and the closures that it stores.
ghost use Rattle.std.specs.Prelude.{◌≡◌, ◌<◌, ◌≤◌, ◌^◌, IfOk, IfErr, true, false};
ghost use Rattle.share_base.specs.declared.refusal.Refusal.TheVariants.{Range};
ghost use Rattle.share_model.specs.link.Tariff.{is_rate, IsInRange, units_of, post_of};
ghost use Rattle.share_tariff.specs.Rules.{ChargesRightly, BooksRightly};

use share_base::Refusal;
use share_model::Rate;

/// The largest cell, in units.
pub(crate) const MAX_CELL: u64 = 2048;

/// The largest overhead of a frame, in units.
pub(crate) const MAX_OVERHEAD: u64 = 1024;

/// The highest price of a unit.
pub(crate) const MAX_PRICE: u64 = 65535;

/// From a count of bytes to the units that they are charged.
pub type ChargeFn = Box<dyn Fn(u32) -> u64 + Send>;

/// From an account and the units charged to the account after them.
pub type BookFn = Box<dyn Fn(u64, u64) -> u64 + Send>;

/// A tariff whose numbers are in range, and the two closures by which it charges and posts. The caller made them, and
/// they follow the tariff's rule. `charge` does for up to 65535 bytes, `book` for an account of up to 2^62 and up to
/// 2^17 units. A contract sees the numbers.
#[derive(Drop)]
pub struct Tariff {
    rate: Rate,
    charge: ChargeFn,
    book: BookFn,
    ghost in_range: { IsInRange rate },
    ghost charges: { ChargesRightly rate (λ n. ChargeFn.pre charge n) (λ n u. ChargeFn.post charge n u) },
    ghost books: { BooksRightly rate (λ a u. BookFn.pre book a u) (λ a u after. BookFn.post book a u after) },
}

impl Tariff {
    ghost use Rattle.share_tariff.specs.Shelf.{rate_in};

    /// The tariff of these numbers. They are a cell of 1 to 2048 units, an overhead of 0 to 1024 units, and a price of
    /// 0 to 65535 a unit. `Range` if one of them is out of its range; then the closures are dropped. It takes no
    /// memory.
    ///
    /// If the numbers are in range, the closures must follow the tariff's rule and may be called with the arguments
    /// that it allows.
    pub fn new(
        cell: u64,
        overhead: u64,
        price: u64,
        charge: ChargeFn,
        book: BookFn,
    ) -> Result<Tariff, Refusal>
        requires charges { is_rate cell overhead price ≡ true
            → ChargesRightly (record { cell = cell; overhead = overhead; price = price })
            (λ n. ChargeFn.pre charge n) (λ n u. ChargeFn.post charge n u) }
        requires books { is_rate cell overhead price ≡ true
            → BooksRightly (record { cell = cell; overhead = overhead; price = price })
            (λ a u. BookFn.pre book a u) (λ a u after. BookFn.post book a u after) }
        ensures ok { IfOk result (λ t.
            (rate_in t ≡ record { cell = cell; overhead = overhead; price = price })
            × (is_rate cell overhead price ≡ true)) }
        ensures refused { IfErr result (λ e. (e ≡ Range) × (is_rate cell overhead price ≡ false)) }
    {
        if !is_rate(cell, overhead, price) {
            return Err(Refusal::Range);
        }
        Ok(Tariff {
            rate: Rate {
                cell,
                overhead,
                price,
            },
            charge,
            book,
        })
    }

    /// The units that `count` bytes are charged: none for no byte, otherwise the overhead and whole cells. It takes no
    /// memory.
    pub fn units(&self, count: u32) -> u64
        requires { count < 2 ^ 16 }
        ensures { result ≡ units_of (rate_in self.now) count }
    {
        call_charge(&self.charge, count)
    }

    /// An account after `units` units were charged: it grows by the price for each of them. It takes no memory.
    pub fn post(&self, account: u64, units: u64) -> u64
        requires account { account ≤ 2 ^ 62 }
        requires units { units ≤ 2 ^ 17 }
        ensures { result ≡ post_of (rate_in self.now) account units }
    {
        call_book(&self.book, account, units)
    }
}

// Whether these numbers are in range.
fn is_rate(cell: u64, overhead: u64, price: u64) -> bool
    ensures { result ≡ is_rate cell overhead price }
{
    1 <= cell && cell <= MAX_CELL && overhead <= MAX_OVERHEAD && price <= MAX_PRICE
}

// The answer of a stored charge.
fn call_charge(charge: &ChargeFn, count: u32) -> u64
    requires { ChargeFn.pre charge.now count }
    ensures { ChargeFn.post charge.now count result }
{
    charge(count)
}

// The answer of a stored book.
fn call_book(book: &BookFn, account: u64, units: u64) -> u64
    requires { BookFn.pre book.now account units }
    ensures { BookFn.post book.now account units result }
{
    book(account, units)
}
