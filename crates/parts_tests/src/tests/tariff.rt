//! share_tariff: worked units, the ranges of tariffs and shelves, and the number of calls of a stored closure. A
//! function may not hand out boxed closures, so each body that needs some makes its own.

use crate::tests::allocator::{keeps_none, mark, refuse, took_none};
use crate::tests::assertions::{holds, same};
use share_base::Refusal;
use share_model::Rates;
use share_tariff::{
    BookFn, ChargeFn, Shelf, Tariff, account_after, bytes_fill_whole_cells, units_by_division,
};
use std::alloc::Global;
use std::process::Abort;
use std::sync::Arc;
use std::sync::atomic::{AtomicU64, Ordering};
use std::test::Fail;

/// Counts of bytes whose units are compared.
static COUNTS: [u32; 6] = [0, 1, 48, 49, 1502, 9017];

/// The cell, the overhead and the price of a tariff, its units for these counts, and what 100 units make of an account
/// of 7.
static UNITS: [(u64, u64, u64, [u64; 6], u64); 4] = [
    (1, 0, 1, [0, 1, 48, 49, 1502, 9017], 107),
    (48, 16, 2, [0, 64, 64, 112, 1552, 9040], 207),
    (1024, 0, 1, [0, 1024, 1024, 1024, 2048, 9216], 107),
    (2048, 1024, 3, [0, 3072, 3072, 3072, 3072, 11264], 307),
];

#[test]
fn tariffs_charge_whole_cells(rt: HostRuntime) {
    bytes_fill_whole_cells();
    for &(cell, overhead, price, units, account) in &UNITS {
        for (&count, wanted) in COUNTS.iter().zip(units) {
            let charged = units_by_division(cell, overhead, count);
            same(&rt, (cell, count), charged, wanted);
        }
        same(&rt, price, account_after(price, 7, 100), account);
    }
}

static RANGES: [(u64, u64, u64, Option<Refusal>); 7] = [
    (1, 0, 0, None),
    (2048, 1024, 65535, None),
    (0, 0, 1, Some(Refusal::Range)),
    (2049, 0, 1, Some(Refusal::Range)),
    (1, 1025, 1, Some(Refusal::Range)),
    (1, 0, 65536, Some(Refusal::Range)),
    (4294967297, 4294967296, 4294967296, Some(Refusal::Range)),
];

// Why a tariff of these numbers is refused, if it is. Its charge holds the token, and all is dropped at the end.
fn refusal(
    rt: &impl Abort,
    alloc: Global,
    token: &Arc<u8>,
    cell: u64,
    overhead: u64,
    price: u64,
) -> Option<Refusal> {
    let held = Arc::try_clone(token).expect(rt, "memory");
    let charge: ChargeFn = Box::new(alloc, move |count: u32| -> u64 {
        let _ = &held;
        units_by_division(cell, overhead, count)
    })
    .expect(rt, "memory");
    let book: BookFn = Box::new(alloc, move |account: u64, units: u64| -> u64 {
        account_after(price, account, units)
    })
    .expect(rt, "memory");
    Tariff::new(cell, overhead, price, charge, book).err()
}

#[test]
fn tariffs_have_ranges_and_refused_ones_are_dropped(rt: HostRuntime) -> Result<(), Fail> {
    let token = Arc::new(rt.alloc(), 0u8)?;
    for &(cell, overhead, price, wanted) in &RANGES {
        let row = (cell, overhead, price);
        let refusal = refusal(&rt, rt.alloc(), &token, cell, overhead, price);
        same(&rt, row, refusal, wanted);
        same(&rt, (row, "dropped"), Arc::strong_count(&token), 1);
    }
    Ok(())
}

#[test]
fn shelves_hold_one_to_eight_and_refused_ones_are_dropped(rt: HostRuntime) -> Result<(), Fail> {
    let alloc = rt.alloc();
    let token = Arc::new(alloc, 0u8)?;
    let range = Some(Refusal::Range);
    for &(count, wanted) in &[(0, range), (1, None), (8, None), (9, range)] {
        let mut tariffs = Vec::new(alloc);
        for _ in 0..count {
            let held = Arc::try_clone(&token)?;
            let charge: ChargeFn = Box::new(alloc, move |count: u32| -> u64 {
                let _ = &held;
                units_by_division(1, 0, count)
            })?;
            let book: BookFn = Box::new(alloc, |account: u64, units: u64| -> u64 {
                account_after(1, account, units)
            })?;
            tariffs.push(Tariff::new(1, 0, 1, charge, book)?)?;
        }
        same(&rt, count, Arc::strong_count(&token), 1 + count);
        same(&rt, count, Shelf::new(tariffs).err(), wanted);
        same(&rt, (count, "dropped"), Arc::strong_count(&token), 1);
    }
    Ok(())
}

// The number of calls of each closure.
fn calls(charged: &AtomicU64, booked: &AtomicU64) -> (u64, u64) {
    (
        charged.load(Ordering::SeqCst),
        booked.load(Ordering::SeqCst),
    )
}

fn calls_once(rt: &impl Abort, tariff: &Tariff, charged: &AtomicU64, booked: &AtomicU64) {
    for asked in 1..=3 {
        same(rt, asked, tariff.units(49), 112);
        let called = calls(charged, booked);
        same(rt, (asked, "charge"), called, (asked, asked - 1));
        same(rt, asked, tariff.post(7, 100), 207);
        same(rt, (asked, "book"), calls(charged, booked), (asked, asked));
    }
}

#[test]
fn a_stored_closure_is_called_once_for_each_answer(rt: HostRuntime) -> Result<(), Fail> {
    let alloc = rt.alloc();
    let charged = Arc::new(alloc, AtomicU64::new(0))?;
    let booked = Arc::new(alloc, AtomicU64::new(0))?;
    let word = Arc::try_clone(&charged)?;
    let charge: ChargeFn = Box::new(alloc, move |count: u32| -> u64 {
        word.fetch_add(1, Ordering::SeqCst);
        units_by_division(48, 16, count)
    })?;
    let word = Arc::try_clone(&booked)?;
    let book: BookFn = Box::new(alloc, move |account: u64, units: u64| -> u64 {
        word.fetch_add(1, Ordering::SeqCst);
        account_after(2, account, units)
    })?;
    let tariff = Tariff::new(48, 16, 2, charge, book)?;
    calls_once(&rt, &tariff, &charged, &booked);
    drop(tariff);
    Ok(())
}

// Whether a shelf of the tariff (48, 16, 2) charges 112 units for 49 bytes, and posts 100 units at the price of 2.
fn charges<S: Rates>(shelf: &S) -> bool {
    shelf.has(1)
        && shelf.units(1, 49) == 112
        && shelf.post(1, 7, 100) == 207
        && !shelf.has(0)
        && !shelf.has(2)
}

// Whether the shelf, the same lent, its tariff and the plain rule answer as they should, numbers out of range among
// them.
fn are_answered(shelf: &Shelf) -> bool {
    let Some(tariff) = shelf.get(1) else {
        return false;
    };
    charges(shelf)
        && charges(&shelf)
        && tariff.units(49) == 112
        && tariff.post(7, 100) == 207
        && shelf.get(0).is_none()
        && units_by_division(0, 2000, 1) == 1025
        && account_after(2, u64::MAX, 1) == u64::MAX
}

#[test]
fn a_shelf_takes_no_memory(rt: HostRuntime) -> Result<(), Fail> {
    let alloc = rt.alloc();
    mark(alloc);
    let charge: ChargeFn = Box::new(alloc, |count: u32| -> u64 {
        units_by_division(48, 16, count)
    })?;
    let book: BookFn = Box::new(alloc, |account: u64, units: u64| -> u64 {
        account_after(2, account, units)
    })?;
    let mut tariffs = Vec::with_capacity(alloc, 1)?;
    refuse(alloc, 1);
    tariffs.push(Tariff::new(48, 16, 2, charge, book)?)?;
    let shelf = Shelf::new(tariffs)?;
    let none = Shelf::new(Vec::new(alloc)).err();
    let are_answered = are_answered(&shelf);
    drop(shelf);
    took_none(&rt, "a shelf", alloc);
    same(&rt, "no tariffs", none, Some(Refusal::Range));
    holds(&rt, "the answers", are_answered);
    keeps_none(&rt, "a shelf", alloc);
    Ok(())
}
