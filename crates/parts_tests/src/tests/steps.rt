//! A tariff whose charge counts cells one by one: share_tariff stores any closure that follows the rule.
ghost use Rattle.std.specs.Prelude.{◌≡◌, ◌≤◌, ℕ};
ghost use Rattle.share_model.specs.link.Tariff.{units_of};

use crate::tests::assertions::same;
use share_tariff::{BookFn, ChargeFn, Tariff, account_after};
use std::process::Abort;
use std::test::Fail;

// The units of that many bytes, counted cell by cell.
fn units_by_steps(cell: u64, overhead: u64, count: u32) -> u64
    requires some { 1 ≤ cell }
    requires cell { cell ≤ 2048 }
    requires overhead { overhead ≤ 1024 }
    ensures { (price : ℕ) → result ≡ units_of (record { cell = cell; overhead = overhead; price = price }) count }
{
    if count == 0 {
        return 0;
    }
    let mut covered = cell;
    while covered < u64::from(count) {
        covered += cell;
    }
    overhead + covered
}

/// Counts of bytes, and their units under the tariff of cell 48 and overhead 16.
static UNITS: [(u32, u64); 6] = [
    (0, 0),
    (1, 64),
    (48, 64),
    (49, 112),
    (1502, 1552),
    (9017, 9040),
];

fn charges(rt: &impl Abort, tariff: &Tariff) {
    for &(count, units) in &UNITS {
        if count < 65536 {
            same(rt, count, tariff.units(count), units);
        }
    }
}

#[test]
fn charges_may_go_by_steps(rt: HostRuntime) -> Result<(), Fail> {
    let alloc = rt.alloc();
    let charge: ChargeFn = Box::new(alloc, |count: u32| -> u64 { units_by_steps(48, 16, count) })?;
    let book: BookFn = Box::new(alloc, |account: u64, units: u64| -> u64 {
        account_after(2, account, units)
    })?;
    let tariff = Tariff::new(48, 16, 2, charge, book)?;
    charges(&rt, &tariff);
    drop(tariff);
    Ok(())
}
