//! The traffic of each flow of a book.
ghost use Rattle.std.specs.Prelude.{◌≡◌, ◌<◌, ◌≤◌, ◌*◌, ◌^◌, [], ℕ, IfOk, IfErr, OnOk, length, nat_eq, if◌then◌else◌};
ghost use Rattle.share_bill.specs.Sums.{sums_at, one_more, IsSmall, AreSmall};
ghost use Rattle.share_bill.specs.declared.bill.line.LineFault.TheVariants.{NoMemory};

use super::LineFault;
use share_base::FlowNo;
use share_core::MAX_LIFE;
use std::alloc::{AllocError, Global};
use std::marker::Model;

/// Traffic: frames, their bytes, the units that these were charged, and what the units cost.
#[derive(Clone, Copy, Debug, PartialEq, Eq)]
pub struct Sums {
    pub packets: u64,
    pub bytes: u64,
    pub units: u64,
    pub amount: u64,
}

/// Nothing was sent.
const NOTHING: Sums = Sums {
    packets: 0,
    bytes: 0,
    units: 0,
    amount: 0,
};

/// The traffic of each flow, by its number. A contract sees the list up to the greatest flow that sent something.
#[derive(Drop)]
pub(super) struct Sent {
    entries: Vec<Sums>,
}

impl Model for Sent {
    ghost use Rattle.std.specs.Prelude.{List};
    ghost use Rattle.share_bill.specs.declared.bill.sums.Sums.{Sums};
    ghost use Rattle.share_bill.specs.Sums.{AreSmall};

    ghost Value = { List Sums };

    ghost view = { λ sent. sent.entries.items };

    ghost invariant = { λ sent. AreSmall sent.entries.items };
}

impl Sent {
    /// No flow sent anything.
    pub(super) fn new(alloc: Global) -> Sent
        ensures { result ≡ [] }
    {
        Sent {
            entries: Vec::new(alloc),
        }
    }

    /// The traffic of a flow.
    pub(super) fn of(&self, flow: FlowNo) -> Sums
        ensures { result ≡ sums_at self.now flow }
    {
        sums_at(self.entries.as_slice(), flow.0 as usize)
    }

    /// A flow sent one more frame of this many bytes and units, and all that it sent costs this amount. `NoMemory` if
    /// memory was refused, or the flow sent as many frames as the longest life has events, which no book does.
    pub(super) fn add(
        &mut self,
        flow: FlowNo,
        bytes: u32,
        units: u64,
        amount: u64,
    ) -> Result<(), LineFault>
        requires { units ≤ 2 ^ 38 }
        ensures added { OnOk result ((other : ℕ) → sums_at self.new other
            ≡ (if nat_eq other flow then one_more (sums_at self.old flow) bytes units amount
            else sums_at self.old other)) }
        ensures lacks { IfErr result (λ fault. fault ≡ NoMemory) }
    {
        let at = flow.0 as usize;
        let old = sums_at(self.entries.as_slice(), at);
        if old.packets >= MAX_LIFE || reach(&mut self.entries, at).is_err() {
            return Err(LineFault::NoMemory);
        }
        self.entries[at] = more(old, bytes, units, amount);
        Ok(())
    }
}

// The traffic of the flow of a number.
fn sums_at(entries: &[Sums], at: usize) -> Sums
    ensures value { result ≡ sums_at entries.now at }
    ensures small { AreSmall entries.now → IsSmall result }
{
    if at < entries.len() {
        entries[at]
    } else {
        NOTHING
    }
}

// Makes the list long enough for the flow of a number.
fn reach(entries: &mut Vec<Sums>, at: usize) -> Result<(), AllocError>
    requires small { AreSmall entries.old.items }
    requires short { at < 2 ^ 32 }
    ensures same { (other : ℕ) → sums_at entries.new.items other ≡ sums_at entries.old.items other }
    ensures small { AreSmall entries.new.items }
    ensures long { IfOk result (λ _. at < length entries.new.items) }
{
    while entries.len() <= at {
        entries.push(NOTHING)?;
    }
    Ok(())
}

// One more frame was sent.
fn more(old: Sums, bytes: u32, units: u64, amount: u64) -> Sums
    requires packets { old.packets < 2 ^ 24 }
    requires bytes { old.bytes ≤ old.packets * 2 ^ 32 }
    requires units { old.units ≤ old.packets * 2 ^ 38 }
    requires few { units ≤ 2 ^ 38 }
    ensures { result ≡ one_more old bytes units amount }
{
    Sums {
        packets: old.packets + 1,
        bytes: old.bytes + u64::from(bytes),
        units: old.units + units,
        amount,
    }
}
