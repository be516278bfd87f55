//! The bills of several books together.
ghost use Rattle.std.specs.Prelude.{◌≡◌, ◌++◌, ℕ, List, OnOk, map};
ghost use Rattle.share_bill.specs.Totals.{no_figures, plus_row, plus, figures_and, figures_of, figures_with};
ghost use Rattle.share_bill.specs.Totals.{name_of, row_name, with_name, each_once, index_of};

use super::TenantBill;
use share_base::Name;
use std::alloc::{AllocError, Global};

/// Traffic in any number of books. No figure exceeds 2^128 - 1.
#[derive(Clone, Copy, Debug, PartialEq, Eq)]
pub struct Figures {
    pub packets: u128,
    pub bytes: u128,
    pub units: u128,
    pub amount: u128,
}

/// The traffic of a tenant in any number of books.
#[derive(Clone, Copy, Debug)]
pub struct TenantTotal {
    pub name: Name,
    pub sent: Figures,
}

impl Figures {
    /// Nothing was sent.
    pub fn none() -> Figures
        ensures { result ≡ no_figures }
    {
        Figures {
            packets: 0,
            bytes: 0,
            units: 0,
            amount: 0,
        }
    }

    /// Adds what a tenant sent by one more book.
    pub fn add(&mut self, row: &TenantBill)
        ensures { self.new ≡ plus_row self.old row.now }
    {
        self.packets = self.packets.saturating_add(u128::from(row.packets));
        self.bytes = self.bytes.saturating_add(u128::from(row.bytes));
        self.units = self.units.saturating_add(u128::from(row.units));
        self.amount = self.amount.saturating_add(u128::from(row.amount));
    }

    /// Adds what another tenant sent.
    pub fn join(&mut self, other: &Figures)
        ensures { self.new ≡ plus self.old other.now }
    {
        self.packets = self.packets.saturating_add(other.packets);
        self.bytes = self.bytes.saturating_add(other.bytes);
        self.units = self.units.saturating_add(other.units);
        self.amount = self.amount.saturating_add(other.amount);
    }
}

/// Adds the rows of a book to those of the books before it. Tenants stand in the order in which they first appear, each
/// once, with the sums of its rows.
pub fn add_rows(totals: &mut Vec<TenantTotal>, rows: &[TenantBill]) -> Result<(), AllocError>
    ensures names { each_once (map name_of totals.old.items) ≡ map name_of totals.old.items
        → OnOk result (map name_of totals.new.items
        ≡ each_once (map name_of totals.old.items ++ map row_name rows.now)) }
    ensures sums { OnOk result ((name : List ℕ) → figures_of totals.new.items name
        ≡ figures_with name rows.now (figures_of totals.old.items name)) }
{
    for row in rows {
        add_row(totals, row)?;
    }
    Ok(())
}

// Adds a row to those of its tenant.
fn add_row(totals: &mut Vec<TenantTotal>, row: &TenantBill) -> Result<(), AllocError>
    ensures names { OnOk result (map name_of totals.new.items
        ≡ with_name (map name_of totals.old.items) row.now.name) }
    ensures sums { OnOk result ((name : List ℕ) → figures_of totals.new.items name
        ≡ figures_and name (figures_of totals.old.items name) row.now) }
{
    let at = index_of(totals.as_slice(), row.name);
    if at < totals.len() {
        totals[at].sent.add(row);
        return Ok(());
    }
    totals.push(first_total(row))?;
    Ok(())
}

// The traffic of a tenant whose first row this is.
fn first_total(row: &TenantBill) -> TenantTotal
    ensures { result ≡ record { name = row.now.name; sent = plus_row no_figures row.now } }
{
    let mut sent = Figures::none();
    sent.add(row);
    TenantTotal {
        name: row.name,
        sent,
    }
}

// The index of the tenant of a name, or the length if there is none.
fn index_of(totals: &[TenantTotal], name: Name) -> usize
    ensures { result ≡ index_of totals.now name }
{
    for at in 0..totals.len() {
        if totals[at].name == name {
            return at;
        }
    }
    totals.len()
}
