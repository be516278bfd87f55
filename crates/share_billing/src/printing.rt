//! The text of a bill, in three forms.
ghost use Rattle.std.specs.Prelude.{◌≡◌, ◌≤◌, ◌++◌, IfOk, OnOk, decimal};
ghost use Rattle.share_billing.specs.Texts.{csv_row, csv_text, json_figures, json_row, json_rows, json_text};
ghost use Rattle.share_billing.specs.Texts.{table_row, table_text, shown_text, field, right, left, sum_of};

use itoa::Buffer;
use share_bill::{Figures, TenantTotal};
use std::alloc::{AllocError, Global};

/// The form in which a bill is printed.
#[derive(Clone, Copy, Debug, PartialEq, Eq)]
pub enum Form {
    /// As a table with a row of sums.
    Table,
    /// As CSV, without sums.
    Csv,
    /// As a line of JSON, without sums.
    Json,
}

/// The width of the widest column.
const WIDEST: usize = 20;

/// Spaces that fill it.
const SPACES: [u8; WIDEST] = [b' '; WIDEST];

// Adds the decimal of a number after some bytes.
fn push_field(text: &mut Vec<u8>, before: &[u8], number: u128) -> Result<(), AllocError>
    ensures { OnOk result (text.new.items ≡ text.old.items ++ field before.now number) }
{
    let mut digits = Buffer::new();
    text.extend_from_slice(before)?;
    text.extend_from_slice(digits.format(number).as_bytes())?;
    Ok(())
}

// Adds the decimal of a number at the right of a column, after a space. A longer one is shown whole.
fn push_right(text: &mut Vec<u8>, width: usize, number: u128) -> Result<(), AllocError>
    requires { width ≤ 20 }
    ensures { OnOk result (text.new.items ≡ text.old.items ++ right width (decimal number)) }
{
    let mut buffer = Buffer::new();
    let digits = buffer.format(number).as_bytes();
    text.extend_from_slice(b" ")?;
    text.extend_from_slice(&SPACES[..width.saturating_sub(digits.len())])?;
    text.extend_from_slice(digits)?;
    Ok(())
}

// Adds a name at the left of the first column.
fn push_left(text: &mut Vec<u8>, name: &[u8]) -> Result<(), AllocError>
    ensures { OnOk result (text.new.items ≡ text.old.items ++ left 16 name.now) }
{
    text.extend_from_slice(name)?;
    text.extend_from_slice(&SPACES[..16usize.saturating_sub(name.len())])?;
    Ok(())
}

// A row of the table.
fn push_table_row(text: &mut Vec<u8>, name: &[u8], sent: &Figures) -> Result<(), AllocError>
    ensures { OnOk result (text.new.items ≡ text.old.items ++ table_row name.now sent.now) }
{
    push_left(text, name)?;
    push_right(text, 12, sent.packets)?;
    push_right(text, 16, sent.bytes)?;
    push_right(text, 16, sent.units)?;
    push_right(text, 20, sent.amount)?;
    text.extend_from_slice(b"\n")?;
    Ok(())
}

// A row of CSV.
fn push_csv_row(text: &mut Vec<u8>, name: &[u8], sent: &Figures) -> Result<(), AllocError>
    ensures { OnOk result (text.new.items ≡ text.old.items ++ csv_row name.now sent.now) }
{
    text.extend_from_slice(name)?;
    push_field(text, b",", sent.packets)?;
    push_field(text, b",", sent.bytes)?;
    push_field(text, b",", sent.units)?;
    push_field(text, b",", sent.amount)?;
    text.extend_from_slice(b"\n")?;
    Ok(())
}

// The figures of a tenant in JSON.
fn push_json_figures(text: &mut Vec<u8>, sent: &Figures) -> Result<(), AllocError>
    ensures { OnOk result (text.new.items ≡ text.old.items ++ json_figures sent.now) }
{
    push_field(text, b"\",\"packets\":", sent.packets)?;
    push_field(text, b",\"bytes\":", sent.bytes)?;
    push_field(text, b",\"units\":", sent.units)?;
    push_field(text, b",\"amount\":", sent.amount)?;
    Ok(())
}

// A tenant in JSON.
fn push_json_row(text: &mut Vec<u8>, name: &[u8], sent: &Figures) -> Result<(), AllocError>
    ensures { OnOk result (text.new.items ≡ text.old.items ++ json_row name.now sent.now) }
{
    text.extend_from_slice(b"{\"name\":\"")?;
    text.extend_from_slice(name)?;
    push_json_figures(text, sent)?;
    text.extend_from_slice(b"}")?;
    Ok(())
}

// The traffic of all tenants.
fn sum_of(tenants: &[TenantTotal]) -> Figures
    ensures { result ≡ sum_of tenants.now }
{
    let mut sum = Figures::none();
    for tenant in tenants {
        sum.join(&tenant.sent);
    }
    sum
}

fn push_table(text: &mut Vec<u8>, tenants: &[TenantTotal]) -> Result<(), AllocError>
    ensures { OnOk result (text.new.items ≡ text.old.items ++ table_text tenants.now) }
{
    text.extend_from_slice(
        b"tenant                packets            bytes            units               amount\n",
    )?;
    for tenant in tenants {
        push_table_row(text, tenant.name.as_bytes(), &tenant.sent)?;
    }
    push_table_row(text, b"all tenants", &sum_of(tenants))?;
    Ok(())
}

fn push_csv(text: &mut Vec<u8>, tenants: &[TenantTotal]) -> Result<(), AllocError>
    ensures { OnOk result (text.new.items ≡ text.old.items ++ csv_text tenants.now) }
{
    text.extend_from_slice(b"tenant,packets,bytes,units,amount\n")?;
    for tenant in tenants {
        push_csv_row(text, tenant.name.as_bytes(), &tenant.sent)?;
    }
    Ok(())
}

// The tenants in JSON, parted by commas.
fn push_json_rows(text: &mut Vec<u8>, tenants: &[TenantTotal]) -> Result<(), AllocError>
    ensures { OnOk result (text.new.items ≡ text.old.items ++ json_rows tenants.now) }
{
    let Some((first, others)) = tenants.split_first() else {
        return Ok(());
    };
    push_json_row(text, first.name.as_bytes(), &first.sent)?;
    for tenant in others {
        text.extend_from_slice(b",")?;
        push_json_row(text, tenant.name.as_bytes(), &tenant.sent)?;
    }
    Ok(())
}

fn push_json(text: &mut Vec<u8>, books: u64, tenants: &[TenantTotal]) -> Result<(), AllocError>
    ensures { OnOk result (text.new.items ≡ text.old.items ++ json_text books tenants.now) }
{
    push_field(text, b"{\"books\":", u128::from(books))?;
    text.extend_from_slice(b",\"tenants\":[")?;
    push_json_rows(text, tenants)?;
    text.extend_from_slice(b"]}\n")?;
    Ok(())
}

fn push_form(
    text: &mut Vec<u8>,
    form: Form,
    books: u64,
    tenants: &[TenantTotal],
) -> Result<(), AllocError>
    ensures { OnOk result (text.new.items ≡ text.old.items ++ shown_text form books tenants.now) }
{
    match form {
        Form::Table => push_table(text, tenants),
        Form::Csv => push_csv(text, tenants),
        Form::Json => push_json(text, books, tenants),
    }
}

/// The text of the bill of that many books.
pub fn shown(
    alloc: Global,
    form: Form,
    books: u64,
    tenants: &[TenantTotal],
) -> Result<Vec<u8>, AllocError>
    ensures { IfOk result (λ text. text.items ≡ shown_text form books tenants.now) }
{
    let mut text = Vec::new(alloc);
    match push_form(&mut text, form, books, tenants) {
        Ok(()) => Ok(text),
        Err(refused) => {
            drop(text);
            Err(refused)
        }
    }
}
