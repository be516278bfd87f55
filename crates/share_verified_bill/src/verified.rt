//! The bill of books that are checked against their rows.

use crate::books::{GivenBook, add_book};
use crate::given_files::checked_numbers;
use crate::rows_file::rows_in;
use share_bill::TenantTotal;
use share_billing::{Form, NotShown, shown};
use share_catalog::Row;
use share_model::{PatientWriter, PlainWriter, put};
use std::alloc::{AllocError, Global};
use std::fs::{File, Files};
use std::io;
use std::io::{Eprint, Print};

/// The books that are billed and checked, and the form of the bill.
#[derive(Clone, Copy, Debug)]
pub struct VerifiedBilling<'a, 'b> {
    /// The file of the rows.
    pub rows: &'a str,
    /// The files of the texts.
    pub paths: &'b [&'a str],
    pub form: Form,
}

// Adds the bill of each book to the totals, and returns whether all of them have one and are as their rows say.
fn add_books<R: Files<File = File> + Eprint>(
    rt: &R,
    alloc: Global,
    rows: &[Row],
    numbers: &[u64],
    paths: &[&str],
    totals: &mut Vec<TenantTotal>,
) -> Result<bool, AllocError> {
    let mut is_whole = true;
    for (path, number) in paths.iter().zip(numbers) {
        let book = GivenBook {
            path,
            number: *number,
        };
        if !add_book(rt, alloc, rows, book, totals)? {
            is_whole = false;
        }
    }
    Ok(is_whole)
}

// Prints the bill of that many books.
fn print_totals(
    rt: &impl Print,
    alloc: Global,
    form: Form,
    books: u64,
    totals: &[TenantTotal],
) -> Result<(), NotShown> {
    let Ok(text) = shown(alloc, form, books, totals) else {
        return Err(NotShown::NoMemory);
    };
    let mut output = PatientWriter(PlainWriter(io::writer(rt)));
    match put(&mut output, text.as_slice()) {
        Ok(()) => Ok(()),
        Err(_) => Err(NotShown::Output),
    }
}

// Prints the bill of the books of these numbers, beside the rows.
fn print_beside<R: Files<File = File> + Print + Eprint>(
    rt: &R,
    alloc: Global,
    rows: &[Row],
    numbers: &[u64],
    billing: &VerifiedBilling<'_, '_>,
) -> Result<(), NotShown> {
    let mut totals = Vec::new(alloc);
    let Ok(is_whole) = add_books(rt, alloc, rows, numbers, billing.paths, &mut totals) else {
        return Err(NotShown::NoMemory);
    };
    if !is_whole {
        return Err(NotShown::Book);
    }
    let books = billing.paths.len() as u64;
    print_totals(rt, alloc, billing.form, books, totals.as_slice())
}

/// Prints the bill of these books, each under its own tariffs, summed by tenant. Each book from the first to the last
/// row has to be given once, and has to be as its row says. Those whose text is not a run are left out. Otherwise
/// nothing is printed, and standard error says why.
pub fn print_verified_bill<R: Files<File = File> + Print + Eprint>(
    rt: &R,
    alloc: Global,
    billing: &VerifiedBilling<'_, '_>,
) -> Result<(), NotShown> {
    let rows = rows_in(rt, alloc, billing.rows)?;
    let numbers = checked_numbers(rt, alloc, billing.rows, rows.as_slice(), billing.paths)?;
    print_beside(rt, alloc, rows.as_slice(), numbers.as_slice(), billing)
}
