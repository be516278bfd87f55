//! The bill of several files.

use crate::book_file::BookFile;
use crate::faults::{BookFault, CutLine, FaultLine};
use crate::printing::{Form, shown};
use share_bill::{BookBill, NotBilled, TenantTotal, add_rows, bill_text};
use share_model::{PatientWriter, PlainWriter, Rates, put};
use std::alloc::{AllocError, Global};
use std::cell::Cell;
use std::fs::Files;
use std::io::{Eprint, Print};
use std::{fs, io};

/// The books that are billed, and the form of the bill.
#[derive(Clone, Copy, Debug)]
pub struct Billing<'a, 'b> {
    /// The files of their texts.
    pub paths: &'b [&'a str],
    pub form: Form,
}

/// Why no bill was printed.
#[derive(Clone, Copy, Debug, PartialEq, Eq)]
pub enum NotShown {
    /// A book has none, and standard error says why.
    Book,
    /// Memory was refused.
    NoMemory,
    /// The output could not be written.
    Output,
}

// The bill of the book in a file.
fn bill_file<R: Files, S: Rates + Drop>(
    files: &R,
    alloc: Global,
    shelf: S,
    path: &str,
) -> Result<BookBill, BookFault> {
    let fault = Cell::new(None);
    let file = match fs::open(files, path) {
        Ok(file) => file,
        Err(error) => {
            drop(shelf);
            return Err(BookFault::File(error));
        }
    };
    let text = BookFile {
        file,
        fault: &fault,
    };
    match bill_text(alloc, shelf, text) {
        Ok(bill) => Ok(bill),
        Err(reason) => Err(fault_of(fault.get(), reason)),
    }
}

// Why a book has no bill: the reason of a read that failed, if there is one.
fn fault_of(read: Option<io::Error>, reason: NotBilled) -> BookFault {
    match read {
        Some(error) => BookFault::File(error),
        None => BookFault::Text(reason),
    }
}

// Adds the bill of a file to the totals, and says whether it has one. If it has none, or ends in a line that was cut,
// standard error says so.
fn add_file<R: Files + Eprint, S: Rates + Drop>(
    rt: &R,
    alloc: Global,
    shelf: S,
    path: &str,
    totals: &mut Vec<TenantTotal>,
) -> Result<bool, AllocError> {
    match bill_file(rt, alloc, shelf, path) {
        Ok(bill) => {
            if let Some(number) = bill.cut {
                let cut = CutLine { path, number };
                let _ = eprintln!(rt; "{cut}");
            }
            let added = add_rows(totals, bill.rows.as_slice());
            drop(bill);
            added?;
            Ok(true)
        }
        Err(fault) => {
            // The status says so even if standard error takes no text.
            let line = FaultLine { path, fault };
            let _ = eprintln!(rt; "{line}");
            Ok(false)
        }
    }
}

// Adds the bill of each file to the totals, and says whether all of them have one.
fn add_files<R: Files + Eprint, S: Rates + Copy + Drop>(
    rt: &R,
    alloc: Global,
    shelf: S,
    paths: &[&str],
    totals: &mut Vec<TenantTotal>,
) -> Result<bool, AllocError> {
    let mut is_whole = true;
    for path in paths {
        if !add_file(rt, alloc, shelf, path, totals)? {
            is_whole = false;
        }
    }
    Ok(is_whole)
}

/// Prints the bill of these books, under these tariffs, summed by tenant. If one of them has none, nothing is printed,
/// and standard error has a line for each such book.
pub fn print_bill<R: Files + Print + Eprint, S: Rates + Copy + Drop>(
    rt: &R,
    alloc: Global,
    shelf: S,
    billing: &Billing<'_, '_>,
) -> Result<(), NotShown> {
    let mut totals = Vec::new(alloc);
    let Ok(is_whole) = add_files(rt, alloc, shelf, billing.paths, &mut totals) else {
        return Err(NotShown::NoMemory);
    };
    if !is_whole {
        return Err(NotShown::Book);
    }
    let books = billing.paths.len() as u64;
    let Ok(text) = shown(alloc, billing.form, books, totals.as_slice()) else {
        return Err(NotShown::NoMemory);
    };
    let mut output = PatientWriter(PlainWriter(io::writer(rt)));
    match put(&mut output, text.as_slice()) {
        Ok(()) => Ok(()),
        Err(_) => Err(NotShown::Output),
    }
}
