//! The files that are given: the numbers in their names, and what lies beside them.

use crate::faults::BookFault;
use crate::rows_file::say;
use share_billing::NotShown;
use share_catalog::{BookFile, FileKind, Row, file_name, read_file_name};
use share_verification::{GivenFault, first_fault};
use std::alloc::Global;
use std::io::{Eprint, ErrorKind};
use std::{io, str};

// The name in a path, after the last slash.
fn name_in(path: &str) -> &str {
    match path.rsplit_once('/') {
        Some((_, name)) => name,
        None => path,
    }
}

// Whether a file of this kind has a text.
fn is_text(kind: FileKind) -> bool {
    match kind {
        FileKind::Open | FileKind::Audit | FileKind::Lengths | FileKind::Bad => true,
        FileKind::Report | FileKind::Part | FileKind::Tariffs => false,
    }
}

// The number of the book whose text has this path.
fn number_in(path: &str) -> Option<u64> {
    let file = read_file_name(name_in(path).as_bytes())?;
    if is_text(file.kind) {
        Some(file.number)
    } else {
        None
    }
}

/// The path of the tariffs beside the text of a book.
pub(crate) fn tariffs_path(alloc: Global, path: &str, number: u64) -> io::Result<String> {
    let name = file_name(BookFile {
        number,
        kind: FileKind::Tariffs,
    });
    let Ok(name) = str::from_utf8(name.as_bytes()) else {
        return Err(io::Error::from(ErrorKind::InvalidFilename));
    };
    let mut beside = String::new(alloc);
    if let Some((folder, _)) = path.rsplit_once('/') {
        beside.push_str(folder)?;
        beside.push_str("/")?;
    }
    beside.push_str(name)?;
    Ok(beside)
}

// The number of the book whose text has this path. Standard error says so if there is none.
fn number_of(rt: &impl Eprint, path: &str) -> Result<u64, NotShown> {
    match number_in(path) {
        Some(number) => Ok(number),
        None => Err(say(rt, path, BookFault::Name)),
    }
}

// Adds the numbers of the books of these paths.
fn add_numbers(rt: &impl Eprint, paths: &[&str], numbers: &mut Vec<u64>) -> Result<(), NotShown> {
    for path in paths {
        let number = number_of(rt, path)?;
        if numbers.push(number).is_err() {
            return Err(NotShown::NoMemory);
        }
    }
    Ok(())
}

// Prints why the books of these paths are not those of the rows.
fn say_given(rt: &impl Eprint, rows_path: &str, paths: &[&str], fault: GivenFault) -> NotShown {
    match fault {
        GivenFault::Wrong { index, wrong } => match paths.get(index) {
            Some(path) => say(rt, path, BookFault::Given(wrong)),
            None => NotShown::Book,
        },
        GivenFault::Missing { book } => say(rt, rows_path, BookFault::Missing(book)),
    }
}

/// The numbers of the books of these paths, which are those of the rows. Otherwise standard error has the first fault.
pub(crate) fn checked_numbers(
    rt: &impl Eprint,
    alloc: Global,
    rows_path: &str,
    rows: &[Row],
    paths: &[&str],
) -> Result<Vec<u64>, NotShown> {
    let mut numbers = Vec::new(alloc);
    if let Err(reason) = add_numbers(rt, paths, &mut numbers) {
        drop(numbers);
        return Err(reason);
    }
    match first_fault(rows, numbers.as_slice()) {
        None => Ok(numbers),
        Some(fault) => {
            drop(numbers);
            Err(say_given(rt, rows_path, paths, fault))
        }
    }
}
