//! The rows of the text of `books.csv`.
ghost use Rattle.std.specs.Prelude.{◌≡◌, ◌+◌, [], length, MatchResult};
ghost use Rattle.share_catalog.specs.declared.row.Row.{Row};
ghost use Rattle.share_verification.specs.Tables.{IsTable, IsTableFault, AreLines, IsLineFault, IsLineOf, IsWrong};
ghost use Rattle.share_verification.specs.Tables.{follows};

use crate::lines::{has_line, split_line};
use share_catalog::{Column, Row, header_line, read_row};
use std::alloc::Global;

/// The fault of a line of `books.csv`.
#[derive(Clone, Copy, Debug, PartialEq, Eq)]
pub enum WrongLine {
    /// It is the first line, and has not the names of the columns.
    Header,
    /// It is no row: no row has this column as the line has it.
    Column(Column),
    /// Its book is not above that of the row before it.
    Order,
}

/// Why a text has no rows.
#[derive(Clone, Copy, Debug, PartialEq, Eq)]
pub enum NotRows {
    /// Memory was refused.
    NoMemory,
    /// The line of this number, counted from 1, is wrong.
    Line { number: u64, wrong: WrongLine },
}

/// The rows of a text, whose books ascend. A last line without its line feed is left out. If a line is wrong, the first
/// such line is named.
pub fn read_rows(alloc: Global, text: &[u8]) -> Result<Vec<Row>, NotRows>
    ensures { MatchResult result (λ rows. IsTable text.now rows.items) (λ fault. IsTableFault text.now fault) }
{
    let mut rows = Vec::new(alloc);
    match add_table(&mut rows, text) {
        Ok(()) => Ok(rows),
        Err(fault) => {
            drop(rows);
            Err(fault)
        }
    }
}

// Adds the rows of a text.
fn add_table(rows: &mut Vec<Row>, text: &[u8]) -> Result<(), NotRows>
    requires { rows.old.items ≡ [] }
    ensures { MatchResult result (λ _. IsTable text.now rows.new.items) (λ fault. IsTableFault text.now fault) }
{
    if let Some(lines) = text.strip_prefix(header_line()) {
        return add_lines(rows, lines);
    }
    if has_line(text) {
        return Err(NotRows::Line {
            number: 1,
            wrong: WrongLine::Header,
        });
    }
    Ok(())
}

// Adds the rows of the lines after the first one.
fn add_lines(rows: &mut Vec<Row>, text: &[u8]) -> Result<(), NotRows>
    requires { rows.old.items ≡ [] }
    ensures { MatchResult result (λ _. AreLines text.now rows.new.items) (λ fault. IsLineFault text.now fault) }
{
    let mut left = text;
    while let Some((line, rest)) = split_line(left) {
        add_line(rows, line)?;
        left = rest;
    }
    Ok(())
}

// Adds the row of a line.
fn add_line(rows: &mut Vec<Row>, line: &[u8]) -> Result<(), NotRows>
    ensures { MatchResult result (λ _. IsLineOf rows.old.items line.now rows.new.items)
        (λ fault. IsWrong rows.old.items line.now fault) }
{
    match read_row(line) {
        Ok(row) => {
            if !follows(rows.as_slice(), &row) {
                drop(row);
                return Err(wrong(rows.as_slice(), WrongLine::Order));
            }
            match rows.push(row) {
                Ok(()) => Ok(()),
                Err(_) => Err(NotRows::NoMemory),
            }
        }
        Err(column) => Err(wrong(rows.as_slice(), WrongLine::Column(column))),
    }
}

// A fault of the line after these rows.
fn wrong(rows: &[Row], wrong: WrongLine) -> NotRows
    ensures { result ≡ NotRows.Line (length rows.now + 2) wrong }
{
    NotRows::Line {
        number: rows.len() as u64 + 2,
        wrong,
    }
}

// Whether a row may follow these: its book is above that of the last one.
fn follows(rows: &[Row], row: &Row) -> bool
    ensures { result ≡ follows rows.now row.now }
{
    match rows.last() {
        None => true,
        Some(last) => last.book < row.book,
    }
}
