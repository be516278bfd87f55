//! Whether the books that are given are those of the rows.
ghost use Rattle.std.specs.Prelude.{◌≡◌, ◌<◌, ◌==◌, length, slice_index, take};
ghost use Rattle.std.specs.List.{list_any};
ghost use Rattle.share_catalog.specs.Billed.{is_bad_book, is_bad};
ghost use Rattle.share_verification.specs.Given.{wrong_at, IsFirstFault};

use share_catalog::{Closing, Row, first_missing};

/// The fault of a book that is given.
#[derive(Clone, Copy, Debug, PartialEq, Eq)]
pub enum WrongGiven {
    /// It is given before.
    Twice,
    /// Its row says that its text is no run.
    Bad,
}

/// Why the books that are given are not those of the rows.
#[derive(Clone, Copy, Debug, PartialEq, Eq)]
pub enum GivenFault {
    /// The book at this index is wrong.
    Wrong { index: usize, wrong: WrongGiven },
    /// The book of this number is not given.
    Missing { book: u64 },
}

/// The first fault of the books of these numbers, beside the rows: the first of them that is wrong. Otherwise it is the
/// least number from the first to the last row for which no book is given. Rows whose text is not a run are passed
/// over. `None` if there is no fault.
pub fn first_fault(rows: &[Row], given: &[u64]) -> Option<GivenFault>
    ensures { IsFirstFault rows.now given.now result }
{
    for index in 0..given.len() {
        if let Some(wrong) = wrong_at(rows, given, index) {
            return Some(GivenFault::Wrong { index, wrong });
        }
    }
    match first_missing(rows, given) {
        Some(book) => Some(GivenFault::Missing { book }),
        None => None,
    }
}

// The fault of the book at an index, if there is one.
fn wrong_at(rows: &[Row], given: &[u64], index: usize) -> Option<WrongGiven>
    requires { index < length given.now }
    ensures { result ≡ wrong_at rows.now given.now index }
{
    let number = given[index];
    if has_number(&given[..index], number) {
        return Some(WrongGiven::Twice);
    }
    if is_set_aside(rows, number) {
        return Some(WrongGiven::Bad);
    }
    None
}

fn has_number(given: &[u64], number: u64) -> bool
    ensures { result ≡ list_any (λ n. n == number) given.now }
{
    given.iter().any(|other| *other == number)
}

fn is_set_aside(rows: &[Row], number: u64) -> bool
    ensures { result ≡ list_any (is_bad_book number) rows.now }
{
    rows.iter().any(|row| is_bad_book(row, number))
}

fn is_bad_book(row: &Row, number: u64) -> bool
    ensures { result ≡ is_bad_book number row.now }
{
    row.book == number && is_bad(row)
}

/// Whether a row says that the text of its book is no run.
pub fn is_bad(row: &Row) -> bool
    ensures { result ≡ is_bad row.now.why }
{
    match row.why {
        Closing::Bad => true,
        Closing::Spent
        | Closing::Period
        | Closing::Reload
        | Closing::Rotate
        | Closing::End
        | Closing::Cut => false,
    }
}
