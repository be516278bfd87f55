//! The figures of a book beside its row.
ghost use Rattle.std.specs.Prelude.{◌≡◌, ◌==◌};
ghost use Rattle.std.specs.Option.{option_copied};
ghost use Rattle.share_verification.specs.Figures.{row_of, mismatch_in};

use share_catalog::{Digest, Mismatch, Row, compare};

/// The outcome of the text of a book.
#[derive(Clone, Copy, Debug)]
pub struct BookFigures {
    /// The number of the book.
    pub book: u64,
    /// The digest of its text.
    pub sha256: Digest,
    /// The clock of the link at its end.
    pub units: u64,
    /// The sum of the accounts.
    pub amount: u64,
}

/// The row of a book. `None` if there is none.
pub fn row_of(rows: &[Row], book: u64) -> Option<&Row>
    ensures { option_copied result ≡ row_of rows.now book }
{
    rows.iter().find(|row| row.book == book)
}

/// The first figure of a book that its row has otherwise. `None` if the row has all of them, or the book has no row.
pub fn first_mismatch(rows: &[Row], figures: &BookFigures) -> Option<Mismatch>
    ensures { result ≡ mismatch_in rows.now figures.now }
{
    match row_of(rows, figures.book) {
        Some(row) => compare(row, &figures.sha256, figures.units, figures.amount),
        None => None,
    }
}
