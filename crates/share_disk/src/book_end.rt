//! The figures of a book.

use share_catalog::Row;

/// The lines that are written of a book at its end.
#[derive(Drop)]
pub struct BookEnd {
    /// Its row. The digest is that of its text.
    pub row: Row,
    /// Its report. A book whose text is no run has none.
    pub report: Vec<u8>,
}
