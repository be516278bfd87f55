//! The lines that are written of a book at its close.
ghost use Rattle.std.specs.Prelude.{◌≡◌};
ghost use Rattle.share_writer.specs.Ends.{row_of};

use share_catalog::{Closing, Digest, Row, Tariffs, TextKind, Time, Totals};
use share_disk::BookEnd;

/// The lines that are written of a book at its close, but for the digest of its text.
#[derive(Drop)]
pub struct BookClose {
    pub kind: TextKind,
    pub opened: Time,
    pub closed: Time,
    pub why: Closing,
    pub tariffs: Tariffs,
    pub totals: Totals,
    pub report: Vec<u8>,
}

/// The same with the number of the book and the digest of its text.
pub(crate) fn end_of(book: u64, sha256: Digest, close: BookClose) -> BookEnd
    ensures row { result.row ≡ row_of book sha256 close }
    ensures report { result.report ≡ close.report }
{
    let BookClose {
        kind,
        opened,
        closed,
        why,
        tariffs,
        totals,
        report,
    } = close;
    let row = Row {
        book,
        kind,
        opened,
        closed,
        why,
        tariffs,
        totals,
        sha256,
    };
    BookEnd { row, report }
}
