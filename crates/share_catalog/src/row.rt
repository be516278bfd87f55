//! The rows of `books.csv`, one a book.
ghost use Rattle.std.specs.Prelude.{◌≡◌, ◌<◌, ◌≤◌, ◌+◌, ◌++◌, ◌∷◌, []};
ghost use Rattle.std.specs.Prelude.{ℕ, List, codes, length, MatchResult, MatchOption};
ghost use Rattle.std.specs.Prelude.{IfErr, OnErr};
ghost use Rattle.std.specs.List.{join_with_byte};
ghost use Rattle.share_catalog.specs.Pieces.{pieces_of};
ghost use Rattle.share_catalog.specs.Reads.{IsSpelledByNone, ReadsNext, Any};
ghost use Rattle.share_catalog.specs.Texts.{IsNumber, IsDigest, AreTariffs, kind_text, closing_text, tariffs_text};
ghost use Rattle.share_catalog.specs.Texts.{digest_text};
ghost use Rattle.share_catalog.specs.Times.{time_text};
ghost use Rattle.share_catalog.specs.Rows.{IsRow, AreTotals, row_text, columns, head_columns, time_columns};
ghost use Rattle.share_catalog.specs.Rows.{header_text, total_columns, ReadsRow};
ghost use Rattle.share_catalog.specs.Rows.{ReadsTotals, IsWrong};
ghost use Rattle.share_catalog.specs.declared.row.Row.{Row};

use crate::digest::Digest;
use crate::fields::Fields;
use crate::kinds::{Closing, TextKind};
use crate::number::next_number;
use crate::tariffs::{Tariffs, push_tariffs};
use crate::text::ShortText;
use crate::time::Time;

/// The figures of a book's events. A book whose text is not a run has 0 in each.
#[derive(Clone, Copy, Debug, PartialEq, Eq)]
pub struct Totals {
    pub events: u64,
    /// Frames that were written whole, and their bytes.
    pub packets: u64,
    pub bytes: u64,
    /// The clock of the link at its end.
    pub units: u64,
    /// The sum of the accounts.
    pub amount: u64,
}

/// A row: what `books.csv` says of a book.
#[derive(Drop)]
pub struct Row {
    pub book: u64,
    pub kind: TextKind,
    pub opened: Time,
    pub closed: Time,
    pub why: Closing,
    pub tariffs: Tariffs,
    pub totals: Totals,
    /// The digest of the book's text.
    pub sha256: Digest,
}

/// A column of a row, in the order of the columns.
#[derive(Clone, Copy, Debug, PartialEq, Eq)]
pub enum Column {
    Book,
    Kind,
    Opened,
    Closed,
    Why,
    Tariffs,
    Events,
    Packets,
    Bytes,
    Units,
    Amount,
    Sha256,
    /// More columns than a row has.
    End,
}

/// The first line of `books.csv`: the names of the columns, and a line feed.
pub fn header_line() -> &'static [u8]
    ensures { result.now ≡ header_text }
{
    b"book,kind,opened,closed,why,tariffs,events,packets,bytes,units,amount,sha256\n"
}

/// The line of a row: its columns with commas between them, and a line feed. It takes no memory.
pub fn row_line(row: &Row) -> ShortText
    ensures bytes { result ≡ row_text row.now ++ codes "\n" }
    ensures row { IsRow row.now }
{
    let mut text = ShortText::new();
    push_head(&mut text, row);
    text.push(b",");
    push_totals(&mut text, &row.totals);
    text.push(b",");
    text.push(row.sha256.as_bytes());
    text.push(b"\n");
    text
}

// Adds the columns up to the tariffs.
fn push_head(text: &mut ShortText, row: &Row)
    requires { text.old ≡ [] }
    ensures bytes { text.new ≡ join_with_byte 44 (head_columns row.now) }
    ensures few { length text.new ≤ 600 }
    ensures book { IsNumber row.now.book }
    ensures tariffs { AreTariffs row.now.tariffs }
{
    text.push_number(row.book);
    text.push(b",");
    text.push(row.kind.text());
    text.push(b",");
    push_times(text, row);
    text.push(b",");
    push_tariffs(text, &row.tariffs);
}

// Adds the columns of both times, and why the book was closed.
fn push_times(text: &mut ShortText, row: &Row)
    requires { length text.old ≤ 29 }
    ensures bytes { text.new ≡ text.old ++ join_with_byte 44 (time_columns row.now) }
    ensures few { length text.new ≤ length text.old + 48 }
{
    text.push(&row.opened.text());
    text.push(b",");
    text.push(&row.closed.text());
    text.push(b",");
    text.push(row.why.text());
}

// Adds the columns of the totals.
fn push_totals(text: &mut ShortText, totals: &Totals)
    requires { length text.old ≤ 601 }
    ensures bytes { text.new ≡ text.old ++ join_with_byte 44 (total_columns totals.now) }
    ensures few { length text.new ≤ length text.old + 104 }
    ensures totals { AreTotals totals.now }
{
    text.push_number(totals.events);
    text.push(b",");
    text.push_number(totals.packets);
    text.push(b",");
    text.push_number(totals.bytes);
    text.push(b",");
    text.push_number(totals.units);
    text.push(b",");
    text.push_number(totals.amount);
}

/// The row that these bytes spell, without a line feed. If they spell none, it names a column that no row has like
/// this. It takes no memory.
pub fn read_row(bytes: &[u8]) -> Result<Row, Column>
    ensures row { MatchResult result (λ row. IsRow row × (row_text row ≡ bytes.now))
        (λ _. IsSpelledByNone Row row_text IsRow bytes.now) }
    ensures column { IfErr result (λ column. IsWrong column (pieces_of 44 bytes.now)) }
{
    read_columns(bytes)
}

fn read_columns(bytes: &[u8]) -> Result<Row, Column>
    ensures { ReadsRow (pieces_of 44 bytes.now) result }
{
    let mut columns: Fields<'_, b','> = Fields::of(bytes);
    let Some(book) = next_number(&mut columns) else {
        return Err(Column::Book);
    };
    let Some(kind) = next_kind(&mut columns) else {
        return Err(Column::Kind);
    };
    let Some(opened) = next_time(&mut columns) else {
        return Err(Column::Opened);
    };
    let Some(closed) = next_time(&mut columns) else {
        return Err(Column::Closed);
    };
    let Some(why) = next_closing(&mut columns) else {
        return Err(Column::Why);
    };
    let Some(tariffs) = next_tariffs(&mut columns) else {
        return Err(Column::Tariffs);
    };
    let totals = match read_totals(&mut columns) {
        Err(column) => return Err(column),
        Ok(totals) => totals,
    };
    let Some(sha256) = next_digest(&mut columns) else {
        return Err(Column::Sha256);
    };
    if !columns.is_end() {
        return Err(Column::End);
    }
    Ok(Row {
        book,
        kind,
        opened,
        closed,
        why,
        tariffs,
        totals,
        sha256,
    })
}

fn read_totals(columns: &mut Fields<'_, b','>) -> Result<Totals, Column>
    ensures { ReadsTotals columns.old columns.new result }
{
    let Some(events) = next_number(columns) else {
        return Err(Column::Events);
    };
    let Some(packets) = next_number(columns) else {
        return Err(Column::Packets);
    };
    let Some(bytes) = next_number(columns) else {
        return Err(Column::Bytes);
    };
    let Some(units) = next_number(columns) else {
        return Err(Column::Units);
    };
    let Some(amount) = next_number(columns) else {
        return Err(Column::Amount);
    };
    Ok(Totals {
        events,
        packets,
        bytes,
        units,
        amount,
    })
}

fn next_kind(columns: &mut Fields<'_, b','>) -> Option<TextKind>
    ensures { ReadsNext kind_text Any columns.old columns.new result }
{
    TextKind::read(columns.next()?)
}

fn next_closing(columns: &mut Fields<'_, b','>) -> Option<Closing>
    ensures { ReadsNext closing_text Any columns.old columns.new result }
{
    Closing::read(columns.next()?)
}

fn next_time(columns: &mut Fields<'_, b','>) -> Option<Time>
    ensures { ReadsNext time_text Any columns.old columns.new result }
{
    Time::read(columns.next()?)
}

fn next_tariffs(columns: &mut Fields<'_, b','>) -> Option<Tariffs>
    ensures { ReadsNext tariffs_text AreTariffs columns.old columns.new result }
{
    Tariffs::read(columns.next()?)
}

fn next_digest(columns: &mut Fields<'_, b','>) -> Option<Digest>
    ensures { ReadsNext digest_text IsDigest columns.old columns.new result }
{
    Digest::read(columns.next()?)
}
