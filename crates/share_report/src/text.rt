//! Text that is put together in columns before it is written.
ghost use Rattle.std.specs.Prelude.{◌≡◌, ◌≤◌, ◌+◌, ◌++◌, [], length};
ghost use Rattle.share_report.specs.Columns.{spaces, column_text, width_of};

use arrayvec::ArrayVec;
use itoa::{Buffer, Integer};
use std::marker::Model;

/// The room for a report: whatever its numbers are, it takes less.
pub(crate) const ROOM: usize = 16384;

/// The number of places that the widest column has.
pub(crate) const WIDEST: usize = 26;

/// The spaces that fill the widest column.
const SPACES: [u8; WIDEST] = [b' '; WIDEST];

/// A column of this many places. A text is at its left or at its right, and spaces fill the rest. A text that is longer
/// than its column is shown whole.
#[derive(Clone, Copy, Debug)]
pub enum Column {
    Left(usize),
    Right(usize),
}

/// A text of at most 16384 bytes, which takes no memory. A contract sees it as its bytes.
#[derive(Drop)]
pub struct ReportText {
    bytes: ArrayVec<u8, ROOM>,
}

impl Model for ReportText {
    ghost use Rattle.std.specs.Prelude.{ℕ, List};

    ghost Value = { List ℕ };

    ghost view = { λ text. text.bytes.items };
}

impl ReportText {
    /// A text of no bytes.
    pub fn new() -> ReportText
        ensures { result ≡ [] }
    {
        ReportText {
            bytes: ArrayVec::new(),
        }
    }

    /// Its bytes.
    pub fn as_bytes(&self) -> &[u8]
        ensures { result.now ≡ self.now }
    {
        self.bytes.as_slice()
    }

    /// Adds bytes at the end.
    pub fn push(&mut self, bytes: &[u8])
        requires { length self.old + length bytes.now ≤ ROOM }
        ensures bytes { self.new ≡ self.old ++ bytes.now }
        ensures long { length self.new ≡ length self.old + length bytes.now }
    {
        if self.bytes.try_extend_from_slice(bytes).is_err() {
            unreachable!();
        }
    }

    fn push_spaces(&mut self, count: usize)
        requires few { count ≤ WIDEST }
        requires room { length self.old + count ≤ ROOM }
        ensures bytes { self.new ≡ self.old ++ spaces count }
        ensures long { length self.new ≡ length self.old + count }
    {
        self.push(&SPACES[..count]);
    }

    /// Adds a text in a column of at most 26 places.
    pub fn push_column(&mut self, column: Column, text: &[u8])
        requires narrow { width_of column ≤ WIDEST }
        requires room { length self.old + length text.now + width_of column ≤ ROOM }
        ensures bytes { self.new ≡ self.old ++ column_text column text.now }
        ensures few { length self.new ≤ length self.old + length text.now + width_of column }
    {
        match column {
            Column::Left(width) => {
                self.push(text);
                self.push_spaces(width.saturating_sub(text.len()));
            }
            Column::Right(width) => {
                self.push_spaces(width.saturating_sub(text.len()));
                self.push(text);
            }
        }
    }

    /// Adds a number in a column of at most 26 places.
    pub fn push_number<I: Integer>(&mut self, column: Column, number: I)
        requires narrow { width_of column ≤ WIDEST }
        requires room { length self.old + I.MAX_STR_LEN + width_of column ≤ ROOM }
        ensures bytes { self.new ≡ self.old ++ column_text column (I.text number) }
        ensures few { length self.new ≤ length self.old + I.MAX_STR_LEN + width_of column }
    {
        let mut digits = Buffer::new();
        self.push_column(column, digits.format(number).as_bytes());
    }
}
