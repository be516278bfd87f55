//! The names of the files of a folder of books.
ghost use Rattle.std.specs.Prelude.{◌≡◌, ◌≤◌, length};
ghost use Rattle.share_catalog.specs.Reads.{Reads, Any};
ghost use Rattle.share_catalog.specs.Names.{ending, file_text, zeros_before, IsFile};

use crate::fields::Fields;
use crate::number::value_of;
use crate::text::ShortText;
use itoa::Buffer;

/// The fewest digits of the number in a name.
const LEAST_DIGITS: usize = 6;

/// The zeros in front of a short number.
const ZEROS: [u8; LEAST_DIGITS] = [b'0'; LEAST_DIGITS];

/// The kind of a file of a book.
#[derive(Clone, Copy, Debug, PartialEq, Eq)]
pub enum FileKind {
    /// The text of the book that is open.
    Open,
    /// The whole text of a closed book.
    Audit,
    /// The text of lengths of a closed book.
    Lengths,
    /// A text that is no run.
    Bad,
    /// The report of a closed book.
    Report,
    /// A report that is being written.
    Part,
    /// The tariffs of the book that is open.
    Tariffs,
}

/// A file: the number of its book, and what it is.
#[derive(Clone, Copy, Debug, PartialEq, Eq)]
pub struct BookFile {
    pub number: u64,
    pub kind: FileKind,
}

impl FileKind {
    /// The ending of its name, after the point.
    pub fn text(self) -> &'static [u8]
        ensures bytes { result.now ≡ ending self }
        ensures short { length result.now ≤ 7 }
    {
        match self {
            FileKind::Open => b"open",
            FileKind::Audit => b"audit",
            FileKind::Lengths => b"lengths",
            FileKind::Bad => b"bad",
            FileKind::Report => b"report",
            FileKind::Part => b"part",
            FileKind::Tariffs => b"tariffs",
        }
    }

    /// The kind with this ending. `None` if no kind has it.
    pub fn read(word: &[u8]) -> Option<FileKind>
        ensures { Reads ending Any word.now result }
    {
        if word == b"open".as_slice() {
            return Some(FileKind::Open);
        }
        if word == b"audit".as_slice() {
            return Some(FileKind::Audit);
        }
        if word == b"lengths".as_slice() {
            return Some(FileKind::Lengths);
        }
        if word == b"bad".as_slice() {
            return Some(FileKind::Bad);
        }
        if word == b"report".as_slice() {
            return Some(FileKind::Report);
        }
        if word == b"part".as_slice() {
            return Some(FileKind::Part);
        }
        if word == b"tariffs".as_slice() {
            return Some(FileKind::Tariffs);
        }
        None
    }
}

/// The name of a file: the number with at least six digits, a point, and the ending. It takes no memory.
pub fn file_name(file: BookFile) -> ShortText
    ensures name { result ≡ file_text file }
    ensures file { IsFile file }
{
    let mut buffer = Buffer::new();
    let digits = buffer.format(file.number).as_bytes();
    let mut name = ShortText::new();
    name.push(zeros(digits.len()));
    name.push(digits);
    name.push(b".");
    name.push(file.kind.text());
    name
}

// The zeros in front of that many digits.
fn zeros(count: usize) -> &'static [u8]
    ensures zeros { result.now ≡ zeros_before count }
    ensures few { length result.now ≤ 6 }
{
    &ZEROS[..LEAST_DIGITS.saturating_sub(count)]
}

/// The file with this name. `None` if it is the name of no book's file. It takes no memory.
pub fn read_file_name(name: &[u8]) -> Option<BookFile>
    ensures { Reads file_text IsFile name.now result }
{
    let mut pieces: Fields<'_, b'.'> = Fields::of(name);
    let digits = pieces.next()?;
    let number = value_of(digits)?;
    let word = pieces.next()?;
    let kind = FileKind::read(word)?;
    let file = BookFile { number, kind };
    if file_name(file).as_bytes() == name {
        Some(file)
    } else {
        None
    }
}
