//! The recovery of the books that a start finds.
ghost use Rattle.std.specs.Prelude.{◌≡◌};
ghost use Rattle.share_disk.specs.Texts.{is_complete};

use crate::book_end::BookEnd;
use crate::book_files::{OneBook, TextRead};
use crate::books_csv::{BooksCsv, NotRead, cut_row, is_cut};
use crate::close::{read_of, settle_files};
use crate::examine::{Examined, NoRun, examine};
use crate::folder::Folder;
use share_archive::{BookState, BookText, RowState, next_step};
use share_catalog::{FileKind, next_number, read_file_name};
use std::alloc::{AllocError, Global};
use std::fs::{File, Files};
use std::io::ErrorKind;
use std::{fs, io};

/// The outcome of the recovery of a book.
#[derive(Clone, Copy, Debug)]
pub enum Recovery {
    /// Its open text was run, and the book was closed.
    Closed,
    /// It was closed and had no report or no row, which were written.
    Completed,
    /// Its text is no run: it was set aside.
    SetAside(NoRun),
    /// Its open text had no whole first line, and was removed.
    Removed,
}

/// A book with which something was done.
#[derive(Clone, Copy, Debug)]
pub struct RecoveredBook {
    pub number: u64,
    pub recovery: Recovery,
}

/// The outcome of a recovery.
#[derive(Drop)]
pub struct Recovered {
    /// The number of the next book.
    pub next: u64,
    /// The books with which something was done, in order of their numbers.
    pub books: Vec<RecoveredBook>,
}

/// Why a folder was not recovered. A recovery may be made again.
#[derive(Clone, Copy, Debug)]
pub enum NotRecovered {
    /// A call of the system failed on the folder or on `books.csv`, or memory was refused.
    Failed(io::Error),
    /// A call of the system failed on a file of this book, or memory was refused.
    Book { number: u64, fault: io::Error },
    /// The line of `books.csv` of this number, counted from 1, is no row.
    Line(u64),
    /// No number is left for a book.
    NoNumber,
}

impl From<io::Error> for NotRecovered {
    fn from(fault: io::Error) -> NotRecovered {
        NotRecovered::Failed(fault)
    }
}

impl From<AllocError> for NotRecovered {
    fn from(refused: AllocError) -> NotRecovered {
        NotRecovered::Failed(io::Error::from(refused))
    }
}

impl From<NotRead> for NotRecovered {
    fn from(reason: NotRead) -> NotRecovered {
        match reason {
            NotRead::Failed(fault) => NotRecovered::Failed(fault),
            NotRead::Line(number) => NotRecovered::Line(number),
        }
    }
}

impl Folder {
    /// Brings each book of the folder to its final state. An open text is cut after its last line feed, run and closed.
    /// A closed book gets the report and the row that it lacks. A text that is not a run is set aside.
    pub fn recover<R: Files<File = File>>(
        &self,
        rt: &R,
        alloc: Global,
    ) -> Result<Recovered, NotRecovered> {
        if is_cut(rt, alloc, self)? {
            cut_row(rt, alloc, self)?;
        }
        let mut rows = BooksCsv::open(rt, alloc, self)?.numbers(alloc)?;
        rows.sort_unstable();
        let files = self.numbers(rt, alloc)?;
        let books = self.recover_all(rt, alloc, files.as_slice(), rows.as_slice())?;
        rows.extend_from_slice(files.as_slice())?;
        match next_number(rows.as_slice()) {
            Some(next) => Ok(Recovered { next, books }),
            None => Err(NotRecovered::NoNumber),
        }
    }

    // The numbers of the books of which the folder has files, each once and in order.
    fn numbers<R: Files<File = File>>(&self, rt: &R, alloc: Global) -> io::Result<Vec<u64>> {
        let mut numbers = Vec::new(alloc);
        for entry in fs::read_dir(&(rt, alloc), self.path())? {
            match entry {
                Ok(entry) => {
                    if let Some(file) = read_file_name(entry.file_name().as_bytes()) {
                        numbers.push(file.number)?;
                    }
                }
                // A name that is no text is the name of no book's file.
                Err(fault) if fault.kind() == ErrorKind::InvalidFilename => (),
                Err(fault) => return Err(fault),
            }
        }
        numbers.sort_unstable();
        numbers.dedup();
        Ok(numbers)
    }

    // Recovers the books of these numbers, of which some have rows.
    fn recover_all<R: Files<File = File>>(
        &self,
        rt: &R,
        alloc: Global,
        numbers: &[u64],
        rows: &[u64],
    ) -> Result<Vec<RecoveredBook>, NotRecovered> {
        let mut books = Vec::new(alloc);
        for number in numbers {
            let number = *number;
            let row = match rows.binary_search(&number) {
                Ok(_) => RowState::Whole,
                Err(_) => RowState::Missing,
            };
            match self.recover_book(rt, alloc, number, row) {
                Ok(None) => (),
                Ok(Some(recovery)) => {
                    let book = RecoveredBook { number, recovery };
                    if let Err(refused) = books.push(book) {
                        return Err(NotRecovered::from(AllocError::from(refused)));
                    }
                }
                Err(fault) => return Err(NotRecovered::Book { number, fault }),
            }
        }
        Ok(books)
    }

    // Recovers a book.
    fn recover_book<R: Files<File = File>>(
        &self,
        rt: &R,
        alloc: Global,
        number: u64,
        row: RowState,
    ) -> io::Result<Option<Recovery>> {
        let mut files = OneBook {
            rt,
            alloc,
            folder: self,
            number,
            read: TextRead::Run,
            end: None,
        };
        let state = files.state_with(row)?;
        if next_step(state).is_none() {
            return Ok(None);
        }
        match files.text_kind()? {
            Some(kind) if !is_complete(state) => recover_text(&files, kind, state.text),
            _ => {
                settle_files(&mut files)?;
                Ok(None)
            }
        }
    }
}

// Recovers a book by its text, in the file of this kind.
fn recover_text<R: Files<File = File>>(
    files: &OneBook<'_, '_, '_, R>,
    kind: FileKind,
    text: BookText,
) -> io::Result<Option<Recovery>> {
    match examine(files.rt, files.alloc, files.folder, files.number, kind)? {
        Examined::Headless => {
            settle_with(files, TextRead::Headless, None)?;
            Ok(Some(Recovery::Removed))
        }
        Examined::Text { end, fault } => {
            settle_with(files, read_of(end.row.why), Some(&end))?;
            Ok(Some(recovery_of(text, fault)))
        }
    }
}

// Makes the steps of a book of whose text this is known.
fn settle_with<R: Files<File = File>>(
    files: &OneBook<'_, '_, '_, R>,
    read: TextRead,
    end: Option<&BookEnd>,
) -> io::Result<()> {
    let mut known = OneBook {
        rt: files.rt,
        alloc: files.alloc,
        folder: files.folder,
        number: files.number,
        read,
        end,
    };
    settle_files(&mut known)
}

// Whether a book has all that is written of its text.
fn is_complete(state: BookState) -> bool
    ensures { result ≡ is_complete state }
{
    let has_row = state.row == RowState::Whole;
    match state.text {
        BookText::Absent => true,
        BookText::Headless | BookText::Open { .. } => false,
        BookText::Closed { .. } => has_row && state.report,
        BookText::Bad => has_row,
    }
}

// The outcome for a book whose text is not a run for this reason, if there is one.
fn recovery_of(text: BookText, fault: Option<NoRun>) -> Recovery {
    match fault {
        Some(fault) => Recovery::SetAside(fault),
        None => match text {
            BookText::Open { .. } => Recovery::Closed,
            _ => Recovery::Completed,
        },
    }
}
