//! The files of one book, as share_archive asks for them.
ghost use Rattle.std.specs.Prelude.{◌≡◌};
ghost use Rattle.share_disk.specs.Texts.{closed_kind, text_state};

use crate::book_end::BookEnd;
use crate::books_csv::{BooksCsv, append_row, cut_row};
use crate::files::{rename_new, write_new};
use crate::folder::Folder;
use share_archive::{BookFiles, BookState, BookText, RowState, Step};
use share_catalog::{FileKind, TextKind};
use std::alloc::Global;
use std::fs::{File, Files};
use std::io::ErrorKind;
use std::{fs, io};

/// The facts about a text before its files are looked at.
#[derive(Clone, Copy, Debug, PartialEq, Eq)]
pub(crate) enum TextRead {
    /// It has no whole first line.
    Headless,
    /// It is no run.
    NoRun,
    /// It is a run.
    Run,
}

/// The files of a book in a folder.
pub(crate) struct OneBook<'r, 'f, 'e, R> {
    pub(crate) rt: &'r R,
    pub(crate) alloc: Global,
    pub(crate) folder: &'f Folder,
    pub(crate) number: u64,
    pub(crate) read: TextRead,
    /// The row of the book, if it is known.
    pub(crate) end: Option<&'e BookEnd>,
}

impl<'r, 'f, 'e, R> Drop for OneBook<'r, 'f, 'e, R> {
    fn drop(self) {
        let OneBook {
            rt: _,
            alloc: _,
            folder: _,
            number: _,
            read: _,
            end: _,
        } = self;
    }
}

impl<'r, 'f, 'e, R: Files<File = File>> BookFiles for OneBook<'r, 'f, 'e, R> {
    ghost use Rattle.std.specs.Prelude.{None};

    ghost known = { λ _. None };

    fn look(&mut self) -> io::Result<BookState> {
        let row = self.row_state()?;
        self.state_with(row)
    }

    fn make(&mut self, step: Step) -> io::Result<()> {
        match step {
            Step::CutRow => cut_row(self.rt, self.alloc, self.folder),
            Step::RemovePart => self.remove(FileKind::Part),
            Step::RemoveText => self.remove(FileKind::Open),
            Step::RemoveReport => self.remove(FileKind::Report),
            Step::RemoveTariffs => self.remove(FileKind::Tariffs),
            Step::MarkBad => self.rename_text(FileKind::Bad),
            Step::CloseText => self.close_text(),
            Step::WriteReport => self.write_report(),
            Step::AppendRow => self.append_row(),
        }
    }
}

impl<'r, 'f, 'e, R: Files<File = File>> OneBook<'r, 'f, 'e, R> {
    // Whether the book has a file of this kind.
    fn has(&self, kind: FileKind) -> io::Result<bool> {
        self.folder.has(self.rt, self.alloc, self.number, kind)
    }

    // The row of the book, as `books.csv` has it.
    fn row_state(&self) -> io::Result<RowState> {
        BooksCsv::open(self.rt, self.alloc, self.folder)?.row_state(self.number)
    }

    /// The files of the book in the folder, whose row is like this.
    pub(crate) fn state_with(&self, row: RowState) -> io::Result<BookState> {
        Ok(BookState {
            text: text_state(self.text_kind()?, self.read),
            report: self.has(FileKind::Report)?,
            part: self.has(FileKind::Part)?,
            row,
            tariffs: self.has(FileKind::Tariffs)?,
        })
    }

    /// The kind of the file of the text. `None` if there is no such file.
    pub(crate) fn text_kind(&self) -> io::Result<Option<FileKind>> {
        for kind in [
            FileKind::Open,
            FileKind::Audit,
            FileKind::Lengths,
            FileKind::Bad,
        ] {
            if self.has(kind)? {
                return Ok(Some(kind));
            }
        }
        Ok(None)
    }

    // The row of the book.
    fn end(&self) -> io::Result<&'e BookEnd> {
        match self.end {
            Some(end) => Ok(end),
            None => Err(io::Error::from(ErrorKind::InvalidData)),
        }
    }

    // Removes a file.
    fn remove(&self, kind: FileKind) -> io::Result<()> {
        let path = self.folder.path_of(self.alloc, self.number, kind)?;
        fs::remove_file(self.rt, path.as_str())?;
        self.folder.sync()
    }

    // Renames the text to a file of another kind.
    fn rename_text(&self, kind: FileKind) -> io::Result<()> {
        match self.text_kind()? {
            None => Err(io::Error::from(ErrorKind::NotFound)),
            Some(found) => self.rename(found, kind),
        }
    }

    // Renames a file to one of another kind, which is not there.
    fn rename(&self, from: FileKind, to: FileKind) -> io::Result<()> {
        let old = self.folder.path_of(self.alloc, self.number, from)?;
        let new = self.folder.path_of(self.alloc, self.number, to)?;
        rename_new(self.rt, old.as_str(), new.as_str())?;
        self.folder.sync()
    }

    fn close_text(&self) -> io::Result<()> {
        let end = self.end()?;
        self.rename_text(closed_kind(end.row.kind))
    }

    // Writes the report under another name, and renames it.
    fn write_report(&self) -> io::Result<()> {
        let end = self.end()?;
        let part = self
            .folder
            .path_of(self.alloc, self.number, FileKind::Part)?;
        write_new(self.rt, part.as_str(), end.report.as_slice())?;
        self.rename(FileKind::Part, FileKind::Report)
    }

    fn append_row(&self) -> io::Result<()> {
        let end = self.end()?;
        append_row(self.rt, self.alloc, self.folder, &end.row)
    }
}

// The text of a book, by the kind of its file and what is known of it.
fn text_state(kind: Option<FileKind>, read: TextRead) -> BookText
    ensures { result ≡ text_state kind read }
{
    let is_run = read == TextRead::Run;
    match kind {
        Some(FileKind::Open) => {
            if read == TextRead::Headless {
                BookText::Headless
            } else {
                BookText::Open { is_run }
            }
        }
        Some(FileKind::Audit) => BookText::Closed { is_run },
        Some(FileKind::Lengths) => BookText::Closed { is_run },
        Some(FileKind::Bad) => BookText::Bad,
        _ => BookText::Absent,
    }
}

// The kind of the file of a closed book's text.
fn closed_kind(kind: TextKind) -> FileKind
    ensures { result ≡ closed_kind kind }
{
    match kind {
        TextKind::Whole => FileKind::Audit,
        TextKind::Lengths => FileKind::Lengths,
    }
}
