//! The rows of `books.csv`.

use crate::files::open_if_there;
use crate::folder::Folder;
use crate::measure::whole_length;
use share_archive::RowState;
use share_catalog::{Row, header_line, read_row, row_line};
use std::alloc::Global;
use std::fs::{File, Files, OpenOptions};
use std::io;
use std::io::{BufRead, BufReader, Write};

/// The name of the file of the rows.
const NAME: &str = "books.csv";

/// Why the rows were not read.
#[derive(Clone, Copy, Debug)]
pub(crate) enum NotRead {
    /// A call of the system failed, or memory was refused.
    Failed(io::Error),
    /// The line of this number, counted from 1, is neither the names of the columns nor a row.
    Line(u64),
}

impl From<io::Error> for NotRead {
    fn from(fault: io::Error) -> NotRead {
        NotRead::Failed(fault)
    }
}

// The kind of the next line of the file.
#[derive(Clone, Copy, Debug, PartialEq, Eq)]
enum Line {
    Whole,
    // A last line without its line feed.
    Cut,
    // No line.
    End,
}

/// `books.csv`, read line by line. One line is in memory, so that a close takes no more memory after many books.
#[derive(Drop)]
pub(crate) struct BooksCsv {
    // `None` if there is no file: then there are no lines.
    reader: Option<BufReader<File>>,
    // The last line that was read, without its line feed.
    line: Vec<u8>,
}

impl BooksCsv {
    /// Opens the file. A file that is not there has no rows.
    pub(crate) fn open<R: Files<File = File>>(
        rt: &R,
        alloc: Global,
        folder: &Folder,
    ) -> io::Result<BooksCsv> {
        let path = folder.path_to(alloc, NAME)?;
        let reader = match open_if_there(rt, path.as_str())? {
            Some(file) => Some(BufReader::new(alloc, file)?),
            None => None,
        };
        Ok(BooksCsv {
            reader,
            line: Vec::new(alloc),
        })
    }

    // Reads the next line.
    fn read_line(&mut self) -> io::Result<Line> {
        self.line.clear();
        let Some(reader) = &mut self.reader else {
            return Ok(Line::End);
        };
        if reader.read_until(b'\n', &mut self.line)? == 0 {
            return Ok(Line::End);
        }
        if self.line.as_slice().ends_with(b"\n") {
            let _ = self.line.pop();
            Ok(Line::Whole)
        } else {
            Ok(Line::Cut)
        }
    }

    // The row of the last line that was read, if it is one.
    fn row(&self) -> Option<Row> {
        read_row(self.line.as_slice()).ok()
    }

    // Whether the last line that was read has the names of the columns.
    fn is_header(&self) -> bool {
        let header = header_line();
        self.line.as_slice() == &header[..header.len() - 1]
    }

    /// The numbers of its books, in order of their rows. A cut last line is left out.
    pub(crate) fn numbers(self, alloc: Global) -> Result<Vec<u64>, NotRead> {
        let mut csv = self;
        let mut numbers = Vec::new(alloc);
        for line in 1..u64::MAX {
            if csv.read_line()? != Line::Whole {
                return Ok(numbers);
            }
            match csv.row() {
                Some(row) if line > 1 => numbers.push(row.book).map_err(io::Error::from)?,
                None if line == 1 && csv.is_header() => (),
                _ => return Err(NotRead::Line(line)),
            }
        }
        Ok(numbers)
    }

    /// The row of a book, if there is one.
    pub(crate) fn row_of(self, number: u64) -> io::Result<Option<Row>> {
        let mut csv = self;
        for _ in 0..u64::MAX {
            if csv.read_line()? != Line::Whole {
                return Ok(None);
            }
            if let Some(row) = csv.row() {
                if row.book == number {
                    return Ok(Some(row));
                }
            }
        }
        Ok(None)
    }

    /// Whether the file has the row of a book, or a last line that is cut.
    pub(crate) fn row_state(self, number: u64) -> io::Result<RowState> {
        let mut csv = self;
        let mut state = RowState::Missing;
        for _ in 0..u64::MAX {
            match csv.read_line()? {
                Line::Whole => {
                    if csv.row().is_some_and(|row| row.book == number) {
                        state = RowState::Whole;
                    }
                }
                Line::Cut => return Ok(RowState::Cut),
                Line::End => return Ok(state),
            }
        }
        Ok(state)
    }
}

/// Whether the last line has no line feed.
pub(crate) fn is_cut<R: Files<File = File>>(
    rt: &R,
    alloc: Global,
    folder: &Folder,
) -> io::Result<bool> {
    let path = folder.path_to(alloc, NAME)?;
    match open_if_there(rt, path.as_str())? {
        None => Ok(false),
        Some(file) => {
            let mut file = file;
            Ok(whole_length(&mut file)? < file.metadata()?.len())
        }
    }
}

/// Cuts off the last line if it has no line feed.
pub(crate) fn cut_row<R: Files<File = File>>(
    rt: &R,
    alloc: Global,
    folder: &Folder,
) -> io::Result<()> {
    let path = folder.path_to(alloc, NAME)?;
    let mut file = OpenOptions::new()
        .read(true)
        .write(true)
        .open(rt, path.as_str())?;
    let whole = whole_length(&mut file)?;
    file.set_len(whole)?;
    file.sync_all()
}

/// Appends a row, after the names of the columns if it is the first one.
pub(crate) fn append_row<R: Files<File = File>>(
    rt: &R,
    alloc: Global,
    folder: &Folder,
    row: &Row,
) -> io::Result<()> {
    let path = folder.path_to(alloc, NAME)?;
    let mut file = OpenOptions::new()
        .append(true)
        .create(true)
        .open(rt, path.as_str())?;
    let mut lines = Vec::new(alloc);
    if file.metadata()?.len() == 0 {
        lines.extend_from_slice(header_line())?;
    }
    lines.extend_from_slice(row_line(row).as_bytes())?;
    file.write_all(lines.as_slice())?;
    file.sync_all()?;
    folder.sync()
}
