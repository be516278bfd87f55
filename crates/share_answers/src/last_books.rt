//! The last rows of `books.csv`.

use memchr::memchr;
use share_catalog::{header_line, whole_lines};
use std::alloc::Global;
use std::fs::{File, Files};
use std::io::{ErrorKind, Read, Seek, SeekFrom};
use std::{fs, io};

/// The number of bytes at the end of the file that are looked at. A row has fewer than 700.
const TAIL: u64 = 4096;

/// The names of the columns, and the rows of the last books. A file that is not there has no rows.
pub(crate) fn last_books<R: Files<File = File>>(
    rt: &R,
    alloc: Global,
    folder: &str,
) -> io::Result<Vec<u8>> {
    let path = format!(in alloc; "{folder}/books.csv")?;
    let mut text = Vec::from_slice(alloc, header_line())?;
    let mut file = match fs::open(rt, path.as_str()) {
        Ok(file) => file,
        Err(fault) if fault.kind() == ErrorKind::NotFound => return Ok(text),
        Err(fault) => return Err(fault),
    };
    let start = file.metadata()?.len().saturating_sub(TAIL);
    file.seek(SeekFrom::Start(start))?;
    let mut tail = Vec::new(alloc);
    file.read_to_end(&mut tail)?;
    text.extend_from_slice(rows_in(tail.as_slice()))?;
    Ok(text)
}

// The rows at the end of a file. The first line is cut, or has the names of the columns. The last one may have no line
// feed yet.
fn rows_in(tail: &[u8]) -> &[u8] {
    let Some(first) = memchr(b'\n', tail) else {
        return &[];
    };
    let rows = &tail[first + 1..];
    &rows[..whole_lines(rows)]
}
