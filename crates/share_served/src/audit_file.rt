//! The file that the audit of a run goes into.

use share_journal::Journal;
use share_model::{PatientWriter, PlainWriter};
use std::alloc::{AllocError, Global};
use std::fs::{Files, Metadata, OpenFile, OpenOptions};
use std::io::{BufWriter, Eprint, ErrorKind, Write};
use std::{fs, io};

/// The number of bytes of an audit written together.
const ROOM: usize = 65536;

/// The number of names tried for the new file.
const MOST_NAMES: u32 = 1000;

/// Keeps the audit of a journal. `kept` is what contracts know of that.
pub trait Keep {
    ghost use Rattle.std.specs.Prelude.{Bool};
    ghost use Rattle.share_journal.specs.Entries.{JournalView};

    /// Relates the keeper, the journal, and whether all of its audit was written.
    ghost kept: { Self → JournalView → Bool → Type 0 };

    /// Writes the audit, and says whether all of it was written.
    fn keep(self, journal: &Journal) -> bool
        ensures { kept self journal.now result };
}

/// A file that keeps the fault of a write call, since the writers above it only say that there was one.
#[derive(Drop)]
struct NotedFile<F> {
    file: F,
    fault: Option<io::Error>,
}

impl<F: Write> Write for NotedFile<F> {
    fn write(&mut self, buf: &[u8]) -> io::Result<usize> {
        let written = self.file.write(buf);
        match &written {
            Err(fault) if fault.kind() != ErrorKind::Interrupted => self.fault = Some(*fault),
            _ => (),
        }
        written
    }

    fn flush(&mut self) -> io::Result<()> {
        self.file.flush()
    }
}

/// The output of an audit. If the path names a regular file or nothing, the audit goes into a new file beside it, which
/// takes its name at the end. If no audit is written, that file is removed. If the path names anything else, the audit
/// goes into that.
pub struct AuditFile<'a, R: Files> {
    files: &'a R,
    path: &'a str,
    is_forced: bool,
    output: PatientWriter<PlainWriter<BufWriter<NotedFile<R::File>>>>,
    // The path of the new file, if there is one.
    beside: Option<String>,
}

impl<'a, R: Files> Drop for AuditFile<'a, R> {
    fn drop(self) {
        let AuditFile {
            files,
            path: _,
            is_forced: _,
            output,
            beside,
        } = self;
        drop(output);
        if let Some(beside) = beside {
            let _ = fs::remove_file(files, beside.as_str());
        }
    }
}

/// The file at a path. `None` if there is nothing.
pub fn found_at<R: Files>(files: &R, path: &str) -> io::Result<Option<Metadata>> {
    match fs::symlink_metadata(files, path) {
        Ok(found) => Ok(Some(found)),
        Err(fault) if fault.kind() == ErrorKind::NotFound => Ok(None),
        Err(fault) => Err(fault),
    }
}

/// Whether there is a regular file at a path, or at the end of a link there. An audit replaces it only by force.
pub fn has_file<R: Files>(files: &R, path: &str) -> bool {
    fs::metadata(files, path).is_ok_and(|found| found.is_file())
}

// The path with a dot and a number after it.
fn numbered_path(alloc: Global, path: &str, number: u32) -> Result<String, AllocError> {
    let mut name = String::new(alloc);
    write!(name, "{path}.{number}")?;
    Ok(name)
}

// Gives a file this path, at which there may be an old file only if it is to be replaced.
fn rename<R: Files>(files: &R, from: &str, path: &str, is_forced: bool) -> io::Result<()> {
    if !is_forced && found_at(files, path)?.is_some() {
        return Err(io::Error::from(ErrorKind::AlreadyExists));
    }
    fs::rename(files, from, path)
}

// Gives the new file of a whole audit this path. If that fails, standard error names the file of the audit.
fn take_name<R: Files + Eprint>(
    files: &R,
    beside: String,
    path: &str,
    is_forced: bool,
) -> io::Result<()> {
    let renamed = rename(files, beside.as_str(), path, is_forced);
    if renamed.is_err() {
        let name = beside.as_str();
        let _ = eprintln!(files; "the whole audit is in {name}");
    }
    drop(beside);
    renamed
}

impl<'a, R: Files> AuditFile<'a, R> {
    /// Opens the file of this path for an audit. Nothing of an old audit is lost by that. The audit replaces one at the
    /// end only by force.
    pub fn open(
        files: &'a R,
        alloc: Global,
        path: &'a str,
        is_forced: bool,
    ) -> io::Result<AuditFile<'a, R>> {
        match found_at(files, path)? {
            None => AuditFile::open_beside(files, alloc, path, is_forced),
            Some(found) if found.is_file() => {
                let audit = AuditFile::open_beside(files, alloc, path, is_forced)?;
                let permitted = audit.file().set_permissions(found.permissions());
                match permitted {
                    Ok(()) => Ok(audit),
                    Err(fault) => {
                        drop(audit);
                        Err(fault)
                    }
                }
            }
            Some(_) => {
                let file = OpenOptions::new().write(true).open(files, path)?;
                AuditFile::over(files, alloc, path, is_forced, file, None)
            }
        }
    }

    // Makes a new file beside this path, under the first name that is free.
    fn open_beside(
        files: &'a R,
        alloc: Global,
        path: &'a str,
        is_forced: bool,
    ) -> io::Result<AuditFile<'a, R>> {
        for number in 1..=MOST_NAMES {
            let beside = numbered_path(alloc, path, number)?;
            let opened = OpenOptions::new()
                .write(true)
                .create_new(true)
                .open(files, beside.as_str());
            match opened {
                Ok(file) => {
                    return AuditFile::over(files, alloc, path, is_forced, file, Some(beside));
                }
                Err(fault) if fault.kind() == ErrorKind::AlreadyExists => (),
                Err(fault) => return Err(fault),
            }
        }
        Err(io::Error::from(ErrorKind::AlreadyExists))
    }

    // An audit that goes into this file.
    fn over(
        files: &'a R,
        alloc: Global,
        path: &'a str,
        is_forced: bool,
        file: R::File,
        beside: Option<String>,
    ) -> io::Result<AuditFile<'a, R>> {
        let noted = NotedFile { file, fault: None };
        let buffered = match BufWriter::with_capacity(alloc, ROOM, noted) {
            Ok(buffered) => buffered,
            Err(fault) => {
                if let Some(beside) = beside {
                    let _ = fs::remove_file(files, beside.as_str());
                }
                return Err(fault);
            }
        };
        Ok(AuditFile {
            files,
            path,
            is_forced,
            output: PatientWriter(PlainWriter(buffered)),
            beside,
        })
    }

    fn file(&self) -> &R::File {
        &self.output.0.0.get_ref().file
    }

    // Writes the audit of a journal.
    fn write_out(&mut self, journal: &Journal) -> io::Result<()> {
        if journal.audit(&mut self.output).is_err() {
            let fault = self.output.0.0.get_ref().fault;
            return Err(fault.unwrap_or(io::Error::from(ErrorKind::WriteZero)));
        }
        self.output.0.0.flush()
    }

    /// Writes the audit of a journal, and gives it its name. If that fails, a regular file that was there before stays
    /// as it was. An audit that is written and cannot take its name stays in the new file, which standard error names.
    pub fn write(self, journal: &Journal) -> io::Result<()>
    where
        R: Eprint,
    {
        let mut audit = self;
        let written = audit.write_and_name(journal);
        drop(audit);
        written
    }

    // Writes the audit of a journal, and gives it its name.
    fn write_and_name(&mut self, journal: &Journal) -> io::Result<()>
    where
        R: Eprint,
    {
        if self.beside.is_none() {
            // A device or a pipe has no length.
            let _ = self.file().set_len(0);
        }
        self.write_out(journal)?;
        match self.beside.take() {
            Some(beside) => take_name(self.files, beside, self.path, self.is_forced),
            None => Ok(()),
        }
    }
}

impl<'a, R: Files + Eprint> Keep for AuditFile<'a, R> {
    ghost kept = { λ _ _ _. Unit {0} };

    fn keep(self, journal: &Journal) -> bool {
        self.write(journal).is_ok()
    }
}
