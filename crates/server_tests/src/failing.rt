//! Write calls that fail or take a part, and files whose write calls do.
ghost use Rattle.std.specs.Prelude.{◌≤◌, IfOk};

use std::alloc::Allocator;
use std::fmt::Display;
use std::fs::{Files, Metadata, OpenFile, OpenOptions, Permissions};
use std::io;
use std::io::{Eprint, Error, ErrorKind, Read, Seek, SeekFrom, Write};

/// The answer of a write call.
#[derive(Clone, Copy, Debug)]
pub enum Taken {
    /// It takes at most this many bytes.
    Most(usize),
    /// It takes nothing, and fails with an error of this kind.
    Error(ErrorKind),
}

/// The answers of write calls, in turn. Calls after them take all.
#[derive(Drop)]
pub struct Taking<'a> {
    rest: &'a [Taken],
}

impl<'a> Taking<'a> {
    pub fn new(taken: &'a [Taken]) -> Taking<'a> {
        Taking { rest: taken }
    }

    /// The number of `length` bytes that the next call takes.
    pub fn next(&mut self, length: usize) -> io::Result<usize>
        ensures { IfOk result (λ count. count ≤ length) }
    {
        let Some((taken, rest)) = self.rest.split_first() else {
            return Ok(length);
        };
        self.rest = rest;
        match taken {
            Taken::Most(count) => Ok(length.min(*count)),
            Taken::Error(kind) => Err(Error::from(*kind)),
        }
    }
}

/// The files of another runtime. To each of them write calls have these answers, and may be that none can be renamed.
#[derive(Drop)]
pub struct FailingFiles<'a, R> {
    pub files: &'a R,
    pub taken: &'static [Taken],
    pub is_renamed: bool,
}

/// A file whose write calls have the answers of a list.
#[derive(Drop)]
pub struct FailingFile<F> {
    file: F,
    taking: Taking<'static>,
}

impl<F: Read> Read for FailingFile<F> {
    fn read(&mut self, buf: &mut [u8]) -> io::Result<usize> {
        self.file.read(buf)
    }
}

impl<F: Write> Write for FailingFile<F> {
    fn write(&mut self, buf: &[u8]) -> io::Result<usize> {
        let count = self.taking.next(buf.len())?;
        self.file.write(&buf[..count])
    }

    fn flush(&mut self) -> io::Result<()> {
        self.file.flush()
    }
}

impl<F> Seek for FailingFile<F> {
    fn seek(&mut self, _to: SeekFrom) -> io::Result<u64> {
        Err(Error::from(ErrorKind::Unsupported))
    }
}

impl<F: OpenFile> OpenFile for FailingFile<F> {
    fn metadata(&self) -> io::Result<Metadata> {
        self.file.metadata()
    }

    fn set_len(&self, size: u64) -> io::Result<()> {
        self.file.set_len(size)
    }

    fn sync_all(&self) -> io::Result<()> {
        self.file.sync_all()
    }

    fn sync_data(&self) -> io::Result<()> {
        self.file.sync_data()
    }

    fn set_permissions(&self, permissions: Permissions) -> io::Result<()> {
        self.file.set_permissions(permissions)
    }
}

impl<'a, R: Files> Files for FailingFiles<'a, R> {
    type File = FailingFile<R::File>;

    type Dir = R::Dir;

    fn open_file(&self, how: &OpenOptions, path: &str) -> io::Result<FailingFile<R::File>> {
        let file = self.files.open_file(how, path)?;
        Ok(FailingFile {
            file,
            taking: Taking::new(self.taken),
        })
    }

    fn open_dir(&self, path: &str) -> io::Result<R::Dir> {
        self.files.open_dir(path)
    }

    fn metadata(&self, path: &str) -> io::Result<Metadata> {
        self.files.metadata(path)
    }

    fn symlink_metadata(&self, path: &str) -> io::Result<Metadata> {
        self.files.symlink_metadata(path)
    }

    fn copy(&self, from: &str, to: &str) -> io::Result<u64> {
        self.files.copy(from, to)
    }

    fn rename(&self, from: &str, to: &str) -> io::Result<()> {
        if self.is_renamed {
            self.files.rename(from, to)
        } else {
            Err(Error::from(ErrorKind::PermissionDenied))
        }
    }

    fn remove_file(&self, path: &str) -> io::Result<()> {
        self.files.remove_file(path)
    }

    fn create_dir(&self, path: &str) -> io::Result<()> {
        self.files.create_dir(path)
    }

    fn remove_dir(&self, path: &str) -> io::Result<()> {
        self.files.remove_dir(path)
    }

    fn remove_dir_all<B: Allocator>(&self, alloc: B, path: &str) -> io::Result<()> {
        self.files.remove_dir_all(alloc, path)
    }
}

impl<'a, R: Eprint> Eprint for FailingFiles<'a, R> {
    fn eprint<D: Display + Drop>(&self, value: D) -> io::Result<()> {
        self.files.eprint(value)
    }

    fn eprintln<D: Display + Drop>(&self, value: D) -> io::Result<()> {
        self.files.eprintln(value)
    }
}
