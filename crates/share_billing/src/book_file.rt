//! The file of a book, which keeps why it could not be read.

use share_model::{Got, TellingReader};
use std::cell::Cell;
use std::io::{Error, ErrorKind, Read};

/// A file that is read, and where the reason goes if a read fails.
#[derive(Drop)]
pub(crate) struct BookFile<'a, F> {
    pub(crate) file: F,
    pub(crate) fault: &'a Cell<Option<Error>>,
}

impl<'a, F: Read> TellingReader for BookFile<'a, F> {
    ghost use Rattle.share_model.specs.io.Given.{Gives};

    ghost left = { λ reader. F.remaining reader.file };

    ghost gives = { λ before buffer got after.
        Gives (F.remaining before.file) buffer got (F.remaining after.file) };

    ghost tells = { λ before buffer got after given. given };

    fn take_bytes(&mut self, buffer: &mut [u8]) -> Got {
        match self.file.read(buffer) {
            Ok(0) => Got::End,
            Ok(count) => Got::Bytes(count),
            Err(error) if error.kind() == ErrorKind::Interrupted => Got::Interrupted,
            Err(error) => {
                self.fault.set(Some(error));
                Got::Failed
            }
        }
    }
}
