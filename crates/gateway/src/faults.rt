//! Why the folder of the books was not opened.

use share_disk::{NotOpened, NotRecovered};
use std::io::Error as IoError;
use thiserror::Error;

/// Why the folder of the books was not opened, or its books were not recovered.
#[derive(Clone, Copy, Debug, Error)]
pub(crate) enum NoFolder {
    #[error("another gateway has this folder")]
    Locked,
    #[error("not a folder")]
    NotFolder,
    #[error("{0}")]
    Failed(IoError),
    /// The files of a book could not be recovered.
    #[error("book {number}: {fault}")]
    Book { number: u64, fault: IoError },
    /// This line of `books.csv`, counted from 1, is no row.
    #[error("books.csv:{0}: not a row")]
    Row(u64),
    #[error("no number is left for a book")]
    NoNumber,
}

impl From<NotOpened> for NoFolder {
    fn from(reason: NotOpened) -> NoFolder {
        match reason {
            NotOpened::Locked => NoFolder::Locked,
            NotOpened::NotFolder => NoFolder::NotFolder,
            NotOpened::Failed(fault) => NoFolder::Failed(fault),
        }
    }
}

impl From<NotRecovered> for NoFolder {
    fn from(reason: NotRecovered) -> NoFolder {
        match reason {
            NotRecovered::Failed(fault) => NoFolder::Failed(fault),
            NotRecovered::Book { number, fault } => NoFolder::Book { number, fault },
            NotRecovered::Line(number) => NoFolder::Row(number),
            NotRecovered::NoNumber => NoFolder::NoNumber,
        }
    }
}
