//! Why a file is refused.

use share_check::Unsound;
use share_config::ConfigFault;
use std::io::Error as IoError;
use thiserror::Error;

/// Why a file is refused.
#[derive(Debug, Drop, Error)]
pub enum Refused {
    /// It could not be read.
    #[error("{0}")]
    NotRead(IoError),
    #[error("not UTF-8")]
    NotText,
    #[error("{0}")]
    Config(ConfigFault),
    /// Its plan cannot be opened.
    #[error("{0}")]
    Plan(Unsound),
}

impl Refused {
    /// The line of the fault, from 1, if it is known.
    pub fn line(&self) -> Option<usize> {
        match self {
            Refused::Config(fault) => fault.line(),
            _ => None,
        }
    }
}
