//! Why a call of the system failed.

use std::fmt;
use std::io::{Error, ErrorKind};

/// Why a call of the system failed, in the words of its kind, such as `address in use`. A fault without a kind, or one
/// that is not the system's, has a text of its own.
#[derive(Clone, Copy, Debug)]
pub struct Reason(pub Error);

impl fmt::Display for Reason {
    fn fmt<W: fmt::Write>(&self, f: &mut fmt::Formatter<W>) -> fmt::Result {
        let fault = self.0;
        let kind = fault.kind();
        if kind == ErrorKind::Uncategorized || fault.raw_os_error().is_none() {
            return write!(f, "{fault}");
        }
        write!(f, "{kind}")
    }
}
