//! The replies to a reload that is refused.

use share_loading::Refused;
use share_orders::fault_text;
use std::alloc::{AllocError, Global};
use std::fmt::Display;

/// The reply that refuses a file.
pub fn refusal<D: Display>(alloc: Global, path: &str, fault: &D) -> Result<Vec<u8>, AllocError> {
    let text = format!(in alloc; "{path}: {fault}")?;
    fault_text(alloc, text.as_str())
}

/// The reply that refuses what a file has at a line, if the line is known.
pub fn refusal_at(alloc: Global, path: &str, refused: &Refused) -> Result<Vec<u8>, AllocError> {
    match refused.line() {
        None => refusal(alloc, path, refused),
        Some(line) => {
            let text = format!(in alloc; "{path}:{line}: {refused}")?;
            fault_text(alloc, text.as_str())
        }
    }
}
