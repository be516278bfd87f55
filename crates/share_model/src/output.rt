//! Writes of bytes to a writer that reports what it took.
ghost use Rattle.share_model.specs.io.Printing.{WritesText};

use crate::writer::{Answer, TellingWriter};
use thiserror::Error;

/// The writer refused an offer of bytes: the offer failed, was interrupted, or no byte of it was accepted.
#[derive(Clone, Copy, Debug, PartialEq, Eq, Error)]
#[error("cannot write the text")]
pub struct Fault;

/// Writes all these bytes. It stops at the first offer that is refused: then only a beginning of the bytes is written.
pub fn put<V: TellingWriter>(output: &mut V, bytes: &[u8]) -> Result<(), Fault>
    ensures { WritesText V.told V.answers output.old output.new bytes.now result }
{
    let mut at = 0;
    while at < bytes.len() {
        match output.offer(&bytes[at..]) {
            Answer::Accepted(count) => {
                if count == 0 {
                    return Err(Fault);
                }
                at += count;
            }
            Answer::Interrupted => return Err(Fault),
            Answer::Failed => return Err(Fault),
        }
    }
    Ok(())
}
