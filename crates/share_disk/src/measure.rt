//! The length of the whole lines of a file, and its digest.
ghost use Rattle.std.specs.Prelude.{◌≤◌, IfOk};

use sha2::{Digest as Hasher, Sha256};
use share_catalog::{Digest, whole_lines};
use std::fs::File;
use std::io;
use std::io::{ErrorKind, Read, Seek, SeekFrom};

/// The number of bytes read at a time.
const PIECE: usize = 65536;

/// The length of the whole lines of a file in bytes, from its beginning on.
pub(crate) fn whole_length(file: &mut File) -> io::Result<u64> {
    file.seek(SeekFrom::Start(0))?;
    let mut piece = [0u8; PIECE];
    let mut whole = 0;
    let mut passed: u64 = 0;
    for _ in 0..u64::MAX {
        let count = read_piece(file, &mut piece)?;
        if count == 0 {
            break;
        }
        let lines = whole_lines(&piece[..count]);
        if lines > 0 {
            whole = passed.saturating_add(lines as u64);
        }
        passed = passed.saturating_add(count as u64);
    }
    Ok(whole)
}

/// The digest of a file, from its beginning on.
pub(crate) fn digest_of(file: &mut File) -> io::Result<Digest> {
    file.seek(SeekFrom::Start(0))?;
    let mut piece = [0u8; PIECE];
    let mut hasher = Sha256::new();
    for _ in 0..u64::MAX {
        let count = read_piece(file, &mut piece)?;
        if count == 0 {
            break;
        }
        hasher.update(&piece[..count]);
    }
    Ok(Digest::of_bytes(hasher.finalize()))
}

// Reads the next bytes, again if a signal interrupts the call.
fn read_piece(file: &mut File, piece: &mut [u8; PIECE]) -> io::Result<usize>
    ensures { IfOk result (λ count. count ≤ PIECE) }
{
    for _ in 0..u64::MAX {
        match file.read(piece.as_mut_slice()) {
            Ok(count) => return Ok(count),
            Err(fault) if fault.kind() == ErrorKind::Interrupted => (),
            Err(fault) => return Err(fault),
        }
    }
    Err(io::Error::from(ErrorKind::Interrupted))
}
