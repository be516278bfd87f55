//! The beginning of a line that a chunk left unfinished.
ghost use Rattle.std.specs.Prelude.{◌≡◌, ◌↔◌, ◌++◌, [], take, IfOk, IsTrue};

use share_text::MAX_LINE;
use std::alloc::{AllocError, Global};
use std::marker::Model;

/// One byte more than the longest line, so that a line that is too long is seen to be so.
const KEPT: usize = MAX_LINE + 1;

/// The beginning of a line, of which only the first 20481 bytes are kept. A contract sees it as these bytes.
#[derive(Drop)]
pub struct Carry {
    bytes: Vec<u8>,
}

impl Model for Carry {
    ghost use Rattle.std.specs.Prelude.{ℕ, List, length, ◌≤◌, vec_capacity};
    ghost use Rattle.share_script.specs.declared.carry.TheConstants.{KEPT};

    ghost Value = { List ℕ };

    ghost view = { λ carry. carry.bytes.items };

    ghost invariant = { λ carry. (KEPT ≤ vec_capacity carry.bytes) × (length carry.bytes.items ≤ KEPT) };
}

impl Carry {
    /// No bytes, and the room for all that are kept.
    pub fn new(alloc: Global) -> Result<Carry, AllocError>
        ensures { IfOk result (λ carry. carry ≡ []) }
    {
        Ok(Carry {
            bytes: Vec::with_capacity(alloc, KEPT)?,
        })
    }

    /// Adds bytes at the end, as far as they are kept.
    pub fn add(&mut self, piece: &[u8])
        ensures { self.new ≡ take KEPT (self.old ++ piece.now) }
    {
        let room = KEPT - self.bytes.len();
        if self
            .bytes
            .extend_from_slice(first_bytes(piece, room))
            .is_err()
        {
            unreachable!();
        }
    }

    /// Forgets the bytes.
    pub fn clear(&mut self)
        ensures { self.new ≡ [] }
    {
        self.bytes.clear();
    }

    /// Whether there are no bytes.
    pub fn is_empty(&self) -> bool
        ensures { IsTrue result ↔ (self.now ≡ []) }
    {
        self.bytes.is_empty()
    }

    /// The bytes.
    pub fn as_slice(&self) -> &[u8]
        ensures { result.now ≡ self.now }
    {
        self.bytes.as_slice()
    }
}

fn first_bytes(piece: &[u8], count: usize) -> &[u8]
    ensures { result.now ≡ take count piece.now }
{
    if piece.len() <= count {
        piece
    } else {
        &piece[..count]
    }
}
