//! The head of a request, as its bytes come.
ghost use Rattle.std.specs.Prelude.{◌≡◌, ℕ, [], OnErr, OnOk, take};
ghost use Rattle.share_web.specs.Heads.{is_ended, is_over, taken, with_byte};

use std::alloc::{AllocError, Global};
use std::marker::Model;

/// The most bytes of a head.
pub const MAX_HEAD: usize = 8192;

/// The bytes of a head up to its empty line, or the first `MAX_HEAD` bytes if there is none. A contract sees them.
#[derive(Drop)]
pub struct Head {
    bytes: Vec<u8>,
}

impl Model for Head {
    ghost use Rattle.std.specs.Prelude.{ℕ, List};

    ghost Value = { List ℕ };

    ghost view = { λ h. h.bytes.items };
}

impl Head {
    /// No bytes. It takes no memory.
    pub fn new(alloc: Global) -> Head
        ensures { result ≡ [] }
    {
        Head {
            bytes: Vec::new(alloc),
        }
    }

    /// Takes the bytes that came, up to the end of the head. The others are left out. If memory is refused, the first
    /// of them have been taken.
    pub fn take(&mut self, piece: &[u8]) -> Result<(), AllocError>
        ensures ok { OnOk result (self.new ≡ taken self.old piece.now) }
        ensures front { OnErr result ((count : ℕ) × (self.new ≡ taken self.old (take count piece.now))) }
    {
        'bytes: for index in 0..piece.len() {
            self.add(piece[index])?;
        }
        Ok(())
    }

    // Takes a byte, unless the head is over or memory is refused.
    fn add(&mut self, byte: u8) -> Result<(), AllocError>
        ensures ok { OnOk result (self.new ≡ with_byte self.old byte) }
        ensures kept { OnErr result (self.new ≡ self.old) }
    {
        if self.is_over() {
            return Ok(());
        }
        match self.bytes.push(byte) {
            Ok(()) => Ok(()),
            Err(_) => Err(AllocError),
        }
    }

    /// Whether no more bytes are taken.
    pub fn is_over(&self) -> bool
        ensures { result ≡ is_over self.now }
    {
        MAX_HEAD <= self.bytes.len() || is_ended(self.bytes.as_slice())
    }

    /// The bytes.
    pub fn as_bytes(&self) -> &[u8]
        ensures { result.now ≡ self.now }
    {
        self.bytes.as_slice()
    }
}

/// Whether bytes end with an empty line.
pub(crate) fn is_ended(bytes: &[u8]) -> bool
    ensures { result ≡ is_ended bytes.now }
{
    bytes.ends_with(b"\n\r\n") || bytes.ends_with(b"\n\n")
}
