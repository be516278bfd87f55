//! The text of a book, as far as it was not drained.
ghost use Rattle.std.specs.Prelude.{◌≡◌, ◌≤◌, ◌+◌, ◌*◌, [], length, IfOk, IfErr, OnErr};
ghost use Rattle.share_model.specs.text.Lines.{hex};
ghost use Rattle.share_book.specs.Texts.{first_line, text_room, with_bytes, after_drain};

use share_script::spell;
use std::alloc::{AllocError, Global};
use std::marker::Model;

/// The number of bytes spelled at a time.
const PIECE: usize = 512;

/// The lines for packets in the text of a book.
#[derive(Clone, Copy, Debug, PartialEq, Eq)]
pub enum TextKind {
    /// Their payloads, in hexadecimal: the text is an audit.
    Whole,
    /// The lengths of their payloads in bytes.
    Lengths,
}

impl TextKind {
    /// The first line of a text, with its line feed.
    pub fn first_line(self) -> &'static str
        ensures { result.now ≡ first_line self }
    {
        match self {
            TextKind::Whole => "audit 2\n",
            TextKind::Lengths => "lengths 2\n",
        }
    }
}

/// Bytes that wait to be drained, in memory that is taken when it is made and by `reserve`. A contract sees the bytes,
/// and the number that may wait.
#[derive(Drop)]
pub struct BookText {
    bytes: Vec<u8>,
    space: usize,
}

impl Model for BookText {
    ghost use Rattle.std.specs.Prelude.{length, ◌≤◌, vec_capacity};
    ghost use Rattle.share_book.specs.Texts.{TextView};

    ghost Value = { TextView };

    ghost view = { λ text. record { bytes = text.bytes.items; space = text.space } };

    ghost invariant = { λ text. (length text.bytes.items ≤ text.space) × (text.space ≤ vec_capacity text.bytes) };
}

impl BookText {
    /// A text of no bytes, with no space for any.
    pub fn new(alloc: Global) -> BookText
        ensures { result ≡ record { bytes = []; space = 0 } }
    {
        BookText {
            bytes: Vec::new(alloc),
            space: 0,
        }
    }

    /// Makes space for this many bytes after those that wait. If memory is refused, nothing changes.
    pub fn reserve(&mut self, count: usize) -> Result<(), AllocError>
        ensures ok { IfOk result (λ _. self.new
            ≡ record self.old { space = length self.old.bytes + count }) }
        ensures refused { OnErr result (self.new ≡ self.old) }
    {
        self.bytes.reserve(count)?;
        self.space = self.bytes.len() + count;
        Ok(())
    }

    /// The number of bytes more that may wait.
    pub fn room(&self) -> usize
        ensures { result ≡ text_room self.now }
    {
        self.space - self.bytes.len()
    }

    /// Puts bytes at the end. It takes no memory.
    pub fn push(&mut self, bytes: &[u8])
        requires { length bytes.now ≤ text_room self.old }
        ensures { self.new ≡ with_bytes self.old bytes.now }
    {
        if self.bytes.extend_from_slice(bytes).is_err() {
            unreachable!();
        }
    }

    /// Puts the digits of bytes at the end: two for each, in hexadecimal. It takes no memory.
    pub fn push_hex(&mut self, bytes: &[u8])
        requires { 2 * length bytes.now ≤ text_room self.old }
        ensures { self.new ≡ with_bytes self.old (hex bytes.now) }
    {
        let mut digits = [0u8; 2 * PIECE];
        let mut at = 0;
        'pieces: while at < bytes.len() {
            let count = (bytes.len() - at).min(PIECE);
            spell(&bytes[at..at + count], &mut digits);
            self.push(&digits[..2 * count]);
            at += count;
        }
    }

    /// Forgets the first bytes. It takes no memory.
    pub fn pass(&mut self, count: usize)
        requires { count ≤ length self.old.bytes }
        ensures { self.new ≡ after_drain self.old count }
    {
        let left = self.bytes.len() - count;
        self.bytes.as_mut_slice().rotate_left(count);
        self.bytes.truncate(left);
    }

    /// The bytes.
    pub fn as_slice(&self) -> &[u8]
        ensures { result.now ≡ self.now.bytes }
    {
        self.bytes.as_slice()
    }
}
