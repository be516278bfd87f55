//! Text that is put together before it is written.
ghost use Rattle.std.specs.Prelude.{◌≡◌, ◌≤◌, ◌+◌, ◌++◌, [], length, decimal};

use arrayvec::ArrayVec;
use itoa::Buffer;
use std::marker::Model;

/// The room for one row. The longest has fewer bytes.
pub(crate) const ROOM: usize = 1024;

/// The most digits that the decimal of a number has.
pub(crate) const MAX_DIGITS: usize = 20;

/// A text of at most 1024 bytes, which takes no memory. A contract sees it as its bytes.
#[derive(Drop)]
pub struct ShortText {
    bytes: ArrayVec<u8, ROOM>,
}

impl Model for ShortText {
    ghost use Rattle.std.specs.Prelude.{ℕ, List};

    ghost Value = { List ℕ };

    ghost view = { λ text. text.bytes.items };
}

impl ShortText {
    /// A text of no bytes.
    pub(crate) fn new() -> ShortText
        ensures { result ≡ [] }
    {
        ShortText {
            bytes: ArrayVec::new(),
        }
    }

    /// Its bytes.
    pub fn as_bytes(&self) -> &[u8]
        ensures { result.now ≡ self.now }
    {
        self.bytes.as_slice()
    }

    /// Adds bytes at the end.
    pub(crate) fn push(&mut self, bytes: &[u8])
        requires { length self.old + length bytes.now ≤ ROOM }
        ensures bytes { self.new ≡ self.old ++ bytes.now }
        ensures long { length self.new ≡ length self.old + length bytes.now }
    {
        if self.bytes.try_extend_from_slice(bytes).is_err() {
            unreachable!();
        }
    }

    /// Adds the decimal of a number at the end.
    pub(crate) fn push_number(&mut self, number: u64)
        requires { length self.old + MAX_DIGITS ≤ ROOM }
        ensures bytes { self.new ≡ self.old ++ decimal number }
        ensures few { length self.new ≤ length self.old + MAX_DIGITS }
    {
        let mut digits = Buffer::new();
        self.push(digits.format(number).as_bytes());
    }
}
