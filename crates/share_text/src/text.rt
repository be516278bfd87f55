//! Text that is put together before it is written.
ghost use Rattle.std.specs.Prelude.{◌≡◌, ◌≤◌, ◌+◌, ◌++◌, ℕ, List, [], length, decimal};

use arrayvec::ArrayVec;
use itoa::Buffer;
use std::marker::Model;

/// The room for any line or answer. The longest is the line of a packet, with 18022 bytes and a line feed.
pub(crate) const ROOM: usize = 18432;

/// The most digits that the decimal of a number has.
pub const MAX_DIGITS: usize = 20;

/// Text that is put together in a room of `N` bytes.
pub trait Text {
    /// Its bytes.
    ghost contents: { Self → List ℕ };

    /// The number of bytes that it has room for.
    ghost room: { ℕ };

    /// Adds a text at the end.
    fn push_str(&mut self, text: &str)
        requires { length (contents self.old) + length text.now ≤ room }
        ensures bytes { contents self.new ≡ contents self.old ++ text.now }
        ensures long { length (contents self.new) ≡ length (contents self.old) + length text.now };

    /// Adds the decimal of a number at the end: 20 bytes at most.
    fn push_number(&mut self, number: u64)
        requires { length (contents self.old) + MAX_DIGITS ≤ room }
        ensures bytes { contents self.new ≡ contents self.old ++ decimal number }
        ensures few { length (contents self.new) ≤ length (contents self.old) + MAX_DIGITS };
}

/// A text of at most `N` bytes, which takes no memory. A contract sees it as its bytes.
#[derive(Drop)]
pub struct ShortText<const N: usize> {
    bytes: ArrayVec<u8, N>,
}

impl<const N: usize> Model for ShortText<N> {
    ghost use Rattle.std.specs.Prelude.{ℕ, List};

    ghost Value = { List ℕ };

    ghost view = { λ text. text.bytes.items };
}

impl<const N: usize> ShortText<N> {
    /// A text of no bytes.
    pub(crate) fn new() -> ShortText<N>
        ensures { result ≡ [] }
    {
        ShortText {
            bytes: ArrayVec::new(),
        }
    }

    /// Its bytes.
    pub fn as_bytes(&self) -> &[u8]
        ensures { result.now ≡ self.now }
    {
        self.bytes.as_slice()
    }

    /// Adds bytes at the end.
    pub(crate) fn push(&mut self, bytes: &[u8])
        requires { length self.old + length bytes.now ≤ N }
        ensures bytes { self.new ≡ self.old ++ bytes.now }
        ensures long { length self.new ≡ length self.old + length bytes.now }
    {
        if self.bytes.try_extend_from_slice(bytes).is_err() {
            unreachable!();
        }
    }
}

impl<const N: usize> Text for ShortText<N> {
    ghost contents = { λ text. text };

    ghost room = { N };

    fn push_str(&mut self, text: &str) {
        self.push(text.as_bytes());
    }

    fn push_number(&mut self, number: u64) {
        let mut digits = Buffer::new();
        self.push(digits.format(number).as_bytes());
    }
}
