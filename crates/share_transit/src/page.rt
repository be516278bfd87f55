//! Pages of text on their way to the disk.
ghost use Rattle.std.specs.Prelude.{◌≡◌, ◌≤◌, ◌+◌, ◌-◌, ◌++◌, [], length, IfOk};

use std::alloc::{AllocError, Global};
use std::marker::Model;

/// The number of bytes of text that a page has room for.
pub const PAGE: usize = 65536;

/// A page of text on its way to the disk. Its memory is made once. A contract sees it as its bytes.
#[derive(Drop)]
pub struct Page {
    bytes: Vec<u8>,
}

impl Model for Page {
    ghost use Rattle.std.specs.Prelude.{◌≤◌, ℕ, List, length, vec_capacity};

    ghost Value = { List ℕ };

    ghost view = { λ page. page.bytes.items };

    ghost invariant = { λ page. (length page.bytes.items ≤ 65536) × (65536 ≤ vec_capacity page.bytes) };
}

impl Page {
    /// A page of no bytes.
    pub fn new(alloc: Global) -> Result<Page, AllocError>
        ensures { IfOk result (λ page. page ≡ []) }
    {
        Ok(Page {
            bytes: Vec::with_capacity(alloc, PAGE)?,
        })
    }

    /// Its bytes.
    pub fn as_slice(&self) -> &[u8]
        ensures { result.now ≡ self.now }
    {
        self.bytes.as_slice()
    }

    /// The number of bytes more that have room.
    pub fn room(&self) -> usize
        ensures room { result ≡ PAGE - length self.now }
        ensures fits { length self.now ≤ PAGE }
    {
        PAGE - self.bytes.len()
    }

    /// Forgets its bytes, as when the disk has written them.
    pub fn clear(&mut self)
        ensures { self.new ≡ [] }
    {
        self.bytes.clear();
    }

    /// Puts bytes, for which there is room, at the end.
    pub(crate) fn push(&mut self, bytes: &[u8])
        requires { length self.old + length bytes.now ≤ PAGE }
        ensures { self.new ≡ self.old ++ bytes.now }
    {
        if self.bytes.extend_from_slice(bytes).is_err() {
            unreachable!();
        }
    }
}
