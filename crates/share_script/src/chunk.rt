//! The bytes that one read call gave.
ghost use Rattle.std.specs.Prelude.{◌≡◌, ◌≤◌, [], drop, length, IfOk};
ghost use Rattle.share_script.specs.Lines.{ReadCall};

use share_model::{Got, TellingReader};
use std::alloc::{AllocError, Global};
use std::marker::Model;

/// The most bytes read in one call.
pub(crate) const CHUNK: usize = 65536;

/// The bytes that one read call gave and that were not taken. A contract sees it as these bytes.
#[derive(Drop)]
pub struct Chunk {
    buffer: Vec<u8>,
    at: usize,
    end: usize,
}

impl Model for Chunk {
    ghost use Rattle.std.specs.Prelude.{ℕ, List, length, take, drop, ◌<◌, ◌≤◌, ◌-◌};

    ghost Value = { List ℕ };

    ghost view = { λ chunk. take (chunk.end - chunk.at) (drop chunk.at chunk.buffer.items) };

    ghost invariant = { λ chunk. (chunk.at ≤ chunk.end) × (chunk.end ≤ length chunk.buffer.items)
        × (0 < length chunk.buffer.items) };
}

impl Chunk {
    /// No bytes, and the room for those of one read call.
    pub fn new(alloc: Global) -> Result<Chunk, AllocError>
        ensures { IfOk result (λ chunk. chunk ≡ []) }
    {
        Ok(Chunk {
            buffer: vec![in alloc; 0u8; CHUNK]?,
            at: 0,
            end: 0,
        })
    }

    /// The bytes.
    pub fn as_slice(&self) -> &[u8]
        ensures { result.now ≡ self.now }
    {
        &self.buffer[self.at..self.end]
    }

    /// Takes this many bytes.
    pub fn pass(&mut self, count: usize)
        requires { count ≤ length self.old }
        ensures { self.new ≡ drop count self.old }
    {
        self.at += count;
    }

    /// Takes all bytes.
    pub fn clear(&mut self)
        ensures { self.new ≡ [] }
    {
        self.at = self.end;
    }

    /// Makes one read call, whose bytes take the place of those that are here.
    pub fn fill<R: TellingReader>(&mut self, reader: &mut R) -> Got
        ensures { ReadCall R.left R.gives reader.old result reader.new self.new }
    {
        self.at = 0;
        self.end = 0;
        let got = reader.take_bytes(self.buffer.as_mut_slice());
        if let Got::Bytes(count) = got {
            self.end = count;
        }
        got
    }
}
