//! A queue of bytes.
ghost use Rattle.std.specs.Prelude.{◌≡◌, ◌≤◌, ◌+◌, ◌-◌, [], ◌++◌, drop, length, slice_range, IfOk, vec_capacity};

use std::alloc::{AllocError, Global};
use std::marker::Model;

/// Bytes that come in at the back and leave at the front, and are always in one slice. Its memory is made once. Bytes
/// that are in it are moved only if the room after them is too small for those that come in.
#[derive(Drop)]
pub(crate) struct ByteQueue {
    bytes: Vec<u8>,
    // The bytes that were given last are those from `given` to `start`.
    given: usize,
    // Those before this place have left.
    start: usize,
    most: usize,
}

impl Model for ByteQueue {
    ghost use Rattle.std.specs.Prelude.{◌≤◌, ◌-◌, take, drop, length, vec_capacity};
    ghost use Rattle.share_gateway.specs.ByteQueue.{ByteQueueView};

    ghost Value = { ByteQueueView };

    ghost view = { λ q. record {
      bytes = drop q.start q.bytes.items;
      given = take (q.start - q.given) (drop q.given q.bytes.items);
      most = q.most;
    } };

    ghost invariant = { λ q.
        (q.given ≤ q.start)
        × (q.start ≤ length q.bytes.items)
        × (length (drop q.start q.bytes.items) ≤ q.most)
        × (q.most ≤ vec_capacity q.bytes) };
}

impl ByteQueue {
    /// An empty queue of at most `most` bytes, in memory for `size` bytes.
    pub fn new(alloc: Global, most: usize, size: usize) -> Result<ByteQueue, AllocError>
        requires { most ≤ size }
        ensures { IfOk result (λ q. q ≡ record { bytes = []; given = []; most = most }) }
    {
        Ok(ByteQueue {
            bytes: Vec::with_capacity(alloc, size)?,
            given: 0,
            start: 0,
            most,
        })
    }

    /// The number of bytes in it.
    pub fn len(&self) -> usize
        ensures { result ≡ length self.now.bytes }
    {
        self.bytes.len() - self.start
    }

    /// The number of bytes more that have room.
    pub fn room(&self) -> usize
        ensures { result ≡ self.now.most - length self.now.bytes }
    {
        self.most - self.len()
    }

    /// The bytes that are in it.
    pub fn as_slice(&self) -> &[u8]
        ensures { result.now ≡ self.now.bytes }
    {
        &self.bytes.as_slice()[self.start..]
    }

    /// The bytes that were given last.
    pub fn given(&self) -> &[u8]
        ensures { result.now ≡ self.now.given }
    {
        &self.bytes.as_slice()[self.given..self.start]
    }

    /// Puts bytes, for which there is room, at the back. The bytes that were given last are not given again.
    pub fn push(&mut self, piece: &[u8])
        requires { length self.old.bytes + length piece.now ≤ self.old.most }
        ensures { self.new ≡ record self.old { bytes = self.old.bytes ++ piece.now; given = [] } }
    {
        let is_empty = self.start == self.bytes.len();
        if is_empty || self.bytes.capacity() - self.bytes.len() < piece.len() {
            move_to_front(&mut self.bytes, self.start);
            self.start = 0;
        }
        self.given = self.start;
        match self.bytes.extend_from_slice(piece) {
            Ok(()) => (),
            Err(_) => unreachable!(),
        }
    }

    /// Gives the bytes from the place `from` to the place `to`, and takes those before them away.
    pub fn give(&mut self, from: usize, to: usize)
        requires { (from ≤ to) × (to ≤ length self.old.bytes) }
        ensures { self.new
            ≡ record self.old { bytes = drop to self.old.bytes; given = slice_range self.old.bytes from to } }
    {
        self.given = self.start + from;
        self.start += to;
    }
}

// Takes the bytes before a place away.
fn move_to_front(bytes: &mut Vec<u8>, start: usize)
    requires { start ≤ length bytes.old.items }
    ensures items { bytes.new.items ≡ drop start bytes.old.items }
    ensures capacity { vec_capacity bytes.new ≡ vec_capacity bytes.old }
{
    let len = bytes.len();
    bytes.copy_within(start..len, 0);
    bytes.truncate(len - start);
}
