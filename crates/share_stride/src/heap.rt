//! A heap of the clients that compete.
ghost use Rattle.std.specs.Prelude.{◌≡◌, ◌<◌, Some, None, IsSome, IfOk, length, replicate, slice_set};
ghost use Rattle.share_stride.specs.Heap.{standing_under, IsFirstStanding};

use crate::seating::{HeapEntry, Seating};
use std::alloc::{AllocError, Global};
use std::marker::Model;

/// The clients that compete, by pass and flow number. A contract sees the entry of each key, if it has one.
#[derive(Drop)]
pub(crate) struct Heap {
    seating: Seating,
    count: usize,
}

impl Model for Heap {
    ghost use Rattle.share_stride.specs.Heap.{Standings, coded_standings, standings_of, IsHeap};

    ghost Value = { Standings };

    ghost coded = { coded_standings };

    ghost view = { λ heap. standings_of heap.count heap.seating.entries.items heap.seating.seats.items };

    ghost invariant = { λ heap. IsHeap heap.count heap.seating.entries.items heap.seating.seats.items };
}

impl Heap {
    /// An empty heap for this many keys. An error if the memory for these was refused.
    pub(crate) fn new(alloc: Global, keys: usize) -> Result<Heap, AllocError>
        ensures { IfOk result (λ heap. heap ≡ replicate keys None) }
    {
        Ok(Heap {
            seating: Seating::new(alloc, keys)?,
            count: 0,
        })
    }

    /// The first entry.
    pub(crate) fn first(&self) -> Option<HeapEntry>
        ensures { IsFirstStanding self.now result }
    {
        if self.count == 0 {
            None
        } else {
            Some(self.seating.entries[0])
        }
    }

    /// Adds an entry, whose key has none.
    pub(crate) fn enter(&mut self, entry: HeapEntry)
        requires key { entry.key < length self.old }
        requires out { standing_under self.old entry.key ≡ None }
        ensures { self.new ≡ slice_set self.old entry.key (Some entry) }
    {
        let seat = self.seating.seats[entry.key];
        let last = self.count;
        self.seating.swap(seat, last);
        self.count = last + 1;
        self.seating.sift(entry, last, last + 1);
    }

    /// Replaces the entry of a key.
    pub(crate) fn shift(&mut self, entry: HeapEntry)
        requires { IsSome (standing_under self.old entry.key) }
        ensures { self.new ≡ slice_set self.old entry.key (Some entry) }
    {
        let seat = self.seating.seats[entry.key];
        self.seating.sift(entry, seat, self.count);
    }

    /// Takes out the entry of a key.
    pub(crate) fn leave(&mut self, key: usize)
        requires { IsSome (standing_under self.old key) }
        ensures { self.new ≡ slice_set self.old key None }
    {
        let seat = self.seating.seats[key];
        let last = self.count - 1;
        self.seating.swap(seat, last);
        self.count = last;
        self.seating.resift(seat, last);
    }
}
