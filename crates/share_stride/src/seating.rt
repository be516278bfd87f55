//! The seats of a heap.
ghost use Rattle.std.specs.Prelude.{◌≡◌, ◌+◌, ◌*◌, ◌<◌, ◌≤◌, ◌↔◌, IsTrue, IfSome, IfNone, IfOk, length, slice_set};
ghost use Rattle.share_stride.specs.Seating.{IsBefore, entry_in_seat, IsLifted, RisesPast, SinksPast, IsFirstBelow};
ghost use Rattle.share_stride.specs.Seating.{FitsAbove, FitsBelow, IsOpen, IsOrdered, IsSeated};
ghost use Rattle.share_stride.specs.Seating.{HoleRises, HoleSinks, Sifts, Swaps, Resifts};

use share_base::FlowNo;
use std::alloc::{AllocError, Global};

/// A client that may compete: its pass, its flow, and its key in the table.
#[derive(Clone, Copy, Debug)]
pub(crate) struct HeapEntry {
    pub(crate) pass: i128,
    pub(crate) flow: FlowNo,
    pub(crate) key: usize,
}

impl HeapEntry {
    fn is_before(&self, other: &HeapEntry) -> bool
        ensures { IsTrue result ↔ IsBefore self.now other.now }
    {
        // Without branches: which pass is the lesser cannot be predicted.
        (self.pass < other.pass) | ((self.pass == other.pass) & (self.flow < other.flow))
    }
}

/// Entries by seat, and the seat of each key. The first seats, as many as the heap counts, are those of the heap.
#[derive(Drop)]
pub(crate) struct Seating {
    pub(crate) entries: Vec<HeapEntry>,
    pub(crate) seats: Vec<usize>,
}

impl Seating {
    /// Seats for this many keys. An error if the memory for these was refused.
    pub(crate) fn new(alloc: Global, keys: usize) -> Result<Seating, AllocError>
        ensures seated { IfOk result (λ s. IsSeated s.entries.items s.seats.items) }
        ensures long { IfOk result (λ s. length s.entries.items ≡ keys) }
    {
        let mut entries = Vec::with_capacity(alloc, keys)?;
        let mut seats = Vec::with_capacity(alloc, keys)?;
        for key in 0..keys {
            entries.push(HeapEntry {
                pass: 0,
                flow: FlowNo(0),
                key,
            })?;
            seats.push(key)?;
        }
        Ok(Seating { entries, seats })
    }

    // Moves an entry into the open seat, which leaves its own seat open.
    fn fill(&mut self, hole: usize, from: usize)
        requires hole { hole < length self.old.entries.items }
        requires from { from < length self.old.entries.items }
        requires key { (entry_in_seat self.old.entries.items from).key < length self.old.seats.items }
        ensures entries { self.new.entries.items
            ≡ slice_set self.old.entries.items hole (entry_in_seat self.old.entries.items from) }
        ensures seats { self.new.seats.items
            ≡ slice_set self.old.seats.items (entry_in_seat self.old.entries.items from).key hole }
    {
        let moved = self.entries[from];
        let key = moved.key;
        self.entries[hole] = moved;
        self.seats[key] = hole;
    }

    // Puts an entry into a seat.
    fn place(&mut self, entry: HeapEntry, seat: usize)
        requires seat { seat < length self.old.entries.items }
        requires key { entry.key < length self.old.seats.items }
        ensures entries { self.new.entries.items ≡ slice_set self.old.entries.items seat entry }
        ensures seats { self.new.seats.items ≡ slice_set self.old.seats.items entry.key seat }
    {
        let key = entry.key;
        self.entries[seat] = entry;
        self.seats[key] = seat;
    }

    /// Exchanges the entries of two seats.
    pub(crate) fn swap(&mut self, a: usize, b: usize)
        requires seated { IsSeated self.old.entries.items self.old.seats.items }
        requires first { a < length self.old.entries.items }
        requires second { b < length self.old.entries.items }
        ensures { Swaps self.old.entries.items self.old.seats.items self.new.entries.items
            self.new.seats.items a b }
    {
        let entry = self.entries[a];
        self.fill(a, b);
        self.place(entry, b);
    }

    // The seat above the open one, if its entry is later.
    fn rising_from(&self, entry: &HeapEntry, hole: usize) -> Option<usize>
        requires { hole < length self.now.entries.items }
        ensures past { IfSome result (RisesPast self.now.entries.items hole entry.now) }
        ensures fits { IfNone result (FitsAbove self.now.entries.items hole entry.now) }
    {
        if hole == 0 {
            return None;
        }
        let parent = (hole - 1) / 2;
        if entry.is_before(&self.entries[parent]) {
            Some(parent)
        } else {
            None
        }
    }

    // The seat with the first entry, of those right below the open seat.
    fn first_below(&self, hole: usize, count: usize) -> Option<usize>
        requires { count ≤ length self.now.entries.items }
        ensures first { IfSome result (IsFirstBelow count self.now.entries.items hole) }
        ensures none { IfNone result (count ≤ hole * 2 + 1) }
    {
        if hole >= count / 2 {
            return None;
        }
        let left = 2 * hole + 1;
        let right = left + 1;
        // The comparison of the two cannot be predicted, so it is added and not branched on.
        let later = right < count && self.entries[right].is_before(&self.entries[left]);
        Some(left + usize::from(later))
    }

    // That seat, if its entry is before this one.
    fn sinking_from(&self, entry: &HeapEntry, hole: usize, count: usize) -> Option<usize>
        requires { count ≤ length self.now.entries.items }
        ensures past { IfSome result (SinksPast count self.now.entries.items hole entry.now) }
        ensures fits { IfNone result (FitsBelow count self.now.entries.items hole entry.now) }
    {
        match self.first_below(hole, count) {
            None => None,
            Some(child) => {
                if self.entries[child].is_before(entry) {
                    Some(child)
                } else {
                    None
                }
            }
        }
    }

    // Moves the open seat up until this entry is not before the one above it, and gives the open seat.
    fn rise(&mut self, entry: &HeapEntry, start: usize) -> usize
        requires { IsLifted self.old.entries.items self.old.seats.items start entry.now.key }
        ensures rises { HoleRises self.old.entries.items self.old.seats.items start self.new.entries.items
            self.new.seats.items result entry.now }
        ensures fits { FitsAbove self.new.entries.items result entry.now }
    {
        let mut hole = start;
        while let Some(from) = self.rising_from(entry, hole) {
            self.fill(hole, from);
            hole = from;
        }
        hole
    }

    // Moves the open seat down until no entry below it is before this one, and gives the open seat.
    fn sink(&mut self, entry: &HeapEntry, start: usize, count: usize) -> usize
        requires lifted { IsLifted self.old.entries.items self.old.seats.items start entry.now.key }
        requires few { count ≤ length self.old.entries.items }
        requires is_open { IsOpen count self.old.entries.items start }
        requires above { FitsAbove self.old.entries.items start entry.now }
        ensures sinks { HoleSinks count self.old.entries.items self.old.seats.items self.new.entries.items
            self.new.seats.items result entry.now }
        ensures fits { FitsBelow count self.new.entries.items result entry.now }
    {
        let mut hole = start;
        while let Some(from) = self.sinking_from(entry, hole, count) {
            self.fill(hole, from);
            hole = from;
        }
        hole
    }

    /// Puts an entry, whose seat is open, where it belongs in a heap of `count` entries.
    pub(crate) fn sift(&mut self, entry: HeapEntry, hole: usize, count: usize)
        requires lifted { IsLifted self.old.entries.items self.old.seats.items hole entry.key }
        requires few { count ≤ length self.old.entries.items }
        requires is_open { IsOpen count self.old.entries.items hole }
        ensures { Sifts count self.old.entries.items self.old.seats.items self.new.entries.items
            self.new.seats.items entry }
    {
        let seat = match self.rising_from(&entry, hole) {
            None => self.sink(&entry, hole, count),
            Some(_) => self.rise(&entry, hole),
        };
        self.place(entry, seat);
    }

    /// Moves the entry of a seat to where it belongs in a heap of `count` entries, if the seat is one of the heap.
    pub(crate) fn resift(&mut self, seat: usize, count: usize)
        requires seated { IsSeated self.old.entries.items self.old.seats.items }
        requires few { count ≤ length self.old.entries.items }
        requires inside { seat < count → IsOpen count self.old.entries.items seat }
        requires behind { count ≤ seat → IsOrdered count self.old.entries.items }
        ensures { Resifts count self.old.entries.items self.old.seats.items self.new.entries.items
            self.new.seats.items }
    {
        if seat < count {
            let entry = self.entries[seat];
            self.sift(entry, seat, count);
        }
    }
}
