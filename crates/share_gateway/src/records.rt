//! The records of a tenant.
ghost use Rattle.std.specs.Prelude.{◌≡◌, ◌<◌, ◌-◌, ℕ, List, [], ◌∷◌, ◌++◌, length, map, min, take};
ghost use Rattle.std.specs.Prelude.{IfOk, IfErr, None, MatchBool};
ghost use Rattle.share_base.specs.Refusal.{IsRefused};
ghost use Rattle.share_ingress.specs.Found.{NeedsMore};
ghost use Rattle.share_ingress.specs.Streams.{EndsStream};
ghost use Rattle.share_model.specs.declared.ingress.Ended.{Ended};
ghost use Rattle.share_model.specs.declared.ingress.Ended.TheVariants.{BadRecord};
ghost use Rattle.share_model.specs.ingress.Records.{IsBad, Front, IsRecords};
ghost use Rattle.share_gateway.specs.Records.{item_for, NamesOther, NamesOnly, CutsRecord, Reads};

use crate::byte_queue::ByteQueue;
use share_base::{MAX_NAME, Name, Refusal};
use share_ingress::{FRAMING, Found, first_record};
use std::alloc::Global;
use std::marker::Model;

/// The most bytes of a stream that are kept: those of the longest record, and more.
pub const RECORDS_ROOM: usize = 16384;

/// The front of the bytes of a stream.
#[derive(Clone, Copy, Debug, PartialEq, Eq)]
pub enum Cut {
    /// A record of the tenant.
    Item,
    /// No whole record.
    More,
    /// A field that is out of its range, or the name of another tenant.
    Bad,
}

/// Cuts the records of one tenant out of a stream that comes in pieces. Its memory is made once. A payload is lent
/// where it was put when its piece came. Only a part of a record that a piece ends with may be moved once more.
pub struct Records {
    name: Name,
    // The bytes that were fed and not given yet.
    bytes: ByteQueue,
}

impl Drop for Records {
    fn drop(self) {
        let Records { name: _, bytes } = self;
        drop(bytes);
    }
}

impl Model for Records {
    ghost use Rattle.std.specs.Prelude.{◌≡◌, ◌≤◌, length};
    ghost use Rattle.share_gateway.specs.Records.{RecordsView};

    ghost Value = { RecordsView };

    ghost view = { λ r. record { name = r.name; bytes = r.bytes.bytes; payload = r.bytes.given } };

    ghost invariant = { λ r. (r.bytes.most ≡ 16384) × (length r.bytes.bytes ≤ 16384) };
}

impl Records {
    /// The records for the tenant of this name, of a stream that nothing came of yet. `NoMemory` if memory is refused.
    pub fn new(alloc: Global, name: Name) -> Result<Records, Refusal>
        ensures ok { IfOk result (λ r. r ≡ record { name = name; bytes = []; payload = [] }) }
        ensures refused { IfErr result (IsRefused None) }
    {
        let bytes = ByteQueue::new(alloc, RECORDS_ROOM, RECORDS_ROOM)?;
        Ok(Records { name, bytes })
    }

    /// Takes the next piece of the stream, as far as there is room, and returns the number of its bytes that were
    /// taken.
    pub fn feed(&mut self, piece: &[u8]) -> usize
        ensures count { result ≡ min (length piece.now) (16384 - length self.old.bytes) }
        ensures bytes { self.new
            ≡ record self.old { bytes = self.old.bytes ++ take result piece.now; payload = [] } }
    {
        let count = piece.len().min(self.bytes.room());
        self.bytes.push(&piece[..count]);
        count
    }

    /// The front of the bytes. A record is taken away, and its payload is lent by `payload` until the next piece
    /// comes. `Bad` is answered as soon as the first bad field is whole, and again by each later call. After `More`
    /// most of the room is free, so the next piece is taken at least in part.
    pub fn next(&mut self) -> Cut
        ensures { CutsRecord self.old result self.new }
    {
        let bytes = self.bytes.as_slice();
        if names_other(&self.name, bytes) {
            return Cut::Bad;
        }
        match first_record(bytes) {
            Found::Bad => Cut::Bad,
            Found::Part => Cut::More,
            Found::Whole(name, size) => {
                let from = FRAMING + name.as_bytes().len();
                self.bytes.give(from, from + size);
                Cut::Item
            }
        }
    }

    /// The payload of the record that was taken last, or no bytes once more of the stream came.
    pub fn payload(&self) -> &[u8]
        ensures { result.now ≡ self.now.payload }
    {
        self.bytes.given()
    }
}

// Whether the bytes begin with a whole name that is not this one.
fn names_other(name: &Name, bytes: &[u8]) -> bool
    ensures { MatchBool result (NamesOther name.now bytes.now) (NamesOnly name.now bytes.now) }
{
    match bytes.split_first() {
        None => false,
        Some((first, rest)) => is_other(name, *first, rest),
    }
}

// The same, of the first byte and those after it.
fn is_other(name: &Name, first: u8, rest: &[u8]) -> bool
    ensures { MatchBool result (NamesOther name.now (first ∷ rest.now)) (NamesOnly name.now (first ∷ rest.now)) }
{
    let length = usize::from(first);
    if length == 0 || length > MAX_NAME || rest.len() < length {
        return false;
    }
    let is_same = &rest[..length] == name.as_bytes();
    !is_same
}

/// Laws of each stream, however it was cut into pieces. The payloads that were given are those of the first
/// records of its one reading (`streams_have_one_reading` of share_ingress). Once `More` is answered, or `Bad` for a
/// field out of its range, they are those of all its records.
pub fn streams_are_cut_into_records()
    ensures front { (name stream : List ℕ) (payloads : List (List ℕ)) (bytes : List ℕ)
        → Reads name stream payloads bytes → Front stream (map (item_for name) payloads) bytes }
    ensures more { (name stream : List ℕ) (payloads : List (List ℕ)) (bytes : List ℕ)
        → Reads name stream payloads bytes → NeedsMore bytes
        → (ended : Ended) × EndsStream ended × IsRecords stream (map (item_for name) payloads) ended }
    ensures bad { (name stream : List ℕ) (payloads : List (List ℕ)) (bytes : List ℕ)
        → Reads name stream payloads bytes → IsBad bytes
        → IsRecords stream (map (item_for name) payloads) BadRecord }
    // So after `More` there is room for a piece.
    ensures room { (bytes : List ℕ) → NeedsMore bytes → length bytes < 9019 }
{}
