//! Readers of records.
ghost use Rattle.std.specs.Prelude.{◌≡◌, ◌<◌, ◌+◌, [], None, Some, IfOk, IfErr, IfSome, MatchResult, MatchBool};
ghost use Rattle.share_base.specs.Refusal.{IsRefused};
ghost use Rattle.share_ingress.specs.Found.{BeginsWhole, NeedsMore};
ghost use Rattle.share_ingress.specs.declared.reader.Next.TheVariants.{Ended as Over};
ghost use Rattle.share_ingress.specs.Reader.{Answers, HasReason, EndStands, Stops, ReadsOn, EndsInput};

use crate::record::{FRAMING, Found, first_record};
use bytes::BytesMut;
use share_base::{MAX_NAME, MAX_PAYLOAD, Name, Parcel, Refusal};
use share_model::{Ended, Got, TellingReader};
use std::alloc::{AllocError, Global};
use std::marker::Model;

/// The most bytes read in one call.
const CHUNK: usize = 65536;

/// The length of the longest record in bytes.
const LONGEST: usize = FRAMING + MAX_NAME + MAX_PAYLOAD;

/// The most bytes kept before a read: a part of a record, and what was given before it. The buffer drops that once it
/// is no less than the part. So a buffer with room for these and for one read never grows.
const CARRIED: usize = 2 * LONGEST;

/// The answer of a reader.
#[derive(Drop)]
pub enum Next {
    /// The item of the next record.
    Item { name: Name, parcel: Parcel },
    /// There is no next record, for this reason.
    Ended(Ended),
}

/// A reader of records over a reader of bytes. It holds at most the bytes of one read and a part of a record.
#[derive(Drop)]
pub struct IngressReader<R: TellingReader> {
    alloc: Global,
    reader: R,
    // The bytes that were read and not given yet.
    buffered: BytesMut,
    // The buffer of one read.
    chunk: Vec<u8>,
    reads_left: u64,
    ended: Option<Ended>,
}

impl<R: TellingReader> Model for IngressReader<R> {
    ghost use Rattle.std.specs.Prelude.{◌≡◌, ◌<◌, length, Option, None, IfSome};
    ghost use Rattle.share_ingress.specs.Reader.{Reading, EndStands};

    ghost Value = { Reading R };

    ghost view = { λ r.
        record { reader = r.reader; buffered = r.buffered.items; reads_left = r.reads_left; ended = r.ended } };

    ghost invariant = { λ r. (length r.chunk.items ≡ 65536)
        × IfSome r.ended (EndStands R.gives
        (record { reader = r.reader; buffered = r.buffered.items; reads_left = r.reads_left; ended = r.ended })) };
}

impl<R: TellingReader + Drop> IngressReader<R> {
    /// A reader that makes at most this many read calls. `NoMemory` if memory for its buffers is refused; then the
    /// reader is dropped.
    pub fn new(alloc: Global, reader: R, bound: u64) -> Result<IngressReader<R>, Refusal>
        ensures ok { IfOk result
            (λ r. r ≡ record { reader = reader; buffered = []; reads_left = bound; ended = None }) }
        ensures refused { IfErr result (IsRefused None) }
    {
        let buffered = BytesMut::with_capacity(alloc, CHUNK + CARRIED)?;
        let chunk = vec![in alloc; 0u8; CHUNK]?;
        Ok(IngressReader {
            alloc,
            reader,
            buffered,
            chunk,
            reads_left: bound,
            ended: None,
        })
    }
}

impl<R: TellingReader> IngressReader<R> {
    /// The next item of the stream, or why there is none. The stream ends with `End` after a whole record or in an
    /// empty stream, and with `Cut` inside a record. It ends with `BadRecord` at a field out of its range, and with
    /// `Fault` if a read failed. It ends with `NoMemory` if memory was refused, and with `Bound` if all reads were used
    /// up and one more was needed. Once there is no next item, each further call gives the same answer, and reads
    /// nothing.
    ///
    /// A record is the length of a name in one byte, the name, the length of a payload in two bytes, big-endian, and
    /// the payload. An interrupted read is made again; each read is counted.
    pub fn next(&mut self) -> Next
        ensures again { IfSome self.old.ended (λ ended. (result ≡ Over ended) × (self.new ≡ self.old)) }
        ensures first { self.old.ended ≡ None → Answers R.gives R.left self.old result self.new }
        ensures reason { HasReason R.gives result self.new }
    {
        match self.ended {
            Some(ended) => Next::Ended(ended),
            None => self.read_on(),
        }
    }

    /// Uses up one of the reads that are left without reading. Returns false if none is left.
    pub(crate) fn turn(&mut self) -> bool
        requires { self.old.ended ≡ None }
        ensures { MatchBool result ((self.new ≡ record self.old { reads_left = self.new.reads_left })
            × (self.new.reads_left + 1 ≡ self.old.reads_left)) ((self.new ≡ self.old) × (self.old.reads_left ≡ 0)) }
    {
        if self.reads_left == 0 {
            return false;
        }
        self.reads_left -= 1;
        true
    }

    // Reads until a record is whole, or there is none.
    fn read_on(&mut self) -> Next
        requires { self.old.ended ≡ None }
        ensures { Answers R.gives R.left self.old result self.new }
    {
        'record: loop {
            match first_record(self.buffered.as_slice()) {
                Found::Whole(name, size) => return self.give(name, size),
                Found::Bad => return self.end(Ended::BadRecord),
                Found::Part => (),
            }
            if let Err(ended) = self.read() {
                return self.end(ended);
            }
        }
    }

    // Gives the item of the record in front.
    fn give(&mut self, name: Name, size: usize) -> Next
        requires still { self.old.ended ≡ None }
        requires whole { BeginsWhole self.old.buffered name size }
        ensures { Answers R.gives R.left self.old result self.new }
    {
        let start = FRAMING + name.as_bytes().len();
        match Parcel::new(self.alloc, &self.buffered.as_slice()[start..start + size]) {
            Err(_) => self.end(Ended::NoMemory),
            Ok(parcel) => {
                self.buffered.advance(start + size);
                Next::Item { name, parcel }
            }
        }
    }

    // Gives the answer of this call and of all later ones.
    fn end(&mut self, ended: Ended) -> Next
        requires { EndStands R.gives self.old ended }
        ensures answer { result ≡ Over ended }
        ensures same { self.new ≡ record self.old { ended = Some ended } }
    {
        self.ended = Some(ended);
        Next::Ended(ended)
    }

    // Makes one read.
    fn read(&mut self) -> Result<(), Ended>
        requires still { self.old.ended ≡ None }
        requires more { NeedsMore self.old.buffered }
        ensures still { self.new.ended ≡ None }
        ensures read { MatchResult result (λ _. ReadsOn R.gives R.left self.old self.new)
            (λ ended. Stops R.gives R.left self.old ended self.new) }
        ensures turn { IfOk result (λ _. self.new.reads_left < self.old.reads_left) }
    {
        if self.reads_left == 0 {
            return Err(Ended::Bound);
        }
        if self.buffered.reserve(CHUNK).is_err() {
            return Err(Ended::NoMemory);
        }
        self.reads_left -= 1;
        match self.reader.take_bytes(self.chunk.as_mut_slice()) {
            Got::Bytes(count) => {
                self.buffered.extend_reserved(&self.chunk[..count]);
                Ok(())
            }
            Got::Interrupted => Ok(()),
            Got::End => Err(end_of_input(self.buffered.as_slice())),
            Got::Failed => Err(Ended::Fault),
        }
    }
}

// The end of a stream that has nothing more to read while these bytes are buffered.
fn end_of_input(buffered: &[u8]) -> Ended
    requires { NeedsMore buffered.now }
    ensures { EndsInput buffered.now result }
{
    if buffered.is_empty() {
        Ended::End
    } else {
        Ended::Cut
    }
}
