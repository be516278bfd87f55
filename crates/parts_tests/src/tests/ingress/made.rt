//! Readers, queues and offers that the tests of the ingress side use.
ghost use Rattle.std.specs.Prelude.{◌≡◌};

use crate::readers::RECORD;
use crate::tests::assertions::holds;
use share_base::{Name, Parcel};
use share_ingress::{Ended, IngressEnd, IngressReader, Intake, Next, Offered, queue};
use share_model::{Got, ScriptedReader, TellingReader};
use std::alloc::Global;
use std::process::Abort;
use std::sync::atomic::AtomicU64;
use std::sync::{Arc, Wait};

/// More reads, items and bytes than any stream here has but a flood.
pub(super) const MANY: usize = 1000000;

/// A reader of the records of these bytes.
pub(super) fn reader<R: TellingReader + Drop>(
    rt: &impl Abort,
    alloc: Global,
    bytes: R,
    bound: u64,
) -> IngressReader<R> {
    IngressReader::new(alloc, bytes, bound)
        .ok()
        .expect(rt, "a reader")
}

/// Bytes that come one a read. A read fails in place of the byte at a place, and may be interrupted before each.
pub(super) fn bytewise<'a>(
    rt: &impl Abort,
    alloc: Global,
    bytes: &'a [u8],
    failing: usize,
    is_interrupted: bool,
) -> ScriptedReader<'a> {
    let read: &[Got] = if is_interrupted {
        &[Got::Interrupted, Got::Bytes(1)]
    } else {
        &[Got::Bytes(1)]
    };
    let mut reads = read
        .repeat(alloc, failing.min(bytes.len()))
        .expect(rt, "memory");
    if failing <= bytes.len() {
        holds(rt, "memory", reads.push(Got::Failed).is_ok());
    }
    ScriptedReader::new(reads, bytes)
}

/// The bytes of one record, in one read, with a reader that takes no memory.
pub(super) fn one_record(alloc: Global) -> ScriptedReader<'static> {
    ScriptedReader::new(Vec::new(alloc), &RECORD)
}

/// The number of items that a reader gives, and how it ends.
pub(super) fn count<R: TellingReader>(reader: &mut IngressReader<R>) -> (usize, Ended) {
    for items in 0..MANY {
        match reader.next() {
            Next::Item { .. } => (),
            Next::Ended(ended) => return (items, ended),
        }
    }
    (MANY, Ended::Bound)
}

/// A queue with one end.
pub(super) fn one_end(rt: &impl Abort, alloc: Global, capacity: usize) -> (Intake, IngressEnd) {
    let (intake, mut ends) = queue(alloc, capacity, 1).expect(rt, "a queue");
    let end = ends.pop().expect(rt, "an end");
    drop(ends);
    (intake, end)
}

/// The number of an offer of one byte for the flow a; 0 if it came back.
pub(super) fn offered<T: Wait>(
    rt: &T,
    alloc: Global,
    end: &mut IngressEnd,
    payload: u8,
) -> Option<u64>
    ensures { end.new.link ≡ end.old.link }
{
    let name = Name::read(b"a")?;
    let parcel = Parcel::new(alloc, &[payload]).ok()?;
    match end.offer(rt, name, parcel) {
        Offered::Queued(n) => Some(n),
        Offered::Full(back) => {
            let (sending, _audit) = back.split();
            if sending.as_slice() == [payload].as_slice() {
                Some(0)
            } else {
                None
            }
        }
    }
}

/// Takes the offer in front: its worker, its number, and the first byte of its payload.
pub(super) fn taken<T: Wait>(rt: &T, intake: &mut Intake) -> Option<(u64, u64, u8)>
    ensures { intake.new.link ≡ intake.old.link }
{
    let offer = intake.take(rt)?;
    let (sending, _audit) = offer.parcel.split();
    let first = *sending.as_slice().first()?;
    Some((offer.worker, offer.n, first))
}

/// A word that threads share.
pub(super) fn word(rt: &impl Abort, alloc: Global) -> Arc<AtomicU64> {
    Arc::new(alloc, AtomicU64::new(0)).ok().expect(rt, "memory")
}

/// One more owner of a word.
pub(super) fn shared(rt: &impl Abort, word: &Arc<AtomicU64>) -> Arc<AtomicU64> {
    Arc::try_clone(word).ok().expect(rt, "a word")
}
