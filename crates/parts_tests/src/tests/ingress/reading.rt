//! Streams of records: whole, cut, out of range, and from readers that fail or interrupt.

use super::made::{MANY, bytewise, count, reader};
use crate::tests::assertions::same;
use share_base::Parcel;
use share_ingress::{Ended, IngressReader, Next};
use share_model::Ended::{BadRecord, Bound, Cut, End, Fault};
use share_model::{Got, PlainReader, ScriptedReader, TellingReader};
use std::alloc::{AllocError, Global};
use std::process::Abort;
use std::test::Fail;

/// Streams, the number of items read from each, and its end.
static STREAMS: [(&str, &[u8], usize, Ended); 11] = [
    ("empty", b"", 0, End),
    ("payload cut", b"\x01a\x00\x01a\x01a\x00\x02b", 1, Cut),
    ("no name", b"\x01a\x00\x01a\x00", 1, BadRecord),
    ("1491 bytes", b"\x01a\x00\x01a\x01a\x05\xd3", 1, Cut),
    ("9001 bytes", b"\x01a\x00\x01a\x01a\x23\x29", 1, BadRecord),
    ("large letter", b"\x01A", 0, BadRecord),
    ("name of 17 bytes", b"\x11", 0, BadRecord),
    ("no first name", b"\x00", 0, BadRecord),
    ("length cut", b"\x01a\x00", 0, Cut),
    ("no payload", b"\x01a\x00\x00", 0, BadRecord),
    ("name cut", b"\x03aB", 0, Cut),
];

/// Two records for the flow a, with the payloads `b` and `cd`.
const TWO: &[u8] = b"\x01a\x00\x01b\x01a\x00\x02cd";

/// The number of whole ones in front of each byte, and in front of the end.
static WHOLE: [usize; 12] = [0, 0, 0, 0, 0, 1, 1, 1, 1, 1, 1, 2];

// Checks the number of items that a reader of these bytes gives, its end, and that it ends so again.
fn ends<R: TellingReader + Drop>(
    rt: &impl Abort,
    alloc: Global,
    row: &str,
    bytes: R,
    bound: u64,
    wanted: (usize, Ended),
) {
    let mut reader = reader(rt, alloc, bytes, bound);
    same(rt, row, count(&mut reader), wanted);
    same(rt, row, count(&mut reader), (0, wanted.1));
    drop(reader);
}

// The same of bytes that are read as a whole, and of bytes that are read one by one.
fn ends_both_ways(rt: &impl Abort, alloc: Global, row: &str, bytes: &[u8], wanted: (usize, Ended)) {
    ends(rt, alloc, row, PlainReader(bytes), 2, wanted);
    let one_by_one = bytewise(rt, alloc, bytes, MANY, false);
    ends(rt, alloc, row, one_by_one, 20000, wanted);
}

/// A record of this name, with its length before it, and a payload of 9000 bytes.
fn longest(alloc: Global, name: &[u8]) -> Result<Vec<u8>, AllocError> {
    let mut bytes = Vec::new(alloc);
    bytes.extend_from_slice(name)?;
    bytes.extend_from_slice(&[35, 40])?;
    for at in 0..9000u64 {
        bytes.push((at % 251) as u8)?;
    }
    Ok(bytes)
}

#[test]
fn streams_end_as_their_fields_say(rt: HostRuntime) -> Result<(), Fail> {
    for &(row, bytes, items, ended) in &STREAMS {
        ends_both_ways(&rt, rt.alloc(), row, bytes, (items, ended));
    }
    let bytes = longest(rt.alloc(), b"\x10a-name_of_16byte")?;
    ends_both_ways(
        &rt,
        rt.alloc(),
        "the longest record",
        bytes.as_slice(),
        (1, End),
    );
    Ok(())
}

// Checks that a stream of two records is cut, fails and finds its bound at this byte, after the records in front of it.
fn stops_at(rt: &impl Abort, alloc: Global, at: usize, items: usize) {
    let (first, _) = TWO.split_at(at.min(TWO.len()));
    let is_whole = at == 0 || at == 5 || at == 11;
    let ended = if is_whole { End } else { Cut };
    ends_both_ways(rt, alloc, "cut", first, (items, ended));
    for &is_interrupted in &[false, true] {
        let failing = bytewise(rt, alloc, TWO, at, is_interrupted);
        ends(rt, alloc, "failing", failing, 1000, (items, Fault));
    }
    let bounded = bytewise(rt, alloc, TWO, MANY, false);
    let bound = at as u64;
    ends(rt, alloc, "bounded", bounded, bound, (items, Bound));
}

#[test]
fn a_stream_stops_at_each_byte(rt: HostRuntime) {
    for (at, items) in WHOLE.iter().enumerate() {
        stops_at(&rt, rt.alloc(), at, *items);
    }
    for &(is_interrupted, bound) in &[(false, 12), (false, 13), (true, 1000)] {
        let whole = bytewise(&rt, rt.alloc(), TWO, MANY, is_interrupted);
        ends(&rt, rt.alloc(), "whole", whole, bound, (2, End));
    }
}

// Checks that the next item is this payload for the flow a.
fn gives<R: TellingReader>(
    rt: &impl Abort,
    row: &str,
    reader: &mut IngressReader<R>,
    payload: &[u8],
) {
    match reader.next() {
        Next::Item { name, parcel } => {
            same(rt, row, name.as_bytes(), b"a".as_slice());
            has(rt, row, parcel, payload);
        }
        Next::Ended(ended) => panic!(rt; "{row}: {ended:?}"),
    }
}

// Checks that both halves of a parcel have the payload.
fn has(rt: &impl Abort, row: &str, parcel: Parcel, payload: &[u8]) {
    let (sending, audit) = parcel.split();
    same(rt, row, sending.as_slice(), payload);
    same(rt, row, audit.as_slice(), payload);
    drop(sending);
    drop(audit);
}

#[test]
fn an_item_is_the_name_and_the_payload(rt: HostRuntime) {
    let mut reader = reader(&rt, rt.alloc(), PlainReader(TWO), 10);
    gives(&rt, "first", &mut reader, b"b");
    gives(&rt, "second", &mut reader, b"cd");
    drop(reader);
}

// Checks that a record for the flow a is given if it is read in two parts. Without the second one it is cut.
fn is_read_in_parts(rt: &impl Abort, alloc: Global, record: &[u8], at: usize) {
    let reads = vec![in alloc; Got::Bytes(at)].expect(rt, "memory");
    let mut parts = reader(rt, alloc, ScriptedReader::new(reads, record), 3);
    let (_, payload) = record.split_at(4.min(record.len()));
    gives(rt, "in parts", &mut parts, payload);
    same(rt, "in parts", (at, count(&mut parts)), (at, (0, End)));
    drop(parts);
    let (first, _) = record.split_at(at.min(record.len()));
    let mut cut = reader(rt, alloc, PlainReader(first), 2);
    same(rt, "cut", (at, count(&mut cut)), (at, (0, Cut)));
    drop(cut);
}

#[test]
fn the_longest_record_is_read_in_parts(rt: HostRuntime) -> Result<(), Fail> {
    let record = longest(rt.alloc(), b"\x01a")?;
    for hundreds in 0..91 {
        for more in 1..4 {
            is_read_in_parts(&rt, rt.alloc(), record.as_slice(), hundreds * 100 + more);
        }
    }
    Ok(())
}
