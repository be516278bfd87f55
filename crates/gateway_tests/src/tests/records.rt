//! Records that are cut out of a stream: worked streams, each in one piece and in two, cut at each byte.

use crate::tests::assertions::same;
use share_base::Name;
use share_gateway::{Cut, RECORDS_ROOM, Records, streams_are_cut_into_records};
use std::alloc::{AllocError, Global};
use std::process::Abort;

/// The end of a stream after its items.
#[derive(Clone, Copy, Debug, PartialEq, Eq)]
enum Ends {
    More,
    Bad,
}

/// Streams for the tenant `a`, the items of each, the bytes of the payloads together, and its end.
static STREAMS: [(&[u8], usize, usize, Ends); 19] = [
    (b"", 0, 0, Ends::More),
    (b"\x01a\0\x01a", 1, 1, Ends::More),
    (b"\x01a\0\x01a\x01a\0\x02b", 1, 1, Ends::More),
    (b"\x01a\0\x01a\0", 1, 1, Ends::Bad),
    (b"\x01a\0\x01a\x01a\x05\xd3", 1, 1, Ends::More),
    (b"\x01a\0\x01a\x01a\x23\x28", 1, 1, Ends::More),
    (b"\x01a\0\x01a\x01a\x23\x29", 1, 1, Ends::Bad),
    (b"\x01A", 0, 0, Ends::Bad),
    (b"\x11", 0, 0, Ends::Bad),
    (b"\0", 0, 0, Ends::Bad),
    (b"\x01a\0", 0, 0, Ends::More),
    (b"\x01a\0\0", 0, 0, Ends::Bad),
    (b"\x03aB", 0, 0, Ends::More),
    (b"\x01a\0\x01b\x01a\0\x02cd", 2, 3, Ends::More),
    (b"\x01b", 0, 0, Ends::Bad),
    (b"\x01b\0\x01a", 0, 0, Ends::Bad),
    (b"\x02aa\0\x01a", 0, 0, Ends::Bad),
    (b"\x02a", 0, 0, Ends::More),
    (b"\x01a\0\x01b\x01a\0\x02cd\x01b\0\x01b", 2, 3, Ends::Bad),
];

fn records(rt: &impl Abort, alloc: Global) -> Records {
    let name = Name::read(b"a").expect(rt, "a name");
    Records::new(alloc, name)
        .ok()
        .expect(rt, "room for records")
}

// The number of whole items, the length of their payloads together in bytes, and what comes after them.
fn counted(records: &mut Records) -> (usize, usize, Ends) {
    let mut bytes: usize = 0;
    for items in 0..100 {
        match records.next() {
            Cut::Item => bytes = bytes.saturating_add(records.payload().len()),
            Cut::More => return (items, bytes, Ends::More),
            Cut::Bad => return (items, bytes, Ends::Bad),
        }
    }
    (100, bytes, Ends::More)
}

// The same of a stream that comes in these two pieces.
fn counted_in_two(
    rt: &impl Abort,
    alloc: Global,
    first: &[u8],
    last: &[u8],
) -> (usize, usize, Ends) {
    let mut records = records(rt, alloc);
    same(rt, "fed", records.feed(first), first.len());
    let (items, bytes, _) = counted(&mut records);
    same(rt, "fed", records.feed(last), last.len());
    let (more, more_bytes, ends) = counted(&mut records);
    drop(records);
    (
        items.saturating_add(more),
        bytes.saturating_add(more_bytes),
        ends,
    )
}

#[test]
fn streams_are_cut_at_each_byte(rt: HostRuntime) {
    streams_are_cut_into_records();
    for &(stream, items, bytes, ends) in &STREAMS {
        for at in 0..stream.len() + 1 {
            let (first, last) = stream.split_at(at.min(stream.len()));
            let got = counted_in_two(&rt, rt.alloc(), first, last);
            same(&rt, (stream, at), got, (items, bytes, ends));
        }
    }
}

// Checks that the next item has this payload.
fn gives(rt: &impl Abort, row: &str, records: &mut Records, wanted: &[u8]) {
    same(rt, row, records.next(), Cut::Item);
    same(rt, row, records.payload(), wanted);
}

#[test]
fn payloads_are_given_in_order(rt: HostRuntime) {
    let mut records = records(&rt, rt.alloc());
    same(&rt, "fed", records.feed(b"\x01a\0\x01b\x01a\0\x02c"), 10);
    gives(&rt, "first", &mut records, b"b");
    same(&rt, "part", counted(&mut records), (0, 0, Ends::More));
    same(&rt, "fed", records.feed(b"d\x01a\0\x03efg"), 8);
    gives(&rt, "in two pieces", &mut records, b"cd");
    gives(&rt, "third", &mut records, b"efg");
    same(&rt, "end", counted(&mut records), (0, 0, Ends::More));
    drop(records);
}

// A record for the tenant `a`, with a payload of 9000 bytes.
fn longest(alloc: Global) -> Result<Vec<u8>, AllocError> {
    let mut bytes = vec![in alloc; 7u8; 9004]?;
    bytes[..4].copy_from_slice(b"\x01a\x23\x28");
    Ok(bytes)
}

#[test]
fn the_longest_records_come_in_pieces(rt: HostRuntime) -> Result<(), AllocError> {
    let record = longest(rt.alloc())?;
    let mut records = records(&rt, rt.alloc());
    for row in 1..40 {
        let at = (row * 229).min(record.len());
        let (first, last) = record.as_slice().split_at(at);
        same(&rt, row, records.feed(first), at);
        same(&rt, row, counted(&mut records), (0, 0, Ends::More));
        same(&rt, row, records.feed(last), last.len());
        same(&rt, row, counted(&mut records), (1, 9000, Ends::More));
    }
    let room = RECORDS_ROOM.saturating_sub(record.len());
    let (_, rest) = record.as_slice().split_at(room.min(record.len()));
    same(&rt, "whole", records.feed(record.as_slice()), record.len());
    same(&rt, "part", records.feed(record.as_slice()), room);
    same(&rt, "one", counted(&mut records), (1, 9000, Ends::More));
    same(&rt, "rest", records.feed(rest), rest.len());
    same(&rt, "two", counted(&mut records), (1, 9000, Ends::More));
    drop(records);
    Ok(())
}
