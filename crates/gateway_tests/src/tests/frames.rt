//! Frames of version 2 that are cut out of a stream: worked streams, each in one piece and in two, cut at each byte.

use crate::tests::assertions::same;
use share_base::FlowNo;
use share_gateway::{Field, FrameCut, Frames, streams_are_cut_into_frames};
use std::alloc::Global;
use std::process::Abort;

/// The end of a stream after its frames.
#[derive(Clone, Copy, Debug, PartialEq, Eq)]
enum Ends {
    More,
    Bad(Field),
}

/// Streams, the frames of each, the bytes of the payloads together, and its end. The frame is that of the payload `hi`,
/// the first packet of flow 1, under tariff 1.
static STREAMS: [(&[u8], usize, usize, Ends); 15] = [
    (b"", 0, 0, Ends::More),
    (
        b"L\x02\x01\0\0\0\x01\0\0\0\0\0\0\0\x01\0\x02hi",
        1,
        2,
        Ends::More,
    ),
    (
        b"L\x02\x01\0\0\0\x01\0\0\0\0\0\0\0\x01\0\x02h",
        0,
        0,
        Ends::More,
    ),
    (
        b"L\x02\x01\0\0\0\x01\0\0\0\0\0\0\0\x01\0\x01aL\x02\x01\0\0\0\x01\0\0\0\0\0\0\0\x02\0\x01b",
        2,
        2,
        Ends::More,
    ),
    (
        b"L\x02\x01\0\0\0\x01\0\0\0\0\0\0\0\x01\0\x02hiL\x01",
        1,
        2,
        Ends::Bad(Field::Version),
    ),
    (b"M", 0, 0, Ends::Bad(Field::Magic)),
    (b"L\x01", 0, 0, Ends::Bad(Field::Version)),
    (
        b"L\x01\0\0\0\x01\0\0\0\x01\0\x02hi",
        0,
        0,
        Ends::Bad(Field::Version),
    ),
    (b"L\x02\0", 0, 0, Ends::Bad(Field::Tariff)),
    (b"L\x02\x09", 0, 0, Ends::Bad(Field::Tariff)),
    (b"L\x02\x01\0\0\0\0", 0, 0, Ends::Bad(Field::Flow)),
    (
        b"L\x02\x01\0\0\0\x01\0\0\0\0\0\0\0\0",
        0,
        0,
        Ends::Bad(Field::Seq),
    ),
    (
        b"L\x02\x01\0\0\0\x01\0\0\0\0\0\0\0\x01\x24",
        0,
        0,
        Ends::Bad(Field::Len),
    ),
    (
        b"L\x02\x01\0\0\0\x01\0\0\0\0\0\0\0\x01\x23\x29",
        0,
        0,
        Ends::Bad(Field::Len),
    ),
    (
        b"L\x02\x01\0\0\0\x01\0\0\0\0\0\0\0\x01\0\0",
        0,
        0,
        Ends::Bad(Field::Len),
    ),
];

fn frames(rt: &impl Abort, alloc: Global) -> Frames {
    Frames::new(alloc).ok().expect(rt, "room for frames")
}

// The number of whole frames, the length of their payloads together in bytes, and what comes after them.
fn counted(frames: &mut Frames) -> (usize, usize, Ends) {
    let mut bytes: usize = 0;
    for count in 0..100 {
        match frames.next() {
            FrameCut::Frame { .. } => bytes = bytes.saturating_add(frames.payload().len()),
            FrameCut::More => return (count, bytes, Ends::More),
            FrameCut::Bad(field) => return (count, bytes, Ends::Bad(field)),
        }
    }
    (100, bytes, Ends::More)
}

// The same of a stream that comes in these two pieces.
fn counted_in_two(
    rt: &impl Abort,
    alloc: Global,
    first: &[u8],
    last: &[u8],
) -> (usize, usize, Ends) {
    let mut frames = frames(rt, alloc);
    same(rt, "fed", frames.feed(first), first.len());
    let (count, bytes, _) = counted(&mut frames);
    same(rt, "fed", frames.feed(last), last.len());
    let (more, more_bytes, ends) = counted(&mut frames);
    drop(frames);
    (
        count.saturating_add(more),
        bytes.saturating_add(more_bytes),
        ends,
    )
}

#[test]
fn streams_are_cut_at_each_byte(rt: HostRuntime) {
    streams_are_cut_into_frames();
    for &(stream, count, bytes, ends) in &STREAMS {
        for at in 0..stream.len() + 1 {
            let (first, last) = stream.split_at(at.min(stream.len()));
            let got = counted_in_two(&rt, rt.alloc(), first, last);
            same(&rt, (stream, at), got, (count, bytes, ends));
        }
    }
}

#[test]
fn a_frame_is_its_numbers_and_its_payload(rt: HostRuntime) {
    let mut frames = frames(&rt, rt.alloc());
    let stream = b"L\x02\x03\0\0\x01\x02\0\0\0\0\0\0\x01\0\0\x02hi";
    same(&rt, "fed", frames.feed(stream), 19);
    let frame = FrameCut::Frame {
        flow: FlowNo(258),
        seq: 256,
        tariff: 3,
    };
    same(&rt, "numbers", frames.next(), frame);
    same(&rt, "payload", frames.payload(), b"hi".as_slice());
    drop(frames);
}
