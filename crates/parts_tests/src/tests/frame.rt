//! share_frame: worked frames and headers, what bytes are read as, and every cut. No call takes memory.

use self::Want::{Bad, Hi, More};
use crate::tests::allocator::{refuse, took_none};
use crate::tests::assertions::{holds, same};
use share_base::Version::{One, Two};
use share_base::{FlowNo, Version};
use share_frame::{
    Field, FrameRead, FrameRead2, header, header2, no_frame_begins_another, read_frame, read_frame2,
};
use std::process::Abort;

/// The frames of the payload `hi`, the first packet of flow 1, in version 1, and in version 2 under tariff 1.
const HI: &[u8; 14] = b"\x4c\x01\x00\x00\x00\x01\x00\x00\x00\x01\x00\x02hi";

const HI2: &[u8; 19] = b"\x4c\x02\x01\x00\x00\x00\x01\x00\x00\x00\x00\x00\x00\x00\x01\x00\x02hi";

/// A reading: the frame of the payload `hi`, the beginning of one, or a field that no frame has.
#[derive(Clone, Copy)]
enum Want {
    Hi,
    More,
    Bad(Field),
}

/// A version, bytes in hexadecimal, and what they are read as.
static ROWS: [(Version, &str, Want); 35] = [
    (One, "", More),
    (One, "4d", Bad(Field::Magic)),
    (One, "4c02", Bad(Field::Version)),
    (One, "4c0100", More),
    (One, "4c0100000000", Bad(Field::Flow)),
    (One, "4c010000000100000000", Bad(Field::Seq)),
    (One, "4c01000000010000000105", More),
    (One, "4c01000000010000000105d2", More),
    (One, "4c01000000010000000105d3", Bad(Field::Len)),
    (One, "4c01000000010000000106", Bad(Field::Len)),
    (One, "4c0100000001000000010000", Bad(Field::Len)),
    (One, "4d0200000000000000000600", Bad(Field::Magic)),
    (One, "4c0100000000000000000600", Bad(Field::Flow)),
    (One, "4c01000000010000000100026869", Hi),
    (One, "4c010000000100000001000268694d", Hi),
    (Two, "", More),
    (Two, "4d", Bad(Field::Magic)),
    (Two, "4c01", Bad(Field::Version)),
    (Two, "4c02", More),
    (Two, "4c0200", Bad(Field::Tariff)),
    (Two, "4c0208", More),
    (Two, "4c0209", Bad(Field::Tariff)),
    (Two, "4c020100000000", Bad(Field::Flow)),
    (Two, "4c0201000000010000000000000000", Bad(Field::Seq)),
    (Two, "4c0201000000010000000100000000", More),
    (Two, "4c020100000001000000000000000123", More),
    (Two, "4c02010000000100000000000000012328", More),
    (Two, "4c02010000000100000000000000012329", Bad(Field::Len)),
    (Two, "4c020100000001000000000000000124", Bad(Field::Len)),
    (Two, "4c02010000000100000000000000010000", Bad(Field::Len)),
    (Two, "4d01000000000000000000000000002400", Bad(Field::Magic)),
    (
        Two,
        "4c02090000000000000000000000002400",
        Bad(Field::Tariff),
    ),
    (Two, "4c020100000001000000000000000100026869", Hi),
    (Two, "4c0201000000010000000000000001000268694d", Hi),
    (Two, "4c0208000000010000000000000001", More),
];

// The reading of bytes in a version.
fn read(version: Version, bytes: &[u8]) -> FrameRead2 {
    match version {
        Two => read_frame2(bytes),
        One => match read_frame(bytes) {
            FrameRead::Frame { flow, seq, len } => FrameRead2::Frame {
                flow,
                seq: u64::from(seq),
                tariff: 0,
                len,
            },
            FrameRead::More => FrameRead2::More,
            FrameRead::Bad(field) => FrameRead2::Bad(field),
        },
    }
}

// The reading that is wanted. The tariff of the frame is 0 in version 1, which has none.
fn wanted(version: Version, want: Want) -> FrameRead2 {
    match want {
        Hi => FrameRead2::Frame {
            flow: FlowNo(1),
            seq: 1,
            tariff: if version == One { 0 } else { 1 },
            len: 2,
        },
        More => FrameRead2::More,
        Bad(field) => FrameRead2::Bad(field),
    }
}

fn digit(byte: u8) -> u8 {
    match byte {
        b'0'..=b'9' => byte - b'0',
        b'a'..=b'f' => byte - b'a' + 10,
        _ => 0,
    }
}

fn byte_of(pair: &[u8]) -> u8 {
    match pair {
        [high, low] => digit(*high) << 4 | digit(*low),
        _ => 0,
    }
}

// The reading of bytes in hexadecimal, at most 20 of them.
fn read_hex(version: Version, text: &str) -> FrameRead2 {
    let mut bytes = [0; 20];
    for (place, pair) in bytes.iter_mut().zip(text.as_bytes().chunks_exact(2)) {
        *place = byte_of(pair);
    }
    let count = text.len() / 2;
    read(version, bytes.get(..count).unwrap_or(&[]))
}

/// Fields, and where they begin in version 1 and in version 2.
static STARTS: [(Field, usize, usize); 6] = [
    (Field::Magic, 0, 0),
    (Field::Version, 1, 1),
    (Field::Tariff, 2, 2),
    (Field::Flow, 2, 3),
    (Field::Seq, 6, 7),
    (Field::Len, 10, 15),
];

#[test]
fn fields_have_places(rt: HostRuntime) {
    for &(field, one, two) in &STARTS {
        same(&rt, field, (field.start(One), field.start(Two)), (one, two));
    }
}

/// Numbers of which each byte is another one, in headers of both versions.
const NUMBERS: &[u8; 12] = b"\x4c\x01\x01\x02\x03\x04\x05\x06\x07\x08\x09\x0a";

const NUMBERS2: &[u8; 17] = b"\x4c\x02\x01\x02\x03\x04\x05\x06\x07\x08\x09\x0a\x0b\x0c\x0d\x0e\x0f";

fn are_headers(rt: &impl Abort) {
    let numbers = header(FlowNo(0x01020304), 0x05060708, 0x090a);
    same(rt, "numbers", numbers, *NUMBERS);
    let numbers = header2(FlowNo(0x02030405), 0x060708090a0b0c0d, 1, 0x0e0f);
    same(rt, "numbers, version 2", numbers, *NUMBERS2);
    let hi = header(FlowNo(1), 1, 2);
    holds(rt, "hi", HI.starts_with(&hi));
    let hi = header2(FlowNo(1), 1, 1, 2);
    holds(rt, "hi, version 2", HI2.starts_with(&hi));
}

// Each frame is one that is cut before its last byte.
fn are_cut(rt: &impl Abort, version: Version, frame: &[u8]) {
    for count in 0..frame.len() {
        let got = read(version, &frame[..count]);
        same(rt, (version, count), got, FrameRead2::More);
    }
}

#[test]
fn frames_take_no_memory(rt: HostRuntime) {
    no_frame_begins_another();
    refuse(rt.alloc(), 1);
    for &(version, text, want) in &ROWS {
        let got = read_hex(version, text);
        same(&rt, (version, text), got, wanted(version, want));
    }
    are_cut(&rt, One, HI);
    are_cut(&rt, Two, HI2);
    are_headers(&rt);
    took_none(&rt, "frames", rt.alloc());
}
