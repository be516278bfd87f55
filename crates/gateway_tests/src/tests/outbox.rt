//! The outbox: a worked example, each of its calls in a table, and frames that go round in it.

use crate::tests::assertions::{holds, same};
use share_gateway::{OUTBOX, Outbox, outboxes_give_frames_in_order};
use share_model::{Answer, TellingWriter};
use std::alloc::{AllocError, Global};
use std::process::Abort;

/// The frames of the first two packets of flow 1, `a` and `b`, of 18 bytes each.
const FIRST: &[u8] = b"L\x02\x01\0\0\0\x01\0\0\0\0\0\0\0\x01\0\x01a";

const SECOND: &[u8] = b"L\x02\x01\0\0\0\x01\0\0\0\0\0\0\0\x02\0\x01b";

/// The length of the longest frame in bytes.
const LONGEST: usize = 9017;

/// A step of an outbox in a test.
#[derive(Clone, Copy, Debug)]
enum Step {
    Put(&'static [u8]),
    Allow(usize),
    Sent(usize),
    Again,
}

/// Steps, and after each the bytes that are ready and the number that have room.
static STEPS: [(Step, &[u8], usize); 12] = [
    (Step::Put(FIRST), b"", 65518),
    (Step::Again, b"", 65518),
    (Step::Allow(2), b"L\x02", 65518),
    (Step::Put(SECOND), b"L\x02", 65500),
    (
        Step::Allow(18),
        b"L\x02\x01\0\0\0\x01\0\0\0\0\0\0\0\x01\0\x01aL\x02",
        65500,
    ),
    (Step::Sent(20), b"", 65518),
    (
        Step::Allow(100),
        b"\x01\0\0\0\x01\0\0\0\0\0\0\0\x02\0\x01b",
        65518,
    ),
    (Step::Again, SECOND, 65518),
    (Step::Sent(17), b"b", 65518),
    (Step::Again, SECOND, 65518),
    (Step::Sent(18), b"", 65536),
    (Step::Again, b"", 65536),
];

fn outbox(rt: &impl Abort, alloc: Global) -> Outbox {
    Outbox::new(alloc).ok().expect(rt, "an outbox")
}

// Checks that a frame is taken, or not, as wanted.
fn puts(rt: &impl Abort, row: usize, outbox: &mut Outbox, frame: &[u8], is_taken: bool) {
    let wanted = if is_taken {
        Answer::Accepted(frame.len())
    } else {
        Answer::Interrupted
    };
    same(rt, row, outbox.offer(frame), wanted);
}

// Marks that many bytes as out, of those that are ready.
fn sends(rt: &impl Abort, row: usize, outbox: &mut Outbox, count: usize) {
    let ready = outbox.ready().len();
    holds(rt, row, count <= ready);
    outbox.sent(count.min(ready));
}

#[test]
fn frames_leave_in_order_and_begin_again(rt: HostRuntime) {
    outboxes_give_frames_in_order();
    let mut outbox = outbox(&rt, rt.alloc());
    for (row, (step, ready, room)) in STEPS.iter().enumerate() {
        match step {
            Step::Put(frame) => puts(&rt, row, &mut outbox, frame, true),
            Step::Allow(count) => outbox.allow(*count),
            Step::Sent(count) => sends(&rt, row, &mut outbox, *count),
            Step::Again => outbox.again(),
        }
        same(&rt, row, (outbox.ready(), outbox.room()), (*ready, *room));
    }
    drop(outbox);
}

// A frame of this length whose bytes all have this value.
fn frame_of(alloc: Global, value: u8, length: usize) -> Result<Vec<u8>, AllocError> {
    vec![in alloc; value; length]
}

/// Lengths of frames that are put into an outbox, and whether each is taken.
static FILLED: [(usize, bool); 13] = [
    (LONGEST, true),
    (LONGEST, true),
    (LONGEST, true),
    (LONGEST, true),
    (LONGEST, true),
    (LONGEST, true),
    (LONGEST, true),
    (LONGEST, false),
    (2418, false),
    (2400, true),
    (18, false),
    (17, true),
    (1, false),
];

#[test]
fn a_frame_is_taken_whole_or_not_at_all(rt: HostRuntime) -> Result<(), AllocError> {
    let mut outbox = outbox(&rt, rt.alloc());
    let mut held: usize = 0;
    for (row, (length, is_taken)) in FILLED.iter().enumerate() {
        let frame = frame_of(rt.alloc(), 7, *length)?;
        puts(&rt, row, &mut outbox, frame.as_slice(), *is_taken);
        if *is_taken {
            held = held.saturating_add(*length);
        }
        same(&rt, row, outbox.room(), OUTBOX.saturating_sub(held));
    }
    drop(outbox);
    Ok(())
}

// Sends what is ready in parts of 1000 bytes. It checks that each byte is that of its frame, from the byte of this
// number on. Each frame has LONGEST bytes. Returns the number of the byte after them.
fn gives(rt: &impl Abort, outbox: &mut Outbox, from: usize) -> usize {
    let mut at = from;
    for _part in 0..100 {
        let part = outbox.ready().len().min(1000);
        for byte in &outbox.ready()[..part] {
            same(rt, at, *byte, (at / LONGEST % 251) as u8);
            at = at.saturating_add(1);
        }
        outbox.sent(part);
    }
    at
}

#[test]
fn frames_go_round(rt: HostRuntime) -> Result<(), AllocError> {
    let mut outbox = outbox(&rt, rt.alloc());
    let mut at = 0;
    for row in 0..60 {
        let frame = frame_of(rt.alloc(), row as u8, LONGEST)?;
        puts(&rt, row, &mut outbox, frame.as_slice(), true);
        if row % 7 == 6 || row == 59 {
            outbox.allow(usize::MAX);
            at = gives(&rt, &mut outbox, at);
        } else {
            outbox.allow(100);
        }
    }
    same(
        &rt,
        "all bytes",
        (at, outbox.room()),
        (60 * LONGEST, OUTBOX),
    );
    drop(outbox);
    Ok(())
}
