//! The memory of the outbox, records and frames: all of it is taken when they are made. Requests are refused by the
//! allocator of `.ci/allocator.c` alone, with which `.ci/memory` runs these tests; with any other the first call
//! succeeds.

use crate::tests::assertions::{holds, same};
use share_base::{Name, Refusal};
use share_gateway::{Cut, FrameCut, Frames, Outbox, Records};
use share_model::allocator::{REFUSE_EACH, WAS_REFUSED};
use share_model::{Answer, TellingWriter, asks};
use std::alloc::{AllocError, Global};
use std::process::Abort;

/// The type that is made.
#[derive(Clone, Copy, Debug)]
enum Made {
    Outbox,
    Records,
    Frames,
}

static ALL: [Made; 3] = [Made::Outbox, Made::Records, Made::Frames];

// Why one is not made, if it is not.
fn refusal(rt: &impl Abort, alloc: Global, made: Made) -> Option<Refusal> {
    match made {
        Made::Outbox => Outbox::new(alloc).err(),
        Made::Records => Records::new(alloc, Name::read(b"a").expect(rt, "a name")).err(),
        Made::Frames => Frames::new(alloc).err(),
    }
}

#[test]
fn streams_are_made_once_their_memory_is_found(rt: HostRuntime) {
    for &made in &ALL {
        for request in 1..8u16 {
            let _no = asks!(rt.alloc(), request);
            let got = refusal(&rt, rt.alloc(), made);
            let was_refused = asks!(rt.alloc(), WAS_REFUSED);
            let wanted = if was_refused {
                Some(Refusal::NoMemory)
            } else {
                None
            };
            same(&rt, (made, request), got, wanted);
            if !was_refused {
                break;
            }
        }
    }
}

// Puts frames of 9017 bytes in and sends them, in parts. Returns whether each was taken.
fn goes_round(outbox: &mut Outbox, frame: &[u8]) -> bool {
    let mut are_taken = true;
    for _round in 0..40 {
        are_taken = are_taken && outbox.offer(frame) == Answer::Accepted(frame.len());
        outbox.allow(frame.len());
        let part = outbox.ready().len().min(9000);
        outbox.sent(part);
        outbox.again();
        let rest = outbox.ready().len();
        outbox.sent(rest);
    }
    are_taken
}

// Cuts records and frames out of pieces that end inside the next one. Returns whether each is found.
fn are_cut(records: &mut Records, frames: &mut Frames) -> bool {
    let mut are_found = true;
    for _round in 0..9000 {
        let fed_frame = frames.feed(b"\0\0\x01\0\x01bL\x02\x01\0\0\0\x01\0\0\0\0\0");
        let fed = records.feed(b"\0\x01b\x01a") == 5 && fed_frame == 18;
        are_found = are_found && fed && records.next() == Cut::Item;
        are_found = are_found && frames.next() != FrameCut::More;
    }
    are_found
}

#[test]
fn streams_take_no_memory_once_made(rt: HostRuntime) -> Result<(), AllocError> {
    let frame = vec![in rt.alloc(); 7u8; 9017]?;
    let mut outbox = Outbox::new(rt.alloc()).ok().expect(&rt, "an outbox");
    let name = Name::read(b"a").expect(&rt, "a name");
    let mut records = Records::new(rt.alloc(), name)
        .ok()
        .expect(&rt, "room for records");
    let mut frames = Frames::new(rt.alloc()).ok().expect(&rt, "room for frames");
    let _no = asks!(rt.alloc(), REFUSE_EACH);
    records.feed(b"\x01a");
    frames.feed(b"L\x02\x01\0\0\0\x01\0\0\0\0\0");
    let are_taken = goes_round(&mut outbox, frame.as_slice());
    let are_found = are_cut(&mut records, &mut frames);
    let was_refused = asks!(rt.alloc(), WAS_REFUSED);
    same(&rt, "requests", was_refused, false);
    holds(&rt, "frames are taken", are_taken);
    holds(&rt, "records and frames are found", are_found);
    drop(outbox);
    drop(records);
    drop(frames);
    Ok(())
}
