//! Packets that wait in a book and are carried over to the next one.

use super::assertions::{holds, same};
use super::books::{drain, opened, take_three};
use super::made::{first_limited, named, roomy, second_alone, shared};
use super::tariffs::Four;
use share_base::FlowNo;
use share_book::{Book, Carried, Closed, NewBook, TextKind, Turned};
use share_gateway::{Outbox, Plan};
use std::alloc::Global;
use std::process::Abort;

/// The fewest events of a book.
const EVENTS: u64 = 131072;

/// The frames of the packets of a, `a` and `b`.
const FRAMES: &[u8; 36] =
    b"L\x02\x01\0\0\0\x01\0\0\0\0\0\0\0\x01\0\x01aL\x02\x01\0\0\0\x01\0\0\0\0\0\0\0\x02\0\x01b";

/// A packet as long as packets can be.
pub(super) static LONG: [u8; 9000] = [b'x'; 9000];

/// A change of the next book's plan by its name, its packets' lines, and the number of packets dropped.
#[derive(Clone, Copy)]
struct Change {
    name: &'static str,
    lines: &'static str,
    dropped: u64,
}

const LIMITED: Change = Change {
    name: "a buffer of one packet",
    lines: "hold b\nsend a 61\n",
    dropped: 1,
};

const GONE: Change = Change {
    name: "a tenant that is gone",
    lines: "",
    dropped: 2,
};

/// A new book over a plan.
pub(super) fn open(rt: &impl Abort, alloc: Global, plan: &Plan) -> NewBook<Four> {
    let book = Book::open(alloc, plan, Four, EVENTS, TextKind::Whole);
    book.ok().expect(rt, "a book")
}

/// Forgets the text of a new book.
pub(super) fn drain_new(book: &mut NewBook<Four>) {
    let count = book.text().len();
    book.drained(count);
}

// A book in which two packets of a wait: that of b was sent.
fn closed(rt: &impl Abort, alloc: Global) -> Closed {
    let mut outbox = Outbox::new(alloc).ok().expect(rt, "an outbox");
    let mut book = opened(rt, alloc, false, TextKind::Whole);
    take_three(rt, alloc, &mut book);
    let _ = book.turn(&mut outbox);
    drop(outbox);
    book.close()
}

fn sent(seq: u32) -> Turned {
    Turned::Wrote {
        flow: FlowNo(1),
        seq,
        count: 18,
    }
}

// Both packets are sent, and are those of a.
fn sends(rt: &impl Abort, book: &mut Book<Four>, outbox: &mut Outbox) {
    same(rt, "first turn", book.turn(outbox), sent(1));
    same(rt, "second turn", book.turn(outbox), sent(2));
    same(rt, "third turn", book.turn(outbox), Turned::Idle);
    outbox.allow(FRAMES.len());
    holds(rt, "frames", outbox.ready() == FRAMES.as_slice());
    same(rt, "account", book.engine().account(FlowNo(1)), Some(36));
    let second = book.engine().position(FlowNo(2));
    let place = second.map(|position| position.place);
    same(rt, "place of b", place, Some(0));
}

#[test]
fn what_waits_is_carried(rt: HostRuntime) {
    let mut outbox = Outbox::new(rt.alloc()).ok().expect(&rt, "an outbox");
    let plan = shared(&rt, rt.alloc(), 2, true);
    let mut old = closed(&rt, rt.alloc());
    let mut new = open(&rt, rt.alloc(), &plan);
    let done = new.carry(&mut old);
    same(&rt, "carried", done, Carried::Done { dropped: 0 });
    let lines = b"hold b\nsend a 61\nsend a 62\n".as_slice();
    holds(&rt, "lines", new.text().ends_with(lines));
    drain_new(&mut new);
    let mut book = new.begin();
    sends(&rt, &mut book, &mut outbox);
    drop(book);
    drop(old);
    drop(plan);
    drop(outbox);
}

// Carries what waits to a book over another plan.
fn carries(rt: &impl Abort, alloc: Global, plan: &Plan, change: Change) {
    let mut old = closed(rt, alloc);
    let mut book = open(rt, alloc, plan);
    let before = book.text().len();
    let done = book.carry(&mut old);
    let wanted = Carried::Done {
        dropped: change.dropped,
    };
    same(rt, change.name, done, wanted);
    let left = u64::from(old.waiting(FlowNo(1)));
    same(rt, change.name, left, change.dropped);
    holds(
        rt,
        change.name,
        book.text().ends_with(change.lines.as_bytes()),
    );
    let grown = book.text().len() > before;
    same(rt, change.name, grown, !change.lines.is_empty());
    drop(book);
    drop(old);
}

#[test]
fn what_has_no_room_is_dropped(rt: HostRuntime) {
    let plan = first_limited(&rt, rt.alloc());
    carries(&rt, rt.alloc(), &plan, LIMITED);
    drop(plan);
}

#[test]
fn what_has_no_tenant_is_dropped(rt: HostRuntime) {
    let plan = second_alone(&rt, rt.alloc());
    carries(&rt, rt.alloc(), &plan, GONE);
    drop(plan);
}

/// A closed book in which sixteen of the longest packets wait.
pub(super) fn filled(rt: &impl Abort, alloc: Global, plan: &Plan) -> Closed {
    let mut book = open(rt, alloc, plan).begin();
    let a = named(rt, "a");
    for _packet in 0..16_u32 {
        let _ = book.take(alloc, a, LONG.as_slice());
        drain(&mut book);
    }
    book.close()
}

#[test]
fn carrying_goes_on_with_room_for_lines(rt: HostRuntime) {
    let plan = roomy(&rt, rt.alloc());
    let mut old = filled(&rt, rt.alloc(), &plan);
    let mut book = open(&rt, rt.alloc(), &plan);
    drain_new(&mut book);
    same(&rt, "first call", book.carry(&mut old), Carried::More);
    same(&rt, "left", old.waiting(FlowNo(1)), 2);
    drain_new(&mut book);
    let done = book.carry(&mut old);
    same(&rt, "second call", done, Carried::Done { dropped: 0 });
    let closed = book.begin().close();
    same(&rt, "carried", closed.waiting(FlowNo(1)), 16);
    drop(closed);
    drop(old);
    drop(plan);
}
