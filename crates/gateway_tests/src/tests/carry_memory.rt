//! The memory of packets that are carried over: no request is made for them, and what is dropped is given back.
//! Requests are refused and blocks are counted by the allocator of `.ci/allocator.c` alone, with which `.ci/memory`
//! runs this test. With any other no request is refused, and no block is missed.

use super::assertions::{holds, same};
use super::books::{drain, opened, resume};
use super::carrying::{drain_new, filled, open};
use super::made::{first_limited, named, roomy, second_alone};
use super::tariffs::Four;
use share_base::FlowNo;
use share_book::{Book, Carried, Closed, NewBook, Taken, TextKind, Turned};
use share_gateway::{Outbox, Plan};
use share_model::allocator::{IS_HELD_OTHER, MARK_HELD, REFUSE_EACH, WAS_REFUSED};
use share_model::asks;
use std::alloc::Global;
use std::process::Abort;

/// A packet that is kept in memory of its own.
const PACKET: &[u8] = b"seventeen bytes..";

// A book in which three packets of a wait, and one of b.
fn waiting(rt: &impl Abort, alloc: Global) -> Book<Four> {
    let mut book = opened(rt, alloc, false, TextKind::Whole);
    let (a, b) = (named(rt, "a"), named(rt, "b"));
    for seq in 1..4_u32 {
        same(rt, seq, book.take(alloc, a, PACKET), Taken::Packet { seq });
    }
    same(
        rt,
        "b",
        book.take(alloc, b, PACKET),
        Taken::Packet { seq: 1 },
    );
    book
}

// Closes a book, and has another take over what waits in it, while each request is refused.
fn closed_into(
    rt: &impl Abort,
    alloc: Global,
    what: &'static str,
    old: Book<Four>,
    new: &mut NewBook<Four>,
) -> Carried {
    let _no = asks!(alloc, REFUSE_EACH);
    let mut closed = old.close();
    let carried = new.carry(&mut closed);
    drop(closed);
    let was_refused = asks!(alloc, WAS_REFUSED);
    same(rt, what, was_refused, false);
    carried
}

// Sends all that waits, and forgets the text.
fn sends_all(book: &mut Book<Four>, outbox: &mut Outbox) -> bool {
    for _frame in 0..8_u32 {
        match book.turn(outbox) {
            Turned::Wrote { count, .. } => count_out(outbox, count),
            turned => {
                drain(book);
                return turned == Turned::Idle;
            }
        }
    }
    false
}

// Says that a frame is out.
fn count_out(outbox: &mut Outbox, count: u32) {
    outbox.allow(count as usize);
    let ready = outbox.ready().len();
    outbox.sent(ready);
}

// Packets that wait are carried to a book over this plan, and then sent. That many packets are dropped. No block is
// kept of the closed book, of the packets that were dropped, and of those that were sent.
fn carries(
    rt: &impl Abort,
    alloc: Global,
    what: &'static str,
    plan: &Plan,
    dropped: u64,
    outbox: &mut Outbox,
) {
    let mut new = open(rt, alloc, plan);
    let _no = asks!(alloc, MARK_HELD);
    let old = waiting(rt, alloc);
    let carried = closed_into(rt, alloc, what, old, &mut new);
    same(rt, what, carried, Carried::Done { dropped });
    let mut book = new.begin();
    let _ = resume(&mut book, named(rt, "b"));
    holds(rt, what, sends_all(&mut book, outbox));
    let is_other = asks!(alloc, IS_HELD_OTHER);
    same(rt, what, is_other, false);
    drop(book);
}

// The text has no room for all lines, so packets are carried by two calls.
fn carries_in_two(alloc: Global, old: &mut Closed, new: &mut NewBook<Four>) -> (Carried, Carried) {
    let _no = asks!(alloc, REFUSE_EACH);
    let first = new.carry(old);
    drain_new(new);
    let second = new.carry(old);
    (first, second)
}

fn goes_on(rt: &impl Abort, alloc: Global) {
    let plan = roomy(rt, alloc);
    let mut old = filled(rt, alloc, &plan);
    let mut new = open(rt, alloc, &plan);
    drain_new(&mut new);
    let both = carries_in_two(alloc, &mut old, &mut new);
    let was_refused = asks!(alloc, WAS_REFUSED);
    same(rt, "two calls", was_refused, false);
    let wanted = (Carried::More, Carried::Done { dropped: 0 });
    same(rt, "answers", both, wanted);
    same(rt, "left", old.waiting(FlowNo(1)), 0);
    drop(old);
    drop(new);
    drop(plan);
}

// A packet is refused only by an allocator that answers.
fn is_asked(rt: &impl Abort, alloc: Global) {
    let mut book = opened(rt, alloc, false, TextKind::Whole);
    let a = named(rt, "a");
    let _no = asks!(alloc, REFUSE_EACH);
    let taken = book.take(alloc, a, PACKET);
    let was_refused = asks!(alloc, WAS_REFUSED);
    same(rt, "a request", taken == Taken::NoMemory, was_refused);
    drop(book);
}

#[test]
fn carrying_takes_no_memory_and_gives_back_what_is_dropped(rt: HostRuntime) {
    let alloc = rt.alloc();
    let mut outbox = Outbox::new(alloc).ok().expect(&rt, "an outbox");
    let limited = first_limited(&rt, alloc);
    carries(
        &rt,
        alloc,
        "a buffer of one packet",
        &limited,
        2,
        &mut outbox,
    );
    drop(limited);
    let alone = second_alone(&rt, alloc);
    carries(&rt, alloc, "a tenant that is gone", &alone, 3, &mut outbox);
    drop(alone);
    goes_on(&rt, alloc);
    is_asked(&rt, alloc);
    drop(outbox);
}
