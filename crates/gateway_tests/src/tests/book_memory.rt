//! The memory of books: some when they are opened, and some for each payload of more than 16 bytes. Requests are
//! refused by the allocator of `.ci/allocator.c` alone, with which `.ci/memory` runs these tests; with any other the
//! first call succeeds.

use super::assertions::{holds, same};
use super::books::{amend, drain, hold, opened, resume, spend, take_three};
use super::carrying::LONG;
use super::made::{named, shared};
use super::tariffs::Four;
use share_base::{FlowNo, Name, Reply};
use share_book::{Book, Taken, TextKind, Turned};
use share_gateway::{NotOpened, Outbox, Plan};
use share_model::allocator::{REFUSE_EACH, WAS_REFUSED};
use share_model::asks;
use std::alloc::Global;
use std::process::Abort;

/// The fewest events of a book.
const EVENTS: u64 = 131072;

// Why a book is not opened over a plan, if it is not.
fn refusal(alloc: Global, plan: &Plan) -> Option<NotOpened> {
    match Book::open(alloc, plan, Four, EVENTS, TextKind::Whole) {
        Err(why) => Some(why),
        Ok(book) => {
            drop(book);
            None
        }
    }
}

#[test]
fn a_book_is_opened_once_its_memory_is_found(rt: HostRuntime) {
    let plan = shared(&rt, rt.alloc(), 2, true);
    for request in 1..200u16 {
        let _no = asks!(rt.alloc(), request);
        let got = refusal(rt.alloc(), &plan);
        let was_refused = asks!(rt.alloc(), WAS_REFUSED);
        let wanted = if was_refused {
            Some(NotOpened::NoMemory)
        } else {
            None
        };
        same(&rt, request, got, wanted);
        if !was_refused {
            break;
        }
    }
    drop(plan);
}

#[test]
fn a_packet_is_taken_once_its_memory_is_found(rt: HostRuntime) {
    let mut book = opened(&rt, rt.alloc(), false, TextKind::Lengths);
    drain(&mut book);
    let a = named(&rt, "a");
    for request in 1..3u16 {
        let _no = asks!(rt.alloc(), request);
        let taken = book.take(rt.alloc(), a, b"seventeen bytes..");
        let was_refused = asks!(rt.alloc(), WAS_REFUSED);
        if !was_refused {
            same(&rt, "taken", taken, Taken::Packet { seq: 1 });
            break;
        }
        same(&rt, "refused", taken, Taken::NoMemory);
        holds(&rt, "no event", book.text().is_empty());
    }
    holds(&rt, "its line", book.text() == b"send a 17\n".as_slice());
    drop(book);
}

// A book whose text has no room for another line: one of the longest packets is taken and sent, again and again.
fn without_text(rt: &impl Abort, alloc: Global) -> Book<Four> {
    let mut outbox = Outbox::new(alloc).ok().expect(rt, "an outbox");
    let mut book = opened(rt, alloc, false, TextKind::Whole);
    let a = named(rt, "a");
    for _packet in 0..14_u32 {
        let _ = book.take(alloc, a, LONG.as_slice());
        let _ = book.turn(&mut outbox);
        outbox.allow(LONG.len() * 2);
        let ready = outbox.ready().len();
        outbox.sent(ready);
    }
    drop(outbox);
    book
}

// A packet that takes memory is not taken, for this reason, and no request is made for it.
fn is_untaken(rt: &impl Abort, alloc: Global, book: &mut Book<Four>, name: Name, why: Taken) {
    let _no = asks!(alloc, REFUSE_EACH);
    let taken = book.take(alloc, name, LONG.as_slice());
    let was_refused = asks!(alloc, WAS_REFUSED);
    same(rt, why, taken, why);
    same(rt, "requests", was_refused, false);
}

#[test]
fn packets_that_are_not_taken_take_no_memory(rt: HostRuntime) {
    let alloc = rt.alloc();
    let (a, z) = (named(&rt, "a"), named(&rt, "z"));
    let mut book = without_text(&rt, alloc);
    is_untaken(&rt, alloc, &mut book, a, Taken::NoText);
    drain(&mut book);
    is_untaken(&rt, alloc, &mut book, z, Taken::NoRoom);
    for _packet in 0..4_u32 {
        let _ = book.take(alloc, a, b"a");
    }
    is_untaken(&rt, alloc, &mut book, a, Taken::NoRoom);
    spend(&rt, &mut book);
    is_untaken(&rt, alloc, &mut book, a, Taken::Spent);
    drop(book);
}

// All calls but those that open a book, and that take a long packet. Returns whether each did what it does.
fn are_called(book: &mut Book<Four>, outbox: &mut Outbox, names: [Name; 2]) -> bool {
    let [a, x] = names;
    let is_held = hold(book, a) == Some(Reply::Done) && resume(book, a) == Some(Reply::Done);
    let is_amended = amend(book, x, 1, 500) == Some(Reply::Done);
    let is_sent = matches!(book.turn(outbox), Turned::Wrote { .. });
    let is_free = book.room(a) && !book.lacks_text();
    let count = book.text().len();
    book.drained(count);
    is_held && is_amended && is_sent && is_free
}

#[test]
fn other_calls_of_books_take_no_memory(rt: HostRuntime) {
    let mut outbox = Outbox::new(rt.alloc()).ok().expect(&rt, "an outbox");
    let mut book = opened(&rt, rt.alloc(), false, TextKind::Whole);
    let names = [named(&rt, "a"), named(&rt, "x")];
    let _no = asks!(rt.alloc(), REFUSE_EACH);
    take_three(&rt, rt.alloc(), &mut book);
    let are_done = are_called(&mut book, &mut outbox, names);
    let closed = book.close();
    let waiting = closed.waiting(FlowNo(1));
    let was_refused = asks!(rt.alloc(), WAS_REFUSED);
    same(&rt, "requests", was_refused, false);
    holds(&rt, "calls", are_done);
    same(&rt, "waiting", waiting, 2);
    drop(closed);
    drop(outbox);
}
