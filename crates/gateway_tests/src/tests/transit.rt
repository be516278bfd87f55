//! Text before wire: the worked frame waits until the text of its turn is written. So it is over a redial, a disk that
//! writes nothing, and the next book.

use super::assertions::{holds, same};
use super::books::{opened, take_three};
use super::tariffs::Four;
use share_base::FlowNo;
use share_book::{Book, TextKind, Turned};
use share_transit::{Page, Transit, frames_follow_their_text};
use std::alloc::Global;
use std::process::Abort;

/// The frames of the first packet of b, `c`, and of those of a, `a` and `b`.
static FRAMES: [&[u8; 18]; 3] = [
    b"L\x02\x01\0\0\0\x02\0\0\0\0\0\0\0\x01\0\x01c",
    b"L\x02\x01\0\0\0\x01\0\0\0\0\0\0\0\x01\0\x01a",
    b"L\x02\x01\0\0\0\x01\0\0\0\0\0\0\0\x02\0\x01b",
];

/// The text of a book of lengths up to its first turn.
const TEXT: &str =
    "lengths 2\nmkcur x\nopen a 4 1\nopen b 4 1\nmktkt 1000 base\nfund 1 cur x\nmktkt 1 x\n\
    fund 2 flow a\nmktkt 2 x\nfund 3 flow b\nsend a 1\nsend a 1\nsend b 1\nturn 18\n";

fn transit(rt: &impl Abort, alloc: Global) -> Transit {
    Transit::new(alloc).ok().expect(rt, "a transit")
}

fn book(rt: &impl Abort, alloc: Global) -> Book<Four> {
    let mut book = opened(rt, alloc, false, TextKind::Lengths);
    take_three(rt, alloc, &mut book);
    book
}

// Makes a turn of a packet of this flow.
fn turns(rt: &impl Abort, transit: &mut Transit, book: &mut Book<Four>, flow: u32, seq: u32) {
    let wrote = Turned::Wrote {
        flow: FlowNo(flow),
        seq,
        count: 18,
    };
    same(rt, (flow, seq), transit.turn(book), wrote);
}

// Hands all text over, which has this many bytes.
fn hands(rt: &impl Abort, alloc: Global, transit: &mut Transit, book: &mut Book<Four>) -> usize {
    let mut page = Page::new(alloc).ok().expect(rt, "a page");
    transit.hand(book, &mut page);
    holds(rt, "all text is handed over", book.text().is_empty());
    let count = page.as_slice().len();
    drop(page);
    count
}

// Marks that many bytes as out, of those that are ready.
fn sends(transit: &mut Transit, count: usize) {
    let ready = transit.ready().len();
    transit.sent(count.min(ready));
}

#[test]
fn a_frame_waits_for_its_text(rt: HostRuntime) {
    frames_follow_their_text();
    let mut transit = transit(&rt, rt.alloc());
    let mut book = book(&rt, rt.alloc());
    turns(&rt, &mut transit, &mut book, 2, 1);
    holds(&rt, "text", book.text() == TEXT.as_bytes());
    let count = hands(&rt, rt.alloc(), &mut transit, &mut book);
    same(&rt, "handed", count, TEXT.len());
    same(&rt, "unwritten", transit.unwritten(), TEXT.len() as u64);
    transit.written(TEXT.len() as u64 - 1);
    holds(&rt, "a byte is not written", transit.ready().is_empty());
    transit.written(TEXT.len() as u64);
    holds(&rt, "written", transit.ready() == FRAMES[0].as_slice());
    sends(&mut transit, 5);
    same(&rt, "cut", transit.waiting(), 13);
    transit.again();
    holds(&rt, "again", transit.ready() == FRAMES[0].as_slice());
    sends(&mut transit, 18);
    same(&rt, "out", transit.waiting(), 0);
    drop(transit);
    drop(book);
}

#[test]
fn nothing_goes_while_the_disk_fails_and_nothing_is_lost(rt: HostRuntime) {
    let mut transit = transit(&rt, rt.alloc());
    let mut first = book(&rt, rt.alloc());
    turns(&rt, &mut transit, &mut first, 2, 1);
    turns(&rt, &mut transit, &mut first, 1, 1);
    let earlier = hands(&rt, rt.alloc(), &mut transit, &mut first) as u64;
    drop(first.close());
    let mut second = book(&rt, rt.alloc());
    turns(&rt, &mut transit, &mut second, 2, 1);
    let later = hands(&rt, rt.alloc(), &mut transit, &mut second) as u64;
    let count = earlier.saturating_add(later);
    transit.again();
    holds(&rt, "nothing is written", transit.ready().is_empty());
    transit.written(count.saturating_sub(1));
    same(&rt, "the first book is", transit.ready().len(), 36);
    transit.written(count);
    same(&rt, "all is", transit.ready().len(), 54);
    holds(
        &rt,
        "in order",
        transit.ready().get(18..36) == Some(FRAMES[1].as_slice()),
    );
    sends(&mut transit, 54);
    same(&rt, "room", transit.room(), 65536);
    drop(transit);
    drop(second);
}
