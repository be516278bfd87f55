//! Control lines, what they do to a book, and the texts of replies.

use self::Want::{Asks, Done, Refused, Waits};
use super::assertions::{holds, same};
use super::books::opened;
use share_base::{Refusal, Reply};
use share_book::TextKind;
use share_orders::{Duty, Obeyed, book_text, fault_text, obey_line, reply_text, report_text};
use std::alloc::Global;
use std::process::Abort;

/// The outcome of a line.
#[derive(Clone, Copy)]
enum Want {
    Asks(Duty),
    Done,
    Refused(Refusal),
    Waits,
}

/// Lines on one book, one after the other, and the outcome of each while the disk writes.
static LINES: [(&str, Want); 22] = [
    ("report", Asks(Duty::Report)),
    ("status", Asks(Duty::Status)),
    ("hold a", Done),
    ("hold a", Refused(Refusal::Held)),
    ("hold z", Refused(Refusal::NoFlow)),
    ("resume a", Done),
    ("resume a", Refused(Refusal::NotHeld)),
    ("amend x 1 500", Done),
    ("amend b 1 7", Done),
    ("amend x 2 5", Refused(Refusal::NoTicket)),
    ("amend x 0 5", Refused(Refusal::NoTicket)),
    ("amend y 1 5", Refused(Refusal::NoCurrency)),
    ("amend a 1 0", Refused(Refusal::Range)),
    ("amend a 01 5", Refused(Refusal::Syntax)),
    ("amend a 1", Refused(Refusal::Syntax)),
    ("report now", Refused(Refusal::Syntax)),
    ("hold  a", Refused(Refusal::Syntax)),
    ("send a 61", Refused(Refusal::Syntax)),
    ("", Refused(Refusal::Syntax)),
    ("rotate", Asks(Duty::Rotate)),
    ("reload", Asks(Duty::Reload)),
    ("end", Asks(Duty::End)),
];

/// Lines while the disk fails.
static FAILING: [(&str, Want); 9] = [
    ("report", Asks(Duty::Report)),
    ("status", Asks(Duty::Status)),
    ("hold a", Waits),
    ("resume a", Waits),
    ("amend x 9 9", Waits),
    ("rotate", Waits),
    ("reload", Waits),
    ("end", Asks(Duty::End)),
    ("hold", Refused(Refusal::Syntax)),
];

fn obeyed(want: Want) -> Obeyed {
    match want {
        Asks(duty) => Obeyed::Asks(duty),
        Done => Obeyed::Replied(Reply::Done),
        Refused(refusal) => Obeyed::Replied(Reply::Refused(refusal)),
        Waits => Obeyed::Waits,
    }
}

fn obeys(rt: &impl Abort, alloc: Global, fails: bool, rows: &[(&'static str, Want)]) {
    let mut book = opened(rt, alloc, false, TextKind::Lengths);
    for &(line, want) in rows {
        let got = obey_line(&mut book, fails, line.as_bytes());
        same(rt, line, got, obeyed(want));
    }
    drop(book);
}

#[test]
fn lines_are_obeyed_or_wait(rt: HostRuntime) {
    obeys(&rt, rt.alloc(), false, &LINES);
    obeys(&rt, rt.alloc(), true, &FAILING);
}

// Whether a text is this one.
fn is_text(rt: &impl Abort, text: Option<Vec<u8>>, wanted: &'static str) {
    let text = text.expect(rt, "memory");
    holds(rt, wanted, text.as_slice() == wanted.as_bytes());
    drop(text);
}

#[test]
fn replies_have_their_texts(rt: HostRuntime) {
    let alloc = rt.alloc();
    let book = opened(&rt, alloc, false, TextKind::Lengths);
    is_text(&rt, reply_text(alloc, &Reply::Done).ok(), "ok\n");
    let held = Reply::Refused(Refusal::Held);
    is_text(&rt, reply_text(alloc, &held).ok(), "no 21 Held\n");
    is_text(&rt, book_text(alloc, 12).ok(), "book 12\n");
    let reason = "grant 2 of currency 1: no 15 Cycle";
    let wanted = "no grant 2 of currency 1: no 15 Cycle\n";
    is_text(&rt, fault_text(alloc, reason).ok(), wanted);
    let report = report_text(alloc, &book).ok().expect(&rt, "memory");
    holds(&rt, "a report", report.as_slice().len() > 100);
    drop(report);
    drop(book);
}
