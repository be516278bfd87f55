//! Whole texts of books, run as scripts: the answers, the totals, and the bytes that the outbox has.
ghost use Rattle.std.specs.Prelude.{◌≡◌, []};
ghost use Rattle.share_base.specs.declared.version.Version.TheVariants.{One};
ghost use Rattle.share_model.specs.link.Live.{empty_link};

use super::assertions::{holds, same};
use super::books::{amend, hold, opened, resume, take_three};
use super::made::named;
use super::tariffs::Four;
use share_base::FlowNo;
use share_book::{Book, Taken, TextKind, Turned};
use share_core::Engine;
use share_gateway::Outbox;
use share_model::{PlainReader, Tape};
use share_script::run_script;
use std::alloc::Global;
use std::process::Abort;

/// The fewest events of a book.
const EVENTS: u64 = 131072;

/// A packet of b whose frame is 717 bytes long.
static LONG: [u8; 700] = [b'x'; 700];

/// The answers to the lines of the book: those of its opening, and those of what happened in it.
const ANSWERS: &str =
    "ok\nflow 1\nflow 2\nticket 1\nok\nticket 2\nok\nticket 3\nok\npacket 1 1\npacket 1 2\npacket 2 1\n\
    wrote 2 1 18 whole\npacket 2 2\nok\nno 21 Held\nwrote 2 2 717 whole\nok\nno 7 NoFlow\nok\nno 4 Range\n\
    wrote 1 1 18 whole\nwrote 1 2 18 whole\n";

// A turn sends a packet of this flow.
fn turns(rt: &impl Abort, book: &mut Book<Four>, outbox: &mut Outbox, flow: u32, count: u32) {
    let is_sent = match book.turn(outbox) {
        Turned::Wrote {
            flow: sent,
            count: bytes,
            ..
        } => sent == FlowNo(flow) && bytes == count,
        _ => false,
    };
    holds(rt, (flow, count), is_sent);
}

// Events of each kind, refused ones among them, and four frames in the outbox.
fn happens(rt: &impl Abort, alloc: Global, book: &mut Book<Four>, outbox: &mut Outbox) {
    let (a, b, x, z) = (
        named(rt, "a"),
        named(rt, "b"),
        named(rt, "x"),
        named(rt, "z"),
    );
    take_three(rt, alloc, book);
    turns(rt, book, outbox, 2, 18);
    let taken = book.take(alloc, b, LONG.as_slice());
    same(rt, "b", taken, Taken::Packet { seq: 2 });
    let _ = hold(book, a);
    let _ = hold(book, a);
    turns(rt, book, outbox, 2, 717);
    let _ = resume(book, a);
    let _ = hold(book, z);
    let _ = amend(book, x, 1, 500);
    let _ = amend(book, b, 1, 0);
    turns(rt, book, outbox, 1, 18);
    turns(rt, book, outbox, 1, 18);
}

// A new link of version 1, whose tape is empty.
fn linked(rt: &impl Abort, alloc: Global) -> Engine<Tape, Four>
    ensures live { result.live ≡ empty_link One }
    ensures writer { result.writer ≡ record { bytes = []; counts = [] } }
{
    Engine::new(alloc, Four, EVENTS, Tape::new(alloc)).expect(rt, "a link")
}

// The text, run as a script, is answered so, and comes to the totals of the book and to these bytes.
fn replays(rt: &impl Abort, alloc: Global, book: &Book<Four>, bytes: &[u8]) {
    let mut output = Tape::new(alloc);
    let mut input = PlainReader(book.text());
    let engine = linked(rt, alloc);
    let engine = run_script(alloc, engine, &mut input, &mut output).expect(rt, "a script");
    holds(rt, "answers", output.bytes() == ANSWERS.as_bytes());
    drop(output);
    holds(rt, "bytes", engine.writer().bytes() == bytes);
    same(rt, "totals", engine.totals(), book.engine().totals());
    for flow in 1..3_u32 {
        let account = engine.account(FlowNo(flow));
        same(rt, flow, account, book.engine().account(FlowNo(flow)));
    }
    drop(engine);
}

#[test]
fn a_whole_text_is_run_to_the_bytes_of_its_book(rt: HostRuntime) {
    let mut outbox = Outbox::new(rt.alloc()).ok().expect(&rt, "an outbox");
    let mut book = opened(&rt, rt.alloc(), false, TextKind::Whole);
    happens(&rt, rt.alloc(), &mut book, &mut outbox);
    outbox.allow(usize::MAX);
    same(&rt, "length", outbox.ready().len(), 771);
    replays(&rt, rt.alloc(), &book, outbox.ready());
    drop(book);
    drop(outbox);
}
