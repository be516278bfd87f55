//! Calls of a link that find no memory, and those that take none, and what it keeps: no contract sees these. Each call
//! that takes memory is made on a new link again and again. First its first request is refused, then its second, and so
//! on, until none is refused. Requests are refused by the allocator of `.ci/allocator.c` alone, with which `.ci/memory`
//! runs this test. With any other the first call succeeds, and no block is seen.
ghost use Rattle.std.specs.Prelude.{◌≡◌};

use super::allocator::{
    REQUESTS, is_steered, keeps_none, mark, refuse, refuse_each, takes_none, was_refused, were_made,
};
use super::assertions::{holds, same};
use super::cases::OPENED;
use super::session::{Session, plays};
use super::stage::{Books, NewLink, Stage, Without, new_link, settled, staged, unsettled};
use share_base::Refusal;
use share_locked::{LinkBrand, WhyUnsettled};
use share_model::{PlainWriter, Totals};
use std::alloc::Global;
use std::io;
use std::io::Sink;
use std::marker::Brand;
use std::process::Abort;
use std::str::from_utf8;
use std::sync::Wait;

/// A writer that takes no memory.
type Writer = PlainWriter<Sink>;

/// Commands that take memory, and the number of requests that each makes. A flow takes memory for its packets and for
/// four parts of its table. A currency takes it for four of its own, of which one is empty.
static GROWING: [(&str, u16); 3] = [
    ("C1 open a 4 1 = 1 flow 1", 5),
    ("C1 mkcur x = 1 ok", 4),
    ("C1 mktkt 10 base = 1 ticket 1", 1),
];

/// A flow with a funding ticket, a ticket that funds a currency, and room for as many receipts as the other rows need.
const READY: &str = "\
    C1 mkcur x = 4 ok; C1 amend 1 9; C1 amend 1 9; C1 amend 1 9; C1 amend 1 9; C1 amend 1 9; C1 amend 1 9; \
    C1 amend 1 9; C1 amend 1 9; C1 amend 1 9; C1 amend 1 9; C1 amend 1 9; C1 amend 1 9; C1 amend 1 9; \
    C1 amend 1 9; C1 amend 1 9; C1 mktkt 10 base = 20 ticket 2; C1 fund 2 cur x = 21 ok";

/// Offers, admissions, turns, a hold, the commands that change no table but the funding, and those that remove what
/// there is.
const TAKE_NONE: &str = "\
    E1 a a = 1; admit = 1 1 packet 1 1; admit = empty; C1 hold a = 23 ok; turn 65535 = idle; \
    C1 amend 1 12 = 24 ok; C1 resume a = 25 ok; turn 65535 = wrote 1 1 18 whole; turn 65535 = idle; \
    C1 unfund 2 = 27 ok; C1 fund 2 cur x = 28 ok; C1 unfund 2 = 29 ok; C1 rmtkt 2 = 30 ok; C1 rmcur x = 31 ok; \
    C1 unfund 1 = 32 ok; C1 fund 1 flow a = 33 ok; C1 close a = 34 closed 1 0 18; entries = 34; capacity = 2; \
    clerk = 2";

/// Four long packets, which do not stand in the place of a payload. One is sent, two stay in the queue, and one comes
/// back.
const SENT: &str = "E1 a x*9000 = 1; admit = 1 1 packet 1 1; turn 65535 = wrote 1 1 9017 whole";

const LEFT: &str = "E1 a x*9000 = 2; E1 a x*9000 = 3; E1 a x*9000 = full";

/// The books of a link that sent one.
const BOOKS: Books<'static> = (&[1], 1, 3, 5);

/// The report of a link that made no event.
const NEW: &str = "clock                            0
accepted                         0
written                          0
torn                             0
waiting                          0
dropped                          0
bytes                            0
past                             0
tickets                          0
pass                             0
link                             0
end
";

/// The figures of a link: its events, its entries and its totals.
fn shown<T: Wait, L: LinkBrand>(rt: &T, stage: &Stage<Writer, L>) -> (u64, u64, Totals) {
    let locked = stage.port.lock(rt);
    let recorder = locked.recorder();
    let link = recorder.engine();
    (link.events(), recorder.journal().len(), link.totals())
}

// A row's command, of which this request is refused. Returns whether there was one: then nothing changed.
fn is_refused<T: Abort + Wait, L: LinkBrand>(
    rt: &T,
    alloc: Global,
    stage: &Stage<Writer, L>,
    row: &str,
    request: u16,
) -> bool {
    let mut session = Session::on(rt, alloc, stage);
    let (asked, wanted) = row.split_once(" = ").expect(rt, "a row");
    let before = shown(rt, stage);
    holds(rt, row, session.is_ready("1"));
    refuse(alloc, request);
    session.ask(asked);
    let refused = was_refused(alloc);
    let wanted = if refused { "0 no 1 NoMemory" } else { wanted };
    same(rt, (row, request), session.text(), wanted);
    holds(rt, row, !refused || shown(rt, stage) == before);
    drop(session);
    refused
}

// The first command of a link is refused, then refused at its first request, and then done as if never refused.
fn is_refused_and_done<T: Abort + Wait, L: LinkBrand>(
    rt: &T,
    alloc: Global,
    stage: &Stage<Writer, L>,
    row: &str,
    request: u16,
) -> bool {
    let refused = is_refused(rt, alloc, stage, row, request);
    if refused && is_refused(rt, alloc, stage, row, 1) {
        holds(rt, row, !is_refused(rt, alloc, stage, row, REQUESTS));
    }
    refused
}

// A report is written in one piece: it takes memory for its bytes and for their count.
fn is_unreported<T: Abort + Wait, L: LinkBrand>(
    rt: &T,
    alloc: Global,
    stage: &Stage<Writer, L>,
    request: u16,
) -> bool {
    refuse(alloc, request);
    let report = stage.port.lock(rt).report(alloc);
    let refused = was_refused(alloc);
    match &report {
        Ok(text) => same(rt, "a report", from_utf8(text.as_slice()).ok(), Some(NEW)),
        Err(refusal) => same(
            rt,
            "a report",
            (refused, *refusal),
            (true, Refusal::NoMemory),
        ),
    }
    drop(report);
    refused
}

// A clerk has room for four receipts at first, and then for twice as many. Each growth is one request.
fn gets_ready_once_found<T: Abort + Wait, L: LinkBrand>(
    rt: &T,
    alloc: Global,
    stage: &Stage<Writer, L>,
) {
    let mut session = Session::on(rt, alloc, stage);
    let mut refusals = 0_u16;
    for kept in 0..10 {
        refuse_each(alloc);
        let is_ready = session.is_ready("1");
        let refused = was_refused(alloc);
        same(rt, kept, is_ready, !refused);
        holds(rt, kept, !refused || kept == 0 || kept == 4 || kept == 8);
        refusals = refusals.saturating_add(u16::from(refused));
        refuse(alloc, 2);
        same(
            rt,
            kept,
            (session.is_ready("1"), was_refused(alloc)),
            (true, false),
        );
        session.ask("C1 amend 1 1");
    }
    were_made(rt, "receipts", refusals, 3);
    drop(session);
}

// Each request is refused while these rows are played.
fn takes_no_memory<T: Abort + Wait, L: LinkBrand>(rt: &T, alloc: Global, stage: &Stage<Writer, L>) {
    let mut session = Session::on(rt, alloc, stage);
    session.play(OPENED);
    session.play(READY);
    refuse_each(alloc);
    session.play(TAKE_NONE);
    takes_none(rt, "rows", alloc);
    drop(session);
}

/// The calls on a new link, and the request that is refused.
#[derive(Clone, Copy, Debug)]
enum Play {
    Command(&'static str),
    Report,
    Receipts,
    OtherCalls,
    Settled,
    Left,
}

fn is_refused_on<T: Abort + Wait, L: LinkBrand>(
    rt: &T,
    alloc: Global,
    stage: &Stage<Writer, L>,
    play: Play,
    request: u16,
) -> bool {
    match play {
        Play::Command(row) => return is_refused_and_done(rt, alloc, stage, row, request),
        Play::Report => return is_unreported(rt, alloc, stage, request),
        Play::Receipts => gets_ready_once_found(rt, alloc, stage),
        Play::OtherCalls => takes_no_memory(rt, alloc, stage),
        Play::Left => plays(rt, alloc, stage, &[OPENED, SENT, LEFT]),
        Play::Settled => plays(rt, alloc, stage, &[OPENED, SENT]),
    }
    false
}

// A link that finds no memory for the tallies at first, if memory is refused.
fn is_unsettled<T: Abort + Wait, L: LinkBrand>(
    rt: &T,
    alloc: Global,
    stage: Stage<Writer, L>,
) -> Stage<Writer, L> {
    if is_steered(rt, alloc) {
        unsettled(rt, alloc, stage, Without::Nothing, WhyUnsettled::NoMemory)
    } else {
        stage
    }
}

fn is_settled<T: Abort + Wait, L: LinkBrand>(rt: &T, alloc: Global, stage: Stage<Writer, L>) {
    let stage = is_unsettled(rt, alloc, stage);
    let recorder = settled(rt, alloc, SENT, stage, BOOKS);
    drop(recorder);
}

// Does it. Returns whether a request was refused.
fn is_refused_at<T: Abort + Wait, L: LinkBrand>(
    rt: &T,
    alloc: Global,
    new: NewLink<Writer>,
    play: Play,
    request: u16,
) -> bool
    requires { new ≡ L.link }
{
    let stage = staged::<Writer, L>(rt, alloc, new, 1);
    let refused = is_refused_on(rt, alloc, &stage, play, request);
    if matches!(play, Play::Settled) {
        is_settled(rt, alloc, stage);
    } else {
        drop(stage);
    }
    refused
}

// On new links, until none is refused. All memory is given back.
fn is_done_once_found<T: Abort + Wait>(rt: &T, alloc: Global, play: Play, requests: u16) {
    for request in 1..REQUESTS {
        mark(alloc);
        let new = new_link(rt, alloc, 2, 1, 64, PlainWriter(io::sink()));
        let refused = is_refused_at::<T, Brand>(rt, alloc, new, play, request);
        keeps_none(rt, play, alloc);
        if !refused {
            were_made(rt, play, request - 1, requests);
            break;
        }
    }
}

#[test]
fn links_refuse_what_finds_no_memory_and_keep_nothing(rt: HostRuntime) {
    for &(row, requests) in &GROWING {
        is_done_once_found(&rt, rt.alloc(), Play::Command(row), requests);
    }
    is_done_once_found(&rt, rt.alloc(), Play::Report, 2);
    for &play in &[Play::Receipts, Play::OtherCalls, Play::Settled, Play::Left] {
        is_done_once_found(&rt, rt.alloc(), play, 0);
    }
}
