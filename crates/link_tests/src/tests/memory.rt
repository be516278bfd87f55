//! A link drops its packets, and its calls take no memory: no contract sees either. Bodies like these meet every
//! clause, and the test here sees each of them. Some have `std::mem::forget` in place of a drop. They forget a shelf in
//! `Link::new` and a writer in `Engine::new`, if the life is out of range or a request for memory is refused. They
//! forget the link in `into_writer`, and a buffer and its packets if a flow is closed. They forget a payload in
//! `arrive` if the packet is refused, and in `finish` if it is sent. Others have a `reserve` in `turn`, or in another
//! call that is to take no memory. Tokens count the drops of shelves and writers; the rest is seen over the allocator
//! of `.ci/allocator.c` alone, as `.ci/memory` runs it.

use super::allocator::{
    REQUESTS, is_refused, keeps_none, mark, refuse, refuse_each, takes_none, was_refused, were_made,
};
use super::assertions::same;
use super::talk::{Said, bring, said, talk};
use super::tariffs::Four;
use share_base::{Body, FlowNo, Name, Refusal, Reply, Turn, Version};
use share_core::Engine;
use share_model::{PlainWriter, Rates};
use std::alloc::Global;
use std::io;
use std::io::{ErrorKind, Write};
use std::process::Abort;
use std::sync::Arc;

/// A shelf that holds a token.
#[derive(Drop)]
struct HeldShelf {
    shelf: Four,
    token: Arc<u8>,
}

impl Rates for HeldShelf {
    ghost use Rattle.link_tests.specs.Tariffs.{are_in_range, four_rates};

    ghost rates = { λ _. four_rates };

    ghost in_range = { λ _. are_in_range };

    fn has(&self, number: u64) -> bool {
        self.shelf.has(number)
    }

    fn units(&self, number: u64, count: u32) -> u64 {
        self.shelf.units(number, count)
    }

    fn post(&self, number: u64, account: u64, units: u64) -> u64 {
        self.shelf.post(number, account, units)
    }
}

/// A writer that holds a token and takes no memory. Its second call is interrupted, the others accept all.
#[derive(Drop)]
struct HeldWriter {
    calls: u8,
    token: Arc<u8>,
}

impl Write for HeldWriter {
    fn write(&mut self, buf: &[u8]) -> io::Result<usize> {
        self.calls = self.calls.saturating_add(1);
        if self.calls == 2 {
            Err(ErrorKind::Interrupted.into())
        } else {
            Ok(buf.len())
        }
    }

    fn flush(&mut self) -> io::Result<()> {
        Ok(())
    }
}

type HeldEngine = Engine<PlainWriter<HeldWriter>, HeldShelf>;

/// The tokens of a shelf and of a writer.
#[derive(Drop)]
struct Tokens {
    shelf: Arc<u8>,
    writer: Arc<u8>,
}

impl Tokens {
    fn new(rt: &impl Abort, alloc: Global) -> Tokens {
        Tokens {
            shelf: Arc::new(alloc, 0).expect(rt, "memory"),
            writer: Arc::new(alloc, 0).expect(rt, "memory"),
        }
    }

    // Whether the shelf and the writer of a link are there.
    fn are_held(&self, rt: &impl Abort, row: &str, wanted: (bool, bool)) {
        let shelf = Arc::strong_count(&self.shelf) > 1;
        let writer = Arc::strong_count(&self.writer) > 1;
        same(rt, row, (shelf, writer), wanted);
    }

    fn engine(&self, rt: &impl Abort, alloc: Global, life: u64) -> Result<HeldEngine, Refusal> {
        let shelf = HeldShelf {
            shelf: Four,
            token: Arc::try_clone(&self.shelf).expect(rt, "a token"),
        };
        let writer = PlainWriter(HeldWriter {
            calls: 0,
            token: Arc::try_clone(&self.writer).expect(rt, "a token"),
        });
        Engine::new(alloc, shelf, life, writer)
    }
}

// A life out of range drops the shelf and the writer.
fn lives_are_out_of_range(rt: &impl Abort, alloc: Global, tokens: &Tokens) {
    for &life in &[0, 16_777_217] {
        let refusal = tokens.engine(rt, alloc, life).err();
        same(rt, life, refusal, Some(Refusal::Range));
        tokens.are_held(rt, "a life out of range", (false, false));
    }
}

// Whichever request of a new link is refused, the shelf and the writer are dropped, and nothing is kept.
fn is_refused_memory(rt: &impl Abort, alloc: Global, tokens: &Tokens) {
    for request in 1..100_u16 {
        mark(alloc);
        refuse(alloc, request);
        let made = tokens.engine(rt, alloc, 1);
        let refused = was_refused(alloc);
        let wanted = if refused {
            Some(Refusal::NoMemory)
        } else {
            None
        };
        same(rt, request, made.err(), wanted);
        keeps_none(rt, request, alloc);
        tokens.are_held(rt, "a link without memory", (false, false));
        if !refused {
            break;
        }
    }
}

// The writer is given back, and all else is dropped.
fn gives_its_writer(rt: &impl Abort, alloc: Global, tokens: &Tokens) {
    mark(alloc);
    let link = tokens.engine(rt, alloc, 1).expect(rt, "a link");
    refuse_each(alloc);
    let writer = link.into_writer();
    takes_none(rt, "the writer is given back", alloc);
    tokens.are_held(rt, "the writer is given back", (false, true));
    drop(writer);
    tokens.are_held(rt, "the writer is dropped", (false, false));
    keeps_none(rt, "the link", alloc);
}

// The writer is given back with the buffers, and all else is dropped.
fn gives_its_parts(rt: &impl Abort, alloc: Global, tokens: &Tokens) {
    mark(alloc);
    let link = tokens.engine(rt, alloc, 1).expect(rt, "a link");
    refuse_each(alloc);
    let (writer, buffers) = link.into_parts();
    let waiting = buffers.len(FlowNo(1));
    takes_none(rt, "parts", alloc);
    same(rt, "parts", waiting, 0);
    drop(buffers);
    tokens.are_held(rt, "parts", (false, true));
    drop(writer);
    keeps_none(rt, "parts", alloc);
}

/// The commands that take memory, and the number of requests that each makes on a new link. A flow makes one for its
/// ring and four for the table of flows. A currency makes four for the table of currencies, and a ticket one for that
/// of tickets.
static GROWING: [(&str, u16); 3] = [
    ("open a 4 1 = flow 1", 5),
    ("mkcur x = ok", 4),
    ("mktkt 10 base = ticket 1", 1),
];

// Each request of each of these commands is refused in turn, on a new link each. The next command takes the number that
// the refused one would have taken.
fn finds_memory_at_last(rt: &impl Abort, alloc: Global, said: &mut Said, tokens: &Tokens) {
    for &(row, requests) in &GROWING {
        for request in 1..REQUESTS {
            let mut link = tokens.engine(rt, alloc, 64).expect(rt, "a link");
            let refused = is_refused(rt, alloc, said, &mut link, row, request);
            if refused {
                talk(rt, alloc, said, &mut link, row);
            }
            drop(link);
            if !refused {
                were_made(rt, row, request - 1, requests);
                break;
            }
        }
    }
}

/// The payload is too long to stand in its place.
const UNDER_WAY: &str = "\
    open a 2 1 = flow 1; mktkt 10 base = ticket 1; fund 1 flow a = ok; fill a 40 = packet 1 1; \
    turn 65535 = wrote 1 1 52 whole";

/// None of these packets is kept: two are refused, and two are sent, the second in two parts.
const REFUSED_AND_SENT: &str = "\
    fill zz 40 = no 7 NoFlow; fill a 40 = packet 1 2; fill a 40 = packet 1 3; fill a 40 = no 19 BufferFull; \
    turn 65535 = again; turn 65535 = wrote 1 2 52 whole; turn 20 = wrote 1 3 20 part; \
    turn 65535 = wrote 1 3 32 whole";

const OPENED_AND_CLOSED: &str = "\
    open b 4 1 = flow 2; fill b 40 = packet 2 1; fill b 40 = packet 2 2; close b = closed 2 2 0";

fn drops_packets(rt: &impl Abort, alloc: Global, said: &mut Said, link: &mut HeldEngine) {
    talk(rt, alloc, said, link, UNDER_WAY);
    for &rows in &[REFUSED_AND_SENT, OPENED_AND_CLOSED] {
        mark(alloc);
        talk(rt, alloc, said, link, rows);
        keeps_none(rt, rows, alloc);
    }
}

fn drops_packets_when_spent(
    rt: &impl Abort,
    alloc: Global,
    said: &mut Said,
    link: &mut HeldEngine,
) {
    talk(rt, alloc, said, link, "open a 2 1 = flow 1");
    mark(alloc);
    talk(rt, alloc, said, link, "fill a 40 = no 2 Spent");
    keeps_none(rt, "a packet that comes too late", alloc);
}

const READY: &str = "\
    open a 1 1 = flow 1; mkcur x = ok; mktkt 10 base = ticket 1; mktkt 5 x = ticket 2; mktkt 1 base = ticket 3";

/// These calls take no memory. The payloads stand in their place, so that making them takes none either.
const TAKE_NONE: &str = "\
    fund 1 cur x = ok; fund 2 flow a = ok; send a 6869 = packet 1 1; send a 6869 = no 19 BufferFull; \
    send zz 6869 = no 7 NoFlow; tickets 1 = 10; amend 1 12 = ok; amend 9 12 = no 6 NoTicket; tickets 1 = 12; \
    packets 1 = 1; limit 1 = 1; life = 64; spent = 0; broken = 0; sends = 1; turn 5 = wrote 1 1 5 part; \
    hold a = ok; hold a = no 21 Held; held 1 = 1; turn 65535 = again; turn 65535 = wrote 1 1 9 whole; \
    turn 65535 = idle; sends = 0; resume a = ok; resume a = no 22 NotHeld; account 1 = 14; flow a = 1; \
    unfund 2 = ok; fund 3 flow a = ok; send a 6869 = packet 1 2; torn = torn 1 2 0; turn 65535 = no 20 Broken; \
    broken = 1; unfund 3 = ok; rmtkt 3 = ok; rmtkt 2 = ok; unfund 1 = ok; rmtkt 1 = ok; rmcur x = ok; \
    close a = closed 1 0 14; events = 29; place 1 = none; turn 65535 = no 20 Broken";

fn takes_no_memory(rt: &impl Abort, alloc: Global, said: &mut Said, link: &mut HeldEngine) {
    talk(rt, alloc, said, link, READY);
    refuse_each(alloc);
    talk(rt, alloc, said, link, TAKE_NONE);
    let shown = link.row(0).is_none() && link.writer().0.calls == 3;
    let counted = (link.totals().bytes, link.global().tickets);
    let has_room = link.has_room(Name::read(b"a").expect(rt, "a name"));
    let lent = link.turn_into(&mut PlainWriter(io::sink()), 1);
    let version = link.version();
    takes_none(rt, "a call", alloc);
    same(rt, "what is read", (shown, counted), (true, (14, 0)));
    same(rt, "a turn of another writer", lent, Turn::Broken);
    same(
        rt,
        "the version",
        (version, has_room),
        (Version::One, false),
    );
}

const FUNDED: &str = "open a 2 1 = flow 1; mktkt 10 base = ticket 1; fund 1 flow a = ok";

/// The first long packet is sent by its header and its payload, and the second one in two pieces.
const LONG_SENT: &str = "\
    turn 17 = wrote 1 1 17 part; turn 65535 = again; turn 65535 = wrote 1 1 9000 whole; \
    turn 100 = wrote 1 2 100 part; turn 65535 = wrote 1 2 8917 whole; turn 65535 = idle";

const LONG_TORN: &str = "\
    turn 100 = wrote 1 3 100 part; torn = torn 1 3 100; turn 65535 = no 20 Broken; close a = closed 1 0 18134";

fn packet(seq: u32) -> Reply {
    Reply::Packet {
        flow: FlowNo(1),
        seq,
    }
}

fn longest(rt: &impl Abort, alloc: Global) -> Body {
    Body::new(alloc, [b'x'; 9000].as_slice()).expect(rt, "memory")
}

fn comes(rt: &impl Abort, alloc: Global, link: &mut HeldEngine, body: Body, wanted: Reply) {
    let reply = bring(rt, alloc, link, 1, "a", body);
    same(rt, "a long packet", reply, wanted);
}

// The buffer has room for two of the longest packets. They are sent, and the third one is dropped; then one is torn.
fn long_payloads_take_none(rt: &impl Abort, alloc: Global, said: &mut Said, link: &mut HeldEngine) {
    assert!(rt; link.events() == 0);
    link.choose(Version::Two);
    talk(rt, alloc, said, link, FUNDED);
    mark(alloc);
    let (first, second, third) = (longest(rt, alloc), longest(rt, alloc), longest(rt, alloc));
    refuse_each(alloc);
    comes(rt, alloc, link, first, packet(1));
    comes(rt, alloc, link, second, packet(2));
    let full = Reply::Refused(Refusal::BufferFull);
    comes(rt, alloc, link, third, full);
    talk(rt, alloc, said, link, LONG_SENT);
    takes_none(rt, "long packets", alloc);
    keeps_none(rt, "long packets", alloc);
    let torn = longest(rt, alloc);
    refuse_each(alloc);
    comes(rt, alloc, link, torn, packet(3));
    talk(rt, alloc, said, link, LONG_TORN);
    takes_none(rt, "a torn packet", alloc);
}

/// The events that are played on a new link, and its life.
#[derive(Clone, Copy)]
enum Case {
    Packets,
    Spent,
    NoMemory,
    LongPayloads,
}

static CASES: [(Case, u64); 4] = [
    (Case::Packets, 64),
    (Case::Spent, 1),
    (Case::NoMemory, 64),
    (Case::LongPayloads, 64),
];

fn plays(rt: &impl Abort, alloc: Global, said: &mut Said, link: &mut HeldEngine, case: Case) {
    match case {
        Case::Packets => drops_packets(rt, alloc, said, link),
        Case::Spent => drops_packets_when_spent(rt, alloc, said, link),
        Case::NoMemory => takes_no_memory(rt, alloc, said, link),
        Case::LongPayloads => long_payloads_take_none(rt, alloc, said, link),
    }
}

#[test]
fn what_is_not_kept_is_dropped_and_calls_take_no_memory(rt: HostRuntime) {
    let alloc = rt.alloc();
    let tokens = Tokens::new(&rt, alloc);
    let mut said = said(&rt, alloc);
    lives_are_out_of_range(&rt, alloc, &tokens);
    is_refused_memory(&rt, alloc, &tokens);
    gives_its_writer(&rt, alloc, &tokens);
    gives_its_parts(&rt, alloc, &tokens);
    finds_memory_at_last(&rt, alloc, &mut said, &tokens);
    for &(case, life) in &CASES {
        let mut link = tokens.engine(&rt, alloc, life).expect(&rt, "a link");
        plays(&rt, alloc, &mut said, &mut link, case);
        drop(link);
    }
    drop(said);
}
