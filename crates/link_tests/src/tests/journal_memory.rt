//! Tests of calls of a journal and a recorder that find no memory, and of calls that take none: no contract sees these.
//! Each call that takes memory is made on new values again and again. First its first request is refused, then its
//! second, and so on, until none is refused. Requests are refused by the allocator of `.ci/allocator.c` alone, with
//! which `.ci/memory` runs these tests. With any other the first call succeeds, and no block is seen.

use super::allocator::{
    REQUESTS, is_refused, keeps_none, mark, refuse, refuse_each, takes_none, was_refused, were_made,
};
use super::assertions::same;
use super::journal::{are_parts, has_two, lives_have_limits, parts_back, push_two};
use super::made::{VERSIONS, journaled, linked, paired, recording};
use super::talk::{Said, said, talk};
use super::tariffs::Four;
use share_base::{Refusal, Version};
use share_core::Engine;
use share_journal::{Journal, Recorder};
use share_model::{PlainWriter, Tape};
use std::alloc::Global;
use std::io;
use std::io::Sink;
use std::process::Abort;

/// A recorder over a writer that takes no memory.
type Sinking = Recorder<PlainWriter<Sink>, Four>;

fn sinking(rt: &impl Abort, alloc: Global, version: Version, life: u64) -> Sinking {
    recording(rt, alloc, Four, version, life, PlainWriter(io::sink()))
}

/// The tables have no more places.
const FULL: &str = "\
    open a 4 1 = flow 1; open b 4 1 = flow 2; open c 4 1 = flow 3; open d 4 1 = flow 4; open e 4 1 = flow 5; \
    open f 4 1 = flow 6; open g 4 1 = flow 7; open h 4 1 = flow 8; open i 4 1 = flow 9; mkcur a = ok; mkcur b = ok; \
    mkcur c = ok; mkcur d = ok; mkcur e = ok; mkcur f = ok; mkcur g = ok; mkcur h = ok; mkcur i = ok; \
    mktkt 10 base = ticket 1; mktkt 10 base = ticket 2; mktkt 10 base = ticket 3; mktkt 10 base = ticket 4";

/// Commands that take memory: the rows before one, the command, and the number of its requests. A new flow takes memory
/// for its packets, and the first one for the table of the flows. That is for the two parts of its index, the names,
/// and the flows. The table of the currencies has as many parts: what is beside its names is empty, but is asked for
/// too. That of the tickets has one. All parts of a full table grow.
static GROWTHS: [(Option<&str>, &str, u16); 6] = [
    (None, "open a 4 1 = flow 1", 5),
    (None, "mkcur x = ok", 4),
    (None, "mktkt 10 base = ticket 1", 1),
    (Some(FULL), "open j 4 1 = flow 10", 5),
    (Some(FULL), "mkcur j = ok", 4),
    (Some(FULL), "mktkt 10 base = ticket 5", 1),
];

// After a refusal the same command is refused at its first request, and then it is done as if never refused.
fn is_refused_and_done(
    rt: &impl Abort,
    alloc: Global,
    said: &mut Said,
    growth: (Option<&str>, &str, u16),
    request: u16,
) -> bool {
    let (before, row, _) = growth;
    let mut recorder = sinking(rt, alloc, Version::One, 64);
    if let Some(rows) = before {
        talk(rt, alloc, said, &mut recorder, rows);
    }
    let refused = is_refused(rt, alloc, said, &mut recorder, row, request);
    if refused && is_refused(rt, alloc, said, &mut recorder, row, 1) {
        talk(rt, alloc, said, &mut recorder, row);
    }
    drop(recorder);
    refused
}

#[test]
fn commands_are_recorded_once_their_memory_is_found(rt: HostRuntime) {
    let alloc = rt.alloc();
    let mut said = said(&rt, alloc);
    for &growth in &GROWTHS {
        for request in 1..REQUESTS {
            mark(alloc);
            let refused = is_refused_and_done(&rt, alloc, &mut said, growth, request);
            keeps_none(&rt, growth.1, alloc);
            if !refused {
                were_made(&rt, growth.1, request - 1, growth.2);
                break;
            }
        }
    }
    drop(said);
}

const READY: &str = "\
    open a 1 1 = flow 1; 2: mkcur x = ok; 2: mktkt 10 base = ticket 1; 2: mktkt 5 x = ticket 2; \
    2: mktkt 1 base = ticket 3";

/// These calls take no memory, and nor do a frame's writes after them. The payloads stand in their place, so that
/// making them takes none either.
const BROUGHT: &str = "\
    2: fund 1 cur x = ok; 2: fund 2 flow a = ok; 3: send a 6869 = packet 1 1; 3: send a 6869 = no 19 BufferFull; \
    3: send zz 6869 = no 7 NoFlow; 2: hold a = ok; 2: hold a = no 21 Held; 2: amend 1 12 = ok; \
    2: amend 9 12 = no 6 NoTicket; turn 65535 = idle; 2: resume a = ok; 2: resume a = no 22 NotHeld; \
    turn 5 = wrote 1 1 5 part";

/// The rest of a frame of each version, and the close of its flow.
static WRITTEN: [&str; 2] = [
    "turn 65535 = wrote 1 1 9 whole",
    "turn 65535 = wrote 1 1 14 whole",
];

static CLOSED: [&str; 2] = ["close a = closed 1 0 14", "close a = closed 1 0 19"];

const TORN: &str = "\
    turn 65535 = idle; torn = idle; 2: unfund 2 = ok; 2: fund 3 flow a = ok; 3: send a 6869 = packet 1 2; \
    torn = torn 1 2 0; turn 65535 = no 20 Broken; 2: unfund 3 = ok; 2: rmtkt 3 = ok; 2: rmtkt 2 = ok; \
    2: unfund 1 = ok; 2: rmtkt 1 = ok; 2: rmcur x = ok; 2: rmtkt 1 = no 6 NoTicket";

const ENDED: &str = "open a 0 1 = no 2 Spent; turn 65535 = no 2 Spent";

/// The number of events that these rows make.
const SPENT: u64 = 30;

// Calls, readers, the audit, and taking apart.
fn calls_take_none(
    rt: &impl Abort,
    alloc: Global,
    said: &mut Said,
    recorder: &mut Sinking,
    place: usize,
) {
    let (written, closed) = (WRITTEN[place.min(1)], CLOSED[place.min(1)]);
    talk(rt, alloc, said, recorder, READY);
    refuse_each(alloc);
    for &rows in &[BROUGHT, written, TORN, closed, ENDED] {
        talk(rt, alloc, said, recorder, rows);
    }
    let mut sink = PlainWriter(io::sink());
    let audited = recorder.journal().audit(&mut sink);
    let tape = Tape::new(alloc);
    let journal = recorder.journal();
    let shown = (
        journal.entries().len(),
        journal.entry(31).is_none(),
        recorder.life(),
    );
    let versions = (journal.version(), recorder.engine().version());
    takes_none(rt, "a call", alloc);
    same(
        rt,
        "the journal",
        (audited, shown),
        (Ok(()), (30, true, SPENT)),
    );
    let version = VERSIONS[place.min(1)];
    same(rt, "the versions", versions, (version, version));
    drop(tape);
}

// A link that makes no recorder with this journal.
fn without(
    rt: &impl Abort,
    engine: Engine<PlainWriter<Sink>, Four>,
    journal: Journal,
) -> Engine<PlainWriter<Sink>, Four> {
    let (engine, journal) = parts_back(rt, engine, journal);
    drop(journal);
    engine
}

fn ends_without_memory(rt: &impl Abort, alloc: Global, recorder: Sinking, version: Version) {
    refuse_each(alloc);
    let (engine, journal) = recorder.into_parts();
    takes_none(rt, "parts", alloc);
    are_parts(
        rt,
        &engine,
        &journal,
        (SPENT, SPENT),
        (version, version),
        SPENT,
    );
    drop(engine);
    drop(journal);
}

// A link and a journal make a recorder, and come back if their lives or versions differ, without memory.
fn parts_take_none(rt: &impl Abort, alloc: Global, said: &mut Said, place: usize) {
    let (version, other) = if place == 0 {
        (Version::One, Version::Two)
    } else {
        (Version::Two, Version::One)
    };
    let engine = linked(
        rt,
        alloc,
        Four,
        Version::One,
        SPENT,
        PlainWriter(io::sink()),
    );
    let journal = Journal::new(alloc, SPENT).expect(rt, "a journal");
    let shorter = journaled(rt, alloc, version, 5);
    let differing = journaled(rt, alloc, other, SPENT);
    refuse_each(alloc);
    let (mut engine, mut journal) = (engine, journal);
    engine.choose(version);
    journal.choose(version);
    let engine = without(rt, engine, shorter);
    let engine = without(rt, engine, differing);
    let mut recorder = paired(rt, engine, journal);
    takes_none(rt, "a recorder", alloc);
    calls_take_none(rt, alloc, said, &mut recorder, place);
    ends_without_memory(rt, alloc, recorder, version);
}

/// One of these packets, which are too long to stand in their place, is sent, one is torn, one is dropped, and two are
/// refused.
static HELD: [&str; 2] = [
    "open a 2 1 = flow 1; mktkt 10 base = ticket 1; fund 1 flow a = ok; fill a 40 = packet 1 1; \
    fill a 40 = packet 1 2; fill a 40 = no 19 BufferFull; fill zz 40 = no 7 NoFlow; \
    turn 65535 = wrote 1 1 52 whole; turn 20 = wrote 1 2 20 part; torn = torn 1 2 20; fill a 40 = packet 1 3; \
    close a = closed 1 1 72",
    "open a 2 1 = flow 1; mktkt 10 base = ticket 1; fund 1 flow a = ok; fill a 9000 = packet 1 1; \
    fill a 9000 = packet 1 2; fill a 9000 = no 19 BufferFull; fill zz 9000 = no 7 NoFlow; \
    turn 65535 = wrote 1 1 9017 whole; turn 20 = wrote 1 2 20 part; torn = torn 1 2 20; \
    fill a 9000 = packet 1 3; close a = closed 1 1 9037",
];

/// A packet that is no event leaves nothing.
static LATE: [&str; 2] = ["fill a 40 = no 2 Spent", "fill a 9000 = no 2 Spent"];

// Memory of packets that were recorded is given back with the recorder.
fn keeps_nothing(
    rt: &impl Abort,
    alloc: Global,
    said: &mut Said,
    version: Version,
    rows: &str,
    late: &str,
) {
    mark(alloc);
    let mut recorder = sinking(rt, alloc, version, 12);
    talk(rt, alloc, said, &mut recorder, rows);
    drop(recorder);
    keeps_none(rt, rows, alloc);
    let mut recorder = sinking(rt, alloc, version, 12);
    talk(rt, alloc, said, &mut recorder, rows);
    mark(alloc);
    talk(rt, alloc, said, &mut recorder, late);
    keeps_none(rt, late, alloc);
    drop(recorder);
}

#[test]
fn recorders_take_no_more_memory_and_keep_nothing(rt: HostRuntime) {
    let alloc = rt.alloc();
    let mut said = said(&rt, alloc);
    for place in 0..2 {
        mark(alloc);
        parts_take_none(&rt, alloc, &mut said, place);
        keeps_none(&rt, "a recorder", alloc);
    }
    for ((version, &rows), &late) in VERSIONS.iter().zip(&HELD).zip(&LATE) {
        keeps_nothing(&rt, alloc, &mut said, *version, rows, late);
    }
    drop(said);
}

// A journal that is there takes no more.
fn takes_no_more(rt: &impl Abort, alloc: Global) {
    let mut journal = Journal::new(alloc, 2).expect(rt, "a journal");
    refuse_each(alloc);
    lives_have_limits(rt, alloc);
    journal.choose(Version::Two);
    push_two(rt, alloc, &mut journal);
    has_two(rt, &journal);
    let held = (journal.entries().len(), journal.version());
    takes_none(rt, "a journal", alloc);
    same(rt, "a journal", held, (2, Version::Two));
    drop(journal);
}

#[test]
fn a_journal_is_made_once_its_memory_is_found(rt: HostRuntime) {
    let alloc = rt.alloc();
    takes_no_more(&rt, alloc);
    for request in 1..REQUESTS {
        mark(alloc);
        refuse(alloc, request);
        let made = Journal::new(alloc, 4);
        let refused = was_refused(alloc);
        let wanted = if refused {
            Some(Refusal::NoMemory)
        } else {
            None
        };
        same(&rt, request, made.err(), wanted);
        keeps_none(&rt, request, alloc);
        if !refused {
            were_made(&rt, "a journal", request - 1, 1);
            break;
        }
    }
}
