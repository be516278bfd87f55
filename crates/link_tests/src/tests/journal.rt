//! Worked runs of recorders: what is asked, and what the writer, the journal and its audit are after it.
ghost use Rattle.std.specs.Prelude.{◌≤◌, ◌+◌, length, IfSome};
ghost use Rattle.share_journal.specs.Records.{AcceptedNothing};

use super::assertions::{holds, same};
use super::audits::{Recording, is_cut_at_each, is_written, replays};
use super::made::{VERSIONS, journaled, linked, recording, scripted};
use super::talk::{Said, play, said, talk, text_of};
use super::tariffs::Four;
use share_base::{Body, Event, FlowNo, Name, Outcome, Refusal, Reply, Turn, Version};
use share_core::Engine;
use share_journal::{Entry, Journal, Recorder, Source};
use share_model::{Answer, PlainWriter, TellingWriter};
use share_script::{write_reply, write_turn};
use std::alloc::Global;
use std::process::Abort;

/// The version, the life, what the writer answers, and the rows. Then come the bytes that the writer holds, the counts
/// of the calls that it accepted, the number of entries, and their audit.
#[derive(Clone, Copy)]
struct Run {
    version: Version,
    life: u64,
    answers: &'static [Answer],
    rows: &'static str,
    bytes: &'static [u8],
    counts: &'static [usize],
    entries: u64,
    audit: &'static str,
}

const EVERY_KIND: Run = Run {
    version: Version::One,
    life: 10,
    answers: &[Answer::Accepted(5), Answer::Interrupted],
    rows: "\
        open a 1 1 = flow 1; 2: mktkt 10 base = ticket 1; 2: fund 1 flow a = ok; turn 65535 = idle; \
        send a 6869 = packet 1 1; 2: send a 78 = no 19 BufferFull; 2: send b 78 = no 7 NoFlow; \
        open a 1 1 = no 9 Taken; turn 5 = wrote 1 1 5 part; turn 3 = again; turn 65535 = wrote 1 1 9 whole; \
        torn = idle; send a 78 = packet 1 2; turn 65535 = no 2 Spent; torn = no 2 Spent; send a 78 = no 2 Spent; \
        open b 1 1 = no 2 Spent",
    bytes: b"\x4c\x01\0\0\0\x01\0\0\0\x01\0\x02hi",
    counts: &[5, 9],
    entries: 10,
    audit: "audit 1\nopen a 1 1\nmktkt 10 base\nfund 1 flow a\nsend a 6869\nsend a 78\nsend b 78\n\
        open a 1 1\nturn 5\nturn 9\nsend a 78\n",
};

const ONE_EVENT: Run = Run {
    version: Version::One,
    life: 1,
    answers: &[],
    rows: "\
        mkcur x = ok; mkcur y = no 2 Spent",
    bytes: b"",
    counts: &[],
    entries: 1,
    audit: "audit 1\nmkcur x\n",
};

/// The example of an audit in the specification.
const TORN_PACKET: Run = Run {
    version: Version::One,
    life: 65536,
    answers: &[],
    rows: "\
        open a 4 2 = flow 1; mktkt 1 base = ticket 1; fund 1 flow a = ok; send a 6869 = packet 1 1; \
        turn 7 = wrote 1 1 7 part; torn = torn 1 1 7; turn 65535 = no 20 Broken; mkcur x = ok",
    bytes: b"\x4c\x01\0\0\0\x01\0",
    counts: &[7],
    entries: 7,
    audit: "audit 1\nopen a 4 2\nmktkt 1 base\nfund 1 flow a\nsend a 6869\nturn 7\ntorn\nmkcur x\n",
};

/// Each kind of command but those of `HOLDING`, one frame by short writes, and refusals, of which one is the writer's
/// interruption.
const EVERY_COMMAND: Run = Run {
    version: Version::One,
    life: 64,
    answers: &[
        Answer::Accepted(5),
        Answer::Accepted(1),
        Answer::Interrupted,
        Answer::Accepted(4),
        Answer::Accepted(100),
    ],
    rows: "\
        mkcur x-1_y = ok; 2: mktkt 3 base = ticket 1; 3: fund 1 cur x-1_y = ok; 4: mktkt 1048577 x-1_y = no 4 Range; \
        4: mktkt 1048576 x-1_y = ticket 2; 5: open abcdefghijklmnop 4 1 = flow 1; \
        6: fund 2 flow abcdefghijklmnop = ok; 7: send abcdefghijklmnop 00ff1a = packet 1 1; \
        turn 65535 = wrote 1 1 5 part; 8: close abcdefghijklmnop = no 18 Sending; turn 65535 = wrote 1 1 1 part; \
        turn 65535 = again; turn 65535 = wrote 1 1 4 part; turn 65535 = wrote 1 1 5 whole; 9: unfund 2 = ok; \
        9: rmtkt 2 = ok; 9: rmtkt 18446744073709551615 = no 6 NoTicket; 9: rmcur x-1_y = no 11 InUse; \
        9: unfund 1 = ok; 9: rmcur x-1_y = ok; 7: send abcdefghijklmnop 7a = packet 1 2; turn 65535 = idle; \
        8: close abcdefghijklmnop = closed 1 1 15",
    bytes: b"\x4c\x01\0\0\0\x01\0\0\0\x01\0\x03\x00\xff\x1a",
    counts: &[5, 1, 4, 5],
    entries: 21,
    audit: "audit 1\nmkcur x-1_y\nmktkt 3 base\nfund 1 cur x-1_y\nmktkt 1048577 x-1_y\n\
        mktkt 1048576 x-1_y\nopen abcdefghijklmnop 4 1\nfund 2 flow abcdefghijklmnop\n\
        send abcdefghijklmnop 00ff1a\nturn 5\nclose abcdefghijklmnop\nturn 1\nturn 4\nturn 5\n\
        unfund 2\nrmtkt 2\nrmtkt 18446744073709551615\nrmcur x-1_y\nunfund 1\nrmcur x-1_y\n\
        send abcdefghijklmnop 7a\nclose abcdefghijklmnop\n",
};

/// Each of the three commands, done and refused. A packet waits for the end of a hold; the rest of its frame does not
/// wait for that of the next one.
const HOLDING: Run = Run {
    version: Version::One,
    life: 64,
    answers: &[],
    rows: "\
        open a 4 1 = flow 1; 2: mktkt 10 base = ticket 1; 2: fund 1 flow a = ok; 3: hold a = ok; \
        3: hold b = no 7 NoFlow; send a 6869 = packet 1 1; turn 65535 = idle; 3: hold a = no 21 Held; \
        4: amend 1 1048577 = no 4 Range; 4: amend 2 1 = no 6 NoTicket; 4: amend 1 1048576 = ok; \
        5: resume b = no 7 NoFlow; 5: resume a = ok; 5: resume a = no 22 NotHeld; turn 5 = wrote 1 1 5 part; \
        3: hold a = ok; turn 65535 = wrote 1 1 9 whole; send a 78 = packet 1 2; turn 65535 = idle",
    bytes: b"\x4c\x01\0\0\0\x01\0\0\0\x01\0\x02hi",
    counts: &[5, 9],
    entries: 17,
    audit: "audit 1\nopen a 4 1\nmktkt 10 base\nfund 1 flow a\nhold a\nhold b\nsend a 6869\nhold a\n\
        amend 1 1048577\namend 2 1\namend 1 1048576\nresume b\nresume a\nresume a\nturn 5\nhold a\nturn 9\n\
        send a 78\n",
};

/// Each write call takes one field of the frame.
const FIELD_BY_FIELD: Run = Run {
    version: Version::Two,
    life: 11,
    answers: &[
        Answer::Accepted(2),
        Answer::Accepted(1),
        Answer::Interrupted,
        Answer::Accepted(4),
        Answer::Accepted(8),
        Answer::Accepted(2),
    ],
    rows: "\
        open a 4 1 = flow 1; 2: mktkt 10 base = ticket 1; 2: fund 1 flow a = ok; send a 6869 = packet 1 1; \
        turn 65535 = wrote 1 1 2 part; turn 1 = wrote 1 1 1 part; turn 65535 = again; turn 65535 = wrote 1 1 4 part; \
        turn 65535 = wrote 1 1 8 part; turn 65535 = wrote 1 1 2 part; turn 65535 = wrote 1 1 2 whole; \
        close a = closed 1 0 19; turn 65535 = no 2 Spent",
    bytes: b"\x4c\x02\x01\0\0\0\x01\0\0\0\0\0\0\0\x01\0\x02hi",
    counts: &[2, 1, 4, 8, 2, 2],
    entries: 11,
    audit: "audit 2\nopen a 4 1\nmktkt 10 base\nfund 1 flow a\nsend a 6869\nturn 2\nturn 1\nturn 4\n\
        turn 8\nturn 2\nturn 2\nclose a\n",
};

static RUNS: [Run; 6] = [
    EVERY_KIND,
    ONE_EVENT,
    TORN_PACKET,
    EVERY_COMMAND,
    HOLDING,
    FIELD_BY_FIELD,
];

/// The answers without an event.
static NO_EVENTS: [&str; 5] = [
    "idle",
    "again",
    "no 20 Broken",
    "no 2 Spent",
    "no 1 NoMemory",
];

fn source_of(number: u64, asked: &str) -> Source {
    if asked.starts_with("turn") || asked == "torn" {
        Source::Link
    } else if asked.starts_with("send") {
        Source::Worker(number)
    } else {
        Source::Clerk(number)
    }
}

// The entry has the answer to this row, and the row's source.
fn is_noted(rt: &impl Abort, said: &mut Said, entry: &Entry, asked: &str, answer: &str) {
    let (number, line) = asked.split_once(": ").unwrap_or(("1", asked));
    let number = number.parse::<u64>().ok().expect(rt, "a number");
    said.0.clear();
    let written = match &entry.reply {
        Outcome::Replied(reply) => write_reply(reply, said),
        Outcome::Turned(turn) => write_turn(turn, said),
    };
    same(rt, asked, (written, text_of(rt, said)), (Ok(()), answer));
    same(rt, asked, entry.source, source_of(number, line));
}

// Each row that is an event has an entry, and there are no others.
fn are_noted(rt: &impl Abort, said: &mut Said, journal: &Journal, rows: &'static str) {
    let mut entries = journal.entries().iter();
    for row in rows.split(';') {
        let (asked, answer) = row.trim().split_once(" = ").expect(rt, "a row");
        if !NO_EVENTS.contains(&answer) {
            let entry = entries.next().expect(rt, "an entry");
            is_noted(rt, said, entry, asked, answer);
        }
    }
    holds(rt, rows, entries.next().is_none());
}

// The writer's bytes after a run, and the journal with its audit.
fn is_as_worked(rt: &impl Abort, alloc: Global, recorder: &Recording, run: &Run) {
    let writer = recorder.engine().writer();
    same(rt, run.rows, writer.bytes(), run.bytes);
    let counts = writer.counts(alloc).expect(rt, "memory");
    same(rt, run.rows, counts.as_slice(), run.counts);
    drop(counts);
    is_written(rt, alloc, recorder.journal(), run.audit.as_bytes());
    is_cut_at_each(rt, alloc, recorder.journal(), run.audit.as_bytes());
    replays(rt, alloc, recorder, run.life);
    replays(rt, alloc, recorder, run.life.saturating_add(1));
}

/// The lives and versions of a link and a journal, and the number of events that each holds.
pub(super) fn are_parts<W>(
    rt: &impl Abort,
    engine: &Engine<W, Four>,
    journal: &Journal,
    lives: (u64, u64),
    versions: (Version, Version),
    events: u64,
) {
    let both = (engine.version(), journal.version());
    same(rt, "the lives", (engine.life(), journal.life()), lives);
    same(rt, "the versions", both, versions);
    let both = (engine.events(), journal.len());
    same(rt, "the events", both, (events, events));
}

fn plays(rt: &impl Abort, alloc: Global, run: &Run) {
    let writer = scripted(rt, alloc, run.answers);
    let mut recorder = recording(rt, alloc, Four, run.version, run.life, writer);
    let mut said = said(rt, alloc);
    talk(rt, alloc, &mut said, &mut recorder, run.rows);
    are_noted(rt, &mut said, recorder.journal(), run.rows);
    drop(said);
    is_as_worked(rt, alloc, &recorder, run);
    same(rt, run.rows, recorder.life(), run.life);
    let (engine, journal) = recorder.into_parts();
    let (lives, versions) = ((run.life, run.life), (run.version, run.version));
    are_parts(rt, &engine, &journal, lives, versions, run.entries);
    drop(engine);
    drop(journal);
}

#[test]
fn recorders_play_as_worked_and_their_audits_again(rt: HostRuntime) {
    for run in &RUNS {
        plays(&rt, rt.alloc(), run);
    }
}

/// Both parts, which make no recorder.
pub(super) fn parts_back<W: TellingWriter + Drop>(
    rt: &impl Abort,
    engine: Engine<W, Four>,
    journal: Journal,
) -> (Engine<W, Four>, Journal)
    requires { IfSome (W.told engine.writer) AcceptedNothing }
{
    Recorder::new(engine, journal)
        .err()
        .expect(rt, "both come back")
}

// Lives or versions, of a link and of a journal, that differ.
fn do_not_agree(rt: &impl Abort, alloc: Global, lives: (u64, u64), versions: (Version, Version)) {
    let writer = scripted(rt, alloc, &[]);
    let engine = linked(rt, alloc, Four, versions.0, lives.0, writer);
    let journal = journaled(rt, alloc, versions.1, lives.1);
    let (engine, journal) = parts_back(rt, engine, journal);
    are_parts(rt, &engine, &journal, lives, versions, 0);
    drop(engine);
    drop(journal);
}

// A link that made an event, and its journal.
fn are_used(rt: &impl Abort, alloc: Global, version: Version) {
    let writer = PlainWriter(Vec::new(alloc));
    let mut recorder = recording(rt, alloc, Four, version, 4, writer);
    play(rt, alloc, &mut recorder, "mkcur x = ok");
    let (engine, journal) = recorder.into_parts();
    let (engine, journal) = parts_back(rt, engine, journal);
    are_parts(rt, &engine, &journal, (4, 4), (version, version), 1);
    drop(engine);
    drop(journal);
}

#[test]
fn new_links_and_journals_of_one_life_and_version_make_recorders(rt: HostRuntime) {
    let alloc = rt.alloc();
    for &one in &VERSIONS {
        for &other in &VERSIONS {
            do_not_agree(&rt, alloc, (4, 5), (one, other));
            if one != other {
                do_not_agree(&rt, alloc, (4, 4), (one, other));
            }
        }
        are_used(&rt, alloc, one);
    }
}

/// Lives of journals that are out of range.
pub(super) fn lives_have_limits(rt: &impl Abort, alloc: Global) {
    for &life in &[0, 16777217] {
        let made = Journal::new(alloc, life);
        same(rt, life, made.err(), Some(Refusal::Range));
    }
}

const PART: Outcome = Outcome::Turned(Turn::Wrote {
    flow: FlowNo(1),
    seq: 1,
    k: 3,
    whole: false,
});

/// Puts a packet of the second worker, and a write of the link, into a journal.
pub(super) fn push_two(rt: &impl Abort, alloc: Global, journal: &mut Journal)
    requires { length journal.old.entries + 2 ≤ journal.old.life }
{
    let body = Body::new(alloc, b"hi").expect(rt, "a payload");
    let flow = Name::read(b"a").expect(rt, "a name");
    journal.push(Entry {
        event: Event::Arrived { flow, body },
        reply: Outcome::Replied(Reply::Refused(Refusal::NoFlow)),
        source: Source::Worker(2),
    });
    journal.push(Entry {
        event: Event::Written(3),
        reply: PART,
        source: Source::Link,
    });
}

/// The journal has these two entries.
pub(super) fn has_two(rt: &impl Abort, journal: &Journal) {
    same(rt, "two entries", (journal.len(), journal.life()), (2, 2));
    let none = journal.entry(0).is_none() && journal.entry(3).is_none();
    holds(rt, "no other entries", none);
    let first = journal.entry(1).expect(rt, "an entry");
    same(rt, "the first", first.source, Source::Worker(2));
    let second = journal.entry(2).expect(rt, "an entry");
    same(rt, "the second", second.reply, PART);
}

#[test]
fn entries_are_numbered_from_one(rt: HostRuntime) {
    let alloc = rt.alloc();
    lives_have_limits(&rt, alloc);
    let mut journal = Journal::new(alloc, 2).expect(&rt, "a journal");
    push_two(&rt, alloc, &mut journal);
    has_two(&rt, &journal);
    drop(journal);
}
