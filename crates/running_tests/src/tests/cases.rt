//! Worked sessions of running links, served and settled: the answers if something is missing or unsent, and if all is
//! there. Whole runs follow, with workers and clerks in threads of their own.
ghost use Rattle.std.specs.Prelude.{◌≡◌};
ghost use Rattle.share_journal.specs.Records.{AcceptedNothing};

use super::assertions::{holds, same};
use super::made::name;
use super::session::plays;
use super::stage::{
    Books, BrandedEnd, NewLink, Slot, Stage, Without, new_link, settled, staged, unsettled,
};
use crate::ByByte;
use share_base::Event;
use share_core::Engine;
use share_ingress::{Done, Ended, Gate, IngressReader, Why, run_worker};
use share_journal::{Journal, Recorder};
use share_locked::{LinkBrand, LinkEnd, WhyUnsettled, serve_while};
use share_model::{Answer, PlainReader, Scripted, Tape};
use share_script::run_script;
use std::alloc::Global;
use std::marker::Brand;
use std::process::Abort;
use std::sync::Wait;
use std::thread::Threads;
use std::{slice, thread};

/// The most reads and repeated offers that a worker makes.
const TURNS: u64 = 1 << 24;

/// The first commands of a link, on which most sessions go on.
pub(super) const OPENED: &str =
    "C1 open a 4 1 = 1 flow 1; C1 mktkt 10 base = 2 ticket 1; C1 fund 1 flow a = 3 ok";

/// The frames of the first two packets of the flow a, and of the longest one.
const FRAMES: &[u8; 36] = b"\x4c\x02\x01\0\0\0\x01\0\0\0\0\0\0\0\x01\0\x01a\
    \x4c\x02\x01\0\0\0\x01\0\0\0\0\0\0\0\x02\0\x01b";

const FIRST_FRAME: &[u8; 18] = b"\x4c\x02\x01\0\0\0\x01\0\0\0\0\0\0\0\x01\0\x01a";

const LONG_HEADER: &[u8; 17] = b"\x4c\x02\x01\0\0\0\x01\0\0\0\0\0\0\0\x01\x23\x28";

const LONGEST: &[u8; 9000] = &[b'x'; 9000];

/// The flow is held, its ticket amended, and it is resumed. It is held again when a part of its first frame is out.
const HELD_IN_MID_FRAME: &str = "\
    E1 a a = 1; E1 a b = 2; admit = 1 1 packet 1 1; admit = 1 2 packet 1 2; C1 hold a = 6 ok; \
    C1 hold a = 7 no 21 Held; C1 hold b = 8 no 7 NoFlow; C1 amend 1 20 = 9 ok; C1 amend 1 0 = 10 no 4 Range; \
    C1 amend 2 1 = 11 no 6 NoTicket; turn 65535 = idle; C1 resume b = 12 no 7 NoFlow; C1 resume a = 13 ok; \
    C1 resume a = 14 no 22 NotHeld; turn 5 = wrote 1 1 5 part; C1 hold a = 16 ok";

/// The frame is cut before the last byte of its header. Each of its bytes is paid.
const LONGEST_SENT: &str = "\
    E1 a x*9000 = 1; admit = 1 1 packet 1 1; turn 16 = wrote 1 1 16 part; turn 65535 = wrote 1 1 9001 whole; \
    turn 65535 = idle; C1 close a = 7 closed 1 0 9017";

/// An offer that a spent life leaves in the queue, whose only place it has.
const LEFT_OVER: &str = "\
    E1 a a = 1; admit = spent; serve = spent; turn 65535 = no 2 Spent; entries = 3; E1 a b = full";

const OF_TWO_CLERKS: &str = "\
    C1 open a 4 1 = 1 flow 1; C1 mktkt 1 base = 2 ticket 1; C1 fund 1 flow a = 3 ok; C1 open b 4 1 = 4 flow 2; \
    C1 mktkt 1 base = 5 ticket 2; C1 fund 2 flow b = 6 ok";

const OF_EIGHT_CLERKS: &str = "\
    C1 open a 4 1 = 1 flow 1; C1 mktkt 1 base = 2 ticket 1; C1 fund 1 flow a = 3 ok; \
    C2 open b 4 1 = 4 flow 2; C2 mktkt 1 base = 5 ticket 2; C2 fund 2 flow b = 6 ok; \
    C3 open c 4 1 = 7 flow 3; C3 mktkt 1 base = 8 ticket 3; C3 fund 3 flow c = 9 ok; \
    C4 open d 4 1 = 10 flow 4; C4 mktkt 1 base = 11 ticket 4; C4 fund 4 flow d = 12 ok; \
    C5 open e 4 1 = 13 flow 5; C5 mktkt 1 base = 14 ticket 5; C5 fund 5 flow e = 15 ok; \
    C6 open f 4 1 = 16 flow 6; C6 mktkt 1 base = 17 ticket 6; C6 fund 6 flow f = 18 ok; \
    C7 open g 4 1 = 19 flow 7; C7 mktkt 1 base = 20 ticket 7; C7 fund 7 flow g = 21 ok; \
    C8 open h 4 1 = 22 flow 8; C8 mktkt 1 base = 23 ticket 8; C8 fund 8 flow h = 24 ok; clerk = no 17 TableFull";

/// A session on a new link with that many places in its queue, workers, clerks and events in its life. First come rows.
/// Then the link is served while others are played, each in a thread of its own. Meanwhile each worker brings a record
/// for a flow for each byte. After that come rows again.
#[derive(Clone, Copy)]
struct Case<'a> {
    name: &'static str,
    queue: (usize, usize),
    clerks: u64,
    life: u64,
    rows: &'static [&'static str],
    meanwhile: &'static [&'static str],
    brings: &'static [(&'static str, &'static str)],
    // Then it is not settled without these, for these reasons.
    tries: &'static [(Without, WhyUnsettled)],
    after: &'static [&'static str],
    // It is settled with these books, if there are some, and has written that many bytes, which begin with these
    // pieces.
    books: Option<Books<'static>>,
    bytes: usize,
    pieces: &'a [&'static [u8]],
}

const NOTHING: Case<'static> = Case {
    name: "a link without a clerk and an event",
    queue: (4, 2),
    clerks: 0,
    life: 65536,
    rows: &[],
    meanwhile: &[],
    brings: &[],
    tries: &[],
    after: &[],
    books: Some((&[0, 0], 0, 0, 0)),
    bytes: 0,
    pieces: &[],
};

const OPEN: Case<'static> = Case {
    name: "a link with a flow",
    queue: (4, 1),
    clerks: 1,
    rows: &[OPENED],
    books: Some((&[0], 0, 3, 3)),
    ..NOTHING
};

static CASES: [Case<'static>; 13] = [
    NOTHING,
    OPEN,
    Case {
        name: "two clerks",
        queue: (7, 1),
        clerks: 2,
        rows: &[
            "capacity = 7; entries = 0; C2 mkcur x = 1 ok; C2 mkcur x = 2 no 9 Taken; entries = 2",
        ],
        books: Some((&[0], 0, 2, 2)),
        ..NOTHING
    },
    Case {
        name: "an end is missing at first",
        tries: &[(Without::LastEnd, WhyUnsettled::Mismatch)],
        ..NOTHING
    },
    Case {
        name: "each of two clerks is missing at first",
        clerks: 2,
        tries: &[
            (Without::LastClerk, WhyUnsettled::Mismatch),
            (Without::LastClerk, WhyUnsettled::Mismatch),
            (Without::LastClerk, WhyUnsettled::Mismatch),
        ],
        ..OPEN
    },
    Case {
        name: "a frame is unsent at first",
        rows: &[OPENED, "E1 a a = 1; admit = 1 1 packet 1 1; admit = empty"],
        tries: &[(Without::Nothing, WhyUnsettled::Unsent)],
        after: &["turn 65535 = wrote 1 1 18 whole; turn 65535 = idle"],
        books: Some((&[1], 1, 3, 5)),
        bytes: 18,
        pieces: &[FIRST_FRAME],
        ..OPEN
    },
    Case {
        name: "a flow is held in mid frame, and when the link is settled",
        rows: &[OPENED, HELD_IN_MID_FRAME],
        tries: &[(Without::Nothing, WhyUnsettled::Unsent)],
        after: &["turn 65535 = wrote 1 1 13 whole; turn 65535 = idle"],
        books: Some((&[2], 2, 13, 17)),
        bytes: 18,
        pieces: &[FIRST_FRAME],
        ..OPEN
    },
    Case {
        name: "a service ends at its stop while a packet of a held flow waits",
        after: &["C1 hold a = 4 ok; E1 a a = 1; stop = drained; entries = 5"],
        books: Some((&[1], 1, 4, 5)),
        ..OPEN
    },
    Case {
        name: "the longest packet",
        after: &[LONGEST_SENT],
        books: Some((&[1], 1, 4, 7)),
        bytes: 9017,
        pieces: &[LONG_HEADER, LONGEST],
        ..OPEN
    },
    Case {
        name: "a life is spent while an offer is queued",
        queue: (1, 1),
        life: 3,
        rows: &[OPENED, LEFT_OVER],
        tries: &[(Without::Nothing, WhyUnsettled::LeftOver)],
        books: None,
        ..OPEN
    },
    Case {
        name: "an offer comes late to a link that is served, and one to a link that is served no more",
        clerks: 0,
        rows: &[],
        meanwhile: &["pause 50; E1 a x = 1; comes 1"],
        after: &["E1 a y = 2; pause 5; entries = 1"],
        books: None,
        ..OPEN
    },
    Case {
        name: "two workers and two clerks",
        queue: (4, 2),
        clerks: 2,
        life: 16,
        rows: &[OF_TWO_CLERKS],
        meanwhile: &[
            "C1 open c 4 1; shows c = yes",
            "C2 open d 4 1; shows d = yes",
        ],
        brings: &[("a", "ab"), ("b", "c")],
        books: Some((&[2, 1], 3, 8, 14)),
        bytes: 54,
        ..NOTHING
    },
    Case {
        name: "eight workers and eight clerks",
        queue: (2, 8),
        clerks: 8,
        life: 128,
        rows: &[OF_EIGHT_CLERKS],
        meanwhile: &[
            "shows a = yes",
            "shows b = yes",
            "shows c = yes",
            "shows d = yes",
            "shows e = yes",
            "shows f = yes",
            "shows g = yes",
            "shows h = yes",
        ],
        brings: &[
            ("a", "abc"),
            ("b", "abc"),
            ("c", "abc"),
            ("d", "abc"),
            ("e", "abc"),
            ("f", "abc"),
            ("g", "abc"),
            ("h", "abc"),
        ],
        books: Some((&[3; 8], 24, 24, 72)),
        bytes: 432,
        ..NOTHING
    },
];

/// Lets a worker go on as far as the link allows, until the link has ended.
#[derive(Drop)]
struct AtPace<'a, T, L: LinkBrand> {
    rt: &'a T,
    stage: &'a Stage<Scripted, L>,
    worker: u64,
}

impl<'a, T: Wait, L: LinkBrand> Gate for AtPace<'a, T, L> {
    ghost told = { λ _ _ _. Unit {0} };

    fn before(&mut self, n: u64) {
        self.stage.pace.wait(self.rt, self.worker, n);
    }

    fn offered(&mut self, _n: u64) {
        self.stage.pace.ring();
    }

    fn full(&mut self) -> bool {
        thread::yield_now();
        !self.stage.has_ended.is_set()
    }
}

fn adds(rt: &impl Abort, records: &mut Vec<u8>, bytes: &[u8]) {
    records.extend_from_slice(bytes).expect(rt, "memory");
}

// A record for a flow for each byte.
fn records(rt: &impl Abort, alloc: Global, flow: &str, bytes: &str) -> Vec<u8> {
    let mut records = Vec::new(alloc);
    for byte in bytes.as_bytes() {
        adds(rt, &mut records, &[1]);
        adds(rt, &mut records, flow.as_bytes());
        adds(rt, &mut records, &[0, 1, *byte]);
    }
    records
}

// A worker reads all its records, and queues them.
fn works<T: Abort + Wait, L: LinkBrand>(
    rt: &T,
    alloc: Global,
    stage: &Stage<Scripted, L>,
    worker: u64,
    slot: &Slot<L>,
    brings: &(&str, &str),
) {
    let (flow, bytes) = *brings;
    let records = records(rt, alloc, flow, bytes);
    let reader = IngressReader::new(alloc, PlainReader(records.as_slice()), TURNS);
    let reader = reader.ok().expect(rt, "a reader");
    let linked = slot.lock(rt).take().expect(rt, "an end");
    let gate = AtPace { rt, stage, worker };
    stage.pace.end_waiting(worker);
    let done = run_worker(rt, reader, linked.into_end(), gate);
    stage.pace.begin_waiting(worker);
    let Done {
        end,
        gate,
        why,
        tally,
    } = done;
    drop(gate);
    drop(records);
    *slot.lock(rt) = Some(BrandedEnd::new(end));
    same(
        rt,
        flow,
        (why, tally),
        (Why::Ended(Ended::End), bytes.len() as u64),
    );
}

// Plays rows and lets the workers work, each in a thread of its own.
fn all_work<T, L>(rt: &T, alloc: Global, stage: &Stage<Scripted, L>, case: &Case<'_>)
where
    T: Abort + Threads + Wait + Sync,
    L: LinkBrand + Send,
{
    thread::scope(thread::scope_env(), rt, |scope| {
        for rows in case.meanwhile {
            let started = scope.spawn(move || plays(rt, alloc, stage, slice::from_ref(rows)));
            holds(rt, *rows, started.is_ok());
        }
        for (at, (slot, brings)) in stage.ends.iter().zip(case.brings).enumerate() {
            let worker = at as u64 + 1;
            let started = scope.spawn(move || works(rt, alloc, stage, worker, slot, brings));
            holds(rt, brings.0, started.is_ok());
        }
    });
}

// The link is served only meanwhile.
fn is_served<T, L>(rt: &T, alloc: Global, stage: &Stage<Scripted, L>, case: &Case<'_>)
where
    T: Abort + Threads + Wait + Sync,
    L: LinkBrand + Send,
{
    let (end, has_thread) = serve_while(
        rt,
        &stage.port,
        &stage.pace,
        stage,
        |has_thread| -> bool {
            all_work(rt, alloc, stage, case);
            has_thread
        },
    );
    let found = (end, has_thread, stage.has_ended.is_set());
    same(rt, case.name, found, (Some(LinkEnd::Drained), true, true));
}

// The payloads that came for a flow are these bytes, in their order.
fn came(rt: &impl Abort, journal: &Journal, brings: &(&str, &str)) {
    let (name_of_flow, bytes) = *brings;
    let name = name(rt, name_of_flow.as_bytes());
    let wanted = bytes.as_bytes();
    let mut found: usize = 0;
    for entry in journal.entries() {
        if let Event::Arrived { flow, body } = &entry.event {
            if *flow == name {
                same(rt, name_of_flow, body.as_slice().first(), wanted.get(found));
                found = found.saturating_add(1);
            }
        }
    }
    same(rt, name_of_flow, found, wanted.len());
}

// The audit, run as a script in a life as long, gives these bytes.
fn replays(rt: &impl Abort, alloc: Global, row: &str, recorder: &Recorder<Scripted, ByByte>) {
    let mut audit = Tape::new(alloc);
    holds(rt, row, recorder.journal().audit(&mut audit).is_ok());
    let mut output = Tape::new(alloc);
    let engine = Engine::new(alloc, ByByte, recorder.life(), Tape::new(alloc));
    let engine = engine.expect(rt, "a link");
    let ran = run_script(alloc, engine, &mut PlainReader(audit.bytes()), &mut output);
    let engine = ran.ok().expect(rt, "a run");
    holds(
        rt,
        row,
        engine.writer().bytes() == recorder.engine().writer().bytes(),
    );
    drop(engine);
    drop(output);
    drop(audit);
}

// A settled link has written and taken what the case says.
fn has_settled(
    rt: &impl Abort,
    alloc: Global,
    recorder: &Recorder<Scripted, ByByte>,
    case: &Case<'_>,
) {
    let mut rest = recorder.engine().writer().bytes();
    same(rt, case.name, rest.len(), case.bytes);
    for piece in case.pieces {
        rest = rest.strip_prefix(*piece).expect(rt, case.name);
    }
    for brings in case.brings {
        came(rt, recorder.journal(), brings);
    }
    replays(rt, alloc, case.name, recorder);
}

// Runs a case on a link.
fn runs<T, L>(rt: &T, alloc: Global, new: NewLink<Scripted>, case: &Case<'_>)
where
    T: Abort + Threads + Wait + Sync,
    L: LinkBrand + Send,
    requires { new ≡ L.link }
{
    let mut stage = staged::<Scripted, L>(rt, alloc, new, case.clerks);
    plays(rt, alloc, &stage, case.rows);
    if !case.meanwhile.is_empty() {
        is_served(rt, alloc, &stage, case);
    }
    for (without, why) in case.tries {
        stage = unsettled(rt, alloc, stage, *without, *why);
    }
    plays(rt, alloc, &stage, case.after);
    match case.books {
        None => drop(stage),
        Some(books) => {
            let recorder = settled(rt, alloc, case.name, stage, books);
            has_settled(rt, alloc, &recorder, case);
            drop(recorder);
        }
    }
}

// On a new link whose writer gives these answers, and then accepts all.
fn passes<T>(rt: &T, alloc: Global, answers: &[Answer], case: &Case<'_>)
where
    T: Abort + Threads + Wait + Sync,
{
    let writer = scripted(rt, alloc, answers);
    let new = new_link(rt, alloc, case.queue.0, case.queue.1, case.life, writer);
    runs::<T, Brand>(rt, alloc, new, case);
}

fn scripted(rt: &impl Abort, alloc: Global, answers: &[Answer]) -> Scripted
    ensures { AcceptedNothing result.told }
{
    Scripted::new(alloc, Vec::from_slice(alloc, answers).expect(rt, "memory"))
}

#[test]
fn links_settle_as_worked(rt: HostRuntime) {
    for case in &CASES {
        passes(&rt, rt.alloc(), &[], case);
    }
}

/// The link is served after its stop, and then nothing more is done.
const BROKEN: &[&str] = &[
    "E1 a a = 1; E1 a b = 2; stop = broken; turn 65535 = no 20 Broken; stop = broken",
];

const DRAINED: &[&str] = &[
    "E1 a a = 1; E1 a b = 2; stop = drained; turn 65535 = idle; stop = drained",
];

fn served(is_torn: bool) -> &'static [&'static str] {
    if is_torn { BROKEN } else { DRAINED }
}

// Two packets are written in that many writes, up to a fault if there is one: that is no reason not to settle.
fn is_written<T>(rt: &T, alloc: Global, answers: &[Answer], bytes: usize, writes: usize)
where
    T: Abort + Threads + Wait + Sync,
{
    let is_torn = bytes < FRAMES.len();
    let turns = writes.saturating_add(usize::from(is_torn)) as u64;
    let frames = FRAMES.get(..bytes).expect(rt, "two frames");
    let case = Case {
        name: "two frames, and how their writer answers",
        after: served(is_torn),
        books: Some((&[2], 2, 3, turns.saturating_add(5))),
        bytes,
        pieces: &[frames],
        ..OPEN
    };
    passes(rt, alloc, answers, &case);
}

// The writer takes this many bytes, a frame at most in each call, and then fails, accepts nothing or is interrupted.
fn is_cut_at<T>(rt: &T, alloc: Global, bytes: usize)
where
    T: Abort + Threads + Wait + Sync,
{
    let mut answers = Vec::new(alloc);
    for &count in &[bytes.min(18), bytes.saturating_sub(18)] {
        if count > 0 {
            answers.push(Answer::Accepted(count)).expect(rt, "memory");
        }
    }
    let writes = answers.len();
    for &last in &[Answer::Failed, Answer::Accepted(0)] {
        answers.push(last).expect(rt, "memory");
        is_written(rt, alloc, answers.as_slice(), bytes, writes);
        let _ = answers.pop();
    }
    answers.push(Answer::Interrupted).expect(rt, "memory");
    let wanted = if bytes % 18 == 0 { 2 } else { 3 };
    is_written(rt, alloc, answers.as_slice(), FRAMES.len(), wanted);
    drop(answers);
}

#[test]
fn links_end_as_their_writers_answer(rt: HostRuntime) {
    let alloc = rt.alloc();
    for bytes in 0..36 {
        is_cut_at(&rt, alloc, bytes);
    }
    for k in 1..19_usize {
        let answers = vec![in alloc; Answer::Accepted(k); 36].expect(&rt, "memory");
        let writes = 18_usize.div_ceil(k.max(1)).saturating_mul(2);
        is_written(&rt, alloc, answers.as_slice(), FRAMES.len(), writes);
        drop(answers);
    }
}
