//! Runs of frames, each cut at each of its bytes. They are cut by a failure, a write of no bytes, a declared fault, an
//! interruption and short writes. A recorder takes them, so each is a run of a link too, and the audits of some are run
//! again.

use super::assertions::same;
use super::audits::{Recording, replays};
use super::made::{LIFE, VERSIONS, recording, scripted};
use super::talk::play;
use super::tariffs::Four;
use share_base::{FlowNo, Turn, Version};
use share_model::Answer;
use std::alloc::Global;
use std::process::Abort;

/// A frame: its flow, its number, and the length of its payload in bytes.
type Frame = (u32, u32, u32);

/// The questions before the first turn and after a fault, the frames in their order, and their bytes in each version.
/// Then come their tariff (cell, overhead and price), and whether the audits are run again.
struct Run {
    ready: &'static str,
    after: &'static str,
    frames: &'static [Frame],
    bytes: [&'static [u8]; 2],
    tariff: (u64, u64, u64),
    is_replayed: bool,
}

static RUNS: [Run; 3] = [
    // Flows of 3, 2 and 1 tickets, as many packets, and cells of 1024.
    Run {
        ready: "1: mktkt 3 base = ticket 1; 1: mktkt 2 base = ticket 2; 1: mktkt 1 base = ticket 3; \
            2: open a 4 3 = flow 1; 2: open b 4 3 = flow 2; 2: open c 4 3 = flow 3; 3: fund 1 flow a = ok; \
            3: fund 2 flow b = ok; 3: fund 3 flow c = ok; 1: send a 61 = packet 1 1; 1: send a 61 = packet 1 2; \
            1: send a 61 = packet 1 3; 2: send b 62 = packet 2 1; 2: send b 62 = packet 2 2; 3: send c 63 = packet 3 1",
        after: "mkcur x = ok; send a 61 = packet 1 4; turn 65535 = no 20 Broken",
        frames: &[
            (1, 1, 1),
            (2, 1, 1),
            (1, 2, 1),
            (1, 3, 1),
            (2, 2, 1),
            (3, 1, 1),
        ],
        bytes: [
            b"\x4c\x01\0\0\0\x01\0\0\0\x01\0\x01a\x4c\x01\0\0\0\x02\0\0\0\x01\0\x01b\
                \x4c\x01\0\0\0\x01\0\0\0\x02\0\x01a\x4c\x01\0\0\0\x01\0\0\0\x03\0\x01a\
                \x4c\x01\0\0\0\x02\0\0\0\x02\0\x01b\x4c\x01\0\0\0\x03\0\0\0\x01\0\x01c",
            b"\x4c\x02\x03\0\0\0\x01\0\0\0\0\0\0\0\x01\0\x01a\x4c\x02\x03\0\0\0\x02\0\0\0\0\0\0\0\x01\0\x01b\
                \x4c\x02\x03\0\0\0\x01\0\0\0\0\0\0\0\x02\0\x01a\x4c\x02\x03\0\0\0\x01\0\0\0\0\0\0\0\x03\0\x01a\
                \x4c\x02\x03\0\0\0\x02\0\0\0\0\0\0\0\x02\0\x01b\x4c\x02\x03\0\0\0\x03\0\0\0\0\0\0\0\x01\0\x01c",
        ],
        tariff: (1024, 0, 1),
        is_replayed: true,
    },
    // One frame, which any byte of it makes cost a cell of 48 and an overhead of 16.
    Run {
        ready: "open a 4 2 = flow 1; mktkt 10 base = ticket 1; fund 1 flow a = ok; \
                send a 6869 = packet 1 1; events = 4",
        after: "mktkt 1 base = ticket 2; fund 2 flow a = ok; send a 6869 = packet 1 2; tickets 1 = 11",
        frames: &[(1, 1, 2)],
        bytes: [
            b"\x4c\x01\0\0\0\x01\0\0\0\x01\0\x02hi",
            b"\x4c\x02\x02\0\0\0\x01\0\0\0\0\0\0\0\x01\0\x02hi",
        ],
        tariff: (48, 16, 2),
        is_replayed: false,
    },
    // The longest payload that stands in its place, and one byte more, which takes memory.
    Run {
        ready: "open a 4 1 = flow 1; mktkt 10 base = ticket 1; fund 1 flow a = ok; \
            send a 6162636465666768696a6b6c6d6e6f70 = packet 1 1; \
            send a 4142434445464748494a4b4c4d4e4f5051 = packet 1 2",
        after: "send a 61 = packet 1 3",
        frames: &[(1, 1, 16), (1, 2, 17)],
        bytes: [
            b"\x4c\x01\0\0\0\x01\0\0\0\x01\0\x10abcdefghijklmnop\
                \x4c\x01\0\0\0\x01\0\0\0\x02\0\x11ABCDEFGHIJKLMNOPQ",
            b"\x4c\x02\x01\0\0\0\x01\0\0\0\0\0\0\0\x01\0\x10abcdefghijklmnop\
                \x4c\x02\x01\0\0\0\x01\0\0\0\0\0\0\0\x02\0\x11ABCDEFGHIJKLMNOPQ",
        ],
        tariff: (1, 0, 1),
        is_replayed: false,
    },
];

/// The answers of the writer once it took some frames whole and then `out` bytes of the next one.
#[derive(Clone, Copy, Debug)]
struct Case {
    version: Version,
    frames: usize,
    out: u32,
    then: Then,
}

#[derive(Clone, Copy, Debug, PartialEq, Eq)]
enum Then {
    /// It answers this, by which the link is broken.
    Fails(Answer),
    /// It is declared to have failed.
    IsDeclared,
    /// It is interrupted, and then takes all.
    IsInterrupted,
    /// It takes all.
    GoesOn,
}

static THEN: [Then; 5] = [
    Then::Fails(Answer::Failed),
    Then::Fails(Answer::Accepted(0)),
    Then::IsDeclared,
    Then::IsInterrupted,
    Then::GoesOn,
];

// The length of a frame in bytes.
fn length(version: Version, frame: Frame) -> u32 {
    frame.2.saturating_add(version.header() as u32)
}

// The cost of that many bytes of a frame.
fn cost(run: &Run, count: u32) -> u64 {
    let (cell, overhead, price) = run.tariff;
    if count == 0 {
        return 0;
    }
    let cells = u64::from(count).div_ceil(cell.max(1));
    cell.saturating_mul(cells)
        .saturating_add(overhead)
        .saturating_mul(price)
}

// The bytes that are out, and the account of a flow, once that many frames are whole and bytes of the next one are
// paid.
fn out_and_account(run: &Run, version: Version, flow: u32, frames: usize, paid: u32) -> (u32, u64) {
    let (mut out, mut account) = (paid, 0_u64);
    for (place, frame) in run.frames.iter().enumerate() {
        let is_whole = place < frames;
        let count = if is_whole {
            length(version, *frame)
        } else {
            paid
        };
        if is_whole {
            out = out.saturating_add(count);
        }
        if frame.0 == flow && place <= frames {
            account = account.saturating_add(cost(run, count));
        }
    }
    (out, account)
}

// That many frames are whole, and of the next one these bytes are out and paid.
fn shows(rt: &impl Abort, recorder: &Recording, run: &Run, case: Case, frames: usize, paid: u32) {
    let link = recorder.engine();
    let [one, two] = run.bytes;
    let bytes = if case.version == Version::One {
        one
    } else {
        two
    };
    for flow in 1..4 {
        let (out, account) = out_and_account(run, case.version, flow, frames, paid);
        let wanted = (bytes.get(..out as usize), account);
        let paid = link.account(FlowNo(flow)).unwrap_or(0);
        same(rt, case, (Some(link.writer().bytes()), paid), wanted);
    }
    same(rt, case, link.events(), recorder.journal().len());
}

// A write of a frame.
fn wrote(frame: Frame, k: u32, whole: bool) -> Turn {
    let (flow, seq) = (FlowNo(frame.0), frame.1);
    Turn::Wrote {
        flow,
        seq,
        k,
        whole,
    }
}

// The next turn of the recorder is this one.
fn turns(rt: &impl Abort, case: Case, recorder: &mut Recording, wanted: Turn) {
    same(rt, case, recorder.turn(65535), wanted);
}

const BROKEN: &str = "turn 65535 = no 20 Broken; torn = no 20 Broken; broken = 1";

// The frame at hand is torn, and nothing more is sent.
fn breaks(
    rt: &impl Abort,
    alloc: Global,
    recorder: &mut Recording,
    run: &Run,
    case: Case,
    frame: Frame,
) {
    let (flow, seq, j) = (FlowNo(frame.0), frame.1, case.out);
    let wanted = Turn::Torn { flow, seq, j };
    if case.then == Then::IsDeclared {
        same(rt, case, recorder.tear(), wanted);
    } else {
        turns(rt, case, recorder, wanted);
    }
    let totals = recorder.engine().totals();
    let left = run.frames.len().saturating_sub(case.frames);
    let waiting = left.saturating_sub(1);
    same(rt, case, (totals.torn, totals.waiting), (1, waiting as u64));
    play(rt, alloc, recorder, BROKEN);
    play(rt, alloc, recorder, run.after);
    shows(rt, recorder, run, case, case.frames, case.out);
}

// The rest of the frame at hand is sent, and the frames after it.
fn goes_on(rt: &impl Abort, recorder: &mut Recording, run: &Run, case: Case) {
    for (place, frame) in run.frames.iter().enumerate() {
        if place >= case.frames {
            let out = if place == case.frames { case.out } else { 0 };
            let k = length(case.version, *frame).saturating_sub(out);
            turns(rt, case, recorder, wrote(*frame, k, true));
        }
    }
    turns(rt, case, recorder, Turn::Idle);
    shows(rt, recorder, run, case, run.frames.len(), 0);
}

fn plays(rt: &impl Abort, alloc: Global, recorder: &mut Recording, run: &Run, case: Case) {
    play(rt, alloc, recorder, run.ready);
    for frame in run.frames.iter().take(case.frames) {
        let whole = wrote(*frame, length(case.version, *frame), true);
        turns(rt, case, recorder, whole);
    }
    let frame = *run.frames.get(case.frames).expect(rt, "a frame");
    if case.out > 0 {
        turns(rt, case, recorder, wrote(frame, case.out, false));
    }
    match case.then {
        Then::Fails(_) | Then::IsDeclared => breaks(rt, alloc, recorder, run, case, frame),
        Then::IsInterrupted => {
            turns(rt, case, recorder, Turn::Again);
            goes_on(rt, recorder, run, case);
        }
        Then::GoesOn => goes_on(rt, recorder, run, case),
    }
}

// The answers of the writer, which then takes all.
fn answers(rt: &impl Abort, alloc: Global, case: Case) -> Vec<Answer> {
    let whole = Answer::Accepted(usize::MAX);
    let mut answers = vec![in alloc; whole; case.frames].expect(rt, "memory");
    let last = match case.then {
        Then::Fails(answer) => answer,
        Then::IsInterrupted => Answer::Interrupted,
        _ => whole,
    };
    if case.out > 0 {
        let part = Answer::Accepted(case.out as usize);
        answers.push(part).expect(rt, "memory");
    }
    answers.push(last).expect(rt, "memory");
    answers
}

fn is_cut(rt: &impl Abort, alloc: Global, run: &Run, case: Case) {
    let answers = answers(rt, alloc, case);
    let writer = scripted(rt, alloc, answers.as_slice());
    drop(answers);
    let mut recorder = recording(rt, alloc, Four, case.version, 64, writer);
    plays(rt, alloc, &mut recorder, run, case);
    if run.is_replayed {
        replays(rt, alloc, &recorder, 64);
    }
    drop(recorder);
}

// Each frame is cut after each count of bytes.
fn frames_are_cut(rt: &impl Abort, alloc: Global, version: Version, run: &Run) {
    for (frames, frame) in run.frames.iter().enumerate() {
        for out in 0..length(version, *frame) {
            for &then in &THEN {
                let case = Case {
                    version,
                    frames,
                    out,
                    then,
                };
                is_cut(rt, alloc, run, case);
            }
        }
    }
}

#[test]
fn frames_are_cut_at_each_byte(rt: HostRuntime) {
    for run in &RUNS {
        frames_are_cut(&rt, rt.alloc(), Version::One, run);
    }
}

#[test]
fn frames_of_version_2_are_cut_at_each_byte(rt: HostRuntime) {
    for run in &RUNS[1..] {
        frames_are_cut(&rt, rt.alloc(), Version::Two, run);
    }
}

#[test]
fn audits_of_frames_of_version_2_that_are_cut_are_run_again(rt: HostRuntime) {
    let [run, _, _] = &RUNS;
    frames_are_cut(&rt, rt.alloc(), Version::Two, run);
}

/// The pieces of frames, each with its flow, its number, its length in bytes, and whether it is the last.
type Pieces = Vec<(Frame, bool)>;

// Cuts each frame into pieces of these lengths, again and again, each cut to the rest of its frame.
fn pieces(rt: &impl Abort, alloc: Global, run: &Run, version: Version, lengths: &[u32]) -> Pieces {
    let mut all = Vec::new(alloc);
    for frame in run.frames {
        let mut left = length(version, *frame);
        for _ in 0..left {
            if left > 0 {
                let place = all.len() % lengths.len().max(1);
                let k = (*lengths.get(place).expect(rt, "a length")).clamp(1, left);
                left -= k;
                all.push(((frame.0, frame.1, k), left == 0))
                    .expect(rt, "memory");
            }
        }
    }
    all
}

// Each piece goes out after an interruption.
fn go_out(
    rt: &impl Abort,
    alloc: Global,
    recorder: &mut Recording,
    run: &Run,
    case: Case,
    pieces: &[(Frame, bool)],
) {
    play(rt, alloc, recorder, run.ready);
    for (piece, whole) in pieces {
        turns(rt, case, recorder, Turn::Again);
        turns(rt, case, recorder, wrote(*piece, piece.2, *whole));
    }
    turns(rt, case, recorder, Turn::Idle);
    shows(rt, recorder, run, case, run.frames.len(), 0);
}

// The writer is interrupted before each piece.
fn goes_out_in(rt: &impl Abort, alloc: Global, run: &Run, version: Version, lengths: &[u32]) {
    let pieces = pieces(rt, alloc, run, version, lengths);
    let mut answers = Vec::new(alloc);
    for (piece, _) in &pieces {
        let two = [Answer::Interrupted, Answer::Accepted(piece.2 as usize)];
        answers.extend_from_slice(&two).expect(rt, "memory");
    }
    let writer = scripted(rt, alloc, answers.as_slice());
    drop(answers);
    let mut recorder = recording(rt, alloc, Four, version, LIFE, writer);
    let case = Case {
        version,
        frames: pieces.len(),
        out: *lengths.first().unwrap_or(&0),
        then: Then::GoesOn,
    };
    go_out(rt, alloc, &mut recorder, run, case, pieces.as_slice());
    drop(pieces);
    drop(recorder);
}

/// In the header, up to its end, and in the payload; then in the header, over its end, and in the payload.
static PARTS: [&[u32]; 2] = [
    &[3, 9, 1, 14, 1, 11, 2, 15, 1],
    &[3, 14, 1, 14, 1, 16, 2, 15, 1],
];

#[test]
fn frames_go_out_in_pieces(rt: HostRuntime) {
    let alloc = rt.alloc();
    let [_, one, two] = &RUNS;
    for (&version, &parts) in VERSIONS.iter().zip(&PARTS) {
        goes_out_in(&rt, alloc, two, version, parts);
        goes_out_in(&rt, alloc, two, version, &[1]);
        for k in 1..34 {
            goes_out_in(&rt, alloc, two, version, &[k, 34]);
        }
        for k in 1..19 {
            for m in 1..19 {
                goes_out_in(&rt, alloc, one, version, &[k, m, 19]);
            }
        }
    }
}
